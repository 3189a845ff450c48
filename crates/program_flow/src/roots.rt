// Roots of numbers.

ghost use Rattle.std.specs.Prelude.{◌≡◌, ◌<◌, ◌≤◌, ◌*◌, ◌/◌, ◌^◌};
ghost use Rattle.program_flow.specs.Numbers.{bound};
ghost use Rattle.program_flow.specs.Roots as spec;

use crate::faults::ValueFault;
use crate::numbers::{Number, reduced};

/// Units in one.
const UNITS: u128 = 1_000_000_000_000;

/// A fraction in units of 10^-24, without the rest: in two stages, so that it fits.
fn in_square_units(over: u128, under: u128) -> u128
    requires some { 0 < under }
    requires over { over ≤ bound }
    requires under { under ≤ bound }
    requires within { over ≤ under * 10 ^ 12 }
    ensures value { result ≡ over * 10 ^ 24 / under }
    ensures within { result ≤ 10 ^ 36 }
{
    let scaled = over * UNITS;
    let rest = scaled % under;
    scaled / under * UNITS + rest * UNITS / under
}

fn whole_root(square: u128) -> u128
    requires { square ≤ 10 ^ 36 }
    ensures value { result ≡ spec.whole_root square }
    ensures within { result ≤ 10 ^ 18 }
{
    square.isqrt()
}

/// The root of a number up to 10^12, in whole units of 10^-12; or `NegativeRoot` or `PastBound`.
#[tactic(auto, unfolding(crate::specs::Roots::root))]
pub(crate) fn root(number: Number) -> Result<Number, ValueFault>
    ensures { result ≡ spec.root number }
{
    let (negative, over, under) = number.split();
    if negative {
        return Err(ValueFault::NegativeRoot);
    }
    if over > under * UNITS {
        return Err(ValueFault::PastBound);
    }
    let units = whole_root(in_square_units(over, under));
    reduced(units as i128, UNITS)
}
