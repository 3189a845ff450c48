// Sines, cosines and tangents, and angles in other units.

ghost use Rattle.std.specs.Prelude.{◌≡◌, ◌<◌, ◌≤◌, ◌+◌, ◌*◌, ◌^◌};
ghost use Rattle.program_flow.specs.Angles as spec;
ghost use Rattle.program_flow.specs.Numbers.{bound};

use crate::faults::ValueFault;
use crate::numbers::{Number, reduced};

/// Units of 10^-17 in one.
const UNITS: u128 = 100_000_000_000_000_000;

/// The terms of a series after the first.
const TERMS: u64 = 20;

/// The decimal of twelve places nearest to a fraction of 10^-12.
fn decimal_of(negative: bool, over: u128, under: u128) -> Result<Number, ValueFault>
    requires over { over ≤ 155 * 10 ^ 36 }
    requires some { 0 < under }
    requires under { under ≤ 10 ^ 27 }
    ensures { result ≡ spec.decimal_of negative over under }
{
    let rounded = ((2 * over + under) / (2 * under)) as i128;
    reduced(if negative { -rounded } else { rounded }, 1_000_000_000_000)
}

/// A sum that is divided by a number, times the square of a fraction.
fn term(over: u128, under: u128, divisor: u128, sum: u128) -> u128
    requires over { over ≤ bound }
    requires some { 0 < under }
    requires under { under ≤ bound }
    requires ratio { over ≤ under * 7 }
    requires divisor { (0 < divisor) × (divisor ≤ 10000) }
    requires sum { sum ≤ 63 * 10 ^ 17 }
    ensures { result ≡ spec.term over under divisor sum }
{
    over * (over * sum / under) / (under * divisor)
}

/// What is added and what is subtracted in a partial sum.
#[tactic(auto, unfolding(crate::specs::Angles::series))]
fn series(over: u128, under: u128, terms: u64, first: u64) -> (u128, u128)
    requires over { over ≤ bound }
    requires some { 0 < under }
    requires under { under ≤ bound }
    requires ratio { over ≤ under * 7 }
    requires first { (0 < first) × (first + 2 * terms < 100) }
    ensures { result ≡ spec.series over under terms first }
{
    if terms == 0 {
        return (UNITS, 0);
    }
    let (plus, minus) = series(over, under, terms - 1, first + 2);
    let divisor = u128::from(first * (first + 1));
    let added = term(over, under, divisor, minus);
    (UNITS + added, term(over, under, divisor, plus))
}

/// The cosine of a number of radians up to 7, or `PastBound`.
#[tactic(auto, unfolding(crate::specs::Angles::cosine))]
pub fn cosine(number: Number) -> Result<Number, ValueFault>
    ensures { result ≡ spec.cosine number }
{
    let (_, over, under) = number.split();
    if over > under * 7 {
        return Err(ValueFault::PastBound);
    }
    let (plus, minus) = series(over, under, TERMS, 1);
    decimal_of(plus < minus, plus.abs_diff(minus), 100_000)
}

/// The sine of a number of radians up to 7, or `PastBound`.
#[tactic(auto, unfolding(crate::specs::Angles::sine))]
pub fn sine(number: Number) -> Result<Number, ValueFault>
    ensures { result ≡ spec.sine number }
{
    let (negative, over, under) = number.split();
    if over > under * 7 {
        return Err(ValueFault::PastBound);
    }
    let (plus, minus) = series(over, under, TERMS, 2);
    let turned = if negative {
        plus >= minus
    } else {
        plus < minus
    };
    decimal_of(turned, plus.abs_diff(minus) * over, under * 100_000)
}

fn differ(left: bool, right: bool) -> bool
    ensures { result ≡ spec.differ left right }
{
    if left { !right } else { right }
}

/// The quotient of a sine and a cosine, which are in units of 10^-17, or `PastBound` if it would not be near to the true one.
fn quotient_of(negative: bool, sine: u128, cosine: u128) -> Result<Number, ValueFault>
    requires sine { sine ≤ 10815 * 10 ^ 17 }
    requires cosine { cosine ≤ 1545 * 10 ^ 17 }
    ensures { result ≡ spec.quotient_by negative (sine * 10 ^ 12) cosine }
{
    if cosine == 0 {
        return Err(ValueFault::PastBound);
    }
    let over = sine * 1_000_000_000_000;
    let rounded = (2 * over + cosine) / (2 * cosine);
    if (rounded + 1_000_000_000_000) * 2000 > cosine {
        return Err(ValueFault::PastBound);
    }
    decimal_of(negative, over, cosine)
}

/// The tangent of a number of radians up to 7, or `PastBound`, also if one more than it is past 50 times the cosine.
#[tactic(auto, unfolding(crate::specs::Angles::tangent))]
pub(crate) fn tangent(number: Number) -> Result<Number, ValueFault>
    ensures { result ≡ spec.tangent number }
{
    let (negative, over, under) = number.split();
    if over > under * 7 {
        return Err(ValueFault::PastBound);
    }
    let (more, less) = series(over, under, TERMS, 2);
    let (plus, minus) = series(over, under, TERMS, 1);
    let turned = differ(negative, differ(more < less, plus < minus));
    quotient_of(
        turned,
        more.abs_diff(less) * over / under,
        plus.abs_diff(minus),
    )
}

/// Degrees up to 10^6 in radians, or `PastBound`.
#[tactic(auto, unfolding(crate::specs::Angles::in_radians))]
pub fn in_radians(number: Number) -> Result<Number, ValueFault>
    ensures { result ≡ spec.in_radians number }
{
    let (negative, over, under) = number.split();
    if over > under * 1_000_000 {
        return Err(ValueFault::PastBound);
    }
    decimal_of(
        negative,
        over * 17_453_292_519_943_295_769,
        under * 1_000_000_000,
    )
}

/// Radians up to 10^6 in degrees, or `PastBound`.
#[tactic(auto, unfolding(crate::specs::Angles::in_degrees))]
pub(crate) fn in_degrees(number: Number) -> Result<Number, ValueFault>
    ensures { result ≡ spec.in_degrees number }
{
    let (negative, over, under) = number.split();
    if over > under * 1_000_000 {
        return Err(ValueFault::PastBound);
    }
    decimal_of(
        negative,
        over * 57_295_779_513_082_320_877,
        under * 1_000_000,
    )
}
