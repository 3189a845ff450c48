// Values as they are printed: like all lengths and directions, but not bound to the wire limit.

ghost use Rattle.std.specs.Prelude.{◌≡◌, ◌%◌, [], Some, codes};
ghost use Rattle.fixed_um.specs.Written.{minus_sign, written, written_component};

use std::fmt;

fn minus(value: i128) -> &'static str
    ensures { result.now ≡ minus_sign value }
{
    if value < 0 { "-" } else { "" }
}

/// A length in micrometres, which is printed in millimetres with three decimals; a deviation may be longer than a length on a wire.
#[derive(Clone, Copy)]
pub struct Micrometres(pub i128);

impl fmt::Display for Micrometres {
    ghost output = { λ m. Some (written m.0) };

    #[tactic(auto, unfolding(fixed_um::specs::Written::written), using(crate::proofs::Digits::last))]
    fn fmt<W: fmt::Write>(&self, f: &mut fmt::Formatter<W>) -> fmt::Result {
        let magnitude = self.0.unsigned_abs();
        let minus = minus(self.0);
        let whole = magnitude / 1000;
        let tenths = magnitude / 100 % 10;
        let hundredths = magnitude / 10 % 10;
        let thousandths = magnitude % 10;
        write!(f, "{minus}{whole}.{tenths}{hundredths}{thousandths}")
    }
}

/// A component of a direction in millionths, which is printed with six decimals.
#[derive(Clone, Copy)]
pub(crate) struct Millionths(pub i64);

impl fmt::Display for Millionths {
    ghost output = { λ c. Some (written_component c.0) };

    #[tactic(auto, unfolding(fixed_um::specs::Written::written_component), using(crate::proofs::Digits::last))]
    fn fmt<W: fmt::Write>(&self, f: &mut fmt::Formatter<W>) -> fmt::Result {
        let magnitude = self.0.unsigned_abs();
        let minus = minus(i128::from(self.0));
        let whole = magnitude / 1_000_000;
        let first = magnitude / 1000 / 100 % 10;
        let second = magnitude / 1000 / 10 % 10;
        let third = magnitude / 1000 % 10;
        let fourth = magnitude / 100 % 10;
        let fifth = magnitude / 10 % 10;
        let sixth = magnitude % 10;
        write!(
            f,
            "{minus}{whole}.{first}{second}{third}{fourth}{fifth}{sixth}"
        )
    }
}
