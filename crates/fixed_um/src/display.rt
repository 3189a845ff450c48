// Values as they are printed: in millimetres with three decimals, directions with six.

ghost use Rattle.std.specs.Prelude.{◌≡◌, ◌∷◌, ◌++◌, [], ◌%◌, ◌+◌, ◌<◌, Some, decimal, codes, unsigned_abs};
ghost use Rattle.fixed_um.specs.Written.{last_digit, minus_sign, three_digits, written, written_component, written_direction, printed_point};

use crate::directions::Dir;
use crate::lengths::{Point, Um};
use crate::naming::Name;
use std::fmt;

/// The minus of a number below zero.
fn minus(value: i64) -> &'static str
    ensures { result.now ≡ minus_sign value }
{
    if value < 0 { "-" } else { "" }
}

impl fmt::Display for Um {
    ghost output = { λ u. Some (written u) };

    #[tactic(auto, unfolding(crate::specs::Written::written), using(crate::proofs::Displayed::digit))]
    fn fmt<W: fmt::Write>(&self, f: &mut fmt::Formatter<W>) -> fmt::Result {
        let micrometres = self.get();
        let magnitude = micrometres.unsigned_abs();
        let minus = minus(micrometres);
        let whole = magnitude / 1000;
        let tenths = magnitude / 100 % 10;
        let hundredths = magnitude / 10 % 10;
        let thousandths = magnitude % 10;
        write!(f, "{minus}{whole}.{tenths}{hundredths}{thousandths}")
    }
}

impl fmt::Display for Point {
    ghost output = { λ p. Some (printed_point p) };

    fn fmt<W: fmt::Write>(&self, f: &mut fmt::Formatter<W>) -> fmt::Result {
        let x = self.x;
        let y = self.y;
        let z = self.z;
        write!(f, "{x} {y} {z}")
    }
}

/// A component of a direction, in millionths.
#[derive(Clone, Copy)]
struct Component(i64);

impl fmt::Display for Component {
    ghost output = { λ c. Some (written_component c.0) };

    #[tactic(auto, unfolding(crate::specs::Written::written_component), using(crate::proofs::Displayed::digit))]
    fn fmt<W: fmt::Write>(&self, f: &mut fmt::Formatter<W>) -> fmt::Result {
        let magnitude = self.0.unsigned_abs();
        let minus = minus(self.0);
        let whole = magnitude / 1_000_000;
        let first = magnitude / 1000 / 100 % 10;
        let second = magnitude / 1000 / 10 % 10;
        let third = magnitude / 1000 % 10;
        let fourth = magnitude / 100 % 10;
        let fifth = magnitude / 10 % 10;
        let sixth = magnitude % 10;
        write!(
            f,
            "{minus}{whole}.{first}{second}{third}{fourth}{fifth}{sixth}"
        )
    }
}

impl fmt::Display for Dir {
    ghost output = { λ d. Some (written_direction d (codes " ")) };

    fn fmt<W: fmt::Write>(&self, f: &mut fmt::Formatter<W>) -> fmt::Result {
        let i = Component(i64::from(self.i));
        let j = Component(i64::from(self.j));
        let k = Component(i64::from(self.k));
        write!(f, "{i} {j} {k}")
    }
}

impl fmt::Display for Name {
    ghost output = { λ n. Some n };

    #[tactic(auto, using(crate::proofs::Displayed::name_is_text))]
    fn fmt<W: fmt::Write>(&self, f: &mut fmt::Formatter<W>) -> fmt::Result {
        match std::str::from_utf8(self.as_bytes()) {
            Ok(text) => f.write_str(text),
            Err(_) => unreachable!("a name is ASCII"),
        }
    }
}
