// Numerals that one machine word takes: no exponent, and at most 19 bytes after the sign. Nearly all that machines and programs write
// are of this form.

ghost use Rattle.std.specs.Prelude.{◌≡◌, ◌<◌, ◌^◌, IfSome};
ghost use Rattle.std.specs.Str.Parse.{digits_value_after};
ghost use Rattle.fixed_um.specs.Scan.{digits_front, digits_behind};
ghost use Rattle.fixed_um.specs.Taken.{IsPlain};

use crate::scanning::cut_sign;

/// What such a numeral says: its sign, the number that its digits on both sides of the point write, and how many of them follow it.
#[derive(Clone, Copy)]
pub struct Plain {
    pub negative: bool,
    pub digits: u64,
    pub places: usize,
}

/// The number that the digits at the front write after a number that is there already, and what follows them.
fn read_digits(front: u64, text: &[u8]) -> (u64, &[u8])
    requires fits { digits_value_after 10 front (digits_front text.now) < 10 ^ 19 }
    ensures value { result.0 ≡ digits_value_after 10 front (digits_front text.now) }
    ensures behind { result.1.now ≡ digits_behind text.now }
{
    let mut value = front;
    for index in 0..text.len() {
        let byte = text[index];
        if !byte.is_ascii_digit() {
            return (value, &text[index..]);
        }
        value = value * 10 + u64::from(byte - b'0');
    }
    (value, &[])
}

/// What a text says; `None` also if it is a numeral of another form.
pub fn read_plain(bytes: &[u8]) -> Option<Plain>
    ensures { IfSome result (λ plain. IsPlain bytes.now plain) }
{
    let (negative, text) = cut_sign(bytes);
    if text.len() < 1 || text.len() > 19 {
        return None;
    }
    let (whole, behind) = read_digits(0, text);
    match behind {
        [] => Some(Plain {
            negative,
            digits: whole,
            places: 0,
        }),
        [b'.', fraction @ ..] => {
            let (digits, behind) = read_digits(whole, fraction);
            if !behind.is_empty() || text.len() == 1 {
                return None;
            }
            Some(Plain {
                negative,
                digits,
                places: fraction.len(),
            })
        }
        _ => None,
    }
}
