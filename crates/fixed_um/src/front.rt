// A length at the start of a text, in the form in which lengths are written: taken off at once, where the readers of any numeral
// would first look for its end.

ghost use Rattle.std.specs.Prelude.{◌≡◌, ◌<◌, ◌++◌, ◌≤ℤ◌, pos, unsigned_abs, IfSome};
ghost use Rattle.std.specs.Char.{digit_value};
ghost use Rattle.fixed_um.specs.Fronts.{minus_if, BeginsWithDigits, BeginsWithDecimals, BeginsWithLength};

use crate::lengths::Um;
use crate::numerals::with_sign;

/// Whether a minus comes first, and what follows it.
#[inline(always)]
fn cut_minus(text: &[u8]) -> (bool, &[u8])
    ensures { text.now ≡ minus_if result.0 ++ result.1.now }
{
    match text {
        [b'-', rest @ ..] => (true, rest),
        _ => (false, text),
    }
}

/// The number of the digits in front, of which at most seven are taken, and what follows them.
#[inline(always)]
fn cut_whole(text: &[u8]) -> (u64, &[u8])
    ensures { BeginsWithDigits text.now result.1.now result.0 }
{
    let most = text.len().min(7);
    let mut value = 0;
    for index in 0..most {
        let byte = text[index];
        if !byte.is_ascii_digit() {
            return (value, &text[index..]);
        }
        value = value * 10 + u64::from(byte - b'0');
    }
    (value, &text[most..])
}

/// The number of the three digits after a point in front, and what follows them.
#[inline(always)]
fn cut_decimals(text: &[u8]) -> Option<(u64, &[u8])>
    ensures { IfSome result (λ p. BeginsWithDecimals text.now p.1.now p.0) }
{
    let [b'.', a, b, c, rest @ ..] = text else {
        return None;
    };
    if !a.is_ascii_digit() || !b.is_ascii_digit() || !c.is_ascii_digit() {
        return None;
    }
    let value = u64::from(*a - b'0') * 100 + u64::from(*b - b'0') * 10 + u64::from(*c - b'0');
    Some((value, rest))
}

/// The micrometres of the length in millimetres that is at the start of a text with exactly three decimals, as `-0.001`, and what
/// follows it.
/// `None` says nothing: the text may begin with a numeral of another form, with one past the limit, or with none.
///
/// Requires a limit from 0 to the wire limit. Does not allocate.
#[inline(always)]
pub fn cut_um(text: &[u8], limit: Um) -> Option<(i64, &[u8])>
    requires { pos 0 ≤ℤ limit }
    ensures { IfSome result (λ p. BeginsWithLength (unsigned_abs limit) text.now p.1.now p.0) }
{
    let (negative, unsigned) = cut_minus(text);
    let (whole, behind) = cut_whole(unsigned);
    let (decimals, rest) = cut_decimals(behind)?;
    let micrometres = whole * 1000 + decimals;
    if micrometres > limit.get() as u64 {
        return None;
    }
    Some((with_sign(negative, micrometres), rest))
}
