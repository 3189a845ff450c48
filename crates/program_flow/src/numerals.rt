// Numerals: digits with a point or without one, and an exponent.

ghost use Rattle.std.specs.Prelude.{◌≡◌, ◌<◌, ◌≤◌, ◌+◌, ◌*◌, ◌^◌, ◌==◌, IfOk, length, pos};
ghost use Rattle.std.specs.List.{position};
ghost use Rattle.program_flow.specs.Numbers.{reduced};
ghost use Rattle.program_flow.specs.Values as spec;

use crate::faults::ValueFault;
use crate::numbers::{Number, reduced};
use crate::parts::first_place;

fn with_digit(value: u64, byte: u8) -> Result<u64, ValueFault>
    ensures value { result ≡ spec.with_digit value byte }
    ensures within { IfOk result (λ n. n < 10 ^ 18) }
{
    if !byte.is_ascii_digit() {
        return Err(ValueFault::NotExpression);
    }
    if value < 100_000_000_000_000_000 {
        Ok(value * 10 + u64::from(byte - b'0'))
    } else {
        Err(ValueFault::PastBound)
    }
}

/// The number that digits write after one that is there already.
pub(crate) fn number_after(value: u64, digits: &[u8]) -> Result<u64, ValueFault>
    requires { value < 10 ^ 18 }
    ensures value { result ≡ spec.number_after value digits.now }
    ensures within { IfOk result (λ n. n < 10 ^ 18) }
{
    match digits {
        [] => Ok(value),
        [digit, rest @ ..] => match with_digit(value, *digit) {
            Ok(next) => number_after(next, rest),
            Err(fault) => Err(fault),
        },
    }
}

fn power_of_ten(count: u32) -> u128
    requires { count ≤ 36 }
    ensures value { result ≡ 10 ^ count }
    ensures some { 0 < result }
    ensures within { count ≤ 18 → result ≤ 10 ^ 18 }
{
    10u128.pow(count)
}

fn reduced_natural(over: u128, under: u128) -> Result<Number, ValueFault>
    requires over { over < 2 ^ 127 }
    requires under { 0 < under }
    ensures { result ≡ reduced (pos over) under }
{
    reduced(over as i128, under)
}

fn scaled(value: u64, places: usize, raised: u32, lowered: u32) -> Result<Number, ValueFault>
    requires value { value < 10 ^ 18 }
    requires raised { raised ≤ 18 }
    requires lowered { lowered ≤ 18 }
    ensures { result ≡ spec.scaled value places raised lowered }
{
    if places > 18 {
        return Err(ValueFault::PastBound);
    }
    reduced_natural(
        u128::from(value) * power_of_ten(raised),
        power_of_ten(places as u32 + lowered),
    )
}

fn pointed_value(
    whole: &[u8],
    fraction: &[u8],
    raised: u32,
    lowered: u32,
) -> Result<Number, ValueFault>
    requires { (raised ≤ 18) × (lowered ≤ 18) }
    ensures { result ≡ spec.pointed_value whole.now fraction.now (raised, lowered) }
{
    let front = number_after(0, whole)?;
    let value = number_after(front, fraction)?;
    scaled(value, fraction.len(), raised, lowered)
}

fn mantissa_value(text: &[u8], raised: u32, lowered: u32) -> Result<Number, ValueFault>
    requires { (raised ≤ 18) × (lowered ≤ 18) }
    ensures { result ≡ spec.mantissa_value text.now (raised, lowered) }
{
    if text.is_empty() {
        return Err(ValueFault::NotExpression);
    }
    let Some(point) = first_place(b'.', text) else {
        return pointed_value(text, &[], raised, lowered);
    };
    if text.len() <= 1 {
        return Err(ValueFault::NotExpression);
    }
    let (whole, _) = text.split_at(point);
    let (_, fraction) = text.split_at(point + 1);
    pointed_value(whole, fraction, raised, lowered)
}

fn exponent_digits(lowers: bool, digits: &[u8]) -> Result<(u32, u32), ValueFault>
    ensures value { result ≡ spec.exponent_digits lowers digits.now }
    ensures within { IfOk result (λ e. (e.0 ≤ 18) × (e.1 ≤ 18)) }
{
    if digits.is_empty() {
        return Err(ValueFault::NotExpression);
    }
    match number_after(0, digits)? {
        tens if tens > 18 => Err(ValueFault::PastBound),
        tens if lowers => Ok((0, tens as u32)),
        tens => Ok((tens as u32, 0)),
    }
}

fn exponent_of(text: &[u8]) -> Result<(u32, u32), ValueFault>
    ensures value { result ≡ spec.exponent_of text.now }
    ensures within { IfOk result (λ e. (e.0 ≤ 18) × (e.1 ≤ 18)) }
{
    match text {
        [b'-', digits @ ..] => exponent_digits(true, digits),
        [b'+', digits @ ..] => exponent_digits(false, digits),
        _ => exponent_digits(false, text),
    }
}

/// The value of a numeral.
#[tactic(auto, unfolding(crate::specs::Values::numeral_value))]
pub fn numeral_value(text: &[u8]) -> Result<Number, ValueFault>
    ensures { result ≡ spec.numeral_value text.now }
{
    let Some(mark) = first_place(b'E', text) else {
        return mantissa_value(text, 0, 0);
    };
    let (mantissa, _) = text.split_at(mark);
    let (_, exponent) = text.split_at(mark + 1);
    let (raised, lowered) = exponent_of(exponent)?;
    mantissa_value(mantissa, raised, lowered)
}
