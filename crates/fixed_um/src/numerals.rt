// Reading numerals.

ghost use Rattle.std.specs.Prelude.{◌≡◌, ◌≤◌, ◌<◌, ◌+◌, ◌*◌, ◌^◌, ◌↔◌, ◌≤ℤ◌, ℕ, List, Result, Option, ℤ, pos, unsigned_abs, Ok, Err, SomeIff, MatchOption, IsTrue, IfSome, IfNone};
ghost use Rattle.fixed_um.specs.Limits.{component_limit, wire_limit};
ghost use Rattle.fixed_um.specs.Numerals.{Numeral, IsNumeral, IsZero, Reads, ReadsDirection, signed};
ghost use Rattle.fixed_um.specs.Rounding.{RoundsUp};
ghost use Rattle.fixed_um.specs.Computed.{value_of, is_zero_text};
ghost use Rattle.fixed_um.specs.Shapes.{IsDirection};

use crate::directions::Dir;
use crate::lengths::Um;
use crate::plain::read_plain;
use crate::rounding::{raised_within, scaled_down, scaled_up, word_scaled_down};
use crate::scanning::{Parts, read_parts};

/// Why a text is not read as a numeral; of several reasons the first in this order.
#[derive(Clone, Copy, Debug, PartialEq, Eq)]
pub enum NumeralFault {
    /// The text is not an optional sign, digits with at most one point and at least one digit, and an optional exponent of one to three digits.
    NotNumeral,
    /// More than 30 digits stand before the exponent, leading zeros counted.
    TooManyDigits,
    /// The rounded value is past the limit.
    TooLarge,
}

/// The digits times ten to the power `up`, divided by ten to the power `down`, rounded, halves up; `None` if that does not fit 128 bits.
fn quotient(digits: u128, up: u32, down: u32) -> Option<u128>
    requires { digits < 10 ^ 30 }
    ensures value { IfSome result (λ m. RoundsUp (digits * 10 ^ up) (10 ^ down) m) }
    ensures past { IfNone result ((m : ℕ) × RoundsUp (digits * 10 ^ up) (10 ^ down) m
        × (2 ^ 128 ≤ m)) }
{
    if up < down {
        return Some(scaled_down(digits, down - up));
    }
    scaled_up(digits, up - down)
}

/// The same within a limit; `None` past it.
fn magnitude(digits: u128, up: u32, down: u32, limit: u64) -> Option<u64>
    requires { digits < 10 ^ 30 }
    ensures within { IfSome result (λ m. (m ≤ limit) × RoundsUp (digits * 10 ^ up) (10 ^ down) m) }
    ensures past { IfNone result ((m : ℕ) × RoundsUp (digits * 10 ^ up) (10 ^ down) m
        × (limit < m)) }
{
    let Some(magnitude) = quotient(digits, up, down) else {
        return None;
    };
    if magnitude > u128::from(limit) {
        return None;
    }
    Some(magnitude as u64)
}

#[inline]
pub(crate) fn with_sign(negative: bool, magnitude: u64) -> i64
    requires { magnitude ≤ wire_limit }
    ensures { result ≡ signed negative magnitude }
{
    if negative {
        -(magnitude as i64)
    } else {
        magnitude as i64
    }
}

/// Likewise for a plain numeral, in one machine word.
fn plain_magnitude(digits: u64, up: usize, down: usize, limit: u64) -> Option<u64>
    requires up { up ≤ 6 }
    requires down { down ≤ 18 }
    requires limit { limit ≤ wire_limit }
    ensures within { IfSome result (λ m. (m ≤ limit) × RoundsUp (digits * 10 ^ up) (10 ^ down) m) }
    ensures past { IfNone result ((m : ℕ) × RoundsUp (digits * 10 ^ up) (10 ^ down) m
        × (limit < m)) }
{
    if up < down {
        let magnitude = word_scaled_down(digits, down - up);
        return if magnitude > limit {
            None
        } else {
            Some(magnitude)
        };
    }
    raised_within(digits, up - down, limit)
}

/// The value of a numeral of any form in units of which ten to the power `scale` make one.
#[inline(never)]
fn read_any(bytes: &[u8], scale: u32, limit: u64) -> Result<i64, NumeralFault>
    requires scale { scale ≤ 6 }
    requires limit { limit ≤ wire_limit }
    ensures { Reads scale limit bytes.now result }
{
    let Some(parts) = read_parts(bytes) else {
        return Err(NumeralFault::NotNumeral);
    };
    if !parts.is_short() {
        return Err(NumeralFault::TooManyDigits);
    }
    let up = scale + parts.raised;
    let down = parts.fraction.len() as u32 + parts.lowered;
    match magnitude(parts.digits_value(), up, down, limit) {
        Some(magnitude) => Ok(with_sign(parts.negative, magnitude)),
        None => Err(NumeralFault::TooLarge),
    }
}

/// The value of a numeral in units of which ten to the power `scale` make one.
fn read_scaled(bytes: &[u8], scale: u32, limit: u64) -> Result<i64, NumeralFault>
    requires scale { scale ≤ 6 }
    requires limit { limit ≤ wire_limit }
    ensures { Reads scale limit bytes.now result }
{
    let Some(plain) = read_plain(bytes) else {
        return read_any(bytes, scale, limit);
    };
    match plain_magnitude(plain.digits, scale as usize, plain.places, limit) {
        Some(magnitude) => Ok(with_sign(plain.negative, magnitude)),
        None => Err(NumeralFault::TooLarge),
    }
}

/// The length that a numeral in millimetres stands for, rounded to whole micrometres, halves away from zero.
///
/// Requires a limit from 0 to the wire limit. Does not allocate.
pub fn read_um(bytes: &[u8], limit: Um) -> Result<Um, NumeralFault>
    requires { pos 0 ≤ℤ limit }
    ensures { Reads 3 (unsigned_abs limit) bytes.now result }
{
    let micrometres = read_scaled(bytes, 3, limit.get() as u64)?;
    Ok(Um::within(micrometres))
}

/// The component of a direction along an axis, as programs and the wire write it; `None` says nothing.
#[tactic(auto, using(crate::proofs::WrittenLemmas::zero_reads, crate::proofs::WrittenLemmas::one_reads, crate::proofs::WrittenLemmas::zero_digit_reads, crate::proofs::WrittenLemmas::one_digit_reads))]
#[inline(always)]
fn component_on_axis(bytes: &[u8]) -> Option<i64>
    ensures { IfSome result (λ value. Reads 6 component_limit bytes.now (Ok value)) }
{
    if bytes == b"0".as_slice() {
        return Some(0);
    }
    if bytes == b"1".as_slice() {
        return Some(1_000_000);
    }
    if bytes == b"0.000000".as_slice() {
        return Some(0);
    }
    if bytes == b"1.000000".as_slice() {
        return Some(1_000_000);
    }
    None
}

fn read_component(bytes: &[u8]) -> Result<i64, NumeralFault>
    ensures { Reads 6 component_limit bytes.now result }
{
    match component_on_axis(bytes) {
        Some(value) => Ok(value),
        None => read_scaled(bytes, 6, 1_000_000_000),
    }
}

#[inline(always)]
fn direction(i: i64, j: i64, k: i64) -> Dir
    requires { IsDirection (record { i = i; j = j; k = k }) }
    ensures { result ≡ record { i = i; j = j; k = k } }
{
    Dir {
        i: i as i32,
        j: j as i32,
        k: k as i32,
    }
}

/// The direction whose components three numerals write, each rounded to whole millionths, halves away from zero;
/// `None` if all three round to zero. Of several faults the leftmost is answered. Does not allocate.
pub fn read_dir(i: &[u8], j: &[u8], k: &[u8]) -> Result<Option<Dir>, NumeralFault>
    ensures { ReadsDirection i.now j.now k.now result }
{
    let i = read_component(i)?;
    let j = read_component(j)?;
    let k = read_component(k)?;
    if i == 0 && j == 0 && k == 0 {
        return Ok(None);
    }
    Ok(Some(direction(i, j, k)))
}

/// Whether a numeral of any form has at most 30 digits, which are all 0.
#[inline(never)]
fn is_any_zero(bytes: &[u8]) -> bool
    ensures { IsTrue result ↔ IsZero bytes.now }
{
    match read_parts(bytes) {
        Some(parts) => parts.is_short() && parts.digits_value() == 0,
        None => false,
    }
}

/// Whether a text is a numeral of at most 30 digits whose digits before the exponent are all 0, as `0`, `-0.0` or `0E5`. Does not allocate.
pub fn is_zero(bytes: &[u8]) -> bool
    ensures { IsTrue result ↔ IsZero bytes.now }
{
    match read_plain(bytes) {
        Some(plain) => plain.digits == 0,
        None => is_any_zero(bytes),
    }
}

/// A text is read in one way.
pub fn one_reading()
    ensures { (scale limit : ℕ) (text : List ℕ) (x y : Result ℤ NumeralFault)
        → Reads scale limit text x → Reads scale limit text y → x ≡ y }
{}

/// The reading of a text can be computed: the relation and the function agree.
pub fn computed_reading()
    ensures value { (scale limit : ℕ) (text : List ℕ)
        → Reads scale limit text (value_of scale limit text) }
    ensures zero { (text : List ℕ) → IsTrue (is_zero_text text) ↔ IsZero text }
{}
