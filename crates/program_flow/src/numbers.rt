// Exact numbers and their arithmetic.

ghost use Rattle.std.specs.Prelude.{◌≡◌, ◌<◌, ◌≤◌, ◌++◌, ◌∷◌, [], ◌*◌, ◌^◌, ◌*ℤ◌, ◌+ℤ◌, OnOk, Ok, int_lt, pos, unsigned_abs};
ghost use Rattle.program_flow.specs.Numbers as spec;
ghost use Rattle.program_flow.specs.Numbers.{IsBounded, bound};
ghost use Rattle.program_flow.specs.Texts.{whole_of};
ghost use Rattle.fixed_um.specs.Computed.{rounded};
ghost use Rattle.fixed_um.specs.Written.{last_digit, three_digits};

use crate::faults::ValueFault;
use itoa::Buffer;
use std::alloc::AllocError;
use std::marker::Model;

/// The greatest numerator and denominator.
const BOUND: u128 = 1_000_000_000_000_000_000;

/// The greatest numerator of a product that is rounded.
const MOST: u128 = 100_000_000_000_000_000_000_000_000_000_000;

/// An exact number: a fraction in lowest terms, with numerator and denominator up to 10^18.
#[derive(Clone, Copy, Debug, PartialEq, Eq)]
pub struct Number {
    over: i64,
    under: u64,
}

impl Model for Number {
    ghost use Rattle.program_flow.specs.Numbers.{Fraction, IsBounded};

    ghost Value = { Fraction };

    ghost view = { λ n. record { over = n.over; under = n.under } };

    ghost invariant = { λ n. IsBounded (record { over = n.over; under = n.under }) };

    ghost inverse = { λ f. record { over = f.over; under = f.under } };
}

/// The greatest common divisor.
fn gcd(a: u128, b: u128) -> u128
    requires { 0 < b }
    ensures value { result ≡ spec.gcd a b }
    ensures some { 0 < result }
    ensures within { result ≤ b }
{
    let mut x = a;
    let mut y = b;
    while y != 0 {
        let rest = x % y;
        x = y;
        y = rest;
    }
    x
}

fn within_bound(negative: bool, over: u128, under: u128) -> Result<Number, ValueFault>
    requires { 0 < under }
    ensures { result ≡ spec.within_bound negative over under }
{
    if over > BOUND || under > BOUND {
        return Err(ValueFault::PastBound);
    }
    let magnitude = over as i64;
    let over = if negative { -magnitude } else { magnitude };
    Ok(Number {
        over,
        under: under as u64,
    })
}

/// The fraction of these in lowest terms.
#[tactic(auto, unfolding(crate::specs::Numbers::reduced))]
pub(crate) fn reduced(over: i128, under: u128) -> Result<Number, ValueFault>
    requires { 0 < under }
    ensures { result ≡ spec.reduced over under }
{
    let magnitude = over.unsigned_abs();
    let divisor = gcd(magnitude, under);
    within_bound(over < 0, magnitude / divisor, under / divisor)
}

fn times_under(over: i64, under: u64) -> i128
    requires over { unsigned_abs over ≤ bound }
    requires under { under ≤ bound }
    ensures value { result ≡ over *ℤ pos under }
    ensures within { unsigned_abs result ≤ bound * bound }
{
    i128::from(over) * i128::from(under)
}

fn sum_over(left: i128, right: i128, under: u128) -> Result<Number, ValueFault>
    requires left { unsigned_abs left ≤ bound * bound }
    requires right { unsigned_abs right ≤ bound * bound }
    requires under { 0 < under }
    ensures { result ≡ spec.reduced (left +ℤ right) under }
{
    reduced(left + right, under)
}

/// A fraction to the nearest millionth.
fn in_millionths(negative: bool, over: u128, under: u128) -> Result<Number, ValueFault>
    requires over { over ≤ 10 ^ 32 }
    requires some { 0 < under }
    requires under { under ≤ bound * bound }
    ensures { result ≡ spec.in_millionths negative over under }
{
    let rounded = ((2 * (over * 1_000_000) + under) / (2 * under)) as i128;
    reduced(if negative { -rounded } else { rounded }, 1_000_000)
}

/// Likewise, or `PastBound`.
#[tactic(auto, unfolding(crate::specs::Numbers::nearest_millionth))]
fn nearest_millionth(over: i128, under: u128) -> Result<Number, ValueFault>
    requires some { 0 < under }
    requires under { under ≤ bound * bound }
    ensures { result ≡ spec.nearest_millionth over under }
{
    let magnitude = over.unsigned_abs();
    if magnitude > MOST {
        return Err(ValueFault::PastBound);
    }
    in_millionths(over < 0, magnitude, under)
}

impl Number {
    /// Whether it is below zero, its numerator without the sign, and its denominator.
    pub(crate) fn split(self) -> (bool, u128, u128)
        ensures sign { result.0 ≡ int_lt self.over (pos 0) }
        ensures over { result.1 ≡ unsigned_abs self.over }
        ensures under { result.2 ≡ self.under }
        ensures bounded { IsBounded self }
    {
        let over = u128::from(self.over.unsigned_abs());
        (self.over < 0, over, u128::from(self.under))
    }

    /// A whole number within the bound.
    fn whole(over: i64) -> Number
        requires { unsigned_abs over ≤ bound }
        ensures { result ≡ spec.whole_number over }
    {
        Number { over, under: 1 }
    }

    /// The sum of two numbers, or `PastBound`.
    pub fn sum(self, other: Number) -> Result<Number, ValueFault>
        ensures { result ≡ spec.sum self other }
    {
        let left = times_under(self.over, other.under);
        let right = times_under(other.over, self.under);
        sum_over(
            left,
            right,
            u128::from(self.under) * u128::from(other.under),
        )
    }

    /// The product of two numbers, or `PastBound`.
    pub fn product(self, other: Number) -> Result<Number, ValueFault>
        ensures { result ≡ spec.product self other }
    {
        let over = i128::from(self.over) * i128::from(other.over);
        reduced(over, u128::from(self.under) * u128::from(other.under))
    }

    /// The product of two numbers to the nearest millionth, or `PastBound` if that of the numerators is past 10^32.
    pub fn rounded_product(self, other: Number) -> Result<Number, ValueFault>
        ensures { result ≡ spec.rounded_product self other }
    {
        let over = i128::from(self.over) * i128::from(other.over);
        nearest_millionth(over, u128::from(self.under) * u128::from(other.under))
    }

    /// The number with its sign turned.
    pub fn opposite(self) -> Number
        ensures { result ≡ spec.opposite self }
    {
        Number {
            over: -self.over,
            under: self.under,
        }
    }

    /// The number divided by another, `DivisionByZero` if that is zero, or `PastBound`.
    pub fn quotient(self, other: Number) -> Result<Number, ValueFault>
        ensures { result ≡ spec.quotient self other }
    {
        let divisor = other.over.unsigned_abs();
        if divisor == 0 {
            return Err(ValueFault::DivisionByZero);
        }
        let under = other.under as i64;
        let over = if other.over < 0 { -under } else { under };
        self.product(Number {
            over,
            under: divisor,
        })
    }

    /// The number without its sign.
    pub fn magnitude(self) -> Number
        ensures { result ≡ spec.magnitude self }
    {
        Number {
            over: self.over.unsigned_abs() as i64,
            under: self.under,
        }
    }

    /// The number, if it is whole, or `NotWhole`.
    pub fn get_whole(self) -> Result<i64, ValueFault>
        ensures { result ≡ whole_of self }
    {
        if self.under == 1 {
            Ok(self.over)
        } else {
            Err(ValueFault::NotWhole)
        }
    }

    /// The whole millionths nearest to the number without its sign, halves away from zero.
    fn millionths(self) -> u128
        ensures value { result ≡ rounded (unsigned_abs self.over * 1000000) self.under }
        ensures within { result ≤ 2 * bound * 1000000 }
    {
        let scaled = u128::from(self.over.unsigned_abs()) * 1_000_000;
        let under = u128::from(self.under);
        (2 * scaled + under) / (2 * under)
    }

    /// Appends the number as a numeral: a whole one without a point, another with six decimals, to the nearest millionth.
    #[tactic(auto, unfolding(fixed_um::specs::Written::written_component))]
    pub fn write(self, out: &mut Vec<u8>) -> Result<(), AllocError>
        ensures { OnOk result (out.new.items ≡ out.old.items ++ spec.numeral self) }
    {
        if self.under == 1 {
            return out.extend_from_slice(Buffer::new().format(self.over).as_bytes());
        }
        let millionths = self.millionths();
        if self.over < 0 && millionths > 0 {
            out.push(b'-')?;
        }
        let whole = (millionths / 1_000_000) as u64;
        out.extend_from_slice(Buffer::new().format(whole).as_bytes())?;
        out.push(b'.')?;
        push_three(out, millionths / 1000)?;
        push_three(out, millionths)
    }

    /// The number without its decimals: towards zero.
    pub fn whole_part(self) -> Number
        ensures { result ≡ spec.whole_part self }
    {
        let whole = (self.over.unsigned_abs() / self.under) as i64;
        Number::whole(if self.over < 0 { -whole } else { whole })
    }

    /// The number to a power that is whole and within 64 (`BadExponent`), `DivisionByZero` or `PastBound`.
    pub fn power(self, exponent: Number) -> Result<Number, ValueFault>
        ensures { result ≡ spec.power self exponent }
    {
        let times = exponent.over.unsigned_abs();
        if exponent.under != 1 || times > 64 {
            return Err(ValueFault::BadExponent);
        }
        if exponent.over < 0 {
            multiplied(Number::whole(1).quotient(self)?, times, Number::whole(1))
        } else {
            multiplied(self, times, Number::whole(1))
        }
    }
}

/// Appends the last digit of a number.
fn push_digit(out: &mut Vec<u8>, number: u128) -> Result<(), AllocError>
    ensures { OnOk result (out.new.items ≡ out.old.items ++ last_digit number ∷ []) }
{
    Ok(out.push(b'0' + (number % 10) as u8)?)
}

fn push_three(out: &mut Vec<u8>, number: u128) -> Result<(), AllocError>
    ensures { OnOk result (out.new.items ≡ out.old.items ++ three_digits number) }
{
    push_digit(out, number / 100)?;
    push_digit(out, number / 10)?;
    push_digit(out, number)
}

/// A value multiplied that many times by a number.
fn multiplied(number: Number, times: u64, value: Number) -> Result<Number, ValueFault>
    ensures { result ≡ spec.multiplied number times value }
{
    if times == 0 {
        return Ok(value);
    }
    match value.product(number) {
        Ok(next) => multiplied(number, times - 1, next),
        Err(fault) => Err(fault),
    }
}
