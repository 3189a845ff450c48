// The value of an expression.

ghost use Rattle.std.specs.Prelude.{◌≡◌, ◌++◌, OnOk, bytes_eq, false};
ghost use Rattle.program_flow.specs.ValueCuts.{seen, written_or};
ghost use Rattle.program_flow.specs.Values as spec;
ghost use Rattle.program_flow.specs.Variables.{entry_value};

use crate::angles::{cosine, in_degrees, in_radians, sine, tangent};
use crate::faults::ValueFault;
use crate::numbers::Number;
use crate::numerals::numeral_value;
use crate::parts::{Cut, parts_of};
use crate::places::{Operator, begins_numeral};
use crate::roots::root;
use crate::variables::Variables;
use std::alloc::AllocError;

/// How many operations may be within one another.
const LEVELS: u64 = 100;

/// Whether a text has these characters.
pub fn is_text(text: &[u8], other: &str) -> bool
    ensures { result ≡ bytes_eq text.now other.now }
{
    text == other.as_bytes()
}

pub(crate) fn is_name_byte(byte: u8) -> bool
    ensures { result ≡ spec.is_name_byte byte }
{
    byte.is_ascii_alphanumeric() || byte == b'_'
}

fn all_name_bytes(text: &[u8]) -> bool
    ensures { result ≡ spec.all_name_bytes text.now }
{
    text.iter().all(|byte| is_name_byte(*byte))
}

/// Whether a text is a name of a variable: a letter, then letters, digits and `_`.
pub(crate) fn is_variable(text: &[u8]) -> bool
    ensures { result ≡ spec.is_variable text.now }
{
    match text {
        [first, ..] if first.is_ascii_alphabetic() => all_name_bytes(text),
        _ => false,
    }
}

fn is_numeral(text: &[u8]) -> bool
    ensures { result ≡ spec.is_numeral text.now }
{
    match text {
        [first, ..] => begins_numeral(*first),
        [] => false,
    }
}

fn leaf_value(text: &[u8], variables: &Variables) -> Result<Number, ValueFault>
    ensures { result ≡ spec.leaf_value (entry_value variables.now) text.now }
{
    if is_numeral(text) {
        numeral_value(text)
    } else if is_variable(text) {
        variables.number(text)
    } else {
        Err(ValueFault::NotExpression)
    }
}

fn applied(operator: Operator, left: Number, right: Number) -> Result<Number, ValueFault>
    ensures { result ≡ spec.applied operator left right }
{
    match operator {
        Operator::Plus => left.sum(right),
        Operator::Minus => left.sum(right.opposite()),
        Operator::Times => left.product(right),
        Operator::Over => left.quotient(right),
        Operator::Power => left.power(right),
    }
}

fn function_named(name: &[u8], number: Number) -> Result<Number, ValueFault>
    ensures { result ≡ spec.function_named name.now number }
{
    if is_text(name, "SQRT") {
        root(number)
    } else if is_text(name, "SIN") {
        sine(number)
    } else if is_text(name, "COS") {
        cosine(number)
    } else if is_text(name, "TAN") {
        tangent(number)
    } else if is_text(name, "DTOR") {
        in_radians(number)
    } else if is_text(name, "RTOD") {
        in_degrees(number)
    } else {
        Err(ValueFault::UnknownFunction)
    }
}

fn function_of(name: &[u8], number: Number) -> Result<Number, ValueFault>
    ensures { result ≡ spec.function_of name.now number }
{
    if is_text(name, "") {
        Ok(number)
    } else if is_text(name, "ABS") {
        Ok(number.magnitude())
    } else if is_text(name, "INT") {
        Ok(number.whole_part())
    } else {
        function_named(name, number)
    }
}

#[cycle(value)]
fn parts_value(cut: &Cut, variables: &Variables, below: u64) -> Result<Number, ValueFault>
    ensures { result ≡ spec.parts_value (entry_value variables.now)
        (spec.value_within (entry_value variables.now) below) (seen cut.now) }
{
    match cut {
        Cut::Both(left, operator, right) => {
            let left = value_within(left, variables, below)?;
            let right = value_within(right, variables, below)?;
            applied(*operator, left, right)
        }
        Cut::Opposite(rest) => Ok(value_within(rest, variables, below)?.opposite()),
        Cut::Same(rest) => value_within(rest, variables, below),
        Cut::Called(name, inner) => function_of(name, value_within(inner, variables, below)?),
        Cut::Leaf(text) => leaf_value(text, variables),
    }
}

#[cycle(value)]
fn value_within(text: &[u8], variables: &Variables, levels: u64) -> Result<Number, ValueFault>
    ensures { result ≡ spec.value_within (entry_value variables.now) levels text.now }
{
    if levels == 0 {
        return Err(ValueFault::TooDeep);
    }
    parts_value(&parts_of(text), variables, levels - 1)
}

/// The value of an expression of numerals, names of variables, `+ - * / **`, signs, parentheses, and `ABS`, `INT`, `SQRT`, `SIN`, `COS`,
/// `TAN`, `DTOR` and `RTOD`. Operators of one rank, `**` too, apply from left to right. The left operand's fault comes first.
pub fn value_of(text: &[u8], variables: &Variables) -> Result<Number, ValueFault>
    ensures { result ≡ spec.value_of (entry_value variables.now) text.now }
{
    value_within(text, variables, LEVELS)
}

fn is_alone(cut: &Cut) -> bool
    ensures { result ≡ spec.is_alone (seen cut.now) }
{
    match cut {
        Cut::Leaf(text) => is_numeral(text),
        _ => false,
    }
}

/// Whether a text of these parts is a numeral, with one sign or without.
fn is_constant(cut: &Cut) -> bool
    ensures { result ≡ spec.is_constant (seen cut.now) }
{
    match cut {
        Cut::Opposite(rest) | Cut::Same(rest) => is_alone(&parts_of(rest)),
        cut => is_alone(cut),
    }
}

/// What a text that is no numeral has as its value, if it has one.
fn other_value(text: &[u8], variables: &Variables) -> Option<Number>
    ensures { written_or text.now result ≡ spec.computed (entry_value variables.now) text.now }
{
    let cut = parts_of(text);
    if is_constant(&cut) {
        return None;
    }
    parts_value(&cut, variables, LEVELS - 1).ok()
}

/// Whether a text has a value that takes its place.
pub fn has_value(text: &[u8], variables: &Variables) -> bool
    ensures { result ≡ false → spec.computed (entry_value variables.now) text.now ≡ text.now }
{
    other_value(text, variables).is_some()
}

/// Appends a text with the value of its expression in its place, as a numeral. A numeral stays as it is, and so does what has no value.
pub fn push_computed(
    out: &mut Vec<u8>,
    text: &[u8],
    variables: &Variables,
) -> Result<(), AllocError>
    ensures { OnOk result (out.new.items
        ≡ out.old.items ++ spec.computed (entry_value variables.now) text.now) }
{
    match other_value(text, variables) {
        Some(number) => number.write(out),
        None => out.extend_from_slice(text),
    }
}
