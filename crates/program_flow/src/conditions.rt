// Whether a condition holds.

ghost use Rattle.std.specs.Prelude.{◌≡◌, ◌<◌, ◌≤◌, ◌+◌, ◌^◌, ◌==◌, IfSome, length, int_lt, pos, unsigned_abs};
ghost use Rattle.std.specs.Option.{option_map};
ghost use Rattle.program_flow.specs.Parts as parts;
ghost use Rattle.program_flow.specs.Variables.{entry_value};
ghost use Rattle.program_flow.specs.Conditions as spec;
ghost use Rattle.program_flow.specs.Cuts.{seen};
ghost use Rattle.program_flow.specs.Held.{value_at};

use crate::faults::ValueFault;
use crate::numbers::Number;
use crate::parts::trimmed;
use crate::pieces::{any_value, have_same_letters};
use crate::places::depth_after;
use crate::variables::Variables;

/// How two numbers or two texts are compared.
#[derive(Clone, Copy)]
pub enum Comparison {
    Below,
    AtMost,
    Equal,
    Unequal,
    AtLeast,
    Above,
}

/// The operator of a condition that is applied last, and the texts around it.
#[derive(Clone, Copy)]
pub enum Cut<'a> {
    Either(&'a [u8], &'a [u8]),
    Both(&'a [u8], &'a [u8]),
    Opposite(&'a [u8]),
    Compared(&'a [u8], Comparison, &'a [u8]),
    Inside(&'a [u8]),
    Neither,
}

/// How many conditions may be within one another.
const LEVELS: u64 = 100;

fn mark_from(mark: &[u8], depth: usize, text: &[u8]) -> Option<usize>
    requires { depth + length text.now < 2 ^ 64 }
    ensures value { result ≡ spec.last_mark mark.now depth text.now }
    ensures within { IfSome result (λ i. i < length text.now) }
{
    let [byte, next @ ..] = text else {
        return None;
    };
    match mark_from(mark, depth_after(depth, *byte), next) {
        Some(index) => Some(index + 1),
        None if depth == 0 && text.starts_with(mark) => Some(0),
        None => None,
    }
}

/// The texts before and after the last such mark outside parentheses.
fn around<'a>(mark: &[u8], text: &'a [u8]) -> Option<(&'a [u8], &'a [u8])>
    requires { length mark.now ≤ 5 }
    ensures { option_map (λ p. (p.0.now, p.1.now)) result ≡ spec.around mark.now text.now }
{
    let _in_memory = text.len();
    let index = mark_from(mark, 0, text)?;
    let (front, _) = text.split_at(index);
    let (_, rest) = text.split_at((index + mark.len()).min(text.len()));
    Some((front, rest))
}

fn inside_of(text: &[u8]) -> Cut<'_>
    ensures { seen result ≡ spec.inside_of text.now }
{
    match text {
        [b'(', inner @ .., b')'] => Cut::Inside(inner),
        _ => Cut::Neither,
    }
}

fn comparison_of(text: &[u8]) -> Cut<'_>
    ensures { seen result ≡ spec.comparison_of text.now }
{
    if let Some((left, right)) = around(b".LT.", text) {
        return Cut::Compared(left, Comparison::Below, right);
    }
    if let Some((left, right)) = around(b".LE.", text) {
        return Cut::Compared(left, Comparison::AtMost, right);
    }
    if let Some((left, right)) = around(b".EQ.", text) {
        return Cut::Compared(left, Comparison::Equal, right);
    }
    if let Some((left, right)) = around(b".NE.", text) {
        return Cut::Compared(left, Comparison::Unequal, right);
    }
    if let Some((left, right)) = around(b".GE.", text) {
        return Cut::Compared(left, Comparison::AtLeast, right);
    }
    match around(b".GT.", text) {
        Some((left, right)) => Cut::Compared(left, Comparison::Above, right),
        None => inside_of(text),
    }
}

fn negation_of(text: &[u8]) -> Cut<'_>
    ensures { seen result ≡ spec.negation_of text.now }
{
    if text.starts_with(b".NOT.") {
        let (_, rest) = text.split_at(5);
        return Cut::Opposite(rest);
    }
    comparison_of(text)
}

/// The parts of a condition.
#[tactic(auto, unfolding(crate::specs::Conditions::parts_of))]
fn parts_of(text: &[u8]) -> Cut<'_>
    ensures { seen result ≡ spec.parts_of text.now }
{
    let text = trimmed(text);
    if let Some((left, right)) = around(b".OR.", text) {
        return Cut::Either(left, right);
    }
    match around(b".AND.", text) {
        Some((left, right)) => Cut::Both(left, right),
        None => negation_of(text),
    }
}

fn is_negative(number: Number) -> bool
    ensures { result ≡ int_lt number.over (pos 0) }
{
    number.magnitude() != number
}

fn is_zero(number: Number) -> bool
    ensures { result ≡ (unsigned_abs number.over == 0) }
{
    number.opposite() == number
}

fn compared(how: Comparison, left: Number, right: Number) -> Result<bool, ValueFault>
    ensures { result ≡ spec.compared how left right }
{
    let difference = left.sum(right.opposite())?;
    let negative = is_negative(difference);
    let zero = is_zero(difference);
    Ok(match how {
        Comparison::Below => negative,
        Comparison::AtMost => negative || zero,
        Comparison::Equal => zero,
        Comparison::Unequal => !zero,
        Comparison::AtLeast => !negative,
        Comparison::Above => !(negative || zero),
    })
}

fn letters_compared(how: Comparison, equal: bool) -> Result<bool, ValueFault>
    ensures { result ≡ spec.letters_compared how equal }
{
    match how {
        Comparison::Equal => Ok(equal),
        Comparison::Unequal => Ok(!equal),
        _ => Err(ValueFault::NotNumber),
    }
}

/// How two texts compare, each with its number, or none, if it has letters: numbers with numbers, and letters with letters.
pub(crate) fn values_compared(
    how: Comparison,
    left: &[u8],
    number: Option<Number>,
    right: &[u8],
    other: Option<Number>,
    variables: &Variables,
) -> Result<bool, ValueFault>
    ensures { result ≡ spec.values_compared how
        (value_at (entry_value variables.now) left.now number)
        (value_at (entry_value variables.now) right.now other) }
{
    match number {
        Some(number) => match other {
            Some(other) => compared(how, number, other),
            None => Err(ValueFault::NotNumber),
        },
        None => match other {
            Some(_) => Err(ValueFault::NotNumber),
            None => letters_compared(how, have_same_letters(left, right, variables)),
        },
    }
}

#[cycle(condition)]
fn parts_hold(cut: &Cut, variables: &Variables, below: u64) -> Result<bool, ValueFault>
    ensures { result ≡ spec.parts_hold (entry_value variables.now)
        (spec.holds_within (entry_value variables.now) below) (seen cut.now) }
{
    match cut {
        Cut::Either(left, right) => {
            let left = holds_within(left, variables, below)?;
            let right = holds_within(right, variables, below)?;
            Ok(left || right)
        }
        Cut::Both(left, right) => {
            let left = holds_within(left, variables, below)?;
            let right = holds_within(right, variables, below)?;
            Ok(left && right)
        }
        Cut::Opposite(rest) => Ok(!holds_within(rest, variables, below)?),
        Cut::Compared(left, how, right) => {
            let number = any_value(left, variables)?;
            let other = any_value(right, variables)?;
            values_compared(*how, left, number, right, other, variables)
        }
        Cut::Inside(text) => holds_within(text, variables, below),
        Cut::Neither => Err(ValueFault::NotExpression),
    }
}

#[cycle(condition)]
fn holds_within(text: &[u8], variables: &Variables, levels: u64) -> Result<bool, ValueFault>
    ensures { result ≡ spec.holds_within (entry_value variables.now) levels text.now }
{
    if levels == 0 {
        return Err(ValueFault::TooDeep);
    }
    parts_hold(&parts_of(text), variables, levels - 1)
}

/// Whether a condition holds: comparisons (`.LT.`, `.LE.`, `.EQ.`, `.NE.`, `.GE.`, `.GT.`) of expressions, or of texts by
/// `.EQ.` and `.NE.`, with parentheses, `.NOT.`,
/// `.AND.` and `.OR.`. What is no condition is `NotExpression`; else the fault of an expression is answered, the left part's first.
pub(crate) fn holds(text: &[u8], variables: &Variables) -> Result<bool, ValueFault>
    ensures { result ≡ spec.holds (entry_value variables.now) text.now }
{
    holds_within(text, variables, LEVELS)
}
