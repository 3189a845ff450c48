// What an expression is made of.

ghost use Rattle.std.specs.Prelude.{◌≡◌, ◌<◌, ◌≤◌, ◌==◌, ℕ, true, IfSome, length, take, drop};
ghost use Rattle.std.specs.List.{list_all, position};
ghost use Rattle.program_flow.specs.ValueCuts as code;
ghost use Rattle.program_flow.specs.ValueCuts.{seen};
ghost use Rattle.program_flow.specs.Parts as spec;

use crate::places::{Operator, Rank, is_blank, last_operator, operator_length, operator_of};

/// The operator that is applied last, and the texts around it.
#[derive(Clone, Copy)]
pub enum Cut<'a> {
    Both(&'a [u8], Operator, &'a [u8]),
    Opposite(&'a [u8]),
    Same(&'a [u8]),
    Called(&'a [u8], &'a [u8]),
    Leaf(&'a [u8]),
}

pub(crate) fn without_front(text: &[u8]) -> &[u8]
    ensures { result.now ≡ spec.without_front text.now }
{
    match text {
        [byte, rest @ ..] if is_blank(*byte) => without_front(rest),
        _ => text,
    }
}

pub(crate) fn kept_length(text: &[u8]) -> usize
    ensures value { result ≡ spec.kept_length text.now }
    ensures within { result ≤ length text.now }
{
    let [byte, rest @ ..] = text else {
        return 0;
    };
    match kept_length(rest) {
        0 if is_blank(*byte) => 0,
        count => count + 1,
    }
}

/// A text without blanks at both ends.
pub(crate) fn trimmed(text: &[u8]) -> &[u8]
    ensures { result.now ≡ spec.trimmed text.now }
{
    if let [first, .., last] = text
        && !is_blank(*first)
        && !is_blank(*last)
    {
        return text;
    }
    let rest = without_front(text);
    let (kept, _) = rest.split_at(kept_length(rest));
    kept
}

fn is_bare_byte(byte: u8) -> bool
    ensures { result ≡ code.is_bare byte }
{
    !matches!(byte, b' ' | b'\t' | b'+' | b'-' | b'*' | b'/' | b'(')
}

/// Whether a text has neither blanks nor operators nor parentheses.
fn is_bare(text: &[u8]) -> bool
    ensures { result ≡ list_all code.is_bare text.now }
{
    text.iter().all(|byte| is_bare_byte(*byte))
}

fn both_around(rank: Rank, text: &[u8], index: usize) -> Cut<'_>
    requires { index < length text.now }
    ensures { seen result ≡ spec.both_around rank text.now index }
{
    let (left, _) = text.split_at(index);
    let behind = index + operator_length(rank);
    let (_, right) = text.split_at(if behind < text.len() {
        behind
    } else {
        text.len()
    });
    Cut::Both(left, operator_of(rank, text[index]), right)
}

/// Where a byte is first.
pub(crate) fn first_place(mark: u8, text: &[u8]) -> Option<usize>
    ensures value { result ≡ position (λ b. b == mark) text.now }
    ensures within { IfSome result (λ i. i < length text.now) }
{
    text.iter().position(|b| *b == mark)
}

fn called_at(text: &[u8]) -> Cut<'_>
    ensures { seen result ≡ spec.called_at text.now (position (λ b. b == 40) text.now) }
{
    let Some(index) = first_place(b'(', text) else {
        return Cut::Leaf(text);
    };
    let (name, behind) = text.split_at(index);
    match behind {
        [_, inner @ .., b')'] => Cut::Called(trimmed(name), inner),
        _ => Cut::Leaf(text),
    }
}

fn signed_parts(text: &[u8]) -> Cut<'_>
    ensures { seen result ≡ spec.signed_parts text.now }
{
    match text {
        [b'-', rest @ ..] => Cut::Opposite(rest),
        [b'+', rest @ ..] => Cut::Same(rest),
        [] => Cut::Leaf(text),
        _ => match last_operator(Rank::Powers, text) {
            Some(index) => both_around(Rank::Powers, text, index),
            None => called_at(text),
        },
    }
}

/// Whether there is no operator after the first byte, so that none of two operands is before a sign.
fn is_lone(text: &[u8]) -> bool
    ensures { result ≡ true → spec.parts_of_trimmed text.now ≡ spec.signed_parts text.now }
{
    match text {
        [_, rest @ ..] => is_bare(rest),
        [] => false,
    }
}

/// The parts of an expression without blanks at both ends.
fn parts_of_trimmed(text: &[u8]) -> Cut<'_>
    ensures { seen result ≡ spec.parts_of_trimmed text.now }
{
    if is_lone(text) {
        return signed_parts(text);
    }
    if let Some(index) = last_operator(Rank::Sums, text) {
        return both_around(Rank::Sums, text, index);
    }
    match last_operator(Rank::Products, text) {
        Some(index) => both_around(Rank::Products, text, index),
        None => signed_parts(text),
    }
}

/// The parts of an expression.
#[tactic(auto, unfolding(crate::specs::Parts::parts_of))]
pub fn parts_of(text: &[u8]) -> Cut<'_>
    ensures { seen result ≡ spec.parts_of text.now }
{
    if is_bare(text) {
        return Cut::Leaf(text);
    }
    parts_of_trimmed(trimmed(text))
}
