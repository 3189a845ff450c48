// Texts of letters.

ghost use Rattle.std.specs.Prelude.{◌≡◌, ◌++◌, ◌∷◌, ◌<◌, ℕ, List, Ok, OnOk, bytes_eq, length};
ghost use Rattle.program_flow.specs.Held as code;
ghost use Rattle.program_flow.specs.Held.{letters_in, seen_letters, seen_piece, value_at};
ghost use Rattle.program_flow.specs.Numbers.{and_then};
ghost use Rattle.program_flow.specs.Pieces as spec;
ghost use Rattle.program_flow.specs.Texts.{Appends};
ghost use Rattle.program_flow.specs.Values.{doubled, literal_of};
ghost use Rattle.program_flow.specs.Variables.{entry_value};

use crate::faults::ValueFault;
use crate::numbers::Number;
use crate::parts::trimmed;
use crate::values::{is_variable, value_of};
use crate::variables::Variables;
use dmis_text::Text;
use std::alloc::AllocError;

/// Letters as they are, or as they are between the apostrophes of a literal, where an apostrophe is doubled.
#[derive(Clone, Copy, Debug)]
pub struct Piece<'a> {
    pub(crate) text: &'a [u8],
    pub(crate) doubled: bool,
}

fn are_doubled(text: &[u8]) -> bool
    ensures { result ≡ spec.are_doubled text.now }
{
    match text {
        [] => true,
        [only] => *only != b'\'',
        [b'\'', second, rest @ ..] => *second == b'\'' && are_doubled(rest),
        [_, rest @ ..] => are_doubled(rest),
    }
}

/// What follows the first letter of a text.
fn after_first(text: &[u8], doubled: bool) -> &[u8]
    ensures others { (c : ℕ) (cs : List ℕ) → text.now ≡ c ∷ cs
        → letters_in doubled text.now ≡ c ∷ letters_in doubled result.now }
    ensures fewer { (c : ℕ) (cs : List ℕ) → text.now ≡ c ∷ cs
        → length result.now < length text.now }
{
    match text {
        [b'\'', _, rest @ ..] if doubled => rest,
        [_, rest @ ..] => rest,
        [] => text,
    }
}

fn are_same(left: &[u8], left_doubled: bool, right: &[u8], right_doubled: bool) -> bool
    ensures { result ≡ bytes_eq (letters_in left_doubled left.now)
        (letters_in right_doubled right.now) }
{
    let [first, ..] = left else {
        return right.is_empty();
    };
    let [other, ..] = right else {
        return false;
    };
    *first == *other
        && are_same(
            after_first(left, left_doubled),
            left_doubled,
            after_first(right, right_doubled),
            right_doubled,
        )
}

fn are_equal(left: Piece, right: Piece) -> bool
    ensures { result ≡ bytes_eq (seen_piece left.entry) (seen_piece right.entry) }
{
    are_same(left.text, left.doubled, right.text, right.doubled)
}

fn push_undoubled(out: &mut Vec<u8>, text: &[u8]) -> Result<(), AllocError>
    ensures { OnOk result (out.new.items ≡ out.old.items ++ spec.undoubled text.now) }
{
    let [first, ..] = text else {
        return Ok(());
    };
    out.push(*first)?;
    push_undoubled(out, after_first(text, true))
}

fn push_piece(out: &mut Vec<u8>, piece: Piece) -> Result<(), AllocError>
    ensures { OnOk result (out.new.items ≡ out.old.items ++ seen_piece piece.entry) }
{
    if piece.doubled {
        push_undoubled(out, piece.text)
    } else {
        out.extend_from_slice(piece.text)
    }
}

fn push_doubled(out: &mut Vec<u8>, text: &[u8]) -> Result<(), AllocError>
    ensures { OnOk result (out.new.items ≡ out.old.items ++ doubled text.now) }
{
    let [first, rest @ ..] = text else {
        return Ok(());
    };
    if *first == b'\'' {
        out.push(b'\'')?;
    }
    out.push(*first)?;
    push_doubled(out, rest)
}

/// Appends letters as a literal.
pub(crate) fn push_literal(out: &mut Vec<u8>, text: &[u8]) -> Result<(), AllocError>
    ensures { OnOk result (out.new.items ≡ out.old.items ++ literal_of text.now) }
{
    out.push(b'\'')?;
    push_doubled(out, text)?;
    Ok(out.push(b'\'')?)
}

fn literal(text: &[u8]) -> Result<Piece<'_>, ValueFault>
    ensures { seen_letters result ≡ spec.literal text.now }
{
    match text {
        [b'\'', inner @ .., b'\''] if are_doubled(inner) => Ok(Piece {
            text: inner,
            doubled: true,
        }),
        _ => Err(ValueFault::NotLetters),
    }
}

/// The letters of a name or of a literal: `UnknownName`, `NotAssigned`, or `NotLetters`.
fn read_letters<'a>(text: &'a [u8], variables: &'a Variables) -> Result<Piece<'a>, ValueFault>
    ensures { seen_letters result ≡ spec.piece (entry_value variables.now) text.now }
{
    let text = trimmed(text);
    if !is_variable(text) {
        return literal(text);
    }
    match variables.letters(text) {
        Ok(text) => Ok(Piece {
            text,
            doubled: false,
        }),
        Err(fault) => Err(fault),
    }
}

/// The number of a text, or none, if it has letters.
pub(crate) fn any_value(text: &[u8], variables: &Variables) -> Result<Option<Number>, ValueFault>
    ensures { and_then result (λ n. Ok (value_at (entry_value variables.now) text.now n))
        ≡ spec.any_value (entry_value variables.now) text.now }
{
    if read_letters(text, variables).is_ok() {
        return Ok(None);
    }
    match value_of(text, variables) {
        Ok(number) => Ok(Some(number)),
        Err(fault) => Err(fault),
    }
}

fn letters_or_none<'a>(text: &'a [u8], variables: &'a Variables) -> Piece<'a>
    ensures { seen_piece result
        ≡ code.letters_or_none (spec.piece (entry_value variables.now) text.now) }
{
    match read_letters(text, variables) {
        Ok(piece) => piece,
        Err(_) => Piece {
            text: &[],
            doubled: false,
        },
    }
}

/// Whether two texts that have letters have the same.
pub(crate) fn have_same_letters<'a>(
    left: &'a [u8],
    right: &'a [u8],
    variables: &'a Variables,
) -> bool
    ensures { result ≡ bytes_eq
        (code.letters_or_none (spec.piece (entry_value variables.now) left.now))
        (code.letters_or_none (spec.piece (entry_value variables.now) right.now)) }
{
    are_equal(
        letters_or_none(left, variables),
        letters_or_none(right, variables),
    )
}

fn push_named_piece(out: &mut Vec<u8>, text: &[u8], variables: &Variables) -> Result<(), ValueFault>
    ensures { Appends result out.old.items out.new.items
        (spec.piece (entry_value variables.now) text.now) }
{
    let letters = read_letters(text, variables)?;
    Ok(push_piece(out, letters)?)
}

fn push_closed(out: &mut Vec<u8>, text: &[u8], variables: &Variables) -> Result<(), ValueFault>
    ensures { Appends result out.old.items out.new.items
        (spec.closed_piece (entry_value variables.now) text.now) }
{
    match text {
        [inner @ .., b')'] => push_named_piece(out, inner, variables),
        _ => Err(ValueFault::NotLetters),
    }
}

/// Appends the letters of pieces up to the one that ends with a `)`.
fn push_joined(
    out: &mut Vec<u8>,
    text: &[u8],
    others: &[Text],
    variables: &Variables,
) -> Result<(), ValueFault>
    ensures { Appends result out.old.items out.new.items
        (spec.joined (entry_value variables.now) text.now others.now) }
{
    let [next, rest @ ..] = others else {
        return push_closed(out, text, variables);
    };
    push_named_piece(out, text, variables)?;
    push_joined(out, next, rest, variables)
}

/// Appends the letters of one text, or those of `CONCAT(` of texts: `UnknownName` or `NotAssigned` of a name without a value, else
/// `NotLetters`. After a fault a part may be there.
pub(crate) fn push_letters(
    out: &mut Vec<u8>,
    params: &[Text],
    variables: &Variables,
) -> Result<(), ValueFault>
    ensures { Appends result out.old.items out.new.items
        (spec.letters_value (entry_value variables.now) params.now) }
{
    let [first, others @ ..] = params else {
        return Err(ValueFault::NotLetters);
    };
    let first: &[u8] = first;
    if first.starts_with(b"CONCAT(") {
        let (_, rest) = first.split_at(7);
        return push_joined(out, rest, others, variables);
    }
    match others {
        [] => push_named_piece(out, first, variables),
        _ => Err(ValueFault::NotLetters),
    }
}
