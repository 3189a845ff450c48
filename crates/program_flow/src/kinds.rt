// What variables take.

ghost use Rattle.std.specs.Prelude.{◌≡◌};
ghost use Rattle.program_flow.specs.LookBack as spec;

use crate::numerals::number_after;
use crate::values::is_text;
use dmis_text::{Statement, Text};

/// What a variable takes: whole numbers, any numbers, or letters up to a count.
#[derive(Clone, Copy, Debug)]
pub enum Kind {
    Whole,
    Real,
    Characters(u64),
}

fn kind_of_word(word: &[u8]) -> Option<Kind>
    ensures { result ≡ spec.kind_of_word word.now }
{
    if is_text(word, "INTGR") || is_text(word, "LONG") {
        Some(Kind::Whole)
    } else if is_text(word, "REAL") || is_text(word, "DOUBL") {
        Some(Kind::Real)
    } else {
        None
    }
}

fn characters_of(rest: &[Text]) -> Option<Kind>
    ensures { result ≡ spec.characters_of rest.now }
{
    let [count, ..] = rest else {
        return None;
    };
    match number_after(0, count) {
        Ok(most) if 1 <= most && most <= 4000 => Some(Kind::Characters(most)),
        _ => None,
    }
}

/// The kind that parameters declare names with.
pub(crate) fn kind_in(params: &[Text]) -> Option<Kind>
    ensures { result ≡ spec.kind_in params.now }
{
    let [_, kind, rest @ ..] = params else {
        return None;
    };
    if is_text(kind, "CHAR") {
        characters_of(rest)
    } else {
        kind_of_word(kind)
    }
}

/// The names that parameters declare.
pub(crate) fn names_in<'a, 'b>(params: &'b [Text<'a>]) -> &'b [Text<'a>]
    ensures { result.now ≡ spec.names_in params.now }
{
    match params {
        [_, kind, _, names @ ..] if is_text(kind, "CHAR") => names,
        [_, kind, names @ ..] if !is_text(kind, "CHAR") => names,
        _ => &[],
    }
}

/// Whether a statement is a `DECL` of numbers or of letters.
pub fn is_declaration(statement: &Statement) -> bool
    ensures { result ≡ spec.is_declaration statement.now }
{
    is_text(&statement.word, "DECL")
        && statement.label.is_none()
        && kind_in(&statement.params).is_some()
}
