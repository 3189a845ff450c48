// Fields that only a text of what was reported has.

ghost use Rattle.std.specs.Prelude.{◌≡◌, ◌≤◌, ◌+◌, ◌++◌, ◌∷◌, ◌<◌, ◌==◌, [], ℕ, List, Option, length, IfOk, IfSome, MatchOption};
ghost use Rattle.witness.specs.ToldNames.{list_all, is_content, position, Finds, last_digit, Frame, IsTag, four_digits, written_tag, fields_of, fields_behind, tool_field, known_frame, rule_name, IsToolName, IsNamed, IsPlaced, IsLineText};

use crate::Rule;
use contact_ledger::forms::{Forms, read_name};
use contact_ledger::lines::next_field;
use dme_line::{Tag, Text};
use fixed_um::{Frame, Name};
use std::alloc::{AllocError, Global};

/// A field that is a tool: `?` is one that is not known, and never a name. Fails only if out of memory.
pub(crate) fn read_tool(alloc: Global, field: &[u8]) -> Result<Option<Option<Name>>, AllocError>
    ensures { IfOk result (λ found. Finds found (λ tool. IsNamed tool × IsToolName tool
        × (field.now ≡ tool_field tool))) }
{
    if field == b"?".as_slice() {
        return Ok(Some(None));
    }
    Ok(read_name(alloc, field)?.map(|name| Some(name)))
}

/// The frame of the next fields, or that it is not known, and what follows them.
pub(crate) fn read_frame<'a>(forms: &mut Forms, rest: &'a [u8]) -> Option<(Option<Frame>, &'a [u8])>
    ensures { MatchOption result
        ((f : Option Frame) (more : List (List ℕ)) → IsPlaced f
        → fields_behind rest.now ≡ known_frame f ++ more → ⊥)
        (λ r. IsPlaced r.0
        × (fields_behind rest.now ≡ known_frame r.0 ++ fields_behind r.1.now)) }
{
    let (word, after) = next_field(rest)?;
    if word == b"?".as_slice() {
        return Some((None, after));
    }
    match forms.frame(rest) {
        Some((frame, after)) => Some((Some(frame), after)),
        None => None,
    }
}

pub(crate) fn read_rule(field: &[u8]) -> Option<Rule>
    ensures { Finds result (λ rule. field.now ≡ rule_name rule) }
{
    match field {
        b"UnknownTag" => Some(Rule::UnknownTag),
        b"OutOfOrder" => Some(Rule::OutOfOrder),
        b"NoData" => Some(Rule::NoData),
        b"SecondData" => Some(Rule::SecondData),
        b"OtherData" => Some(Rule::OtherData),
        b"TagInUse" => Some(Rule::TagInUse),
        b"NotInTurn" => Some(Rule::NotInTurn),
        b"TooMany" => Some(Rule::TooMany),
        _ => None,
    }
}

fn digit(byte: u8) -> Option<u32>
    ensures { MatchOption result ((n : ℕ) → byte ≡ last_digit n → ⊥) (λ n. (n ≤ 9)
        × (byte ≡ 48 + n)) }
{
    if byte < b'0' || byte > b'9' {
        return None;
    }
    Some(u32::from(byte - b'0'))
}

/// The number that four digits write; `None` if they are not all digits.
fn four_digits_value(a: u8, b: u8, c: u8, d: u8) -> Option<u32>
    ensures { MatchOption result
        ((n : ℕ) → four_digits n ≡ a ∷ b ∷ c ∷ d ∷ [] → ⊥)
        (λ n. (n ≤ 9999) × (four_digits n ≡ a ∷ b ∷ c ∷ d ∷ [])) }
{
    Some(digit(a)? * 1000 + digit(b)? * 100 + digit(c)? * 10 + digit(d)?)
}

pub(crate) fn read_tag(field: &[u8]) -> Option<Tag>
    ensures { Finds result (λ tag. IsTag tag × (field.now ≡ written_tag tag)) }
{
    match field {
        [b'E', a, b, c, d] => Some(Tag::Event(four_digits_value(*a, *b, *c, *d)? as u16)),
        [a, b, c, d, e] => {
            Some(Tag::Std(digit(*a)? * 10_000 + four_digits_value(*b, *c, *d, *e)?))
        }
        _ => None,
    }
}

fn place_of_space(bytes: &[u8]) -> Option<usize>
    ensures place { result ≡ position (λ b. b == 32) bytes.now }
    ensures within { IfSome result (λ at. at < length bytes.now) }
{
    bytes.iter().position(|byte| *byte == b' ')
}

/// What follows the first space; `None` if there is no space.
#[tactic(auto, using(crate::proofs::ToldCuts::field_cuts))]
fn after_space(rest: &[u8]) -> Option<&[u8]>
    ensures { MatchOption result (fields_behind rest.now ≡ [])
        (λ line. fields_behind rest.now ≡ fields_of line.now) }
{
    let at = place_of_space(rest)?;
    let (_, after) = rest.split_at(at + 1);
    Some(after)
}

/// Whether a byte can be in a line: it is no CR and no LF.
fn is_content(byte: u8) -> bool
    ensures { result ≡ is_content byte }
{
    byte != b'\r' && byte != b'\n'
}

fn is_line_text(line: &[u8]) -> bool
    ensures { result ≡ list_all is_content line.now }
{
    line.iter().all(|byte| is_content(*byte))
}

/// The line that follows the first space, with its spaces; `None` if there is no space or if these bytes cannot be those of a line. Fails only
/// if out of memory.
pub(crate) fn read_line_text(alloc: Global, rest: &[u8]) -> Result<Option<Text>, AllocError>
    ensures { IfOk result (λ found. Finds found (λ line. IsLineText line
        × (fields_behind rest.now ≡ fields_of line))) }
{
    let Some(line) = after_space(rest) else {
        return Ok(None);
    };
    if !is_line_text(line) {
        return Ok(None);
    }
    Ok(Some(Text::new(alloc, line)?))
}
