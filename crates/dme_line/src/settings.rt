// What the arguments of the commands say that select something: a report list, a tool, a coordinate system, a transformation.

ghost use Rattle.std.specs.Prelude.{◌≡◌, ◌↔◌, ◌∷◌, ℕ, List, true, IsTrue, MatchOption, IfOk, OnErr};
ghost use Rattle.fixed_um.specs.Calls.{Finds};
ghost use Rattle.dme_line.specs.Words.{is_word};
ghost use Rattle.dme_line.specs.Tokens.{Token, Open, Close, Word, tokens};
ghost use Rattle.dme_line.specs.Arguments.{IsReport, IsTool, IsSystem, IsOneWord, HasLengths, HasNoAngles, IsTransformation};
ghost use Rattle.dme_line.specs.Taken.{bare_word, the_seven};

use crate::arguments::{Transformation, is_closed, read_transformation, read_word};
use crate::commands::Csy;
use crate::lengths::volume_length;
use crate::tokens::{is_word, take_mark, take_word};
use fixed_um::{Name, Point, is_zero};
use std::alloc::{AllocError, Global};

/// What follows an axis by this name with nothing in its parentheses.
fn take_empty_axis<'a>(bytes: &'a [u8], name: &[u8]) -> Option<&'a [u8]>
    ensures { MatchOption result
        ((w : List ℕ) (ts : List Token) → tokens bytes.now ≡ Word w ∷ Open ∷ Close ∷ ts
        → is_word name.now w ≡ true → ⊥)
        (λ rest. (w : List ℕ) × (tokens bytes.now ≡ Word w ∷ Open ∷ Close ∷ tokens rest.now)
        × (is_word name.now w ≡ true)) }
{
    let (own, rest) = take_word(bytes)?;
    if !is_word(name, own) {
        return None;
    }
    let rest = take_mark(rest, b'(')?;
    take_mark(rest, b')')
}

/// Reads the one report list that this profile knows, the three axes in their order.
pub(crate) fn read_report(bytes: &[u8]) -> Option<()>
    ensures { MatchOption result (IsReport (tokens bytes.now)
        → ⊥) (λ _. IsReport (tokens bytes.now)) }
{
    let rest = take_empty_axis(take_mark(bytes, b'(')?, b"X")?;
    let rest = take_empty_axis(take_mark(rest, b',')?, b"Y")?;
    let rest = take_empty_axis(take_mark(rest, b',')?, b"Z")?;
    is_closed(rest).then_some(())
}

/// A coordinate system by its name.
pub(crate) fn read_system(bytes: &[u8]) -> Option<Csy>
    ensures { Finds result (IsSystem (tokens bytes.now)) }
{
    let word = read_word(bytes)?;
    if is_word(b"MachineCsy", word) {
        return Some(Csy::MachineCsy);
    }
    if is_word(b"PartCsy", word) {
        return Some(Csy::PartCsy);
    }
    None
}

/// A word without the quotes round it, if it has both.
fn unquoted(word: &[u8]) -> &[u8]
    ensures { result.now ≡ bare_word word.now }
{
    match word {
        [b'"', bare @ .., b'"'] => bare,
        _ => word,
    }
}

/// The name of a tool, in quotes or not. Fails only if out of memory.
pub(crate) fn read_tool(alloc: Global, bytes: &[u8]) -> Result<Option<Name>, AllocError>
    ensures read { IfOk result (λ tool. Finds tool (IsTool (tokens bytes.now))) }
    ensures err { OnErr result ((word : List ℕ) × IsOneWord (tokens bytes.now) word) }
{
    let Some(word) = read_word(bytes) else {
        return Ok(None);
    };
    Name::new(alloc, unquoted(word))
}

impl Transformation<'_> {
    fn lengths(&self) -> Option<Point>
        ensures { Finds result (HasLengths (the_seven self.now)) }
    {
        let x = volume_length(self.x)?;
        let y = volume_length(self.y)?;
        let z = volume_length(self.z)?;
        Some(Point { x, y, z })
    }

    /// Whether the three angles are zero.
    fn is_straight(&self) -> bool
        ensures { IsTrue result ↔ HasNoAngles (the_seven self.now) }
    {
        is_zero(self.a) && is_zero(self.b) && is_zero(self.c)
    }
}

/// The machine's zero point in part coordinates, with angles of zero.
pub(crate) fn read_zero_point(bytes: &[u8]) -> Option<Point>
    ensures { Finds result (IsTransformation (tokens bytes.now)) }
{
    let words = read_transformation(bytes)?;
    let lengths = words.lengths()?;
    (is_word(b"PartCsy", words.system) && words.is_straight()).then_some(lengths)
}
