// Why a text is not a name.

ghost use Rattle.std.specs.Prelude.{◌≡◌, IfOk};
ghost use Rattle.fixed_um.specs.Names.{is_name_text};
ghost use Rattle.program_review.specs.Words.{named_by, Gives};
ghost use Rattle.program_review.specs.BadNames.{leftmost_byte, name_cause, name_fault};

use crate::causes::Cause;
use crate::words::{Fault, Given, Word};
use fixed_um::Name;
use std::alloc::{AllocError, Global};

/// The most bytes that a name has (this profile).
const LONGEST_NAME: usize = 64;

fn is_name(alloc: Global, text: &[u8]) -> Result<bool, AllocError>
    ensures { IfOk result (λ named. named ≡ is_name_text text.now) }
{
    Ok(Name::new(alloc, text)?.is_some())
}

fn leftmost_byte(alloc: Global, text: &[u8]) -> Result<Option<u8>, AllocError>
    ensures { IfOk result (λ byte. byte ≡ leftmost_byte text.now) }
{
    for byte in text {
        if !is_name(alloc, &[*byte])? {
            return Ok(Some(*byte));
        }
    }
    Ok(None)
}

fn name_cause(alloc: Global, text: &[u8]) -> Result<Cause, AllocError>
    ensures { IfOk result (λ cause. cause ≡ name_cause text.now) }
{
    if text.is_empty() {
        return Ok(Cause::NoName);
    }
    if text.len() > LONGEST_NAME {
        return Ok(Cause::LongName(text.len()));
    }
    match leftmost_byte(alloc, text)? {
        Some(byte) => Ok(Cause::NameByte(byte)),
        None => Ok(Cause::NotName),
    }
}

/// Why a text, which is this word, is not a name; none if it is one.
pub(crate) fn name_fault<'a>(alloc: Global, text: &[u8], word: Word<'a>) -> Given<'a>
    ensures { Gives result (name_fault text.now (named_by word.entry)) }
{
    if is_name(alloc, text)? {
        return Ok(None);
    }
    let cause = name_cause(alloc, word.bytes)?;
    Ok(Some(Fault { cause, word }))
}
