// Which byte of a line is not allowed where it is. The reader of statements reports only the line, so it is given longer and longer
// prefixes of the text, each of which ends within that line.

ghost use Rattle.std.specs.Prelude.{◌≡◌, ◌<◌, ◌≤◌, ◌+◌, length, IfOk, IfSome};
ghost use Rattle.program_review.specs.BadBytes.{has_bad_byte, near, Turns, IsBadByteOf, IsByteReason};
ghost use Rattle.program_review.specs.Words.{given};

use crate::causes::Cause;
use crate::lines::{first_line, from_line};
use crate::readings::read;
use crate::words::{Fault, Given, Word};
use dmis_text::TextFault;
use std::alloc::{AllocError, Global};

fn has_bad_byte(alloc: Global, text: &[u8]) -> Result<bool, AllocError>
    ensures { IfOk result (λ bad. bad ≡ has_bad_byte text.now) }
{
    let reading = read(alloc, text)?;
    Ok(matches!(reading.fault, Some(TextFault::BadByte(_))))
}

/// The text from the last statement that can be read on: what is above it is not part of the line's statement.
fn near(alloc: Global, text: &[u8]) -> Result<&[u8], AllocError>
    ensures { IfOk result (λ rest. rest.now ≡ near text.now) }
{
    let reading = read(alloc, text)?;
    match reading.statements.as_slice().last() {
        Some(last) => Ok(from_line(text, last.line)),
        None => Ok(from_line(text, 1)),
    }
}

/// How many of the next `count` bytes, from this place of a text on, precede the leftmost one that is not allowed where it is; all but the
/// last if all are allowed.
fn count_good(alloc: Global, text: &[u8], start: usize, count: usize) -> Result<usize, AllocError>
    requires { start + count ≤ length text.now }
    ensures { IfOk result (λ before. Turns text.now start count before) }
{
    let mut before = 0;
    let mut behind = count;
    while behind - before > 1 {
        let middle = before + (behind - before) / 2;
        let (front, _) = text.split_at(start + middle);
        if has_bad_byte(alloc, front)? {
            behind = middle;
        } else {
            before = middle;
        }
    }
    Ok(before)
}

fn bad_byte(alloc: Global, text: &[u8], rest: &[u8]) -> Result<Option<(usize, u8)>, AllocError>
    ensures byte { IfOk result (λ found. IsBadByteOf text.now rest.now found) }
    ensures within { IfOk result (λ found. IfSome found (λ f. f.0 < length rest.now)) }
{
    let text = near(alloc, text)?;
    let (line, _) = rest.split_at(first_line(rest).len().min(rest.len()));
    if rest.len() > text.len() {
        return Ok(None);
    }
    let before = count_good(alloc, text, text.len() - rest.len(), line.len())?;
    match line.get(before) {
        Some(byte) => Ok(Some((before, *byte))),
        None => Ok(None),
    }
}

/// The leftmost byte of a line that is not allowed where it is; none if all are allowed. `rest` are the bytes of the text from the line on.
pub(crate) fn byte_fault<'a>(alloc: Global, text: &[u8], rest: &'a [u8]) -> Given<'a>
    ensures { IfOk result (λ fault. IsByteReason text.now rest.now (given fault)) }
{
    let Some((at, byte)) = bad_byte(alloc, text, rest)? else {
        return Ok(None);
    };
    let (_, left) = rest.split_at(at);
    let (bytes, _) = left.split_at(1);
    let cause = Cause::BadByte(byte);
    let word = Word {
        bytes,
        at: Some(at),
    };
    Ok(Some(Fault { cause, word }))
}
