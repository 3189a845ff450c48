// Writing notes, among them the errors that a server reported.

ghost use Rattle.std.specs.Prelude.{◌≡◌, ◌++◌, ◌∷◌, [], OnOk, IfOk, length, string_bytes};
ghost use Rattle.record_text.specs.declared.notes.Note.TheVariants as note;
ghost use Rattle.record_text.specs.Names.{Writes, text_of, visible, kept_error, noted_line};

use crate::notes::Note;
use itoa::Buffer;
use session_telling::push_visible;
use std::alloc::{AllocError, Global};

/// The most bytes that are kept of an error (this profile).
const MOST_KEPT: usize = 400;

fn add_note(line: &mut Vec<u8>, connection: u64, note: Note, text: &[u8]) -> Result<(), AllocError>
    ensures { OnOk result (line.new.items ≡ line.old.items
        ++ text_of (noted_line connection note text.now ∷ [])) }
{
    let mut buffer = Buffer::new();
    line.extend_from_slice(buffer.format(connection).as_bytes())?;
    line.push(b' ')?;
    line.extend_from_slice(note.word())?;
    line.push(b' ')?;
    line.extend_from_slice(text)?;
    line.push(b'\n')?;
    Ok(())
}

/// Appends the line of a note on the connection of this number, which says this text.
///
/// The caller must ensure that it can say it (`can_say`). Fails only if out of memory, and then nothing is appended.
pub fn write_note(
    out: &mut Vec<u8>,
    connection: u64,
    note: Note,
    text: &[u8],
) -> Result<(), AllocError>
    ensures { Writes result out.old out.new (text_of (noted_line connection note text.now ∷ [])) }
{
    let mut line = Vec::new(*out.allocator());
    add_note(&mut line, connection, note, text)?;
    out.extend_from_slice(line.as_slice())?;
    Ok(())
}

/// How many bytes a byte takes as people read it.
fn width_of(byte: u8) -> usize
    ensures { result ≡ length (visible byte) }
{
    if byte >= 32 && byte <= 126 { 1 } else { 4 }
}

/// What is kept of an error: its first bytes, as many as fit.
fn kept_of(alloc: Global, text: &[u8]) -> Result<String, AllocError>
    ensures { IfOk result (λ kept. string_bytes kept ≡ kept_error text.now) }
{
    let mut kept = String::new(alloc);
    let mut room = MOST_KEPT;
    for byte in text {
        let width = width_of(*byte);
        if width > room {
            return Ok(kept);
        }
        push_visible(&mut kept, *byte)?;
        room -= width;
    }
    Ok(kept)
}

/// Appends the line of an error that the server reported on the connection of this number. `text` is what is kept of it: its tag and its
/// text, as they were received. They are written as people read them, other bytes than those from 32 to 126 as `\xNN`, up to 400 bytes
/// and never a part of one that was received.
///
/// Fails only if out of memory, and then nothing is appended.
pub fn write_refused(out: &mut Vec<u8>, connection: u64, text: &[u8]) -> Result<(), AllocError>
    ensures { Writes result out.old out.new
        (text_of (noted_line connection note.Refused (kept_error text.now) ∷ [])) }
{
    let kept = kept_of(*out.allocator(), text)?;
    write_note(out, connection, Note::Refused, kept.as_bytes())
}
