// What comes of pieces that are fed to a framing buffer, and of those that wait to be sent.

use crate::shown::{lined, push_visible};
use crate::stop::{Pushed, Stop};
use crate::tried::{Call, Called, Tries, push_refused};
use line_framing::{ByteQueue, Lines, LinesFault};
use std::io::Write;

fn push_fault(out: &mut Vec<u8>, lines: &Lines) -> Pushed {
    match lines.fault() {
        Some(fault) => write!(out, "{fault:?}")?,
        None => write!(out, "no fault")?,
    }
    Ok(())
}

impl Called<Call<'_>, LinesFault> for Lines {
    fn push_all(&self, out: &mut Vec<u8>) -> Pushed {
        out.extend_from_slice(self.rest())?;
        write!(out, " {} ", self.has_line())?;
        push_fault(out, self)
    }

    fn make(&mut self, call: &Call<'_>) -> Result<bool, LinesFault> {
        match *call {
            Call::Feed(piece) => {
                self.feed(piece)?;
                Ok(true)
            }
            _ => Ok(self.next_line()?.is_some()),
        }
    }
}

/// Feeds a piece and takes lines until there are no more, and counts them.
fn read(
    tries: &mut Tries,
    lines: &mut Lines,
    piece: &[u8],
    count: &mut u64,
) -> Result<(), LinesFault> {
    tries.call(lines, LinesFault::Memory, &Call::Feed(piece))?;
    for _ in 0..64 {
        if !tries.call(lines, LinesFault::Memory, &Call::Read)? {
            break;
        }
        *count = count.saturating_add(1);
    }
    Ok(())
}

/// How many lines the pieces of a row gave, how many bytes are left, and the fault that was met.
fn push_fed(out: &mut Vec<u8>, lines: &mut Lines, row: &str) -> Pushed {
    let alloc = *out.allocator();
    let mut count = 0u64;
    for piece in row.split("/") {
        let bytes = lined(alloc, piece)?;
        let mut tries = Tries::new(alloc, true);
        let _fault = read(&mut tries, lines, bytes.as_slice(), &mut count);
        tries.push(out)?;
    }
    write!(out, "{count} lines, {} left, ", lines.rest().len())?;
    push_fault(out, lines)
}

/// Likewise, followed by the same for one more piece, and then for the buffer once cleared.
pub(crate) fn push_pieces(out: &mut Vec<u8>, row: &str) -> Pushed {
    let mut lines = Lines::new(*out.allocator());
    push_fed(out, &mut lines, row)?;
    write!(out, "; ")?;
    push_fed(out, &mut lines, "|;A|;")?;
    lines.clear();
    write!(out, "; ")?;
    push_fed(out, &mut lines, "B|;")
}

/// Makes room for a piece, once more if memory is short for it, and appends it; then takes the first byte that waits.
fn append(out: &mut Vec<u8>, queue: &mut ByteQueue, piece: &[u8]) -> Pushed {
    let before = Vec::from_slice(*out.allocator(), queue.waiting())?;
    if queue.reserve(piece.len()).is_err() {
        push_refused(out, before.as_slice(), queue.waiting())?;
        queue.reserve(piece.len()).ok().ok_or(Stop::ForEver)?;
    }
    queue.append(piece);
    if !queue.waiting().is_empty() {
        queue.take(1);
    }
    Ok(())
}

/// The bytes that wait after all pieces of a row.
pub(crate) fn push_queue(out: &mut Vec<u8>, row: &str) -> Pushed {
    let alloc = *out.allocator();
    let mut queue = ByteQueue::new(alloc);
    for piece in row.split("/") {
        append(out, &mut queue, lined(alloc, piece)?.as_slice())?;
    }
    push_visible(out, queue.waiting())
}
