// What two recordings report, with the order between the two ends, or without.

ghost use Rattle.std.specs.Prelude.{◌≡◌, [], List, map, IfOk};
ghost use Rattle.watched_ends.specs.Names.{told_text, numbered, Reported, AreReportedBy};
ghost use Rattle.watched_ends.specs.Recorded as spec;

use crate::ordered::ordered_ledger_text;
use crate::turns::heard;
use std::alloc::{AllocError, Global};
use witness::{HEADER, add_all, cut_lines};

/// What is known of the order between the two ends.
#[derive(Clone, Copy, Debug, PartialEq, Eq)]
pub enum Order {
    /// In which order all their bytes came.
    Whole,
    /// Likewise, but not of the last bytes, which are not read.
    Part,
    /// Nothing.
    Unknown,
    /// It is the order of other recordings, or not a text of one.
    NotTheirs,
}

/// The text of what a server reported on a connection, by all the bytes that its client and it have sent on it, between which there is no
/// order (this profile). A line without its end is not read. Fails only if out of memory.
pub fn ledger_text(
    alloc: Global,
    connection: u64,
    up: &[u8],
    down: &[u8],
) -> Result<Vec<u8>, AllocError>
    ensures { IfOk result (λ text. (reported : List Reported)
        × AreReportedBy up.now down.now reported
        × (text.items ≡ told_text (map (numbered connection) reported))) }
{
    let (up, _) = cut_lines(alloc, up)?;
    let (down, _) = cut_lines(alloc, down)?;
    let dialogue = heard(alloc, up.as_slice(), down.as_slice())?;
    let mut text = Vec::from_slice(alloc, HEADER)?;
    add_all(&mut text, connection, dialogue.reported())?;
    Ok(text)
}

/// The text of what a server reported on a connection, by all the bytes that its client and it have sent on it, and the text of their order,
/// which is empty if none is known. A line without its end is not read. Fails only if out of memory.
pub fn recorded_text(
    alloc: Global,
    connection: u64,
    up: &[u8],
    down: &[u8],
    order: &[u8],
) -> Result<(Vec<u8>, Order), AllocError>
    ensures { IfOk result (λ r.
        spec.IsRecorded connection up.now down.now order.now r.0.items r.1) }
{
    if order.is_empty() {
        let text = ledger_text(alloc, connection, up, down)?;
        return Ok((text, Order::Unknown));
    }
    match ordered_ledger_text(alloc, connection, up, down, order)? {
        Some((text, true)) => Ok((text, Order::Whole)),
        Some((text, false)) => Ok((text, Order::Part)),
        None => Ok((Vec::new(alloc), Order::NotTheirs)),
    }
}
