// Reading a record.

ghost use Rattle.std.specs.Prelude.{◌≡◌, ◌+◌, ◌<◌, ◌^◌, ℕ, length, Err, IfOk, OnOk};
ghost use Rattle.record_text.specs.Names.{whole_lines, Kept, nothing_kept, ReadsRecord, body, Leads, FollowsLine, StopsAfter, Damaged};

use crate::asked::Asked;
use crate::bodies::Body;
use crate::entry_reading::read_line;
use crate::faults::RecordFault;
use crate::head_reading::read_head;
use crate::heads::Head;
use crate::records::Record;
use contact_ledger::forms::Forms;
use contact_ledger::lines::cut_line;
use std::alloc::Global;

/// Reads the line of an entry. An `Err` discards the text.
fn add_line(
    alloc: Global,
    forms: &mut Forms,
    asked: &[Asked],
    body: &mut Body,
    number: u64,
    line: &[u8],
) -> Result<(), RecordFault>
    ensures follows { OnOk result (FollowsLine asked.now body.old line.now body.new) }
    ensures damaged { (n : ℕ) → result ≡ Err (Damaged n) → (n ≡ number)
        × ((new : Kept) → FollowsLine asked.now body.old line.now new → ⊥) }
{
    let Some(entry) = read_line(alloc, forms, line)? else {
        return Err(RecordFault::Damaged(number));
    };
    body.follow(alloc, asked, entry, number)
}

/// Reads the entries that follow a head of `above` lines. An `Err` discards the text.
fn read_entries(
    alloc: Global,
    forms: &mut Forms,
    head: &Head,
    text: &[u8],
    above: u64,
) -> Result<Body, RecordFault>
    requires { above + length text.now < 2 ^ 64 }
    ensures read { IfOk result (λ kept. Leads (body head.now.part head.now.asked nothing_kept)
        (whole_lines text.now) (body head.now.part head.now.asked kept)) }
    ensures damaged { (n : ℕ) → result ≡ Err (Damaged n)
        → StopsAfter (body head.now.part head.now.asked nothing_kept) (whole_lines text.now) above n }
{
    let mut body = Body::new(alloc);
    let mut number = above;
    let mut rest = text;
    while let Some((line, after)) = cut_line(rest) {
        number += 1;
        add_line(alloc, forms, &head.asked, &mut body, number, line)?;
        rest = after;
    }
    Ok(body)
}

/// The record that a text is; `None` if its lines are a prefix of a head whose end is not written yet. What follows the last LF is not
/// read, except that a text without any LF must be a prefix of the first line.
///
/// Otherwise it answers the number of the first line that is unexpected, counted from 1: a line of no known form, a connection with a
/// lower number than the line before, or a `COMPLETED` that cannot be there. Its label must be that of the next wanted feature, and the
/// last contacts must serve that feature's touches, all on the connection of the line before it and none of them used up.
pub fn read_record(alloc: Global, bytes: &[u8]) -> Result<Option<Record>, RecordFault>
    ensures { ReadsRecord bytes.now result }
{
    let mut forms = Forms::new(alloc)?;
    let Some((head, rest, number)) = read_head(alloc, &mut forms, bytes)? else {
        return Ok(None);
    };
    let body = read_entries(alloc, &mut forms, &head, rest, number)?;
    Ok(Some(Record::new(head, body)))
}
