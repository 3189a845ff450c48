// A refused text: the line, and what is wrong with it.

ghost use Rattle.std.specs.Prelude.{◌≡◌, OnOk, OnErr, IfOk, string_bytes};
ghost use Rattle.program_review.specs.Words.{caused_by};
ghost use Rattle.program_review.specs.Places.{number_of, place_text, IsReason, IsPlace, IsPlaceOf, Places};

use crate::fields::{Form, range_reason, schedule_reason, twice_reason};
use crate::ledgers::{contact_reason, feature_reason, has_return};
use crate::lines::{Place, first_line, from_line, shown_line, shown_start};
use crate::programs::program_reason;
use crate::records::record_reason;
use crate::words::Reason;
use contact_ledger::TextFault;
use deviations::LimitsFault;
use dmis_program::ProgramFault;
use link_world::ScheduleFault;
use order_parts::FilesFault;
use record_text::RecordFault;
use std::alloc::{AllocError, Global};
use tool_rack::{MachineFault, SetupFault};

fn line_number(fault: &FilesFault) -> Option<u64>
    ensures { result ≡ number_of fault.now }
{
    match fault {
        FilesFault::Program(ProgramFault::Refused(_, line))
        | FilesFault::Setup(SetupFault::BadLine(line))
        | FilesFault::Setup(SetupFault::Twice(line))
        | FilesFault::Setup(SetupFault::BadNumeral(line))
        | FilesFault::Schedule(ScheduleFault::BadLine(line))
        | FilesFault::Features(TextFault::Damaged(line))
        | FilesFault::Contacts(TextFault::Damaged(line))
        | FilesFault::Record(RecordFault::Damaged(line))
        | FilesFault::Limits(LimitsFault::NotLimit(line))
        | FilesFault::Limits(LimitsFault::Twice(line))
        | FilesFault::Limits(LimitsFault::EmptyRange(line))
        | FilesFault::BadSeal(line)
        | FilesFault::Machine(MachineFault::BadLine(line))
        | FilesFault::Machine(MachineFault::Twice(line)) => Some(*line),
        _ => None,
    }
}

/// What is wrong with the line of this place, in a text that is no program, and the code of the refusal.
fn line_reason(alloc: Global, fault: &FilesFault, place: Place) -> Result<Reason, AllocError> {
    let (reason, code) = match fault {
        FilesFault::Setup(SetupFault::Twice(_)) => (twice_reason(alloc, place)?, "S2"),
        FilesFault::Setup(SetupFault::BadNumeral(_)) => {
            (Form::Setup.line_reason(alloc, place)?, "S3")
        }
        FilesFault::Setup(_) => (Form::Setup.line_reason(alloc, place)?, "S1"),
        FilesFault::Schedule(_) => (schedule_reason(alloc, place)?, "H1"),
        FilesFault::Features(_) | FilesFault::Contacts(_) | FilesFault::Record(_)
            if has_return(place) => {
            let said = "The line ends with CR LF, and the lines of this file end with LF only.";
            (Reason::of_text(alloc, said)?, "K1")
        }
        FilesFault::Features(_) => (feature_reason(alloc, place)?, "K1"),
        FilesFault::Contacts(_) => (contact_reason(alloc, place)?, "K1"),
        FilesFault::Record(_) => (record_reason(alloc, place)?, "J1"),
        FilesFault::Limits(LimitsFault::Twice(_)) => (twice_reason(alloc, place)?, "M2"),
        FilesFault::BadSeal(_) => (None, "J4"),
        FilesFault::Machine(MachineFault::Twice(_)) => (None, "D2"),
        FilesFault::Machine(_) => (None, "D1"),
        FilesFault::Limits(LimitsFault::EmptyRange(_)) => (range_reason(alloc, place)?, "M3"),
        _ => (Form::Limits.line_reason(alloc, place)?, "M1"),
    };
    match reason {
        Some(reason) => Ok(reason),
        None => Reason::meaning(alloc, code),
    }
}

fn reason(alloc: Global, fault: &FilesFault, text: &[u8], number: u64) -> Result<Reason, AllocError>
    ensures { IfOk result (λ reason. IsReason fault.now text.now number (caused_by reason)) }
{
    match fault {
        FilesFault::Program(ProgramFault::Refused(refusal, _)) => {
            program_reason(alloc, *refusal, text, number)
        }
        _ => line_reason(alloc, fault, Place::on_line(text, number)),
    }
}

fn place_text(
    alloc: Global,
    name: &str,
    number: u64,
    line: &String,
    said: &String,
) -> Result<String, AllocError>
    ensures { IfOk result (λ text. string_bytes text
        ≡ place_text name.now number (string_bytes line.now) (string_bytes said.now)) }
{
    format!(in alloc; "{name}:{number}: {line}\n{said}\n")
}

fn numbered_place(
    alloc: Global,
    fault: &FilesFault,
    name: &str,
    number: u64,
    text: &[u8],
) -> Result<String, AllocError>
    ensures { IfOk result (λ shown.
        IsPlace fault.now name.now text.now number (string_bytes shown)) }
{
    let reason = reason(alloc, fault, text, number)?;
    let line = first_line(from_line(text, number));
    let start = shown_start(line, reason.at, reason.len);
    let shown = shown_line(alloc, line, start)?;
    place_text(alloc, name, number, &shown, &reason.said)
}

fn place(alloc: Global, fault: &FilesFault, name: &str, text: &[u8]) -> Result<String, AllocError>
    ensures { IfOk result (λ shown. IsPlaceOf (number_of fault.now) fault.now name.now text.now
        (string_bytes shown)) }
{
    match line_number(fault) {
        Some(number) => numbered_place(alloc, fault, name, number, text),
        None => Ok(String::new(alloc)),
    }
}

/// Appends where a text is refused and why: `NAME:LINE: ` and the line as it is in the text, and below it a sentence that names the word
/// that is refused, of several the leftmost. If the text has fewer lines, its last one is shown. Unprintable bytes are shown as `\xNN`, and
/// of a line with more than 200 bytes the part around the word. Nothing is appended if the fault is not that a file is refused at a line.
/// Fails only if out of memory, and then nothing is appended either.
pub fn write_place(
    out: &mut Vec<u8>,
    fault: &FilesFault,
    name: &str,
    text: &[u8],
) -> Result<(), AllocError>
    ensures ok { OnOk result (Places fault.now name.now text.now out.old.items out.new.items) }
    ensures err { OnErr result (out.new.items ≡ out.old.items) }
{
    let shown = place(*out.allocator(), fault, name, text)?;
    out.extend_from_slice(shown.as_bytes())
}
