// What a record notes of its runs.

ghost use Rattle.std.specs.Prelude.{◌≡◌, IfOk, string_bytes};
ghost use Rattle.std.specs.List.{flat_map};
ghost use Rattle.dme_orders.specs.RunNotes.{about, note_line, notes_in};

use record_text::{Note, Record, Remark};
use session_telling::visible;
use std::alloc::{AllocError, Global};

fn about(note: Note) -> &'static str
    ensures { result.now ≡ about note }
{
    match note {
        Note::Refused => "error",
        Note::By => "measured by",
        Note::Operator => "operator",
        Note::Program => "program",
        Note::Setup => "setup",
        Note::Opened => "made at",
        Note::Dated => "complete at",
        Note::Left => "left at",
        Note::Sealed => "sealed",
    }
}

#[tactic(auto, unfolding(crate::specs::RunNotes::note_line))]
fn note_text(alloc: Global, remark: &Remark) -> Result<String, AllocError>
    ensures { IfOk result (λ text. string_bytes text ≡ note_line remark.now) }
{
    let (connection, features) = (remark.connection, remark.features);
    let what = about(remark.note);
    let shown = visible(alloc, remark.text.as_bytes())?;
    format!(in alloc; "connection {connection}, {features} features: {what} {shown}\n")
}

fn lines_of(alloc: Global, remarks: &[Remark]) -> Result<String, AllocError>
    ensures { IfOk result (λ text. string_bytes text ≡ flat_map note_line remarks.now) }
{
    let mut text = String::new(alloc);
    for remark in remarks {
        let line = note_text(alloc, remark)?;
        text.push_str(line.as_str())?;
    }
    Ok(text)
}

/// The lines of what a record notes; none for a record that is not begun. Fails only if out of memory.
pub(crate) fn notes_of(alloc: Global, held: &Option<Record>) -> Result<String, AllocError>
    ensures { IfOk result (λ text. string_bytes text ≡ flat_map note_line (notes_in held.now)) }
{
    match held {
        Some(held) => lines_of(alloc, held.notes()),
        None => Ok(String::new(alloc)),
    }
}
