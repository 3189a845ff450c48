// Reading the line of an entry.

ghost use Rattle.std.specs.Prelude.{◌≡◌, ◌++◌, ◌∷◌, codes, MatchOption, IfOk, ℕ, List};
ghost use Rattle.record_text.specs.Names.{Finds, IsName, IsConnection, IsNoteText, IsWrittenEntry, noted_line, completed_line, entry_line};

use crate::entries::{Entry, Printed};
use crate::notes::{Note, can_say, note_of};
use contact_ledger::forms::{Forms, read_name, read_number};
use contact_ledger::lines::{first_field, next_field};
use contact_ledger::{CONNECTION_MAX, read_entry};
use fixed_um::Name;
use std::alloc::{AllocError, Global};

fn after_prefix<'a>(text: &'a [u8], prefix: &[u8]) -> Option<&'a [u8]>
    ensures { MatchOption result ((rest : List ℕ) → text.now ≡ prefix.now ++ rest → ⊥)
        (λ rest. text.now ≡ prefix.now ++ rest.now) }
{
    text.strip_prefix(prefix)
}

/// What follows the number of a connection and a word, each with the space after it.
fn text_after<'a>(line: &'a [u8], number: &[u8], word: &[u8]) -> Option<&'a [u8]>
    ensures { MatchOption result
        ((rest : List ℕ) → line.now ≡ number.now ++ (32 ∷ (word.now ++ 32 ∷ rest)) → ⊥)
        (λ rest. line.now ≡ number.now ++ (32 ∷ (word.now ++ 32 ∷ rest.now))) }
{
    let Some(rest) = after_prefix(line, number) else {
        return None;
    };
    let Some(rest) = after_prefix(rest, b" ".as_slice()) else {
        return None;
    };
    let Some(rest) = after_prefix(rest, word) else {
        return None;
    };
    after_prefix(rest, b" ".as_slice())
}

#[tactic(auto, using(crate::proofs::RecordFields::fields))]
fn read_noted(alloc: Global, line: &[u8]) -> Result<Option<(u64, Note, Printed)>, AllocError>
    ensures { IfOk result (λ found. Finds found (λ r. IsConnection r.0 × IsNoteText r.1 r.2
        × (line.now ≡ noted_line r.0 r.1 r.2))) }
{
    let (number, rest) = first_field(line);
    let Some(connection) = read_number(number, CONNECTION_MAX) else {
        return Ok(None);
    };
    let Some((word, _)) = next_field(rest) else {
        return Ok(None);
    };
    let Some(note) = note_of(word) else {
        return Ok(None);
    };
    let Some(text) = text_after(line, number, word) else {
        return Ok(None);
    };
    if !can_say(note, text) {
        return Ok(None);
    }
    let text = Printed::new(alloc, text)?;
    Ok(Some((connection, note, text)))
}

#[tactic(auto, using(crate::proofs::RecordFields::fields))]
fn read_completed(alloc: Global, line: &[u8]) -> Result<Option<(u64, Name)>, AllocError>
    ensures { IfOk result (λ found. Finds found (λ c. IsConnection c.0 × IsName c.1
        × (line.now ≡ completed_line c.0 c.1))) }
{
    let (number, rest) = first_field(line);
    let Some((word, rest)) = next_field(rest) else {
        return Ok(None);
    };
    if word != b"COMPLETED".as_slice() {
        return Ok(None);
    }
    let Some((label, rest)) = next_field(rest) else {
        return Ok(None);
    };
    let None = next_field(rest) else {
        return Ok(None);
    };
    let Some(connection) = read_number(number, CONNECTION_MAX) else {
        return Ok(None);
    };
    let Some(label) = read_name(alloc, label)? else {
        return Ok(None);
    };
    Ok(Some((connection, label)))
}

pub(crate) fn read_line(
    alloc: Global,
    forms: &mut Forms,
    line: &[u8],
) -> Result<Option<Entry>, AllocError>
    ensures { IfOk result (λ found. Finds found (λ e. IsWrittenEntry e
        × (line.now ≡ entry_line e))) }
{
    if let Some((connection, act)) = read_entry(alloc, forms, line)? {
        return Ok(Some(Entry::Told(connection, act)));
    }
    if let Some((connection, note, text)) = read_noted(alloc, line)? {
        return Ok(Some(Entry::Noted(connection, note, text)));
    }
    if let Some((connection, label)) = read_completed(alloc, line)? {
        return Ok(Some(Entry::Completed(connection, label)));
    }
    Ok(None)
}
