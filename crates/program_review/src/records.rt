// Why a line of a record is unexpected, in a sentence. The reader of records decides what may be there.

use crate::causes::Cause;
use crate::ledgers::{connection_reason, word_reason};
use crate::lines::{Place, first_line};
use crate::touches::{Request, contacts_of};
use crate::words::{Explained, Reason, Word};
use contact_ledger::forms::read_name;
use contact_ledger::lines::{cut_line, first_field, next_field};
use record_text::{Asked, Record, RecordFault, read_record};
use session_telling::visible;
use std::alloc::{AllocError, Global};

/// The record that these lines are, if a record may begin with them; none in it before the end of its head.
fn begun(alloc: Global, lines: &[u8]) -> Result<Option<Option<Record>>, AllocError> {
    match read_record(alloc, lines) {
        Ok(record) => Ok(Some(record)),
        Err(RecordFault::Damaged(_)) => Ok(None),
        Err(RecordFault::Memory) => Err(AllocError),
    }
}

/// Whether a record may begin with these lines and this line.
fn begins(alloc: Global, above: &[u8], line: &[u8]) -> Result<bool, AllocError> {
    let mut text = Vec::from_slice(alloc, above)?;
    text.extend_from_slice(line)?;
    Ok(begun(alloc, &text)?.is_some())
}

/// What must follow these lines of a head.
fn wanted(alloc: Global, above: &[u8]) -> Result<&'static str, AllocError> {
    Ok(if begins(alloc, above, b"TOUCH 0.000 0.000 0.000 N T M\n")? {
        "A touch of the feature above is expected here, such as TOUCH 1.000 0.000 0.000 N P1 M."
    } else if begins(alloc, above, b"PART P\n")? {
        "A part, a feature or END is expected here, such as PART 0042/7 or FEATURE C 2, with a count from 1 to 10000."
    } else {
        "A feature or END is expected here, such as FEATURE C 2, with a count from 1 to 10000."
    })
}

/// The lines up to the last that says that a feature is complete, with it.
fn completed_lines(above: &[u8]) -> &[u8] {
    let mut left = above.len();
    let mut rest = above;
    while let Some((line, after)) = cut_line(rest) {
        let (_, fields) = first_field(line);
        if let Some((word, _)) = next_field(fields)
            && word == b"COMPLETED".as_slice()
        {
            left = after.len();
        }
        rest = after;
    }
    let (lines, _) = above.split_at(above.len().saturating_sub(left));
    lines
}

/// How many contacts above no feature uses.
fn unused_contacts(alloc: Global, record: &Record, above: &[u8]) -> Result<u64, AllocError> {
    let used = match begun(alloc, completed_lines(above))? {
        Some(Some(before)) => before.told().contacts(),
        _ => 0,
    };
    Ok(record.told().contacts().saturating_sub(used))
}

/// In what the last contacts do not serve the touches of a feature; none if they do.
fn contacts_sentence(
    alloc: Global,
    wanted: &Asked,
    connection: u64,
    record: &Record,
) -> Result<Option<String>, AllocError> {
    let label = visible(alloc, wanted.label().as_bytes())?;
    let contacts = contacts_of(alloc, record.told().acts(), &[])?;
    let touches = wanted.touches();
    let before = contacts.len().saturating_sub(touches.len());
    let (_, last) = contacts.as_slice().split_at(before);
    for (index, (touch, contact)) in touches.iter().zip(last).enumerate() {
        let number = index.saturating_add(1);
        let on = contact.connection;
        if on != connection {
            return Ok(Some(format!(in alloc;
                "The contact of touch {number} of {label} is on connection {on}, and this line is on connection {connection}."
            )?));
        }
        let asked = Request::of_touch(touch);
        if let Some((what, one, other)) = asked.difference(alloc, &contact.asked)? {
            return Ok(Some(format!(in alloc;
                "The {what} of touch {number} of {label} is {one}, and that of its contact is {other}."
            )?));
        }
    }
    Ok(None)
}

/// Why the feature of this label is not complete below these lines, which are this record.
fn label_reason(
    alloc: Global,
    record: &Record,
    above: &[u8],
    connection: u64,
    label: Word,
) -> Explained {
    let Some(wanted) = record.asked().get(record.features().len()) else {
        let many = " is one feature too many: all features of this record are complete.";
        return label.reason(alloc, "", many);
    };
    if label.bytes != wanted.label().as_bytes() {
        let next = visible(alloc, wanted.label().as_bytes())?;
        let other = format!(in alloc; " is not the next feature of this record, which is {next}.")?;
        return label.reason(alloc, "", &other);
    }
    let count = wanted.touches().len();
    let unused = unused_contacts(alloc, record, above)?;
    if unused < count as u64 {
        let touches = if count == 1 { "touch" } else { "touches" };
        let few = format!(in alloc;
            " has {count} {touches}, and the number of unused contacts above is {unused}."
        )?;
        return label.reason(alloc, "", &few);
    }
    if let Some(said) = contacts_sentence(alloc, wanted, connection, record)? {
        return Ok(Some(Reason::of_word(Cause::Other, said, label)));
    }
    let last = record.last();
    let other = format!(in alloc;
        " is completed on a connection other than {last}, that of the line above."
    )?;
    label.reason(alloc, "", &other)
}

/// What follows the word of a note.
fn note_form(word: &[u8]) -> Option<&'static str> {
    match str::from_utf8(word) {
        Ok("REFUSED") => {
            Some(" is followed by a space and an error of 1 to 400 bytes, all of them printable.")
        }
        Ok("BY" | "OPERATOR") => Some(" is followed by a space and 1 to 400 printable bytes."),
        Ok("PROGRAM" | "SETUP") => {
            Some(" is followed by the name of a file and the 64 digits of its SHA-256.")
        }
        Ok("OPENED") => {
            Some(" is followed by a time, such as 2026-11-30T02:28:49.123Z, and the server.")
        }
        Ok("LEFT") => {
            Some(" is followed by a time, such as 2026-11-30T02:28:49.123Z, and what ended it.")
        }
        Ok("SEAL") => Some(" is followed by a space and the 64 digits of a seal."),
        Ok("DATED") => Some(" is followed by a time alone, such as 2026-11-30T02:28:49.123Z."),
        _ => None,
    }
}

/// Why a line is not an entry that may follow these lines, which are this record.
fn entry_reason(alloc: Global, record: &Record, above: &[u8], line: &[u8]) -> Explained {
    let (field, rest) = first_field(line);
    let word = Word::found(line, 0, field);
    let (connection, reason) = connection_reason(
        alloc,
        word,
        record.last(),
        "A line below the head",
    )?;
    if reason.is_some() {
        return Ok(reason);
    }
    let Some((act, rest)) = next_field(rest) else {
        return Reason::of_text(alloc, "Nothing follows the number of the connection.");
    };
    let word = Word::found(line, field.len(), act);
    if act == b"COMPLETED".as_slice() {
        if let Some((label, [])) = next_field(rest)
            && read_name(alloc, label)?.is_some()
        {
            let label = Word::found(line, line.len().saturating_sub(label.len()), label);
            return label_reason(alloc, record, above, connection, label);
        }
        let form = " is followed by the label of a feature, in capitals, and by nothing else.";
        return word.reason(alloc, "", form);
    }
    if let Some(form) = note_form(act) {
        return word.reason(alloc, "", form);
    }
    let words =
        " is not HOMEDIS, HOMED, MOVED, CHANGED, FRAMED, CONTACT, COMPLETED, REFUSED, BY, OPERATOR, PROGRAM, SETUP, OPENED, DATED, LEFT or SEAL.";
    word_reason(alloc, word, false, words)
}

/// Why a line of a record is unexpected.
pub(crate) fn record_reason(alloc: Global, place: Place) -> Explained {
    let line = first_line(place.rest);
    if place.number == 1 {
        if line == b"DME-RECORD 2".as_slice() || line == b"DME-RECORD 1".as_slice() {
            return Ok(None);
        }
        return Reason::of_text(
            alloc,
            "A record begins with the line DME-RECORD 2, or DME-RECORD 1.",
        );
    }
    let above = place.above_line();
    match begun(alloc, above)? {
        Some(Some(record)) => entry_reason(alloc, &record, above, line),
        _ => Reason::of_text(alloc, wanted(alloc, above)?),
    }
}
