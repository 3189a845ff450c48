// Why a line of features or of contacts is unexpected, in a sentence. Their readers decide what may be there.

use crate::lines::{Place, first_line, from_line};
use crate::words::{Explained, Reason, Word};
use contact_ledger::forms::read_number;
use contact_ledger::{CONNECTION_MAX, TextFault, read_features};
use std::alloc::{AllocError, Global};
use tool_rack::fields::cut_field;

/// The words of acts.
const ACTS: [&str; 6] = ["HOMEDIS", "HOMED", "MOVED", "CHANGED", "FRAMED", "CONTACT"];

/// The words of reports that are not acts.
const REPORTS: [&str; 4] = ["OTHER", "BROKEN", "OPENED", "LEFT"];

/// Whether features may continue after these lines with this line.
fn goes_on(alloc: Global, above: &[u8], line: &[u8]) -> Result<bool, AllocError> {
    let mut text = Vec::from_slice(alloc, above)?;
    text.extend_from_slice(line)?;
    match read_features(alloc, &text) {
        Ok(_) => Ok(true),
        Err(TextFault::Damaged(_)) => Ok(false),
        Err(TextFault::Memory) => Err(AllocError),
    }
}

/// What must follow these lines of features.
fn wanted(alloc: Global, above: &[u8]) -> Result<&'static str, AllocError> {
    Ok(if goes_on(alloc, above, b"END\n")? {
        "END is expected here: the feature above has all its points."
    } else if goes_on(alloc, above, b"FEATURE A 1 -\n")? {
        "A feature is expected here, such as FEATURE C 3 2 M or FEATURE C 3 -, with a count from 1 to 10000."
    } else if goes_on(alloc, above, b"FEATURE A 1\n")? {
        "A feature is expected here, such as FEATURE C 3, with a count from 1 to 10000."
    } else {
        "A point of the feature above is expected here, three lengths with three decimals, such as 1.000 0.000 -0.004."
    })
}

fn is_among(words: &[&str], word: &[u8]) -> bool {
    words.iter().any(|other| other.as_bytes() == word)
}

/// That the fields of an act are not in their form, or that the word is not that of an act.
pub(crate) fn word_reason(alloc: Global, word: Word, reports: bool, others: &str) -> Explained {
    let is_act = is_among(&ACTS, word.bytes) || (reports && is_among(&REPORTS, word.bytes));
    if !is_act {
        return word.reason(alloc, "", others);
    }
    let form = " are not in the form in which they are written, with one space before each.";
    word.reason(alloc, "The fields of ", form)
}

/// The number of a connection, or why a word is not one that may follow this one; `before` says which lines begin with it.
pub(crate) fn connection_reason(
    alloc: Global,
    word: Word,
    last: u64,
    before: &str,
) -> Result<(u64, Option<Reason>), AllocError> {
    let Some(number) = read_number(word.bytes, CONNECTION_MAX) else {
        let before = format!(in alloc;
            "{before} begins with the number of its connection, from 1 to 4000000000 without leading zeros, not with "
        )?;
        return Ok((0, word.reason(alloc, &before, ".")?));
    };
    if number >= last {
        return Ok((number, None));
    }
    let after = format!(in alloc; " is below {last}, the connection of the line above.")?;
    Ok((number, word.reason(alloc, "Connection ", &after)?))
}

/// The connection of the line above a refused one; 0 if that is the first line.
fn connection_above(place: Place) -> u64 {
    let above = from_line(place.text, place.number.saturating_sub(1));
    match cut_field(first_line(above)) {
        Some((connection, _)) => read_number(connection, CONNECTION_MAX).unwrap_or(0),
        None => 0,
    }
}

/// Why a line of contacts is not an act, nor a report where one may be.
fn act_reason(alloc: Global, place: Place) -> Explained {
    let line = first_line(place.rest);
    let reports = place.text.starts_with(b"DME-TOLD 1\n".as_slice());
    let last = if reports { connection_above(place) } else { 0 };
    let (connection, rest) = cut_field(line).unwrap_or((b"", b""));
    let word = Word::found(line, 0, connection);
    let (_, reason) = connection_reason(alloc, word, last, "An act")?;
    if reason.is_some() {
        return Ok(reason);
    }
    let (act, _) = cut_field(rest).unwrap_or((b"", b""));
    let act = Word::found(line, connection.len(), act);
    let words = if reports {
        " is not HOMEDIS, HOMED, MOVED, CHANGED, FRAMED, CONTACT, OTHER, BROKEN, OPENED or LEFT."
    } else {
        " is not HOMEDIS, HOMED, MOVED, CHANGED, FRAMED or CONTACT."
    };
    word_reason(alloc, act, reports, words)
}

/// Whether a line ends with CR LF.
pub(crate) fn has_return(place: Place) -> bool {
    matches!(place.rest.get(first_line(place.rest).len()), Some(b'\r'))
}

/// Why a line of features is unexpected.
pub(crate) fn feature_reason(alloc: Global, place: Place) -> Explained {
    if place.number == 1 {
        return Reason::of_text(
            alloc,
            "A file of features begins with the line DME-FEATURES 2, or DME-FEATURES 1.",
        );
    }
    Reason::of_text(alloc, wanted(alloc, place.above_line())?)
}

/// Why a line of contacts, or of reports, is unexpected.
pub(crate) fn contact_reason(alloc: Global, place: Place) -> Explained {
    if place.number != 1 {
        return act_reason(alloc, place);
    }
    let begins = if place.text.starts_with(b"DME-TOLD".as_slice()) {
        "A file of reports begins with the line DME-TOLD 1."
    } else {
        "A file of contacts begins with the line DME-CONTACTS 1."
    };
    Reason::of_text(alloc, begins)
}
