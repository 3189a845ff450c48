// Lines of fields, as setups, limits and schedules have them: which field is not what it must be, in a sentence.

use crate::bad_names::name_fault;
use crate::causes::{Cause, worded};
use crate::lines::{Place, first_line};
use crate::numerals::length_fault_of;
use crate::words::{Explained, Reason, Word};
use deviations::is_in_micrometres;
use dmis_text::cut_line;
use link_world::{Schedule, ScheduleFault};
use std::alloc::{AllocError, Global};
use tool_rack::fields::{cut_field, has_outer_space, is_word};

/// The fields of a line.
fn fields_of(alloc: Global, line: &[u8]) -> Result<Vec<Word<'_>>, AllocError> {
    let mut fields = Vec::new(alloc);
    let mut rest = line;
    while let Some((bytes, after)) = cut_field(rest) {
        let from = bytes.len().saturating_add(after.len());
        let at = Some(line.len().saturating_sub(from));
        fields.push(Word { bytes, at })?;
        rest = after;
    }
    Ok(fields)
}

/// Which of these fields is not read as a length, and why; none if all are.
fn lengths_reason(alloc: Global, fields: &[Word]) -> Explained {
    for field in fields {
        if let Some(fault) = length_fault_of(*field) {
            return Ok(Some(worded(alloc, fault, "")?));
        }
    }
    Ok(None)
}

/// A space at the start or end of a line; none if there is none.
fn space_reason(alloc: Global, line: &[u8]) -> Explained {
    if !has_outer_space(line) {
        return Ok(None);
    }
    let (place, at) = match line {
        [b' ', ..] => ("start", 0),
        _ => ("end", line.len().saturating_sub(1)),
    };
    let said = format!(in alloc; "There is a space at the {place} of the line.")?;
    let space = Word {
        bytes: b" ",
        at: Some(at),
    };
    Ok(Some(Reason::of_word(Cause::Other, said, space)))
}

/// The texts whose lines have a word and then fields.
#[derive(Clone, Copy)]
pub(crate) enum Form {
    Setup,
    Limits,
}

impl Form {
    /// How many fields follow a word, whether the first is a name, and how that is said; none if no line begins with the word.
    fn fields(self, word: &[u8]) -> Option<(usize, bool, &'static str)> {
        match self {
            Form::Setup if is_word(b"TOOL", word) => Some((1, true, "1, a name")),
            Form::Setup if is_word(b"FRAME", word) => Some((4, true, "4, a name and x, y and z")),
            Form::Setup if is_word(b"SHIFT", word) => Some((3, false, "3, dx, dy and dz")),
            Form::Limits if is_word(b"LIMIT", word) => {
                Some((
                    3,
                    true,
                    "3, a label or *, and the lower and the upper limit",
                ))
            }
            _ => None,
        }
    }

    /// What is said after another word.
    fn words(self) -> &'static str {
        match self {
            Form::Setup => {
                " is not TOOL, FRAME or SHIFT: a line begins with one of these and a space."
            }
            Form::Limits => " is not LIMIT: a line begins with this word and a space.",
        }
    }

    /// Which of the fields after a word does not fit; none if all do.
    fn values_reason(self, alloc: Global, values: &[Word], named: bool) -> Explained {
        let (names, lengths) = values.split_at(values.len().min(usize::from(named)));
        for name in names {
            if let Some(fault) = name_fault(alloc, name.bytes, *name)? {
                return Ok(Some(worded(alloc, fault, "")?));
            }
        }
        let reason = lengths_reason(alloc, lengths)?;
        let is_long = |field: &&Word| !is_in_micrometres(field.bytes);
        match (self, lengths.iter().find(is_long)) {
            (Form::Limits, Some(field)) if reason.is_none() => {
                field.reason(alloc, "", " has more than three decimals, or an exponent.")
            }
            _ => Ok(reason),
        }
    }

    /// Why a line is not one of this text; none if it is one.
    pub(crate) fn line_reason(self, alloc: Global, place: Place) -> Explained {
        let line = first_line(place.rest);
        if let Some(reason) = space_reason(alloc, line)? {
            return Ok(Some(reason));
        }
        let fields = fields_of(alloc, line)?;
        let [word, values @ ..] = fields.as_slice() else {
            return Ok(None);
        };
        let Some((wanted, named, said)) = self.fields(word.bytes) else {
            return word.reason(alloc, "", self.words());
        };
        let count = values.len();
        if count == wanted {
            return self.values_reason(alloc, values, named);
        }
        let plural = if count == 1 { "" } else { "s" };
        let after = format!(in alloc; " has {count} field{plural} after it, and takes {said}.")?;
        word.reason(alloc, "", &after)
    }
}

/// The number of the first line that has this name after this word.
fn first_named(text: &[u8], word: &[u8], name: &[u8]) -> Option<u64> {
    let mut number = 0u64;
    let mut rest = text;
    while let Some((line, after)) = cut_line(rest) {
        number = number.saturating_add(1);
        if let Some((other, values)) = cut_field(line)
            && let Some((taken, _)) = cut_field(values)
            && is_word(word, other)
            && is_word(name, taken)
        {
            return Some(number);
        }
        rest = after;
    }
    None
}

/// Which name is there twice, and the number of its first line.
pub(crate) fn twice_reason(alloc: Global, place: Place) -> Explained {
    let fields = fields_of(alloc, first_line(place.rest))?;
    let [word, name, ..] = fields.as_slice() else {
        return Ok(None);
    };
    let Some(first) = first_named(place.text, word.bytes, name.bytes) else {
        return Ok(None);
    };
    let before = if is_word(b"TOOL", word.bytes) {
        "The tool "
    } else if is_word(b"FRAME", word.bytes) {
        "The frame "
    } else {
        "The limit of "
    };
    let after = format!(in alloc; " is already defined at line {first}.")?;
    name.reason(alloc, before, &after)
}

/// That the lower limit of a line is the greater one.
pub(crate) fn range_reason(alloc: Global, place: Place) -> Explained {
    match fields_of(alloc, first_line(place.rest))?.as_slice() {
        [_, _, lower, upper, ..] => {
            let upper = Word::of_bytes(upper.bytes).between(alloc, " is greater than ", ".")?;
            lower.reason(alloc, "The lower limit ", &upper)
        }
        _ => Ok(None),
    }
}

/// Whether a word, followed by this field if it has a byte, is an instruction.
fn is_read(alloc: Global, word: &[u8], field: &[u8]) -> Result<bool, AllocError> {
    let mut line = Vec::from_slice(alloc, word)?;
    if !field.is_empty() {
        line.push(b' ')?;
        line.extend_from_slice(field)?;
    }
    match Schedule::read(alloc, &line) {
        Ok(_) => Ok(true),
        Err(ScheduleFault::BadLine(_)) => Ok(false),
        Err(ScheduleFault::Memory) => Err(AllocError),
    }
}

/// What may follow a word; none if it is not a word of a schedule.
fn takes(alloc: Global, word: &[u8]) -> Result<Option<&'static str>, AllocError> {
    if is_read(alloc, word, b"done")? {
        return Ok(Some("done, missed, fault, auto, or touched x y z"));
    }
    let alone = is_read(alloc, word, b"")?;
    let numbered = is_read(alloc, word, b"1")?;
    let all = is_read(alloc, word, b"all")?;
    Ok(match (alone, numbered, all) {
        (true, true, _) => Some("nothing, or a number from 0 to 1000000"),
        (true, false, true) => Some("nothing, or all"),
        (true, false, false) => Some("nothing"),
        (false, true, true) => Some("a number of one to ten digits, or all"),
        (false, true, false) => Some("a number of one to ten digits"),
        (false, false, true) => Some("all"),
        (false, false, false) => None,
    })
}

/// Why what follows a word is not valid, if the word takes this.
fn values_reason(alloc: Global, word: &Word, values: &[Word], taken: &str) -> Explained {
    let after = format!(in alloc; ", which takes {taken}.")?;
    let [field, rest @ ..] = values else {
        return word.reason(alloc, "Nothing follows ", &after);
    };
    if is_word(b"machine", word.bytes) && is_word(b"touched", field.bytes) {
        let count = rest.len();
        if count == 3 {
            return lengths_reason(alloc, rest);
        }
        let said = format!(in alloc;
            "machine touched takes 3 numerals, x, y and z, and has {count}."
        )?;
        return Ok(Some(Reason::of_line(said)));
    }
    if !is_read(alloc, word.bytes, field.bytes)? {
        let after = word.between(alloc, " is not valid after ", &after)?;
        return field.reason(alloc, "", &after);
    }
    match rest {
        [third, ..] => third.reason(alloc, "", " is one field too many."),
        [] => Ok(None),
    }
}

/// Why a line is not an instruction; none if it is one.
pub(crate) fn schedule_reason(alloc: Global, place: Place) -> Explained {
    let line = first_line(place.rest);
    if let Some(reason) = space_reason(alloc, line)? {
        return Ok(Some(reason));
    }
    let fields = fields_of(alloc, line)?;
    let [word, values @ ..] = fields.as_slice() else {
        return Ok(None);
    };
    match takes(alloc, word.bytes)? {
        Some(taken) => values_reason(alloc, word, values, taken),
        None => word.reason(alloc, "", " is not a word of a schedule."),
    }
}
