// The sentences on remarks.

use crate::notices::Passed;
use crate::odd::{Odd, near_word};
use crate::remarks::{Remark, What};
use crate::taking::{Choice, Taken};
use crate::travels::Travel;
use crate::under_setup::Lack;
use dmis_text::Statement;
use session_telling::visible;
use std::alloc::{AllocError, Global};

/// The most bytes of a statement that a finding shows.
const MOST_SHOWN: usize = 100;

/// The end of the sentence on a statement that is passed over: what it would mean, and what happens instead.
fn passed_end(passed: Passed) -> &'static str {
    match passed {
        Passed::Compensation => {
            "would say whether points are corrected by the radius of the probe: they are taken as the server reports them."
        }
        Passed::Positioning => {
            "would say whether a move ends only when the machine stands still: the server decides."
        }
        Passed::Probing => {
            "would set how the probe approaches, searches and retracts: the machine's own settings are used."
        }
        Passed::Clearing => {
            "would say how the probe clears the part between features: nothing clears it, and the probe travels straight."
        }
        Passed::ClearingOff => {
            "would say that the probe does not clear the part between features: nothing clears it anyway."
        }
        Passed::Depth => {
            "would set how deep features are measured: nothing does it, and each target is taken as it is written."
        }
        Passed::Sensor => "would set the sensor: nothing does it.",
        Passed::Plane => {
            "would name the plane of later statements: positions have three coordinates here."
        }
        Passed::Speed => { "would set a speed: the machine's own is used." }
        Passed::Acceleration => { "would set an acceleration: the machine's own is used." }
        Passed::Operator => { "is a text for the operator: a run waits for him only with --pause." }
        Passed::Question => { "is a question to the operator: nobody is asked." }
    }
}

/// The end of the sentence on a statement.
fn end_of(what: What) -> &'static str {
    match what {
        What::Passed(passed) => passed_end(passed),
        What::Clearing(_) => passed_end(Passed::Clearing),
        What::Lack(Lack::Tool) => "selects a tool that the setup lacks.",
        What::Lack(Lack::Volume) => {
            "is out of the machine's volume: an axis is more than 1,000 metres from its zero point."
        }
        What::Odd(Odd::Direction) => "has a direction whose length is not 1.",
        What::Odd(Odd::MoveBeforeTool) => "is a move before any tool is selected.",
        What::Odd(Odd::MoreTouches) => "ends a block with more touches than its MEAS names.",
        What::Odd(Odd::NoDefinition) => "measures a feature that no FEAT above defines.",
        What::Odd(Odd::OtherKind) => "measures a feature as another kind than its FEAT above says.",
        What::Odd(Odd::MeasuredTwice) => "measures a feature whose label another MEAS above has.",
        What::Odd(Odd::DefinedTwice) => "defines a feature whose label another FEAT above has.",
        _ => "",
    }
}

/// The end of the sentence on a refused statement: how `dme lower` takes it.
pub(crate) fn taken_end(taken: Taken) -> &'static str {
    match taken {
        Taken::No => "",
        Taken::Written => " dme lower writes it out.",
        Taken::LeftOut => " dme lower leaves it out.",
        Taken::With(Choice::NoClearing) => " dme lower --no-clearing leaves it out.",
        Taken::With(Choice::Compensated) => " dme lower --compensated leaves it out.",
        Taken::With(Choice::SkipManual) => " dme lower --skip-manual leaves it out.",
        Taken::With(Choice::StoredFrames) => {
            " dme lower --stored-frames takes a frame of the setup in its place."
        }
        Taken::With(Choice::EvenTouches) => " dme lower --even-touches gives its block touches.",
        Taken::With(Choice::Value) => " dme lower --value NAME=TEXT answers it.",
    }
}

/// The beginning of some bytes as it can be read, and `..` if there are more.
fn front_text(alloc: Global, bytes: &[u8]) -> Result<String, AllocError> {
    let (front, rest) = bytes.split_at(bytes.len().min(MOST_SHOWN));
    let shown = visible(alloc, front)?;
    if rest.is_empty() {
        Ok(shown)
    } else {
        format!(in alloc; "{shown} ..")
    }
}

/// A statement's word and parameters, as they are read.
pub(crate) fn statement_text(alloc: Global, statement: &Statement) -> Result<Vec<u8>, AllocError> {
    let mut text = Vec::new(alloc);
    text.extend_from_slice(&statement.word)?;
    let mut mark = b'/';
    for param in statement.params.iter() {
        text.push(mark)?;
        text.extend_from_slice(param)?;
        mark = b',';
    }
    Ok(text)
}

/// The sentence on a word that is one letter away from one that is known.
fn near_sentence(alloc: Global, word: &[u8]) -> Result<String, AllocError> {
    let shown = front_text(alloc, word)?;
    let near = near_word(word).unwrap_or("");
    format!(in alloc; "{shown}: {near}?")
}

/// How many straight travels a statement on clearing would have replaced; nothing for another.
fn replaced_text(alloc: Global, what: What) -> Result<String, AllocError> {
    match what {
        What::Clearing(1) => String::from_str(alloc, " It would have replaced 1 straight travel."),
        What::Clearing(count) => {
            format!(in alloc; " It would have replaced {count} straight travels.")
        }
        _ => Ok(String::new(alloc)),
    }
}

/// The sentence on a statement: the statement, and an end.
pub(crate) fn statement_sentence(
    alloc: Global,
    statement: &Statement,
    remark: Remark,
) -> Result<String, AllocError> {
    if matches!(remark.what, What::Odd(Odd::NearWord)) {
        return near_sentence(alloc, &statement.word);
    }
    let text = statement_text(alloc, statement)?;
    let shown = front_text(alloc, text.as_slice())?;
    let end = end_of(remark.what);
    let replaced = replaced_text(alloc, remark.what)?;
    format!(in alloc; "{shown} {end}{replaced}")
}

/// A length in micrometres, in millimetres.
fn length_text(alloc: Global, micrometres: u128) -> Result<String, AllocError> {
    let whole = micrometres / 1000;
    let rest = micrometres % 1000;
    format!(in alloc; "{whole}.{rest:03} mm")
}

/// The sentence on a straight travel.
pub(crate) fn travel_sentence(alloc: Global, travel: Travel) -> Result<String, AllocError> {
    let length = match travel.length() {
        Some(length) => length_text(alloc, length)?,
        None => String::from_str(alloc, "in other coordinates")?,
    };
    let (from, to) = (travel.last.line, travel.first.line);
    let (last, first) = (travel.last.target, travel.first.target);
    format!(in alloc;
        "The probe travels straight from line {from} ({last}) to line {to} ({first}), {length}, with no GOTO between."
    )
}
