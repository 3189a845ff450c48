// Statements that are passed over though they change something.

ghost use Rattle.std.specs.Prelude.{◌≡◌, ◌++◌, OnOk};
ghost use Rattle.program_review.specs.Notices.{is_off, sensor_setting, text_meaning, passed_word, passed_over, notices_of};

use crate::remarks::{Remark, What, push_remark};
use crate::said::Said;
use dmis_text::{Statement, Text};
use program_flow::is_text;
use program_lowering::begins_with;
use std::alloc::AllocError;

/// What a statement changes that is passed over (ISO 22093).
#[derive(Clone, Copy, Debug, PartialEq, Eq)]
pub enum Passed {
    /// `PRCOMP`: whether points are corrected by the radius of the probe.
    Compensation,
    /// `FINPOS`: whether the machine waits until it stands still in its position.
    Positioning,
    /// `SNSET/APPRCH`, `RETRCT` and `SEARCH`: how the probe approaches, retracts and searches.
    Probing,
    /// `SNSET/CLRSRF`: how the probe clears the part between features.
    Clearing,
    /// `SNSET/CLRSRF,OFF`: that it does so no longer.
    ClearingOff,
    /// `SNSET/DEPTH`: how deep a feature is measured.
    Depth,
    /// Any other `SNSET`.
    Sensor,
    /// `WKPLAN`: in which plane the program works.
    Plane,
    /// `FEDRAT`: how fast the machine moves.
    Speed,
    /// `ACLRAT`: how fast the machine gains speed.
    Acceleration,
    /// `TEXT/OPER` and `TEXT/MAN`: a text on which the operator must act.
    Operator,
    /// `TEXT/QUERY`: a question to the operator.
    Question,
}

fn is_off(params: &[Text]) -> bool
    ensures { result ≡ is_off params.now }
{
    match params {
        [_, second, ..] => is_text(second, "OFF"),
        _ => false,
    }
}

fn sensor_setting(params: &[Text]) -> Passed
    ensures { result ≡ sensor_setting params.now }
{
    if begins_with("CLRSRF", params) {
        if is_off(params) {
            Passed::ClearingOff
        } else {
            Passed::Clearing
        }
    } else if begins_with("DEPTH", params) {
        Passed::Depth
    } else if begins_with("APPRCH", params)
        || begins_with("RETRCT", params)
        || begins_with("SEARCH", params)
    {
        Passed::Probing
    } else {
        Passed::Sensor
    }
}

fn text_meaning(params: &[Text]) -> Option<Passed>
    ensures { result ≡ text_meaning params.now }
{
    if begins_with("OPER", params) || begins_with("MAN", params) {
        Some(Passed::Operator)
    } else if begins_with("QUERY", params) {
        Some(Passed::Question)
    } else {
        None
    }
}

fn passed_word(word: &[u8], params: &[Text]) -> Option<Passed>
    ensures { result ≡ passed_word word.now params.now }
{
    if is_text(word, "PRCOMP") {
        Some(Passed::Compensation)
    } else if is_text(word, "FINPOS") {
        Some(Passed::Positioning)
    } else if is_text(word, "SNSET") {
        Some(sensor_setting(params))
    } else if is_text(word, "WKPLAN") {
        Some(Passed::Plane)
    } else if is_text(word, "FEDRAT") {
        Some(Passed::Speed)
    } else if is_text(word, "ACLRAT") {
        Some(Passed::Acceleration)
    } else if is_text(word, "TEXT") {
        text_meaning(params)
    } else {
        None
    }
}

fn passed_over(statement: &Statement) -> Option<What>
    ensures { result ≡ passed_over statement.now }
{
    if statement.label.is_some() || statement.is_open() {
        return None;
    }
    let passed = passed_word(&statement.word, &statement.params)?;
    Some(What::Passed(passed))
}

/// Adds each statement of these that is passed over though it changes how the machine moves, what nominal values mean or what an operator
/// must do, up to `ENDFIL`. Fails only if out of memory.
pub(crate) fn push_passed(remarks: &mut Vec<Remark>, statements: &[Said]) -> Result<(), AllocError>
    ensures { OnOk result (remarks.new.items ≡ remarks.old.items ++ notices_of statements.now) }
{
    let mut left = statements;
    while let [said, rest @ ..] = left {
        if said.is_end() {
            break;
        }
        push_remark(remarks, passed_over(said.statement), said.line())?;
        left = rest;
    }
    Ok(())
}
