// The words that a flat program does not have.

ghost use Rattle.std.specs.Prelude.{◌≡◌, ◌++◌, OnOk};
ghost use Rattle.dmis_program.specs.Keywords.{is_among, keyword_of};
ghost use Rattle.program_lowering.specs.Reasons.{assigned_text, detail, joint, reason_text, start_text, touches_text};
ghost use Rattle.program_lowering.specs.Words.{compensation, every, left_out, naming, is_assigned, passed_motion, passed_reason, reason_for, reason_of, is_of_setup, names_frame};

use crate::texts::is_among;
use dmis_program::Keyword;
use dmis_text::{Statement, Text};
use program_flow::{is_declaration, is_lead, is_text};
use std::alloc::AllocError;

/// What is left out besides what measures and moves nothing.
#[derive(Clone, Copy, Debug)]
pub struct Choices {
    /// Statements on clearing are left out: the machine clears nothing between features.
    pub no_clearing: bool,
    /// The machine corrects for temperature, so that a program need not ask for it.
    pub compensated: bool,
    /// What the operator would measure is left out.
    pub skip_manual: bool,
    /// Alignments select the frames of the setup that have their names.
    pub stored_frames: bool,
    /// A block for a bore that has no touch is given those that it asks for, from the nominal.
    pub even_touches: bool,
}

impl Choices {
    /// All of them.
    pub fn every() -> Choices
        ensures { result ≡ every }
    {
        Choices {
            no_clearing: true,
            compensated: true,
            skip_manual: true,
            stored_frames: true,
            even_touches: true,
        }
    }
}

/// Why nothing is written of a statement.
#[derive(Clone, Copy, Debug)]
pub enum Reason {
    /// It says what is printed or shown, and where.
    Printing,
    /// It names what is measured, by whom, or on what.
    Naming,
    /// It computes with touches that are made already.
    Evaluating,
    /// A setting of motion or of probing.
    Motion,
    /// It clears the part between features.
    Clearing,
    /// It says that nothing is corrected for temperature.
    Uncompensated,
    /// It asks for a correction that the machine makes.
    Compensated,
    /// The operator would measure.
    Manual,
    /// The setup has the frames.
    Stored,
    /// It commands nothing.
    Passed,
    /// It declares variables.
    Declared,
    /// It assigns to a variable.
    Assigned,
    /// It decides what follows.
    Leads,
    /// It stands for touches that a block is given.
    Touched,
}

/// What is measured, by whom, by which plan, and on what it is clamped.
fn is_naming(word: &[u8]) -> bool
    ensures { result ≡ is_among word.now naming }
{
    is_among(
        word,
        &[
            "PARTID", "PARTRV", "PARTSN", "LOTID", "OPERID", "PLANID", "PREVOP", "PROCID",
            "MFGDEV", "CLMPID", "CLMPSN", "FIXTID", "FIXTSN",
        ],
    )
}

/// `TECOMP`.
fn compensation(compensated: bool, params: &[Text]) -> Option<Reason>
    ensures { result ≡ compensation compensated params.now }
{
    let (first, _) = params.split_first()?;
    if is_text(first, "OFF") {
        return Some(Reason::Uncompensated);
    }
    if compensated && is_text(first, "ON") {
        return Some(Reason::Compensated);
    }
    None
}

/// Whether these parameters are one frame.
pub(crate) fn names_frame(params: &[Text]) -> bool
    ensures { result ≡ names_frame params.now }
{
    match params {
        [only] => only.starts_with(b"D(") || only.starts_with(b"DA("),
        _ => false,
    }
}

/// What the setup's frames take the place of.
fn is_of_setup(word: &[u8], params: &[Text]) -> bool
    ensures { result ≡ is_of_setup word.now params.now }
{
    is_text(word, "DATDEF") || (is_text(word, "SAVE") && names_frame(params))
}

/// Why a word that no flat program has may be left out.
fn reason_of(choices: Choices, word: &[u8], params: &[Text]) -> Option<Reason>
    ensures { result ≡ reason_of choices word.now params.now }
{
    let printing = &["VFORM", "DECPL", "DEVICE", "OPEN", "CLOSE", "REPORT"];
    if is_among(word, printing) {
        return Some(Reason::Printing);
    }
    if is_naming(word) {
        return Some(Reason::Naming);
    }
    if is_text(word, "GEOALG") || is_text(word, "CONST") || is_text(word, "EVAL") {
        return Some(Reason::Evaluating);
    }
    if is_text(word, "FLY") || is_text(word, "RAPID") {
        return Some(Reason::Motion);
    }
    if is_among(word, &["CLRSRF", "CLRPLN", "CZONE", "CZSLCT"]) {
        return if choices.no_clearing {
            Some(Reason::Clearing)
        } else {
            None
        };
    }
    if is_text(word, "TECOMP") {
        return compensation(choices.compensated, params);
    }
    if choices.stored_frames && is_of_setup(word, params) {
        return Some(Reason::Stored);
    }
    None
}

/// Whether a statement is an `ASSIGN` that was carried out.
fn is_assigned(statement: &Statement) -> bool
    ensures { result ≡ is_assigned statement.now }
{
    if !is_text(&statement.word, "ASSIGN") || statement.label.is_some() {
        return false;
    }
    let params: &[Text] = &statement.params;
    match params {
        [_, _] => true,
        _ => false,
    }
}

/// Why a statement with its values may be left out, whose word no flat program has.
fn reason_for(choices: Choices, statement: &Statement) -> Option<Reason>
    ensures { result ≡ reason_for choices statement.now }
{
    if is_declaration(statement) {
        return Some(Reason::Declared);
    }
    if is_assigned(statement) {
        return Some(Reason::Assigned);
    }
    if is_lead(statement) {
        return Some(Reason::Leads);
    }
    if is_text(&statement.word, "ENDMES is given") {
        return Some(Reason::Touched);
    }
    reason_of(choices, &statement.word, &statement.params)
}

/// Why a statement with this keyword is left out.
pub fn left_out(choices: Choices, keyword: Keyword, statement: &Statement) -> Option<Reason>
    requires { keyword ≡ keyword_of statement.now.word }
    ensures { result ≡ left_out choices statement.now }
{
    if keyword == Keyword::Unknown && !statement.is_open() {
        return reason_for(choices, statement);
    }
    None
}

/// The settings that a flat program passes over.
fn is_passed_motion(word: &[u8]) -> bool
    ensures { result ≡ is_among word.now passed_motion }
{
    is_among(word, &["FEDRAT", "ACLRAT", "SNSET", "FINPOS", "PRCOMP"])
}

/// Why a flat program's word that commands nothing is not written out.
pub(crate) fn passed_reason(keyword: Keyword, word: &[u8]) -> Option<Reason>
    ensures { result ≡ passed_reason keyword word.now }
{
    match keyword {
        Keyword::Passed if is_passed_motion(word) => Some(Reason::Motion),
        Keyword::Passed | Keyword::Definition | Keyword::Recall => Some(Reason::Passed),
        _ => None,
    }
}

/// A reason as it is printed.
pub(crate) fn reason_text(reason: Reason) -> &'static [u8]
    ensures { result.now ≡ reason_text reason }
{
    match reason {
        Reason::Printing => b"it says what is printed or shown, and where",
        Reason::Naming => b"it names what is measured, by whom, or on what",
        Reason::Evaluating => b"it computes with touches that are made already",
        Reason::Motion => b"a setting of motion or probing; the machine keeps its own",
        Reason::Clearing => b"it clears the part between features; nothing moves there by itself",
        Reason::Uncompensated => b"nothing is corrected for temperature",
        Reason::Compensated => b"the machine corrects for temperature",
        Reason::Manual => b"it is in a manual block; the operator would carry it out",
        Reason::Stored => b"the frames are the setup's",
        Reason::Passed => b"it commands nothing",
        Reason::Declared => b"it declares variables",
        Reason::Assigned => b"from here on ",
        Reason::Leads => b"it leads to line ",
        Reason::Touched => b"",
    }
}

/// What is printed before a reason, after the word.
pub(crate) fn joint(reason: Reason) -> &'static [u8]
    ensures { result.now ≡ joint reason }
{
    match reason {
        Reason::Touched => b" ",
        _ => b" is left out: ",
    }
}

/// From where the touches of a circle or a cylinder are made.
pub(crate) fn start_text(cylinder: bool) -> &'static [u8]
    ensures { result.now ≡ start_text cylinder }
{
    if cylinder {
        b"its axis, on two levels"
    } else {
        b"its centre"
    }
}

/// Appends how many touches of what a block is given, and from where.
pub(crate) fn push_touches(
    out: &mut Vec<u8>,
    count: &[u8],
    name: &[u8],
    start: &[u8],
) -> Result<(), AllocError>
    ensures { OnOk result (out.new.items
        ≡ out.old.items ++ touches_text count.now name.now start.now) }
{
    out.extend_from_slice(count)?;
    out.extend_from_slice(b" touches of F(")?;
    out.extend_from_slice(name)?;
    out.extend_from_slice(b"), each from ")?;
    out.extend_from_slice(start)?;
    out.extend_from_slice(b": see that the way there is free")?;
    Ok(())
}

/// Appends the name of a variable, and its value.
fn push_assigned(out: &mut Vec<u8>, params: &[Text]) -> Result<(), AllocError>
    ensures { OnOk result (out.new.items ≡ out.old.items ++ assigned_text params.now) }
{
    let [name, value] = params else {
        return Ok(());
    };
    out.extend_from_slice(name)?;
    out.extend_from_slice(b" is ")?;
    out.extend_from_slice(value)
}

/// Appends what follows a reason: of an `ASSIGN` the variable with its value, of what decides the line where it leads, and so on.
pub(crate) fn push_detail(
    out: &mut Vec<u8>,
    reason: Reason,
    params: &[Text],
) -> Result<(), AllocError>
    ensures { OnOk result (out.new.items ≡ out.old.items ++ detail reason params.now) }
{
    match reason {
        Reason::Assigned => push_assigned(out, params),
        Reason::Leads => match params {
            [line, ..] => out.extend_from_slice(line),
            [] => Ok(()),
        },
        Reason::Touched => match params {
            [count, name, start, ..] => push_touches(out, count, name, start),
            _ => Ok(()),
        },
        _ => Ok(()),
    }
}
