// The report of a program's text under a setup.

ghost use Rattle.std.specs.Prelude.{◌≡◌, ◌++◌, [], IfOk, OnOk, is_err, is_some};
ghost use Rattle.dmis_program.specs.Meaning.{program_of};
ghost use Rattle.program_review.specs.Notices.{notices_of};
ghost use Rattle.program_review.specs.Refusals.{first_of};
ghost use Rattle.program_review.specs.Remarks.{AreByLine};
ghost use Rattle.program_review.specs.Printed.{names_of};
ghost use Rattle.program_review.specs.Reviews.{IsReport, frames_under, lacks_under, texts_of};
ghost use Rattle.program_review.specs.Strays.{strays_of};
ghost use Rattle.program_review.specs.Travels.{travels_of};

use crate::notices::push_passed;
use crate::odd::odd_statements;
use crate::printing::{FindingStyle, printed};
use crate::read;
use crate::recalling::add_unused_frames;
use crate::refusals::refusals;
use crate::remarks::{Remark, What, sort_by_line};
use crate::said::{Said, said_in};
use crate::summary::add_summary;
use crate::travels::{Stray, push_travels};
use crate::under_setup::push_lacks;
use crate::walking::findings_in;
use dmis_program::Frames;
use std::alloc::{AllocError, Global};
use tool_rack::Setup;

/// The texts of a review.
#[derive(Clone, Copy)]
pub struct ReviewTexts<'a> {
    /// The machine's setup, if one is named.
    pub setup: &'a Option<Setup>,
    /// Its text; empty without one.
    pub stored: &'a [u8],
    /// The text of the DMIS program.
    pub program: &'a [u8],
}

/// What a review has found, in the form in which it is printed.
#[derive(Drop)]
pub struct Report {
    /// The text; as lines, empty if nothing was found.
    pub text: Vec<u8>,
    /// Whether the program is refused.
    pub is_refused: bool,
}

fn frames_under<'a>(setup: &'a Option<Setup>, none: &'a Frames) -> &'a Frames
    requires { none.now ≡ [] }
    ensures { result.now ≡ frames_under setup.now }
{
    match setup {
        Some(setup) => setup.frames(),
        None => none,
    }
}

fn push_lacks_under(
    remarks: &mut Vec<Remark>,
    setup: &Option<Setup>,
    statements: &[Said],
) -> Result<(), AllocError>
    ensures { OnOk result (remarks.new.items
        ≡ remarks.old.items ++ lacks_under setup.now statements.now) }
{
    match setup {
        Some(setup) => push_lacks(remarks, statements, setup.rack(), setup.frames()),
        None => Ok(()),
    }
}

/// These remarks on the statements of a program and the others that are due, in the order of their lines; and the touches that go astray.
fn all_remarks(
    strays: &mut Vec<Stray>,
    setup: &Option<Setup>,
    frames: &Frames,
    statements: &[Said],
    refused: &[Remark],
    odd: &[Remark],
) -> Result<Vec<Remark>, AllocError>
    ensures strays { OnOk result (strays.new.items
        ≡ strays.old.items ++ strays_of frames.now statements.now) }
    ensures remarks { IfOk result (λ remarks. AreByLine ((((refused.now ++ notices_of statements.now)
        ++ lacks_under setup.now statements.now) ++ travels_of frames.now statements.now) ++ odd.now)
        remarks.items) }
{
    let mut remarks = Vec::from_slice(*strays.allocator(), refused)?;
    push_passed(&mut remarks, statements)?;
    push_lacks_under(&mut remarks, setup, statements)?;
    push_travels(&mut remarks, strays, statements, frames)?;
    remarks.extend_from_slice(odd)?;
    sort_by_line(&mut remarks)?;
    Ok(remarks)
}

fn is_refused(remarks: &[Remark]) -> bool
    ensures { result ≡ is_some (first_of remarks.now) }
{
    match remarks {
        [first, ..] => matches!(first.what, What::Refused(_, _, _)),
        [] => false,
    }
}

/// Everything that stands between a program and its run, with sentences: in the order of the program's lines each refusal, each statement
/// that is passed over though it changes something, each for which the setup lacks something, each to which the probe travels straight from
/// another feature, and each that is odd; then each frame of the setup that the program does not recall; then how many of the refused
/// statements `dme lower` takes, what they are for, and what deleting them would change.
///
/// Fails only if out of memory.
#[tactic(auto, using(crate::proofs::FirstLemmas::refused_is))]
pub fn review_report(
    alloc: Global,
    style: FindingStyle<'_>,
    texts: ReviewTexts<'_>,
) -> Result<Report, AllocError>
    ensures text { IfOk result (λ r. IsReport style.entry.form
        (names_of style.entry.program.now style.entry.setup.now)
        (texts_of texts.entry.setup.now texts.entry.stored.now texts.entry.program.now)
        r.text.items) }
    ensures refused { IfOk result (λ r. r.is_refused
        ≡ is_err (program_of (frames_under texts.entry.setup.now) texts.entry.program.now)) }
{
    let reading = read(alloc, texts.program)?;
    let said = said_in(alloc, reading.statements.as_slice())?;
    let said = said.as_slice();
    let none = Frames::new(alloc);
    let frames = frames_under(texts.setup, &none);
    let refused = refusals(alloc, &reading, frames)?;
    let refused = refused.as_slice();
    let odd = odd_statements(alloc, texts.program, said)?;
    let odd = odd.as_slice();
    let mut strays = Vec::new(alloc);
    let remarks = all_remarks(&mut strays, texts.setup, frames, said, refused, odd)?;
    let statements = reading.statements.as_slice();
    let mut findings = findings_in(alloc, texts.program, statements, remarks.as_slice())?;
    add_unused_frames(&mut findings, texts.stored, said)?;
    add_summary(&mut findings, refused, strays.as_slice())?;
    let text = printed(alloc, style, findings.as_slice())?;
    let is_refused = is_refused(refused);
    Ok(Report { text, is_refused })
}
