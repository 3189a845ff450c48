// What is shown of the errors of a server: the command that each is about, with its line in the program, its feature and its touch, and
// the error's text.

ghost use Rattle.std.specs.Prelude.{◌≡◌, ◌∷◌, ◌++◌, ◌-◌, ◌==◌, ◌≤◌, ◌||◌, ℕ, List, [], Some, true, false, map, length, drop, slice_get, IfOk, OnOk, OnErr, MatchOption, string_bytes};
ghost use Rattle.std.specs.List.{AllByRecursion, list_any};
ghost use Rattle.dme_line.specs.Kinds.{kind_name};
ghost use Rattle.dme_line.specs.Tags.{written_tag, IsTag};
ghost use Rattle.dme_line.specs.declared.tags.Tag.{Tag};
ghost use Rattle.run_session.specs.Records.{HaveLines};
ghost use Rattle.session_telling.specs.Sessions.{last_under, with_command};
ghost use Rattle.run_session.specs.Errors as spec;

use dme_line::{Kind, Tag, cut_response, write_received_reserved};
use dmis_program::Wanted;
use session_telling::{Dialogue, Report, Sent, is_task, line_of, place_of, visible};
use std::alloc::{AllocError, Global};
use std::marker::Model;

/// What is known of a connection when an error comes: the commands that were written, how many features of the program were complete
/// before, and the line of each command that carries out a statement of the program. Contracts see this as a `Talk`.
///
/// Of a command its tag and kind are kept, and how many touches and statements came with it: none of its bytes.
#[derive(Drop)]
pub struct Errors {
    alloc: Global,
    kept: usize,
    lines: Vec<Option<u64>>,
    /// The commands that were written.
    sent: Vec<Sent>,
    /// What was received of a line that may be an error.
    dialogue: Dialogue,
    /// Whether the dialogue may have heard the beginning of a line only.
    is_within_line: bool,
    /// The errors that were shown since they were taken last, each from its tag on.
    errors: Vec<Vec<u8>>,
    /// Whether memory has run out for one of these.
    is_lost: bool,
}

impl Model for Errors {
    ghost use Rattle.std.specs.Prelude.{◌≡◌, [], map, false};
    ghost use Rattle.run_session.specs.Errors.{Talk};
    ghost use Rattle.run_session.specs.Records.{HaveLines};

    ghost Value = { Talk };

    ghost view = { λ e. record {
      kept = e.kept;
      lines = e.lines.items;
      sent = e.sent.items;
      hearing = e.dialogue.hearing;
      errors = map (λ x. x.items) e.errors.items;
      lost = e.is_lost;
    } };

    ghost invariant = { λ e. (e.is_within_line ≡ false → e.dialogue.hearing ≡ [])
        × HaveLines (map (λ x. x.items) e.errors.items) };
}

fn ends_line(bytes: &[u8]) -> bool
    ensures { result ≡ true → slice_get bytes.now (length bytes.now - 1) ≡ Some 10 }
{
    bytes.last() == Some(&b'\n')
}

/// The tag with which the line of a command begins, read as that of the response that it was received.
fn tag_of(line: &[u8]) -> Option<Tag>
    ensures { (tag : Tag) (text : List ℕ) → IsTag tag → line.now ≡ written_tag tag ++ (32 ∷ text)
        → MatchOption result ⊥ (λ read. read ≡ tag) }
{
    let [a, b, c, d, e, ..] = line else {
        return None;
    };
    match cut_response(&[*a, *b, *c, *d, *e, b' ', b'&']) {
        Ok(response) => Some(response.tag),
        Err(_) => None,
    }
}

/// What is kept of an error has a line in a record. Does nothing.
fn has_line(error: &[u8])
    requires { 1 ≤ length error.now }
    ensures { HaveLines (error.now ∷ []) }
{}

/// The text of an error from its tag on.
fn from_tag(alloc: Global, report: &Report) -> Result<Vec<u8>, AllocError>
    requires { IsTag report.now.tag }
    ensures text { IfOk result (λ text. text.items ≡ spec.error_kept report.now) }
    ensures line { IfOk result (λ text. HaveLines (text.items ∷ [])) }
{
    let mut text = Vec::new(alloc);
    text.reserve(7)?;
    write_received_reserved(&mut text, report.tag());
    text.pop();
    text.extend_from_slice(report.text())?;
    has_line(text.as_slice());
    Ok(text)
}

/// How many touches each of these features has.
fn touch_counts(alloc: Global, features: &[Wanted]) -> Result<Vec<usize>, AllocError>
    ensures { IfOk result (λ counts. counts.items ≡ map (λ f. length f.touches) features.now) }
{
    let mut counts = Vec::new(alloc);
    for feature in features {
        counts.push(feature.touches.as_slice().len())?;
    }
    Ok(counts)
}

/// Which touch of which of these features a command is, if it is one.
fn touch(alloc: Global, features: &[Wanted], sent: Sent) -> Result<String, AllocError>
    ensures { IfOk result (λ text. string_bytes text
        ≡ spec.touch_of features.now sent.kind sent.touches) }
{
    let Kind::PtMeas = sent.kind else {
        return Ok(String::new(alloc));
    };
    let counts = touch_counts(alloc, features)?;
    let Some((at, touch)) = place_of(counts.as_slice(), sent.touches as usize) else {
        return Ok(String::new(alloc));
    };
    let label = &features[at].label;
    format!(in alloc; ", {label}, touch {touch}")
}

fn kind_text(kind: Kind) -> &'static str
    ensures { result.now ≡ kind_name kind }
{
    match kind {
        Kind::StartSession => "StartSession",
        Kind::EndSession => "EndSession",
        Kind::ClearAllErrors => "ClearAllErrors",
        Kind::IsHomed => "IsHomed",
        Kind::Home => "Home",
        Kind::OnPtMeasReport => "OnPtMeasReport",
        Kind::GoTo => "GoTo",
        Kind::PtMeas => "PtMeas",
        Kind::ChangeTool => "ChangeTool",
        Kind::SetCsyTransformation => "SetCsyTransformation",
        Kind::SetCoordSystem => "SetCoordSystem",
        Kind::AbortE => "AbortE",
    }
}

impl Errors {
    /// For a connection before which that many features of the program were complete, by commands of these lines of the program. Does not
    /// allocate.
    pub fn new(alloc: Global, kept: usize, lines: Vec<Option<u64>>) -> Errors
        ensures { result ≡ spec.new_talk kept lines.items }
    {
        Errors {
            alloc,
            kept,
            lines,
            sent: Vec::new(alloc),
            dialogue: Dialogue::new(alloc),
            is_within_line: false,
            errors: Vec::new(alloc),
            is_lost: false,
        }
    }

    /// If memory has run out, nothing more is known of errors.
    pub fn lose_if(&mut self, is_short: bool)
        ensures { self.new ≡ record (self.old) { lost = self.old.lost || is_short } }
    {
        self.is_lost = self.is_lost || is_short;
    }

    /// A command of this kind was written on this line. Fails only if out of memory.
    pub fn note(&mut self, kind: Kind, line: &[u8]) -> Result<(), AllocError>
        ensures noted { (tag : Tag) (text : List ℕ) → IsTag tag
            → line.now ≡ written_tag tag ++ (32 ∷ text) → OnOk result
            (self.new ≡ record (self.old) { sent = with_command self.old.sent tag kind }) }
        ensures lost { OnErr result (self.new.lost ≡ true) }
    {
        let Some(tag) = tag_of(line) else {
            return Ok(());
        };
        let pushed = self.push(tag, kind);
        self.lose_if(pushed.is_err());
        pushed
    }

    fn push(&mut self, tag: Tag, kind: Kind) -> Result<(), AllocError>
        ensures { OnOk result
            (self.new ≡ record (self.old) { sent = with_command self.old.sent tag kind }) }
    {
        let mut touches = self.sent.last().map_or(0, |sent| sent.touches);
        let mut tasks = self.sent.last().map_or(0, |sent| sent.tasks);
        if let Kind::PtMeas = kind {
            touches = touches.saturating_add(1);
        }
        if is_task(kind) {
            tasks = tasks.saturating_add(1);
        }
        self.sent.push(Sent {
            tag,
            kind,
            touches,
            tasks,
        })?;
        Ok(())
    }

    /// Whether bytes that were received are whole lines with no error among them: an error has a `!`.
    fn are_no_errors(&self, bytes: &[u8]) -> bool
        ensures { result ≡ true → (self.now.hearing ≡ [])
            × (slice_get bytes.now (length bytes.now - 1) ≡ Some 10)
            × (list_any (λ b. b == 33) bytes.now ≡ false) }
    {
        !self.is_within_line && ends_line(bytes) && !bytes.contains(&b'!')
    }

    /// The last command that was written under a tag.
    fn about(&self, tag: Tag) -> Option<Sent>
        ensures { result ≡ last_under tag self.now.sent }
    {
        self.sent.iter().rev().copied().find(|sent| sent.tag == tag)
    }

    /// Which command an error is about.
    fn command(&self, program: &[Wanted], about: Option<Sent>) -> Result<String, AllocError>
        ensures { IfOk result (λ text. string_bytes text ≡ spec.command_text
            (drop self.now.kept program.now) self.now.lines about) }
    {
        let Some(sent) = about else {
            return String::from_str(self.alloc, "the server reports: ");
        };
        let kind = kind_text(sent.kind);
        let Some(line) = line_of(self.lines.as_slice(), sent) else {
            return format!(in self.alloc; "{kind} refused: ");
        };
        let (_, asked) = program.split_at(self.kept.min(program.len()));
        let touch = touch(self.alloc, asked, sent)?;
        format!(in self.alloc; "line {line}{touch}: {kind} refused: ")
    }

    /// An error is shown and kept.
    fn add(
        &mut self,
        program: &[Wanted],
        report: &Report,
        shown: &mut String,
    ) -> Result<(), AllocError>
        requires { IsTag report.now.tag }
        ensures added { OnOk result (spec.Adds program.now report.now self.old self.new
            (string_bytes shown.old) (string_bytes shown.new)) }
        ensures lost { self.new.lost ≡ self.old.lost }
    {
        let command = self.command(program, self.about(report.tag()))?;
        let text = visible(self.alloc, report.text())?;
        let line = format!(in self.alloc; "dme: {command}{text}\n")?;
        shown.push_str(line.as_str())?;
        self.errors.push(from_tag(self.alloc, report)?)?;
        Ok(())
    }

    /// Errors are shown and kept, one after another.
    fn add_all(
        &mut self,
        program: &[Wanted],
        reports: &[Report],
        shown: &mut String,
    ) -> Result<(), AllocError>
        requires { AllByRecursion (λ r. IsTag r.tag) reports.now }
        ensures added { OnOk result (spec.AddsAll program.now reports.now self.old self.new
            (string_bytes shown.old) (string_bytes shown.new)) }
        ensures lost { self.new.lost ≡ self.old.lost }
    {
        for report in reports {
            self.add(program, report, shown)?;
        }
        Ok(())
    }

    /// Adds what is shown of the errors of bytes that were received, for this program. Fails only if out of memory.
    pub fn hear(
        &mut self,
        program: &[Wanted],
        bytes: &[u8],
        shown: &mut String,
    ) -> Result<(), AllocError>
        ensures heard { OnOk result (spec.Hears program.now bytes.now self.old self.new
            (string_bytes shown.old) (string_bytes shown.new)) }
        ensures lost { OnErr result (self.new.lost ≡ true) }
    {
        if self.are_no_errors(bytes) {
            return Ok(());
        }
        let was_lost = self.is_lost;
        self.is_lost = true;
        self.is_within_line = true;
        let reports = self.dialogue.hear(self.alloc, bytes)?;
        self.is_within_line = !ends_line(bytes);
        self.add_all(program, reports.as_slice(), shown)?;
        self.is_lost = was_lost;
        Ok(())
    }

    /// The errors that were shown since this was called last, each from its tag on.
    pub fn take(&mut self) -> Vec<Vec<u8>>
        ensures errors { map (λ e. e.items) result.items ≡ self.old.errors }
        ensures lines { HaveLines self.old.errors }
        ensures rest { self.new ≡ record (self.old) { errors = [] } }
    {
        std::mem::replace(&mut self.errors, Vec::new(self.alloc))
    }
}
