// Alignments by name.

ghost use Rattle.std.specs.Prelude.{◌≡◌, ◌<◌, ◌++◌, IfOk, IfSome, OnErr, OnOk};
ghost use Rattle.std.specs.Option.{option_map};
ghost use Rattle.dmis_program.specs.Keywords.{keyword_of};
ghost use Rattle.dmis_program.specs.Keywords.{is_among};
ghost use Rattle.dmis_program.specs.Parameters.{before_close, is_other_recall, name_within};
ghost use Rattle.program_lowering.specs.Carried.{frames_after, frames_closed, selected_after, since_after, used_after};
ghost use Rattle.program_lowering.specs.StoredFrames as spec;
ghost use Rattle.tool_rack.specs.Setups.{has_name};

use crate::flats::{push_between, push_note_line, push_number};
use crate::texts::is_among;
use crate::words::Choices;
use dmis_program::{Keyword, StatementMeaning, word_refusal};
use dmis_text::{Statement, Text};
use fixed_um::Name;
use std::alloc::{AllocError, Global};

/// What precedes a `)` at the end.
fn before_close(text: &[u8]) -> Option<&[u8]>
    ensures { option_map (λ t. t.now) result ≡ before_close text.now }
{
    match text {
        [front @ .., b')'] => Some(front),
        _ => None,
    }
}

/// The name between these bytes and a `)`.
#[tactic(auto, unfolding(dmis_program::specs::Parameters::name_within))]
pub(crate) fn name_within(
    alloc: Global,
    front: &[u8],
    text: &[u8],
) -> Result<Option<Name>, AllocError>
    ensures { IfOk result (λ name. name ≡ name_within front.now text.now) }
{
    let Some(rest) = text.strip_prefix(front) else {
        return Ok(None);
    };
    let Some(inner) = before_close(rest) else {
        return Ok(None);
    };
    Name::new(alloc, inner)
}

/// The name in `D(name)` or `DA(name)`.
fn frame_name(alloc: Global, text: &[u8]) -> Result<Option<Name>, AllocError>
    ensures { IfOk result (λ name. name ≡ spec.frame_name text.now) }
{
    match name_within(alloc, b"D(", text)? {
        Some(name) => Ok(Some(name)),
        None => name_within(alloc, b"DA(", text),
    }
}

/// Whether a word makes a coordinate system, which its label names.
pub(crate) fn makes_frame(word: &[u8]) -> bool
    ensures { result ≡ is_among word.now spec.alignments }
{
    is_among(word, &["DATSET", "TRANS", "ROTATE"])
}

/// Likewise of a label, if there is one.
fn labelled_frame(alloc: Global, label: &Option<Text<'_>>) -> Result<Option<Name>, AllocError>
    ensures { IfOk result (λ name. name ≡ spec.labelled_frame label.now) }
{
    match label {
        Some(label) => frame_name(alloc, label),
        None => Ok(None),
    }
}

/// Likewise of a parameter, if it is the only one.
fn only_frame(alloc: Global, params: &[Text]) -> Result<Option<Name>, AllocError>
    ensures { IfOk result (λ name. name ≡ spec.only_frame params.now) }
{
    match params {
        [only] => frame_name(alloc, only),
        _ => Ok(None),
    }
}

/// Whether a `RECALL` recalls what no flat program does.
fn is_other_recall(params: &[Text]) -> bool
    ensures { result ≡ is_other_recall params.now }
{
    word_refusal(1, None, Keyword::Recall, params).is_some()
}

/// The frames that touches refer to.
#[derive(Drop)]
pub(crate) struct FrameUses {
    /// The frame that is selected, if no touch has referred to it since.
    pub(crate) selected: Option<Name>,
    /// Those that touches refer to.
    pub(crate) used: Vec<Name>,
}

impl FrameUses {
    /// Whether a touch refers to the frame of this name.
    fn has(&self, name: &Name) -> bool
        ensures { result ≡ has_name self.now.used.items name.now }
    {
        self.used
            .iter()
            .any(|used| used.as_bytes() == name.as_bytes())
    }

    /// A frame, if no touch refers to it.
    fn unless_used(&self, name: Option<Name>) -> Option<Name>
        ensures { result ≡ spec.unless_used (has_name self.now.used.items) name }
    {
        match name {
            Some(name) => { if self.has(&name) { None } else { Some(name) } }
            None => None,
        }
    }

    /// After a statement that says this.
    pub(crate) fn follow(&mut self, meaning: &StatementMeaning) -> Result<(), AllocError>
        ensures used { OnOk result (self.new.used.items
            ≡ used_after self.old.selected self.old.used.items meaning.now) }
        ensures selected { OnOk result (self.new.selected
            ≡ selected_after self.old.selected meaning.now) }
    {
        match meaning {
            StatementMeaning::Recalls(name) => {
                self.selected = Some(name.copy(*self.used.allocator())?);
            }
            StatementMeaning::Touches(_, _) => {
                if let Some(name) = self.selected.take() {
                    self.used.push(name)?;
                }
            }
            _ => {}
        }
        Ok(())
    }
}

/// The stored frame that a statement with this keyword selects by name, if frames are selected so.
pub(crate) fn stored_frame(
    alloc: Global,
    choices: Choices,
    uses: &FrameUses,
    keyword: Keyword,
    statement: &Statement,
) -> Result<Option<Name>, AllocError>
    requires { keyword ≡ keyword_of statement.now.word }
    ensures { IfOk result (λ name. name
        ≡ spec.stored_frame choices (has_name uses.now.used.items) statement.now) }
{
    if !choices.stored_frames || statement.is_open() {
        return Ok(None);
    }
    match keyword {
        Keyword::Recall if is_other_recall(&statement.params) => {
            only_frame(alloc, &statement.params)
        }
        Keyword::Unknown if makes_frame(&statement.word) => {
            Ok(uses.unless_used(labelled_frame(alloc, &statement.label)?))
        }
        _ => Ok(None),
    }
}

/// Whether a statement with this keyword selects a frame of the setup by name, before any touch.
pub fn selects_frame(
    alloc: Global,
    keyword: Keyword,
    statement: &Statement,
) -> Result<bool, AllocError>
    requires { keyword ≡ keyword_of statement.now.word }
    ensures { IfOk result (λ selects. selects ≡ spec.selects_frame statement.now) }
{
    let (selected, used) = (None, Vec::new(alloc));
    let uses = FrameUses { selected, used };
    let frame = stored_frame(alloc, Choices::every(), &uses, keyword, statement)?;
    Ok(frame.is_some())
}

/// The notes on frames that are selected by name.
#[derive(Drop)]
pub(crate) struct FrameNotes {
    /// A line for each, of which the last is open.
    pub(crate) text: Vec<u8>,
    /// How many touches refer to the last; none before the first.
    pub(crate) since: Option<u64>,
}

/// Appends what the note on a frame says, up to the count of touches.
#[tactic(auto, unfolding(crate::specs::StoredFrames::frame_text))]
fn push_frame(out: &mut Vec<u8>, name: &Name) -> Result<(), AllocError>
    ensures { OnOk result (out.new.items ≡ out.old.items ++ spec.frame_text name.now) }
{
    push_between(
        out,
        b"the frame is ",
        name,
        b" of the setup; touches that refer to it: ",
    )
}

impl FrameNotes {
    /// Ends the open line.
    fn close(&mut self) -> Result<(), AllocError>
        ensures text { OnOk result (self.new.text.items
            ≡ frames_closed self.old.text.items self.old.since) }
        ensures since { self.new.since ≡ self.old.since }
    {
        if let Some(touches) = self.since {
            push_number(&mut self.text, touches)?;
            self.text.extend_from_slice(b"\n")?;
        }
        Ok(())
    }

    /// Appends all lines.
    pub(crate) fn push_to(&mut self, out: &mut Vec<u8>) -> Result<(), AllocError>
        ensures { OnOk result (out.new.items
            ≡ out.old.items ++ frames_closed self.old.text.items self.old.since) }
    {
        self.close()?;
        out.extend_from_slice(self.text.as_slice())
    }

    /// After the statement of this line, which says this.
    pub(crate) fn follow(&mut self, line: u64, meaning: &StatementMeaning) -> Result<(), AllocError>
        requires { IfSome self.old.since (λ n. n < 10000) }
        ensures text { OnOk result (self.new.text.items
            ≡ frames_after self.old.text.items self.old.since line meaning.now) }
        ensures since { OnOk result (self.new.since ≡ since_after self.old.since meaning.now) }
        ensures err { OnErr result (self.new.since ≡ self.old.since) }
    {
        match meaning {
            StatementMeaning::Recalls(name) => {
                self.close()?;
                push_note_line(&mut self.text, line)?;
                push_frame(&mut self.text, name)?;
                self.since = Some(0);
            }
            StatementMeaning::Touches(_, _) => {
                if let Some(touches) = self.since {
                    self.since = Some(touches + 1);
                }
            }
            _ => {}
        }
        Ok(())
    }
}
