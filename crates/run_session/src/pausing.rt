// Texts for the operator are shown in their place, and the run waits there until he has confirmed it.

ghost use Rattle.std.specs.Prelude.{◌≡◌, true, false, drop, OnOk, OnErr};
ghost use Rattle.effects.specs.Effects.{the_reply};
ghost use Rattle.run_session.specs.Records as spec;

use crate::{Session, Stage};
use client_core::State;
use effects::Answer;
use session_telling::Wait;
use std::alloc::AllocError;

const ASKED: &str = "dme: an empty line continues the run, anything else ends it\n";

/// Whether an answer ends the run at a pause: it is neither an LF, nor a CR that may come first, nor is memory short.
fn declines(first: bool, answer: Answer<'_>) -> bool
    ensures { result ≡ spec.declines first (the_reply answer.entry) }
{
    match answer {
        Answer::Bytes(bytes) => {
            !(bytes == b"\n".as_slice() || (first && bytes == b"\r".as_slice()))
        }
        Answer::Short => false,
        _ => true,
    }
}

impl Session {
    /// How many of the plan's last commands are held back.
    pub(crate) fn held(&self) -> usize
        ensures { result ≡ spec.held self.now.book.pauses }
    {
        match self.pauses.as_slice() {
            [count, ..] => *count,
            [] => 0,
        }
    }

    /// Whether all is counted that stands above the next pause.
    pub(crate) fn is_paused(&self) -> bool
        ensures { result ≡ true → spec.IsPaused self.now }
    {
        !self.pauses.is_empty()
            && matches!(self.client.state(), State::Running)
            && self.client.uncounted() <= self.held()
    }

    /// The operator is to be asked, at a pause.
    pub(crate) fn ask(&mut self) -> Result<(), AllocError>
        ensures quiet { spec.IsQuiet self.old self.new }
        ensures due { OnOk result (spec.IsDue self.new) }
        ensures followed { OnOk result (spec.Follows self.old self.new) }
    {
        self.is_asked = true;
        self.shown.push_str(ASKED)?;
        self.stage = Stage::Tracing;
        Ok(())
    }

    /// The lines of the texts whose place is reached, as far as they are shown, and how many texts there are up to that place.
    fn text_lines(&self) -> Result<(String, usize), AllocError> {
        let mut lines = String::new(self.alloc);
        for at in self.passed..self.places.len() {
            let place = &self.places[at];
            if place.held < self.client.uncounted() {
                return Ok((lines, at));
            }
            if self.run.progress || place.is_waited {
                let number = place.line;
                let text = &place.shown;
                let line = format!(in self.alloc; "dme: line {number}: {text}\n")?;
                lines.push_str(line.as_str())?;
            }
        }
        Ok((lines, self.places.len()))
    }

    /// The texts whose place is reached are to be shown, if asked, or if the run waits there; after the line of the run's pace, if that is
    /// shown.
    pub(crate) fn show_texts(&mut self, is_paced: bool) -> Result<(), AllocError>
        ensures { self.new ≡ self.old }
    {
        let (lines, passed) = self.text_lines()?;
        self.passed = passed;
        self.pacing.show(is_paced, !lines.is_empty());
        self.shown.push_str(lines.as_str())
    }

    /// The first pause is over, if all that stands above it is counted.
    fn end_pause(&mut self)
        ensures ran { spec.Keeps self.old self.new }
        ensures book { spec.of_file self.new.book ≡ spec.of_file self.old.book }
        ensures short { self.new.book.short ≡ self.old.book.short }
        ensures told { spec.StaysTold self.old self.new }
        ensures runs { spec.over self.new ≡ spec.over self.old }
        ensures opens { spec.open_on self.new ≡ spec.open_on self.old }
        ensures ends { spec.IsPaused self.old
            → self.new.book.pauses ≡ drop 1 self.old.book.pauses }
    {
        if !self.pauses.is_empty() && self.client.uncounted() <= self.held() {
            self.pauses.remove(0);
        }
    }

    /// The operator has confirmed a pause. What has come meanwhile is read before anything is sent.
    fn confirm(&mut self)
        ensures ran { spec.Keeps self.old self.new }
        ensures book { spec.of_file self.new.book ≡ spec.of_file self.old.book }
        ensures short { self.new.book.short ≡ self.old.book.short }
        ensures due { spec.IsDue self.new }
        ensures followed { spec.FollowsGoing self.old self.new }
        ensures ends { spec.IsPaused self.old
            → self.new.book.pauses ≡ drop 1 self.old.book.pauses }
    {
        self.is_asked = false;
        self.wait = Wait::new(self.wait.limit);
        self.end_pause();
        self.await_bytes();
    }

    /// The operator has not confirmed a pause: the run ends as by a stop file.
    fn decline(&mut self) -> Result<(), AllocError>
        ensures ran { OnOk result (spec.Keeps (spec.stopped true self.old) self.new) }
        ensures spent { OnErr result (spec.IsShort true self.old self.new) }
        ensures book { self.new.book ≡ self.old.book }
        ensures due { OnOk result (spec.IsDue self.new) }
        ensures followed { OnOk result (spec.Follows self.old self.new) }
    {
        self.is_declined = true;
        self.stop()
    }

    /// A CR was typed: the end of the line is to follow.
    fn await_end(&mut self)
        ensures quiet { spec.IsQuiet self.old self.new }
        ensures due { spec.IsDue self.new }
        ensures followed { spec.FollowsGoing self.old self.new }
    {
        if self.is_paused() {
            self.stage = Stage::Returning;
        } else {
            self.await_bytes();
        }
    }

    /// The operator has typed a byte, the first one or another, or can type none.
    pub(crate) fn typed(&mut self, first: bool, answer: Answer<'_>) -> Result<(), AllocError>
        requires { spec.is_stop self.old.stage (the_reply answer)
            ≡ spec.declines first (the_reply answer) }
        ensures ran { OnOk result (spec.Keeps (spec.stopped (spec.is_stop self.old.stage
            (the_reply answer.entry)) self.old) self.new) }
        ensures spent { OnErr result (spec.IsShort (spec.is_stop self.old.stage
            (the_reply answer.entry)) self.old self.new) }
        ensures book { spec.of_file self.new.book ≡ spec.of_file self.old.book }
        ensures short { self.new.book.short ≡ self.old.book.short }
        ensures pauses { spec.confirms_pause self.old.stage (the_reply answer.entry) ≡ false
            → self.new.book.pauses ≡ self.old.book.pauses }
        ensures due { OnOk result (spec.IsDue self.new) }
        ensures followed { OnOk result (spec.FollowsGoing self.old self.new) }
        ensures ends { spec.IsPaused self.old
            → spec.confirms_pause self.old.stage (the_reply answer.entry) ≡ true
            → self.new.book.pauses ≡ drop 1 self.old.book.pauses }
    {
        match (self.stage, answer) {
            (Stage::Awaiting | Stage::Returning, Answer::Bytes([b'\n'])) => {
                self.confirm();
                return Ok(());
            }
            (_, Answer::Short) => return Err(AllocError),
            _ => {}
        }
        if declines(first, answer) {
            return self.decline();
        }
        self.await_end();
        Ok(())
    }
}
