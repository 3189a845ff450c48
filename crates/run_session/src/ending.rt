// The end of a run: its files get their whole texts, and its report is printed.

ghost use Rattle.std.specs.Prelude.{◌≡◌, ◌<◌, ◌⊎◌, OnOk, OnErr, None, Some};
ghost use Rattle.effects.specs.Effects.{the_reply};
ghost use Rattle.run_session.specs.Ends as ends;
ghost use Rattle.run_session.specs.Records as spec;

use crate::runs::Kept;
use crate::{Session, Stage};
use client_core::State;
use effects::Answer;
use order_parts::end_report;
use session_telling::cause_of;
use std::alloc::AllocError;

impl Session {
    /// The run on the connection is over: its features are to be in their file.
    pub(crate) fn end(&mut self) -> Result<(), AllocError>
        ensures quiet { spec.IsQuiet self.old self.new }
        ensures due { OnOk result (spec.IsDue self.new) }
        ensures followed { OnOk result (spec.Follows self.old self.new) }
        ensures nears { ends.OverWithin (ends.within 21 self.old) result self.old self.new }
    {
        if self.has_to_note(true) {
            self.stage = Stage::Noting;
            return Ok(());
        }
        self.end_run()
    }

    /// How it has ended is known, and its features are to be in their file.
    fn end_run(&mut self) -> Result<(), AllocError>
        ensures quiet { spec.IsQuiet self.old self.new }
        ensures due { OnOk result (spec.IsDue self.new) }
        ensures followed { OnOk result (spec.FollowsApart self.old self.new) }
        ensures nears { ends.EndsWithin 21 result self.old self.new }
    {
        self.is_on = false;
        if self.run.features.is_none() {
            return self.print();
        }
        self.listed.whole(self.alloc, &self.client)?;
        self.stage = Stage::ReplacingFeatures;
        Ok(())
    }

    fn print(&mut self) -> Result<(), AllocError>
        requires { spec.HasTriedFeatures self.old }
        ensures quiet { spec.IsQuiet self.old self.new }
        ensures due { OnOk result (spec.IsDue self.new) }
        ensures followed { OnOk result (spec.FollowsApart self.old self.new) }
        ensures printing { OnOk result (self.new.stage ≡ Stage.Printing) }
        ensures stays { OnErr result (self.new.stage ≡ self.old.stage) }
    {
        self.text = end_report(self.alloc, &self.client)?;
        self.stage = Stage::Printing;
        Ok(())
    }

    /// The file that has its whole text at the end.
    fn replaced_file(&self) -> Kept
        ensures { result ≡ spec.replaced self.now.stage }
    {
        match self.stage {
            Stage::ReplacingFeatures => Kept::Features,
            Stage::ReplacingRecord => Kept::Record,
            _ => Kept::Contacts,
        }
    }

    /// A file was written at the end, or not: then that is said last.
    #[tactic(auto, using(crate::proofs::Filing::undone, crate::proofs::Filing::whole_noted))]
    fn note_replaced(&mut self, answer: Answer<'_>)
        requires { spec.writes self.old.stage ≡ Some (spec.Whole (spec.replaced self.old.stage)) }
        ensures { self.new ≡ spec.answered self.old (the_reply answer.entry) }
    {
        let kept = self.replaced_file();
        if let Answer::Done = answer {
            self.written.note(kept, true);
            return;
        }
        self.written.note(kept, false);
        self.causes.note(kept, cause_of(answer));
    }

    /// A file has its whole text, or could not be written.
    pub(crate) fn has_replaced(&mut self, answer: Answer<'_>) -> Result<(), AllocError>
        requires whole { spec.writes self.old.stage
            ≡ Some (spec.Whole (spec.replaced self.old.stage)) }
        requires late { 1 < ends.steps_left self.old }
        requires which { (self.old.stage ≡ Stage.ReplacingFeatures)
            ⊎ ((self.old.stage ≡ Stage.ReplacingRecord)
            ⊎ (self.old.stage ≡ Stage.ReplacingContacts)) }
        ensures quiet { spec.IsQuiet (spec.answered self.old (the_reply answer.entry)) self.new }
        ensures due { OnOk result (spec.IsDue self.new) }
        ensures followed { OnOk result (spec.FollowsApart self.old self.new) }
        ensures nears { ends.NearsOn result self.old self.new }
    {
        self.note_replaced(answer);
        match self.stage {
            Stage::ReplacingFeatures => self.print(),
            _ => self.close(),
        }
    }

    /// What comes after the report: the server is left in order if it may still end the last command.
    fn after_report(&self) -> Stage
        ensures plain { spec.wants result ≡ None }
        ensures paced { spec.pace result ≡ spec.Apart }
        ensures next { (result ≡ Stage.Closing) ⊎ (result ≡ Stage.Leaving) }
    {
        if self.broken.is_none() && self.client.state() == State::Halted {
            Stage::Closing
        } else {
            Stage::Leaving
        }
    }

    /// The report was printed, or could not be.
    #[tactic(auto, using(crate::proofs::Filing::undone, crate::proofs::Filing::report_noted))]
    pub(crate) fn has_printed(&mut self, answer: Answer<'_>) -> Result<(), AllocError>
        requires { self.old.stage ≡ Stage.Printing }
        ensures quiet { spec.IsQuiet (spec.answered self.old (the_reply answer.entry)) self.new }
        ensures due { OnOk result (spec.IsDue self.new) }
        ensures followed { OnOk result (spec.FollowsApart self.old self.new) }
        ensures nears { ends.NearsOn result self.old self.new }
    {
        if let Answer::Done = answer {
            self.printed = Some(true);
            self.stage = self.after_report();
            return Ok(());
        }
        self.printed = Some(false);
        self.stage = Stage::Leaving;
        Ok(())
    }

    /// The connection is left: the record gets its whole text unless it stands, and then the file of contacts, if it has begun.
    pub(crate) fn close(&mut self) -> Result<(), AllocError>
        ensures quiet { spec.IsQuiet self.old self.new }
        ensures due { OnOk result (spec.IsDue self.new) }
        ensures followed { OnOk result (spec.FollowsApart self.old self.new) }
        ensures nears { OnOk result (ends.IsWithin (ends.to_close self.old) self.new) }
        ensures stays { OnErr result (self.new.stage ≡ self.old.stage) }
    {
        if self.is_short {
            self.stage = Stage::Telling;
            return Ok(());
        }
        if self.run.record.is_some() && self.written.kept.is_none() {
            self.stage = if self.is_lost {
                Stage::ReplacingRecord
            } else {
                Stage::Standing
            };
            return Ok(());
        }
        if self.has_begun && self.run.contacts.is_some() && self.written.contacts.is_none() {
            self.stage = Stage::ReplacingContacts;
            return Ok(());
        }
        self.say_last()
    }

    /// A record that stands has its whole text.
    #[tactic(auto, using(crate::proofs::Filing::undone, crate::proofs::Filing::stood_noted))]
    fn note_stood(&mut self, answer: Answer<'_>)
        requires { self.old.stage ≡ Stage.Standing }
        ensures { self.new ≡ spec.answered self.old (the_reply answer.entry) }
    {
        if let Answer::Done = answer {
            self.written.note(Kept::Record, true);
        }
    }

    /// Whether the record stands is known: one that does not gets its whole text.
    pub(crate) fn has_stood(&mut self, answer: Answer<'_>) -> Result<(), AllocError>
        requires { self.old.stage ≡ Stage.Standing }
        ensures quiet { spec.IsQuiet (spec.answered self.old (the_reply answer.entry)) self.new }
        ensures due { OnOk result (spec.IsDue self.new) }
        ensures followed { OnOk result (spec.FollowsApart self.old self.new) }
        ensures nears { ends.NearsOn result self.old self.new }
    {
        self.note_stood(answer);
        if let Answer::Done = answer {
            return self.close();
        }
        self.stage = Stage::ReplacingRecord;
        Ok(())
    }
}
