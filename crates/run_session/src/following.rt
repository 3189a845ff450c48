// What the client has counted goes to the files, and the features that are complete are shown.

ghost use Rattle.std.specs.Prelude.{◌≡◌, ◌∷◌, [], ◌+◌, ◌<◌, ◌≤◌, map, length, true, IsNone, IfSome, OnOk, Some};
ghost use Rattle.effects.specs.Effects.{the_reply};
ghost use Rattle.run_session.specs.Ends as ends;
ghost use Rattle.run_session.specs.Records as spec;

use crate::progress::{Pace, pace_line, touches_of};
use crate::runs::Kept;
use crate::{Session, Stage};
use dmis_program::Wanted;
use effects::{Answer, Cause};
use session_telling::{cause_of, stamped, unwritten_line};
use std::alloc::AllocError;

/// The first of these, up to this many.
fn first(wanted: &[Wanted], count: usize) -> &[Wanted] {
    match wanted.split_at_checked(count) {
        Some((first, _)) => first,
        None => wanted,
    }
}

impl Session {
    /// The record gets the lines of what the client has counted since. Fails only if out of memory.
    fn tell_acts(&mut self) -> Result<(), AllocError>
        ensures ran { spec.Keeps self.old self.new }
        ensures book { self.new.book ≡ self.old.book }
        ensures told { OnOk result (spec.HasLines self.new) }
        ensures still { ends.IsStill self.old self.new }
    {
        self.growth.tell(&self.client)
    }

    /// The record gets the lines of the errors that were shown since. Fails only if out of memory.
    fn tell_errors(&mut self) -> Result<(), AllocError>
        ensures ran { spec.Keeps self.old self.new }
        ensures book { self.new.book ≡ self.old.book }
        ensures told { spec.HasLines self.old → spec.HasLines self.new }
        ensures still { ends.IsStill self.old self.new }
    {
        let errors = self.errors.take();
        let told = self.growth.tell_errors(errors.as_slice());
        self.errors.lose_if(told.is_err());
        told
    }

    /// The file of contacts is to have what the client has counted since. Fails only if out of memory.
    fn tell_contacts(&mut self) -> Result<(), AllocError>
        ensures ran { spec.Keeps self.old self.new }
        ensures book { self.new.book ≡ self.old.book }
        ensures lines { spec.HasLines self.old → spec.HasLines self.new }
        ensures told { OnOk result (spec.HasActs self.new) }
        ensures still { ends.IsStill self.old self.new }
    {
        self.reported.follow(self.number, &self.client)
    }

    /// What the client has counted since, and the errors of its server, are to be in the files.
    #[tactic(auto, using(crate::proofs::Steps::follows))]
    pub(crate) fn follow(&mut self) -> Result<(), AllocError>
        ensures ran { spec.Keeps self.old self.new }
        ensures book { self.new.book ≡ self.old.book }
        ensures due { OnOk result (spec.IsDue self.new) }
        ensures followed { OnOk result (spec.HasFollowed self.new) }
        ensures nears { ends.OverWithin (35 + ends.spare_steps self.old) result
            self.old self.new }
    {
        if self.run.record.is_some() {
            self.tell_acts()?;
            self.tell_errors()?;
        }
        if self.run.contacts.is_some() {
            self.tell_contacts()?;
        }
        self.show()
    }

    /// Errors, and lines that have ended, are shown and logged.
    pub(crate) fn show(&mut self) -> Result<(), AllocError>
        ensures ran { spec.Keeps self.old self.new }
        ensures book { self.new.book ≡ self.old.book }
        ensures due { OnOk result (spec.IsDue self.new) }
        ensures followed { OnOk result (spec.FollowsTold self.old self.new) }
        ensures nears { ends.OverWithin (ends.within 29 self.old) result self.old self.new }
    {
        if self.shown.is_empty() {
            return self.log();
        }
        self.stage = Stage::Tracing;
        Ok(())
    }

    fn log(&mut self) -> Result<(), AllocError>
        ensures ran { spec.Keeps self.old self.new }
        ensures book { self.new.book ≡ self.old.book }
        ensures due { OnOk result (spec.IsDue self.new) }
        ensures followed { OnOk result (spec.FollowsTold self.old self.new) }
        ensures nears { ends.OverWithin (ends.within 28 self.old) result self.old self.new }
    {
        if self.logged.is_empty() {
            return self.record();
        }
        self.stage = Stage::Stamping;
        Ok(())
    }

    /// They were shown, or logged.
    pub(crate) fn show_on(&mut self, answer: Answer<'_>) -> Result<(), AllocError>
        requires { ends.within 27 self.old ≤ ends.steps_left self.old }
        ensures ran { spec.Keeps self.old self.new }
        ensures book { self.new.book ≡ self.old.book }
        ensures due { OnOk result (spec.IsDue self.new) }
        ensures followed { OnOk result (spec.FollowsTold self.old self.new) }
        ensures nears { ends.is_closing self.old ≡ true
            → ends.FollowsOn result self.old self.new }
    {
        match (self.stage, answer) {
            (Stage::Tracing, _) => {
                self.shown.clear();
                self.pacing.is_last = false;
                self.log()
            }
            (Stage::Stamping, Answer::Bytes(time)) => {
                self.text = stamped(self.alloc, time, self.logged.as_str())?;
                self.stage = Stage::Logging;
                Ok(())
            }
            (Stage::Logging, Answer::Done) => {
                self.logged.clear();
                self.record()
            }
            _ => {
                self.logged.clear();
                self.lose_log(answer)?;
                self.record()
            }
        }
    }

    /// The record gets what it lacks; forced, if that completes a feature.
    pub(crate) fn record(&mut self) -> Result<(), AllocError>
        ensures ran { spec.Keeps self.old self.new }
        ensures book { self.new.book ≡ self.old.book }
        ensures due { OnOk result (spec.IsDue self.new) }
        ensures followed { OnOk result (spec.FollowsTold self.old self.new) }
        ensures nears { ends.OverWithin (ends.to_record self.old) result self.old self.new }
    {
        if self.has_to_note(self.is_over()) {
            self.stage = Stage::Noting;
            return Ok(());
        }
        if self.is_lost {
            return self.report();
        }
        if self.growth.features() > self.settled {
            self.stage = Stage::Settling;
        } else if self.filed < self.growth.text().len() {
            self.stage = Stage::Recording;
        } else {
            return self.report();
        }
        Ok(())
    }

    /// A file could not be kept: that is to be shown, unless it has lost its name, and is written anew at the end.
    fn lose(&mut self, kept: Kept, answer: Answer<'_>) -> Result<(), AllocError>
        ensures { self.new ≡ self.old }
    {
        if let Cause::Renamed = cause_of(answer) {
            return Ok(());
        }
        let message = unwritten_line(self.alloc, self.run.name(kept), answer)?;
        self.shown.push_str(message.as_str())
    }

    /// The record's file has all of its text.
    fn file(&mut self)
        ensures pair { self.new.pair ≡ self.old.pair }
        ensures book { self.new.book ≡ spec.filed self.old }
        ensures pauses { self.new.book.pauses ≡ self.old.book.pauses }
        ensures short { self.new.book.short ≡ self.old.book.short }
        ensures noted { self.new.book.noted ≡ self.old.book.noted }
        ensures talk { self.new.talk ≡ self.old.talk }
        ensures reports { self.new.reports ≡ self.old.reports }
        ensures told { spec.StaysTold self.old self.new }
        ensures same { self.new ≡ record (self.old) { book = self.new.book } }
    {
        self.filed = self.growth.text().len();
        if let Stage::Settling = self.stage {
            self.settled = self.growth.features();
        }
    }

    /// The record's file could not be kept.
    fn lose_record(&mut self)
        ensures pair { self.new.pair ≡ self.old.pair }
        ensures book { self.new.book ≡ record (self.old.book) { lost = true } }
        ensures talk { self.new.talk ≡ self.old.talk }
        ensures reports { self.new.reports ≡ self.old.reports }
        ensures told { spec.StaysTold self.old self.new }
        ensures same { self.new ≡ record (self.old) { book = self.new.book } }
    {
        self.is_lost = true;
    }

    /// The record has what it lacked, or cannot be kept.
    pub(crate) fn recorded(&mut self, answer: Answer<'_>) -> Result<(), AllocError>
        requires { spec.is_record (spec.writes self.old.stage) ≡ true }
        ensures ran { spec.Keeps self.old self.new }
        ensures goes { spec.GoesOn self.old (the_reply answer.entry) self.new }
        ensures pauses { self.new.book.pauses ≡ self.old.book.pauses }
        ensures short { self.new.book.short ≡ self.old.book.short }
        ensures noted { self.new.book.noted ≡ self.old.book.noted }
        ensures due { OnOk result (spec.IsDue self.new) }
        ensures followed { OnOk result (spec.FollowsTold self.old self.new) }
        ensures nears { ends.is_closing self.old ≡ true
            → ends.FollowsOn result self.old self.new }
    {
        match answer {
            Answer::Done if !self.is_lost => {
                self.file();
                return self.record();
            }
            _ => {}
        }
        self.lose_record();
        self.lose(Kept::Record, answer)?;
        self.record()
    }

    /// The file of contacts gets what it lacks.
    fn report(&mut self) -> Result<(), AllocError>
        ensures ran { spec.Keeps self.old self.new }
        ensures book { self.new.book ≡ self.old.book }
        ensures due { OnOk result (spec.IsDue self.new) }
        ensures followed { OnOk result (spec.Follows self.old self.new) }
        ensures nears { ends.OverWithin (ends.within 24 self.old) result self.old self.new }
    {
        let is_kept = self.run.reports() && !self.reported.has_failed;
        if !is_kept || self.reported.lacking().is_empty() {
            return self.list();
        }
        self.stage = Stage::Reporting;
        Ok(())
    }

    /// The file of contacts has all of its text, or could not be kept.
    #[tactic(auto, using(crate::proofs::Filing::undone, crate::proofs::Filing::contacts_noted))]
    fn note_reported(&mut self, answer: Answer<'_>)
        requires { self.old.stage ≡ Stage.Reporting }
        ensures { self.new ≡ spec.answered self.old (the_reply answer.entry) }
    {
        if let Answer::Done = answer {
            self.reported.settle();
        } else {
            self.reported.has_failed = true;
        }
    }

    /// The file of contacts has it, or cannot be kept.
    pub(crate) fn has_reported(&mut self, answer: Answer<'_>) -> Result<(), AllocError>
        requires { self.old.stage ≡ Stage.Reporting }
        ensures ran { spec.Keeps (spec.answered self.old (the_reply answer.entry)) self.new }
        ensures book { self.new.book ≡ self.old.book }
        ensures due { OnOk result (spec.IsDue self.new) }
        ensures followed { OnOk result (spec.Follows self.old self.new) }
        ensures nears { ends.is_closing self.old ≡ true
            → ends.FollowsOn result self.old self.new }
    {
        self.note_reported(answer);
        if let Answer::Done = answer {
            return self.list();
        }
        self.lose(Kept::Contacts, answer)?;
        self.list()
    }

    /// The features file gets what is complete.
    fn list(&mut self) -> Result<(), AllocError>
        ensures ran { spec.Keeps self.old self.new }
        ensures book { self.new.book ≡ self.old.book }
        ensures due { OnOk result (spec.IsDue self.new) }
        ensures followed { OnOk result (spec.Follows self.old self.new) }
        ensures nears { ends.OverWithin (ends.within 23 self.old) result self.old self.new }
    {
        if !self.listed.is_kept || self.listed.settled >= self.client.features().len() {
            return self.show_features();
        }
        self.listed.follow(self.alloc, &self.client)?;
        self.stage = Stage::Listing;
        Ok(())
    }

    /// The features file has what it is to have on the device, or cannot be kept.
    #[tactic(auto, using(crate::proofs::Filing::undone, crate::proofs::Filing::features_noted))]
    fn note_listed(&mut self, answer: Answer<'_>)
        requires { self.old.stage ≡ Stage.Listing }
        ensures quiet { spec.IsQuiet (spec.answered self.old (the_reply answer.entry)) self.new }
        ensures stage { self.new.stage ≡ self.old.stage }
    {
        if let Answer::Done = answer {
            self.listed.settle();
        } else {
            self.listed.is_kept = false;
        }
    }

    /// The features file has it, or cannot be kept.
    pub(crate) fn has_listed(&mut self, answer: Answer<'_>) -> Result<(), AllocError>
        requires { self.old.stage ≡ Stage.Listing }
        ensures ran { spec.Keeps (spec.answered self.old (the_reply answer.entry)) self.new }
        ensures book { self.new.book ≡ self.old.book }
        ensures due { OnOk result (spec.IsDue self.new) }
        ensures followed { OnOk result (spec.Follows self.old self.new) }
        ensures nears { ends.is_closing self.old ≡ true
            → ends.FollowsOn result self.old self.new }
    {
        self.note_listed(answer);
        if let Answer::Done = answer {
            return self.show_features();
        }
        self.lose(Kept::Features, answer)?;
        self.show_features()
    }

    /// The line of a feature that may be shown as complete, by its number among those of the program.
    fn feature_line(&self, at: usize) -> Result<String, AllocError>
        requires { at < spec.complete self.now }
    {
        let total = self.client.program().features().len();
        let number = at.saturating_add(1);
        match self.client.features().get(at) {
            Some(feature) => {
                let label = &feature.label;
                format!(in self.alloc; "feature {number} of {total}: {label}\n")
            }
            None => Ok(String::new(self.alloc)),
        }
    }

    /// How far the run is once this many features are complete.
    fn pace(&self, count: usize) -> Pace {
        let wanted = self.client.program().features();
        Pace {
            measured: count,
            asked: wanted.len(),
            before: touches_of(first(wanted, self.kept)),
            touches: touches_of(first(wanted, count)),
            all: touches_of(wanted),
            gone: self.pacing.gone(),
        }
    }

    /// The line that says so, if a feature was not shown; it takes the place of the last one if nothing was shown since.
    fn pace_text(&self, count: usize) -> Result<String, AllocError> {
        if count == self.told {
            return Ok(String::new(self.alloc));
        }
        let is_anew = self.pacing.is_last && self.shown.is_empty();
        pace_line(self.alloc, is_anew, self.pace(count))
    }

    /// The lines of the features up to this one that were not shown, if asked.
    fn feature_lines(&self, count: usize) -> Result<String, AllocError>
        requires { count ≤ spec.complete self.now }
    {
        let mut lines = String::new(self.alloc);
        if !self.run.progress {
            return Ok(lines);
        }
        if self.run.on_terminal {
            return self.pace_text(count);
        }
        for at in self.told..count {
            let line = self.feature_line(at)?;
            lines.push_str(line.as_str())?;
        }
        Ok(lines)
    }

    /// How many features may be shown: those that are on the device in the record, if it could be kept so far; or else in the features file.
    fn complete(&self) -> usize
        ensures { result ≡ spec.complete self.now }
    {
        if self.run.record.is_some() && !self.is_lost {
            self.settled
        } else if self.listed.is_kept {
            self.listed.settled
        } else {
            self.client.features().len()
        }
    }

    /// The lines of the features that are complete since are to be shown, if asked, and the texts whose place is reached.
    fn add_features(&mut self) -> Result<(), AllocError>
        ensures ran { spec.Keeps self.old self.new }
        ensures book { self.new.book ≡ self.old.book }
        ensures told { spec.StaysTold self.old self.new }
        ensures opens { spec.open_on self.new ≡ spec.open_on self.old }
        ensures complete { OnOk result (self.new.shown ≡ spec.complete self.new) }
        ensures same { self.new ≡ record (self.old) { shown = self.new.shown } }
    {
        let count = self.complete();
        let lines = self.feature_lines(count)?;
        self.shown.push_str(lines.as_str())?;
        let is_paced = count > self.told;
        self.told = count;
        self.show_texts(is_paced)
    }

    /// The features that are complete since are shown, if asked.
    pub(crate) fn show_features(&mut self) -> Result<(), AllocError>
        ensures ran { spec.Keeps self.old self.new }
        ensures book { self.new.book ≡ self.old.book }
        ensures due { OnOk result (spec.IsDue self.new) }
        ensures followed { OnOk result (spec.Follows self.old self.new) }
        ensures nears { ends.OverWithin (ends.within 22 self.old) result self.old self.new }
    {
        self.add_features()?;
        if self.shown.is_empty() {
            return self.go_on();
        }
        self.stage = Stage::Showing;
        Ok(())
    }

    /// They were shown.
    pub(crate) fn has_shown(&mut self) -> Result<(), AllocError>
        requires { self.old.stage ≡ Stage.Showing }
        ensures ran { spec.Keeps self.old self.new }
        ensures book { self.new.book ≡ self.old.book }
        ensures due { OnOk result (spec.IsDue self.new) }
        ensures followed { OnOk result (spec.Follows self.old self.new) }
        ensures nears { ends.is_closing self.old ≡ true
            → ends.FollowsOn result self.old self.new }
    {
        self.shown.clear();
        self.go_on()
    }
}
