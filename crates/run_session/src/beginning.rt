// The connection is made: the files that are replaced begin to grow.

ghost use Rattle.std.specs.Prelude.{◌≡◌, OnOk};
ghost use Rattle.effects.specs.Effects.{the_reply};
ghost use Rattle.run_session.specs.Records as spec;

use crate::runs::Kept;
use crate::{Session, Stage};
use effects::Answer;
use session_telling::cause_of;
use std::alloc::AllocError;

impl Session {
    /// The features file gets the features that the client holds, if it grows.
    pub(crate) fn begin_features(&mut self) -> Result<(), AllocError>
        ensures ran { spec.Keeps self.old self.new }
        ensures book { self.new.book ≡ self.old.book }
        ensures due { OnOk result (spec.IsDue self.new) }
        ensures followed { OnOk result (spec.FollowsApart self.old self.new) }
    {
        if !self.listed.is_kept {
            return self.begin_contacts();
        }
        self.listed.whole(self.alloc, &self.client)?;
        self.stage = Stage::MakingFeatures;
        Ok(())
    }

    /// The file of contacts gets the acts that were reported before, if it grows.
    fn begin_contacts(&mut self) -> Result<(), AllocError>
        ensures ran { spec.Keeps self.old self.new }
        ensures book { self.new.book ≡ self.old.book }
        ensures due { OnOk result (spec.IsDue self.new) }
        ensures followed { OnOk result (spec.FollowsApart self.old self.new) }
    {
        if self.run.reports() {
            self.stage = Stage::MakingContacts;
            Ok(())
        } else {
            self.join()
        }
    }

    /// Commands are sent from now on.
    fn join(&mut self) -> Result<(), AllocError>
        ensures ran { spec.Keeps self.old self.new }
        ensures book { self.new.book ≡ self.old.book }
        ensures due { OnOk result (spec.IsDue self.new) }
        ensures followed { OnOk result (spec.FollowsApart self.old self.new) }
    {
        self.is_on = true;
        self.has_begun = true;
        self.record()
    }

    /// A file cannot be written: the run ends before it has sent anything.
    fn refuse(&mut self, kept: Kept, answer: Answer<'_>) -> Result<(), AllocError>
        ensures quiet { spec.IsQuiet self.old self.new }
        ensures due { OnOk result (spec.IsDue self.new) }
        ensures followed { OnOk result (spec.FollowsApart self.old self.new) }
    {
        self.unopened = Some((kept, cause_of(answer)));
        self.stage = Stage::Leaving;
        Ok(())
    }

    /// The features file has what the client holds, under another name, or could not be made.
    #[tactic(auto, using(crate::proofs::Filing::unmade, crate::proofs::Filing::made_noted))]
    fn note_made(&mut self, answer: Answer<'_>)
        requires { self.old.stage ≡ Stage.MakingFeatures }
        ensures { spec.IsQuiet (spec.answered self.old (the_reply answer.entry)) self.new }
    {
        match answer {
            Answer::Done | Answer::Found => self.listed.settle(),
            _ => {}
        }
    }

    /// The features file is made, and then gets its name.
    pub(crate) fn made_features(&mut self, answer: Answer<'_>) -> Result<(), AllocError>
        requires { self.old.stage ≡ Stage.MakingFeatures }
        ensures quiet { spec.IsQuiet (spec.answered self.old (the_reply answer.entry)) self.new }
        ensures due { OnOk result (spec.IsDue self.new) }
        ensures followed { OnOk result (spec.FollowsApart self.old self.new) }
    {
        self.note_made(answer);
        match answer {
            Answer::Done | Answer::Found => {
                self.stage = Stage::BeginningFeatures;
                Ok(())
            }
            Answer::Short => Err(AllocError),
            _ => self.refuse(Kept::Features, answer),
        }
    }

    /// The features file has its name, or cannot be written.
    #[tactic(auto, using(crate::proofs::Filing::undone, crate::proofs::Filing::named_noted))]
    fn note_named(&mut self, answer: Answer<'_>)
        requires { self.old.stage ≡ Stage.BeginningFeatures }
        ensures { self.new ≡ spec.answered self.old (the_reply answer.entry) }
    {
        if let Answer::Done = answer {
            return;
        }
        self.listed.is_kept = false;
    }

    /// The features file grows from now on, or cannot be written.
    pub(crate) fn begun_features(&mut self, answer: Answer<'_>) -> Result<(), AllocError>
        requires { self.old.stage ≡ Stage.BeginningFeatures }
        ensures ran { spec.Keeps (spec.answered self.old (the_reply answer.entry)) self.new }
        ensures book { self.new.book ≡ self.old.book }
        ensures due { OnOk result (spec.IsDue self.new) }
        ensures followed { OnOk result (spec.FollowsApart self.old self.new) }
    {
        self.note_named(answer);
        match answer {
            Answer::Done => self.begin_contacts(),
            Answer::Short => Err(AllocError),
            _ => self.refuse(Kept::Features, answer),
        }
    }

    /// The file of contacts is made, and then begins.
    pub(crate) fn begin(&mut self, answer: Answer<'_>) -> Result<(), AllocError>
        ensures ran { spec.Keeps self.old self.new }
        ensures book { self.new.book ≡ self.old.book }
        ensures due { OnOk result (spec.IsDue self.new) }
        ensures followed { OnOk result (spec.FollowsApart self.old self.new) }
    {
        match (self.stage, answer) {
            (_, Answer::Short) => Err(AllocError),
            (Stage::MakingContacts, Answer::Done | Answer::Found) => {
                self.stage = Stage::BeginningContacts;
                Ok(())
            }
            (Stage::BeginningContacts, Answer::Done) => self.join(),
            _ => self.refuse(Kept::Contacts, answer),
        }
    }
}
