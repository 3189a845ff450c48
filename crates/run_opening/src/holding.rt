// The files that a run appends to or replaces are locked before any file is read.

ghost use Rattle.std.specs.Prelude.{◌≡◌, true, OnOk};
ghost use Rattle.effects.specs.Effects.{the_reply};
ghost use Rattle.run_opening.specs.Openings as spec;

use crate::openings::Opening;
use crate::stages::{Stage, Text};
use effects::{Answer, Cause};
use session_telling::unwritten_line;
use std::alloc::AllocError;

impl Opening {
    pub(crate) fn hold_record(&mut self)
        ensures { spec.Leads spec.HasNone self.old self.new }
    {
        if self.order.record.is_some() {
            self.stage = Stage::HoldingRecord;
        } else {
            self.hold_features();
        }
    }

    fn hold_features(&mut self)
        ensures { spec.Leads spec.HasRecord self.old self.new }
    {
        if self.order.features.is_some() {
            self.stage = Stage::LookingFeatures;
        } else {
            self.hold_contacts();
        }
    }

    fn hold_contacts(&mut self)
        ensures { spec.Leads spec.HasFeatures self.old self.new }
    {
        if self.order.contacts.is_some() {
            self.stage = Stage::LookingContacts;
        } else {
            self.stage = Stage::Opening(Text::Setup);
        }
    }

    /// A file of this name cannot be written.
    pub(crate) fn refuse_file(
        &mut self,
        name: Option<String>,
        answer: Answer<'_>,
    ) -> Result<(), AllocError>
        ensures { OnOk result (spec.Ends self.new) }
    {
        let name = name.unwrap_or(String::new(self.alloc));
        let said = unwritten_line(self.alloc, name.as_str(), answer)?;
        self.refuse(said, 1);
        Ok(())
    }

    /// The features file is locked, or is written at the end alone.
    fn held_features(&mut self, answer: Answer<'_>) -> Result<(), AllocError>
        requires { self.old.stage ≡ Stage.HoldingFeatures }
        ensures { OnOk result (spec.GoesOn self.old (the_reply answer.entry) self.new) }
    {
        if let Answer::Done = answer {
            self.has_features = true;
            self.hold_contacts();
            return Ok(());
        }
        let name = self.order.features.take();
        self.refuse_file(name, answer)
    }

    /// Likewise for the file of reported contacts.
    fn held_contacts(&mut self, answer: Answer<'_>) -> Result<(), AllocError>
        requires { self.old.stage ≡ Stage.HoldingContacts }
        ensures { OnOk result (spec.GoesOn self.old (the_reply answer.entry) self.new) }
    {
        if let Answer::Done = answer {
            self.has_contacts = true;
            self.stage = Stage::Opening(Text::Setup);
            return Ok(());
        }
        let name = self.order.contacts.take();
        self.refuse_file(name, answer)
    }

    /// A file is locked, or may not be.
    pub(crate) fn held(&mut self, answer: Answer<'_>) -> Result<(), AllocError>
        requires { spec.is_holding self.old.stage ≡ true }
        ensures { OnOk result (spec.GoesOn self.old (the_reply answer.entry) self.new) }
    {
        match (self.stage, answer) {
            (_, Answer::Short) => return Err(AllocError),
            (Stage::HoldingRecord, Answer::Done) => self.hold_features(),
            (Stage::HoldingRecord, _) => {
                let name = self.order.record.take();
                return self.refuse_file(name, answer);
            }
            (Stage::LookingFeatures, Answer::Failed(Cause::Device | Cause::Folder)) => {
                self.hold_contacts()
            }
            (Stage::LookingFeatures, _) => self.stage = Stage::HoldingFeatures,
            (Stage::HoldingFeatures, _) => return self.held_features(answer),
            (Stage::LookingContacts, Answer::Failed(Cause::Device | Cause::Link)) => {
                self.stage = Stage::Opening(Text::Setup);
            }
            (Stage::LookingContacts, _) => self.stage = Stage::HoldingContacts,
            _ => return self.held_contacts(answer),
        }
        Ok(())
    }
}
