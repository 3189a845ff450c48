// Before the first connection: the files are opened, and the port is listened on.

ghost use Rattle.std.specs.Prelude.{◌≡◌, ◌≢◌, if◌then◌else◌, true, false, [], OnOk};
ghost use Rattle.effects.specs.Effects.{the_reply, Reply};
ghost use Rattle.services.specs.Ends as ends;
ghost use Rattle.services.specs.Sessions as spec;
ghost use Rattle.services.specs.Serving as serving;

use crate::{Session, Stage};
use effects::Answer;
use session_telling::{cause_of, unwritten_line, why_unconnected};
use std::alloc::AllocError;

impl Session {
    fn after_log(&self) -> Stage
        ensures { result ≡ (if self.now.core.named then Stage.Looking else Stage.Listening) }
    {
        if self.contacts.is_named() {
            Stage::Looking
        } else {
            Stage::Listening
        }
    }

    /// The log cannot be written, and is left alone.
    pub(crate) fn lose_log(&mut self, answer: Answer<'_>, next: Stage) -> Result<(), AllocError>
        ensures new { OnOk result (self.new
            ≡ record self.old { stage = Stage.Saying; next = next }) }
        ensures talk { self.new.talk ≡ self.old.talk }
    {
        self.is_logged = false;
        if !self.service.trace {
            self.lines.stop();
        }
        let name = self.service.log.as_deref().unwrap_or("");
        let message = unwritten_line(self.alloc, name, answer)?;
        self.say(message, next);
        Ok(())
    }

    /// The contacts file cannot be written, and the service ends before it has begun.
    fn refuse_contacts(&mut self, answer: Answer<'_>) -> Result<(), AllocError>
        ensures new { OnOk result (self.new
            ≡ record self.old { stage = Stage.Saying; next = Stage.Exiting }) }
        ensures talk { self.new.talk ≡ self.old.talk }
    {
        let message = unwritten_line(self.alloc, self.contacts.name(), answer)?;
        self.say(message, Stage::Exiting);
        Ok(())
    }

    /// The contacts file is locked, and has its next text.
    fn made(&mut self, has_more: bool)
        ensures { self.new ≡ record self.old {
          stage = Stage.Listening;
          core = record (self.old.core) { grows = true };
        } }
    {
        self.contacts.grows = true;
        self.contacts.has_more = has_more;
        self.stage = Stage::Listening;
    }

    /// What comes before the port is listened on.
    pub(crate) fn prepare(&mut self, answer: Answer<'_>) -> Result<(), AllocError>
        requires { spec.is_preparing self.old.stage ≡ true }
        ensures goes { OnOk result (spec.GoesOn self.old (the_reply answer.entry) self.new) }
        ensures talk { self.new.talk ≡ self.old.talk }
        ensures broken { OnOk result (self.new.core.broken ≡ self.old.core.broken) }
        ensures rests { OnOk result (spec.Rests self.old.talk self.new) }
    {
        match (self.stage, answer) {
            (Stage::Logged, Answer::Done) => self.stage = self.after_log(),
            (Stage::Logged, _) => return self.lose_log(answer, self.after_log()),
            (Stage::Looking, Answer::Done) => self.stage = Stage::Making,
            (Stage::Looking, Answer::Short) => return Err(AllocError),
            (Stage::Looking, _) => return self.refuse_contacts(answer),
            (Stage::Making, Answer::Done) => self.made(false),
            (Stage::Making, Answer::Found) => self.made(true),
            (Stage::Making, Answer::Short) => return Err(AllocError),
            (Stage::Making, _) => return self.refuse_contacts(answer),
            _ => return self.listened(answer),
        }
        Ok(())
    }

    /// What comes once the port is listened on.
    fn after_listening(&self) -> Stage
        ensures grows { self.now.core.grows ≡ true
            → spec.is_beginning result ≡ true }
        ensures other { self.now.core.grows ≡ false → spec.is_serving result ≡ true }
        ensures kept { result ≢ Stage.Discarding }
        ensures at { serving.IsFree self.now.talk → serving.IsAt result self.now.talk }
    {
        match (self.contacts.grows, self.contacts.has_more) {
            (true, true) => Stage::SettingAside,
            (true, false) => Stage::Beginning,
            (false, _) => self.await_next(),
        }
    }

    fn listened(&mut self, answer: Answer<'_>) -> Result<(), AllocError>
        requires { self.old.stage ≡ Stage.Listening }
        ensures goes { OnOk result (spec.GoesOn self.old (the_reply answer.entry) self.new) }
        ensures talk { self.new.talk ≡ self.old.talk }
        ensures broken { OnOk result (self.new.core.broken ≡ self.old.core.broken) }
        ensures rests { OnOk result (spec.Rests self.old.talk self.new) }
    {
        if let Answer::Done = answer {
            let next = self.after_listening();
            if self.service.is_abroad() {
                let address = self.service.address();
                let message = format!(in self.alloc; "dme: listening on {address}\n")?;
                self.say(message, next);
            } else {
                self.stage = next;
            }
            return Ok(());
        }
        let why = why_unconnected(cause_of(answer));
        let message = format!(in self.alloc; "dme: connection failed\n{why}")?;
        self.say(message, Stage::Exiting);
        if self.contacts.grows {
            self.stage = Stage::Discarding;
        }
        Ok(())
    }

    /// The contacts file is as it was, and the service ends.
    fn discarded(&mut self)
        requires { self.old.stage ≡ Stage.Discarding }
        ensures goes { (reply : Reply) → spec.GoesOn self.old reply self.new }
        ensures talk { self.new.talk ≡ self.old.talk }
        ensures broken { self.new.core.broken ≡ self.old.core.broken }
        ensures over { serving.is_over (spec.due self.new) ≡ true }
        ensures stands { spec.Stands self.new }
        ensures nears { ends.IsWithin 1 (ends.ahead self.new) }
    {
        self.next = Stage::Exiting;
        self.stage = if self.status == 4 {
            Stage::Telling
        } else {
            Stage::Saying
        };
    }

    /// The contacts file grows from now on.
    fn begun(&mut self)
        ensures due { spec.is_serving (spec.due self.new) ≡ true }
        ensures core { self.new.core ≡ record (self.old.core) { text = [] } }
        ensures talk { self.new.talk ≡ self.old.talk }
        ensures rests { spec.Rests self.old.talk self.new }
    {
        self.contacts.settle();
        self.stage = self.await_next();
    }

    /// The contacts file is left as it was, or begins.
    pub(crate) fn begin(&mut self, answer: Answer<'_>) -> Result<(), AllocError>
        requires { spec.is_beginning self.old.stage ≡ true }
        ensures goes { OnOk result (spec.GoesOn self.old (the_reply answer.entry) self.new) }
        ensures talk { self.new.talk ≡ self.old.talk }
        ensures broken { OnOk result (self.new.core.broken ≡ self.old.core.broken) }
        ensures over { serving.is_over self.old.stage ≡ true
            → OnOk result (serving.is_over (spec.due self.new) ≡ true) }
        ensures stands { OnOk result (spec.Stands self.old → spec.Stands self.new) }
        ensures nears { serving.is_over self.old.stage ≡ true
            → ends.NearsOn result self.old self.new }
    {
        match (self.stage, answer) {
            (Stage::Discarding, _) => self.discarded(),
            (Stage::SettingAside, Answer::Done) => {
                let (name, old) = (self.contacts.name(), self.contacts.old());
                let message = format!(in self.alloc; "dme: what was in {name} stays as {old}\n")?;
                self.say(message, Stage::Beginning);
            }
            (Stage::SettingAside, _) => {
                let message = unwritten_line(self.alloc, self.contacts.old(), answer)?;
                self.say(message, Stage::Exiting);
                self.stage = Stage::Discarding;
            }
            (_, Answer::Done) => self.begun(),
            _ => return self.refuse_contacts(answer),
        }
        Ok(())
    }

    /// The contacts file could not be kept: that is said, once, and it is not written any more until the end.
    pub(crate) fn lose_contacts(&mut self, answer: Answer<'_>) -> Result<(), AllocError>
        ensures lost { OnOk result (self.new.core.lost ≡ true) }
        ensures broken { OnOk result (self.new.core.broken ≡ self.old.core.broken) }
        ensures due { OnOk result (spec.is_serving (spec.due self.new) ≡ true) }
        ensures talk { self.new.talk ≡ self.old.talk }
        ensures stands { OnOk result (spec.Stands self.new) }
    {
        self.contacts.has_failed = true;
        let message = unwritten_line(self.alloc, self.contacts.name(), answer)?;
        self.say(message, self.after_keeping());
        Ok(())
    }
}
