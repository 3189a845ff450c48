// Between connections: the next one is taken.

ghost use Rattle.std.specs.Prelude.{◌≡◌, true, false, OnOk};
ghost use Rattle.effects.specs.Effects.{the_reply, Done};
ghost use Rattle.services.specs.Sessions as spec;
ghost use Rattle.services.specs.Serving as serving;

use crate::sessions::Break;
use crate::{Session, Stage};
use effects::{Answer, Cause};
use link_world::PumpFault;
use session_telling::Wait;
use std::alloc::AllocError;

pub(crate) const UNTAKEN: &str = "dme: a connection cannot be taken\n";

impl Session {
    /// What comes before a connection is taken.
    pub(crate) fn await_next(&self) -> Stage
        ensures serving { spec.is_serving result ≡ true }
        ensures at { serving.IsFree self.now.talk → serving.IsAt result self.now.talk }
    {
        if self.service.stop.is_some() {
            Stage::Peeking
        } else {
            Stage::Accepting
        }
    }

    /// The next connection is taken, if there is to be one more.
    pub(crate) fn go_on(&mut self) -> Result<(), AllocError>
        ensures plain { OnOk result (spec.due self.new ≡ self.new.stage) }
        ensures goes { OnOk result (spec.Continues self.old self.new) }
        ensures talk { self.new.talk ≡ self.old.talk }
        ensures broken { OnOk result (self.new.core.broken ≡ self.old.core.broken) }
        ensures stands { OnOk result (self.old.talk.end.server.on ≡ false
            → spec.Stands self.new) }
    {
        self.is_told = false;
        if self.number >= u64::from(self.service.connections) {
            return self.close();
        }
        self.stage = self.await_next();
        Ok(())
    }

    #[tactic(auto, using(crate::proofs::Served::end_stays, crate::proofs::Breaking::quiet_breaks))]
    pub(crate) fn take_next(&mut self, answer: Answer<'_>) -> Result<(), AllocError>
        requires { spec.is_taking self.old.stage ≡ true }
        ensures goes { OnOk result (spec.Continues self.old self.new) }
        ensures served { spec.Brings false self.old (the_reply answer.entry) self.new }
        ensures stays { OnOk result (spec.StaysOn self.old (the_reply answer.entry) self.new) }
        ensures breaks { OnOk result (spec.Breaks self.old (the_reply answer.entry) self.new) }
        ensures stands { OnOk result (spec.Stands self.old → spec.Stands self.new) }
    {
        match (self.stage, answer) {
            (Stage::Peeking, Answer::Found) => return self.close(),
            (Stage::Peeking, _) => self.stage = Stage::Accepting,
            (Stage::Pausing, _) => self.stage = self.await_next(),
            _ => return self.accepted(answer),
        }
        Ok(())
    }

    /// A connection may have come.
    #[tactic(auto, using(crate::proofs::Served::end_stays, crate::proofs::Served::on_stays))]
    fn accepted(&mut self, answer: Answer<'_>) -> Result<(), AllocError>
        requires { self.old.stage ≡ Stage.Accepting }
        ensures goes { OnOk result (spec.Continues self.old self.new) }
        ensures served { spec.Brings false self.old (the_reply answer.entry) self.new }
        ensures stays { OnOk result (spec.StaysOn self.old (the_reply answer.entry) self.new) }
        ensures breaks { OnOk result (spec.Breaks self.old (the_reply answer.entry) self.new) }
        ensures stands { OnOk result (spec.Stands self.old → spec.Stands self.new) }
    {
        match answer {
            Answer::Done => self.taken(),
            _ => self.untaken(answer),
        }
    }

    /// No connection has come yet, or one cannot be taken: that is said once.
    fn untaken(&mut self, answer: Answer<'_>) -> Result<(), AllocError>
        requires { self.old.stage ≡ Stage.Accepting }
        ensures goes { OnOk result (spec.Continues self.old self.new) }
        ensures talk { self.new.talk ≡ self.old.talk }
        ensures broken { OnOk result (self.new.core.broken ≡ self.old.core.broken) }
        ensures stands { OnOk result (spec.Stands self.old → spec.Stands self.new) }
    {
        match answer {
            Answer::Nothing => self.stage = Stage::Pausing,
            Answer::Short => return Err(AllocError),
            Answer::Failed(Cause::Interrupted) => self.stage = self.await_next(),
            _ if self.is_told => self.stage = Stage::Pausing,
            _ => {
                self.is_told = true;
                let message = String::from_str(self.alloc, UNTAKEN)?;
                self.say(message, Stage::Pausing);
            }
        }
        Ok(())
    }

    /// A connection is taken: the server comes to it.
    fn taken(&mut self) -> Result<(), AllocError>
        requires { self.old.stage ≡ Stage.Accepting }
        ensures goes { OnOk result (spec.Continues self.old self.new) }
        ensures served { spec.Brings false self.old Done self.new }
        ensures stays { OnOk result (self.old.talk.end.server.on ≡ true
            → self.new.talk.end.server.on ≡ true) }
        ensures breaks { OnOk result (spec.Breaks self.old Done self.new) }
        ensures stands { OnOk result (spec.Stands self.old → spec.Stands self.new) }
    {
        self.number = self.number.saturating_add(1);
        let number = self.number;
        self.wait = Wait::new(self.wait.limit);
        self.lines.begin(number);
        self.out.clear();
        if let Err(fault) = self.server.accept(number) {
            self.break_off(Break::Fault(PumpFault::Core(fault)));
            self.stage = Stage::Leaving;
            return Ok(());
        }
        let next = self.await_bytes();
        if self.service.progress {
            let message = format!(in self.alloc; "connection {number} taken\n")?;
            self.say(message, next);
        } else {
            self.stage = next;
        }
        Ok(())
    }

    /// A connection was broken off. The first cause is kept.
    pub(crate) fn break_off(&mut self, why: Break)
        ensures new { self.new
            ≡ record self.old { core = record (self.old.core) { broken = true } } }
        ensures keeps { spec.Keeps self.old self.new }
    {
        if self.broken.is_none() {
            self.broken = Some(why);
        }
    }
}
