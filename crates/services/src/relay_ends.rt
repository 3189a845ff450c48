// The end of a relayed connection.

ghost use Rattle.std.specs.Prelude.{◌≡◌, ◌⊎◌, true};
ghost use Rattle.effects.specs.Effects.{the_reply, Done, Reply};
ghost use Rattle.services.specs.Relays as spec;

use crate::recordings::Made;
use crate::relay_stages::RelayStage as Stage;
use crate::relaying::{Ended, RelaySession};
use effects::{Answer, Cause};
use order_parts::{refused_call, unknown_host};
use session_telling::why_unconnected;
use std::alloc::AllocError;

impl RelaySession {
    /// The connection is no longer relayed: what is kept of it is forced to the device, and it is left.
    pub(crate) fn finish(&mut self)
        requires { self.old.end.status ≡ 0 → spec.IsPassed self.old.talk }
        ensures turns { spec.Turns self.old self.new }
        ensures ending { spec.phase self.new ≡ spec.Ending }
    {
        self.stage = if self.is_told {
            Stage::Forcing
        } else {
            self.after_forcing()
        };
    }

    /// Likewise if it could not be relayed to its end.
    pub(crate) fn fail(&mut self, ended: Ended)
        ensures turns { spec.Turns (spec.failing self.old) self.new }
        ensures ending { spec.phase self.new ≡ spec.Ending }
    {
        self.ended = ended;
        self.status = 1;
        self.finish();
    }

    /// What comes after the told file was forced.
    fn after_forcing(&mut self) -> Stage
        ensures next { (result ≡ Stage.Settling) ⊎ (result ≡ Stage.Leaving) }
        ensures same { self.new ≡ record self.old { files = self.new.files } }
    {
        match &mut self.recording {
            Some(recording) => {
                recording.made = Made::Nothing;
                Stage::Settling
            }
            None => Stage::Leaving,
        }
    }

    #[tactic(auto, using(crate::proofs::Relayed::ending_steps, crate::proofs::Relayed::forced_steps, crate::proofs::Relayed::forced_stops))]
    pub(crate) fn end_on(&mut self, answer: Answer<'_>) -> Result<(), AllocError>
        requires { spec.is_ending self.old.stage ≡ true }
        ensures { spec.Takes result self.old (the_reply answer.entry) self.new }
    {
        match (self.stage, answer) {
            (Stage::Forcing, Answer::Done) => self.stage = self.after_forcing(),
            (Stage::Forcing, _) => {
                let next = self.after_forcing();
                return self.lose_told(answer, next);
            }
            (Stage::Settling, Answer::Done) => self.settled(),
            (Stage::Settling, _) => return self.lose_settling(answer),
            _ => return self.left(),
        }
        Ok(())
    }

    /// A file of the recording is on the device.
    #[tactic(auto, using(crate::proofs::Relayed::ending_steps))]
    fn settled(&mut self)
        requires { self.old.stage ≡ Stage.Settling }
        ensures { spec.Steps self.old Done self.new }
    {
        if let Some(recording) = &mut self.recording {
            recording.made = recording.made.more();
            if recording.made != Made::All {
                return;
            }
        }
        self.stage = Stage::Leaving;
    }

    /// A file of the recording could not be forced to the device.
    #[tactic(auto, using(crate::proofs::Relayed::ending_fails, crate::proofs::Relayed::quiet_stops))]
    fn lose_settling(&mut self, answer: Answer<'_>) -> Result<(), AllocError>
        requires { self.old.stage ≡ Stage.Settling }
        ensures { (reply : Reply) → spec.Takes result self.old reply self.new }
    {
        self.status = 1;
        let message = self.unmade(answer)?;
        self.recording = None;
        self.say(message, Stage::Leaving);
        Ok(())
    }

    /// Why no server was reached, as a line.
    fn unreached(&self, why: Cause) -> Result<String, AllocError> {
        let host = self.order.host.as_str();
        match why {
            Cause::UnknownHost => unknown_host(self.alloc, host),
            Cause::Refused => refused_call(self.alloc, host, self.order.port),
            _ => String::from_str(self.alloc, why_unconnected(why)),
        }
    }

    /// The message about a connection that did not end as it should.
    fn fault(&self) -> Result<String, AllocError> {
        let line = match self.ended {
            Ended::Left => return Ok(String::new(self.alloc)),
            Ended::Memory => return String::from_str(self.alloc, "dme: out of memory\n"),
            Ended::Unreached(why) => self.unreached(why)?,
            Ended::Broken(why) => String::from_str(self.alloc, why_unconnected(why))?,
            Ended::Silent => {
                let seconds = self.order.timeout.unwrap_or(0);
                format!(in self.alloc; "nothing came for {seconds} s\n")?
            }
        };
        format!(in self.alloc; "dme: connection failed\n{line}")
    }

    /// What comes after a connection.
    fn after_leaving(&self) -> Stage
        ensures { (result ≡ Stage.Accepting)
            ⊎ ((result ≡ Stage.Exiting) × (self.now.end.left ≡ 0)) }
    {
        if self.left == 0 {
            Stage::Exiting
        } else {
            Stage::Accepting
        }
    }

    /// The connection was left: what broke it off is said, and whether it counts.
    #[tactic(auto, using(crate::proofs::Relayed::left_steps, crate::proofs::Relayed::quiet_stops))]
    fn left(&mut self) -> Result<(), AllocError>
        requires { self.old.stage ≡ Stage.Leaving }
        ensures { (reply : Reply) → spec.Takes result self.old reply self.new }
    {
        let fault = self.fault()?;
        let number = self.number;
        let message = if self.is_bare {
            format!(in self.alloc; "{fault}dme: connection {number} sent no whole line\n")?
        } else {
            self.left = self.left.saturating_sub(1);
            fault
        };
        let next = self.after_leaving();
        if message.is_empty() {
            self.stage = next;
        } else {
            self.say(message, next);
        }
        Ok(())
    }
}
