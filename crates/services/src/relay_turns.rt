// The turns of a relay.

ghost use Rattle.std.specs.Prelude.{◌≡◌, true, min, length, OnOk};
ghost use Rattle.effects.specs.Effects.{the_reply, Bytes, Done, Took};
ghost use Rattle.watched_ends.specs.Limits.{IsTold, down_of, down_sent};
ghost use Rattle.services.specs.Relays as spec;

use crate::relay_stages::RelayStage as Stage;
use crate::relaying::{Ended, Ends, RelaySession};
use crate::taking::UNTAKEN;
use effects::{Answer, Cause, Peer};
use session_telling::{Side, Wait, cause_of};
use std::alloc::AllocError;
use watched_ends::LimitedRelay;

/// How many seconds a server may be silent once its client has ended what it sends.
const LEFT_SECONDS: u32 = 5;

impl RelaySession {
    #[tactic(auto, using(crate::proofs::Relayed::rest_steps, crate::proofs::Relayed::quiet_stops))]
    pub(crate) fn accept(&mut self, answer: Answer<'_>) -> Result<(), AllocError>
        requires { spec.is_accepting self.old.stage ≡ true }
        ensures { spec.Takes result self.old (the_reply answer.entry) self.new }
    {
        match (self.stage, answer) {
            (Stage::Pausing, _) => self.stage = Stage::Accepting,
            (_, Answer::Done) => return self.taken(),
            (_, Answer::Nothing) => self.stage = Stage::Pausing,
            (_, Answer::Short) => return Err(AllocError),
            (_, Answer::Failed(Cause::Interrupted)) => {}
            _ if self.is_untaken => self.stage = Stage::Pausing,
            _ => {
                self.is_untaken = true;
                let message = String::from_str(self.alloc, UNTAKEN)?;
                self.say(message, Stage::Pausing);
            }
        }
        Ok(())
    }

    /// The server is reached, or not; both ends are waited for together, or cannot be.
    #[tactic(auto, using(crate::proofs::Relayed::stage_steps, crate::proofs::Relayed::turn_steps, crate::proofs::Relayed::turn_fails))]
    pub(crate) fn join(&mut self, answer: Answer<'_>) -> Result<(), AllocError>
        requires { spec.is_joining self.old.stage ≡ true }
        ensures { spec.Takes result self.old (the_reply answer.entry) self.new }
    {
        match (self.stage, answer) {
            (Stage::Connecting, Answer::Done) => {
                self.is_bare = true;
                self.stage = Stage::Joining;
            }
            (Stage::Connecting, _) => self.fail(Ended::Unreached(cause_of(answer))),
            (_, Answer::Done) => self.begin_turn(),
            _ => self.fail(Ended::Broken(cause_of(answer))),
        }
        Ok(())
    }

    /// A client is taken.
    fn taken(&mut self) -> Result<(), AllocError>
        requires { self.old.stage ≡ Stage.Accepting }
        ensures { spec.Takes result self.old Done self.new }
    {
        self.number = self.number.saturating_add(1);
        self.is_untaken = false;
        self.is_bare = false;
        self.lines.begin(self.number);
        self.relay = LimitedRelay::new(self.alloc, self.number);
        self.ends = Ends::new();
        self.wait = Wait::new(self.order.timeout);
        self.ended = Ended::Left;
        self.piece.clear();
        self.begin_recording()?;
        Ok(())
    }

    /// What has come is read, told and sent on, as far as that is possible.
    fn begin_turn(&mut self)
        ensures { spec.Turns self.old self.new }
    {
        self.has_moved = false;
        if self.ends.client || !self.relay.to_server().is_empty() {
            self.after_client();
        } else {
            self.stage = Stage::HearingClient;
        }
    }

    /// What comes after the client was heard.
    fn after_client(&mut self)
        ensures { spec.Turns self.old self.new }
    {
        let is_sent = self.relay.is_all_told() && self.to_client().is_empty();
        if self.ends.server || !is_sent {
            self.after_server();
        } else {
            self.stage = Stage::HearingServer;
        }
    }

    /// What comes after the server was heard: what it told is to be written, or bytes are sent on.
    fn after_server(&mut self)
        ensures { spec.Turns self.old self.new }
    {
        self.stage = if self.relay.due().is_empty() {
            Stage::PassingUp
        } else {
            Stage::Telling
        };
    }

    /// What comes after an end was heard.
    pub(crate) fn after(&mut self, peer: Peer)
        ensures { spec.Turns self.old self.new }
    {
        match peer {
            Peer::Client => self.after_client(),
            Peer::Server => self.after_server(),
        }
    }

    #[tactic(auto, using(crate::proofs::Relayed::hears_quiet, crate::proofs::Relayed::ended_steps, crate::proofs::Relayed::turn_steps, crate::proofs::Relayed::turn_fails, crate::proofs::Relayed::quiet_stops))]
    pub(crate) fn hear(&mut self, peer: Peer, answer: Answer<'_>) -> Result<(), AllocError>
        requires { self.old.stage ≡ spec.hearing peer }
        ensures { spec.Takes result self.old (the_reply answer.entry) self.new }
    {
        match answer {
            Answer::Bytes(piece) => return self.came(peer, piece),
            Answer::End => self.ended_by(peer),
            Answer::Nothing | Answer::Failed(Cause::Interrupted) => self.after(peer),
            Answer::Short => return Err(AllocError),
            _ => self.fail(Ended::Broken(cause_of(answer))),
        }
        Ok(())
    }

    /// An end sends nothing more.
    fn ended_by(&mut self, peer: Peer)
        ensures { spec.Turns (spec.with_end peer self.old) self.new }
    {
        self.has_moved = true;
        match peer {
            Peer::Client => {
                self.ends.client = true;
                self.after_client();
            }
            Peer::Server => {
                self.ends.server = true;
                self.after_server();
            }
        }
    }

    /// The relay is given bytes of an end, and reads what it can.
    fn give(&mut self, peer: Peer, piece: &[u8]) -> Result<(), AllocError>
        ensures given { OnOk result (spec.IsGiven self.old.talk peer piece.now self.new.talk) }
        ensures same { self.new ≡ record self.old {
          talk = record (self.old.talk) { relay = self.new.talk.relay };
        } }
    {
        match peer {
            Peer::Client => self.relay.from_client(piece)?,
            Peer::Server => self.relay.from_server(piece)?,
        }
        self.relay.read()?;
        if !self.is_told {
            self.relay.clear_due();
        }
        Ok(())
    }

    /// Bytes that have come are to be shown and kept.
    fn note(&mut self, peer: Peer, piece: &[u8]) -> Result<(), AllocError>
        ensures { self.new ≡ self.old }
    {
        self.has_moved = true;
        let side = match peer {
            Peer::Client => Side::Client,
            Peer::Server => Side::Server,
        };
        if side == Side::Client && piece.contains(&b'\n') {
            self.is_bare = false;
        }
        self.lines.went(side, piece)?;
        self.from = peer;
        if self.recording.is_some() {
            self.piece.extend_from_slice(piece)?;
        }
        Ok(())
    }

    /// Bytes have come from an end.
    #[tactic(auto, using(crate::proofs::Relayed::came_stops))]
    fn came(&mut self, peer: Peer, piece: &[u8]) -> Result<(), AllocError>
        requires { self.old.stage ≡ spec.hearing peer }
        ensures { spec.Takes result self.old (Bytes piece.now) self.new }
    {
        self.note(peer, piece)?;
        self.give(peer, piece)?;
        self.show();
        Ok(())
    }

    /// What the server has told was written, or cannot be.
    #[tactic(auto, using(crate::proofs::Relayed::untold_steps, crate::proofs::Relayed::untold_stops))]
    pub(crate) fn told(&mut self, answer: Answer<'_>) -> Result<(), AllocError>
        requires { self.old.stage ≡ Stage.Telling }
        ensures { spec.Takes result self.old (the_reply answer.entry) self.new }
    {
        self.relay.clear_due();
        if let Answer::Done = answer {
            self.stage = Stage::PassingUp;
            return Ok(());
        }
        self.lose_told(answer, Stage::PassingUp)
    }

    /// An end took some bytes, or none.
    #[tactic(auto, using(crate::proofs::Relayed::turn_steps, crate::proofs::Relayed::turn_fails))]
    pub(crate) fn pass(&mut self, answer: Answer<'_>) -> Result<(), AllocError>
        requires { spec.is_passing self.old.stage ≡ true }
        ensures { spec.Takes result self.old (the_reply answer.entry) self.new }
    {
        match (self.stage, answer) {
            (Stage::PassingUp, Answer::Took(count)) => self.passed_up(count),
            (Stage::PassingUp, Answer::Nothing) => self.after_up(),
            (Stage::PassingDown, Answer::Took(count)) => self.passed_down(count),
            (Stage::PassingDown, Answer::Nothing) => self.after_down(),
            (Stage::PassingUp, Answer::Failed(Cause::Interrupted)) => self.after_up(),
            (Stage::PassingDown, Answer::Failed(Cause::Interrupted)) => self.after_down(),
            _ => self.fail(Ended::Broken(cause_of(answer))),
        }
        Ok(())
    }

    /// The server took that many bytes.
    fn passed_up(&mut self, count: usize)
        requires { self.old.stage ≡ Stage.PassingUp }
        ensures { spec.Steps self.old (Took count) self.new }
    {
        let count = count.min(self.relay.to_server().len());
        self.relay.sent_to_server(count);
        self.has_moved = self.has_moved || count > 0;
        self.after_up();
    }

    fn after_up(&mut self)
        ensures { spec.Turns self.old self.new }
    {
        if self.ends.client && !self.ends.up && self.relay.to_server().is_empty() {
            self.ends.up = true;
            self.stage = Stage::ClosingUp;
        } else {
            self.down();
        }
    }

    /// What came from the server is sent on, once all that it told was written.
    fn down(&mut self)
        ensures { spec.Turns self.old self.new }
    {
        if self.to_client().is_empty() {
            self.after_down();
        } else {
            self.stage = Stage::PassingDown;
        }
    }

    /// The client took that many bytes.
    fn passed_down(&mut self, count: usize)
        requires { self.old.stage ≡ Stage.PassingDown }
        ensures { spec.Steps self.old (Took count) self.new }
    {
        self.sent_down(count);
        self.after_down();
    }

    fn sent_down(&mut self, count: usize)
        ensures same { self.new ≡ record self.old {
          talk = record (self.old.talk) { relay = self.new.talk.relay };
        } }
        ensures sent { IsTold self.old.talk.relay → self.new.talk.relay
            ≡ down_sent (min count (length (down_of self.old.talk.relay))) self.old.talk.relay }
    {
        if self.relay.is_all_told() {
            let count = count.min(self.relay.to_client().len());
            self.relay.sent_to_client(count);
            self.has_moved = self.has_moved || count > 0;
        }
    }

    fn after_down(&mut self)
        ensures { spec.Turns self.old self.new }
    {
        let is_sent = self.relay.is_all_told() && self.to_client().is_empty();
        if self.ends.server && !self.ends.down && is_sent {
            self.ends.down = true;
            self.stage = Stage::ClosingDown;
        } else {
            self.end_turn();
        }
    }

    /// Whether nothing is left: all that came was sent on, and what the server told was written.
    #[tactic(auto, using(crate::proofs::Relayed::told_due))]
    fn has_passed(&self) -> bool
        ensures { result ≡ true → spec.IsPassed self.now.talk }
    {
        self.relay.to_server().is_empty() && self.relay.is_all_told() && self.to_client().is_empty()
    }

    /// Likewise, but for what the client is to get, which has ended what it sends.
    fn has_ended(&self) -> bool
        ensures { result ≡ true → spec.IsPassed self.now.talk }
    {
        self.ends.client
            && self.ends.up
            && self.relay.to_server().is_empty()
            && self.relay.due().is_empty()
    }

    /// The next turn begins, at once if anything has moved.
    fn end_turn(&mut self)
        ensures { spec.Turns self.old self.new }
    {
        if self.ends.up && self.ends.down && self.has_passed() {
            self.finish();
        } else if self.has_moved {
            self.wait = Wait::new(self.order.timeout);
            self.begin_turn();
        } else if self.limit().is_some() {
            self.stage = Stage::Timing;
        } else {
            self.stage = Stage::Waiting;
        }
    }

    /// How many seconds both ends may be silent: not many once the client has ended what it sends.
    pub(crate) fn limit(&self) -> Option<u32> {
        if !self.ends.up {
            return self.order.timeout;
        }
        match self.order.timeout {
            Some(seconds) => Some(seconds.min(LEFT_SECONDS)),
            None => Some(LEFT_SECONDS),
        }
    }

    /// An end was closed, the time is known, or something may have moved.
    #[tactic(auto, using(crate::proofs::Relayed::stage_steps, crate::proofs::Relayed::turn_steps, crate::proofs::Relayed::turn_fails))]
    pub(crate) fn wait_on(&mut self, answer: Answer<'_>) -> Result<(), AllocError>
        requires { spec.is_waiting self.old.stage ≡ true }
        ensures { spec.Takes result self.old (the_reply answer.entry) self.new }
    {
        match (self.stage, answer) {
            (Stage::ClosingUp, _) => self.down(),
            (Stage::ClosingDown, _) => self.end_turn(),
            (Stage::Timing, Answer::At(now)) => {
                self.wait.limit = self.limit();
                if self.wait.lapse(now).is_none() {
                    self.stage = Stage::Waiting;
                } else if self.has_ended() {
                    self.finish();
                } else {
                    self.fail(Ended::Silent);
                }
            }
            (Stage::Timing, _) => self.stage = Stage::Waiting,
            (_, Answer::Failed(Cause::Interrupted)) => self.begin_turn(),
            (_, Answer::Failed(why)) => self.fail(Ended::Broken(why)),
            _ => self.begin_turn(),
        }
        Ok(())
    }
}
