// The files of a relay.

ghost use Rattle.std.specs.Prelude.{◌≡◌, ◌⊎◌, suc, true, OnOk, OnErr};
ghost use Rattle.effects.specs.Effects.{the_reply, Reply};
ghost use Rattle.services.specs.Ends as ends;
ghost use Rattle.services.specs.Files.{count_of};
ghost use Rattle.services.specs.Relays as spec;

use crate::recordings::{Made, hold_recording, recording_in, slot_after};
use crate::relay_stages::RelayStage as Stage;
use crate::relaying::RelaySession;
use effects::{Answer, Peer, Slot};
use session_telling::{cause_of, stamped, unwritten_line, why_unconnected};
use std::alloc::AllocError;
use watched_ends::add_piece;
use witness::Side;

/// An end, as an order of recordings has it.
fn side_of(peer: Peer) -> Side {
    match peer {
        Peer::Client => Side::Client,
        Peer::Server => Side::Server,
    }
}

impl RelaySession {
    /// A message ends the relay before its first connection, and all files are as they were.
    fn refuse(&mut self, message: String)
        ensures { self.new ≡ spec.refusing self.old }
    {
        self.said = message;
        self.status = 1;
        self.stage = Stage::Discarding;
    }

    /// The told file cannot be written.
    fn refuse_told(&mut self, answer: Answer<'_>) -> Result<(), AllocError>
        ensures ok { OnOk result (self.new ≡ spec.refusing self.old) }
        ensures err { OnErr result (self.new ≡ self.old) }
    {
        let message = unwritten_line(self.alloc, self.names.name.as_str(), answer)?;
        self.refuse(message);
        Ok(())
    }

    /// What comes once the files of a recording are made.
    fn after_recording(&mut self)
        ensures { spec.Opens self.old self.new }
    {
        self.stage = match (self.number, self.has_more) {
            (0, true) => Stage::SettingAside,
            (0, false) => Stage::Beginning,
            _ => Stage::Connecting,
        };
    }

    #[tactic(auto, using(crate::proofs::Relayed::made_steps, crate::proofs::Relayed::refused_steps, crate::proofs::Relayed::opens_steps, crate::proofs::Relayed::opening_steps, crate::proofs::Relayed::quiet_stops))]
    pub(crate) fn prepare(&mut self, answer: Answer<'_>) -> Result<(), AllocError>
        requires { spec.is_preparing self.old.stage ≡ true }
        ensures { spec.Takes result self.old (the_reply answer.entry) self.new }
    {
        match (self.stage, answer) {
            (Stage::Making, Answer::Done) => self.stage = Stage::Listening,
            (Stage::Making, Answer::Found) => {
                self.has_more = true;
                self.stage = Stage::Listening;
            }
            (Stage::Making, Answer::Short) => return Err(AllocError),
            (Stage::Making, _) => self.refuse_told(answer)?,
            (Stage::Listening, Answer::Done) if self.recording.is_some() => {
                self.stage = Stage::Listing;
            }
            (Stage::Listening, Answer::Done) => self.after_recording(),
            (Stage::Listening, _) => {
                let why = why_unconnected(cause_of(answer));
                let message = format!(in self.alloc; "dme: connection failed\n{why}")?;
                self.refuse(message);
            }
            (Stage::Listing, Answer::Bytes(names)) if hold_recording(names) => {
                let folder = self.order.folder.as_deref().unwrap_or("");
                let message = format!(in self.alloc;
                    "dme: cannot write {folder}\nit holds recordings already\n"
                )?;
                self.refuse(message);
            }
            (Stage::Listing, Answer::Short) => return Err(AllocError),
            _ => self.stage = Stage::Creating,
        }
        Ok(())
    }

    /// The told file is as it was: the recording is, too, and then the relay ends.
    #[tactic(auto, using(crate::proofs::Relayed::closing_steps))]
    pub(crate) fn discarded(&mut self)
        requires { self.old.stage ≡ Stage.Discarding }
        ensures steps { (reply : Reply) → spec.Steps self.old reply self.new }
        ensures nears { ends.IsWithin (suc (count_of self.old.files)) (ends.relay_ahead self.new) }
    {
        self.next = Stage::Exiting;
        self.stage = match &self.recording {
            Some(recording) if recording.made.is_any() => Stage::Removing,
            _ => self.last_words(),
        };
    }

    /// A file of a recording is removed.
    #[tactic(auto, using(crate::proofs::Relayed::closing_steps, crate::proofs::Relayed::due_steps))]
    pub(crate) fn removed(&mut self)
        requires { self.old.stage ≡ Stage.Removing }
        ensures steps { (reply : Reply) → spec.Steps self.old reply self.new }
        ensures nears { ends.Nears (ends.relay_ahead self.old) (ends.relay_ahead self.new) }
    {
        if let Some(recording) = &mut self.recording {
            recording.made = recording.made.fewer();
            if recording.made.is_any() {
                return;
            }
        }
        self.recording = None;
        self.stage = self.last_words();
    }

    /// The last message of a relay that has not begun; or that files of a recording could not be made.
    fn last_words(&self) -> Stage
        ensures { (result ≡ Stage.Saying)
            ⊎ ((result ≡ Stage.Parting) × (self.now.end.status ≡ 4)) }
    {
        if self.status == 4 {
            Stage::Parting
        } else {
            Stage::Saying
        }
    }

    #[tactic(auto, using(crate::proofs::Relayed::refused_steps, crate::proofs::Relayed::opening_steps, crate::proofs::Relayed::begins_steps, crate::proofs::Relayed::rest_steps, crate::proofs::Relayed::quiet_stops))]
    pub(crate) fn begin(&mut self, answer: Answer<'_>) -> Result<(), AllocError>
        requires { spec.is_beginning self.old.stage ≡ true }
        ensures { spec.Takes result self.old (the_reply answer.entry) self.new }
    {
        match (self.stage, answer) {
            (Stage::SettingAside, Answer::Done) => {
                let (name, old) = (self.names.name.as_str(), self.names.old.as_str());
                let message = format!(in self.alloc; "dme: what was in {name} stays as {old}\n")?;
                self.say(message, Stage::Beginning);
            }
            (Stage::SettingAside, _) => {
                let message = unwritten_line(self.alloc, self.names.old.as_str(), answer)?;
                self.refuse(message);
            }
            (Stage::Beginning, Answer::Done) => {
                self.stage = if self.is_logged {
                    Stage::Logged
                } else {
                    Stage::Accepting
                };
            }
            (Stage::Beginning, _) => self.refuse_told(answer)?,
            (_, Answer::Done) => self.stage = Stage::Accepting,
            _ => {
                let message = self.lose_log(answer)?;
                self.say(message, Stage::Accepting);
            }
        }
        Ok(())
    }

    /// The log cannot be written, and is left alone.
    fn lose_log(&mut self, answer: Answer<'_>) -> Result<String, AllocError>
        ensures { self.new ≡ self.old }
    {
        self.is_logged = false;
        if !self.order.trace {
            self.lines.stop();
        }
        let name = self.order.log.as_deref().unwrap_or("");
        unwritten_line(self.alloc, name, answer)
    }

    /// A file of the recording of the next connection is made, or those that were are removed.
    #[tactic(auto, using(crate::proofs::Relayed::opening_steps, crate::proofs::Relayed::opens_steps, crate::proofs::Relayed::quiet_stops))]
    pub(crate) fn record(&mut self, answer: Answer<'_>) -> Result<(), AllocError>
        requires { spec.is_creating self.old.stage ≡ true }
        ensures { spec.Takes result self.old (the_reply answer.entry) self.new }
    {
        let Answer::Done = answer else {
            return self.lose_recording(answer);
        };
        if let Stage::Creating = self.stage {
            if let Some(recording) = &mut self.recording {
                recording.made = recording.made.more();
                if recording.made == Made::All {
                    self.stage = Stage::Heading;
                }
                return Ok(());
            }
        }
        self.after_recording();
        Ok(())
    }

    /// A file of a recording cannot be made: those that were are removed.
    #[tactic(auto, using(crate::proofs::Relayed::refused_steps, crate::proofs::Relayed::opening_fails, crate::proofs::Relayed::quiet_stops))]
    fn lose_recording(&mut self, answer: Answer<'_>) -> Result<(), AllocError>
        requires { spec.is_creating self.old.stage ≡ true }
        ensures { (reply : Reply) → spec.Takes result self.old reply self.new }
    {
        let message = self.unmade(answer)?;
        if self.number == 0 {
            self.refuse(message);
            return Ok(());
        }
        self.status = 1;
        self.say(message, Stage::Connecting);
        match &self.recording {
            Some(recording) if recording.made.is_any() => self.stage = Stage::Removing,
            _ => self.recording = None,
        }
        Ok(())
    }

    /// A recording of the connection of this number is begun, if a folder is named.
    pub(crate) fn begin_recording(&mut self) -> Result<(), AllocError>
        ensures ok { OnOk result (spec.Turns self.old self.new) }
        ensures err { OnErr result (self.new ≡ self.old) }
    {
        if self.number == 1 {
            self.stage = Stage::Connecting;
            return Ok(());
        }
        let folder = self.order.folder.as_deref();
        self.recording = recording_in(self.alloc, folder, self.number)?;
        self.stage = if self.recording.is_some() {
            Stage::Creating
        } else {
            Stage::Connecting
        };
        Ok(())
    }

    /// That the next file of the recording cannot be written.
    pub(crate) fn unmade(&self, answer: Answer<'_>) -> Result<String, AllocError> {
        match &self.recording {
            Some(recording) => self.unwritten(slot_after(recording.made), answer),
            None => Ok(String::new(self.alloc)),
        }
    }

    /// Lines that have ended are shown, and then the bytes that came are kept.
    pub(crate) fn show(&mut self)
        ensures { spec.Turns self.old self.new }
    {
        self.shown = self.lines.take();
        if self.shown.is_empty() {
            self.after_showing();
        } else if self.order.trace {
            self.stage = Stage::Tracing;
        } else {
            self.stage = Stage::Stamping;
        }
    }

    /// What comes after the lines were shown.
    fn after_showing(&mut self)
        ensures { spec.Turns self.old self.new }
    {
        if self.piece.is_empty() {
            self.after(self.from);
        } else {
            self.stage = Stage::Saving;
        }
    }

    #[tactic(auto, using(crate::proofs::Relayed::stage_steps, crate::proofs::Relayed::turn_steps, crate::proofs::Relayed::quiet_stops))]
    pub(crate) fn show_on(&mut self, answer: Answer<'_>) -> Result<(), AllocError>
        requires { spec.is_showing self.old.stage ≡ true }
        ensures { spec.Takes result self.old (the_reply answer.entry) self.new }
    {
        match (self.stage, answer) {
            (Stage::Tracing, _) if self.is_logged => self.stage = Stage::Stamping,
            (Stage::Stamping, Answer::Bytes(time)) => {
                self.text = stamped(self.alloc, time, self.shown.as_str())?;
                self.stage = Stage::Logging;
            }
            (Stage::Tracing, _) | (Stage::Logging, Answer::Done) => self.after_showing(),
            _ => {
                let message = self.lose_log(answer)?;
                self.after_showing();
                self.say(message, self.stage);
            }
        }
        Ok(())
    }

    /// The bytes that came are kept, and which end they came from.
    #[tactic(auto, using(crate::proofs::Relayed::stage_steps, crate::proofs::Relayed::turn_steps, crate::proofs::Relayed::quiet_stops))]
    pub(crate) fn save_on(&mut self, answer: Answer<'_>) -> Result<(), AllocError>
        requires { spec.is_saving self.old.stage ≡ true }
        ensures { spec.Takes result self.old (the_reply answer.entry) self.new }
    {
        match (self.stage, answer) {
            (Stage::Saving, Answer::Done) => {
                self.text.clear();
                let count = self.piece.len() as u64;
                add_piece(&mut self.text, side_of(self.from), count)?;
                self.stage = Stage::Noting;
            }
            (Stage::Noting, Answer::Done) => {
                self.piece.clear();
                self.after(self.from);
            }
            _ => return self.lose_bytes(answer),
        }
        Ok(())
    }

    /// That a file of the recording cannot be written.
    pub(crate) fn unwritten(&self, slot: Slot, answer: Answer<'_>) -> Result<String, AllocError> {
        match &self.recording {
            Some(recording) => unwritten_line(self.alloc, recording.name(slot), answer),
            None => Ok(String::new(self.alloc)),
        }
    }

    /// The bytes cannot be kept: that is said, and no more of this connection are.
    #[tactic(auto, using(crate::proofs::Relayed::stage_fails, crate::proofs::Relayed::quiet_stops))]
    fn lose_bytes(&mut self, answer: Answer<'_>) -> Result<(), AllocError>
        requires { spec.is_saving self.old.stage ≡ true }
        ensures { (reply : Reply) → spec.Takes result self.old reply self.new }
    {
        self.piece.clear();
        self.status = 1;
        let slot = match (self.stage, self.from) {
            (Stage::Noting, _) => Slot::Order,
            (_, Peer::Client) => Slot::Up,
            (_, Peer::Server) => Slot::Down,
        };
        let message = self.unwritten(slot, answer)?;
        self.recording = None;
        self.after(self.from);
        self.say(message, self.stage);
        Ok(())
    }

    /// The told file cannot be kept: that is said, and it is not written any more.
    pub(crate) fn lose_told(&mut self, answer: Answer<'_>, next: Stage) -> Result<(), AllocError>
        ensures ok { OnOk result (self.new ≡ spec.saying next (spec.untold self.old)) }
        ensures err { OnErr result (self.new ≡ spec.untold self.old) }
    {
        self.is_told = false;
        self.status = 1;
        let message = unwritten_line(self.alloc, self.names.name.as_str(), answer)?;
        self.say(message, next);
        Ok(())
    }
}
