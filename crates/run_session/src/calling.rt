// Before the connection: the log is opened, and the server is called.

ghost use Rattle.std.specs.Prelude.{◌≡◌, OnOk, None, true};
ghost use Rattle.effects.specs.Effects.{the_reply};
ghost use Rattle.run_session.specs.Records as spec;

use crate::sessions::LOOK_MS;
use crate::{Session, Stage};
use effects::{Answer, Cause};
use order_parts::RunEnding;
use session_telling::{cause_of, unwritten_line};
use std::alloc::AllocError;

/// The exit status of a run that is not Done though nothing has failed, as one that its stop file has kept from beginning.
pub(crate) const NOT_DONE: u8 = 3;

impl Session {
    pub(crate) fn after_log(&self) -> Stage
        ensures plain { spec.wants result ≡ None }
        ensures paced { spec.pace result ≡ spec.Apart }
    {
        if self.run.wait.is_some() {
            Stage::Beginning
        } else {
            self.before_call()
        }
    }

    /// What comes before the server is called.
    fn before_call(&self) -> Stage
        ensures plain { spec.wants result ≡ None }
        ensures paced { spec.pace result ≡ spec.Apart }
    {
        if self.run.stop.is_some() {
            Stage::Peeking
        } else {
            Stage::Connecting
        }
    }

    /// The log cannot be written, and is left alone: that is to be shown.
    pub(crate) fn lose_log(&mut self, answer: Answer<'_>) -> Result<(), AllocError>
        ensures { self.new ≡ self.old }
    {
        self.is_logged = false;
        if !self.run.trace {
            self.lines.stop();
        }
        let name = self.run.log.as_deref().unwrap_or("");
        let message = unwritten_line(self.alloc, name, answer)?;
        self.shown.push_str(message.as_str())
    }

    /// The stop file is there: nothing was begun.
    fn not_begun(&mut self) -> Result<(), AllocError>
        ensures ran { spec.Keeps self.old self.new }
        ensures book { self.new.book ≡ self.old.book }
        ensures unbegun { OnOk result (self.new.unbegun ≡ true) }
        ensures due { OnOk result (spec.IsDue self.new) }
        ensures followed { OnOk result (spec.FollowsApart self.old self.new) }
    {
        self.early = Some(RunEnding::NotBegun);
        self.stage = Stage::Leaving;
        Ok(())
    }

    /// The server was not reached, for the cause that is known last.
    fn uncalled(&mut self) -> Result<(), AllocError>
        ensures quiet { spec.IsQuiet self.old self.new }
        ensures due { OnOk result (spec.IsDue self.new) }
        ensures followed { OnOk result (spec.FollowsApart self.old self.new) }
    {
        self.stage = Stage::Leaving;
        Ok(())
    }

    /// An attempt has failed.
    fn miss(&mut self, cause: Cause) -> Result<(), AllocError>
        ensures quiet { spec.IsQuiet self.old self.new }
        ensures due { OnOk result (spec.IsDue self.new) }
        ensures followed { OnOk result (spec.FollowsApart self.old self.new) }
    {
        self.missed = cause;
        if self.run.wait.is_some() {
            self.stage = Stage::Elapsing;
            Ok(())
        } else {
            self.uncalled()
        }
    }

    /// Another attempt is made, if there is time for one at this moment.
    fn try_again(&mut self, now: u64) -> Result<(), AllocError>
        ensures quiet { spec.IsQuiet self.old self.new }
        ensures due { OnOk result (spec.IsDue self.new) }
        ensures followed { OnOk result (spec.FollowsApart self.old self.new) }
    {
        let most = u64::from(self.run.wait.unwrap_or(0)) * 1000;
        self.left = most.saturating_sub(now.saturating_sub(self.began));
        if self.left > LOOK_MS {
            self.stage = Stage::Pausing;
            Ok(())
        } else {
            self.uncalled()
        }
    }

    /// The connection is made.
    fn connected(&mut self) -> Result<(), AllocError>
        ensures ran { spec.Keeps self.old self.new }
        ensures book { self.new.book ≡ self.old.book }
        ensures due { OnOk result (spec.IsDue self.new) }
        ensures followed { OnOk result (spec.FollowsApart self.old self.new) }
    {
        let is_limited = self.run.timeout.is_some() || self.run.stop.is_some();
        if is_limited || !self.pauses.is_empty() {
            self.stage = Stage::Limiting;
            Ok(())
        } else {
            self.begin_features()
        }
    }

    /// What comes before the client is on its connection.
    pub(crate) fn call(&mut self, answer: Answer<'_>) -> Result<(), AllocError>
        ensures ran { spec.Keeps self.old self.new }
        ensures book { self.new.book ≡ self.old.book }
        ensures unbegun { OnOk result (spec.is_unbegun self.old.stage
            (the_reply answer.entry) ≡ true → self.new.unbegun ≡ true) }
        ensures due { OnOk result (spec.IsDue self.new) }
        ensures followed { OnOk result (spec.FollowsApart self.old self.new) }
    {
        match (self.stage, answer) {
            (Stage::Logged, Answer::Done) => self.stage = self.after_log(),
            (Stage::Logged, _) => {
                self.lose_log(answer)?;
                self.stage = Stage::Warning;
            }
            (Stage::Warning, _) => {
                self.shown.clear();
                self.stage = self.after_log();
            }
            (Stage::Beginning, Answer::At(now)) => {
                self.began = now;
                self.stage = self.before_call();
            }
            (Stage::Peeking, Answer::Found) => return self.not_begun(),
            (Stage::Peeking, _) => self.stage = Stage::Connecting,
            (Stage::Connecting, Answer::Done) => return self.connected(),
            (Stage::Elapsing, Answer::At(now)) => return self.try_again(now),
            (Stage::Pausing, _) => self.stage = self.before_call(),
            (Stage::Limiting, Answer::Done) => return self.begin_features(),
            (_, Answer::Short) => return Err(AllocError),
            (Stage::Connecting, _) => return self.miss(cause_of(answer)),
            (Stage::Elapsing, _) => return self.uncalled(),
            _ => {
                self.missed = cause_of(answer);
                return self.uncalled();
            }
        }
        Ok(())
    }
}
