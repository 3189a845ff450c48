// What a run says last, and its exit status.

ghost use Rattle.std.specs.Prelude.{◌≡◌, IfOk, OnOk, OnErr, option_map};
ghost use Rattle.link_world.specs.declared.connections.links.LoopFault.{LoopFault};
ghost use Rattle.run_session.specs.Ends as ends;
ghost use Rattle.run_session.specs.Records as spec;
ghost use Rattle.run_session.specs.Statuses as statuses;

use crate::calling::NOT_DONE;
use crate::runs::{Kept, Said, has_failed};
use crate::{Session, Stage};
use client_core::State;
use effects::{Answer, Cause};
use link_world::LoopFault;
use order_parts::{ConnectionEnd, Counts, RunEnding, last_line, refused_call, unknown_host};
use session_telling::{lapse_line, unwritten_line, visible, why_unconnected};
use std::alloc::AllocError;

const UNPRINTED: &str = "dme: cannot write -\n";

/// Whether a message says why, with this exit status.
fn is_shown(status: u8) -> bool
    ensures { result ≡ statuses.is_shown status }
{
    !(status == 0 || status == NOT_DONE)
}

/// The first of these comes last.
fn first_last(said: &mut Vec<Said>) -> Result<(), AllocError>
    ensures { OnOk result (said.new.items ≡ statuses.first_last said.old.items) }
{
    if !said.is_empty() {
        let first = said.remove(0);
        said.push(first)?;
    }
    Ok(())
}

impl Session {
    /// How its connection has ended.
    fn connection_end(&self) -> ConnectionEnd
        ensures state { result.state ≡ self.now.pair.end.client.state }
        ensures broken { result.broken
            ≡ option_map (λ why. LoopFault.Client why) self.now.course.broken }
    {
        ConnectionEnd {
            state: self.client.state(),
            broken: self.broken.map(LoopFault::Client),
        }
    }

    /// The exit status of a run that was on its connection.
    fn end_status(&self) -> u8
        ensures { result ≡ statuses.of_end self.now.course self.now.pair.end.client.state }
    {
        if self.lapse.is_some() {
            return 1;
        }
        match self.connection_end().verdict(false) {
            Ok(status) => status,
            Err(fault) => fault.status(),
        }
    }

    /// The exit status by how its connection has ended, or by what has kept it from one.
    fn base(&self) -> u8
        ensures { result ≡ spec.base self.now }
    {
        if self.has_begun {
            self.end_status()
        } else if self.early.is_some() {
            NOT_DONE
        } else {
            1
        }
    }

    /// The exit status, but for what is not done.
    pub(crate) fn status(&self) -> u8
        ensures { result ≡ spec.status_at self.now }
    {
        if self.is_short {
            return 4;
        }
        if has_failed(self.printed) {
            return 1;
        }
        let base = self.base();
        if self.written.lacks_file() && !is_shown(base) {
            1
        } else {
            base
        }
    }

    /// Why the connection was broken off, besides: the server's last line, if that was the cause, or what was not done in time.
    fn cause(&self, ended: &ConnectionEnd) -> Result<String, AllocError> {
        if ended.is_for_a_line() {
            let line = visible(self.alloc, self.last.as_slice())?;
            return format!(in self.alloc; "its last line: {line}\n");
        }
        Ok(String::new(self.alloc))
    }

    /// Why the server was not reached, as a line.
    fn unreached(&self) -> Result<String, AllocError> {
        let host = self.run.host.as_str();
        match self.missed {
            Cause::UnknownHost => unknown_host(self.alloc, host),
            Cause::Refused => refused_call(self.alloc, host, self.run.port),
            cause => String::from_str(self.alloc, why_unconnected(cause)),
        }
    }

    /// How the run on the connection has ended, or why it was not made, as lines.
    fn ended_lines(&self) -> Result<String, AllocError> {
        let line = match (self.lapse, self.has_begun) {
            (Some(lapse), _) => {
                let seconds = self.run.timeout.unwrap_or(0);
                lapse_line(self.alloc, lapse, "server", seconds)?
            }
            (None, false) => self.unreached()?,
            (None, true) => {
                let ended = self.connection_end();
                let cause = self.cause(&ended)?;
                return match ended.verdict(true) {
                    Ok(_) => Ok(cause),
                    Err(fault) => format!(in self.alloc; "{fault}{cause}"),
                };
            }
        };
        format!(in self.alloc; "dme: connection failed\n{line}")
    }

    fn unwritten(&self, kept: Kept, why: Cause) -> Result<String, AllocError> {
        unwritten_line(self.alloc, self.run.name(kept), Answer::Failed(why))
    }

    /// What has failed, as lines.
    fn lines_of(&self, said: Said) -> Result<String, AllocError> {
        match (said, self.unopened) {
            (Said::Unwritten(kept), _) => self.unwritten(kept, self.causes.of(kept)),
            (Said::Unprinted, _) => String::from_str(self.alloc, UNPRINTED),
            (Said::Ended, Some((kept, why))) => self.unwritten(kept, why),
            (Said::Ended, None) => self.ended_lines(),
            (Said::Unbegun, _) => {
                let name = self.run.stop_name();
                format!(in self.alloc; "dme: {name} exists: nothing was begun\n")
            }
        }
    }

    /// What is said last besides what to do next: what has failed, a file that could not be written before the rest, unless nothing else has; if
    /// the report could not be printed, that of the features file is left out.
    fn failures(&self) -> Result<Vec<Said>, AllocError>
        ensures { IfOk result (λ said. said.items ≡ spec.said_at self.now) }
    {
        let mut said = Vec::new(self.alloc);
        if has_failed(self.printed) {
            self.written.name_late(&mut said)?;
            said.push(Said::Unprinted)?;
        } else if is_shown(self.base()) {
            self.written.name_all(&mut said)?;
            said.push(Said::Ended)?;
        } else if !self.has_begun && self.early.is_some() {
            said.push(Said::Unbegun)?;
            self.written.name_all(&mut said)?;
        } else {
            self.written.name_all(&mut said)?;
            first_last(&mut said)?;
        }
        Ok(said)
    }

    /// What has failed is said, and what to do next; and the run ends.
    pub(crate) fn say_last(&mut self) -> Result<(), AllocError>
        requires { spec.HasTried self.old }
        ensures quiet { spec.IsQuiet self.old self.new }
        ensures due { OnOk result (spec.IsDue self.new) }
        ensures followed { OnOk result (spec.FollowsApart self.old self.new) }
        ensures nears { OnOk result (ends.IsWithin 1 self.new) }
        ensures stays { OnErr result (self.new.stage ≡ self.old.stage) }
    {
        let how = match (self.early, self.client.state()) {
            (Some(how), _) => how,
            (None, State::Halted) if self.is_declined => RunEnding::NotConfirmed,
            (None, state) => RunEnding::Left(state, self.seen),
        };
        let counts = Counts {
            kept: self.kept,
            complete: self.client.features().len(),
            asked: self.client.program().features().len(),
        };
        let named = self.failures()?;
        let mut text = String::new(self.alloc);
        for said in named.as_slice() {
            let lines = self.lines_of(*said)?;
            text.push_str(lines.as_str())?;
        }
        if let Some(last) = last_line(how, counts) {
            let line = format!(in self.alloc; "{last}")?;
            text.push_str(line.as_str())?;
        }
        self.stage = if text.is_empty() {
            Stage::Exiting
        } else {
            Stage::Ending
        };
        self.said = text;
        self.named = named;
        Ok(())
    }
}
