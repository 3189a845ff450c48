// On the connection: commands are sent, and lines are heard.

ghost use Rattle.std.specs.Prelude.{◌≡◌, ◌<◌, ◌⊎◌, ◌∷◌, ◌++◌, ℕ, List, Some, true, length, drop, OnOk, OnErr, None};
ghost use Rattle.dme_line.specs.Tags.{written_tag, IsTag};
ghost use Rattle.dme_line.specs.declared.tags.Tag.{Tag};
ghost use Rattle.effects.specs.Effects.{the_reply};
ghost use Rattle.protocol_model.specs.Client.{may_abort};
ghost use Rattle.run_session.specs.Ends as ends;
ghost use Rattle.run_session.specs.Records as spec;
ghost use Rattle.run_session.specs.Statuses as statuses;
ghost use Rattle.session_telling.specs.Sessions.{with_command};
ghost use Rattle.client_core.specs.declared.faults.ClientFault.{ClientFault};
ghost use Rattle.link_world.specs.declared.connections.pumps.PumpFault.{PumpFault};

use crate::{Session, Stage};
use client_core::{ClientFault, State};
use dme_line::Kind;
use effects::Answer;
use link_world::PumpFault;
use session_telling::{Lapse, Side, Wait};
use std::alloc::AllocError;

/// The most bytes of a line that are shown as the last one.
const MOST_SHOWN: usize = 200;

/// Adds the bytes of a line, without its end, as far as they are shown.
fn add_shown(shown: &mut Vec<u8>, line: &[u8]) -> Result<(), AllocError> {
    let line = line.strip_suffix(b"\n").unwrap_or(line);
    for part in line.split(|byte| *byte == b'\r') {
        let room = MOST_SHOWN.saturating_sub(shown.len());
        shown.extend_from_slice(part.get(..room).unwrap_or(part))?;
    }
    Ok(())
}

/// Why the connection is broken off, if this answer to a read breaks it off.
fn read_fault(answer: Answer<'_>) -> PumpFault<ClientFault>
    ensures { (by : PumpFault ClientFault) → statuses.read_break (the_reply answer.entry) ≡ Some by
        → result ≡ by }
{
    match answer {
        Answer::End => PumpFault::Ended,
        _ => PumpFault::ReadFailed,
    }
}

impl Session {
    /// Whether the run is over: its plan is counted, or nothing is open after a failure or an abort; or its connection was broken off.
    pub(crate) fn is_over(&self) -> bool
        ensures { result ≡ spec.over self.now }
    {
        self.broken.is_some() || matches!(self.client.state(), State::Done | State::Halted)
    }

    /// The client writes the command that is due, which is not held back; all that has come is read.
    fn send(&mut self) -> Result<(), ClientFault>
        requires held { spec.held self.old.book.pauses
            < length self.old.pair.end.client.table.tally.unsent }
        requires read { spec.HasLine self.old.pair.end → ⊥ }
        ensures ran { spec.Keeps self.old self.new }
        ensures book { self.new.book ≡ self.old.book }
        ensures told { spec.StaysTold self.old self.new }
        ensures opens { spec.open_on self.new ≡ spec.open_on self.old }
    {
        let Some(command) = self.client.due() else {
            return Err(ClientFault::NotNow);
        };
        let kind = command.kind();
        let before = self.client.out().len();
        self.client.send()?;
        self.note(kind, before)?;
        Ok(())
    }

    /// A command of this kind was written after that many bytes.
    fn note(&mut self, kind: Kind, before: usize) -> Result<(), AllocError>
        ensures noted { (tag : Tag) (text : List ℕ) → IsTag tag
            → drop before self.old.pair.end.out ≡ written_tag tag ++ (32 ∷ text)
            → OnOk result (self.new.talk ≡ record (self.old.talk) {
              sent = with_command self.old.talk.sent tag kind;
            }) }
        ensures lost { OnErr result (self.new.talk.lost ≡ true) }
        ensures rest { self.new ≡ record (self.old) { talk = self.new.talk } }
    {
        match self.client.out().split_at_checked(before) {
            Some((_, line)) => self.errors.note(kind, line),
            None => Ok(()),
        }
    }

    /// The client aborts. Fails only if out of memory.
    fn abort(&mut self) -> Result<(), AllocError>
        ensures ran { OnOk result (spec.Keeps (spec.stopped true self.old) self.new) }
        ensures spent { OnErr result (spec.IsShort true self.old self.new) }
        ensures book { self.new.book ≡ self.old.book }
        ensures told { spec.StaysTold self.old self.new }
        ensures opens { spec.open_on self.new ≡ spec.open_on self.old }
    {
        let before = self.client.out().len();
        match self.client.abort() {
            Ok(()) => self.note(Kind::AbortE, before),
            Err(ClientFault::NotNow) => Ok(()),
            Err(ClientFault::Memory) => Err(AllocError),
            Err(ClientFault::Faulted(cause)) => {
                self.break_off(PumpFault::Core(ClientFault::Faulted(cause)));
                Ok(())
            }
        }
    }

    /// The client gets bytes of the server, whose errors are to be shown, and to go into the record.
    fn feed(&mut self, bytes: &[u8]) -> Result<(), ClientFault>
        ensures ran { spec.Keeps self.old self.new }
        ensures book { self.new.book ≡ self.old.book }
    {
        let program = self.client.program().features();
        self.errors.hear(program, bytes, &mut self.shown)?;
        let fed = self.client.feed(bytes);
        self.errors.lose_if(fed.is_err());
        fed
    }

    fn read(&mut self) -> Result<bool, ClientFault>
        ensures ran { spec.Keeps self.old self.new }
        ensures book { self.new.book ≡ self.old.book }
    {
        self.client.read_one()
    }

    /// All that the client had written was sent.
    fn clear(&mut self)
        ensures ran { spec.Keeps self.old self.new }
        ensures book { self.new.book ≡ self.old.book }
        ensures told { spec.StaysTold self.old self.new }
        ensures opens { spec.open_on self.new ≡ spec.open_on self.old }
    {
        let count = self.client.out().len();
        self.client.sent(count);
    }

    /// The connection is broken off: the client leaves it.
    pub(crate) fn break_off(&mut self, why: PumpFault<ClientFault>)
        ensures left { self.new
            ≡ record (spec.left self.old) { course = self.new.course } }
        ensures ran { spec.Keeps self.old self.new }
        ensures book { self.new.book ≡ self.old.book }
        ensures told { spec.StaysTold self.old self.new }
        ensures opens { spec.open_on self.new ≡ spec.open_on self.old }
        ensures over { spec.over self.new ≡ true }
        ensures course { self.new.course
            ≡ record (self.old.course) { broken = Some why } }
    {
        self.client.leave();
        self.broken = Some(why);
    }

    fn refuse_core(&mut self, fault: ClientFault) -> Result<(), AllocError>
        ensures ran { spec.Keeps self.old self.new }
        ensures book { self.new.book ≡ self.old.book }
        ensures told { spec.StaysTold self.old self.new }
        ensures opens { spec.open_on self.new ≡ spec.open_on self.old }
    {
        if let ClientFault::Memory = fault {
            return Err(AllocError);
        }
        self.break_off(PumpFault::Core(fault));
        Ok(())
    }

    /// The client sends each command that is due, and is not held back, until its run is over; none while a line that has come is not read.
    fn send_due(&mut self) -> Result<(), AllocError>
        ensures ran { spec.Keeps self.old self.new }
        ensures book { self.new.book ≡ self.old.book }
        ensures told { spec.StaysTold self.old self.new }
        ensures opens { spec.open_on self.new ≡ spec.open_on self.old }
    {
        for _command in 0..u64::MAX {
            if self.is_over() || self.client.due().is_none() {
                break;
            }
            if self.client.has_line() || self.client.unsent() <= self.held() {
                break;
            }
            if let Err(fault) = self.send() {
                return self.refuse_core(fault);
            }
        }
        Ok(())
    }

    /// All that was counted is kept and shown: commands that are due are sent, or bytes are awaited; or the run is over.
    pub(crate) fn go_on(&mut self) -> Result<(), AllocError>
        ensures ran { spec.Keeps self.old self.new }
        ensures book { self.new.book ≡ self.old.book }
        ensures due { OnOk result (spec.IsDue self.new) }
        ensures followed { OnOk result (spec.Follows self.old self.new) }
        ensures nears { ends.OverWithin (ends.within 21 self.old) result self.old self.new }
    {
        if !self.is_over() {
            self.send_due()?;
        }
        if self.is_over() {
            return self.end();
        }
        self.ask_more()
    }

    /// What is written is sent, the operator is asked, or bytes are awaited.
    fn ask_more(&mut self) -> Result<(), AllocError>
        ensures quiet { spec.IsQuiet self.old self.new }
        ensures due { OnOk result (spec.IsDue self.new) }
        ensures followed { OnOk result (spec.FollowsGoing self.old self.new) }
    {
        if !self.client.out().is_empty() {
            self.stage = Stage::Sending;
        } else if self.is_paused() && !self.is_asked {
            return self.ask();
        } else {
            self.await_bytes();
        }
        Ok(())
    }

    /// What comes before bytes are received.
    pub(crate) fn await_bytes(&mut self)
        ensures quiet { spec.IsQuiet self.old self.new }
        ensures due { spec.IsDue self.new }
        ensures followed { spec.FollowsGoing self.old self.new }
    {
        if self.run.stop.is_some() && !self.is_stopped {
            self.stage = Stage::Checking;
        } else {
            self.await_unstopped();
        }
    }

    /// Likewise, once the stop file was looked for.
    fn await_unstopped(&mut self)
        ensures quiet { spec.IsQuiet self.old self.new }
        ensures due { spec.IsDue self.new }
        ensures followed { spec.FollowsGoing self.old self.new }
    {
        self.stage = if self.is_asked && self.is_paused() {
            Stage::Awaiting
        } else if self.wait.limit.is_some() || self.run.on_terminal {
            Stage::Timing
        } else {
            Stage::Receiving
        };
    }

    /// Whether the client is in a state in which it can abort.
    fn may_abort(&self) -> bool
        ensures { result ≡ may_abort self.now.pair.end.client.state }
    {
        matches!(self.client.state(), State::Running | State::Failing)
    }

    /// The stop file is there, or the operator has not confirmed a pause: the client aborts, if it can.
    pub(crate) fn stop(&mut self) -> Result<(), AllocError>
        ensures ran { OnOk result (spec.Keeps (spec.stopped true self.old) self.new) }
        ensures spent { OnErr result (spec.IsShort true self.old self.new) }
        ensures book { self.new.book ≡ self.old.book }
        ensures due { OnOk result (spec.IsDue self.new) }
        ensures followed { OnOk result (spec.Follows self.old self.new) }
    {
        self.is_stopped = true;
        self.is_asked = false;
        self.seen = Some(self.client.state());
        self.wait = Wait::new(self.wait.limit);
        if !self.may_abort() {
            return self.go_on();
        }
        self.abort()?;
        self.go_on()
    }

    /// The stop file was looked for.
    pub(crate) fn checked(&mut self, answer: Answer<'_>) -> Result<(), AllocError>
        ensures ran { OnOk result (spec.Keeps (spec.stopped (spec.is_stop Stage.Checking
            (the_reply answer.entry)) self.old) self.new) }
        ensures spent { OnErr result (spec.IsShort (spec.is_stop Stage.Checking
            (the_reply answer.entry)) self.old self.new) }
        ensures book { self.new.book ≡ self.old.book }
        ensures due { OnOk result (spec.IsDue self.new) }
        ensures followed { OnOk result (spec.FollowsGoing self.old self.new) }
    {
        if let Answer::Found = answer {
            return self.stop();
        }
        self.await_unstopped();
        Ok(())
    }

    /// The server has not done what was due for too long.
    fn lapsed(&mut self, lapse: Lapse, why: PumpFault<ClientFault>) -> Result<(), AllocError>
        ensures ran { spec.Keeps self.old self.new }
        ensures book { self.new.book ≡ self.old.book }
        ensures due { OnOk result (spec.IsDue self.new) }
        ensures followed { OnOk result (spec.HasFollowed self.new) }
        ensures course { OnOk result (self.new.course
            ≡ record (self.old.course) { broken = Some why; lapsed = true }) }
    {
        self.lapse = Some(lapse);
        self.fail(why)
    }

    /// The connection is broken off, and what was counted is kept.
    fn fail(&mut self, why: PumpFault<ClientFault>) -> Result<(), AllocError>
        ensures ran { spec.Keeps self.old self.new }
        ensures book { self.new.book ≡ self.old.book }
        ensures due { OnOk result (spec.IsDue self.new) }
        ensures followed { OnOk result (spec.HasFollowed self.new) }
        ensures course { OnOk result (self.new.course
            ≡ record (self.old.course) { broken = Some why }) }
    {
        self.break_off(why);
        self.follow()
    }

    pub(crate) fn receive(&mut self, answer: Answer<'_>) -> Result<(), AllocError>
        requires { (self.old.stage ≡ Stage.Timing) ⊎ (self.old.stage ≡ Stage.Receiving) }
        ensures ran { spec.Keeps self.old self.new }
        ensures book { self.new.book ≡ self.old.book }
        ensures due { OnOk result (spec.IsDue self.new) }
        ensures followed { OnOk result (spec.FollowsGoing self.old self.new) }
        ensures breaks { (by : PumpFault ClientFault) → statuses.break_by self.old.stage
            (the_reply answer.entry) ≡ Some by → OnOk result (self.new.course.broken ≡ Some by) }
    {
        match (self.stage, answer) {
            (Stage::Timing, Answer::At(now)) => {
                self.pacing.look(now);
                match self.wait.lapse(now) {
                    Some(lapse) => return self.lapsed(lapse, PumpFault::ReadFailed),
                    None => self.stage = Stage::Receiving,
                }
            }
            (Stage::Timing, _) => self.stage = Stage::Receiving,
            (_, Answer::Bytes(piece)) => return self.came(piece),
            (_, Answer::Nothing) => return self.go_on(),
            (_, Answer::Short) => return Err(AllocError),
            _ => return self.fail(read_fault(answer)),
        }
        Ok(())
    }

    /// Remembers bytes of one line of the server, as far as they are shown.
    fn remember(&mut self, line: &[u8]) -> Result<(), AllocError>
        ensures { self.new ≡ self.old }
    {
        if self.has_ended {
            self.last.clear();
        }
        self.has_ended = line.last() == Some(&b'\n');
        add_shown(&mut self.last, line)
    }

    /// The lines of a side that have ended are to be shown and logged.
    fn go_by(&mut self, side: Side, bytes: &[u8]) -> Result<(), AllocError>
        ensures { self.new ≡ self.old }
    {
        self.lines.went(side, bytes)?;
        let ended = self.lines.take();
        if self.run.trace {
            self.shown.push_str(ended.as_str())?;
        }
        if self.is_logged {
            self.logged.push_str(ended.as_str())?;
        }
        Ok(())
    }

    /// Bytes of one line of the server, perhaps its last: its error is to be shown, and the client reads it.
    fn hear(&mut self, line: &[u8]) -> Result<(), AllocError>
        ensures ran { spec.Keeps self.old self.new }
        ensures book { self.new.book ≡ self.old.book }
    {
        self.remember(line)?;
        let fed = self.feed(line);
        self.go_by(Side::Server, line)?;
        if let Err(fault) = fed {
            return self.refuse_core(fault);
        }
        match self.read() {
            Ok(_) => Ok(()),
            Err(fault) => self.refuse_core(fault),
        }
    }

    /// Bytes have come: the client reads each line, until its run is over.
    fn came(&mut self, piece: &[u8]) -> Result<(), AllocError>
        ensures ran { spec.Keeps self.old self.new }
        ensures book { self.new.book ≡ self.old.book }
        ensures due { OnOk result (spec.IsDue self.new) }
        ensures followed { OnOk result (spec.HasFollowed self.new) }
    {
        if self.wait.limit.is_some() {
            self.wait.came(piece);
        }
        for line in piece.split_inclusive(|byte| *byte == b'\n') {
            if !self.is_over() {
                self.hear(line)?;
            }
        }
        self.follow()
    }

    /// Commands were sent, or not.
    pub(crate) fn sent(&mut self, answer: Answer<'_>) -> Result<(), AllocError>
        requires { self.old.stage ≡ Stage.Sending }
        ensures ran { spec.Keeps self.old self.new }
        ensures book { self.new.book ≡ self.old.book }
        ensures due { OnOk result (spec.IsDue self.new) }
        ensures followed { OnOk result (spec.FollowsTold self.old self.new) }
        ensures breaks { (by : PumpFault ClientFault) → statuses.break_by self.old.stage
            (the_reply answer.entry) ≡ Some by → OnOk result (self.new.course.broken ≡ Some by) }
    {
        match answer {
            Answer::Done => self.has_sent(),
            Answer::Nothing if self.run.timeout.is_some() => {
                self.lapsed(Lapse::Taken, PumpFault::WriteFailed)
            }
            Answer::Short => Err(AllocError),
            _ => self.fail(PumpFault::WriteFailed),
        }
    }

    /// All that the client had written was sent.
    fn has_sent(&mut self) -> Result<(), AllocError>
        ensures ran { spec.Keeps self.old self.new }
        ensures book { self.new.book ≡ self.old.book }
        ensures due { OnOk result (spec.IsDue self.new) }
        ensures followed { OnOk result (spec.FollowsTold self.old self.new) }
    {
        let sent = Vec::from_slice(self.alloc, self.client.out())?;
        self.go_by(Side::Client, sent.as_slice())?;
        self.clear();
        self.show()
    }
}
