// The end of a service: the contacts file gets its whole text, the contacts are printed, and what has failed is said.

ghost use Rattle.std.specs.Prelude.{◌≡◌, true, false, OnErr, OnOk};
ghost use Rattle.effects.specs.Effects.{the_reply};
ghost use Rattle.services.specs.Ends as ends;
ghost use Rattle.services.specs.Sessions as spec;
ghost use Rattle.services.specs.Serving as serving;

use crate::sessions::Break;
use crate::{Session, Stage};
use effects::Answer;
use link_world::{PumpFault, write_contact_rows};
use server_core::ServerFault;
use session_telling::{lapse_line, unwritten_line};
use std::alloc::AllocError;

const UNPRINTED: &str = "dme: cannot write -\n";

/// Why a connection was broken off, as a line.
fn cause(fault: PumpFault<ServerFault>) -> &'static str {
    match fault {
        PumpFault::ReadFailed => "the connection could not be read\n",
        PumpFault::WriteFailed => "the connection could not be written\n",
        PumpFault::Ended => "the client has left the connection\n",
        PumpFault::TurnsSpent => "too many steps were made\n",
        PumpFault::Core(ServerFault::Framing(_)) => "the client sent bytes that are no lines\n",
        PumpFault::Core(_) => "the server is on no connection\n",
        PumpFault::Memory => "",
    }
}

impl Session {
    /// All connections were served.
    pub(crate) fn close(&mut self) -> Result<(), AllocError>
        ensures plain { OnOk result (spec.due self.new ≡ self.new.stage) }
        ensures ends { OnOk result (spec.Ends self.new) }
        ensures talk { self.new.talk ≡ self.old.talk }
        ensures broken { self.new.core.broken ≡ self.old.core.broken }
        ensures over { OnOk result (serving.is_over (spec.due self.new) ≡ true) }
        ensures stands { OnOk result (spec.Stands self.new) }
    {
        if !self.contacts.is_named() {
            return self.print();
        }
        self.contacts.whole(self.server.ledger())?;
        self.stage = Stage::Replacing;
        Ok(())
    }

    fn print(&mut self) -> Result<(), AllocError>
        ensures plain { OnOk result (spec.due self.new ≡ self.new.stage) }
        ensures prints { OnOk result (spec.Prints self.old.core self.new) }
        ensures talk { self.new.talk ≡ self.old.talk }
        ensures broken { self.new.core.broken ≡ self.old.core.broken }
        ensures over { OnOk result (serving.is_over (spec.due self.new) ≡ true) }
        ensures stands { OnOk result (spec.Stands self.new) }
        ensures nears { OnOk result (ends.IsWithin 2 (ends.ahead self.new)) }
        ensures stays { OnErr result (self.new.stage ≡ self.old.stage) }
    {
        self.rows.clear();
        write_contact_rows(&mut self.rows, self.server.ledger())?;
        self.stage = Stage::Printing;
        Ok(())
    }

    pub(crate) fn close_on(&mut self, answer: Answer<'_>) -> Result<(), AllocError>
        requires { spec.is_closing self.old.stage ≡ true }
        ensures goes { OnOk result (spec.GoesOn self.old (the_reply answer.entry) self.new) }
        ensures talk { self.new.talk ≡ self.old.talk }
        ensures broken { OnOk result (self.new.core.broken ≡ self.old.core.broken) }
        ensures over { OnOk result (serving.is_over (spec.due self.new) ≡ true) }
        ensures stands { OnOk result (spec.Stands self.new) }
        ensures nears { ends.NearsOn result self.old self.new }
    {
        match (self.stage, answer) {
            (Stage::Replacing, Answer::Done) => self.print(),
            (Stage::Replacing, _) => {
                self.contacts.has_failed = true;
                self.unwritten = unwritten_line(self.alloc, self.contacts.name(), answer)?;
                self.print()
            }
            (_, Answer::Done) => self.verdict(),
            _ => {
                self.tell(UNPRINTED, 1);
                Ok(())
            }
        }
    }

    /// What is said at the end of what broke connections off.
    fn broken_text(&self, why: Break) -> Result<String, AllocError> {
        match why {
            Break::Fault(PumpFault::Memory) => String::from_str(self.alloc, "dme: out of memory\n"),
            Break::Fault(fault) => {
                let line = cause(fault);
                format!(in self.alloc; "dme: connection failed\n{line}")
            }
            Break::Lapsed(lapse) => {
                let seconds = self.service.timeout.unwrap_or(0);
                let line = lapse_line(self.alloc, lapse, "client", seconds)?;
                format!(in self.alloc; "dme: connection failed\n{line}")
            }
        }
    }

    /// All was printed: what has failed is said, and the service ends.
    fn verdict(&mut self) -> Result<(), AllocError>
        ensures due { OnOk result (spec.due self.new ≡ Stage.Exiting) }
        ensures core { OnOk result (self.new.core
            ≡ record (self.old.core) { status = self.new.core.status }) }
        ensures status { OnOk result
            (spec.IsStatus self.new.core.status
            ((self.old.core.lost ≡ false) × (self.old.core.broken ≡ false))) }
        ensures talk { self.new.talk ≡ self.old.talk }
        ensures nears { OnOk result (ends.IsWithin 1 (ends.ahead self.new)) }
        ensures stays { OnErr result (self.new.stage ≡ self.old.stage) }
    {
        self.status = match self.broken {
            Some(Break::Fault(PumpFault::Memory)) => 4,
            Some(_) => 1,
            None if self.contacts.has_failed => 1,
            None => 0,
        };
        if let Some(why) = self.broken {
            let text = self.broken_text(why)?;
            self.unwritten.push_str(text.as_str())?;
        }
        std::mem::swap(&mut self.said, &mut self.unwritten);
        self.next = Stage::Exiting;
        self.stage = if self.said.is_empty() {
            Stage::Exiting
        } else {
            Stage::Saying
        };
        Ok(())
    }
}
