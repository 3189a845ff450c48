// On a connection: bytes are received, the server works, and its answers are sent.

ghost use Rattle.std.specs.Prelude.{◌≡◌, true, false, [], OnOk, OnErr};
ghost use Rattle.effects.specs.Effects.{the_reply, Bytes};
ghost use Rattle.services.specs.Sessions as spec;
ghost use Rattle.services.specs.Serving as serving;

use crate::sessions::Break;
use crate::{Session, Stage};
use byte_ports::{Pieces, Takes};
use effects::Answer;
use link_world::{PumpFault, serve_turns};
use server_core::{Server, ServerFault};
use session_telling::{Lapse, Side, stamped};
use std::alloc::AllocError;

/// Whether a server is on a connection.
fn is_on(server: &Server) -> bool
    ensures { result ≡ server.now.end.server.on }
{
    let connection = server.view().connection;
    connection.is_some()
}

/// A fault of a turn, or else memory has run out, since the ports of a turn meet nothing else.
fn of_turn(fault: PumpFault<ServerFault>) -> Result<PumpFault<ServerFault>, AllocError>
    ensures { OnOk result (serving.IsOfTurn fault) }
{
    match fault {
        PumpFault::Core(_) | PumpFault::TurnsSpent => Ok(fault),
        _ => Err(AllocError),
    }
}

impl Session {
    /// What comes before bytes are received.
    pub(crate) fn await_bytes(&self) -> Stage
        ensures serving { spec.is_serving result ≡ true }
        ensures at { self.now.talk.end.server.on ≡ true → self.now.talk.out ≡ []
            → serving.IsAt result self.now.talk }
    {
        if self.service.stop.is_some() {
            Stage::Checking
        } else {
            self.await_unstopped()
        }
    }

    /// Likewise, once the stop file was looked for.
    fn await_unstopped(&self) -> Stage
        ensures serving { spec.is_serving result ≡ true }
        ensures at { self.now.talk.end.server.on ≡ true → self.now.talk.out ≡ []
            → serving.IsAt result self.now.talk }
    {
        if self.wait.limit.is_some() {
            Stage::Timing
        } else {
            Stage::Receiving
        }
    }

    /// The server leaves its connection.
    fn leave(&mut self)
        ensures { self.new ≡ spec.left self.old }
    {
        self.server.leave();
        self.stage = Stage::Leaving;
    }

    /// The connection is broken off and left.
    fn fail(&mut self, why: Break)
        ensures new { self.new ≡ spec.broken_off self.old }
        ensures keeps { spec.Keeps self.old self.new }
    {
        self.break_off(why);
        self.leave();
    }

    #[tactic(auto, using(crate::proofs::Served::end_stays, crate::proofs::Served::may_stay, crate::proofs::Breaking::quiet_breaks, crate::proofs::Breaking::ended_breaks))]
    pub(crate) fn receive(&mut self, answer: Answer<'_>) -> Result<(), AllocError>
        requires { spec.is_receiving self.old.stage ≡ true }
        ensures goes { OnOk result (spec.GoesOn self.old (the_reply answer.entry) self.new) }
        ensures served { OnOk result
            (spec.Brings false self.old (the_reply answer.entry) self.new) }
        ensures stays { OnOk result (spec.StaysOn self.old (the_reply answer.entry) self.new) }
        ensures breaks { OnOk result (spec.Breaks self.old (the_reply answer.entry) self.new) }
        ensures lost { OnErr result
            (spec.Brings true self.old (the_reply answer.entry) (spec.left self.new)) }
        ensures stands { OnOk result (spec.Stands self.old → spec.Stands self.new) }
    {
        match (self.stage, answer) {
            (Stage::Checking, Answer::Found) => self.leave(),
            (Stage::Checking, _) => self.stage = self.await_unstopped(),
            (Stage::Timing, Answer::At(now)) => match self.wait.lapse(now) {
                Some(lapse) => self.fail(Break::Lapsed(lapse)),
                None => self.stage = Stage::Receiving,
            },
            (Stage::Timing, _) => self.stage = Stage::Receiving,
            _ => return self.received(answer),
        }
        Ok(())
    }

    /// Bytes may have come.
    #[tactic(auto, using(crate::proofs::Served::end_stays, crate::proofs::Served::may_stay, crate::proofs::Served::heard_stays, crate::proofs::Breaking::quiet_breaks, crate::proofs::Breaking::ended_breaks))]
    fn received(&mut self, answer: Answer<'_>) -> Result<(), AllocError>
        requires { self.old.stage ≡ Stage.Receiving }
        ensures goes { OnOk result (spec.GoesOn self.old (the_reply answer.entry) self.new) }
        ensures served { OnOk result
            (spec.Brings false self.old (the_reply answer.entry) self.new) }
        ensures stays { OnOk result (spec.StaysOn self.old (the_reply answer.entry) self.new) }
        ensures breaks { OnOk result (spec.Breaks self.old (the_reply answer.entry) self.new) }
        ensures lost { OnErr result
            (spec.Brings true self.old (the_reply answer.entry) (spec.left self.new)) }
        ensures stands { OnOk result (spec.Stands self.old → spec.Stands self.new) }
    {
        match answer {
            Answer::Bytes(piece) => return self.came(piece),
            Answer::End => self.leave(),
            Answer::Nothing => self.stage = self.await_bytes(),
            Answer::Short => return Err(AllocError),
            _ => self.fail(Break::Fault(PumpFault::ReadFailed)),
        }
        Ok(())
    }

    /// The server reads these bytes and does all that it has to do, or its turn breaks the connection off. Fails only if out of memory.
    fn work(&mut self, piece: &[u8]) -> Result<(), AllocError>
        ensures more { OnOk result (spec.IsMore self.old.core.ledger self.new.core.ledger) }
        ensures core { OnOk result (self.new.core ≡ record (self.old.core) {
          ledger = self.new.core.ledger;
          broken = self.new.core.broken;
        }) }
        ensures breaks { OnOk result (spec.Breaks self.old (Bytes piece.now) self.new) }
        ensures hears { OnOk result (spec.Hears false self.old.talk piece.now self.new.talk) }
        ensures goes { OnOk result (serving.GoesOnWith self.old.talk piece.now self.new.talk) }
        ensures lost { OnErr result (spec.Hears true self.old.talk piece.now
            (spec.left self.new).talk) }
    {
        let mut source = Pieces::new(self.alloc);
        source.add(piece)?;
        let mut sink = Takes::new(self.alloc, usize::MAX);
        let turned = serve_turns(
            &mut self.server,
            &mut self.machine,
            &mut source,
            &mut sink,
            piece.len(),
            u64::MAX,
        );
        match turned {
            Ok(_) => {
                self.out.extend_from_slice(sink.taken())?;
                Ok(())
            }
            Err(fault) => {
                let why = of_turn(fault)?;
                self.break_off(Break::Fault(why));
                Ok(())
            }
        }
    }

    /// Bytes have come.
    #[tactic(auto, using(crate::proofs::Served::goes_ok))]
    fn came(&mut self, piece: &[u8]) -> Result<(), AllocError>
        ensures kept { OnOk result ((o : spec.Outside) → spec.IsKept self.old.core o
            → spec.Ready (spec.due self.new) self.new.core o) }
        ensures hears { OnOk result (spec.Hears false self.old.talk piece.now self.new.talk) }
        ensures goes { OnOk result (serving.GoesOnWith self.old.talk piece.now self.new.talk) }
        ensures breaks { OnOk result (spec.Breaks self.old (Bytes piece.now) self.new) }
        ensures lost { OnErr result (spec.Hears true self.old.talk piece.now
            (spec.left self.new).talk) }
        ensures stands { OnOk result (spec.Stands self.new) }
    {
        self.wait.came(piece);
        self.lines.went(Side::Client, piece)?;
        self.work(piece)?;
        self.note()
    }

    /// What the server has done is to be kept, or its answers are next.
    fn note(&mut self) -> Result<(), AllocError>
        ensures kept { OnOk result ((c : spec.Core) (o : spec.Outside)
            → spec.IsMore c.ledger self.old.core.ledger
            → self.old.core ≡ record c { ledger = self.old.core.ledger; broken = self.old.core.broken }
            → spec.IsKept c o → spec.Ready (spec.due self.new) self.new.core o) }
        ensures talk { self.new.talk ≡ self.old.talk }
        ensures broken { OnOk result (self.new.core.broken ≡ self.old.core.broken) }
        ensures stands { OnOk result (spec.Stands self.new) }
    {
        if !self.contacts.is_kept() {
            self.show_worked();
            return Ok(());
        }
        self.follow()?;
        if self.contacts.text.is_empty() {
            self.show_worked();
        } else {
            self.stage = Stage::Keeping;
        }
        Ok(())
    }

    /// What the server has done since is to be added to the contacts file.
    fn follow(&mut self) -> Result<(), AllocError>
        ensures core { OnOk result (self.new.core ≡ spec.followed self.old.core) }
        ensures talk { self.new.talk ≡ self.old.talk }
    {
        self.contacts.follow(self.server.ledger())
    }

    /// What the server did is in the contacts file.
    fn settle(&mut self)
        ensures due { spec.is_serving (spec.due self.new) ≡ true }
        ensures core { self.new.core ≡ record (self.old.core) { text = [] } }
        ensures talk { self.new.talk ≡ self.old.talk }
        ensures stands { spec.Stands self.new }
    {
        self.contacts.settle();
        self.show_worked();
    }

    /// Lines that have ended are shown, and then this is next.
    fn show(&mut self, next: Stage)
        requires { spec.is_serving next ≡ true }
        ensures due { spec.is_serving (spec.due self.new) ≡ true }
        ensures core { self.new.core ≡ self.old.core }
        ensures talk { self.new.talk ≡ self.old.talk }
        ensures stands { serving.IsAt next self.old.talk → spec.Stands self.new }
    {
        self.shown = self.lines.take();
        self.next = next;
        self.stage = if self.shown.is_empty() {
            next
        } else if self.service.trace {
            Stage::Tracing
        } else {
            Stage::Stamping
        };
    }

    /// What comes after what the server did is kept.
    pub(crate) fn after_keeping(&self) -> Stage
        ensures serving { spec.is_serving result ≡ true }
        ensures at { serving.IsAt result self.now.talk }
    {
        if !is_on(&self.server) {
            Stage::Leaving
        } else if self.out.is_empty() {
            self.await_bytes()
        } else {
            Stage::Sending
        }
    }

    /// What the server did is kept: the lines that have ended are shown.
    fn show_worked(&mut self)
        ensures due { spec.is_serving (spec.due self.new) ≡ true }
        ensures core { self.new.core ≡ self.old.core }
        ensures talk { self.new.talk ≡ self.old.talk }
        ensures stands { spec.Stands self.new }
    {
        self.show(self.after_keeping());
    }

    pub(crate) fn show_on(&mut self, answer: Answer<'_>) -> Result<(), AllocError>
        requires { spec.is_showing self.old.stage ≡ true }
        ensures core { OnOk result (self.new.core ≡ self.old.core) }
        ensures due { OnOk result (spec.due self.new ≡ spec.due self.old) }
        ensures talk { self.new.talk ≡ self.old.talk }
    {
        match (self.stage, answer) {
            (Stage::Tracing, _) if self.is_logged => self.stage = Stage::Stamping,
            (Stage::Stamping, Answer::Bytes(time)) => {
                self.text = stamped(self.alloc, time, self.shown.as_str())?;
                self.stage = Stage::Logging;
            }
            (Stage::Tracing, _) | (Stage::Logging, Answer::Done) => self.stage = self.next,
            _ => return self.lose_log(answer, self.next),
        }
        Ok(())
    }

    #[tactic(auto, using(crate::proofs::Served::end_stays, crate::proofs::Breaking::quiet_breaks))]
    pub(crate) fn answer(&mut self, answer: Answer<'_>) -> Result<(), AllocError>
        requires { spec.is_answering self.old.stage ≡ true }
        ensures goes { OnOk result (spec.GoesOn self.old (the_reply answer.entry) self.new) }
        ensures served { spec.Brings false self.old (the_reply answer.entry) self.new }
        ensures stays { OnOk result (spec.StaysOn self.old (the_reply answer.entry) self.new) }
        ensures breaks { OnOk result (spec.Breaks self.old (the_reply answer.entry) self.new) }
        ensures stands { OnOk result (spec.Stands self.old → spec.Stands self.new) }
    {
        match (self.stage, answer) {
            (Stage::Keeping, Answer::Done) => self.settle(),
            (Stage::Keeping, _) => return self.lose_contacts(answer),
            (Stage::Sending, _) => return self.went(answer),
            _ => return self.left(),
        }
        Ok(())
    }

    /// The answers went, or the connection is broken off.
    #[tactic(auto, using(crate::proofs::Served::end_stays, crate::proofs::Breaking::quiet_breaks))]
    fn went(&mut self, answer: Answer<'_>) -> Result<(), AllocError>
        requires { self.old.stage ≡ Stage.Sending }
        ensures goes { OnOk result (spec.GoesOn self.old (the_reply answer.entry) self.new) }
        ensures served { spec.Brings false self.old (the_reply answer.entry) self.new }
        ensures stays { OnOk result (spec.StaysOn self.old (the_reply answer.entry) self.new) }
        ensures breaks { OnOk result (spec.Breaks self.old (the_reply answer.entry) self.new) }
        ensures stands { OnOk result (spec.Stands self.old → spec.Stands self.new) }
    {
        match answer {
            Answer::Done => return self.sent(),
            Answer::Nothing => self.fail(Break::Lapsed(Lapse::Taken)),
            _ => self.fail(Break::Fault(PumpFault::WriteFailed)),
        }
        Ok(())
    }

    /// All that the server had answered was sent.
    fn sent(&mut self) -> Result<(), AllocError>
        ensures due { OnOk result (spec.is_serving (spec.due self.new) ≡ true) }
        ensures core { self.new.core ≡ self.old.core }
        ensures talk { self.new.talk ≡ record (self.old.talk) { out = [] } }
        ensures stands { OnOk result (self.old.talk.end.server.on ≡ true
            → spec.Stands self.new) }
    {
        let went = self.lines.went(Side::Server, self.out.as_slice());
        self.out.clear();
        went?;
        self.show(self.await_bytes());
        Ok(())
    }

    /// The connection is left.
    fn left(&mut self) -> Result<(), AllocError>
        requires { self.old.stage ≡ Stage.Leaving }
        ensures goes { OnOk result (spec.Continues self.old self.new) }
        ensures talk { self.new.talk ≡ self.old.talk }
        ensures broken { OnOk result (self.new.core.broken ≡ self.old.core.broken) }
        ensures stands { OnOk result (self.old.talk.end.server.on ≡ false
            → spec.Stands self.new) }
    {
        let number = self.number;
        if !self.service.progress {
            return self.go_on();
        }
        let message = format!(in self.alloc; "connection {number} left\n")?;
        self.go_on()?;
        let next = self.stage;
        self.say(message, next);
        Ok(())
    }
}
