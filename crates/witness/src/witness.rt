// Bytes as lines, and the bytes of both ends of a connection.

ghost use Rattle.std.specs.Prelude.{◌≡◌, ◌<◌, ◌≤◌, ◌+◌, ◌↔◌, ℕ, List, IsTrue, [], length, take, drop, true, false, Ok, Err, Some, None, OnOk, OnErr, IfOk, IfErr, IfSome, MatchOption};
ghost use Rattle.witness.specs.Names.{fed, no_bytes, IsLineDue, IsStream, next_of, Reads, IsClientRead, IsServerRead};
ghost use Rattle.witness.specs.Watching as spec;

use crate::dialogue::Dialogue;
use crate::lines::{Reported, Use};
use line_framing::{FramingFault, Line, Lines, LinesFault};
use std::alloc::{AllocError, Global};
use std::marker::Model;

/// The whole lines of bytes, and what is wrong after them. Fails only if out of memory.
pub fn cut_lines(
    alloc: Global,
    bytes: &[u8],
) -> Result<(Vec<Line>, Option<FramingFault>), AllocError>
    ensures { IfOk result (λ cut. (rest : List ℕ) × IsStream bytes.now cut.0.items rest cut.1) }
{
    let mut lines = Lines::new(alloc);
    match lines.feed(bytes) {
        Ok(()) | Err(LinesFault::Framing(_)) => {}
        Err(LinesFault::Memory) => return Err(AllocError),
    }
    let mut all = Vec::new(alloc);
    loop {
        match lines.next_line() {
            Ok(Some(line)) => all.push(line)?,
            Ok(None) => return Ok((all, None)),
            Err(LinesFault::Framing(fault)) => return Ok((all, Some(fault))),
            Err(LinesFault::Memory) => return Err(AllocError),
        }
    }
}

/// The bytes of one end that came and were not read. From a byte on that no line can hold, or a line that is too long, nothing is kept.
#[derive(Drop)]
struct End {
    lines: Lines,
    fault: Option<FramingFault>,
}

impl Model for End {
    ghost use Rattle.std.specs.Prelude.{◌≡◌, [], None, IfSome};
    ghost use Rattle.line_framing.specs.Framing.{Framing};

    ghost Value = { Framing };

    ghost view = { λ e. record { rest = e.lines.rest; fault = e.fault } };

    ghost invariant = { λ e. (e.lines.fault ≡ None) × IfSome e.fault (λ _. e.lines.rest ≡ []) };
}

impl End {
    fn new(alloc: Global) -> End
        ensures { result ≡ no_bytes }
    {
        End {
            lines: Lines::new(alloc),
            fault: None,
        }
    }

    fn rest(&self) -> &[u8]
        ensures { result.now ≡ self.now.rest }
    {
        self.lines.rest()
    }

    fn has_line(&self) -> bool
        ensures { IsTrue result ↔ IsLineDue (next_of self.now.rest) }
    {
        self.lines.has_line()
    }

    fn feed(&mut self, bytes: &[u8]) -> Result<(), AllocError>
        ensures ok { OnOk result (self.new ≡ fed self.old bytes.now) }
        ensures err { OnErr result (self.new ≡ self.old) }
    {
        if self.fault.is_some() {
            return Ok(());
        }
        match self.lines.feed(bytes) {
            Ok(()) => Ok(()),
            Err(_) => Err(AllocError),
        }
    }

    /// How many bytes the first line has, if a whole one waits. Bytes that are no line are dropped.
    fn first_line(&mut self) -> Result<Option<usize>, FramingFault>
        ensures found { IfOk result (λ found. MatchOption found (next_of self.old.rest ≡ Ok None)
            (λ n. next_of self.old.rest
            ≡ Ok (Some (take n self.old.rest, drop (n + 2) self.old.rest)))) }
        ensures within { IfOk result (λ found. IfSome found (λ n. n + 2 ≤ length self.old.rest)) }
        ensures fault { IfErr result (λ fault. next_of self.old.rest ≡ Err fault) }
        ensures ok { OnOk result (self.new ≡ self.old) }
        ensures err { OnErr result (self.new ≡ spec.after_first self.old) }
    {
        match self.lines.first_line() {
            Ok(found) => Ok(found),
            Err(fault) => {
                self.lines.clear();
                self.fault = Some(fault);
                Err(fault)
            }
        }
    }

    fn drop_line(&mut self, length: usize)
        requires { next_of self.old.rest
            ≡ Ok (Some (take length self.old.rest, drop (length + 2) self.old.rest)) }
        ensures dropped { self.new ≡ record self.old { rest = drop (length + 2) self.old.rest } }
        ensures taken { self.new ≡ spec.after_first self.old }
    {
        self.lines.drop_line(length);
    }
}

/// The bytes of both ends of a connection, cut into lines. Contracts see the bytes of each end that were fed and not read, and what the lines
/// before them report.
///
/// From a byte on that no line can hold, or a line that is too long, nothing more is read of that end, or kept.
#[derive(Drop)]
pub struct Witness {
    up: End,
    down: End,
    dialogue: Dialogue,
}

impl Model for Witness {
    ghost use Rattle.witness.specs.Watching.{Watching};

    ghost Value = { Watching };

    ghost view = { λ w. record { up = w.up; down = w.down; dialogue = w.dialogue } };
}

impl Witness {
    /// A connection without a byte; `ordered`: the order between the lines of its two ends is known. Does not allocate.
    pub fn new(alloc: Global, ordered: bool) -> Witness
        ensures { result ≡ spec.unwatched ordered }
    {
        Witness {
            up: End::new(alloc),
            down: End::new(alloc),
            dialogue: Dialogue::new(alloc, ordered),
        }
    }

    /// Bytes come from the client. Fails only if out of memory, and then nothing has changed.
    pub fn from_client(&mut self, bytes: &[u8]) -> Result<(), AllocError>
        ensures ok { OnOk result (self.new ≡ record self.old { up = fed self.old.up bytes.now }) }
        ensures err { OnErr result (self.new ≡ self.old) }
    {
        self.up.feed(bytes)
    }

    /// Bytes come from the server. Fails only if out of memory, and then nothing has changed.
    pub fn from_server(&mut self, bytes: &[u8]) -> Result<(), AllocError>
        ensures ok { OnOk result (self.new ≡ record self.old { down = fed self.old.down bytes.now }) }
        ensures err { OnErr result (self.new ≡ self.old) }
    {
        self.down.feed(bytes)
    }

    /// Whether a whole line of the client waits.
    pub fn has_client_line(&self) -> bool
        ensures { IsTrue result ↔ IsLineDue (next_of self.now.up.rest) }
    {
        self.up.has_line()
    }

    /// Whether a whole line of the server waits.
    pub fn has_server_line(&self) -> bool
        ensures { IsTrue result ↔ IsLineDue (next_of self.now.down.rest) }
    {
        self.down.has_line()
    }

    /// Reads the first line of the client, if one waits. Fails only if out of memory, and then nothing has changed.
    pub fn read_client(&mut self) -> Result<(), AllocError>
        ensures ok { OnOk result (self.new ≡ spec.client_read self.old) }
        ensures shorter { OnOk result (IsLineDue (next_of self.old.up.rest)
            → length self.new.up.rest < length self.old.up.rest) }
        ensures err { OnErr result (self.new ≡ self.old) }
    {
        if let Ok(Some(length)) = self.up.first_line() {
            let (line, _) = self.up.rest().split_at(length);
            self.dialogue.client_line(line)?;
            self.up.drop_line(length);
        }
        Ok(())
    }

    /// Reads the first line of the server, if one waits. Fails only if out of memory, and then nothing has changed.
    pub fn read_server(&mut self) -> Result<(), AllocError>
        ensures ok { OnOk result (self.new ≡ spec.server_read self.old) }
        ensures shorter { OnOk result (IsLineDue (next_of self.old.down.rest)
            → length self.new.down.rest < length self.old.down.rest) }
        ensures err { OnErr result (self.new ≡ self.old) }
    {
        if let Ok(Some(length)) = self.down.first_line() {
            let (line, _) = self.down.rest().split_at(length);
            self.dialogue.server_line(line)?;
            self.down.drop_line(length);
        }
        Ok(())
    }

    #[tactic(auto, using(crate::proofs::Kept::few_left, crate::proofs::Kept::none_left))]
    fn read_server_lines(&mut self) -> Result<(), AllocError>
        ensures reads { spec.ReadsServer self.old self.new }
        ensures all { OnOk result (IsLineDue (next_of self.new.down.rest) → ⊥) }
        ensures few { OnOk result (spec.IsFew self.new.down) }
    {
        while self.has_server_line() {
            self.read_server()?;
        }
        self.read_server()
    }

    #[tactic(auto, using(crate::proofs::Kept::few_left, crate::proofs::Kept::none_left))]
    fn read_client_within(&mut self, most: usize) -> Result<bool, AllocError>
        ensures reads { spec.ReadsClient self.old self.new }
        ensures first { IfOk result (λ over. over ≡ true → spec.IsFirstPast most self.old self.new) }
        ensures within { IfOk result (λ over. over ≡ false → spec.AreAllWithin most self.old self.new) }
        ensures all { IfOk result (λ over. over ≡ false → IsLineDue (next_of self.new.up.rest) → ⊥) }
        ensures few { IfOk result (λ over. over ≡ false → spec.IsFew self.new.up) }
        ensures over { IfOk result (λ over. over ≡ true → most < length self.new.dialogue.uses) }
    {
        while self.has_client_line() {
            self.read_client()?;
            if self.uses().len() > most {
                return Ok(true);
            }
        }
        self.read_client()?;
        Ok(false)
    }

    /// Reads the lines that wait, those of the client first, up to the first of them after which more than `most` are open: whether one is. What is
    /// kept is of a line without its end. Fails only if out of memory, and then has read some of them.
    #[tactic(auto, using(crate::proofs::Courses::reading))]
    pub fn read_within(&mut self, most: usize) -> Result<bool, AllocError>
        ensures reads { Reads self.old self.new }
        ensures client { IfOk result (λ over. over ≡ false → IsClientRead self.new) }
        ensures server { IfOk result (λ over. over ≡ false → IsServerRead self.new) }
        ensures few { IfOk result (λ over. over ≡ false → spec.KeepsFew self.new) }
        ensures first { IfOk result (λ over. over ≡ true → spec.IsFirstPast most self.old self.new) }
        ensures over { IfOk result (λ over. over ≡ true → most < length self.new.dialogue.uses) }
    {
        if self.read_client_within(most)? {
            return Ok(true);
        }
        self.read_server_lines()?;
        Ok(false)
    }

    /// The lines of the client that are open, in order.
    pub fn uses(&self) -> &[Use]
        ensures { result.now ≡ self.now.dialogue.uses }
    {
        self.dialogue.uses()
    }

    /// What was reported and not taken, in order.
    pub fn reported(&self) -> &[Reported]
        ensures { result.now ≡ self.now.dialogue.reported }
    {
        self.dialogue.reported()
    }

    /// Takes all that was reported. Does not allocate.
    pub fn clear_reported(&mut self)
        ensures { self.new ≡ record self.old { dialogue = record (self.old.dialogue) { reported = [] } } }
    {
        self.dialogue.clear_reported();
    }
}
