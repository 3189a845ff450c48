ghost use Rattle.std.specs.Prelude.{◌≡◌, ◌↔◌, IsTrue, ◌+◌, ◌≤◌, length, take, drop, MatchOption, IfOk, IfErr, OnOk, OnErr, IfSome, IfNone};
ghost use Rattle.line_framing.specs.Names.{IsLine, next_of, IsSound, IsLineDue, no_bytes, fed, after_next, IsFeedRefused, IsLineRefused, IsRefusedLeft};

use crate::faults::{FramingFault, LinesFault};
use crate::owned::Line;
use crate::search::{content_end, has_line};
use bytes::BytesMut;
use std::alloc::{AllocError, Global};
use std::marker::Model;

/// Room is made for that many bytes at least, since pieces may be as short as a byte.
const LEAST_ROOM: usize = 1_024;

/// Bytes on their way to lines. Contracts see the bytes that were fed and not handed out (`rest`), and the
/// fault that was met in them (`fault`).
///
/// A line ends with CR LF (I++ DME Interface version 1). It holds neither byte, and has at most 65,536 bytes
/// without its end (this profile). Lines before a fault are handed out first. From the fault on, `feed`,
/// `first_line` and `next_line` answer it, and the rest stays.
///
/// Inside, the first `searched` bytes of the rest are known to be free of CR and LF, so that none is searched
/// twice. The memory of what was taken is used again once no `Line` shares it. No caller sees this.
#[derive(Drop)]
pub struct Lines {
    buffer: BytesMut,
    searched: usize,
    fault: Option<FramingFault>,
}

impl Model for Lines {
    ghost use Rattle.line_framing.specs.Framing.{Framing};
    ghost use Rattle.line_framing.specs.Buffer.{IsKept};

    ghost Value = { Framing };

    ghost view = { λ l. record { rest = l.buffer.items; fault = l.fault } };

    ghost invariant = { λ l. IsKept l.buffer.items l.searched l.fault };
}

/// Reserves room for that many bytes more, or for more than that. Fails only if out of memory.
#[inline(never)]
fn grow(buffer: &mut BytesMut, count: usize) -> Result<(), AllocError>
    ensures items { buffer.new.items ≡ buffer.old.items }
    ensures room { OnOk result (count ≤ buffer.new.spare) }
{
    buffer.reserve(count.max(LEAST_ROOM))
}

#[inline(always)]
fn make_room(buffer: &mut BytesMut, count: usize) -> Result<(), AllocError>
    ensures items { buffer.new.items ≡ buffer.old.items }
    ensures room { OnOk result (count ≤ buffer.new.spare) }
{
    if count <= buffer.capacity() - buffer.len() {
        return Ok(());
    }
    grow(buffer, count)
}

impl Lines {
    /// An empty buffer, which has allocated nothing yet.
    pub fn new(alloc: Global) -> Lines
        ensures { result ≡ no_bytes }
    {
        Lines {
            buffer: BytesMut::new(alloc),
            searched: 0,
            fault: None,
        }
    }

    /// The bytes that were fed and not handed out.
    #[inline]
    pub fn rest(&self) -> &[u8]
        ensures { result.now ≡ self.now.rest }
    {
        self.buffer.as_slice()
    }

    /// The fault that `first_line` or `next_line` has met, if any. It is what is at the start of the rest.
    pub fn fault(&self) -> Option<FramingFault>
        ensures fault { result ≡ self.now.fault }
        ensures sound { IsSound self.now }
    {
        self.fault
    }

    /// Discards the rest and the fault, as at the end of a connection. It does not allocate, and keeps the memory that it has.
    pub fn clear(&mut self)
        ensures { self.new ≡ no_bytes }
    {
        self.buffer.clear();
        self.searched = 0;
        self.fault = None;
    }

    /// Appends a piece, however the stream is cut, to the rest. A bad byte in it is met by `next_line`.
    ///
    /// It answers the fault that was met, if any; `Memory` where room was wanting. After each the buffer is as
    /// before.
    #[tactic(auto, using(crate::proofs::Buffers::longer_content))]
    #[inline(always)]
    pub fn feed(&mut self, piece: &[u8]) -> Result<(), LinesFault>
        ensures kept { IfSome self.old.fault (λ fault. result ≡ Err (LinesFault.Framing fault)) }
        ensures ok { OnOk result (self.new ≡ fed self.old piece.now) }
        ensures clean { OnOk result (self.old.fault ≡ None) }
        ensures err { OnErr result (self.new ≡ self.old) }
        ensures cause { IfErr result (λ why. IsFeedRefused self.old why) }
        ensures sound { IsSound self.new }
    {
        if let Some(fault) = self.fault {
            return Err(LinesFault::Framing(fault));
        }
        make_room(&mut self.buffer, piece.len())?;
        match piece {
            // Lines may come byte by byte; one byte is written with no call.
            [byte] => self.buffer.extend_reserved(&[*byte]),
            _ => self.buffer.extend_reserved(piece),
        }
        Ok(())
    }

    /// How many bytes the first line at the start of the rest has without its CR LF; `None` if no whole line
    /// is there yet. The line stays, so that it can be read in place before `drop_line` takes it.
    ///
    /// It answers `LineTooLong` or `BadByte` where that is at the front, and keeps it. It does not allocate.
    #[inline(always)]
    pub fn first_line(&mut self) -> Result<Option<usize>, FramingFault>
        // The answer is what is at the start of the rest, and from a fault on the same fault.
        ensures found { IfOk result (λ found. MatchOption found (next_of self.old.rest ≡ Ok None)
            (λ n. next_of self.old.rest ≡ Ok (Some (
              take n self.old.rest,
              drop (n + 2) self.old.rest,
            )))) }
        ensures within { IfOk result (λ found. IfSome found (λ n. n + 2 ≤ length self.old.rest)) }
        ensures line { IfOk result (λ found. IfSome found (λ n. IsLine (take n self.old.rest))) }
        ensures fault { IfErr result (λ fault. next_of self.old.rest ≡ Err fault) }
        ensures kept { IfSome self.old.fault (λ fault. result ≡ Err fault) }

        // Nothing is taken, and the fault is kept from now on.
        ensures ok { OnOk result (self.new ≡ self.old) }
        ensures stays { IfSome self.old.fault (λ _. self.new ≡ self.old) }
        ensures err { OnErr result (self.new ≡ after_next self.old) }
        ensures sound { IsSound self.new }
    {
        if let Some(fault) = self.fault {
            return Err(fault);
        }
        self.searched = content_end(self.buffer.as_slice(), self.searched);
        match has_line(self.buffer.as_slice(), self.searched) {
            Ok(false) => Ok(None),
            Ok(true) => Ok(Some(self.searched)),
            Err(fault) => {
                self.fault = Some(fault);
                Err(fault)
            }
        }
    }

    /// Whether a whole line is at the start of the rest; if not, `first_line` reports what is there. It
    /// does not allocate.
    pub fn has_line(&self) -> bool
        ensures { IsTrue result ↔ IsLineDue (next_of self.now.rest) }
    {
        let rest = self.buffer.as_slice();
        let end = content_end(rest, self.searched);
        matches!(has_line(rest, end), Ok(true))
    }

    /// Takes the first line, of `length` bytes, and its CR LF off the start of the rest. The caller must ensure that
    /// such a line is there, as `first_line` answers. It does not allocate.
    #[tactic(auto, using(crate::proofs::Buffers::line_fits))]
    #[inline]
    pub fn drop_line(&mut self, length: usize)
        requires { next_of self.old.rest ≡ Ok (Some (
          take length self.old.rest,
          drop (length + 2) self.old.rest,
        )) }
        ensures dropped { self.new ≡ record self.old { rest = drop (length + 2) self.old.rest } }
        ensures taken { self.new ≡ after_next self.old }
        ensures sound { IsSound self.new }
    {
        let _in_memory = self.buffer.as_slice();
        self.buffer.advance(length + 2);
        self.searched = 0;
    }

    /// Takes the first line and its CR LF off the start of the rest; `None` if no whole line is there yet.
    ///
    /// It answers `LineTooLong` or `BadByte` where that is at the front, and keeps it. `Memory` comes where
    /// there was no room for the line; the buffer is then as before.
    pub fn next_line(&mut self) -> Result<Option<Line>, LinesFault>
        // The answer is what is at the start of the rest, and after a fault always that fault. Only taking
        // a whole line allocates.
        ensures line { IfOk result (λ found. IfSome found
            (λ line. next_of self.old.rest ≡ Ok (Some (line, self.new.rest)))) }
        ensures nothing { IfOk result (λ found. IfNone found (next_of self.old.rest ≡ Ok None)) }
        ensures refused { IfErr result (λ why. IsLineRefused (next_of self.old.rest) why) }
        ensures kept { IfSome self.old.fault (λ fault. result ≡ Err (LinesFault.Framing fault)) }

        // The line and its end are gone, or the fault is kept from now on, or nothing has changed.
        ensures stays { IfSome self.old.fault (λ _. self.new ≡ self.old) }
        ensures ok { OnOk result (self.new ≡ after_next self.old) }
        ensures err { IfErr result (λ why. IsRefusedLeft self.old self.new why) }
        ensures sound { IsSound self.new }
    {
        let length = match self.first_line() {
            Ok(Some(length)) => length,
            Ok(None) => return Ok(None),
            Err(fault) => return Err(LinesFault::Framing(fault)),
        };
        let line = Line::cut(&mut self.buffer, length)?;
        self.searched = 0;
        Ok(Some(line))
    }
}
