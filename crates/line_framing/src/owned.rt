ghost use Rattle.std.specs.Prelude.{◌≡◌, ◌+◌, ◌≤◌, length, take, drop, IfOk, OnOk, OnErr};
ghost use Rattle.line_framing.specs.Content.{IsLine};

use bytes::{Bytes, BytesMut};
use std::alloc::AllocError;
use std::marker::Model;

/// A line of the wire without its end: at most 65,536 bytes, free of CR and LF. It owns its bytes, which stay
/// whatever becomes of the buffer that it was cut from. They lie in that buffer's memory, which is kept as long as
/// a line of it is; a caller that keeps few lines for long copies them.
#[derive(Debug, Drop)]
pub struct Line {
    bytes: Bytes,
}

impl Model for Line {
    ghost use Rattle.std.specs.Prelude.{ℕ, List};
    ghost use Rattle.line_framing.specs.Content.{IsLine};

    ghost Value = { List ℕ };

    ghost view = { λ line. line.bytes };

    ghost invariant = { λ line. IsLine line.bytes };
}

impl Line {
    /// Cuts the line of `count` bytes and its two bytes of CR LF off the start of a buffer. No byte is copied. The
    /// buffer is as before if there is no memory for the count of those that share it.
    pub(crate) fn cut(buffer: &mut BytesMut, count: usize) -> Result<Line, AllocError>
        requires fits { count + 2 ≤ length buffer.old.items }
        requires line { IsLine (take count buffer.old.items) }
        ensures line { IfOk result (λ line. line ≡ take count buffer.old.items) }
        ensures rest { OnOk result (buffer.new.items ≡ drop (count + 2) buffer.old.items) }
        ensures err { OnErr result (buffer.new ≡ buffer.old) }
    {
        let _in_memory = buffer.as_slice();
        let mut bytes = buffer.freeze_to(count + 2)?;
        bytes.truncate(count);
        Ok(Line { bytes })
    }

    /// The bytes of the line.
    #[inline]
    pub fn as_slice(&self) -> &[u8]
        ensures bytes { result.now ≡ self.now }
        ensures line { IsLine self.now }
    {
        self.bytes.as_slice()
    }
}
