// A port of a writer of std.
ghost use Rattle.std.specs.Prelude.{◌≡◌, false};

use crate::ports::{Failed, Sink};
use std::io::Write;

/// A sink over a writer. It reports the bytes that its writer reports.
///
/// A write that answers an error has failed, whatever its kind: one that was
/// interrupted is not made again (this profile). So has one that takes nothing
/// of bytes that are there. From then on the writer is left alone. Contracts
/// of std say nothing of when a writer answers an error, so that no other
/// cause makes this port fail is shown by tests. It never flushes: who owns
/// the writer does.
#[derive(Drop)]
pub struct Writing<W> {
    writer: W,
    has_failed: bool,
}

impl<W: Write> Writing<W> {
    /// A port of `writer` that has not failed.
    pub fn new(writer: W) -> Self
        ensures taken { ⟦<Writing<W> as Sink>⟧.taken result ≡ W.contents writer }
        ensures works { ⟦<Writing<W> as Sink>⟧.has_failed result ≡ false }
    {
        Writing {
            writer,
            has_failed: false,
        }
    }

    /// Gives the writer back.
    pub fn into_inner(self) -> W
        ensures { W.contents result ≡ ⟦<Writing<W> as Sink>⟧.taken self }
    {
        let Writing {
            writer,
            has_failed: _,
        } = self;
        writer
    }
}

impl<W: Write> Sink for Writing<W> {
    ghost taken = { λ s. W.contents s.writer };

    ghost has_failed = { λ s. s.has_failed };

    fn push(&mut self, bytes: &[u8]) -> Result<usize, Failed> {
        if self.has_failed {
            return Err(Failed);
        }
        match self.writer.write(bytes) {
            Ok(count) if count > 0 || bytes.is_empty() => Ok(count),
            _ => {
                self.has_failed = true;
                Err(Failed)
            }
        }
    }
}
