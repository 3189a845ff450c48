// A port of a reader of std.
ghost use Rattle.std.specs.Prelude.{◌≡◌, false};

use crate::ports::{Failed, Source};
use std::io::Read;

/// A source over a reader. It reports the bytes that its reader reports.
///
/// A read that answers an error has failed, whatever its kind: one that was
/// interrupted is not made again (this profile). From then on the reader is
/// left alone. Contracts of std say nothing of when a reader answers an error,
/// so that no other cause makes this port fail is shown by tests.
#[derive(Drop)]
pub struct Reading<R> {
    reader: R,
    has_failed: bool,
}

impl<R: Read> Reading<R> {
    /// A port of `reader` that has not failed.
    pub fn new(reader: R) -> Self
        ensures left { ⟦<Reading<R> as Source>⟧.left result ≡ R.remaining reader }
        ensures works { ⟦<Reading<R> as Source>⟧.has_failed result ≡ false }
    {
        Reading {
            reader,
            has_failed: false,
        }
    }
}

impl<R: Read> Source for Reading<R> {
    ghost left = { λ s. R.remaining s.reader };

    ghost has_failed = { λ s. s.has_failed };

    fn pull(&mut self, buf: &mut [u8]) -> Result<usize, Failed> {
        if self.has_failed {
            return Err(Failed);
        }
        match self.reader.read(buf) {
            Ok(count) => Ok(count),
            Err(_) => {
                self.has_failed = true;
                Err(Failed)
            }
        }
    }
}
