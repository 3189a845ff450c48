// The part that is measured.

ghost use Rattle.std.specs.Prelude.{◌≡◌, ◌↔◌, ◌≤◌, IsTrue, IfOk, length, true};
ghost use Rattle.record_text.specs.Names.{list_all, is_printed, IsPrinted, IsPart};

use std::alloc::{AllocError, Global};
use std::marker::Model;

/// The name of a part. Contracts see its bytes.
#[derive(Debug, Drop)]
pub(crate) struct Part {
    bytes: Vec<u8>,
}

impl Model for Part {
    ghost use Rattle.std.specs.Prelude.{ℕ, List};

    ghost Value = { List ℕ };

    ghost view = { λ p. p.bytes.items };
}

impl Part {
    pub(crate) fn new(alloc: Global, text: &[u8]) -> Result<Part, AllocError>
        ensures { IfOk result (λ part. part ≡ text.now) }
    {
        let bytes = Vec::from_slice(alloc, text)?;
        Ok(Part { bytes })
    }

    /// Its name.
    pub(crate) fn as_bytes(&self) -> &[u8]
        ensures { result.now ≡ self.now }
    {
        self.bytes.as_slice()
    }
}

fn is_printed(byte: u8) -> bool
    ensures { result ≡ is_printed byte }
{
    byte >= 32 && byte <= 126
}

fn are_printed(text: &[u8]) -> bool
    ensures { result ≡ list_all is_printed text.now }
{
    text.iter().all(|byte| is_printed(*byte))
}

/// Whether a text has from 1 to `most` bytes, all of them from 32 to 126.
pub(crate) fn is_text(text: &[u8], most: usize) -> bool
    ensures { IsTrue result ↔ IsPrinted most text.now }
{
    text.len() >= 1 && text.len() <= most && are_printed(text)
}

/// Whether a text names a part: 1 to 64 bytes from 32 to 126 (this profile).
pub fn is_part(text: &[u8]) -> bool
    ensures { IsTrue result ↔ IsPart text.now }
{
    is_text(text, 64)
}
