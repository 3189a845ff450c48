// The entries of a record.

ghost use Rattle.std.specs.Prelude.{◌≡◌, IfOk};

use crate::notes::Note;
use contact_ledger::Act;
use fixed_um::Name;
use std::alloc::{AllocError, Global};
use std::marker::Model;

/// What a note says: bytes from 32 to 126, as they were read. Contracts see the bytes.
#[derive(Debug, Drop)]
pub struct Printed {
    bytes: Vec<u8>,
}

impl Model for Printed {
    ghost use Rattle.std.specs.Prelude.{ℕ, List};

    ghost Value = { List ℕ };

    ghost view = { λ r. r.bytes.items };
}

impl Printed {
    /// A copy of these bytes. Fails only if out of memory.
    pub fn new(alloc: Global, text: &[u8]) -> Result<Printed, AllocError>
        ensures { IfOk result (λ printed. printed ≡ text.now) }
    {
        let bytes = Vec::from_slice(alloc, text)?;
        Ok(Printed { bytes })
    }

    /// The bytes.
    pub fn as_bytes(&self) -> &[u8]
        ensures { result.now ≡ self.now }
    {
        self.bytes.as_slice()
    }
}

/// What a line of a record after its head says (this profile), with the number of its connection.
#[derive(Debug, Drop)]
pub enum Entry {
    /// An act that the server reported, as it was counted.
    Told(u64, Act),
    /// An error that the server reported, or something else besides acts.
    Noted(u64, Note, Printed),
    /// The wanted feature of this label is complete: its points are those of the last contacts before this line.
    Completed(u64, Name),
}
