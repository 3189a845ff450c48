// What a server reported, in order.

ghost use Rattle.std.specs.Prelude.{◌≡◌, [], ◌∷◌, ◌++◌};
ghost use Rattle.witness.specs.ToldNames.{Leads, last_number};

use crate::Reported;
use std::alloc::{AllocError, Global};
use std::marker::Model;

/// What a server reported, in order, each next to the number of its connection (this profile). Contracts see this list.
#[derive(Debug, Drop)]
pub struct ToldLedger {
    entries: Vec<(u64, Reported)>,
}

impl Model for ToldLedger {
    ghost use Rattle.std.specs.Prelude.{ℕ, List};
    ghost use Rattle.witness.specs.declared.lines.Reported.{Reported};

    ghost Value = { List (ℕ × Reported) };

    ghost view = { λ l. l.entries.items };
}

impl ToldLedger {
    pub(crate) fn new(alloc: Global) -> ToldLedger
        ensures { result ≡ [] }
    {
        ToldLedger {
            entries: Vec::new(alloc),
        }
    }

    pub(crate) fn push(&mut self, connection: u64, told: Reported) -> Result<(), AllocError>
        ensures { Leads result self.old self.new (self.old ++ (connection, told) ∷ []) }
    {
        self.entries.push((connection, told))?;
        Ok(())
    }

    pub(crate) fn last_number(&self) -> u64
        ensures { result ≡ last_number self.now }
    {
        self.entries.last().map_or(0, |entry| entry.0)
    }

    /// What was reported in order, each next to the number of its connection.
    pub fn entries(&self) -> &[(u64, Reported)]
        ensures { result.now ≡ self.now }
    {
        self.entries.as_slice()
    }
}
