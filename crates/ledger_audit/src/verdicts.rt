// The result of an audit.

ghost use Rattle.std.specs.Prelude.{◌≡◌, [], ◌∷◌, ◌++◌};
ghost use Rattle.fixed_um.specs.Calls.{Leads};

use std::alloc::{AllocError, Global};
use std::marker::Model;

/// The numbers of the contacts at which runs begin, one for each feature, in the order of the features. Contracts see the list.
#[derive(Debug, Drop)]
pub struct Starts {
    numbers: Vec<u64>,
}

impl Model for Starts {
    ghost use Rattle.std.specs.Prelude.{ℕ, List};

    ghost Value = { List ℕ };

    ghost view = { λ s. s.numbers.items };
}

impl Starts {
    /// No starts yet; does not allocate.
    pub(crate) fn new(alloc: Global) -> Starts
        ensures { result ≡ [] }
    {
        Starts {
            numbers: Vec::new(alloc),
        }
    }

    /// Appends a start. Fails only if out of memory; the starts are then unchanged.
    pub(crate) fn push(&mut self, number: u64) -> Result<(), AllocError>
        ensures { Leads result self.old self.new (self.old ++ number ∷ []) }
    {
        self.numbers.push(number)?;
        Ok(())
    }

    /// The numbers, in the order of the features.
    pub fn as_slice(&self) -> &[u64]
        ensures { result.now ≡ self.now }
    {
        self.numbers.as_slice()
    }
}

/// What an audit finds (this profile).
#[derive(Debug, Drop)]
pub enum Verdict {
    /// Every feature has its run, and these are the numbers at which the runs begin, each the least possible. The first contact of a
    /// ledger has number 0.
    Starts(Starts),
    /// This many features, counted from the first, have no runs together, while all but the last of them have. At least one.
    NoRun(usize),
}
