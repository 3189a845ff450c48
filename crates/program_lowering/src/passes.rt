// How often each line was passed.

ghost use Rattle.std.specs.Prelude.{◌≡◌, OnOk};
ghost use Rattle.program_lowering.specs.Carried as code;

use std::alloc::{AllocError, Global};
use std::collections::BTreeMap;
use std::marker::Model;

/// How often each line was passed.
#[derive(Drop)]
pub(crate) struct PassTable {
    /// The line of the last statement.
    last: Option<u64>,
    counts: BTreeMap<u64, u64>,
}

impl Model for PassTable {
    ghost use Rattle.program_lowering.specs.Carried.{PassCounts};

    ghost Value = { PassCounts };

    ghost view = { λ t. record { last = t.last; counts = t.counts.entries } };
}

impl PassTable {
    /// Before any statement.
    pub(crate) fn new(alloc: Global) -> PassTable
        ensures { result ≡ code.none_passed }
    {
        PassTable {
            last: None,
            counts: BTreeMap::new(alloc),
        }
    }

    /// The passes over a line.
    #[tactic(auto, unfolding(crate::specs::Carried::pass_of))]
    pub(crate) fn passes(&self, line: u64) -> u64
        ensures { result ≡ code.pass_of self.now line }
    {
        match self.counts.get(&line) {
            Some(count) => *count,
            None => 0,
        }
    }

    /// At a statement on a line.
    #[tactic(auto, unfolding(crate::specs::Carried::passed))]
    pub(crate) fn enter(&mut self, line: u64) -> Result<(), AllocError>
        ensures { OnOk result (self.new ≡ code.passed self.old line) }
    {
        match self.last {
            Some(last) if line == last => return Ok(()),
            _ => {}
        }
        let pass = self.passes(line).checked_add(1).ok_or(AllocError)?;
        self.counts.insert(line, pass)?;
        self.last = Some(line);
        Ok(())
    }
}
