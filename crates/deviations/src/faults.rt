// Why there is no table.

ghost use Rattle.std.specs.Prelude.{◌≡◌};
ghost use Rattle.deviations.specs.declared.faults.RowsFault.TheVariants.{Memory};

use std::alloc::{AllocError, AllocFailed};

/// Why features have no table of deviations (this profile).
#[derive(Clone, Copy, Debug, PartialEq, Eq)]
pub enum RowsFault {
    /// They are not the first features of the program, by labels and counts of points.
    NotOurs,
    /// Out of memory.
    Memory,
}

impl From<AllocError> for RowsFault {
    ghost from_gives = { λ _ given. given ≡ Memory };

    fn from(_: AllocError) -> RowsFault {
        RowsFault::Memory
    }
}

impl<T: Drop> From<AllocFailed<T>> for RowsFault {
    ghost from_gives = { λ _ given. given ≡ Memory };

    fn from(_: AllocFailed<T>) -> RowsFault {
        RowsFault::Memory
    }
}
