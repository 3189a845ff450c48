use std::alloc::{AllocError, AllocFailed};
use std::fmt;

/// Why a text gives no record (this profile).
#[derive(Clone, Copy, Debug, PartialEq, Eq)]
pub enum RecordFault {
    /// The line of this number, counted from 1, is the first that cannot be where it is.
    Damaged(u64),
    /// Out of memory. The call may be made again.
    Memory,
}

impl From<AllocError> for RecordFault {
    ghost use Rattle.std.specs.Prelude.{◌≡◌};
    ghost use Rattle.record_text.specs.declared.faults.RecordFault.TheVariants.{Memory};

    ghost from_gives = { λ _ e. e ≡ Memory };

    fn from(_error: AllocError) -> RecordFault {
        RecordFault::Memory
    }
}

impl<T: Drop> From<AllocFailed<T>> for RecordFault {
    ghost use Rattle.std.specs.Prelude.{◌≡◌};
    ghost use Rattle.record_text.specs.declared.faults.RecordFault.TheVariants.{Memory};

    ghost from_gives = { λ _ e. e ≡ Memory };

    fn from(_error: AllocFailed<T>) -> RecordFault {
        RecordFault::Memory
    }
}

impl fmt::Display for RecordFault {
    ghost use Rattle.std.specs.Prelude.{Some};
    ghost use Rattle.record_text.specs.Messages.{fault_text};

    ghost output = { λ fault. Some (fault_text fault) };

    fn fmt<W: fmt::Write>(&self, f: &mut fmt::Formatter<W>) -> fmt::Result {
        match self {
            RecordFault::Damaged(line) => write!(f, "J1 Damaged at line {line}"),
            RecordFault::Memory => f.write_str("out of memory"),
        }
    }
}
