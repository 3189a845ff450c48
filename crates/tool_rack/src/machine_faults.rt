use std::alloc::{AllocError, AllocFailed};
use std::fmt;

/// Why a text gives no machine (this profile). The first line that is refused is answered, with its number; lines are counted from 1,
/// those that say nothing too.
#[derive(Clone, Copy, Debug, PartialEq, Eq)]
pub enum MachineFault {
    /// The line is not an option's word and a value in UTF-8.
    BadLine(u64),
    /// A line above has the same word.
    Twice(u64),
    /// A growth was refused. The call may be made again.
    Memory,
}

impl From<AllocError> for MachineFault {
    ghost use Rattle.std.specs.Prelude.{◌≡◌};
    ghost use Rattle.tool_rack.specs.declared.machine_faults.MachineFault.TheVariants.{Memory};

    ghost from_gives = { λ _ e. e ≡ Memory };

    fn from(_error: AllocError) -> MachineFault {
        MachineFault::Memory
    }
}

impl<T: Drop> From<AllocFailed<T>> for MachineFault {
    ghost use Rattle.std.specs.Prelude.{◌≡◌};
    ghost use Rattle.tool_rack.specs.declared.machine_faults.MachineFault.TheVariants.{Memory};

    ghost from_gives = { λ _ e. e ≡ Memory };

    fn from(_error: AllocFailed<T>) -> MachineFault {
        MachineFault::Memory
    }
}

impl fmt::Display for MachineFault {
    ghost use Rattle.std.specs.Prelude.{Some};
    ghost use Rattle.tool_rack.specs.MachineMessages.{fault_text};

    ghost output = { λ fault. Some (fault_text fault) };

    fn fmt<W: fmt::Write>(&self, f: &mut fmt::Formatter<W>) -> fmt::Result {
        match self {
            MachineFault::BadLine(line) => write!(f, "D1 BadLine at line {line}"),
            MachineFault::Twice(line) => write!(f, "D2 Twice at line {line}"),
            MachineFault::Memory => f.write_str("out of memory"),
        }
    }
}
