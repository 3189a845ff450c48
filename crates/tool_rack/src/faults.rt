use std::alloc::{AllocError, AllocFailed};
use std::fmt;

/// Why a text gives no setup (this profile). The first line that is refused is answered, with its number; lines are counted from 1,
/// those that say nothing too. Of one line the form is examined first, then its numerals, then whether its name is there already.
#[derive(Clone, Copy, Debug, PartialEq, Eq)]
pub enum SetupFault {
    /// The line is not one of `TOOL name`, `FRAME name x y z`, `SHIFT dx dy dz`.
    BadLine(u64),
    /// A tool or a frame has the name of an earlier one.
    Twice(u64),
    /// A field that should be a numeral is not one, has too many digits, or is past the limit of the machine's volume.
    BadNumeral(u64),
    /// A growth was refused. The call may be made again.
    Memory,
}

impl From<AllocError> for SetupFault {
    ghost use Rattle.std.specs.Prelude.{◌≡◌};
    ghost use Rattle.tool_rack.specs.declared.faults.SetupFault.TheVariants.{Memory};

    ghost from_gives = { λ _ e. e ≡ Memory };

    fn from(_error: AllocError) -> SetupFault {
        SetupFault::Memory
    }
}

impl<T: Drop> From<AllocFailed<T>> for SetupFault {
    ghost use Rattle.std.specs.Prelude.{◌≡◌};
    ghost use Rattle.tool_rack.specs.declared.faults.SetupFault.TheVariants.{Memory};

    ghost from_gives = { λ _ e. e ≡ Memory };

    fn from(_error: AllocFailed<T>) -> SetupFault {
        SetupFault::Memory
    }
}

impl fmt::Display for SetupFault {
    ghost use Rattle.std.specs.Prelude.{Some};
    ghost use Rattle.tool_rack.specs.Messages.{fault_text};

    ghost output = { λ fault. Some (fault_text fault) };

    fn fmt<W: fmt::Write>(&self, f: &mut fmt::Formatter<W>) -> fmt::Result {
        match self {
            SetupFault::BadLine(line) => write!(f, "S1 BadLine at line {line}"),
            SetupFault::Twice(line) => write!(f, "S2 Twice at line {line}"),
            SetupFault::BadNumeral(line) => write!(f, "S3 BadNumeral at line {line}"),
            SetupFault::Memory => f.write_str("out of memory"),
        }
    }
}
