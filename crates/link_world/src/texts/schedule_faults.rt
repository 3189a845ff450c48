// Why a text is not a schedule.

use std::alloc::{AllocError, AllocFailed};
use std::fmt;

/// Why a text gives no schedule (this profile). The first line that is refused is reported, with its number; lines are counted from 1,
/// including those that say nothing.
#[derive(Clone, Copy, Debug, PartialEq, Eq)]
pub enum ScheduleFault {
    /// The line has a space at its start or its end, or asks for nothing that a schedule can ask for: an unknown word, too many or too few
    /// fields, no number of one to ten digits if one is required, more than 1,000,000 quiet rounds, or a point that is not in the machine's
    /// volume.
    BadLine(u64),
    /// A growth was refused. The call may be made again.
    Memory,
}

impl From<AllocError> for ScheduleFault {
    ghost use Rattle.std.specs.Prelude.{◌≡◌};
    ghost use Rattle.link_world.specs.declared.texts.schedule_faults.ScheduleFault.TheVariants.{Memory};

    ghost from_gives = { λ _ e. e ≡ Memory };

    fn from(_error: AllocError) -> ScheduleFault {
        ScheduleFault::Memory
    }
}

impl<T: Drop> From<AllocFailed<T>> for ScheduleFault {
    ghost use Rattle.std.specs.Prelude.{◌≡◌};
    ghost use Rattle.link_world.specs.declared.texts.schedule_faults.ScheduleFault.TheVariants.{Memory};

    ghost from_gives = { λ _ e. e ≡ Memory };

    fn from(_error: AllocFailed<T>) -> ScheduleFault {
        ScheduleFault::Memory
    }
}

impl fmt::Display for ScheduleFault {
    ghost use Rattle.std.specs.Prelude.{Some};
    ghost use Rattle.link_world.specs.ScheduleTexts.{fault_text};

    ghost output = { λ fault. Some (fault_text fault) };

    fn fmt<W: fmt::Write>(&self, f: &mut fmt::Formatter<W>) -> fmt::Result {
        match self {
            ScheduleFault::BadLine(line) => write!(f, "H1 BadLine at line {line}"),
            ScheduleFault::Memory => f.write_str("out of memory"),
        }
    }
}
