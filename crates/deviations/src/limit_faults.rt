use std::alloc::{AllocError, AllocFailed};
use std::fmt;

/// Why a text gives no limits (this profile). The first line that is refused is answered, with its number; lines are counted from 1,
/// those that say nothing too. Of one line the form is examined first, then whether its range is empty, then whether its label is
/// there already.
#[derive(Clone, Copy, Debug, PartialEq, Eq)]
pub enum LimitsFault {
    /// The line is not `LIMIT label lower upper`, with a label or `*` and two numerals of at most three decimals.
    NotLimit(u64),
    /// A line above has the same label, or is of `*` too.
    Twice(u64),
    /// The lower limit is greater than the upper one.
    EmptyRange(u64),
    /// A growth was refused. The call may be made again.
    Memory,
}

impl From<AllocError> for LimitsFault {
    ghost use Rattle.std.specs.Prelude.{◌≡◌};
    ghost use Rattle.deviations.specs.declared.limit_faults.LimitsFault.TheVariants.{Memory};

    ghost from_gives = { λ _ e. e ≡ Memory };

    fn from(_error: AllocError) -> LimitsFault {
        LimitsFault::Memory
    }
}

impl<T: Drop> From<AllocFailed<T>> for LimitsFault {
    ghost use Rattle.std.specs.Prelude.{◌≡◌};
    ghost use Rattle.deviations.specs.declared.limit_faults.LimitsFault.TheVariants.{Memory};

    ghost from_gives = { λ _ e. e ≡ Memory };

    fn from(_error: AllocFailed<T>) -> LimitsFault {
        LimitsFault::Memory
    }
}

impl fmt::Display for LimitsFault {
    ghost use Rattle.std.specs.Prelude.{Some};
    ghost use Rattle.deviations.specs.LimitMessages.{fault_text};

    ghost output = { λ fault. Some (fault_text fault) };

    fn fmt<W: fmt::Write>(&self, f: &mut fmt::Formatter<W>) -> fmt::Result {
        match self {
            LimitsFault::NotLimit(line) => write!(f, "M1 NotLimit at line {line}"),
            LimitsFault::Twice(line) => write!(f, "M2 Twice at line {line}"),
            LimitsFault::EmptyRange(line) => write!(f, "M3 EmptyRange at line {line}"),
            LimitsFault::Memory => f.write_str("out of memory"),
        }
    }
}
