ghost use Rattle.std.specs.Prelude.{◌≡◌};

use dmis_text::TextFault;
use fixed_um::NumeralFault;
use std::alloc::{AllocError, AllocFailed};

/// Why a program is refused (this profile, for ISO 22093). Of several reasons in one statement the first is answered
/// in the order that the statement's kind gives.
#[derive(Clone, Copy, Debug, PartialEq, Eq)]
pub enum Refusal {
    /// The first statement is not `DMISMN`, or there is no statement.
    NotDmis,
    /// The text ends without an `ENDFIL`.
    Truncated,
    /// A line has more than 4,096 bytes without its end.
    LineTooLong,
    /// A line has a byte that is not allowed there.
    BadByte,
    /// This profile does not read the statement.
    Unsupported,
    /// Wrong number or form of parameters, a label before a word that is not a definition, or a text that is not closed.
    BadArguments,
    /// A numeral is refused; of several the leftmost.
    BadNumeral(NumeralFault),
    /// The statement belongs in a measurement block, and none is open.
    OutsideBlock,
    /// The statement cannot be in a measurement block, and one is open.
    InsideBlock,
    /// A measurement block ends with fewer touches than it asks for.
    TooFewPoints,
    /// No frame of this name is stored.
    UnknownFrame,
    /// `UNITS` names a unit other than the millimetre.
    NotMillimetres,
    /// `MODE` does not name programmed mode.
    NoProgMode,
    /// A direction is zero in all components.
    ZeroVector,
    /// A touch is asked for before any tool is selected.
    NoTool,
    /// The program has more than 10,000 statements.
    TooLarge,
}

/// Why a text gives no program.
#[derive(Clone, Copy, Debug, PartialEq, Eq)]
pub enum ProgramFault {
    /// The first refusal in the text, and its line: that on which the statement begins, or the line that cannot be read.
    Refused(Refusal, u64),
    /// A growth was refused. The call may be made again.
    Memory,
}

impl From<TextFault> for ProgramFault {
    ghost use Rattle.std.specs.Prelude.{◌≡◌};
    ghost use Rattle.dmis_program.specs.Outcomes.{text_refused};

    ghost from_gives = { λ fault e. e ≡ text_refused fault };

    fn from(fault: TextFault) -> ProgramFault {
        match fault {
            TextFault::LineTooLong(line) => ProgramFault::Refused(Refusal::LineTooLong, line),
            TextFault::BadByte(line) => ProgramFault::Refused(Refusal::BadByte, line),
            TextFault::Memory => ProgramFault::Memory,
        }
    }
}

/// Why a statement gives nothing.
#[derive(Clone, Copy, Debug, PartialEq, Eq)]
pub enum StatementFault {
    /// It is refused.
    Refused(Refusal),
    /// A growth was refused. The call may be made again.
    Memory,
}

impl From<Refusal> for StatementFault {
    ghost use Rattle.std.specs.Prelude.{◌≡◌};
    ghost use Rattle.dmis_program.specs.declared.faults.StatementFault.TheVariants.{Refused};

    ghost from_gives = { λ refusal e. e ≡ Refused refusal };

    fn from(refusal: Refusal) -> StatementFault {
        StatementFault::Refused(refusal)
    }
}

impl From<AllocError> for StatementFault {
    ghost use Rattle.std.specs.Prelude.{◌≡◌};
    ghost use Rattle.dmis_program.specs.declared.faults.StatementFault.TheVariants.{Memory};

    ghost from_gives = { λ _ e. e ≡ Memory };

    fn from(_error: AllocError) -> StatementFault {
        StatementFault::Memory
    }
}

impl<T: Drop> From<AllocFailed<T>> for StatementFault {
    ghost use Rattle.std.specs.Prelude.{◌≡◌};
    ghost use Rattle.dmis_program.specs.declared.faults.StatementFault.TheVariants.{Memory};

    ghost from_gives = { λ _ e. e ≡ Memory };

    fn from(_error: AllocFailed<T>) -> StatementFault {
        StatementFault::Memory
    }
}

impl StatementFault {
    ghost use Rattle.dmis_program.specs.Outcomes.{fault_at};

    /// Likewise for a whole text, where the statement begins on this line.
    pub(crate) fn at(self, line: u64) -> ProgramFault
        ensures { result ≡ fault_at self line }
    {
        match self {
            StatementFault::Refused(refusal) => ProgramFault::Refused(refusal, line),
            StatementFault::Memory => ProgramFault::Memory,
        }
    }
}
