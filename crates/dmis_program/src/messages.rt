// How the refusals of a program are printed (this profile).

ghost use Rattle.std.specs.Prelude.{◌≡◌};
ghost use Rattle.dmis_program.specs.Messages.{refusal_text};

use crate::faults::{ProgramFault, Refusal};
use fixed_um::NumeralFault;
use std::fmt;

/// The code and the name of a refusal, as `P2 Truncated`; a bad numeral also has its reason.
fn refusal_text(refusal: Refusal) -> &'static str
    ensures { result.now ≡ refusal_text refusal }
{
    match refusal {
        Refusal::NotDmis => "P1 NotDmis",
        Refusal::Truncated => "P2 Truncated",
        Refusal::LineTooLong => "P3 LineTooLong",
        Refusal::BadByte => "P4 BadByte",
        Refusal::Unsupported => "P5 Unsupported",
        Refusal::BadArguments => "P6 BadArguments",
        Refusal::BadNumeral(NumeralFault::NotNumeral) => "P7 BadNumeral (N1 NotNumeral)",
        Refusal::BadNumeral(NumeralFault::TooManyDigits) => "P7 BadNumeral (N2 TooManyDigits)",
        Refusal::BadNumeral(NumeralFault::TooLarge) => "P7 BadNumeral (N3 TooLarge)",
        Refusal::OutsideBlock => "P8 OutsideBlock",
        Refusal::InsideBlock => "P9 InsideBlock",
        Refusal::TooFewPoints => "P10 TooFewPoints",
        Refusal::UnknownFrame => "P11 UnknownFrame",
        Refusal::NotMillimetres => "P12 NotMillimetres",
        Refusal::NoProgMode => "P13 NoProgMode",
        Refusal::ZeroVector => "P14 ZeroVector",
        Refusal::NoTool => "P15 NoTool",
        Refusal::TooLarge => "P16 TooLarge",
    }
}

impl fmt::Display for Refusal {
    ghost use Rattle.std.specs.Prelude.{Some};
    ghost use Rattle.dmis_program.specs.Messages.{refusal_text};

    ghost output = { λ refusal. Some (refusal_text refusal) };

    fn fmt<W: fmt::Write>(&self, f: &mut fmt::Formatter<W>) -> fmt::Result {
        f.write_str(refusal_text(*self))
    }
}

impl fmt::Display for ProgramFault {
    ghost use Rattle.std.specs.Prelude.{Some};
    ghost use Rattle.dmis_program.specs.Messages.{fault_text};

    ghost output = { λ fault. Some (fault_text fault) };

    fn fmt<W: fmt::Write>(&self, f: &mut fmt::Formatter<W>) -> fmt::Result {
        match self {
            ProgramFault::Refused(refusal, line) => write!(f, "{refusal} at line {line}"),
            ProgramFault::Memory => f.write_str("out of memory"),
        }
    }
}
