// Why bytes are refused, and what may be at their front instead of a line.

use std::alloc::AllocError;

/// Why no line is at the start of a framing buffer.
#[derive(Clone, Copy, Debug, PartialEq, Eq)]
pub enum FramingFault {
    /// More than 65,536 bytes stand before the next CR or LF, or before the end of what was fed (this profile).
    LineTooLong,
    /// LF without CR before it, or CR with a byte other than LF after it (this profile).
    BadByte,
}

/// Why a framing buffer takes no bytes, or hands out no line.
#[derive(Clone, Copy, Debug, PartialEq, Eq)]
pub enum LinesFault {
    /// What is at the front is not a line. The fault is kept.
    Framing(FramingFault),
    /// Memory was wanting. It is never kept: the buffer is as before, and the call may be made again.
    Memory,
}

impl From<AllocError> for LinesFault {
    ghost use Rattle.std.specs.Prelude.{◌≡◌};
    ghost use Rattle.line_framing.specs.declared.faults.LinesFault.TheVariants.{Memory};

    ghost from_gives = { λ _ e. e ≡ Memory };

    fn from(_error: AllocError) -> LinesFault {
        LinesFault::Memory
    }
}
