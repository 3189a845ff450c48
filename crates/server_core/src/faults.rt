// Why a call of a server is refused.

use line_framing::FramingFault;
use std::alloc::AllocError;

/// Why a call of a server is refused (this profile). The server is then as before, but for a framing fault, which it keeps.
#[derive(Clone, Copy, Debug, PartialEq, Eq)]
pub enum ServerFault {
    /// V1: the call is not possible now.
    NotNow,
    /// V2: the bytes of the connection are no lines. `feed` and `read_one` answer it from then on until the connection is left.
    Framing(FramingFault),
    /// M1: nothing runs on the machine.
    NothingRuns,
    /// M2: what runs cannot end so.
    WrongOutcome,
    /// M3: a touched point is outside the machine's volume.
    OutOfVolume,
    /// Running out of memory.
    Memory,
}

impl From<AllocError> for ServerFault {
    ghost use Rattle.std.specs.Prelude.{◌≡◌};
    ghost use Rattle.server_core.specs.declared.faults.ServerFault.TheVariants.{Memory};

    ghost from_gives = { λ _ e. e ≡ Memory };

    fn from(_error: AllocError) -> ServerFault {
        ServerFault::Memory
    }
}
