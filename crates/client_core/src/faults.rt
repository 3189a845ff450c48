// Why a call of a client is refused.

ghost use Rattle.std.specs.Prelude.{◌≡◌};
ghost use Rattle.client_core.specs.declared.faults.ClientFault.TheVariants.{Memory};

use protocol_model::Cause;
use std::alloc::AllocError;

/// Why a call of a client is refused (this profile). The client is then as before, but for a call that meets its cause: that one takes
/// effect, and features and counted acts stay.
#[derive(Clone, Copy, Debug, PartialEq, Eq)]
pub enum ClientFault {
    /// C1: the call is not possible now.
    NotNow,
    /// C2: the client has left its connection for this cause. All calls but those that leave, restart or read the state answer it.
    Faulted(Cause),
    /// Running out of memory.
    Memory,
}

impl From<AllocError> for ClientFault {
    ghost from_gives = { λ _ given. given ≡ Memory };

    fn from(_: AllocError) -> ClientFault {
        ClientFault::Memory
    }
}

/// Why no client is made (this profile).
#[derive(Clone, Copy, Debug, PartialEq, Eq)]
pub enum NewFault {
    /// C3: the window is not from 1 to 16.
    BadWindow,
    /// C4: the kept features have not the labels and the counts of points of the first features of the program.
    NotOurs,
}
