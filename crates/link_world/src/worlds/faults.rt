// Why an event is refused, and why there is no world.

ghost use Rattle.std.specs.Prelude.{◌≡◌};
ghost use Rattle.link_world.specs.Claims.{refused_by, refused_by_server};
ghost use Rattle.link_world.specs.declared.worlds.faults.WorldFault.TheVariants.{Memory};

use client_core::ClientFault;
use dmis_program::Program;
use server_core::ServerFault;
use std::alloc::AllocError;
use tool_rack::Setup;

/// Why an event did not happen; nothing has changed.
#[derive(Clone, Copy, Debug, PartialEq, Eq)]
pub enum WorldFault {
    /// It cannot happen now.
    NotNow,
    /// Out of memory.
    Memory,
}

/// Why there is no world.
#[derive(Drop)]
pub enum NewFault {
    /// The window is not from 1 to 16; the program and the setup are handed back.
    BadWindow(Program, Setup),
    /// Out of memory.
    Memory,
}

impl From<AllocError> for WorldFault {
    ghost from_gives = { λ _ given. given ≡ Memory };

    fn from(_: AllocError) -> WorldFault {
        WorldFault::Memory
    }
}

/// Why an event of the client did not happen, from the reason its call was refused.
impl From<ClientFault> for WorldFault {
    ghost from_gives = { λ fault given. given ≡ refused_by fault };

    fn from(fault: ClientFault) -> WorldFault {
        match fault {
            ClientFault::NotNow | ClientFault::Faulted(_) => WorldFault::NotNow,
            ClientFault::Memory => WorldFault::Memory,
        }
    }
}

/// Likewise for the server.
impl From<ServerFault> for WorldFault {
    ghost from_gives = { λ fault given. given ≡ refused_by_server fault };

    fn from(fault: ServerFault) -> WorldFault {
        match fault {
            ServerFault::Memory => WorldFault::Memory,
            _ => WorldFault::NotNow,
        }
    }
}
