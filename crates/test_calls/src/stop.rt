// Why the program ends early.

use client_core::ClientFault;
use contact_ledger::TextFault;
use dmis_program::ProgramFault;
use link_world::ScheduleFault;
use server_core::ServerFault;
use std::alloc::{AllocError, AllocFailed};
use std::io;
use tool_rack::SetupFault;

/// Why the program ends before the last row, or a row shows no answer.
#[derive(Clone, Copy, Debug, PartialEq, Eq)]
pub(crate) enum Stop {
    /// A line is not a row, or the head of its part is not one.
    Row,
    /// A port has failed.
    Port,
    /// The program is out of memory.
    Memory,
    /// Memory was short for a call that has changed nothing.
    Refused,
    /// Memory was short for a call, and its value is not as before.
    Changed,
    /// Memory was short for a call each time that it was made.
    ForEver,
}

/// What a function answers that writes what a row shows.
pub(crate) type Pushed = Result<(), Stop>;

impl From<AllocError> for Stop {
    fn from(_error: AllocError) -> Stop {
        Stop::Memory
    }
}

/// Only memory is written to by `write!`.
impl From<io::Error> for Stop {
    fn from(_error: io::Error) -> Stop {
        Stop::Memory
    }
}

impl<T: Drop> From<AllocFailed<T>> for Stop {
    fn from(_error: AllocFailed<T>) -> Stop {
        Stop::Memory
    }
}

/// A call that must succeed is refused: the program is out of memory, or the line is not a row.
fn memory_or_row(is_memory: bool) -> Stop {
    if is_memory { Stop::Memory } else { Stop::Row }
}

impl From<SetupFault> for Stop {
    fn from(fault: SetupFault) -> Stop {
        memory_or_row(fault == SetupFault::Memory)
    }
}

impl From<ProgramFault> for Stop {
    fn from(fault: ProgramFault) -> Stop {
        memory_or_row(fault == ProgramFault::Memory)
    }
}

impl From<ScheduleFault> for Stop {
    fn from(fault: ScheduleFault) -> Stop {
        memory_or_row(fault == ScheduleFault::Memory)
    }
}

impl From<TextFault> for Stop {
    fn from(fault: TextFault) -> Stop {
        memory_or_row(fault == TextFault::Memory)
    }
}

impl From<ClientFault> for Stop {
    fn from(fault: ClientFault) -> Stop {
        memory_or_row(fault == ClientFault::Memory)
    }
}

impl From<ServerFault> for Stop {
    fn from(fault: ServerFault) -> Stop {
        memory_or_row(fault == ServerFault::Memory)
    }
}
