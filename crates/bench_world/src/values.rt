// The points that all measured programs use, sums over what they see, and why nothing is printed.

use client_core::ClientFault;
use fixed_um::{Point, Um};
use line_framing::LinesFault;
use server_core::ServerFault;
use std::alloc::{AllocError, AllocFailed};

/// Why nothing is printed.
#[derive(Clone, Copy, Debug, PartialEq, Eq)]
pub(crate) enum Stop {
    /// The program does not know these words.
    Words,
    Memory,
    /// A call was refused that should have been carried out.
    Refused,
}

impl From<AllocError> for Stop {
    fn from(_error: AllocError) -> Stop {
        Stop::Memory
    }
}

impl<T: Drop> From<AllocFailed<T>> for Stop {
    fn from(_error: AllocFailed<T>) -> Stop {
        Stop::Memory
    }
}

/// A call was refused: for memory, or though it should have been carried out.
fn memory_or_refused(is_memory: bool) -> Stop {
    if is_memory {
        Stop::Memory
    } else {
        Stop::Refused
    }
}

impl From<ClientFault> for Stop {
    fn from(fault: ClientFault) -> Stop {
        memory_or_refused(fault == ClientFault::Memory)
    }
}

impl From<ServerFault> for Stop {
    fn from(fault: ServerFault) -> Stop {
        memory_or_refused(fault == ServerFault::Memory)
    }
}

impl From<LinesFault> for Stop {
    fn from(fault: LinesFault) -> Stop {
        memory_or_refused(fault == LinesFault::Memory)
    }
}

fn length(number: u64) -> Um {
    Um::new((number % 1_000_000) as i64).unwrap_or(Um::zero())
}

/// A point that differs from number to number.
pub(crate) fn place(number: u64) -> Point {
    Point {
        x: length(number),
        y: length(number / 3),
        z: length(number / 7),
    }
}

/// A sum in which the order counts.
pub(crate) fn summed(sum: u64, number: u64) -> u64 {
    sum.wrapping_mul(31).wrapping_add(number)
}

/// The sum with all these bytes.
pub(crate) fn summed_bytes(sum: u64, bytes: &[u8]) -> u64 {
    let mut sum = sum;
    for byte in bytes {
        sum = summed(sum, *byte as u64);
    }
    sum
}
