//! The program `dme`: DMIS inspection programs (ISO 22093) over the I++ DME Interface version 1. Its command line and what it prints
//! are this profile's.
//!
//! What an order does is in `dme_orders`, over ports. This is the edge, where files, sockets and the standard streams are those ports.
//!
//! - `running`: an order is carried out on files and the standard streams
//! - `connecting`: the order `loop`, over a connection of the process to itself; `tracing`: the lines of that connection
//! - `serving`: the orders that are sessions, with hands
//! - `exporting`: what was measured is printed, and what a refusal means
//! - `version`: which program this is
//! - `files`: the files that a command reads, as sources; `explaining`: what is shown for an order whose files are refused
//! - `faults`: what is printed on standard error, and the exit status
#![tactic(auto)]

mod connecting;
mod explaining;
mod exporting;
mod faults;
mod files;
mod progress;
mod running;
mod serving;
mod tracing;
mod version;

use std::fs::OpenOptions;
use std::os::fd::{AsRawFd, IntoRawFd};
use std::process::ExitCode;

/// Gives the null device to each of descriptors 0 to 2 that is closed, so that no file and no connection is taken for a standard stream.
/// Input can then not be read, nor the other two be written.
fn take_closed_streams(rt: &HostRuntime) {
    for number in 0..3 {
        let mut how = OpenOptions::new();
        how.read(number != 0).append(number == 0);
        let Ok(null) = how.open(rt, "/dev/null") else {
            return;
        };
        if null.as_raw_fd() == number {
            let _ = null.into_raw_fd();
        }
    }
}

fn main(rt: HostRuntime) -> ExitCode {
    take_closed_streams(&rt);
    match running::run(rt) {
        Ok(status) => ExitCode::from(status),
        Err(fault) => {
            let _ = eprint!(rt; "{fault}");
            ExitCode::from(fault.status())
        }
    }
}
