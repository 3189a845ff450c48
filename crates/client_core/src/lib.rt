//! The client of a measuring machine: it sends the plan of a program, counts what the server's lines report, and holds the measured
//! features (I++ DME Interface version 1; plan, states and tags are this profile's).
//!
//! - `client`: `Client`, with the bytes of its connection
//! - `executor`: what else it keeps, and its states
//! - `connecting`, `sending`, `lines`, `hearing`: what each call does to that
//! - `progress`: what is counted
//! - `ours`: whose features a client may keep
//! - `faults`: why a call is refused
//! - `laws`: what holds after every list of calls
#![tactic(auto)]

mod client;
mod connecting;
mod executor;
mod faults;
mod hearing;
mod laws;
mod lines;
mod ours;
mod progress;
mod sending;

pub use client::Client;
pub use faults::{ClientFault, NewFault};
pub use laws::whatever_the_peer_sends;
pub use protocol_model::{Cause, State};
pub use sending::LINE_MAX;
