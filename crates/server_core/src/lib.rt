//! The server of a measuring machine: it reads command lines, lets commands wait, runs one at a time, and keeps a ledger of what was done
//! (I++ DME Interface version 1; cases and errors are this profile's).
#![tactic(auto)]

mod answers;
mod checks;
mod controller;
mod faults;
pub mod laws;
mod machining;
mod reading;
mod server;
mod turning;
mod view;

pub use answers::ANSWER_MAX;
pub use faults::ServerFault;
pub use protocol_model::{Job, Outcome};
pub use server::Server;
pub use view::View;
