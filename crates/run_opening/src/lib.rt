//! The command `run` up to the call of its server, as a session, which decides and touches nothing (this profile).
//!
//! - `stages`: where it is; `openings`: what it asks, and what it does with an answer
//! - `naming`: the files that it names, which may not meet; `holding`: those that it locks before it reads any
//! - `reading`: what it reads, and understands; `records`: the record that it continues; `firsts`: features that it gives back
//! - `noting`: what its record notes of it
//! - `clients`: its client, and what it says before its server is called; `confirming`: the answer to it
//! - `sayings`: what it says; `refusing`: how it ends, if nothing is begun
//! - `laws`: the run that is begun; `examples`: of what is known at its stages
//! - `running`: the session with hands that carry its effects out, and then the run itself
#![tactic(auto)]

mod clients;
mod confirming;
pub mod examples;
mod firsts;
mod holding;
mod laws;
mod naming;
mod noting;
mod openings;
mod reading;
mod records;
mod refusing;
mod running;
mod sayings;
mod stages;

pub use laws::ready_runs_begin;
pub use openings::Opening;
pub use running::run;
pub use sayings::lacking_lines;
pub use stages::Stage;
