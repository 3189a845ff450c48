//! The commands that wait at a measuring machine's server until their turn comes.
//!
//! - `queue`: `Queue`, at most 64 of them, in the order in which they came
//! - `laws`: what follows for lists of calls
#![tactic(auto)]

pub mod laws;
mod queue;

pub use protocol_model::{Misread, Waiting};
pub use queue::{PLACES, Queue};
