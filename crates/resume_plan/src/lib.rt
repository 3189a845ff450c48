//! The plan of a client: the commands that measure what is left of a program, each with what it means.
//!
//! - `position`: where a plan begins: the steps that are left, and the tool and the frame that are selected before them
//! - `planning`: the commands from there on
#![tactic(auto)]

pub mod planning;
mod position;

pub use planning::{Commands, Planning, plan};
pub use protocol_model::{Does, Planned, Start};
