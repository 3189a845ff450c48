//! The setup of a machine (this profile): the tools of its rack, the frames that a program may recall, and the shifts by which a
//! simulated machine misses what it is sent to.
//!
//! Also a machine's file: the options of `run` that are the same every day, as if they were typed; what is typed goes over them.
//!
//! - `setups`: `Setup` and `Rack`, read from a text
//! - `faults`: why a text is refused
//! - `entries`: what one line says
//! - `fields`: the fields of a line, here and in other texts of lines
//! - `positions`: positions within the machine's volume
//! - `laws`: what follows from the definitions
//! - `machines`: `Machine`, a machine's file, read from a text; `machine_entries`: what one of its lines says; `machine_faults`: why it is refused
//! - `words`: the words of a command line with those of a machine; `machine_examples`: literal rows of both
//!
//! What a text says is `setup_of` of specs/Setups.antt, a function of its lines: each line is judged by itself and by what the lines
//! above it said. The code keeps the setup so far instead.
#![tactic(auto)]

mod entries;
mod faults;
pub mod fields;
pub mod laws;
mod machine_entries;
pub mod machine_examples;
mod machine_faults;
mod machines;
pub mod positions;
mod setups;
mod words;

pub use faults::SetupFault;
pub use machine_faults::MachineFault;
pub use machines::Machine;
pub use setups::{Rack, Setup};
pub use words::{named_machine, names_option, with_machine};
