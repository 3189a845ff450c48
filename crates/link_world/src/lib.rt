//! Both ends and the connections between them, as one value: a client with its program, a server with its setup, and the bytes that each
//! wrote and the other has not taken (this profile). One event after another happens to it.
//!
//! - `worlds`: a world and the events that happen to it
//! - `connections`: the driver of one connection: turns of a side over its ports, and machines
//! - `texts`: schedules, which are read, and reports, which are written
#![tactic(auto)]

pub mod connections;
pub mod texts;
pub mod worlds;

pub use connections::client_pump::client_turns;
pub use connections::joined::{
    a_pumped_client_holds_first_features, turns_of_a_client_are_events,
    turns_of_a_server_are_events, two_pumps_are_a_world,
};
pub use connections::link_runs::{LoopPorts, loop_link};
pub use connections::links::{LoopFault, run_link, serve_link};
pub use connections::machines::{Machine, Simulated};
pub use connections::pumps::{Moved, PIECE, PumpFault};
pub use connections::server_pump::serve_turns;
pub use connections::watching::Watcher;
pub use protocol_model::{Event, Outcome};
pub use texts::report_rows::contacts_are_numbered_as_they_were_made;
pub use texts::report_text::{write_contact_rows, write_report};
pub use texts::reports::{Contacts, Report, Reported, report_of};
pub use texts::schedule_faults::ScheduleFault;
pub use texts::schedules::{Instruction, Schedule};
pub use worlds::faults::{NewFault, WorldFault};
pub use worlds::finishing::{Quiet, quiet_run};
pub use worlds::laws::homed_servers_are_not_homed_again;
pub use worlds::traces::Trace;
pub use worlds::world::{RunCount, World};
