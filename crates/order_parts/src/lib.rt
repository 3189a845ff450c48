//! What the orders of `dme` over files and its sessions over a connection have in common. What is printed is this profile's.
//!
//! - `faults`: why an order was not carried out, how that is shown, and the exit status
//! - `plan`: the commands of a program on a new connection, as text; `pausing`: what a run holds back at texts for its operator
//! - `ends`, `ended`: the two ends of a connection and their reports; how it has ended, and what is shown of that; `calls`: why a server was
//!   not called, or has not answered
//! - `run_beginnings`, `run_endings`: what a run says before it connects, and last
#![tactic(auto)]

mod calls;
mod ended;
mod ends;
mod faults;
mod pausing;
mod plan;
mod run_beginnings;
mod run_endings;

pub use calls::{refused_call, unknown_host};
pub use ended::{ConnectionEnd, shown_break, status};
pub use ends::{end_report, ends_report, first_client, first_server, kept_client};
pub use faults::{FilesFault, OrderFault, Role};
pub use pausing::{TextPlace, pauses};
pub use plan::{first_lines, plan_text};
pub use run_beginnings::kept_text;
pub use run_endings::{Counts, LastLine, RunEnding, StopCause, feature_noun, last_line};
