//! What a server reported that it did, read from the lines that it and its client exchange. Both may be of other makers (this profile).
//!
//! Also whether the lines of both ends keep the rules of the I++ DME Interface, version 1, as this profile reads them, by two recordings of
//! one connection.
//!
//! - `lines`: `Use`, a line of a client, with what it asks for; `Known`, the changes that may hold for it; `Reported`, what is reported
//! - `asking`: what a line of a client asks for; `marks`: what a mark does to a command, and what it reports
//! - `known`, `uses`: what becomes of the changes of tool and frame that may hold, and of the lines that are open
//! - `dialogue`: `Dialogue`, the lines of both ends, one at a time; `witness`: `Witness`, their bytes, and bytes as lines; `writing`: the text
//! - `laws`: what follows for all lines, and for the whole course of a relay; `examples`: what is known after lines that are written out
//! - `told_ledger`: `ToldLedger`, what was reported, in order
//! - `told_fields`: the fields that only such a text has
//! - `told_lines`: what a line says
//! - `told_texts`: the text
//! - `runs`: the contacts that runs may be made of
//! - `auditing`: a text of contacts for an audit, of either kind
//! - `doubts`: which contacts have a tool or a frame that is not known, and on which connections the others are
//! - `told_laws`: what follows from the definitions
//! - `judgement`: `judge`, by two recordings and the order of their bytes (`orders`); `judgement_writing`: its text
//! - `judged_lines`, `reading`, `tables`: lines as a judge sees them, and the uses of tags; `rules`: the rules by name
//! - `client`, `server`, `course`, `counts`: the first line of either end that breaks a rule, and how many there are of each command
//! - `judgement_laws`, `judgement_examples`: what follows, and lines that are written out
#![tactic(auto)]

mod asking;
mod auditing;
mod client;
pub mod counts;
mod course;
mod dialogue;
mod doubts;
pub mod examples;
pub mod judged_lines;
pub mod judgement;
pub mod judgement_examples;
pub mod judgement_laws;
mod judgement_writing;
mod known;
pub mod laws;
pub mod lines;
mod marks;
mod orders;
mod reading;
pub mod rules;
mod runs;
mod server;
pub mod tables;
mod told_fields;
pub mod told_laws;
pub mod told_ledger;
mod told_lines;
mod told_texts;
mod uses;
mod witness;
mod writing;

pub use asking::{only_asks, sent};
pub use auditing::{is_told_file, read_audited};
pub use counts::KINDS;
pub use dialogue::{Dialogue, foreign_event};
pub use doubts::{Doubts, contact_connections, doubts_of, ends_runs};
pub use judged_lines::{Data, Heard, Mark, Reply, Sent, Severity};
pub use judgement::{Break, Judgement, judge};
pub use judgement_writing::write_judgement;
pub use lines::{Known, Reported, Rule, SentCommand, Side, Use};
pub use marks::is_end;
pub use orders::first_bytes;
pub use runs::run_contacts;
pub use told_ledger::ToldLedger;
pub use told_texts::read_told;
pub use witness::{Witness, cut_lines};
pub use writing::{HEADER, add_all, add_told};
