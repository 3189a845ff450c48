//! The commands that a client has sent and whose end it has not read, with their tags (this profile).
//!
//! - `open_commands`: `Open`, the open commands on standard tags and on event tags
//! - `commands`: the open commands of one sort of tags, kept in a slab
//! - `marks`: what each mark does to the list of open commands of one sort of tags
//! - `drawing`: the tag that is drawn next
//! - `faults`, `endings`: what the calls answer
//! - `laws`: what they have to do with the client of `protocol_model`
//!
//! The definitions are those of `protocol_model`: the table of marks against stages, the next number, the first command of a tag.
#![tactic(auto)]

mod commands;
mod drawing;
mod endings;
mod faults;
pub mod laws;
mod marks;
mod open_commands;

pub use endings::Ended;
pub use faults::TagFault;
pub use open_commands::Open;
pub use protocol_model::Datum;
