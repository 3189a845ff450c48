//! The record of a run: what was asked, what the server reported, and which features were completed, as one text that only grows. It is
//! written line by line during a run, as the client counts, and read back before the next run, which trusts nothing in it.
//!
//! Its seals: each stands for all lines above it, and only who has the key can make it.
//!
//! What was reported to a client, whatever its peer sends, and what a record says about its run, over all calls of the client: what the
//! client holds and what was reported to it, neither more nor less; and that killed runs lose nothing. These are laws, without code.
//!
//! - `entries`: `Entry`, what a line after the head says, and `Printed`, what a note says
//! - `notes`: what notes are about, and what they can say
//! - `parts`, `asked`: the part and the wanted features of a head
//! - `heads`, `head_reading`, `touch_reading`: the head, line by line
//! - `entry_reading`, `bodies`, `runs`: the entries, line by line, and what they leave
//! - `run_errors`: the errors that were reported during the run of a feature
//! - `records`, `record_reading`: `Record`, and reading it
//! - `strangers`: whether a record is that of a part and a program
//! - `opening`: what a record's text gives a run to continue from, or why the run may not continue it
//! - `versions`: `Version`, and the first line
//! - `head_writing`, `telling`, `note_writing`: writing
//! - `growth`: the text of a record that grows during a run
//! - `faults`: why a record is refused
//! - `laws`: what follows from the definitions
//! - `seals`: the seal of a text, which lines of a record seals stand for, and the verdict on them; `macs`: HMAC over SHA-256
//! - `seal_examples`: lines and texts with and without seals
//! - `specs/Told.antt`: the acts that calls of a client count, in order
//! - `specs/Recordings.antt`: a record that is written while it follows a client
//! - `specs/Runs.antt`: runs over one file, each killed at any moment
//! - `specs/Worlds.antt`: what is reported to the client of a world by events
//! - `run_laws`: what holds after every list of calls, after any number of runs, and in a world
//! - `run_examples`: what calls report, and what is written, for clients that are written out
#![tactic(auto)]

pub mod asked;
mod bodies;
mod comparing;
pub mod entries;
mod entry_reading;
mod faults;
mod growth;
mod head_reading;
mod head_writing;
mod heads;
pub mod laws;
mod macs;
mod note_writing;
pub mod notes;
mod opening;
mod parts;
mod record_reading;
mod records;
pub mod run_errors;
pub mod run_examples;
mod run_laws;
mod runs;
pub mod seal_examples;
pub mod seals;
mod strangers;
pub mod telling;
mod touch_reading;
mod versions;

pub use asked::Asked;
pub use entries::{Entry, Printed};
pub use faults::RecordFault;
pub use growth::Growth;
pub use head_writing::write_head;
pub use note_writing::{write_note, write_refused};
pub use notes::{Note, can_say};
pub use opening::{Beginning, RecordRefusal, begin_record};
pub use parts::is_part;
pub use record_reading::read_record;
pub use records::Record;
pub use run_errors::{Remark, RunError};
pub use run_laws::{
    held_features_are_true_of_what_was_told, killed_runs_lose_nothing, records_say_what_was_told,
    reported_acts_were_done,
};
pub use seals::{SealVerdict, digest_of, false_seal, open_line, seal_of, seal_verdict};
pub use strangers::{is_of_part, other_feature};
pub use telling::Telling;
pub use versions::Version;
