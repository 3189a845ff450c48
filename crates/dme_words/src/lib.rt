//! The command line of `dme` and what its words ask for. The command line is this profile's; the crate `clap` reads it.
//!
//! - `line`: the command line, as `clap` is given it
//! - `orders`: what words ask for; `misfits`: options that do not go together
//! - `examples`: rows of what they ask for
//! - `version`: which program this is
//! - `words`: which of these the words of a command line ask for, or why they ask for nothing; `values`: where a value is read
#![tactic(auto)]

pub mod examples;
mod folders;
mod line;
pub mod misfits;
pub mod orders;
mod values;
mod version;
pub mod words;

pub use misfits::{Lacks, Misfit};
pub use orders::{
    Audit, BatchSummary, Export, Judge, Ledger, Loop, Lower, Measured, Order, PartReport,
    RecordForm, Recorded, Review, Run, Service, Simulation, Subject, SummaryForm, Watch,
};
pub use version::{COMMIT, TOOLCHAIN, VERSION};
pub use words::{Wanted, WordsFault, read_words};
