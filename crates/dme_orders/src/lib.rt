//! The orders of the program `dme` over ports: each is a function that is proved for every source, sink, file and watcher, whatever they
//! are. This crate knows nothing of files, sockets and the command line. What the orders print is this profile's.
//!
//! - `orders`: a program is checked under a setup, if one is named
//! - `reading`: the files of an order are read and understood
//! - `simulating`: a program is run by a schedule on a simulated machine
//! - `auditing`: a client's features are judged by a server's contacts
//! - `exporting`: what was measured is put next to what a program asks for; `explaining`: what a refusal means
//! - `of_records`: a record is audited and exported; `missing`: which features were not measured; `run_errors`: what the
//!   server reported meanwhile
//! - `reporting`: the page of a part; `attempts`: of which features an attempt was discarded
//! - `digests`: by what an auditor knows the files and the part that were judged
//! - `notes`: what an audit found, and in what a record differs from a program, besides what an order prints
//! - `preparing`: the files of an order over a connection are read before there is one
//! - `looping`: a program is run over one connection between both ends
//! - `lowering`: a program is made flat
//! - `check`: the command lines of a program, from any reader to any writer
//! - `reviewing`: everything that stands between a program and its run is listed
//! - `verdicts`: the verdict of an audit as a line, and its exit status
#![tactic(auto)]

mod attempts;
mod auditing;
mod check;
mod digests;
mod explaining;
mod exporting;
mod looping;
mod lowering;
mod missing;
mod notes;
mod of_records;
mod orders;
mod preparing;
mod reading;
mod reporting;
mod reviewing;
mod run_errors;
mod run_notes;
mod simulating;
mod verdicts;

pub use auditing::{AuditFiles, audit_files};
pub use check::{CheckFault, check_plan};
pub use digests::{Judged, JudgedLine};
pub use explaining::explain;
pub use exporting::{ExportFiles, Exported, export_files};
pub use looping::{LoopTask, loop_over};
pub use lowering::lower_program;
pub use missing::Missing;
pub use notes::{audit_notes, other_program_notes};
pub use of_records::{
    RecordFiles, RecordNotes, RecordText, audit_record, export_record, of_program,
};
pub use orders::check_under_setup;
pub use preparing::setup_and_program;
pub use reading::{
    named_limits, named_setup, program_under, read_key, read_machine, read_setup, record_from,
    sealed_from,
};
pub use reporting::report_record;
pub use reviewing::review_program;
pub use simulating::{SimulationFiles, simulate};
pub use verdicts::write_verdict;
