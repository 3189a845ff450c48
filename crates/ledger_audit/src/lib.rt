//! The audit of a client's features against the contacts of a server: whether each feature is one unbroken run in the server's ledger.
//!
//! - `contacts`: the contacts of a ledger, with the numbers of their connections
//! - `probings`: what a contact that serves a touch has in common with it
//! - `shifts`: how far a search moves when a contact does not fit
//! - `runs`: where the first run of a feature begins
//! - `verdicts`: the verdict, and the numbers at which the runs begin
//! - `auditing`: the audit
//! - `laws`: that there is one verdict
//! - `rows`: examples of what a verdict says
//!
//! `Sound` of the protocol's definitions specifies when features are true of a ledger. specs/Verdicts.antt specifies what a verdict says.
#![tactic(auto)]

mod auditing;
mod contacts;
pub mod laws;
mod probings;
pub mod rows;
mod runs;
mod shifts;
mod verdicts;

pub use auditing::audit;
pub use verdicts::{Starts, Verdict};
