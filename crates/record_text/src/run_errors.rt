// Errors that a server reported during the run of a feature.

use crate::entries::Printed;
use crate::notes::Note;
use fixed_um::Name;

/// An error that a server reported, and how many contacts it had reported before.
#[derive(Debug, Drop)]
pub struct Reported {
    pub contacts: u64,
    pub text: Printed,
}

/// An error that a server reported during the run of a completed feature: after the first contact of the run and before `COMPLETED`.
#[derive(Debug, Drop)]
pub struct RunError {
    /// The label of the feature.
    pub label: Name,
    /// What is kept of the error, from its tag on.
    pub text: Printed,
}

/// Another note of a record: what it is about and what it says, the number of its connection, and how many features were complete above it.
#[derive(Debug, Drop)]
pub struct Remark {
    pub connection: u64,
    pub features: u64,
    pub note: Note,
    pub text: Printed,
}
