// What two recordings are read for.

/// What is printed of two recordings.
#[derive(Clone, Copy, Debug, PartialEq, Eq)]
pub enum Job {
    /// What they report, as those of the connection of this number.
    Ledger(u64),
    /// Which line of either end first breaks a rule.
    Judge,
}
