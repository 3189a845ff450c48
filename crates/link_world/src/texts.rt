//! Texts about worlds: schedules, which are read, and reports, which are written.
//!
//! - `schedules`, `schedule_rows`, `schedule_reading`, `schedule_faults`: instructions, their lines, and why a line is refused
//! - `reports`, `report_rows`, `report_text`: what a world shows, and its lines

pub mod report_rows;
pub(crate) mod report_text;
pub(crate) mod reports;
pub(crate) mod schedule_faults;
pub(crate) mod schedule_reading;
pub mod schedule_rows;
pub(crate) mod schedules;
