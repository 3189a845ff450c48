//! How far measured points lie from the nominal points of a program.
//!
//! - `along`: a deviation, and its part along the normal of the surface
//! - `rows`: the measured points of features, with the touches that asked for them and how far they lie from their targets
//! - `judged`: whether points are within limits; `compared`: the worst of each feature, and how many are out
//! - `records`: the table as comma-separated values; `objects`: as JSON; `printed`: how values are printed
//! - `styles`: what stands between fields and before decimals, and what rows say first
//! - `forms`: the forms in which results are printed; the crate `drawings` makes the drawing
//! - `faults`: why there is no table
//! - `limits`: `Limits`, read from a text, and the range for a feature
//! - `ranges`: whether a deviation is within its limit
//! - `limit_faults`: why a text is refused
//! - `entries`: what one line says
//! - `examples`: literal rows
#![tactic(auto)]

pub mod along;
mod compared;
mod entries;
pub mod examples;
mod faults;
pub mod forms;
mod judged;
mod limit_faults;
mod limits;
mod objects;
mod printed;
mod ranges;
mod records;
pub mod rows;
pub mod styles;

pub use along::{Deviation, along_normal, one_length_is_along};
pub use compared::{compared_count, first_rows, later_rows, limit_lines, out_count, worst_words};
pub use entries::is_in_micrometres;
pub use faults::RowsFault;
pub use forms::Form;
pub use judged::{row_verdict, verdict_word};
pub use limit_faults::LimitsFault;
pub use limits::Limits;
pub use objects::write_json;
pub use printed::Micrometres;
pub use ranges::{Range, Verdict};
pub use records::write_csv;
pub use rows::{Row, rows_of};
pub use styles::{DecimalSign, RowsOf, Separator, TableOptions, TableStyle, style_of};
