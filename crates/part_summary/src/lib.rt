//! Statistics over the parts of a batch: how far each touch of a program was measured from its target, over the records of its parts. What
//! is printed is this profile's.
//!
//! - `sums`: what is kept of the deviations of a touch
//! - `summary`: `Summary`, which counts records one after the other
//! - `spans`, `plots`: what is kept of each part for a run chart
//! - `texts`: a summary as text; `tables`: as comma-separated values; `charts`, `pages`: as a page; `printed`: in a form
//! - `examples`: batches that are written out
#![tactic(auto)]

mod charts;
pub mod examples;
mod pages;
mod plots;
mod printed;
mod spans;
mod summary;
mod sums;
mod tables;
mod texts;

pub use printed::{Form, Printed};
pub use summary::Summary;
pub use texts::uncounted_line;
