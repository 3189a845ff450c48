//! The statements of a DMIS text (ISO 22093), each with the number of the line on which it begins.
//!
//! A text is bytes. Its lines are cut off one by one (`line_ends`) and examined (`lines`): the comment is left out, blank lines count for
//! nothing, and a line that ends in `$` continues (`joined`). What was joined is cut into label, word and parameters
//! (`elements`, over the scans of `bytes`). `runs` passes over bytes that do not matter, sixteen at a time. `reading` hands the
//! statements out one by one, and refuses a line that is too long or has a byte that may not be there.
//!
//! What all of this means is said by `text_reading` of `specs/Reading.antt`, a function of the list of lines.
//! `laws` ties the functions of `specs/` to relations in the subject's own words.
#![tactic(auto)]

mod bytes;
mod elements;
mod joined;
pub mod laws;
mod line_ends;
mod lines;
mod reading;
mod runs;

pub use elements::{Params, Statement, Text};
pub use line_ends::cut_line;
pub use reading::{Statements, TextFault};
