//! A DMIS program (ISO 22093) as departments have it, made flat: the same features and steps in the statements that `dmis_program` reads.
//!
//! - `texts`: what words and parameters are
//! - `words`: the words that a flat program does not have, and why each is left out
//! - `flats`: the statement that is written for one that commands something
//! - `lines`: the line that is written of a statement; texts for the operator are written as they are read
//! - `inches`: what a statement says whose lengths are in inches
//! - `manual`: what is left to the operator
//! - `stored`: frames of the setup in place of alignments
//! - `prompts`: answers to what a program asks for
//! - `values`: statements with the values of variables; `labels`: the names that these compose; `cartesian`: and with Cartesian coordinates
//! - `even`: the touches that a block is given
//! - `heads`: the comments before a flat program
//! - `above`: what the statements above leave for the one that is judged; `passes`: how often each line was passed
//! - `lowering`: `lower`, the flat program of a text, or its first refusal; `laws`: what follows from the definitions
//!
//! What a program stands for is said by `lowered_meaning`, `flat_program` and `notes_of` of specs/Lowering.antt.
#![tactic(auto)]

mod above;
mod cartesian;
mod even;
mod flats;
mod heads;
mod inches;
mod labels;
pub mod laws;
mod lines;
mod lowering;
mod manual;
pub mod near_laws;
mod passes;
mod prompts;
mod stored;
mod texts;
mod values;
mod words;

pub use heads::SourceNames;
pub use lowering::{Lowered, lower};
pub use manual::{is_skipped, manual_after};
pub use prompts::{Answer, asked};
pub use stored::selects_frame;
pub use texts::{begins_with, is_among, is_operator_text, without_cart};
pub use words::{Choices, Reason, left_out};
