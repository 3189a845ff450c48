//! A measurement program in DMIS (ISO 22093), read to what it commands, or refused with its first fault.
//!
//! - `programs`: `Program::read`, the features and the steps of a program
//! - `features`, `steps`: what they are made of; `offsets`: the stored frames that a program may recall
//! - `faults`: why a program is refused; `messages`: how that is printed
//! - `keywords`, `parameters`, `positions`: the words of a statement, its names and counts, its numerals
//! - `sayings`: what one statement says by itself; `reading`: what is carried from statement to statement
//! - `laws`: what follows from the definitions
//!
//! What a program means is said by `program_of` of specs/Meaning.antt. Before each statement it looks back in the text for the
//! selected tool, the selected frame and the open block (specs/LookBack.antt), decides which refusal is due (specs/Judging.antt)
//! and makes the step. The code carries the selections forward instead.
#![tactic(auto)]

mod faults;
mod features;
mod keywords;
pub mod laws;
mod messages;
mod offsets;
mod parameters;
mod positions;
mod programs;
mod reading;
mod sayings;
mod steps;

pub use faults::{ProgramFault, Refusal, StatementFault};
pub use features::{Touch, Touches, Wanted};
pub use keywords::{Keyword, keyword_of_word};
pub use offsets::Frames;
pub use programs::Program;
pub use reading::word_refusal;
pub use sayings::{StatementMeaning, said_of};
pub use steps::Step;
