//! What stands between a DMIS program (ISO 22093) and its run, all at once, and the report on it.
//!
//! Also what each refusal of `dme` means and what to do about it: the codes of this profile, and the numbers of a server's errors. For a text
//! that is refused, also its line and the word at fault.
//!
//! - `readings`: a program's text, read once; `said`: what its statements say by themselves
//! - `refusals`: every refusal of a text; `standing`: what is carried from statement to statement
//! - `notices`: statements that are passed over though they change something
//! - `odd`: statements that are probably not meant as they are written
//! - `under_setup`: what a setup lacks for a program; `recalling`: the frames of a setup that it does not recall
//! - `groups`: what refused statements are for; `taking`: whether `dme lower` takes them
//! - `travels`: the straight travels from feature to feature, and the touches that would be measured elsewhere without refused statements
//! - `variables`: the names that statements declare or assign, and the moves that are refused for one
//! - `remarks`: all of this, in the order of the program's lines
//! - `walking`: the remarks with their sentences; `sentences`: those on statements; `summary`: those on groups
//! - `printing`: findings as lines or as JSON; `reports`: the report of a program's text under a setup
//! - `tasks`: the statements that a client carries out by commands, and their lines
//! - `texts`: texts for the operator, and what a run holds back at them
//! - `topics`: what is refused by a code: what it means, what to do, and a line as it should be
//! - `places`: the line of a text that is refused, with a sentence on it, or the sentence by itself
//! - `lines`, `words`: a line and a word as they are shown
//! - `causes`: why a text is refused, and how it is said
//! - `programs`: why a program is refused; `statements`, `blocks`, `bad_bytes`: what that is about; `arguments`, `numerals`, `bad_names`: why
//!   a parameter does not fit
//! - `fields`: lines of fields, and the sentences of setups, limits and schedules; `ledgers`, `records`: those of the other texts
//! - `strangers`: why a record is of another part or program; `touches`: in what two touches differ
//! - `audits`: what an audit found
//! - `laws`: what follows from the definitions; `examples`: places and causes that are written out
#![tactic(auto)]

mod arguments;
mod audits;
mod bad_bytes;
mod bad_names;
mod blocks;
mod causes;
pub mod examples;
mod fields;
mod files;
mod groups;
pub mod laws;
mod ledgers;
mod lines;
mod notices;
mod numerals;
mod odd;
mod places;
mod printing;
mod programs;
mod readings;
mod recalling;
mod records;
mod refusals;
mod remarks;
mod reports;
mod said;
mod sentences;
mod standing;
mod statements;
mod strangers;
mod summary;
mod taking;
mod tasks;
mod texts;
mod topics;
mod touches;
mod travels;
mod under_setup;
mod variables;
mod walking;
mod words;

pub use audits::write_audit;
pub use files::{InputFile, InputFiles, place_of, shown_fault};
pub use groups::Group;
pub use notices::Passed;
pub use odd::Odd;
pub use places::write_place;
pub use printing::{FindingForm, FindingStyle};
pub use programs::{Passage, write_sentence};
pub use readings::{Reading, read};
pub use remarks::{Remark, What};
pub use reports::{Report, ReviewTexts, review_report};
pub use strangers::{write_other_part, write_other_program};
pub use taking::{Choice, Taken};
pub use tasks::{Task, TaskLine, command_lines, task_lines};
pub use texts::{OperatorText, Waits, operator_texts, text_places};
pub use topics::{Topic, write_page};
pub use travels::{Stop, Travel};
pub use under_setup::{Lack, lacking_for};
