//! Which statements of a DMIS program (ISO 22093) are carried out, and in what order.
//!
//! Also the values of their variables: exact numbers, expressions, assignments and names in texts.
//!
//! - `conditions`: whether a condition holds; `blocks`: where blocks end and labels are; `selections`: which branch of a SELECT is
//!   carried out; `turns`: what follows at a statement
//! - `macros`: the macros of a text, and what their parameters stand for; `arguments`, `lines`: the statements of a macro that is called;
//!   `calls`: what follows at a statement where macros are called; `positions`: where the flow is
//! - `flow`: `Flow`, the statements in the order in which they are carried out
//! - `faults`: why an expression or a statement has no value
//! - `numbers`: `Number`, a fraction in lowest terms, and its arithmetic; `roots`: `SQRT`; `angles`: sines, cosines, tangents, units of angles
//! - `places`: where the operators of an expression are; `parts`: what it is made of; `numerals`; `values`: `value_of`
//! - `kinds`: what variables take; `pieces`: texts of letters; `variables`: `Variables`, the table of what was assigned; `texts`: `expanded`,
//!   names in texts
#![tactic(auto)]

mod angles;
mod arguments;
mod blocks;
pub mod call_examples;
mod calls;
mod conditions;
pub mod examples;
mod faults;
mod flow;
mod kinds;
mod lines;
mod macros;
mod numbers;
mod numerals;
mod parts;
mod pieces;
mod places;
mod positions;
mod roots;
mod selections;
mod texts;
mod turns;
pub mod value_examples;
mod values;
mod variables;

pub use angles::{cosine, in_radians, sine};
pub use faults::ValueFault;
pub use flow::{Flow, Given, is_lead, is_of_flow};
pub use kinds::is_declaration;
pub use numbers::Number;
pub use texts::{expanded, has_names};
pub use values::{has_value, is_text, push_computed, value_of};
pub use variables::Variables;
