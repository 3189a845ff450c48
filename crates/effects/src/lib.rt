//! What a command of `dme` asks of the outside, one thing at a time, and what comes of it (this profile).
//!
//! One session is here, too: the files that one call names are looked for and compared. None that is written may be another.
//!
//! - `vocabulary`: the effects and the answers
//! - `hands`: what carries effects out
//! - `came`: an answer that owns its bytes
//! - `called`: a file with its place, and whether two of them meet; `files`: the names of those of a call
//! - `comparisons`: those of a call are looked for and compared, as a session, which decides and touches nothing
//! - `examples`: of files that meet
#![tactic(auto)]

mod called;
mod came;
pub mod comparisons;
pub mod examples;
mod files;
mod hands;
mod vocabulary;

pub use called::{Called, is_beside, met, refusal};
pub use came::Came;
pub use comparisons::{Comparison, Stage, bytes_of, kept};
pub use files::NamedFiles;
pub use hands::Hands;
pub use vocabulary::{Answer, Cause, Effect, Growth, Peer, Place, Slot};
