//! What a witness reports of a connection, as it relays it or from recordings of both ends, and what it keeps meanwhile (this profile).
//!
//! - `limits`: `LimitedRelay`, which keeps no more than it may
//! - `places`: where the client uses each tag last
//! - `turns`: lines of the client are read when a response needs them
//! - `pieces`: the order in which bytes came; `ordered`: the text of what they report in that order
//! - `recorded`: the text of what two recordings report, with their order or without
//! - `jobs`: which of the two it is; `answering`: what is printed, `notes`: what is noted of the recordings
//! - `stages`: where it is; `sessions`: what it asks, and what it does with an answer
//! - `running`: the session with hands that carry its effects out
//! - `laws`: what it promises of the outside, whatever is answered
#![tactic(auto)]

mod answering;
mod jobs;
pub mod laws;
mod limits;
mod notes;
mod ordered;
mod pieces;
mod places;
pub mod recorded;
mod running;
mod sessions;
mod stages;
mod turns;

pub use limits::{LimitedRelay, MOST_OPEN};
pub use ordered::ordered_ledger_text;
pub use pieces::{ORDER_HEADER, add_piece, read_order};
pub use recorded::{Order, ledger_text, recorded_text};
pub use jobs::Job;
pub use running::run;
pub use sessions::Session;
pub use stages::Stage;
