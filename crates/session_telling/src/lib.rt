//! What is reported of the errors of a server: each with the command whose tag it has.
//!
//! - `dialogues`: the bytes of both sides of a connection, and the errors among the server's lines
//! - `sessions`: the commands that were sent on a connection, and the errors that are about them
//! - `places`: which touch of which feature a touch of a connection is, and on which line of the program a command's statement is
//! - `showing`: the bytes of a peer as people read them
//! - `lines`: the lines that are shown; `waits`, `arriving`: how long a peer may be silent
//! - `causes`: why an effect was not carried out
#![tactic(auto)]

mod arriving;
mod causes;
mod dialogues;
mod lines;
mod places;
mod sessions;
mod showing;
mod waits;

pub use arriving::line_came;
pub use causes::{cause_of, unwritten_line, why_unconnected};
pub use dialogues::{Dialogue, Report};
pub use lines::{Lines, Side, stamped};
pub use places::{line_of, place_of};
pub use sessions::{Refusal, Sent, Session, is_task};
pub use showing::{push_visible, visible};
pub use waits::{Lapse, Wait, lapse_line};
