//! Bytes to lines, in whatever pieces the bytes come.
//!
//! The wire of the I++ DME Interface version 1 carries lines that end with CR LF. A `Lines` is fed pieces of
//! bytes as they are read, hands out one whole line a call, and keeps what is not yet a line. What callers see
//! of it is the list of bytes that were fed and not handed out, and the fault that was met in them.
//!
//! - `framing`: `Lines`, the buffer
//! - `owned`: `Line`, a line without its end
//! - `queue`: `ByteQueue`, bytes that wait
//! - `faults`: why bytes are refused, and what may be at their front instead of a line
//! - `search`: where a line ends, and what is there
//! - `laws`: what follows from the definitions alone, as the pieces do not matter
#![tactic(auto)]

pub mod faults;
pub mod framing;
pub mod laws;
pub mod owned;
pub mod queue;
mod search;

pub use faults::{FramingFault, LinesFault};
pub use framing::Lines;
pub use owned::Line;
pub use queue::ByteQueue;
