//! Byte ports (this profile): where bytes come in and go out, and no more.
//!
//! A `Source` gives bytes, a `Sink` takes them, and either may fail, once and
//! for good. Contracts see of a port whether it has failed and, if it
//! reports them, the bytes that it has left or has taken. All that moves bytes
//! is written against these two traits, so that it is proved for each device.
//!
//! - `ports`: the traits and `Failed`.
//! - `pair`: the two ports of a connection.
//! - `reading` and `writing`: ports of a reader and a writer of std.
//! - `transfers`: `push_all` and `pull_all`, which move all bytes there are.
//! - `pieces` and `takes`: ports over memory that simulate slow and failing
//!   devices, for tests and for programs.
#![tactic(auto)]

mod fuse;
mod pair;
mod pieces;
mod ports;
mod reading;
mod takes;
mod transfers;
mod writing;

pub use pair::Ports;
pub use pieces::Pieces;
pub use ports::{Failed, Sink, Source};
pub use reading::Reading;
pub use takes::Takes;
pub use transfers::{PIECE, PullFault, pull_all, push_all};
pub use writing::Writing;
