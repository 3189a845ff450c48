//! A world: a client, a server and the connections between them, to which one event happens after another.
//!
//! - `world`: `World`, its events one by one, several, and its end
//! - `client_events`, `server_events`: what each event does to its side
//! - `connection`: the bytes that are on their way, both ways
//! - `finishing`, `playing`, `rounds`: events that a world chooses itself, to its end or by a schedule
//! - `standing`: both sides before an event
//! - `traces`: the lines that both sides write, as text, with examples in `trace_rows`
//! - `faults`: why an event does not happen
//! - `laws`: what follows for every list of events

pub(crate) mod client_events;
pub(crate) mod connection;
pub(crate) mod faults;
pub(crate) mod finishing;
pub mod laws;
pub(crate) mod playing;
pub(crate) mod rounds;
pub(crate) mod server_events;
pub(crate) mod standing;
pub mod trace_rows;
pub(crate) mod traces;
pub(crate) mod world;
