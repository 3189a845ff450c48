//! The cores of a client and of a server, for callers in C: each function is declared in `include/dme.h`, with what its caller must ensure.
//!
//! - `handles`: what a caller holds, and how it is taken out and put back
//! - `client_making`, `client_calls`, `next`, `server_calls`, `server_jobs`, `refusals`, `touches`: the functions that are exported
//! - `record_making`, `record_calls`: likewise those of a record; `recordings`: what it holds
//! - `error_calls`: likewise those of a server's errors; `hearings`: what follows them
//! - `texts`: the setups, programs and features that are passed in
//! - `room`: what is copied out
//! - `codes`: the numbers of answers
#![tactic(auto)]

mod client_calls;
mod client_making;
mod codes;
mod error_calls;
mod handles;
mod hearings;
mod next;
mod record_calls;
mod record_making;
mod recordings;
mod refusals;
mod room;
mod server_calls;
mod server_jobs;
mod texts;
mod touches;
