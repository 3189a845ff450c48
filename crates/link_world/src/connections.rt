//! One connection and its driver: a side with the ports over which its bytes come in and go out.
//!
//! - `pumps`: what the turns of both sides share; `client_pump`, `server_pump`: a turn of each
//! - `links`: a whole connection of one side; `link_runs`: of both; `watching`: who receives reports of what it completes, with examples
//! - `machines`: who ends the jobs that a server asks for
//! - `joined`: laws that make turns over ports events of a world

pub(crate) mod client_pump;
pub mod joined;
pub(crate) mod link_runs;
pub(crate) mod links;
pub(crate) mod machines;
pub(crate) mod pumps;
pub(crate) mod server_pump;
pub(crate) mod watching;
pub mod watching_rows;
