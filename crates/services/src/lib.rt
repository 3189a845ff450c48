//! The commands `serve` and `watch` as sessions, which decide and touch nothing: each asks for one effect after another, and takes the answers
//! (this profile).
//!
//! - `stages`: where it is; `services`: what it is to do; `sessions`: what it asks, and what it does with an answer
//! - `preparing`: before the first connection; `taking`: between two; `serving`: on one; `closing`: after the last
//! - `contacts`: its contacts file
//! - `relaying`: the session of `watch`; `relay_stages`: where it is; `relays`: what it is to do; `relay_files`: its files; `relay_turns`: its
//!   turns; `relay_ends`: the end of a connection; `recordings`: the files of its bytes
//! - `naming`: the files that both name
//! - `running`: the session with hands that carry its effects out; `laws`: what its server was given; `relay_laws`: what relays keep
#![tactic(auto)]

mod closing;
mod contacts;
pub mod laws;
mod naming;
mod preparing;
mod recordings;
mod relay_ends;
mod relay_files;
pub mod relay_laws;
mod relay_stages;
mod relay_turns;
mod relaying;
mod relays;
mod running;
mod services;
mod serving;
mod sessions;
mod stages;
mod taking;

pub use relay_stages::RelayStage;
pub use relaying::RelaySession;
pub use relays::Relay;
pub use running::{run, run_relay};
pub use services::Service;
pub use sessions::Session;
pub use stages::Stage;
