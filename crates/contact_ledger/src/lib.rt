//! What a measuring machine did and what its client holds: acts, contacts and features, as both ends of a connection speak of them.
//!
//! - `acts`: `Act`, one thing that a server has done on a connection
//! - `features`: `Feature`, one measured feature, its list of points, and its `Origin`
//! - `server_ledger`: `ServerLedger`, the acts of a server in order
//! - `contact_laws`: what follows from the definitions for the text of acts
//! - `feature_ledger`: `FeatureLedger`, the features that a client holds
//! - `feature_writing`, `feature_texts`: the texts of features, written and read; `openings`, `places`: what their lines say
//! - `contact_writing`, `contact_texts`: the texts of acts, written and read; `act_reading`: what a line says
//! - `lines`, `fields`, `forms`: lines, their fields, and the one written form of each field
//! - `faults`: why a text is refused
//! - `laws`, `contact_laws`: what follows from the definitions of both texts
#![tactic(auto)]

mod act_reading;
pub mod acts;
pub mod contact_laws;
mod contact_texts;
mod contact_writing;
mod faults;
pub mod feature_ledger;
mod feature_texts;
mod feature_writing;
pub mod features;
pub mod fields;
pub mod forms;
pub mod laws;
pub mod lines;
mod openings;
mod places;
pub mod server_ledger;

pub use act_reading::read_entry;
pub use acts::Act;
pub use contact_texts::read_contacts;
pub use contact_writing::{add_entry, write_contacts};
pub use faults::TextFault;
pub use feature_ledger::FeatureLedger;
pub use feature_texts::read_features;
pub use feature_writing::write_features;
pub use features::{Feature, Origin, Points};
pub use server_ledger::{CONNECTION_MAX, ServerLedger};
