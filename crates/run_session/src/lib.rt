//! The command `run` from the call of its server on, as a session, which decides and touches nothing: it asks for one effect after another, and
//! takes the answers (this profile).
//!
//! - `stages`: where it is; `runs`: what it is to do; `sessions`: what it asks, and what it does with an answer
//! - `calling`: its server is called; `beginning`: its files begin to grow, and its client comes to the connection
//! - `turns`: commands are sent, and lines are heard; `errors`: what is shown of the server's errors
//! - `following`: what the client has counted goes to the files; `reported`, `listed`: those of contacts and of features
//! - `evidence`: what the record notes of the run; `progress`: how far it is
//! - `pausing`: texts for the operator, at which the run waits if it is asked to
//! - `ending`: the files get their whole texts, and the report is printed; `leaving`: the server is left; `verdicts`: what is said last, and the
//!   exit status
//! - `running`: the session with hands that carry its effects out
//! - `laws`: what a record's file holds, also once the program is killed; `examples`: what is asked, and what comes of it
#![tactic(auto)]

mod beginning;
mod calling;
mod ending;
mod errors;
mod evidence;
pub mod examples;
mod following;
mod laws;
mod leaving;
mod listed;
mod pausing;
mod progress;
mod reported;
mod running;
mod runs;
mod sessions;
mod stages;
mod turns;
mod verdicts;

pub use errors::Errors;
pub use evidence::Noted;
pub use laws::{features_files_grow, runs_exit, runs_keep_their_records};
pub use progress::touches_of;
pub use running::run;
pub use runs::{Output, Run};
pub use sessions::{Begun, Session};
pub use stages::Stage;
