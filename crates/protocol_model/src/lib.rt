//! The protocol between the client and the server of a measuring machine, as definitions, and what follows from them. No code but the plain
//! data of which both ends speak.
//!
//! - `specs/`: lines as values, plans, open commands, the client, the server, what is claimed, their lines as bytes, both ends with the
//!   bytes between them, the language of replies, and a few examples
//! - `lines`, `machine`, `plans`, `held`, `states`, `events`: lines as values, jobs and outcomes, planned commands, open commands, states of
//!   a client, what can happen between both ends
//! - `theorem`: the theorem over every list of events, with the bytes between both ends
//! - `typed`: the same where lines are carried as values
//! - `replies`: the language of replies and the table of marks
//! - `plan_laws`: what a plan measures, and in which order
//! - `positions`: where a plan continues in the steps of a program
//! - `tags`: the number of the tag that is drawn next
//! - `streams`: what a stream of written lines hands out
//! - `undisturbed`: what is written, done and counted in a run that nothing disturbs
//! - `quiet`: a broken link is brought to its end by quiet rounds, in a stated number of them
//! - `readings`: that each line is read as the interface says
//! - `examples`: what the claim refuses, and which check comes first, as examples that the definitions compute
//! - `ledger_rows`: what is claimed, next to ledgers that are written out
//! - `scripts`: scripts where lines are values, played with a simulated machine, and what they report; a server and a client on their own
//! - `origins`: where features come from
//! - `homing`: the question whether the machine is homed
//! - `turns`: when a client is done
//! - `plain`: what a program plainly measures, and what that asks of the rack and the machine
//! - `position_examples`: where a plan continues in the steps of a program
#![tactic(auto)]

pub mod events;
pub mod examples;
pub mod held;
pub mod homing;
pub mod ledger_rows;
pub mod lines;
pub mod machine;
pub mod origins;
pub mod plain;
pub mod plan_laws;
pub mod plans;
pub mod position_examples;
pub mod positions;
pub mod quiet;
pub mod readings;
pub mod replies;
pub mod scripts;
pub mod states;
pub mod streams;
pub mod tags;
pub mod theorem;
pub mod turns;
pub mod typed;
pub mod undisturbed;

pub use events::Event;
pub use held::{Datum, OpenCommand, Stage};
pub use lines::{Line, Misread, Waiting};
pub use machine::{Job, Outcome};
pub use plan_laws::plans_measure_what_is_left;
pub use plans::{Does, Planned, Start};
pub use positions::plans_go_on_behind_the_last_touch;
pub use quiet::{
    programs_in_reach_have_plans_in_reach, quiet_rounds_are_few, quiet_rounds_measure_what_is_left,
};
pub use readings::each_line_is_read;
pub use replies::table_accepts_the_language;
pub use states::{Cause, State};
pub use streams::{commands_come_in_order, responses_come_in_order};
pub use tags::numbers_that_are_held_are_passed_over;
pub use theorem::every_run;
pub use typed::every_typed_run;
pub use undisturbed::{homed_machines_are_not_homed_again, undisturbed_prefixes};
