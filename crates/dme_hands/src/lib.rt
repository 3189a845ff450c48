//! What carries the effects of `dme` out on files, sockets and the standard streams (this profile). It decides nothing.
//!
//! - `hands`: one function an effect; `connections`: those of a port; `slots`: files that are read from, or written to, their beginning
//! - `growing`: one that grows is locked, so that no other run shares it
//! - `text_files`: files that are replaced as a whole; `names`: the places of files, and what is in a folder
#![tactic(auto)]

mod connections;
mod growing;
mod hands;
mod names;
mod slots;
mod text_files;

pub use hands::RealHands;
pub use slots::Open;
