//! Tests that are not rows, of what no clause says: ports that fail, the longest line, a line that outlives its buffer, effects on real
//! files, and vectors of seals. They use only public calls, and are here so that no library is proved a second time for their sake. Rows of
//! texts and of calls are the input of the program `test_calls`.
//!
//! - `ports`: ports over readers and writers of std, and how far bytes come when a port fails
//! - `framing`: lines byte by byte
//! - `hands`: each effect on real files and the standard streams
//! - `growing`: files that grow
//! - `seals`: seals of records
#![tactic(auto)]

#[cfg(test)]
mod framing;
#[cfg(test)]
mod growing;
#[cfg(test)]
mod hands;
#[cfg(test)]
mod ports;
#[cfg(test)]
mod seals;
