// Which program this is.

use crate::faults::Fault;
use dme_words::{COMMIT, TOOLCHAIN, VERSION};
use order_parts::OrderFault;

/// Whether the words of a command line ask for the version alone.
pub fn is_asked(words: &[String]) -> bool {
    matches!(words, [_, word] if word.as_str() == "--version")
}

/// Prints the version, the commit and the toolchain: the exit status.
pub fn tell(rt: HostRuntime) -> Result<u8, Fault> {
    match println!(rt; "dme {VERSION}\ncommit {COMMIT}\ntoolchain {TOOLCHAIN}") {
        Ok(()) => Ok(0),
        Err(_) => Err(Fault::Order(OrderFault::CannotWriteOutput)),
    }
}
