// Why an effect was not carried out, as it is shown.

use effects::{Answer, Cause};
use std::alloc::{AllocError, Global};

/// Why an effect failed, as far as the answer says it.
pub fn cause_of(answer: Answer<'_>) -> Cause {
    match answer {
        Answer::Failed(why) => why,
        _ => Cause::Unknown,
    }
}

/// Why a file cannot be written, as it is shown after the file's name; nothing if the system says nothing that helps.
fn why_unwritten(cause: Cause) -> &'static str {
    match cause {
        Cause::Locked => ": locked by another run",
        Cause::Link => ": is a link",
        Cause::Folder => ": is a folder",
        Cause::Taken => ": its .new is no plain file",
        Cause::Renamed => ": removed or replaced",
        Cause::Full => ": the device is full",
        Cause::Forbidden => ": no permission",
        Cause::Memory => ": out of memory",
        _ => "",
    }
}

/// The line that a file cannot be written, and why, as far as the answer says it. Fails only if out of memory.
pub fn unwritten_line(alloc: Global, name: &str, answer: Answer<'_>) -> Result<String, AllocError> {
    let why = why_unwritten(cause_of(answer));
    format!(in alloc; "dme: cannot write {name}{why}\n")
}

/// Why a connection is not made, as a line.
pub fn why_unconnected(cause: Cause) -> &'static str {
    match cause {
        Cause::Reset => "connection reset\n",
        Cause::InUse => "port in use\n",
        Cause::TimedOut => "connection timed out\n",
        Cause::Unreachable => "host unreachable\n",
        Cause::Forbidden => "permission denied\n",
        _ => "no connection\n",
    }
}
