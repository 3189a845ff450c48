// What is shown for an order whose files are refused.

use crate::files::NamedSource;
use dme_orders::{audit_notes, other_program_notes, read_key};
use order_parts::FilesFault;
use program_review::{InputFiles, place_of, shown_fault};
use std::alloc::AllocError;
use std::io::Write;

/// Shows a text on standard error; nothing if memory ran out for it. One that cannot be written changes nothing.
fn show(rt: HostRuntime, text: Result<Vec<u8>, AllocError>) {
    if let Ok(text) = text {
        let _ = rt.stderr().write_all(text.as_slice());
    }
}

/// Says on standard error what an audit of these files found.
pub fn tell_audit(rt: HostRuntime, files: &InputFiles) {
    show(rt, audit_notes(rt.alloc(), files));
}

/// Says on standard error that an order was not carried out for this fault of its files: its exit status. If asked, and if memory did not
/// run out for the text of a file, it shows where a file is refused and what is wrong there.
pub fn refused(rt: HostRuntime, fault: FilesFault, files: InputFiles, is_explained: bool) -> u8 {
    let place = match &fault {
        _ if !is_explained || files.is_short() => Ok(Vec::new(rt.alloc())),
        FilesFault::OtherProgram(_) => other_program_notes(rt.alloc(), &files),
        _ => place_of(rt.alloc(), &fault, &files),
    };
    let cause = shown_fault(fault, files);
    let _ = eprint!(rt; "{cause}");
    show(rt, place);
    cause.status()
}

/// The key of this name, if one is named; if it is refused, standard error shows why, and this is the exit status.
pub fn key_of(
    rt: HostRuntime,
    source: Option<NamedSource>,
    is_explained: bool,
) -> Result<Option<Vec<u8>>, u8> {
    let Some(mut source) = source else {
        return Ok(None);
    };
    let read = read_key(rt.alloc(), &mut source);
    let files = InputFiles {
        key: source.into_file(),
        ..InputFiles::unnamed(rt.alloc())
    };
    match read {
        Ok(key) => Ok(Some(key)),
        Err(fault) => Err(refused(rt, fault, files, is_explained)),
    }
}
