// The places of files, and what is in a folder.

use crate::text_files::folder_of;
use std::alloc::AllocError;
use std::fs;
use std::io::{self, ErrorKind};
use std::path::{Path, PathBuf};

/// The place of what has this name, without links; none if nothing has. Fails only if out of memory.
fn real_place(rt: &HostRuntime, name: &str) -> Result<Option<PathBuf>, AllocError> {
    match fs::canonicalize(rt, name) {
        Ok(place) => Ok(Some(place)),
        Err(error) if error.kind() == ErrorKind::OutOfMemory => Err(AllocError),
        Err(_) => Ok(None),
    }
}

/// The place that a file of this name has or would have; none of a folder, a device or a pipe, in whose place nothing is put. Fails only if out
/// of memory.
pub fn place_of(rt: &HostRuntime, name: &str) -> Result<Option<PathBuf>, AllocError> {
    match fs::metadata(rt, name) {
        Ok(found) if !found.is_file() => return Ok(None),
        _ => {}
    }
    if let Some(place) = real_place(rt, name)? {
        return Ok(Some(place));
    }
    let place = match (
        real_place(rt, folder_of(name))?,
        Path::new(name).file_name(),
    ) {
        (Some(folder), Some(last)) => folder.join(rt.alloc(), last)?,
        _ => PathBuf::from_str(rt.alloc(), name)?,
    };
    Ok(Some(place))
}

/// The names of what is in a folder, each with a `/` after it. Names that are not UTF-8 are left out.
pub fn names_in(rt: &HostRuntime, folder: &str) -> io::Result<Vec<u8>> {
    let mut names = Vec::new(rt.alloc());
    for entry in fs::read_dir(rt, folder)? {
        match entry {
            Ok(entry) => {
                names.extend_from_slice(entry.file_name().as_bytes())?;
                names.push(b'/')?;
            }
            Err(error) if error.kind() == ErrorKind::InvalidFilename => {}
            Err(error) => return Err(error),
        }
    }
    Ok(names)
}
