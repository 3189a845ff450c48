// Files of the file system that are replaced as a whole.

use std::fs::{self, File, OpenFile, OpenOptions};
use std::io::{self, ErrorKind, Write};
use std::os::unix::fs::{OpenOptionsExt, PermissionsExt};
use std::path::Path;

/// The name of the folder that a file of this name is in.
pub fn folder_of(name: &str) -> &str {
    match Path::new(name).parent() {
        Some(folder) if !folder.as_str().is_empty() => folder.as_str(),
        _ => ".",
    }
}

/// Forces to the device that a file of this name was made, if its folder can be opened.
pub fn settle_name(rt: &HostRuntime, name: &str) -> io::Result<()> {
    match fs::open(rt, folder_of(name)) {
        Ok(folder) => folder.sync_all(),
        Err(_) => Ok(()),
    }
}

/// Whether a new file may take this name: nothing has it, or a plain file, which is no link, no device and no pipe.
fn may_be_replaced(rt: &HostRuntime, name: &str) -> bool {
    match fs::symlink_metadata(rt, name) {
        Ok(found) => found.is_file(),
        Err(_) => true,
    }
}

/// Whether a plain file has this name, or else nothing has. It fails for anything else: for a link as `FilesystemLoop`.
pub fn is_plain(rt: &HostRuntime, name: &str) -> io::Result<bool> {
    match fs::symlink_metadata(rt, name) {
        Ok(found) if found.is_file() => Ok(true),
        Ok(found) if found.is_symlink() => Err(io::Error::from(ErrorKind::FilesystemLoop)),
        Ok(found) if found.is_dir() => Err(io::Error::from(ErrorKind::IsADirectory)),
        Ok(_) => Err(io::Error::from(ErrorKind::InvalidInput)),
        Err(error) if error.kind() == ErrorKind::NotFound => Ok(false),
        Err(error) => Err(error),
    }
}

/// Makes a new file next to the one of this name, with its mode. A plain file that an earlier run has left there is removed first; with
/// anything else there it fails as `AlreadyExists`.
pub fn make_beside(rt: &HostRuntime, name: &str, beside: &str) -> io::Result<File> {
    if let Ok(true) = is_plain(rt, beside) {
        fs::remove_file(rt, beside)?;
    }
    let mut how = OpenOptions::new();
    how.append(true).create_new(true);
    let Ok(found) = fs::metadata(rt, name) else {
        return how.open(rt, beside);
    };
    let mode = found.permissions();
    how.mode(mode.mode());
    let file = how.open(rt, beside)?;
    let _ = file.set_permissions(mode);
    Ok(file)
}

/// Writes all of a text to a new file, forces it to the device, and only then gives the file its name, which is forced there too.
fn settle(
    rt: &HostRuntime,
    file: &mut File,
    text: &[u8],
    beside: &str,
    name: &str,
) -> io::Result<()> {
    file.write_all(text)?;
    file.sync_all()?;
    fs::rename(rt, beside, name)?;
    settle_name(rt, name)
}

/// Writes a text to the file of this name. If that may be replaced, a new file is put in its place; what was begun and could not be put there
/// is removed.
pub fn replace_file(rt: &HostRuntime, text: &[u8], beside: &str, name: &str) -> io::Result<()> {
    if !may_be_replaced(rt, name) {
        return fs::write(rt, name, text);
    }
    let mut file = make_beside(rt, name, beside)?;
    let result = settle(rt, &mut file, text, beside, name);
    if result.is_err() {
        let _ = fs::remove_file(rt, beside);
    }
    result
}
