// Files that grow. Each is open for appending, and locked.

use crate::text_files::{is_plain, make_beside, settle_name};
use std::fs::{self, File, OpenOptions};
use std::io::{self, ErrorKind, Write};
use std::os::unix::fs::MetadataExt;

/// A plain file that no other run may append to or replace meanwhile. It is locked before anything of it is read.
#[derive(Drop)]
pub struct Held {
    file: File,
    name: String,
    /// Whether the file was made here.
    is_first: bool,
}

/// Whether the file of this name has nothing but a part of this head, or is not there.
fn is_bare(rt: &HostRuntime, name: &str, head: &[u8]) -> bool {
    match fs::metadata(rt, name) {
        Ok(found) if found.len() == 0 => true,
        Ok(found) if found.len() <= head.len() as u64 => match fs::read(rt, name) {
            Ok(text) => head.starts_with(text.as_slice()),
            Err(_) => false,
        },
        Ok(_) => false,
        Err(_) => true,
    }
}

impl Held {
    /// Opens the file of this name, or makes it, and locks it. It may be no link, folder, device or pipe.
    fn open(rt: &HostRuntime, name: &str) -> io::Result<Held> {
        let kept = String::from_str(rt.alloc(), name)?;
        let is_first = !is_plain(rt, name)?;
        let mut how = OpenOptions::new();
        how.append(true).create_new(is_first);
        let held = Held {
            file: how.open(rt, name)?,
            name: kept,
            is_first,
        };
        held.file.try_lock()?;
        if held.has_name(rt)? {
            Ok(held)
        } else {
            Err(io::Error::from(ErrorKind::WouldBlock))
        }
    }

    /// Whether the open file still has its name: another run may have put a new one in its place since.
    fn has_name(&self, rt: &HostRuntime) -> io::Result<bool> {
        let found = self.file.metadata()?;
        let named = fs::symlink_metadata(rt, self.name.as_str())?;
        Ok(found.dev() == named.dev() && found.ino() == named.ino())
    }

    /// The same as a result: without its name it fails as `StaleNetworkFileHandle`.
    fn stands(&self, rt: &HostRuntime) -> io::Result<()> {
        match self.has_name(rt) {
            Ok(true) => Ok(()),
            _ => Err(io::Error::from(ErrorKind::StaleNetworkFileHandle)),
        }
    }

    /// Leaves the file as it was: one that was made here is removed.
    fn release(self, rt: &HostRuntime) {
        if self.is_first {
            let _ = fs::remove_file(rt, self.name.as_str());
        }
    }

    /// Gives the file this text, of which it has the first bytes, and forces it to the device. What follows them is torn and is cut off.
    fn fill(&mut self, text: &[u8], held: usize, length: usize) -> io::Result<()> {
        if held < length {
            self.file.set_len(held as u64)?;
        }
        self.file.write_all(text.get(held..).unwrap_or(&[]))?;
        self.file.sync_all()
    }

    /// Locks a new file, and gives it this text.
    fn begin(&mut self, text: &[u8]) -> io::Result<()> {
        self.file.try_lock()?;
        self.fill(text, 0, 0)
    }

    /// A new file next to this one, locked, with this text, forced to the device.
    fn next(&self, rt: &HostRuntime, beside: &str, text: &[u8]) -> io::Result<Held> {
        let name = String::from_str(rt.alloc(), beside)?;
        let mut new = Held {
            file: make_beside(rt, self.name.as_str(), beside)?,
            name,
            is_first: true,
        };
        match new.begin(text) {
            Ok(()) => Ok(new),
            Err(error) => {
                new.release(rt);
                Err(error)
            }
        }
    }
}

/// How far a file that grows is.
#[derive(Drop)]
pub enum Growing {
    None,
    /// It is locked.
    Held(Held),
    /// So is the new one next to it, which has its next text.
    Next(Held, Held),
    Grows(Held),
}

impl Growing {
    /// A file is locked.
    pub fn hold(&mut self, rt: &HostRuntime, name: &str) -> io::Result<()> {
        *self = Growing::Held(Held::open(rt, name)?);
        Ok(())
    }

    /// A file that is locked has this text, forced to the device with its name, and grows from now on.
    pub fn fill(
        &mut self,
        rt: &HostRuntime,
        text: &[u8],
        held: usize,
        length: usize,
    ) -> io::Result<()> {
        let Growing::Held(file) = self else {
            return Ok(());
        };
        file.fill(text, held, length)?;
        settle_name(rt, file.name.as_str())?;
        if let Growing::Held(file) = std::mem::replace(self, Growing::None) {
            *self = Growing::Grows(file);
        }
        Ok(())
    }

    /// Locks a file, unless it is, and makes its next text; whether it has more than the first bytes of that.
    pub fn make(
        &mut self,
        rt: &HostRuntime,
        name: &str,
        beside: &str,
        text: &[u8],
    ) -> io::Result<bool> {
        let old = match std::mem::replace(self, Growing::None) {
            Growing::Held(old) => old,
            _ => Held::open(rt, name)?,
        };
        match old.next(rt, beside, text) {
            Ok(new) => {
                *self = Growing::Next(old, new);
                Ok(!is_bare(rt, name, text))
            }
            Err(error) => {
                old.release(rt);
                Err(error)
            }
        }
    }

    /// What was in the file stays under another name.
    pub fn set_aside(&self, rt: &HostRuntime, old: &str) -> io::Result<()> {
        match self {
            Growing::Next(file, _) => fs::rename(rt, file.name.as_str(), old),
            _ => Ok(()),
        }
    }

    /// The file is as it was.
    pub fn discard(&mut self, rt: &HostRuntime) -> io::Result<()> {
        match std::mem::replace(self, Growing::None) {
            Growing::Held(file) => file.release(rt),
            Growing::Next(old, new) => {
                new.release(rt);
                old.release(rt);
            }
            other => drop(other),
        }
        Ok(())
    }

    /// The file has its next text, and grows from now on. Its name is forced to the device.
    pub fn begin(&mut self, rt: &HostRuntime) -> io::Result<()> {
        let Growing::Next(old, new) = std::mem::replace(self, Growing::None) else {
            return Ok(());
        };
        if let Err(error) = fs::rename(rt, new.name.as_str(), old.name.as_str()) {
            new.release(rt);
            old.release(rt);
            return Err(error);
        }
        settle_name(rt, old.name.as_str())?;
        let Held { file, .. } = new;
        *self = Growing::Grows(Held { file, ..old });
        Ok(())
    }

    /// A text is added.
    pub fn append(&mut self, text: &[u8]) -> io::Result<()> {
        match self {
            Growing::Grows(held) => held.file.write_all(text),
            _ => Ok(()),
        }
    }

    /// Likewise, to a file that must still have its name.
    pub fn append_named(&mut self, rt: &HostRuntime, text: &[u8]) -> io::Result<()> {
        self.append(text)?;
        match self {
            Growing::Grows(held) => held.stands(rt),
            _ => Ok(()),
        }
    }

    /// A text is added, and all is forced to the device.
    pub fn keep(&mut self, rt: &HostRuntime, text: &[u8]) -> io::Result<()> {
        let Growing::Grows(held) = self else {
            return Ok(());
        };
        held.file.write_all(text)?;
        held.file.sync_data()?;
        held.stands(rt)
    }

    /// The file still has its name, and that many bytes: one that was removed or cut during a run has not.
    pub fn stands(&self, rt: &HostRuntime, length: usize) -> io::Result<()> {
        let Growing::Grows(held) = self else {
            return Ok(());
        };
        match held.file.metadata() {
            Ok(found) if found.len() == length as u64 => held.stands(rt),
            _ => Err(io::Error::from(ErrorKind::StaleNetworkFileHandle)),
        }
    }
}
