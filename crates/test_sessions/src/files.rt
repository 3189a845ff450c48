// Files in memory, of which some bytes are on the device.

use crate::Who;
use std::alloc::{AllocError, Global};

/// A file. What lies past `safe` may be lost with its writer.
#[derive(Drop)]
pub(crate) struct File {
    pub(crate) name: String,
    pub(crate) bytes: Vec<u8>,
    pub(crate) safe: usize,
    /// Whether it still has its name.
    pub(crate) is_there: bool,
    holder: Option<Who>,
    writer: Who,
}

impl File {
    /// All of it is forced to the device.
    pub(crate) fn force(&mut self) {
        self.safe = self.bytes.len();
    }

    /// It is cut to this length.
    pub(crate) fn cut(&mut self, length: usize) {
        self.bytes.truncate(length);
        self.safe = self.safe.min(self.bytes.len());
    }
}

/// A folder.
#[derive(Drop)]
pub(crate) struct Files {
    alloc: Global,
    pub(crate) items: Vec<File>,
}

impl Files {
    pub(crate) fn new(alloc: Global) -> Files {
        Files {
            alloc,
            items: Vec::new(alloc),
        }
    }

    pub(crate) fn find(&self, name: &str) -> Option<usize> {
        let is_it = |file: &File| file.is_there && file.name.as_str() == name;
        self.items.iter().position(is_it)
    }

    pub(crate) fn get(&self, at: usize) -> Option<&File> {
        self.items.get(at)
    }

    /// A new file with this text, in the place of one that has the name.
    pub(crate) fn make(&mut self, who: Who, name: &str, text: &[u8]) -> Result<usize, AllocError> {
        self.remove(name);
        let at = self.items.len();
        self.items.push(File {
            name: String::from_str(self.alloc, name)?,
            bytes: Vec::from_slice(self.alloc, text)?,
            safe: text.len(),
            is_there: true,
            holder: None,
            writer: who,
        })?;
        Ok(at)
    }

    /// The file of this name, which is made if there is none; whether it was.
    pub(crate) fn open(&mut self, who: Who, name: &str) -> Result<(usize, bool), AllocError> {
        match self.find(name) {
            Some(at) => Ok((at, false)),
            None => Ok((self.make(who, name, b"".as_slice())?, true)),
        }
    }

    /// Whether there was one.
    pub(crate) fn remove(&mut self, name: &str) -> bool {
        match self.find(name) {
            Some(at) => {
                self.unname(at);
                true
            }
            None => false,
        }
    }

    pub(crate) fn unname(&mut self, at: usize) {
        if let Some(file) = self.items.get_mut(at) {
            file.is_there = false;
        }
    }

    /// A file takes this name from what has it.
    pub(crate) fn rename(&mut self, at: usize, name: &str) -> Result<(), AllocError> {
        let text = String::from_str(self.alloc, name)?;
        self.remove(name);
        if let Some(file) = self.items.get_mut(at) {
            file.name = text;
        }
        Ok(())
    }

    /// Whether nobody else holds a file; this one does from now on.
    pub(crate) fn lock(&mut self, at: usize, who: Who) -> bool {
        match self.items.get_mut(at) {
            Some(file) if file.holder.is_none() || file.holder == Some(who) => {
                file.holder = Some(who);
                file.writer = who;
                true
            }
            _ => false,
        }
    }

    /// One ends: it holds nothing any more, and if it was killed, of what it wrote only this many bytes past what is on the device are left.
    pub(crate) fn release(&mut self, who: Who, left: Option<usize>) {
        for file in self.items.iter_mut() {
            if file.holder == Some(who) {
                file.holder = None;
            }
            if file.writer == who
                && let Some(left) = left
            {
                file.cut(file.safe.saturating_add(left));
            }
        }
    }

    /// Each name in a folder, with a `/` after it.
    pub(crate) fn push_names(&self, out: &mut Vec<u8>, folder: &str) -> Result<(), AllocError> {
        for file in self.items.iter() {
            if file.is_there
                && let Some((before, name)) = file.name.as_str().split_once("/")
                && before == folder
            {
                out.extend_from_slice(name.as_bytes())?;
                out.push(b'/')?;
            }
        }
        Ok(())
    }
}
