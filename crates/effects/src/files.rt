// The names of the files of a call.

ghost use Rattle.std.specs.Prelude.{◌≡◌, [], Some, OnOk, option_map, get_or, length};
ghost use Rattle.effects.specs.Naming as spec;

use std::alloc::{AllocError, Global};
use std::marker::Model;

/// A file that an option names.
#[derive(Drop)]
struct NamedFile {
    option: String,
    name: String,
}

/// The files of a call, in the order in which they are compared. Contracts see their names, and whether each is written.
#[derive(Drop)]
pub struct NamedFiles {
    alloc: Global,
    files: Vec<NamedFile>,
    written: Vec<bool>,
}

impl Model for NamedFiles {
    ghost use Rattle.std.specs.Prelude.{map, string_bytes};
    ghost use Rattle.effects.specs.Naming.{Files};

    ghost Value = { Files };

    ghost view = { λ f. record {
      names = map (λ file. string_bytes file.name) f.files.items;
      written = f.written.items;
    } };
}

impl NamedFiles {
    pub fn new(alloc: Global) -> NamedFiles
        ensures { result ≡ spec.no_files }
    {
        NamedFiles {
            alloc,
            files: Vec::new(alloc),
            written: Vec::new(alloc),
        }
    }

    /// The file of an option joins them, if one is named. Fails only if out of memory.
    pub fn add(
        &mut self,
        option: &str,
        name: Option<&str>,
        is_written: bool,
    ) -> Result<(), AllocError>
        ensures { OnOk result (self.new
            ≡ spec.with_file (option_map (λ name. name.now) name.entry) is_written self.old) }
    {
        match name {
            Some(name) => self.push(option, name, is_written),
            None => Ok(()),
        }
    }

    fn push(&mut self, option: &str, name: &str, is_written: bool) -> Result<(), AllocError>
        ensures { OnOk result (self.new ≡ spec.with_file (Some name.now) is_written self.old) }
    {
        let option = String::from_str(self.alloc, option)?;
        let name = String::from_str(self.alloc, name)?;
        self.written.push(is_written)?;
        self.files.push(NamedFile { option, name })?;
        Ok(())
    }

    /// The name of the file of this number, or nothing.
    pub(crate) fn name(&self, at: usize) -> &str
        ensures { result.now ≡ get_or self.now.names at [] }
    {
        match self.files.get(at) {
            Some(file) => file.name.as_str(),
            None => "",
        }
    }

    pub(crate) fn option(&self, at: usize) -> &str {
        match self.files.get(at) {
            Some(file) => file.option.as_str(),
            None => "",
        }
    }

    /// Which files are written.
    pub(crate) fn written(&self) -> &[bool]
        ensures { result.now ≡ self.now.written }
    {
        self.written.as_slice()
    }

    pub(crate) fn count(&self) -> usize
        ensures { result ≡ length self.now.names }
    {
        self.files.len()
    }
}
