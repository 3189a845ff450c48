// The files of an order as sources.

ghost use Rattle.std.specs.Prelude.{◌≡◌, ◌≤◌, is_some, length, None, IfOk};

use byte_ports::{Failed, Source};
use dme_hands::Open;
use effects::Place;
use program_review::{InputFile, InputFiles};
use std::io;

/// A file of an order, by its name, or standard input. It is opened at its first pull, so that files are refused in the order in
/// which they are read. It does not report its bytes. If asked, it keeps the text that was read.
#[derive(Drop)]
pub struct NamedSource {
    rt: HostRuntime,
    /// None if it is not open yet; nothing is left of standard input that an earlier file of the order was read from.
    open: Option<Open>,
    has_failed: bool,
    file: InputFile,
    is_kept: bool,
}

impl NamedSource {
    /// The file's name, and what was read of it, as far as it was kept.
    pub fn into_file(self) -> InputFile {
        self.file
    }
}

/// Likewise, if there is a file.
pub fn file_of(rt: HostRuntime, source: Option<NamedSource>) -> InputFile {
    match source {
        Some(source) => source.into_file(),
        None => InputFiles::unnamed(rt.alloc()).setup,
    }
}

/// Gives an order the files that it reads, as sources.
#[derive(Drop)]
pub struct Sources {
    rt: HostRuntime,
    is_kept: bool,
    input_is_taken: bool,
}

impl Sources {
    /// Sources that keep the texts that are read from them, or not.
    pub fn new(rt: HostRuntime, is_kept: bool) -> Self {
        Sources {
            rt,
            is_kept,
            input_is_taken: false,
        }
    }

    /// The file of this name; `-` is standard input, or nothing if an earlier file of the order is.
    pub fn file(&mut self, name: String) -> NamedSource {
        let open = match (name.as_str(), self.input_is_taken) {
            ("-", true) => Some(Open::Nothing),
            ("-", false) => Some(Open::Input(self.rt.reader())),
            _ => None,
        };
        self.input_is_taken = self.input_is_taken || name.as_str() == "-";
        NamedSource {
            rt: self.rt,
            open,
            has_failed: false,
            file: InputFile {
                name,
                text: Vec::new(self.rt.alloc()),
                is_short: false,
            },
            is_kept: self.is_kept,
        }
    }

    /// Likewise, if a file is named.
    pub fn maybe(&mut self, name: Option<String>) -> Option<NamedSource>
        ensures { is_some result ≡ is_some name }
    {
        let name = name?;
        Some(self.file(name))
    }
}

impl NamedSource {
    /// Keeps what was read. If out of memory, no more of the text is kept, and the file counts as short.
    fn keep(&mut self, bytes: &[u8])
        ensures { self.new.has_failed ≡ self.old.has_failed }
    {
        if self.is_kept && self.file.text.extend_from_slice(bytes).is_err() {
            self.file.is_short = true;
            self.is_kept = false;
        }
    }

    /// One read, which opens the file if it is not open.
    fn read(&mut self, buf: &mut [u8]) -> io::Result<usize>
        ensures within { IfOk result (λ n. n ≤ length buf.new) }
        ensures same { self.new.has_failed ≡ self.old.has_failed }
    {
        if let Some(open) = &mut self.open {
            return open.read(buf);
        }
        let mut open = Open::read_from(&self.rt, Place::Named(self.file.name.as_str()))?;
        let count = open.read(buf)?;
        self.open = Some(open);
        Ok(count)
    }
}

impl Source for NamedSource {
    ghost left = { λ _. None };

    ghost has_failed = { λ s. s.has_failed };

    fn pull(&mut self, buf: &mut [u8]) -> Result<usize, Failed> {
        if self.has_failed {
            return Err(Failed);
        }
        match self.read(buf) {
            Ok(count) => {
                self.keep(&buf[..count]);
                Ok(count)
            }
            Err(_) => {
                self.has_failed = true;
                Err(Failed)
            }
        }
    }
}
