// What a run is to do.

ghost use Rattle.std.specs.Prelude.{◌≡◌, ◌++◌, OnOk, false};
ghost use Rattle.std.specs.Option.{option_map_or};
ghost use Rattle.run_session.specs.Records as spec;
ghost use Rattle.run_session.specs.Statuses as statuses;

use crate::evidence::Noted;
use effects::Cause;
use std::alloc::AllocError;

/// A file that is replaced: its name, and whether it grows during the run.
#[derive(Drop)]
pub struct Output {
    pub name: String,
    /// The name of the file next to it, in which its next text is made.
    pub beside: String,
    pub grows: bool,
}

/// The values of a run on its connection.
#[derive(Drop)]
pub struct Run {
    pub host: String,
    pub port: u16,
    /// For how many seconds the server is called again and again, if it is.
    pub wait: Option<u32>,
    /// How many seconds the server may be silent.
    pub timeout: Option<u32>,
    /// The file that stops the run when it appears.
    pub stop: Option<String>,
    /// Whether each line is shown.
    pub trace: bool,
    /// The log.
    pub log: Option<String>,
    /// Whether each completed feature is shown.
    pub progress: bool,
    /// Whether it is shown on a terminal, as one line that is written anew.
    pub on_terminal: bool,
    /// The features file.
    pub features: Option<Output>,
    /// The file of reported contacts.
    pub contacts: Option<Output>,
    /// The record, which grows already.
    pub record: Option<Output>,
    /// What the record notes of the run, if it notes when and how it was run.
    pub notes: Option<Vec<Noted>>,
    /// The key under which the record is sealed as the connection ends, if it notes that.
    pub key: Option<Vec<u8>>,
}

/// Whether a file grows.
fn grows(file: &Option<Output>) -> bool
    ensures { result ≡ option_map_or (λ file. file.grows) file.now false }
{
    match file {
        Some(file) => file.grows,
        None => false,
    }
}

/// The files of a run.
#[derive(Clone, Copy, Debug, PartialEq, Eq)]
pub(crate) enum Kept {
    Features,
    Contacts,
    Record,
}

/// What has failed, or has kept a run from beginning, as it is said last.
#[derive(Clone, Copy, Debug, PartialEq, Eq)]
pub(crate) enum Said {
    /// A file could not be written at the end.
    Unwritten(Kept),
    /// The report could not be printed.
    Unprinted,
    /// The connection was not made, or was broken off.
    Ended,
    /// The stop file was there before the server was called.
    Unbegun,
}

/// Why files could not be written at the end.
#[derive(Clone, Copy, Debug)]
pub(crate) struct Causes {
    features: Cause,
    kept: Cause,
    contacts: Cause,
}

impl Causes {
    pub fn new() -> Causes {
        Causes {
            features: Cause::Unknown,
            kept: Cause::Unknown,
            contacts: Cause::Unknown,
        }
    }

    pub fn note(&mut self, kept: Kept, cause: Cause) {
        match kept {
            Kept::Features => self.features = cause,
            Kept::Record => self.kept = cause,
            Kept::Contacts => self.contacts = cause,
        }
    }

    pub fn of(self, kept: Kept) -> Cause {
        match kept {
            Kept::Features => self.features,
            Kept::Record => self.kept,
            Kept::Contacts => self.contacts,
        }
    }
}

/// Whether each file has its whole text at the end, once that was asked for; `false` for one that could not be written.
#[derive(Clone, Copy, Debug, PartialEq, Eq)]
pub(crate) struct Written {
    pub features: Option<bool>,
    /// The record.
    pub kept: Option<bool>,
    pub contacts: Option<bool>,
}

impl Written {
    pub fn new() -> Written
        ensures { result ≡ spec.none_written }
    {
        Written {
            features: None,
            kept: None,
            contacts: None,
        }
    }

    /// Those that could not be written are named, the record first.
    pub fn name_late(self, said: &mut Vec<Said>) -> Result<(), AllocError>
        ensures { OnOk result (said.new.items ≡ said.old.items ++ statuses.late self) }
    {
        name_file(said, Kept::Record, self.kept)?;
        name_file(said, Kept::Contacts, self.contacts)
    }

    /// And that of features before them.
    pub fn name_all(self, said: &mut Vec<Said>) -> Result<(), AllocError>
        ensures { OnOk result (said.new.items ≡ said.old.items ++ statuses.unwritten self) }
    {
        name_file(said, Kept::Features, self.features)?;
        self.name_late(said)
    }

    /// Whether one could not be written.
    pub fn lacks_file(self) -> bool
        ensures { result ≡ statuses.lacks_file self }
    {
        has_failed(self.features) || has_failed(self.kept) || has_failed(self.contacts)
    }

    /// A file has its whole text, or could not be written.
    pub fn note(&mut self, kept: Kept, is_done: bool)
        ensures { self.new ≡ spec.with_written kept is_done self.old }
    {
        match kept {
            Kept::Features => self.features = Some(is_done),
            Kept::Record => self.kept = Some(is_done),
            Kept::Contacts => self.contacts = Some(is_done),
        }
    }
}

/// A file is named if it could not be written.
fn name_file(said: &mut Vec<Said>, kept: Kept, mark: Option<bool>) -> Result<(), AllocError>
    ensures { OnOk result (said.new.items ≡ said.old.items ++ statuses.named kept mark) }
{
    if has_failed(mark) {
        said.push(Said::Unwritten(kept))?;
    }
    Ok(())
}

/// Whether it could not be written.
pub(crate) fn has_failed(mark: Option<bool>) -> bool
    ensures { result ≡ statuses.has_failed mark }
{
    match mark {
        Some(is_done) => !is_done,
        None => false,
    }
}

/// Whether a file has its whole text, if it is named.
pub(crate) fn is_written(named: bool, mark: Option<bool>) -> bool
    ensures { result ≡ spec.is_written named mark }
{
    match mark {
        Some(is_done) => is_done,
        None => !named,
    }
}

impl Run {
    /// A file, if it is named.
    pub(crate) fn file(&self, kept: Kept) -> &Option<Output>
        ensures { result.now ≡ spec.file_of (spec.files_of self.now) kept }
    {
        match kept {
            Kept::Features => &self.features,
            Kept::Contacts => &self.contacts,
            Kept::Record => &self.record,
        }
    }

    pub(crate) fn name(&self, kept: Kept) -> &str
        ensures { result.now ≡ spec.name_of (spec.file_of (spec.files_of self.now) kept) }
    {
        match self.file(kept) {
            Some(file) => file.name.as_str(),
            None => "",
        }
    }

    pub(crate) fn beside(&self, kept: Kept) -> &str
        ensures { result.now ≡ spec.beside_of (spec.file_of (spec.files_of self.now) kept) }
    {
        match self.file(kept) {
            Some(file) => file.beside.as_str(),
            None => "",
        }
    }

    pub(crate) fn lists(&self) -> bool
        ensures { result ≡ option_map_or (λ file. file.grows) self.now.features false }
    {
        grows(&self.features)
    }

    pub(crate) fn reports(&self) -> bool {
        grows(&self.contacts)
    }

    /// The stop file.
    pub(crate) fn stop_name(&self) -> &str {
        self.stop.as_deref().unwrap_or("")
    }
}
