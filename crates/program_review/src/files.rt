// The files of an order, and what is shown of the one at fault: its name, and the place of the refusal.

ghost use Rattle.std.specs.Prelude.{◌≡◌, [], IfOk, string_bytes};
ghost use Rattle.program_review.specs.Files.{file_in, is_short, IsUnnamed, AreUnnamed, IsFaultShown, IsPlaceShown};

use crate::places::write_place;
use contact_ledger::TextFault;
use deviations::LimitsFault;
use dmis_program::ProgramFault;
use link_world::ScheduleFault;
use order_parts::{FilesFault, OrderFault, Role};
use record_text::RecordFault;
use std::alloc::{AllocError, Global};
use tool_rack::{MachineFault, SetupFault};

/// A file that an order reads: its name, and what was read of it, as far as it was kept.
#[derive(Debug, Drop)]
pub struct InputFile {
    pub name: String,
    pub text: Vec<u8>,
    /// Whether there was no memory to keep more of the text.
    pub is_short: bool,
}

impl InputFile {
    fn unnamed(alloc: Global) -> InputFile
        ensures { IsUnnamed result }
    {
        InputFile {
            name: String::new(alloc),
            text: Vec::new(alloc),
            is_short: false,
        }
    }
}

/// The files that an order reads. One that the order does not have has an empty name.
#[derive(Debug, Drop)]
pub struct InputFiles {
    pub setup: InputFile,
    pub schedule: InputFile,
    pub features: InputFile,
    pub contacts: InputFile,
    pub record: InputFile,
    pub limits: InputFile,
    pub machine: InputFile,
    pub key: InputFile,
    pub program: InputFile,
}

impl InputFiles {
    /// Files without names.
    pub fn unnamed(alloc: Global) -> InputFiles
        ensures { AreUnnamed result }
    {
        InputFiles {
            setup: InputFile::unnamed(alloc),
            schedule: InputFile::unnamed(alloc),
            features: InputFile::unnamed(alloc),
            contacts: InputFile::unnamed(alloc),
            record: InputFile::unnamed(alloc),
            limits: InputFile::unnamed(alloc),
            machine: InputFile::unnamed(alloc),
            key: InputFile::unnamed(alloc),
            program: InputFile::unnamed(alloc),
        }
    }

    /// Whether there was no memory to keep the whole text of one of them.
    pub fn is_short(&self) -> bool
        ensures { result ≡ is_short self.now }
    {
        self.setup.is_short
            || self.schedule.is_short
            || self.features.is_short
            || self.contacts.is_short
            || self.record.is_short
            || self.limits.is_short
            || self.machine.is_short
            || self.key.is_short
            || self.program.is_short
    }

    fn into_file(self, role: Role) -> InputFile
        ensures { result ≡ file_in self role }
    {
        match role {
            Role::Setup => self.setup,
            Role::Schedule => self.schedule,
            Role::Features => self.features,
            Role::Contacts => self.contacts,
            Role::Record => self.record,
            Role::Limits => self.limits,
            Role::Machine => self.machine,
            Role::Key => self.key,
            Role::Program => self.program,
        }
    }
}

/// Where a file is refused and what is wrong there, as `write_place` shows it; nothing if no file is refused at a line. Fails only if out of
/// memory.
pub fn place_of(
    alloc: Global,
    fault: &FilesFault,
    files: &InputFiles,
) -> Result<Vec<u8>, AllocError>
    ensures { IfOk result (λ shown. IsPlaceShown fault.now (file_in files.now) shown.items) }
{
    let file = match fault {
        FilesFault::Setup(_) => &files.setup,
        FilesFault::Schedule(_) => &files.schedule,
        FilesFault::Features(_) => &files.features,
        FilesFault::Contacts(_) => &files.contacts,
        FilesFault::Record(_) | FilesFault::BadSeal(_) => &files.record,
        FilesFault::Limits(_) => &files.limits,
        FilesFault::Machine(_) => &files.machine,
        _ => &files.program,
    };
    let mut out = Vec::new(alloc);
    write_place(&mut out, fault, file.name.as_str(), file.text.as_slice())?;
    Ok(out)
}

/// What is shown for the fault of an order, with the name of the file that it blames.
pub fn shown_fault(fault: FilesFault, files: InputFiles) -> OrderFault
    ensures { IsFaultShown fault (file_in files) result }
{
    match fault {
        FilesFault::Setup(SetupFault::Memory)
        | FilesFault::Schedule(ScheduleFault::Memory)
        | FilesFault::Features(TextFault::Memory)
        | FilesFault::Contacts(TextFault::Memory)
        | FilesFault::Record(RecordFault::Memory)
        | FilesFault::Limits(LimitsFault::Memory)
        | FilesFault::Machine(MachineFault::Memory)
        | FilesFault::Program(ProgramFault::Memory)
        | FilesFault::Memory => OrderFault::Memory,
        FilesFault::Setup(cause) => OrderFault::Setup(cause),
        FilesFault::Schedule(cause) => OrderFault::Schedule(cause),
        FilesFault::Features(cause) => OrderFault::Features(cause),
        FilesFault::Contacts(cause) => OrderFault::Contacts(cause),
        FilesFault::Record(cause) => OrderFault::Record(cause),
        FilesFault::Limits(cause) => OrderFault::Limits(cause),
        FilesFault::Machine(cause) => OrderFault::Machine(cause),
        FilesFault::OtherProgram(label) => OrderFault::OtherProgram(label),
        FilesFault::BadSeal(line) => OrderFault::BadSeal(line),
        FilesFault::EmptyKey => OrderFault::EmptyKey,
        FilesFault::Program(cause) => OrderFault::Program(cause),
        FilesFault::Unread(role) => OrderFault::CannotRead(files.into_file(role).name),
        FilesFault::NotOurs => OrderFault::NotOurs,
        FilesFault::Write => OrderFault::CannotWriteOutput,
    }
}
