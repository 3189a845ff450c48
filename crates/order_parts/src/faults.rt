// Why an order is not carried out: as a fault of one of its files, and as it is shown, with the exit status that goes with it.

ghost use Rattle.std.specs.Prelude.{◌≡◌};
ghost use Rattle.order_parts.specs.Faults.{status_of};

use contact_ledger::TextFault;
use deviations::{LimitsFault, RowsFault};
use dmis_program::ProgramFault;
use fixed_um::Name;
use link_world::ScheduleFault;
use record_text::RecordFault;
use std::alloc::{AllocError, AllocFailed};
use thiserror::Error;
use tool_rack::{MachineFault, SetupFault};

/// What a file is to an order.
#[derive(Clone, Copy, Debug, PartialEq, Eq)]
pub enum Role {
    /// The machine's setup.
    Setup,
    /// The schedule of a simulation.
    Schedule,
    /// The features of an audit.
    Features,
    /// The contacts of an audit.
    Contacts,
    /// The record of a run.
    Record,
    /// The limits of a part.
    Limits,
    /// A machine's file.
    Machine,
    /// The key of a record's seals.
    Key,
    /// The DMIS program.
    Program,
}

/// Why an order was not carried out.
#[derive(Debug, Drop)]
pub enum FilesFault {
    /// The setup is refused; never because memory ran out.
    Setup(SetupFault),
    /// The schedule is refused; never because memory ran out.
    Schedule(ScheduleFault),
    /// The features are refused; never because memory ran out.
    Features(TextFault),
    /// The contacts are refused; never because memory ran out.
    Contacts(TextFault),
    /// The record is refused; never because memory ran out.
    Record(RecordFault),
    /// The limits are refused; never because memory ran out.
    Limits(LimitsFault),
    /// The machine's file is refused; never because memory ran out.
    Machine(MachineFault),
    /// The program is refused, under the setup's frames; never because memory ran out.
    Program(ProgramFault),
    /// A source has failed, or a million pulls have not come to the end of its text.
    Unread(Role),
    /// The record is not of this program under this setup: this feature differs.
    OtherProgram(Name),
    /// No seal stands for this line of the record.
    BadSeal(u64),
    /// The key of a record's seals has no byte.
    EmptyKey,
    /// The features are not the first ones of the program, by labels and counts of points.
    NotOurs,
    /// The sink has failed; it may have taken a prefix of the text.
    Write,
    /// Out of memory.
    Memory,
}

impl From<RowsFault> for FilesFault {
    ghost use Rattle.std.specs.Prelude.{◌≡◌};
    ghost use Rattle.order_parts.specs.Faults.{told_of_rows};

    ghost from_gives = { λ cause e. e ≡ told_of_rows cause };

    fn from(cause: RowsFault) -> FilesFault {
        match cause {
            RowsFault::NotOurs => FilesFault::NotOurs,
            RowsFault::Memory => FilesFault::Memory,
        }
    }
}

impl From<AllocError> for FilesFault {
    ghost use Rattle.std.specs.Prelude.{◌≡◌};
    ghost use Rattle.order_parts.specs.declared.faults.FilesFault.TheVariants as fault;

    ghost from_gives = { λ _ e. e ≡ fault.Memory };

    fn from(_error: AllocError) -> FilesFault {
        FilesFault::Memory
    }
}

/// Why an order was not carried out, as it is shown on standard error.
#[derive(Debug, Drop, Error)]
pub enum OrderFault {
    /// A DMIS program that is refused; never because memory ran out.
    #[error("dme: {0}\n")]
    Program(ProgramFault),
    /// A setup that is refused; never because memory ran out.
    #[error("dme: {0} in setup\n")]
    Setup(SetupFault),
    /// A schedule that is refused; never because memory ran out.
    #[error("dme: {0} in schedule\n")]
    Schedule(ScheduleFault),
    /// Features that are refused; never because memory ran out.
    #[error("dme: {0} in features\n")]
    Features(TextFault),
    /// Contacts that are refused; never because memory ran out.
    #[error("dme: {0} in contacts\n")]
    Contacts(TextFault),
    /// A record that is refused; never because memory ran out.
    #[error("dme: {0} in record\n")]
    Record(RecordFault),
    /// Limits that are refused; never because memory ran out.
    #[error("dme: {0} in limits\n")]
    Limits(LimitsFault),
    /// A machine's file that is refused; never because memory ran out.
    #[error("dme: {0} in machine\n")]
    Machine(MachineFault),
    /// A record that is not of the program: this feature differs.
    #[error("dme: J3 OtherProgram (feature {0}) in record\n")]
    OtherProgram(Name),
    /// A record of which no seal stands for this line.
    #[error("dme: J4 BadSeal at line {0} in record\n")]
    BadSeal(u64),
    /// The key of a record's seals, which has no byte.
    #[error("dme: J5 EmptyKey in key\n")]
    EmptyKey,
    /// A file that cannot be opened or read; `-` is standard input.
    #[error("dme: cannot read {0}\n")]
    CannotRead(String),
    /// Standard output, which cannot be written.
    #[error("dme: cannot write -\n")]
    CannotWriteOutput,
    /// A file of features or of contacts that cannot be written.
    #[error("dme: cannot write {0}\n")]
    CannotWrite(String),
    /// Features of a file that are not the first ones of the program.
    #[error("dme: C4 NotOurs\n")]
    NotOurs,
    /// No connection, or one that was broken off; then a second line with the cause, or nothing.
    #[error("dme: connection failed\n{0}")]
    ConnectionFailed(&'static str),
    /// Out of memory.
    #[error("dme: out of memory\n")]
    Memory,
}

impl From<AllocError> for OrderFault {
    ghost use Rattle.std.specs.Prelude.{◌≡◌};
    ghost use Rattle.order_parts.specs.declared.faults.OrderFault.TheVariants as fault;

    ghost from_gives = { λ _ e. e ≡ fault.Memory };

    fn from(_error: AllocError) -> OrderFault {
        OrderFault::Memory
    }
}

impl<T: Drop> From<AllocFailed<T>> for OrderFault {
    ghost use Rattle.std.specs.Prelude.{◌≡◌};
    ghost use Rattle.order_parts.specs.declared.faults.OrderFault.TheVariants as fault;

    ghost from_gives = { λ _ e. e ≡ fault.Memory };

    fn from(_error: AllocFailed<T>) -> OrderFault {
        OrderFault::Memory
    }
}

impl OrderFault {
    /// The exit status: 1 for refused input, a file or a connection, 4 if out of memory.
    pub fn status(&self) -> u8
        ensures { result ≡ status_of self.now }
    {
        match self {
            OrderFault::Program(_) | OrderFault::Setup(_) | OrderFault::Schedule(_) => 1,
            OrderFault::Features(_) | OrderFault::Contacts(_) => 1,
            OrderFault::Record(_) | OrderFault::OtherProgram(_) => 1,
            OrderFault::Limits(_) | OrderFault::Machine(_) => 1,
            OrderFault::BadSeal(_) | OrderFault::EmptyKey => 1,
            OrderFault::CannotRead(_)
            | OrderFault::CannotWriteOutput
            | OrderFault::CannotWrite(_) => 1,
            OrderFault::NotOurs | OrderFault::ConnectionFailed(_) => 1,
            OrderFault::Memory => 4,
        }
    }
}
