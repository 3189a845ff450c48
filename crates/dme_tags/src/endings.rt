// The end of a command.

use dme_line::Kind;
use protocol_model::Datum;

/// How a command ends when its `%` is read (this profile).
#[derive(Clone, Copy, Debug, PartialEq, Eq)]
pub enum Ended {
    /// A command of this kind is done, and counts. `PtMeas` has the point of its data line, `IsHomed` whether the machine is homed, and
    /// any other command no data.
    Counted(Kind, Option<Datum>),
    /// A command that has failed is closed.
    Closed,
}
