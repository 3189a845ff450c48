// What a client intends: the commands of a plan.

use dme_line::Command;
use dmis_program::Touch;
use fixed_um::{Frame, Name, Point};

/// What a command of a plan means once it is counted: nothing, or an act of the server (this profile).
#[derive(Debug, Drop)]
pub enum Does {
    Nothing,
    /// It is reported whether the machine is homed.
    AsksHomed,
    /// The machine is homed.
    Homes,
    /// The probe is at a target in a frame.
    Moves(Point, Frame),
    /// A tool is in the probe head.
    Changes(Name),
    /// A coordinate system is selected.
    Frames(Frame),
    /// A wanted touch is made; it may be the last of its feature.
    Touches { touch: Touch, last: bool },
}

/// A command of a plan, with what it means.
#[derive(Debug, Drop)]
pub struct Planned {
    pub command: Command,
    pub does: Does,
}

/// Where a plan begins: it begins a session on a new connection, or continues with the session that there is (this profile).
#[derive(Clone, Copy, Debug, PartialEq, Eq)]
pub enum Start {
    NewConnection,
    SameConnection,
}
