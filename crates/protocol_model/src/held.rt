// Commands that a client has sent and whose end it has not read.

use dme_line::{Kind, Tag};
use fixed_um::Point;

/// What a data line gives: the point of a touch, or whether the machine is homed (this profile).
#[derive(Clone, Copy, Debug, PartialEq, Eq)]
pub enum Datum {
    Point(Point),
    Homed(bool),
}

/// How far an open command is, by the marks that were read for it (this profile).
#[derive(Clone, Copy, Debug, PartialEq, Eq)]
pub enum Stage {
    /// Nothing was read.
    Sent,
    /// `&` was read.
    Received,
    /// A command that asks for data was received, and its data.
    Given(Datum),
    /// `!` was read.
    Failed,
}

/// An open command: its tag, which is held until its `%` is read, its kind and its stage.
#[derive(Clone, Copy, Debug, PartialEq, Eq)]
pub struct OpenCommand {
    pub tag: Tag,
    pub kind: Kind,
    pub stage: Stage,
}
