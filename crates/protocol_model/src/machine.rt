// What a machine is asked to do, and how it ends.

use fixed_um::{Dir, Name, Point};

/// What a measuring machine is asked to do. Points are in machine axes (this profile).
#[derive(Debug, Drop)]
pub enum Job {
    /// Goes to its home position.
    Home,
    /// The probe goes to a point.
    Move(Point),
    /// The probe touches near a point, with the outward normal of the surface there if there is one given.
    Touch(Point, Option<Dir>),
    /// The tool in the probe head is changed.
    Change(Name),
}

/// How a job on the machine ends. Points are in machine axes (this profile).
#[derive(Clone, Copy, Debug, PartialEq, Eq)]
pub enum Outcome {
    /// A job other than a touch is done.
    Done,
    /// A touch met a surface here.
    Touched(Point),
    /// A touch met no surface.
    Missed,
    /// The machine stopped.
    Fault,
}
