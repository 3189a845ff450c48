// Acts of a server.

use fixed_um::{Dir, Frame, Name, Point};

/// One thing that a server has done: it is in its ledger from the moment it was completed (this profile).
/// Points are in the frame next to them.
#[derive(Debug, Drop)]
pub enum Act {
    /// It answered whether the machine is homed.
    HomedIs(bool),
    /// The machine is at its home position.
    Homed,
    /// The probe is at a target.
    Moved(Point, Frame),
    /// A tool is in the probe head.
    Changed(Name),
    /// A coordinate system is selected.
    Framed(Frame),
    /// The probe touched: what was asked for, the tool and frame of the touch, and the point that was reported.
    Contact {
        target: Point,
        dir: Option<Dir>,
        tool: Name,
        frame: Frame,
        point: Point,
    },
}
