// Coordinate systems.

use crate::lengths::Point;

/// The coordinate system in which a position is given: the machine's, or a part's, whose zero point
/// is at the given place in machine axes (ISO 22093 `RECALL/D`; axes are parallel to the machine's).
#[derive(Clone, Copy, Debug, PartialEq, Eq)]
pub enum Frame {
    Machine,
    Part(Point),
}
