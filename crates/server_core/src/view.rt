// What a server shows of its state.

use fixed_um::{Frame, Name, Point};

/// The state of a server (this profile). The stored offset is the part's zero point in machine axes, in micrometres.
#[derive(Debug, Drop)]
pub struct View<'a> {
    /// The number of the connection, while the server is on one.
    pub connection: Option<u64>,
    pub session: bool,
    pub homed: bool,
    /// The tool in the probe head.
    pub tool: Option<&'a Name>,
    pub frame: Frame,
    pub stored: Point,
    /// Whether it is in the error state.
    pub error: bool,
}
