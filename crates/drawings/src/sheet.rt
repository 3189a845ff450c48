// The sheet of paper.

ghost use Rattle.std.specs.Prelude.{◌≡◌, ◌≤◌};
ghost use Rattle.drawings.specs.Sheet.{sheet_width, sheet_height, IsOnSheet};

use std::marker::Model;

/// A position on the sheet, in micrometres from its left upper corner.
#[derive(Clone, Copy)]
pub(crate) struct Position {
    across: u64,
    down: u64,
}

impl Model for Position {
    ghost use Rattle.drawings.specs.Sheet.{Spot, IsOnSheet};

    ghost Value = { Spot };

    ghost view = { λ p. record { across = p.across; down = p.down } };

    ghost invariant = { λ p. IsOnSheet (record { across = p.across; down = p.down }) };

    ghost inverse = { λ s. record { across = s.across; down = s.down } };
}

impl Position {
    /// A position. Requires that it is on the sheet.
    pub fn new(across: u64, down: u64) -> Position
        requires { IsOnSheet (record { across = across; down = down }) }
        ensures { result ≡ record { across = across; down = down } }
    {
        Position { across, down }
    }

    /// How far from the left edge.
    pub fn across(self) -> u64
        ensures value { result ≡ self.across }
        ensures within { result ≤ sheet_width }
    {
        self.across
    }

    /// How far from the upper edge.
    pub fn down(self) -> u64
        ensures value { result ≡ self.down }
        ensures within { result ≤ sheet_height }
    {
        self.down
    }
}
