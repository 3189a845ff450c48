// Positions in machine axes.

ghost use Rattle.std.specs.Prelude.{◌≡◌, ◌≤◌, ◌+ℤ◌, unsigned_abs};
ghost use Rattle.drawings.specs.Places.{machine_limit, place_of};

use fixed_um::{Point, Um};
use std::marker::Model;

/// A coordinate in machine axes, in micrometres.
#[derive(Clone, Copy)]
pub(crate) struct Coordinate {
    micrometres: i64,
}

impl Model for Coordinate {
    ghost use Rattle.std.specs.Prelude.{ℤ, ◌≤◌, unsigned_abs};

    ghost Value = { ℤ };

    ghost view = { λ c. c.micrometres };

    ghost invariant = { λ c. unsigned_abs c.micrometres ≤ 8000000000 };

    ghost inverse = { λ n. record { micrometres = n } };
}

impl Coordinate {
    /// A length in the axes of a frame with this zero point.
    fn of(length: Um, origin: Um) -> Coordinate
        ensures { result ≡ length +ℤ origin }
    {
        Coordinate {
            micrometres: length.get() + origin.get(),
        }
    }

    /// The micrometres.
    pub fn get(self) -> i64
        ensures value { result ≡ self }
        ensures within { unsigned_abs result ≤ machine_limit }
    {
        self.micrometres
    }
}

/// A place in machine axes.
#[derive(Clone, Copy)]
pub(crate) struct Place {
    pub x: Coordinate,
    pub y: Coordinate,
    pub z: Coordinate,
}

impl Place {
    /// A point in the axes of a frame with this zero point. Does not allocate.
    pub fn of(point: Point, origin: Point) -> Place
        ensures { result ≡ place_of point origin }
    {
        Place {
            x: Coordinate::of(point.x, origin.x),
            y: Coordinate::of(point.y, origin.y),
            z: Coordinate::of(point.z, origin.z),
        }
    }
}
