// The side from which the part is seen.

ghost use Rattle.std.specs.Prelude.{◌≡◌, ◌≤◌, unsigned_abs};
ghost use Rattle.deviations.specs.Along.{IsDeviation, deviation_limit};
ghost use Rattle.drawings.specs.Views.{upright_of, part_of};

use crate::places::{Coordinate, Place};
use deviations::Deviation;

/// The side from which the part is seen.
#[derive(Clone, Copy)]
pub(crate) enum Side {
    /// From above: x to the right, y up.
    Plan,
    /// From the front: x to the right, z up.
    Front,
}

impl Side {
    /// The coordinate that is up.
    pub fn upright_of(self, place: Place) -> Coordinate
        ensures { result ≡ upright_of self place }
    {
        match self {
            Side::Plan => place.y,
            Side::Front => place.z,
        }
    }

    /// The part of a deviation that is up.
    pub fn part_of(self, deviation: Deviation) -> i64
        requires { IsDeviation deviation }
        ensures value { result ≡ part_of self deviation }
        ensures within { unsigned_abs result ≤ deviation_limit }
    {
        match self {
            Side::Plan => deviation.y,
            Side::Front => deviation.z,
        }
    }
}
