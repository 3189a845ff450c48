// Deviations.

ghost use Rattle.std.specs.Prelude.{◌≡◌, ◌≤◌, ◌^◌, unsigned_abs};
ghost use Rattle.deviations.specs.Along.{IsAlong, IsDeviation};
ghost use Rattle.deviations.specs.Rows.{IsAlongNormal};
ghost use Rattle.drawings.specs.Places.{gap_of};
ghost use Rattle.fixed_um.specs.Points.{IsInVolume};

use deviations::{Deviation, along_normal};
use dmis_program::Touch;
use fixed_um::{Dir, Point};
use std::marker::Model;

/// A deviation along a normal, in micrometres.
#[derive(Clone, Copy)]
pub(crate) struct Along {
    micrometres: i128,
}

impl Model for Along {
    ghost use Rattle.std.specs.Prelude.{ℤ, ◌≤◌, ◌^◌, unsigned_abs};

    ghost Value = { ℤ };

    ghost view = { λ a. a.micrometres };

    ghost invariant = { λ a. unsigned_abs a.micrometres ≤ 2 ^ 64 };

    ghost inverse = { λ n. record { micrometres = n } };
}

impl Along {
    fn of(deviation: Deviation, normal: Dir) -> Along
        requires { IsDeviation deviation }
        ensures { IsAlong deviation normal result }
    {
        Along {
            micrometres: along_normal(deviation, normal),
        }
    }

    /// The micrometres.
    pub fn get(self) -> i128
        ensures value { result ≡ self }
        ensures within { unsigned_abs result ≤ 2 ^ 64 }
    {
        self.micrometres
    }
}

/// How far a measured point lies from the target of its touch, and the normal of the surface there, if the program gives one.
#[derive(Clone, Copy)]
pub(crate) struct Away {
    deviation: Deviation,
    normal: Option<Dir>,
}

impl Model for Away {
    ghost use Rattle.deviations.specs.Along.{IsDeviation};
    ghost use Rattle.drawings.specs.Places.{Gap};

    ghost Value = { Gap };

    ghost view = { λ a. record { deviation = a.deviation; normal = a.normal } };

    ghost invariant = { λ a. IsDeviation a.deviation };

    ghost inverse = { λ g. record { deviation = g.deviation; normal = g.normal } };
}

impl Away {
    /// The measured point less the target.
    pub fn of(measured: Point, touch: &Touch) -> Away
        requires { IsInVolume touch.now.target }
        ensures { result ≡ gap_of measured touch.now }
    {
        Away {
            deviation: Deviation::of(measured, touch.target),
            normal: touch.dir,
        }
    }

    /// How far along each axis.
    pub fn deviation(&self) -> Deviation
        ensures value { result ≡ self.now.deviation }
        ensures within { IsDeviation result }
    {
        self.deviation
    }

    /// How far along the normal, if there is one.
    pub fn along(&self) -> Option<Along>
        ensures { IsAlongNormal self.now.deviation self.now.normal result }
    {
        match self.normal {
            Some(normal) => Some(Along::of(self.deviation, normal)),
            None => None,
        }
    }
}
