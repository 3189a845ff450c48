// Lengths and points.

ghost use Rattle.std.specs.Prelude.{◌≡◌, ◌≤◌, unsigned_abs, pos, SomeIff};
ghost use Rattle.fixed_um.specs.Limits.{wire_limit, volume_limit};

use std::marker::Model;

/// A length in whole micrometres, from -4,000,000,000 to 4,000,000,000 (the wire limit of this profile).
#[derive(Clone, Copy, Debug, PartialEq, Eq)]
pub struct Um {
    micrometres: i64,
}

impl Model for Um {
    ghost use Rattle.std.specs.Prelude.{ℤ, ◌≤◌, unsigned_abs};
    ghost use Rattle.fixed_um.specs.Limits.{wire_limit};

    ghost Value = { ℤ };

    ghost view = { λ u. u.micrometres };

    ghost invariant = { λ u. unsigned_abs u.micrometres ≤ wire_limit };

    ghost inverse = { λ n. record { micrometres = n } };
}

impl Um {
    /// The length of that many micrometres; `None` past the wire limit.
    pub fn new(micrometres: i64) -> Option<Um>
        ensures { SomeIff result (unsigned_abs micrometres ≤ wire_limit) micrometres }
    {
        if micrometres >= -4_000_000_000 && micrometres <= 4_000_000_000 {
            Some(Um { micrometres })
        } else {
            None
        }
    }

    /// The length of that many micrometres, which are within the wire limit.
    pub(crate) fn within(micrometres: i64) -> Um
        requires { unsigned_abs micrometres ≤ wire_limit }
        ensures { result ≡ micrometres }
    {
        Um { micrometres }
    }

    /// The micrometres.
    pub fn get(self) -> i64
        ensures value { result ≡ self }
        ensures within { unsigned_abs result ≤ wire_limit }
    {
        self.micrometres
    }

    /// The length of no extent.
    pub fn zero() -> Um
        ensures { result ≡ pos 0 }
    {
        Um { micrometres: 0 }
    }

    /// The limit on the wire, 4,000,000,000 micrometres.
    pub fn wire_limit() -> Um
        ensures { result ≡ pos wire_limit }
    {
        Um {
            micrometres: 4_000_000_000,
        }
    }

    /// The limit in a program, in the setup and on the machine, 1,000,000,000 micrometres.
    pub fn volume_limit() -> Um
        ensures { result ≡ pos volume_limit }
    {
        Um {
            micrometres: 1_000_000_000,
        }
    }
}

/// A position or a displacement, one length for each axis.
#[derive(Clone, Copy, Debug, PartialEq, Eq)]
pub struct Point {
    pub x: Um,
    pub y: Um,
    pub z: Um,
}
