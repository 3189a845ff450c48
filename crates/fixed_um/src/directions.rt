// Directions of touches.

ghost use Rattle.std.specs.Prelude.{◌≡◌, ◌≤◌, unsigned_abs, pos, IsSome, ◌↔◌, IfSome};
ghost use Rattle.fixed_um.specs.Shapes.{Direction, IsDirection};

use std::marker::Model;

/// The direction of a touch, in whole millionths, each component within 1,000,000,000, never all zero: the outward normal of the
/// surface at the nominal point (the `i, j, k` of a PTMEAS in ISO 22093, `IJK` in the I++ DME Interface). The probe comes against it: a top
/// face that is touched from above carries 0, 0, 1. It need not be of length one.
#[derive(Clone, Copy, Debug, PartialEq, Eq)]
pub struct Dir {
    pub i: i32,
    pub j: i32,
    pub k: i32,
}

impl Model for Dir {
    ghost use Rattle.fixed_um.specs.Shapes.{Direction, IsDirection};

    ghost Value = { Direction };

    ghost view = { λ d. record { i = d.i; j = d.j; k = d.k } };

    ghost invariant = { λ d. IsDirection (record { i = d.i; j = d.j; k = d.k }) };

    ghost inverse = { λ d. record { i = d.i; j = d.j; k = d.k } };
}
