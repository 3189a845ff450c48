// Measured features.

ghost use Rattle.std.specs.Prelude.{◌≡◌, ◌≤◌, List, [], ◌∷◌, ◌++◌, length, take, IfOk};
ghost use Rattle.fixed_um.specs.Calls.{Leads};

use fixed_um::{Frame, Name, Point};
use std::alloc::{AllocError, Global};
use std::marker::Model;

/// The points of a measured feature, in the order in which they were touched.
#[derive(Debug, Drop)]
pub struct Points {
    items: Vec<Point>,
}

impl Model for Points {
    ghost use Rattle.std.specs.Prelude.{List};
    ghost use Rattle.fixed_um.specs.declared.lengths.Point.{Point};

    ghost Value = { List Point };

    ghost view = { λ p. p.items.items };
}

impl Points {
    /// No points yet; it does not allocate.
    pub fn new(alloc: Global) -> Points
        ensures { result ≡ [] }
    {
        Points {
            items: Vec::new(alloc),
        }
    }

    /// Appends a point. Fails only if out of memory; the points are then as before. The room doubles when
    /// it is full.
    pub fn push(&mut self, point: Point) -> Result<(), AllocError>
        ensures { Leads result self.old self.new (self.old ++ point ∷ []) }
    {
        self.items.push(point)?;
        Ok(())
    }

    /// Keeps the first `count` points. The caller must ensure that there are that many.
    pub fn keep(&mut self, count: usize)
        requires { count ≤ length self.old }
        ensures { self.new ≡ take count self.old }
    {
        self.items.truncate(count);
    }

    /// Discards all points, and keeps their room.
    pub fn clear(&mut self)
        ensures { self.new ≡ [] }
    {
        self.items.clear();
    }

    /// How many points there are.
    pub fn len(&self) -> usize
        ensures { result ≡ length self.now }
    {
        self.items.len()
    }

    /// The points, in order.
    pub fn as_slice(&self) -> &[Point]
        ensures { result.now ≡ self.now }
    {
        self.items.as_slice()
    }

    /// Equal points. Fails only if out of memory.
    pub fn copy(&self, alloc: Global) -> Result<Points, AllocError>
        ensures { IfOk result (λ points. points ≡ self.now) }
    {
        let items = Vec::from_slice(alloc, self.items.as_slice())?;
        Ok(Points { items })
    }
}

/// Where a feature comes from (this profile): the connection on which its last point was counted, by its client's own number, from 1 to
/// 4,000,000,000, and the frame of its last touch in the program. A client that drives a foreign server, or begins anew, counts its own
/// connections alone, so that the number need not be the server's.
#[derive(Clone, Copy, Debug, PartialEq, Eq)]
pub struct Origin {
    pub connection: u64,
    pub frame: Frame,
}

/// A measured feature: its label in the program (ISO 22093 `MEAS`), its points in the frames of its touches, and its origin, which is
/// unknown where it was never written down.
#[derive(Debug, Drop)]
pub struct Feature {
    pub label: Name,
    pub points: Points,
    pub origin: Option<Origin>,
}

impl Feature {
    /// An equal feature. Fails only if out of memory.
    pub fn copy(&self, alloc: Global) -> Result<Feature, AllocError>
        ensures { IfOk result (λ feature. feature ≡ self.now) }
    {
        let label = self.label.copy(alloc)?;
        let points = self.points.copy(alloc)?;
        Ok(Feature {
            label,
            points,
            origin: self.origin,
        })
    }
}
