// The ranges that stops occupy.

ghost use Rattle.std.specs.Prelude.{◌∷◌, IfOk};
ghost use Rattle.drawings.specs.Extents.{AreFilled, IsAlone, TakesIn};
ghost use Rattle.drawings.specs.Stops.{shown_stops};

use crate::places::Place;
use crate::spans::Span;
use crate::walk::{Stop, first_with_any, touches_among};
use fixed_um::Point;
use std::alloc::{AllocError, Global};

/// The spans that stops occupy along each axis.
#[derive(Clone, Copy)]
pub(crate) struct Extents {
    pub x: Span,
    pub y: Span,
    pub z: Span,
}

impl Extents {
    fn at(place: Place) -> Extents
        ensures { IsAlone place result }
    {
        Extents {
            x: Span::at(place.x),
            y: Span::at(place.y),
            z: Span::at(place.z),
        }
    }

    fn with(&self, place: Place) -> Extents
        ensures { TakesIn self.now place result }
    {
        Extents {
            x: self.x.with(place.x),
            y: self.y.with(place.y),
            z: self.z.with(place.z),
        }
    }

    fn reaching(first: &Stop, others: &[Stop]) -> Extents
        ensures { AreFilled (first.now ∷ others.now) result }
    {
        let mut extents = Extents::at(first.place);
        for stop in others {
            extents = extents.with(stop.place);
        }
        extents
    }

    /// The extents of stops; the zero point if there is no stop.
    fn of(stops: &[Stop]) -> Extents
        ensures { AreFilled stops.now result }
    {
        match stops {
            [first, others @ ..] => Extents::reaching(first, others),
            [] => Extents::at(Place::of(Point::zero(), Point::zero())),
        }
    }

    /// The extents of the touches among stops; those of all stops if there is no touch.
    pub fn shown(alloc: Global, stops: &[Stop]) -> Result<Extents, AllocError>
        ensures { IfOk result (λ extents. AreFilled (shown_stops stops.now) extents) }
    {
        let touches = touches_among(alloc, stops)?;
        Ok(Extents::of(first_with_any(touches.as_slice(), stops)))
    }
}
