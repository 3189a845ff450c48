// Stops with their deviations along the normal.

ghost use Rattle.std.specs.Prelude.{IfOk};
ghost use Rattle.drawings.specs.Seen.{IsAlongOf, AreSeen};

use crate::away::Along;
use crate::walk::{Act, Stop};
use std::alloc::{AllocError, Global};

/// A stop, with the deviation along the normal if it was measured and there is a normal.
#[derive(Clone, Copy)]
pub(crate) struct Seen {
    pub stop: Stop,
    pub along: Option<Along>,
}

fn along_of(stop: &Stop) -> Option<Along>
    ensures { IsAlongOf stop.now.act result }
{
    match stop.act {
        Act::Measured(away) => away.along(),
        Act::Move | Act::Touch => None,
    }
}

/// Stops, each with its deviation along the normal.
pub(crate) fn seen_of(alloc: Global, stops: &[Stop]) -> Result<Vec<Seen>, AllocError>
    ensures { IfOk result (λ seen. AreSeen stops.now seen.items) }
{
    let mut seen = Vec::new(alloc);
    for stop in stops {
        let along = along_of(stop);
        seen.push(Seen { stop: *stop, along })?;
    }
    Ok(seen)
}
