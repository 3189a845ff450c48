// What a run holds back at texts for its operator.

ghost use Rattle.std.specs.Prelude.{◌≡◌, map, IfOk};
ghost use Rattle.order_parts.specs.Pauses.{pauses_of, place_seen};

use std::alloc::{AllocError, Global};

/// What a run holds back at a text for the operator: how many of its plan's last commands, all if `usize::MAX`; whether it waits there; whether
/// the text stands above each touch that is left; and its line, and the statement as it is shown.
#[derive(Drop)]
pub struct TextPlace {
    pub held: usize,
    pub is_waited: bool,
    pub is_first: bool,
    pub line: u64,
    pub shown: String,
}

/// How many commands a run holds back at each of its pauses: at texts with no command between them, there is one. Fails only if out of memory.
pub fn pauses(alloc: Global, places: &[TextPlace]) -> Result<Vec<usize>, AllocError>
    ensures { IfOk result (λ pauses. pauses.items
        ≡ pauses_of (map place_seen places.now)) }
{
    let mut pauses = Vec::new(alloc);
    let mut before = 0;
    for place in places {
        if place.is_waited && place.held != before {
            pauses.push(place.held)?;
            before = place.held;
        }
    }
    Ok(pauses)
}
