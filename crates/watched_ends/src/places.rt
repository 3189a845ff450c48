// Where the client uses each tag last.

ghost use Rattle.std.specs.Prelude.{◌≡◌, ◌<◌, ◌≤◌, ◌+◌, ◌^◌, [], ℕ, List, false, if◌then◌else◌, length, drop, get_or, IfOk, OnOk};
ghost use Rattle.watched_ends.specs.Names.{at_once_line, some_sends};
ghost use Rattle.watched_ends.specs.Turns as spec;

use dme_line::Tag;
use line_framing::Line;
use std::alloc::{AllocError, Global};
use witness::tables::{look, put};
use witness::{foreign_event, sent};

/// Notes the tag of a line of the client, at a place: the place after the last line that may be carried out at once, which was `quiet` above this
/// one. Fails only if out of memory.
#[tactic(auto, using(crate::proofs::PlaceLemmas::untagged))]
fn note(
    alloc: Global,
    places: &mut Vec<Option<usize>>,
    at: usize,
    line: &[u8],
    quiet: usize,
) -> Result<usize, AllocError>
    requires { at < 2 ^ 63 }
    ensures quiet { IfOk result (λ n. n ≡ (if at_once_line line.now then at + 1 else quiet)) }
    ensures noted { OnOk result ((up : List (List ℕ)) → get_or up at [] ≡ line.now
        → spec.AreLast up at places.old.items → spec.AreLast up (at + 1) places.new.items) }
{
    let Some((tag, command)) = sent(alloc, line)? else {
        return Ok(at + 1);
    };
    put(places, tag, Some(at + 1))?;
    if foreign_event(tag, &command) {
        return Ok(at + 1);
    }
    Ok(quiet)
}

/// What comes later in the lines of a client.
#[derive(Drop)]
pub(crate) struct Later {
    /// The place after the last line under each tag.
    pub(crate) places: Vec<Option<usize>>,
    /// The place after the last line that may be carried out at once.
    pub(crate) quiet: usize,
}

pub(crate) fn later_of(alloc: Global, up: &[Line]) -> Result<Later, AllocError>
    ensures last { IfOk result (λ l. spec.AreLast up.now (length up.now) l.places.items) }
    ensures quiet { IfOk result (λ l. spec.AreQuiet up.now (length up.now) l.quiet) }
    ensures within { IfOk result (λ l. l.quiet ≤ length up.now) }
{
    let mut places = Vec::new(alloc);
    let mut quiet = 0;
    for at in 0..up.len() {
        quiet = note(alloc, &mut places, at, up[at].as_slice(), quiet)?;
    }
    Ok(Later { places, quiet })
}

/// Whether the client may send a line under a tag from a place on.
pub(crate) fn may_come(places: &[Option<usize>], tag: Tag, next: usize) -> bool
    ensures { (up : List (List ℕ)) → spec.AreLast up (length up) places.now → result ≡ false
        → some_sends tag (drop next up) ≡ false }
{
    match look(places, tag) {
        Some(place) => next < place,
        None => false,
    }
}
