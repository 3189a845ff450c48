// Lines of the client are read when a response needs them.

ghost use Rattle.std.specs.Prelude.{◌≡◌, ◌<◌, ◌≤◌, ◌+◌, ◌++◌, ◌∷◌, [], ℕ, List, true, false, length, drop, IfOk, OnOk, IfSome};
ghost use Rattle.watched_ends.specs.Names.{the_mark, signal_of, ledger};
ghost use Rattle.witness.specs.Marks as marks;
ghost use Rattle.witness_laws.specs.Orders as orders;
ghost use Rattle.watched_ends.specs.Turns as spec;

use crate::places::{Later, later_of, may_come};
use dme_line::{MarkSlice, Tag, cut_response};
use line_framing::Line;
use std::alloc::{AllocError, Global};
use witness::{Dialogue, Use, is_end};

fn is_open(tag: Tag, uses: &[Use]) -> bool
    ensures { result ≡ orders.is_open tag uses.now }
{
    uses.iter().any(|used| used.tag == tag)
}

/// Whether the one that was sent first of those has failed.
fn has_failed(tag: Tag, uses: &[Use]) -> bool
    ensures { result ≡ orders.has_failed_under tag uses.now }
{
    for used in uses {
        if used.tag == tag {
            return used.has_failed;
        }
    }
    false
}

fn read_next(dialogue: &mut Dialogue, up: &[Line], next: usize) -> Result<(), AllocError>
    requires { next < length up.now }
    ensures { (down : List (List ℕ)) → spec.AreTaken up.now next down dialogue.old
        → OnOk result (spec.AreTaken up.now (next + 1) down dialogue.new) }
{
    dialogue.client_line(up[next].as_slice())
}

fn read_to(dialogue: &mut Dialogue, up: &[Line], next: usize, end: usize) -> Result<(), AllocError>
    requires ordered { next ≤ end }
    requires within { end ≤ length up.now }
    ensures { (down : List (List ℕ)) → spec.AreTaken up.now next down dialogue.old
        → OnOk result (spec.AreTaken up.now end down dialogue.new) }
{
    for at in next..end {
        read_next(dialogue, up, at)?;
    }
    Ok(())
}

/// Reads the lines of the client that a response under a tag may be for: the place of the next. Fails only if out of memory.
#[tactic(auto, using(crate::proofs::TurnLemmas::none_left))]
fn read_for(
    dialogue: &mut Dialogue,
    up: &[Line],
    places: &[Option<usize>],
    next: usize,
    tag: Tag,
) -> Result<usize, AllocError>
    requires within { next ≤ length up.now }
    requires last { spec.AreLast up.now (length up.now) places.now }
    ensures taken { (down : List (List ℕ)) → spec.AreTaken up.now next down dialogue.old
        → IfOk result (λ n. spec.AreTaken up.now n down dialogue.new) }
    ensures later { IfOk result (λ n. next ≤ n) }
    ensures within { IfOk result (λ n. n ≤ length up.now) }
    ensures behind { IfOk result (λ n. orders.is_open tag dialogue.new.uses ≡ false
        → orders.some_sends tag (drop n up.now) ≡ false) }
{
    if !may_come(places, tag, next) {
        return Ok(next);
    }
    for at in next..up.len() {
        if is_open(tag, dialogue.uses()) {
            return Ok(at);
        }
        read_next(dialogue, up, at)?;
    }
    Ok(up.len())
}

/// Whether a response ends a command that has failed, and the client sends more under its tag: then it is not clear which has failed.
fn is_unclear(
    dialogue: &Dialogue,
    places: &[Option<usize>],
    next: usize,
    tag: Tag,
    mark: MarkSlice<'_>,
) -> bool
    ensures { (up : List (List ℕ)) → spec.AreLast up (length up) places.now → result ≡ false
        → marks.is_end (signal_of (the_mark mark.entry)) ≡ true
        → orders.has_failed_under tag dialogue.now.uses ≡ true
        → orders.some_sends tag (drop next up) ≡ false }
{
    is_end(mark) && has_failed(tag, dialogue.uses()) && may_come(places, tag, next)
}

/// Reads a line of the server, a response after the lines of the client that it may be for: the place of the client's next line, or nothing if the
/// order is not clear. Fails only if out of memory.
#[tactic(auto, using(crate::proofs::TurnLemmas::answer_is))]
fn read_one(
    dialogue: &mut Dialogue,
    up: &[Line],
    later: &Later,
    next: usize,
    line: &[u8],
) -> Result<Option<usize>, AllocError>
    requires within { next ≤ length up.now }
    requires last { spec.AreLast up.now (length up.now) later.now.places.items }
    requires quiet { spec.AreQuiet up.now (length up.now) later.now.quiet }
    requires read { later.now.quiet ≤ next }
    ensures taken { (down : List (List ℕ)) → spec.AreTaken up.now next down dialogue.old
        → IfOk result (λ found. IfSome found
        (λ n. spec.AreTaken up.now n (down ++ line.now ∷ []) dialogue.new)) }
    ensures later { IfOk result (λ found. IfSome found (λ n. next ≤ n)) }
    ensures within { IfOk result (λ found. IfSome found (λ n. n ≤ length up.now)) }
{
    match cut_response(line) {
        Ok(response) => {
            let places = later.places.as_slice();
            let read = read_for(dialogue, up, places, next, response.tag)?;
            if is_unclear(dialogue, places, read, response.tag, response.mark) {
                return Ok(None);
            }
            dialogue.server_line(line)?;
            Ok(Some(read))
        }
        Err(_) => {
            dialogue.server_line(line)?;
            Ok(Some(next))
        }
    }
}

/// What lines of both ends report, each line of the client's read when a response needs it; nothing if it is not clear that this is what they
/// report with all of the client's read first. Fails only if out of memory.
#[tactic(auto, using(crate::proofs::TurnLemmas::none_taken))]
pub(crate) fn heard_in_turn(
    alloc: Global,
    up: &[Line],
    down: &[Line],
) -> Result<Option<Dialogue>, AllocError>
    ensures { IfOk result (λ found. IfSome found
        (λ d. d.reported ≡ (ledger up.now down.now).reported)) }
{
    let later = later_of(alloc, up)?;
    let mut dialogue = Dialogue::new(alloc, false);
    read_to(&mut dialogue, up, 0, later.quiet)?;
    let mut next = later.quiet;
    for line in down {
        match read_one(&mut dialogue, up, &later, next, line.as_slice())? {
            Some(read) => next = read,
            None => return Ok(None),
        }
    }
    read_to(&mut dialogue, up, next, up.len())?;
    Ok(Some(dialogue))
}

/// What lines of both ends report, with all of the client's read first. Fails only if out of memory.
pub(crate) fn heard(alloc: Global, up: &[Line], down: &[Line]) -> Result<Dialogue, AllocError>
    ensures { IfOk result (λ d. d.reported ≡ (ledger up.now down.now).reported) }
{
    if let Some(dialogue) = heard_in_turn(alloc, up, down)? {
        return Ok(dialogue);
    }
    let mut dialogue = Dialogue::new(alloc, false);
    for line in up {
        dialogue.client_line(line.as_slice())?;
    }
    for line in down {
        dialogue.server_line(line.as_slice())?;
    }
    Ok(dialogue)
}
