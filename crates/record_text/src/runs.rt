// The contacts that complete a feature.

ghost use Rattle.std.specs.Prelude.{◌≡◌, ◌↔◌, ◌≤◌, ◌∷◌, ℕ, List, drop, IsTrue, IfOk};
ghost use Rattle.record_text.specs.Names.{Finds, Act, contacts, Serves, last_frame, IsServedBy};

use crate::comparing::{same_dir, same_frame, same_name, same_point};
use crate::telling::is_contact;
use contact_ledger::{Act, Points};
use dmis_program::Touch;
use fixed_um::{Dir, Frame, Name, Point};
use std::alloc::{AllocError, Global};

pub(crate) fn last_frame(touches: &[Touch]) -> Frame
    ensures { result ≡ last_frame touches.now }
{
    let mut frame = Frame::Machine;
    for touch in touches {
        frame = touch.frame;
    }
    frame
}

/// How many contacts are left of `left` after an act.
fn left_after(act: &Act, left: u64) -> u64
    requires { 1 ≤ left }
    ensures { (n : ℕ) (acts : List (ℕ × Act)) → drop left (contacts ((n, act.now) ∷ acts))
        ≡ drop result (contacts acts) }
{
    if !is_contact(act) {
        return left;
    }
    left - 1
}

/// The acts that follow the first `count` contacts.
pub(crate) fn behind_contacts(acts: &[(u64, Act)], count: u64) -> &[(u64, Act)]
    ensures { contacts result.now ≡ drop count (contacts acts.now) }
{
    let mut left = count;
    for at in 0..acts.len() {
        if left == 0 {
            let (_, after) = acts.split_at(at);
            return after;
        }
        let (_, act) = &acts[at];
        left = left_after(act, left);
    }
    let (_, none) = acts.split_at(acts.len());
    none
}

fn is_asked(touch: &Touch, target: Point, dir: Option<Dir>, tool: &Name, frame: Frame) -> bool
    ensures { IsTrue result ↔ ((target ≡ touch.now.target) × (dir ≡ touch.now.dir)
        × (tool.now ≡ touch.now.tool) × (frame ≡ touch.now.frame)) }
{
    same_point(target, touch.target)
        && same_dir(dir, touch.dir)
        && same_name(tool, &touch.tool)
        && same_frame(frame, touch.frame)
}

fn served_point(connection: u64, touch: &Touch, on: u64, act: &Act) -> Option<Point>
    ensures { Finds result (λ p. IsServedBy connection touch.now p on act.now) }
{
    let Act::Contact {
        target,
        dir,
        tool,
        frame,
        point,
    } = act
    else {
        return None;
    };
    (on == connection && is_asked(touch, *target, *dir, tool, *frame)).then_some(*point)
}

/// The points that the contacts among these acts reported, if each serves its own touch, in order, all on this connection. Fails only if
/// out of memory.
pub(crate) fn served_points(
    alloc: Global,
    connection: u64,
    touches: &[Touch],
    acts: &[(u64, Act)],
) -> Result<Option<Points>, AllocError>
    ensures { IfOk result (λ found. Finds found (λ points.
        Serves connection touches.now points (contacts acts.now))) }
{
    let mut points = Points::new(alloc);
    for entry in acts {
        let (on, act) = entry;
        if !is_contact(act) {
            continue;
        }
        let Some(touch) = touches.get(points.len()) else {
            return Ok(None);
        };
        let Some(point) = served_point(connection, touch, *on, act) else {
            return Ok(None);
        };
        points.push(point)?;
    }
    if points.len() < touches.len() {
        return Ok(None);
    }
    Ok(Some(points))
}
