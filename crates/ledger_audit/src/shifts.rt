// How far a search for a feature's run moves when a contact does not fit.

ghost use Rattle.std.specs.Prelude.{◌≡◌, ◌<◌, ◌≤◌, ◌+◌, ◌↔◌, ℕ, IsTrue, IsFalse, IfOk, length};
ghost use Rattle.ledger_audit.specs.Shifts.{asked_at, LastMeets, IsLeastShift, IsCandidate, AreShifts};

use crate::probings::{asked, same_probing};
use dmis_program::Touch;
use fixed_um::Point;
use std::alloc::{AllocError, Global};

/// Whether the last of the first `count` touches, where these are moved by a shift against themselves, asks for the same as the touch
/// that it then lies on.
fn last_meets(touches: &[Touch], points: &[Point], count: usize, shift: usize) -> bool
    requires points { count ≤ length points.now }
    requires touches { count ≤ length touches.now }
    requires some { 1 ≤ shift }
    ensures meets { IsTrue result ↔ LastMeets (asked_at touches.now points.now) count shift }
    ensures below { IsFalse result → shift < count }
{
    shift >= count
        || same_probing(
            &asked(touches, points, count - 1),
            &asked(touches, points, count - 1 - shift),
        )
}

/// The least shift by which as many of the first touches as there are shifts in the table meet themselves, from a candidate on.
fn least_shift(touches: &[Touch], points: &[Point], shifts: &[usize], candidate: usize) -> usize
    requires points { length shifts.now ≤ length points.now }
    requires touches { length shifts.now ≤ length touches.now }
    requires shifts { AreShifts (asked_at touches.now points.now) shifts.now }
    requires candidate { IsCandidate (asked_at touches.now points.now) (length shifts.now) candidate }
    ensures { IsLeastShift (asked_at touches.now points.now) (length shifts.now) result }
{
    let count = shifts.len();
    let mut shift = candidate;
    while !last_meets(touches, points, count, shift) {
        shift += shifts[count - 1 - shift];
    }
    shift
}

/// For each count below that of the touches, from 0 on, the least shift by which that many of the first touches meet themselves. The time
/// is linear in the count of the touches: over all calls of `least_shift` the shift only rises. Fails only if out of memory.
pub(crate) fn shifts_of(
    alloc: Global,
    touches: &[Touch],
    points: &[Point],
) -> Result<Vec<usize>, AllocError>
    requires { length touches.now ≡ length points.now }
    ensures long { IfOk result (λ s. length s.items ≡ length points.now) }
    ensures shifts { IfOk result (λ s. AreShifts (asked_at touches.now points.now) s.items) }
{
    let mut shifts: Vec<usize> = Vec::with_capacity(alloc, points.len())?;
    let mut shift = 1;
    while shifts.len() < points.len() {
        shift = least_shift(touches, points, shifts.as_slice(), shift);
        shifts.push(shift)?;
    }
    Ok(shifts)
}
