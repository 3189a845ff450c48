// Where the first run of a feature begins among contacts.

ghost use Rattle.std.specs.Prelude.{◌≡◌, ◌≤◌, ◌<◌, ◌+◌, IfSome, IfNone, IfOk, length};
ghost use Rattle.ledger_audit.specs.Names.{asked_at, AreShifts, Begins, HasNoneBetween, IsFirstServed, IsFirstRun, HasNoRun};

use crate::contacts::Contact;
use crate::probings::{asked, same_probing};
use crate::shifts::shifts_of;
use contact_ledger::Feature;
use dmis_program::{Touch, Wanted};
use fixed_um::Point;
use std::alloc::{AllocError, Global};

/// How far a search has come: the contacts from `start` on serve the first `served` touches on one connection.
#[derive(Clone, Copy)]
pub(crate) struct Search {
    start: usize,
    served: usize,
}

/// A search that has examined the next contact. Its start or its count of served touches rises, and it never goes back to a contact
/// before the next one.
fn step(
    touches: &[Touch],
    points: &[Point],
    shifts: &[usize],
    contacts: &[Contact<'_>],
    search: Search,
) -> Search
    requires long { length touches.now ≡ length points.now }
    requires table { length shifts.now ≡ length points.now }
    requires shifts { AreShifts (asked_at touches.now points.now) shifts.now }
    requires touch { search.served < length points.now }
    requires contact { search.start + search.served < length contacts.now }
    requires begins { Begins touches.now points.now contacts.now search.start search.served }
    ensures begins { Begins touches.now points.now contacts.now result.start result.served }
    ensures passed { HasNoneBetween touches.now points.now contacts.now
        search.start result.start }
    ensures start { search.start ≤ result.start }
    ensures further { search.start + (search.start + search.served)
        < result.start + (result.start + result.served) }
    ensures served { result.served ≤ length points.now }
{
    let Search { start, served } = search;
    let first = &contacts[start];
    let next = &contacts[start + served];
    if next.connection() != first.connection() {
        return Search {
            start: start + served,
            served: 0,
        };
    }
    if same_probing(&next.probing(), &asked(touches, points, served)) {
        return Search {
            start,
            served: served + 1,
        };
    }
    let shift = shifts[served];
    Search {
        start: start + shift,
        served: served.saturating_sub(shift),
    }
}

/// The start of the first contacts, from `least` on, that serve all touches on one connection. The time is linear in the count of the
/// contacts from `least` to the last one examined.
fn first_served(
    touches: &[Touch],
    points: &[Point],
    shifts: &[usize],
    contacts: &[Contact<'_>],
    least: usize,
) -> Option<usize>
    requires long { length touches.now ≡ length points.now }
    requires table { length shifts.now ≡ length points.now }
    requires shifts { AreShifts (asked_at touches.now points.now) shifts.now }
    requires least { least ≤ length contacts.now }
    ensures found { IfSome result
        (IsFirstServed touches.now points.now contacts.now least) }
    ensures none { IfNone result (HasNoneBetween touches.now points.now contacts.now
        least (length contacts.now + 1)) }
{
    let mut search = Search {
        start: least,
        served: 0,
    };
    while search.served < points.len() {
        if contacts.len() - search.start < points.len() {
            return None;
        }
        search = step(touches, points, shifts, contacts, search);
    }
    Some(search.start)
}

/// The first run that serves a feature among the contacts from `least` on. Fails only if out of memory.
pub(crate) fn first_run(
    alloc: Global,
    wanted: &Wanted,
    feature: &Feature,
    contacts: &[Contact<'_>],
    least: usize,
) -> Result<Option<usize>, AllocError>
    requires { least ≤ length contacts.now }
    ensures found { IfOk result (λ r. IfSome r
        (IsFirstRun wanted.now feature.now least contacts.now)) }
    ensures within { IfOk result (λ r. IfSome r (λ start. start + length feature.now.points
        ≤ length contacts.now)) }
    ensures none { IfOk result (λ r. IfNone r
        (HasNoRun wanted.now feature.now least contacts.now)) }
{
    if feature.label.as_bytes() != wanted.label.as_bytes() {
        return Ok(None);
    }
    let touches = wanted.touches.as_slice();
    let points = feature.points.as_slice();
    if touches.len() != points.len() {
        return Ok(None);
    }
    let shifts = shifts_of(alloc, touches, points)?;
    Ok(first_served(touches, points, &shifts, contacts, least))
}
