// What an audit found: how much it audited, why a feature has no run, which contact is nearest to a touch that has none, and which contacts
// serve no feature.

ghost use Rattle.std.specs.Prelude.{◌≡◌, OnErr};

use crate::touches::{Appended, Contact, Request, contacts_of, point_text};
use contact_ledger::{Feature, ServerLedger};
use dmis_program::{Program, Touch, Wanted};
use fixed_um::{Point, Um};
use ledger_audit::{Verdict, audit};
use session_telling::visible;
use std::alloc::{AllocError, Global};

/// Appends a line for each contact from one number on and before another: that it serves no feature.
fn add_unserving(text: &mut String, contacts: &[Contact], from: usize, to: usize) -> Appended {
    let alloc = *text.allocator();
    for contact in contacts.iter().take(to).skip(from) {
        let number = contact.number;
        let target = point_text(alloc, contact.asked.target)?;
        let point = point_text(alloc, contact.point)?;
        let connection = contact.shown_on;
        writeln!(
            text,
            "dme: contact {number} on connection {connection} serves no feature: target {target}, point {point}"
        )?;
    }
    Ok(())
}

/// Appends a line for each contact before and between the runs of these features, which begin at these numbers. The number of the contact
/// after the last run.
fn add_between(
    text: &mut String,
    features: &[Feature],
    starts: &[u64],
    contacts: &[Contact],
) -> Result<usize, AllocError> {
    let mut passed = 0;
    for (start, feature) in starts.iter().zip(features) {
        let start = *start as usize;
        add_unserving(text, contacts, passed, start)?;
        passed = start.saturating_add(feature.points.len());
    }
    Ok(passed)
}

/// How many of these contacts, from the first on, serve the first touches on one connection: they are asked for alike, and their points are
/// these.
fn served(contacts: &[Contact], touches: &[Touch], points: &[Point]) -> usize {
    let Some(first) = contacts.first() else {
        return 0;
    };
    let serves = |((contact, touch), point): &((&Contact, &Touch), &Point)| {
        contact.connection == first.connection
            && contact.point == **point
            && contact.asked == Request::of_touch(touch)
    };
    let asked = contacts.iter().zip(touches).zip(points);
    asked.take_while(serves).count()
}

/// How far two points lie apart, along the three axes together, in micrometres.
fn distance(one: &Point, other: &Point) -> u64 {
    let apart = |one: Um, other: Um| one.get().abs_diff(other.get());
    apart(one.x, other.x)
        .saturating_add(apart(one.y, other.y))
        .saturating_add(apart(one.z, other.z))
}

/// Appends which contact is nearest to a touch, and in what it differs from that and from the point of a feature.
fn add_contact(text: &mut String, contact: &Contact, touch: &Touch, point: Point) -> Appended {
    let alloc = *text.allocator();
    let number = contact.number;
    let connection = contact.shown_on;
    write!(
        text,
        "the nearest contact, {number} on connection {connection}, "
    )?;
    let wanted = Request::of_touch(touch);
    if let Some((what, one, other)) = contact.asked.difference(alloc, &wanted)? {
        return writeln!(text, "has {what} {one}, and the program {other}");
    }
    let one = point_text(alloc, contact.point)?;
    let other = point_text(alloc, point)?;
    writeln!(text, "has point {one}, and the features {other}")
}

/// Appends which touch of a feature has no contact among these, and in what the nearest one differs. The nearest is the one that follows the
/// first of the longest runs of contacts that serve the touches before; if no contact serves the first touch, the first with the nearest
/// target.
fn add_nearest(
    text: &mut String,
    feature: &Feature,
    touches: &[Touch],
    contacts: &[Contact],
) -> Appended {
    let points = feature.points.as_slice();
    let mut first = 0;
    let mut count = 0;
    for start in 0..contacts.len() {
        let (_, rest) = contacts.split_at(start);
        let length = served(rest, touches, points);
        if length > count {
            first = start;
            count = length;
        }
    }
    let after = first.saturating_add(count);
    let (Some(touch), Some(point)) = (touches.get(count), points.get(count)) else {
        return Ok(());
    };
    let label = visible(*text.allocator(), feature.label.as_bytes())?;
    let place = count.saturating_add(1);
    write!(text, "dme: touch {place} of {label}: ")?;
    if count == 0 {
        let nearest = contacts
            .iter()
            .min_by_key(|contact| distance(&contact.asked.target, &touch.target));
        return match nearest {
            Some(contact) => add_contact(text, contact, touch, *point),
            None => writeln!(text, "no contact is left"),
        };
    }
    let Some(before) = contacts.get(after.saturating_sub(1)) else {
        return writeln!(text, "no contact is left");
    };
    match contacts.get(after) {
        Some(contact) if contact.connection == before.connection => {
            add_contact(text, contact, touch, *point)
        }
        _ => {
            let connection = before.shown_on;
            let last = before.number;
            writeln!(text, "connection {connection} has no contact after {last}")
        }
    }
}

/// Appends why the first feature without a run has none among these contacts.
fn add_reason(
    text: &mut String,
    feature: &Feature,
    wanted: Option<&Wanted>,
    contacts: &[Contact],
) -> Appended {
    let alloc = *text.allocator();
    let label = visible(alloc, feature.label.as_bytes())?;
    let Some(wanted) = wanted else {
        return writeln!(
            text,
            "dme: the program has no feature in the place of {label}"
        );
    };
    if wanted.label.as_bytes() != feature.label.as_bytes() {
        let other = visible(alloc, wanted.label.as_bytes())?;
        return writeln!(text, "dme: the program has {other} in the place of {label}");
    }
    let count = feature.points.len();
    let touches = wanted.touches.as_slice();
    let other = touches.len();
    if count != other {
        return writeln!(
            text,
            "dme: {label} has {count} points, and {other} touches in the program"
        );
    }
    add_nearest(text, feature, touches, contacts)
}

/// The text of an audit's explanation.
fn audit_text(
    alloc: Global,
    program: &Program,
    features: &[Feature],
    ledger: &ServerLedger,
    connections: &[u64],
) -> Result<String, AllocError> {
    let mut text = String::new(alloc);
    let count = features.len();
    let all = program.features().len();
    writeln!(text, "dme: {count} of {all} features audited")?;
    let sound = match audit(alloc, program, features, ledger)? {
        Verdict::Starts(_) => count,
        Verdict::NoRun(number) => number.saturating_sub(1).min(count),
    };
    let (first, _) = features.split_at(sound);
    let Verdict::Starts(starts) = audit(alloc, program, first, ledger)? else {
        return Ok(text);
    };
    let contacts = contacts_of(alloc, ledger.acts(), connections)?;
    let contacts = contacts.as_slice();
    let passed = add_between(&mut text, first, starts.as_slice(), contacts)?;
    if let Some(feature) = features.get(sound) {
        let wanted = program.features().get(sound);
        let (_, left) = contacts.split_at(passed.min(contacts.len()));
        add_reason(&mut text, feature, wanted, left)?;
    }
    add_unserving(&mut text, contacts, passed, contacts.len())?;
    Ok(text)
}

/// Appends what an audit of features by a ledger found, a line each: how many of the program's features were audited; if one has no run,
/// which touch of the first of these has no contact, and in what the nearest contact differs; and the contacts that serve no feature, with
/// their numbers, counted from 0, and their connections: these, if there are any, or else those of the ledger. Fails only if out of memory,
/// and then nothing is appended.
pub fn write_audit(
    out: &mut Vec<u8>,
    program: &Program,
    features: &[Feature],
    ledger: &ServerLedger,
    connections: &[u64],
) -> Result<(), AllocError>
    ensures err { OnErr result (out.new.items ≡ out.old.items) }
{
    let text = audit_text(*out.allocator(), program, features, ledger, connections)?;
    out.extend_from_slice(text.as_bytes())
}
