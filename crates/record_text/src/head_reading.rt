// The head of a record, line by line.

ghost use Rattle.std.specs.Prelude.{◌≡◌, ◌<◌, ◌∷◌, ℕ, length, IfOk, IfSome, IfNone, Err};
ghost use Rattle.record_text.specs.Names.{Finds, whole_lines, IsPart, part_line, header, Stage, Next, stage_of, IsValid, IsOpen, HasHead, HasTornHead, IsBadHead, Damaged, Between, Within, Version};

use crate::asked::Asked;
use crate::faults::RecordFault;
use crate::heads::{Head, Place, Unfinished};
use crate::parts::{Part, is_part};
use crate::touch_reading::{read_opening, read_touch};
use crate::versions::{begins_header, version_of};
use contact_ledger::forms::Forms;
use contact_ledger::lines::cut_line;
use std::alloc::{AllocError, Global};

fn read_part(alloc: Global, line: &[u8]) -> Result<Option<Part>, AllocError>
    ensures { IfOk result (λ found. Finds found (λ p. IsPart p × (line.now ≡ part_line p))) }
{
    let Some(text) = line.strip_prefix(b"PART ".as_slice()) else {
        return Ok(None);
    };
    if !is_part(text) {
        return Ok(None);
    }
    let part = Part::new(alloc, text)?;
    Ok(Some(part))
}

/// Reads a line between wanted features.
fn between_line(
    alloc: Global,
    head: &mut Head,
    number: u64,
    line: &[u8],
) -> Result<Place, RecordFault>
    ensures next { IfOk result (λ place.
        Next (stage_of head.old Between) line.now (stage_of head.new place)) }
    ensures valid { IfOk result IsValid }
    ensures damaged { (n : ℕ) → result ≡ Err (Damaged n) → (n ≡ number)
        × ((new : Stage) → Next (stage_of head.old Between) line.now new → ⊥) }
{
    if line == b"END".as_slice() {
        return Ok(Place::Done);
    }
    if let Some((label, count)) = read_opening(alloc, line)? {
        return Ok(Place::Within(Unfinished::new(alloc, label, count)));
    }
    if !head.is_empty() {
        return Err(RecordFault::Damaged(number));
    }
    let Some(part) = read_part(alloc, line)? else {
        return Err(RecordFault::Damaged(number));
    };
    head.part = Some(part);
    Ok(Place::Between)
}

/// Reads a line within a wanted feature. With its last touch, the feature joins the others.
fn touch_line(
    alloc: Global,
    forms: &mut Forms,
    head: &mut Head,
    mut unfinished: Unfinished,
    number: u64,
    line: &[u8],
) -> Result<Place, RecordFault>
    requires { IsValid (Within unfinished) }
    ensures next { IfOk result (λ place.
        Next (stage_of head.old (Within unfinished)) line.now (stage_of head.new place)) }
    ensures valid { IfOk result IsValid }
    ensures damaged { (n : ℕ) → result ≡ Err (Damaged n) → (n ≡ number)
        × ((new : Stage) → Next (stage_of head.old (Within unfinished)) line.now new → ⊥) }
{
    let Some(touch) = read_touch(alloc, forms, line)? else {
        return Err(RecordFault::Damaged(number));
    };
    unfinished.touches.push(touch)?;
    if (unfinished.touches.len() as u64) < unfinished.count {
        return Ok(Place::Within(unfinished));
    }
    let Unfinished { label, touches, .. } = unfinished;
    head.asked.push(Asked::new(label, touches))?;
    Ok(Place::Between)
}

/// Reads the line of this number. An `Err` discards the text.
fn head_line(
    alloc: Global,
    forms: &mut Forms,
    head: &mut Head,
    place: Place,
    number: u64,
    line: &[u8],
) -> Result<Place, RecordFault>
    requires continues { IsOpen place }
    requires valid { IsValid place }
    ensures next { IfOk result (λ after.
        Next (stage_of head.old place) line.now (stage_of head.new after)) }
    ensures valid { IfOk result IsValid }
    ensures damaged { (n : ℕ) → result ≡ Err (Damaged n) → (n ≡ number)
        × ((new : Stage) → Next (stage_of head.old place) line.now new → ⊥) }
{
    match place {
        Place::Between => between_line(alloc, head, number, line),
        Place::Within(unfinished) => touch_line(alloc, forms, head, unfinished, number, line),
        Place::Done => unreachable!(),
    }
}

/// What follows the first line of a record; `None` if there is no line yet.
fn read_header(bytes: &[u8]) -> Result<Option<&[u8]>, RecordFault>
    ensures header { IfOk result (λ found. IfSome found
        (λ after. ((version : Version)
        × (whole_lines bytes.now ≡ header version ∷ whole_lines after.now))
        × (length after.now < length bytes.now))) }
    ensures torn { IfOk result (λ found. IfNone found (HasTornHead bytes.now)) }
    ensures damaged { (n : ℕ) → result ≡ Err (Damaged n) → IsBadHead bytes.now n }
{
    let Some((line, after)) = cut_line(bytes) else {
        if !begins_header(bytes) {
            return Err(RecordFault::Damaged(1));
        }
        return Ok(None);
    };
    let Some(_) = version_of(line) else {
        return Err(RecordFault::Damaged(1));
    };
    Ok(Some(after))
}

/// Reads the head of a record, and answers it with what follows it and the number of its lines; `None` if its end is not written yet.
pub(crate) fn read_head<'a>(
    alloc: Global,
    forms: &mut Forms,
    bytes: &'a [u8],
) -> Result<Option<(Head, &'a [u8], u64)>, RecordFault>
    ensures head { IfOk result (λ found. IfSome found (λ h. HasHead bytes.now h.0 h.1.now h.2)) }
    ensures torn { IfOk result (λ found. IfNone found (HasTornHead bytes.now)) }
    ensures damaged { (n : ℕ) → result ≡ Err (Damaged n) → IsBadHead bytes.now n }
{
    let Some(mut rest) = read_header(bytes)? else {
        return Ok(None);
    };
    let mut number = 1u64;
    let mut head = Head::new(alloc);
    let mut place = Place::Between;
    while let Some((line, after)) = cut_line(rest) {
        number += 1;
        place = head_line(alloc, forms, &mut head, place, number, line)?;
        rest = after;
        if let Place::Done = place {
            return Ok(Some((head, rest, number)));
        }
    }
    Ok(None)
}
