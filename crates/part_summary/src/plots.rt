// What is plotted of parts, and their order.

ghost use Rattle.std.specs.Prelude.{◌≡◌, ◌≤◌, IfOk, length, option_map, take};
ghost use Rattle.dme_orders.specs.RunNotes.{notes_in};
ghost use Rattle.part_summary.specs.Times.{is_after, is_earlier, is_opened, place_for, time_in};

use crate::spans::Span;
use record_text::{Note, Record, Remark};
use std::alloc::{AllocError, Global};
use std::marker::Model;

/// A part as a run chart needs it.
#[derive(Debug, Drop)]
pub(crate) struct Plot {
    pub(crate) name: Vec<u8>,
    pub(crate) measured: usize,
    pub(crate) time: Option<Vec<u8>>,
    pub(crate) spans: Vec<Option<Span>>,
}

impl Model for Plot {
    ghost use Rattle.std.specs.Prelude.{option_map};
    ghost use Rattle.part_summary.specs.Times.{Plot};

    ghost Value = { Plot };

    ghost view = { λ p. record {
      name = p.name.items;
      measured = p.measured;
      time = option_map (λ time. time.items) p.time;
      spans = p.spans.items;
    } };
}

fn is_opened(note: Note) -> bool
    ensures { result ≡ is_opened note }
{
    matches!(note, Note::Opened)
}

/// The first bytes of a text, up to 24.
#[tactic(auto, using(std::proofs::lemmas::List::take_all))]
fn stamp(text: &[u8]) -> &[u8]
    ensures { result.now ≡ take 24 text.now }
{
    if text.len() < 24 {
        return text;
    }
    let (stamp, _) = text.split_at(24);
    stamp
}

/// The time of the first connection that is noted.
fn time_in(alloc: Global, notes: &[Remark]) -> Result<Option<Vec<u8>>, AllocError>
    ensures { IfOk result (λ time. option_map (λ time. time.items) time ≡ time_in notes.now) }
{
    let mut left = notes;
    while let [remark, others @ ..] = left {
        if is_opened(remark.note) {
            return Ok(Some(Vec::from_slice(alloc, stamp(remark.text.as_bytes()))?));
        }
        left = others;
    }
    Ok(None)
}

/// Likewise of a record; one that is not begun notes none.
pub(crate) fn time_of(alloc: Global, held: &Option<Record>) -> Result<Option<Vec<u8>>, AllocError>
    ensures { IfOk result (λ time. option_map (λ time. time.items) time
        ≡ time_in (notes_in held.now)) }
{
    match held {
        Some(held) => time_in(alloc, held.notes()),
        None => Ok(None),
    }
}

fn is_earlier(time: &[u8], other: &[u8]) -> bool
    ensures { result ≡ is_earlier time.now other.now }
{
    let mut left = time;
    let mut rest = other;
    while let [byte, more @ ..] = left {
        let [than, others @ ..] = rest else {
            return false;
        };
        if *byte != *than {
            return *byte < *than;
        }
        left = more;
        rest = others;
    }
    false
}

fn is_after(time: &Option<Vec<u8>>, other: &Option<Vec<u8>>) -> bool
    ensures { result ≡ is_after (option_map (λ time. time.items) time.now)
        (option_map (λ time. time.items) other.now) }
{
    match (time, other) {
        (_, None) => false,
        (None, Some(_)) => true,
        (Some(time), Some(other)) => is_earlier(other.as_slice(), time.as_slice()),
    }
}

/// How many parts are before one that began at this time and was read after them.
pub(crate) fn place_for(time: &Option<Vec<u8>>, parts: &[Plot]) -> usize
    ensures place { result ≡ place_for (option_map (λ time. time.items) time.now) parts.now }
    ensures within { result ≤ length parts.now }
{
    let mut count = 0;
    let mut left = parts;
    while let [part, others @ ..] = left {
        if is_after(&part.time, time) {
            return count;
        }
        count += 1;
        left = others;
    }
    count
}
