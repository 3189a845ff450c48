// The uses of each tag.

ghost use Rattle.std.specs.Prelude.{◌≡◌, ◌<◌, ◌+◌, ◌^◌, ℕ, Some, None, if◌then◌else◌, length, get_or, IfOk, OnOk};
ghost use Rattle.witness.specs.JudgementNames.{tag_is, Tag};
ghost use Rattle.witness.specs.JudgedUses as spec;

use crate::judged_lines::Sent;
use dme_line::Tag;
use std::alloc::{AllocError, Global};

pub(crate) fn tag_of(sent: Sent) -> Option<Tag>
    ensures { result ≡ spec.tag_of sent }
{
    match sent {
        Sent::Untagged => None,
        Sent::Command(tag, _) | Sent::Standard(tag) | Sent::Unknown(tag) | Sent::Unread(tag, _) => {
            Some(tag)
        }
    }
}

fn code_of(tag: Tag) -> usize
    ensures { result ≡ spec.code_of tag }
{
    match tag {
        Tag::Std(number) => number as usize + number as usize,
        Tag::Event(number) => number as usize + number as usize + 1,
    }
}

/// What a table has for a tag.
#[tactic(auto, using(crate::proofs::TagTables::looked))]
pub fn look(table: &[Option<usize>], tag: Tag) -> Option<usize>
    ensures { result ≡ spec.found table.now tag }
{
    table.get(code_of(tag)).copied().flatten()
}

/// Changes what a table has for a tag. Fails only if out of memory.
#[tactic(auto, using(crate::proofs::TagTables::put_found))]
pub fn put(table: &mut Vec<Option<usize>>, tag: Tag, place: Option<usize>) -> Result<(), AllocError>
    ensures { OnOk result ((t : Tag) → spec.found table.new.items t
        ≡ (if tag_is tag t then place else spec.found table.old.items t)) }
{
    let code = code_of(tag);
    if table.len() <= code {
        table.resize(code + 1, None)?;
    }
    table[code] = place;
    Ok(())
}

/// The place of the use after the one at a place.
#[tactic(auto, using(crate::proofs::TagTables::looked))]
pub(crate) fn next_of(next: &[Option<usize>], place: Option<usize>) -> Option<usize>
    ensures { result ≡ spec.next_of next.now place }
{
    next.get(place?).copied().flatten()
}

/// The first use of each tag, and for each line of the client the next use of its tag. Fails only if out of memory.
#[tactic(auto, using(crate::proofs::TagTables::first_more, crate::proofs::TagTables::next_more, crate::proofs::TagTables::first_untagged, crate::proofs::TagTables::next_untagged, crate::proofs::TagTables::next_none))]
pub(crate) fn later_uses(
    alloc: Global,
    up: &[Sent],
) -> Result<(Vec<Option<usize>>, Vec<Option<usize>>), AllocError>
    ensures first { IfOk result (λ l. spec.AreFirst up.now 0 l.0.items) }
    ensures next { IfOk result (λ l. spec.AreNext up.now 0 l.1.items) }
{
    let mut first = Vec::new(alloc);
    let mut next = vec![in alloc; None; up.len()]?;
    for passed in 0..up.len() {
        let at = up.len() - 1 - passed;
        let Some(tag) = tag_of(up[at]) else {
            continue;
        };
        next[at] = look(first.as_slice(), tag);
        put(&mut first, tag, Some(at))?;
    }
    Ok((first, next))
}
