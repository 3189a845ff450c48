// Lines of a client that are open, and what becomes of them.

ghost use Rattle.std.specs.Prelude.{◌≡◌, ◌<◌, ◌&&◌, if◌then◌else◌, None, map, take, length, IfOk};
ghost use Rattle.witness.specs.Dialogues as spec;
ghost use Rattle.witness.specs.Names.{list_any, all_renewed, is_rival, is_error};

use crate::known::{copied, is_doubt, nothing, renew};
use crate::lines::{Heard, Known, Renewal, Use};
use crate::marks::{has_turn, is_answer, is_error, is_foreign, stage_with};
use dme_line::Tag;
use std::alloc::{AllocError, Global};

/// Of the line that was sent last under a tag, of those that are open: its number, and whether it has failed.
pub(crate) fn last_under(uses: &[Use], tag: Tag) -> (Option<u64>, bool)
    ensures line { result.0 ≡ spec.line_of (spec.last_under tag uses.now None) }
    ensures lost { result.1 ≡ spec.is_lost (spec.last_under tag uses.now None) }
{
    let mut found = None;
    for used in uses.iter() {
        if used.tag == tag {
            found = Some((used.line, used.has_failed));
        }
    }
    found.map_or((None, false), |(line, has_failed)| (Some(line), has_failed))
}

pub(crate) fn forget(uses: &mut [Use])
    ensures { uses.new ≡ map spec.unknowing uses.old }
{
    for used in uses.iter_mut() {
        used.known = nothing();
    }
}

pub(crate) fn renew_all(uses: &mut [Use], by: &Renewal)
    ensures { uses.new ≡ map (spec.use_renewed (all_renewed by.now)) uses.old }
{
    for used in uses.iter_mut() {
        renew(&mut used.known, by);
    }
}

/// What may be known for a line after a mark for the one of this number, which is its own or not: an error may stand for either, if they have one tag.
fn know(known: &mut Known, is_own: bool, line: u64, rival: Option<u64>, heard: &Heard)
    ensures { known.new ≡ all_renewed (Renewal.Mark line heard.now) (if is_own
        then spec.answered_known heard.now (spec.unless_crossed (is_rival line rival && is_error heard.now) known.old)
        else spec.unless_crossed (is_rival line rival && is_error heard.now) known.old) }
{
    if is_doubt(line, rival, heard) {
        *known = nothing();
    }
    if is_own && is_answer(heard) {
        renew(known, &Renewal::Answer);
    }
    renew(known, &Renewal::Mark(line, *heard));
}

#[tactic(auto, using(crate::proofs::AfterMarks::heard_parts))]
fn mark(used: &mut Use, line: u64, heard: &Heard)
    ensures { used.new ≡ spec.use_heard line heard.now used.old }
{
    let is_own = used.line == line;
    know(&mut used.known, is_own, line, used.rival, heard);
    if !is_own {
        return;
    }
    let stage = stage_with(&used.command, &used.stage, heard);
    used.stage = stage;
    used.has_failed = used.has_failed || is_error(heard);
}

pub(crate) fn mark_all(uses: &mut [Use], line: u64, heard: &Heard)
    ensures { uses.new ≡ map (spec.use_heard line heard.now) uses.old }
{
    for used in uses.iter_mut() {
        mark(used, line, heard);
    }
}

#[tactic(auto, using(crate::proofs::AfterMarks::known_heard, crate::proofs::AfterMarks::fault_heard))]
pub(crate) fn known_after(
    alloc: Global,
    used: &Use,
    heard: &Heard,
    early: bool,
) -> Result<Known, AllocError>
    ensures { IfOk result (λ known. known
        ≡ (spec.use_heard used.now.line heard.now (spec.if_early early used.now)).known) }
{
    let mut known = copied(alloc, &used.known)?;
    if early {
        renew(&mut known, &Renewal::Fault);
    }
    know(&mut known, true, used.line, used.rival, heard);
    Ok(known)
}

fn waits(used: &Use) -> bool
    ensures { result ≡ spec.waits used.now }
{
    has_turn(&used.command) && !used.has_failed
}

fn some_wait(uses: &[Use], at: usize) -> bool
    requires { at < length uses.now }
    ensures { result ≡ list_any spec.waits (take at uses.now) }
{
    let (before, _) = uses.split_at(at);
    before.iter().any(|used| waits(used))
}

fn may_not_come(used: &Use, heard: &Heard) -> bool
    ensures { result ≡ spec.may_not_come used.now heard.now }
{
    (is_answer(heard) && !used.has_failed) || (is_error(heard) && is_foreign(&used.command))
}

pub(crate) fn is_out_of_turn(uses: &[Use], at: usize, used: &Use, heard: &Heard) -> bool
    requires { at < length uses.now }
    ensures { result ≡ spec.is_out_of_turn uses.now at used.now heard.now }
{
    has_turn(&used.command) && some_wait(uses, at) && may_not_come(used, heard)
}
