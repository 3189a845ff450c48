// The first line of the client that breaks a rule.

ghost use Rattle.std.specs.Prelude.{◌≡◌, ◌<◌, ◌∷◌, [], ◌&&◌, not, Some, length, reverse, IfSome, IfOk, OnOk};
ghost use Rattle.witness.specs.JudgementNames.{is_event_kind, is_event_tag, Tag, first_break};
ghost use Rattle.witness.specs.declared.judged_lines.Mark.TheVariants as mark;
ghost use Rattle.witness.specs.ClientRules as spec;
ghost use Rattle.witness.specs.JudgedUses as said;

use crate::course::Course;
use crate::judged_lines::{Heard, Sent};
use crate::rules::{Found, Moment, Rule};
use crate::tables::{look, put, tag_of};
use dme_line::{Kind, Tag};
use std::alloc::{AllocError, Global};

/// The lines above a line of the client.
#[derive(Drop)]
struct Above {
    /// The last use of each tag.
    previous: Vec<Option<usize>>,
    /// The use before it.
    before: Vec<Option<usize>>,
    /// A session may be open.
    may: bool,
    /// A session is open for certain.
    must: bool,
}

/// The lines of both ends, and what the server has done in all of its.
#[derive(Clone, Copy)]
pub(crate) struct Both<'a> {
    /// For each line of the server, how many of the client were whole; empty if their order is not known.
    pub(crate) seen: &'a [usize],
    pub(crate) up: &'a [Sent],
    pub(crate) down: &'a [Heard],
    pub(crate) course: &'a Course,
}

fn own_rule(sent: Sent, above: &Above) -> Option<Rule>
    ensures { result ≡ spec.own_rule sent above.now.may above.now.must }
{
    match sent {
        Sent::Untagged => Some(Rule::NoTag),
        Sent::Command(_, Kind::StartSession) if above.must => Some(Rule::SessionOpen),
        Sent::Command(_, Kind::StartSession | Kind::ClearAllErrors | Kind::AbortE) => None,
        Sent::Command(_, _) if above.may => None,
        Sent::Command(_, _) => Some(Rule::NoSession),
        Sent::Standard(_) => None,
        Sent::Unknown(_) => Some(Rule::UnknownCommand),
        Sent::Unread(Tag::Event(_), Kind::AbortE) => Some(Rule::BadArguments),
        Sent::Unread(Tag::Std(_), Kind::AbortE) | Sent::Unread(Tag::Event(_), _) => {
            Some(Rule::WrongTag)
        }
        Sent::Unread(Tag::Std(_), _) => Some(Rule::BadArguments),
    }
}

/// Whether the tag of a line is in use; the last argument: the uses of it above, the nearest first.
fn is_used(both: Both<'_>, at: usize, uses: (Option<usize>, Option<usize>)) -> bool
    requires course { said.IsCourse both.up.now (reverse both.down.now) both.course.now }
    requires within { at < length both.up.now }
    requires one { IfSome uses.0 (λ n. n < length both.up.now) }
    requires two { IfSome uses.1 (λ n. n < length both.up.now) }
    ensures { result ≡ spec.is_used both.entry.seen.now both.entry.up.now
        (reverse both.entry.down.now) at uses.0 uses.1 }
{
    let notes = &both.course.notes;
    let Some(one) = uses.0 else {
        return false;
    };
    let Some(end) = notes.complete[one] else {
        return true;
    };
    let refused = match uses.1 {
        Some(two) => notes.complete[two].map_or(0, |moment| moment.refusals),
        None => 0,
    };
    let far = both.course.moment.farthest;
    let passed = at < notes.counted[at].map_or(far, |moment| moment.farthest);
    match both.seen.get(end.number.saturating_sub(1)) {
        Some(count) => at < *count,
        None => refused < end.refusals && passed,
    }
}

fn rule_of(both: Both<'_>, lines: &[Sent], above: &Above, sent: Sent) -> Option<Rule>
    requires course { said.IsCourse both.up.now (reverse both.down.now) both.course.now }
    requires above { spec.AreAbove both.up.now (reverse both.down.now) (reverse lines.now)
        above.now }
    requires within { length lines.now < length both.up.now }
    ensures { result ≡ spec.client_rule both.entry.seen.now both.entry.up.now
        (reverse both.entry.down.now) (reverse lines.now) sent }
{
    let at = lines.len();
    let Some(tag) = tag_of(sent) else {
        return Some(Rule::NoTag);
    };
    let one = look(above.previous.as_slice(), tag);
    let two = look(above.before.as_slice(), tag);
    if is_used(both, at, (one, two)) {
        return Some(Rule::TagInUse);
    }
    let own = own_rule(sent, above);
    let received = both.course.notes.received[at];
    match (own, tag, received) {
        (None, Tag::Std(_), Some(moment)) if moment.busy >= 66 => Some(Rule::QueueFull),
        _ => own,
    }
}

#[tactic(auto, using(crate::proofs::AboveLemmas::previous_more, crate::proofs::AboveLemmas::before_more, crate::proofs::AboveLemmas::previous_untagged, crate::proofs::AboveLemmas::before_untagged, crate::proofs::Lists::above_count))]
fn add_above(
    both: Both<'_>,
    lines: &[Sent],
    above: &mut Above,
    sent: Sent,
) -> Result<(), AllocError>
    requires course { said.IsCourse both.up.now (reverse both.down.now) both.course.now }
    requires above { spec.AreAbove both.up.now (reverse both.down.now) (reverse lines.now)
        above.old }
    requires within { length lines.now < length both.up.now }
    ensures { OnOk result (spec.AreAbove both.entry.up.now (reverse both.entry.down.now)
        (sent ∷ reverse lines.now) above.new) }
{
    let Some(tag) = tag_of(sent) else {
        return Ok(());
    };
    let at = lines.len();
    let one = look(above.previous.as_slice(), tag);
    let course = both.course;
    let failed = course.notes.error[at].is_some()
        || course.is_unclear
        || (one.is_some() && course.moment.refusals > 0);
    match sent {
        Sent::Command(_, Kind::StartSession) => {
            above.may = true;
            above.must = !failed || above.must;
        }
        Sent::Command(_, Kind::EndSession) => {
            above.may = failed && above.may;
            above.must = false;
        }
        _ => {}
    }
    put(&mut above.before, tag, one)?;
    put(&mut above.previous, tag, Some(at))
}

pub(crate) fn client_break(alloc: Global, both: Both<'_>) -> Result<Option<Found>, AllocError>
    requires { said.IsCourse both.up.now (reverse both.down.now) both.course.now }
    ensures { IfOk result (λ found. found
        ≡ first_break (spec.client_rule both.entry.seen.now both.entry.up.now
        (reverse both.entry.down.now)) [] both.entry.up.now) }
{
    let mut above = Above {
        previous: Vec::new(alloc),
        before: Vec::new(alloc),
        may: false,
        must: false,
    };
    for at in 0..both.up.len() {
        let (lines, _) = both.up.split_at(at);
        let sent = both.up[at];
        if let Some(rule) = rule_of(both, lines, &above, sent) {
            return Ok(Some(Found {
                number: at + 1,
                rule,
            }));
        }
        add_above(both, lines, &mut above, sent)?;
    }
    Ok(None)
}
