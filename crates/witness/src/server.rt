// The first line of the server that breaks a rule.

ghost use Rattle.std.specs.Prelude.{◌≡◌, ◌<◌, ◌≤◌, ◌+◌, ◌^◌, ◌∷◌, [], Bool, drop, length, reverse, slice_get, Some, None, IfOk};
ghost use Rattle.witness.specs.JudgementNames.{option_or, AreAllNoted, IsCourse, stage_of, first_break, found_at};
ghost use Rattle.witness.specs.ServerRules as spec;

use crate::course::{Course, Notes};
use crate::judged_lines::{Data, Heard, Reply, Sent, Severity};
use crate::rules::{Asks, Found, Rule, Sought, Stage, Standing};
use crate::tables::look;
use dme_line::{Kind, Tag};
use std::alloc::{AllocError, Global};

fn asks_under(doubtful: bool, sent: Sent) -> Asks
    ensures { result ≡ spec.asks_under doubtful sent }
{
    match sent {
        Sent::Command(_, Kind::PtMeas) if !doubtful => Asks::Point,
        Sent::Command(_, Kind::IsHomed) if !doubtful => Asks::Homed,
        Sent::Command(_, _) if !doubtful => Asks::Nothing,
        _ => Asks::Anything,
    }
}

fn is_sought(sought: Sought, sent: Sent, stage: Stage) -> bool
    ensures { result ≡ spec.is_sought sought sent stage }
{
    let is_open = matches!(stage, Stage::Sent | Stage::Received | Stage::Given);
    match (sought, sent) {
        (Sought::Open, Sent::Command(Tag::Std(_), _)) => is_open,
        (Sought::Unended, Sent::Command(Tag::Std(_), _)) => is_open || stage == Stage::Failed,
        (Sought::Clearing, Sent::Command(_, Kind::ClearAllErrors)) => is_open,
        _ => false,
    }
}

fn stage_at(up: &[Sent], above: &[Heard], notes: &Notes, at: usize) -> Stage
    requires notes { AreAllNoted up.now (reverse above.now) notes.now }
    requires within { at < length up.now }
    ensures { result ≡ stage_of up.now (reverse above.now) at }
{
    match (
        notes.complete[at],
        notes.error[at],
        notes.given[at],
        notes.received[at],
    ) {
        (Some(_), _, _, _) => Stage::Ended,
        (None, Some(_), _, _) => Stage::Failed,
        (None, None, Some(_), _) => Stage::Given,
        (None, None, None, Some(_)) => Stage::Received,
        (None, None, None, None) => Stage::Sent,
    }
}

/// The place of the first line that is, or the count of all; no line before a place is.
fn front(sought: Sought, up: &[Sent], above: &[Heard], notes: &Notes, from: usize) -> usize
    requires notes { AreAllNoted up.now (reverse above.now) notes.now }
    requires from { spec.first_from (spec.is_sought_after sought up.now (reverse above.now)) from
        (drop from up.now) ≡ spec.front sought up.now (reverse above.now) }
    requires within { from ≤ length up.now }
    ensures place { result ≡ spec.front sought up.now (reverse above.now) }
    ensures within { result ≤ length up.now }
{
    for at in from..up.len() {
        if is_sought(sought, up[at], stage_at(up, above, notes, at)) {
            return at;
        }
    }
    up.len()
}

fn mark_rule(stage: Stage, asks: Asks, ending: Option<Rule>, reply: Reply) -> Option<Rule>
    ensures { (turn barred left : Bool) → ending ≡ spec.end_rule turn barred left
        → result ≡ spec.mark_rule stage asks turn ending reply }
{
    match (stage, reply, asks) {
        (Stage::Sent, Reply::Received, _) | (Stage::Failed, Reply::Complete, _) => None,
        (_, Reply::Error(_), _) => None,
        (Stage::Received | Stage::Given, Reply::Given(_), Asks::Anything) => None,
        (Stage::Received, Reply::Given(Data::Point), Asks::Point)
        | (Stage::Received, Reply::Given(Data::Homed), Asks::Homed) => match ending {
            Some(Rule::NotInTurn) => ending,
            _ => None,
        },
        (Stage::Given, Reply::Given(Data::Point), Asks::Point)
        | (Stage::Given, Reply::Given(Data::Homed), Asks::Homed) => Some(Rule::SecondData),
        (Stage::Received | Stage::Given, Reply::Given(_), _) => Some(Rule::OtherData),
        (Stage::Received, Reply::Complete, Asks::Point | Asks::Homed) => Some(Rule::NoData),
        (Stage::Received | Stage::Given, Reply::Complete, _) => ending,
        _ => Some(Rule::OutOfOrder),
    }
}

/// The lines above a line of the server, and what is kept of them.
#[derive(Clone, Copy)]
struct SoFar<'a> {
    up: &'a [Sent],
    above: &'a [Heard],
    course: &'a Course,
    standing: Standing,
}

/// The rule that the end of a command breaks.
fn ending_rule(so: SoFar<'_>, at: usize, sent: Sent) -> Option<Rule>
    requires { spec.AreKnown so.up.now (reverse so.above.now) so.course.now so.standing }
    ensures { result ≡ spec.end_rule (spec.is_in_turn so.entry.up.now (reverse so.entry.above.now)
        at sent) (spec.is_halted so.entry.up.now (reverse so.entry.above.now)
        (spec.front Sought.Open so.entry.up.now (reverse so.entry.above.now)) sent)
        (spec.leaves_some so.entry.up.now (reverse so.entry.above.now) at sent) }
{
    if so.course.moment.refusals > 0 {
        return None;
    }
    match sent {
        Sent::Command(Tag::Std(_), _) | Sent::Command(Tag::Event(_), Kind::AbortE)
            if so.standing.waiting < at => Some(Rule::NotInTurn),
        Sent::Command(_, Kind::ClearAllErrors) => None,
        Sent::Command(Tag::Std(_), _) if so.standing.barred => Some(Rule::NotCleared),
        Sent::Command(_, Kind::EndSession) if so.standing.unended < at => Some(Rule::NoEnd),
        _ => None,
    }
}

fn command_rule(so: SoFar<'_>, tag: Tag, reply: Reply, at: usize, sent: Sent) -> Option<Rule>
    requires known { spec.AreKnown so.up.now (reverse so.above.now) so.course.now so.standing }
    requires within { at < length so.up.now }
    requires there { slice_get so.up.now at ≡ Some sent }
    ensures { result ≡ spec.command_rule so.entry.up.now (reverse so.entry.above.now) tag reply
        at sent }
{
    let stage = stage_at(so.up, so.above, &so.course.notes, at);
    let doubtful = look(so.course.closed.as_slice(), tag).is_some()
        && so.course.moment.refusals > 0;
    let asks = asks_under(doubtful, sent);
    mark_rule(stage, asks, ending_rule(so, at, sent), reply)
}

#[tactic(auto, using(crate::proofs::JudgedStandings::known_place))]
fn rule_of(seen: &[usize], so: SoFar<'_>, heard: Heard) -> Option<Rule>
    requires { spec.AreKnown so.up.now (reverse so.above.now) so.course.now so.standing }
    ensures { result ≡ spec.server_rule seen.now so.entry.up.now (reverse so.entry.above.now)
        heard }
{
    let Heard::Response(tag, reply) = heard else {
        return Some(Rule::NotResponse);
    };
    let Some(at) = look(so.course.ends.as_slice(), tag) else {
        return match tag {
            Tag::Event(0) => None,
            _ => Some(Rule::UnknownTag),
        };
    };
    if seen.get(so.above.len()).map_or(false, |count| *count <= at) {
        return Some(Rule::NotSent);
    }
    command_rule(so, tag, reply, at, *so.up.get(at)?)
}

/// How far all commands are, after one line more, which stands last in `heard`.
#[tactic(auto, using(crate::proofs::Fronts::front_moves, crate::proofs::Fronts::front_within, crate::proofs::JudgedStandings::stands, crate::proofs::JudgedStandings::other_first))]
fn stand(
    up: &[Sent],
    above: &[Heard],
    lines: &[Heard],
    heard: Heard,
    notes: &Notes,
    before: Standing,
) -> Standing
    requires lines { reverse lines.now ≡ heard ∷ reverse above.now }
    requires notes { AreAllNoted up.now (heard ∷ reverse above.now) notes.now }
    requires standing { spec.IsStanding up.now (reverse above.now) before }
    requires short { length up.now < 2 ^ 63 }
    ensures { spec.IsStanding up.now (heard ∷ reverse above.now) result }
{
    let waiting = front(Sought::Open, up, lines, notes, before.waiting);
    let reach = match heard {
        Heard::Response(Tag::Std(_), Reply::Error(Severity::Three))
            if before.reach <= before.clearing => before.clearing + 1,
        _ => before.reach,
    };
    Standing {
        waiting,
        unended: front(Sought::Unended, up, lines, notes, before.unended),
        clearing: front(Sought::Clearing, up, lines, notes, before.clearing),
        barred: if waiting == before.waiting {
            before.barred
        } else {
            waiting < reach
        },
        reach,
    }
}

fn at_first(up: &[Sent], none: &[Heard], notes: &Notes) -> Standing
    requires none { none.now ≡ [] }
    requires notes { AreAllNoted up.now (reverse none.now) notes.now }
    ensures { spec.IsStanding up.now (reverse none.now) result }
{
    Standing {
        waiting: front(Sought::Open, up, none, notes, 0),
        unended: front(Sought::Unended, up, none, notes, 0),
        clearing: front(Sought::Clearing, up, none, notes, 0),
        barred: false,
        reach: 0,
    }
}

/// What the server has done and the first line of it that breaks a rule. Fails only if out of memory.
#[tactic(auto, using(crate::proofs::Lists::found_more))]
pub(crate) fn server_break(
    alloc: Global,
    seen: &[usize],
    up: &[Sent],
    down: &[Heard],
) -> Result<(Course, Option<Found>), AllocError>
    requires { length up.now < 2 ^ 63 }
    ensures course { IfOk result (λ r. IsCourse up.now (reverse down.now) r.0) }
    ensures found { IfOk result (λ r. r.1
        ≡ first_break (spec.server_rule seen.now up.now) [] down.now) }
{
    let mut course = Course::new(alloc, up)?;
    let mut standing = at_first(up, down.split_at(0).0, &course.notes);
    let mut found = None;
    for at in 0..down.len() {
        let (above, _) = down.split_at(at);
        let (lines, _) = down.split_at(at + 1);
        let heard = down[at];
        let so = SoFar {
            up,
            above,
            course: &course,
            standing,
        };
        let number = at + 1;
        found = found.or(rule_of(seen, so, heard).map(|rule| Found { number, rule }));
        course.hear(up, above, heard)?;
        standing = stand(up, above, lines, heard, &course.notes, standing);
    }
    Ok((course, found))
}
