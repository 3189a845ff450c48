// What each mark does to the open commands of one sort of tags.

ghost use Rattle.std.specs.Prelude.{◌≡◌, ◌≤◌, Bool, true, false, not, ◌&&◌, List, ◌∷◌, length, take, count_by, Some, IfOk, IfErr, OnOk, OnErr};
ghost use Rattle.dme_tags.specs.Names.{list_any, Mark, tag_is, Effect, asks_data, asks_homed, count_open, heard_in, is_asking, is_failed, is_held, judged, settled, held_kind, has_its_data, may_be_given, AreFit, cause_of, effect_of, effect_heard, failure_of, is_counted, IsRefused, IsFound, ahead_of, all_failed};

use crate::commands::Commands;
use crate::endings::Ended;
use crate::faults::TagFault;
use dme_line::{Kind, Tag};
use protocol_model::{Datum, OpenCommand, Stage};

/// Whether a command asks for data: a touch asks for its point, and `IsHomed` whether the machine is homed.
fn asks_data(kind: Kind) -> bool
    ensures { result ≡ asks_data kind }
{
    matches!(kind, Kind::PtMeas | Kind::IsHomed)
}

fn is_same(one: Tag, other: Tag) -> bool
    ensures { result ≡ tag_is one other }
{
    match (one, other) {
        (Tag::Std(n), Tag::Std(m)) => n == m,
        (Tag::Event(n), Tag::Event(m)) => n == m,
        (Tag::Std(_), Tag::Event(_)) | (Tag::Event(_), Tag::Std(_)) => false,
    }
}

fn is_failed(stage: Stage) -> bool
    ensures { result ≡ is_failed stage }
{
    matches!(stage, Stage::Failed)
}

// ---- the table of marks against stages

/// Whether `&` may be read for a command, which is received then.
fn acknowledge(held: &OpenCommand) -> Result<(), TagFault>
    ensures unfailed { OnOk result (is_failed held.now.stage ≡ false) }
    ensures ok { OnOk result ((front : Bool) (hs : List OpenCommand)
        → settled held.now hs (judged front held.now.kind held.now.stage Mark.Ack)
        ≡ Ok (record held.now { stage = Stage.Received } ∷ hs, Effect.Quiet)) }
    ensures refused { IfErr result (λ fault. (front : Bool) (hs : List OpenCommand)
        → IsRefused (settled held.now hs (judged front held.now.kind held.now.stage Mark.Ack))
        (cause_of fault)) }
{
    match held.stage {
        Stage::Sent => Ok(()),
        Stage::Received | Stage::Given(_) | Stage::Failed => Err(TagFault::OutOfOrder),
    }
}

/// Whether these data may be read for a command, which has them then.
fn accept(held: &OpenCommand, front: bool, datum: &Datum) -> Result<(), TagFault>
    requires { may_be_given (Some held.now.kind) datum.now ≡ true }
    ensures unfailed { OnOk result (is_failed held.now.stage ≡ false) }
    ensures ok { OnOk result ((hs : List OpenCommand)
        → settled held.now hs (judged front held.now.kind held.now.stage (Mark.Given datum.now))
        ≡ Ok (record held.now { stage = Stage.Given datum.now } ∷ hs, Effect.Quiet)) }
    ensures refused { IfErr result (λ fault. (hs : List OpenCommand)
        → IsRefused (settled held.now hs
        (judged front held.now.kind held.now.stage (Mark.Given datum.now)))
        (cause_of fault)) }
{
    if !front || !asks_data(held.kind) {
        return Err(TagFault::OutOfOrder);
    }
    match held.stage {
        Stage::Received => Ok(()),
        Stage::Given(_) => Err(TagFault::SecondData),
        Stage::Sent | Stage::Failed => Err(TagFault::OutOfOrder),
    }
}

/// How a command ends under whose tag `%` is read.
fn ended(held: &OpenCommand, front: bool) -> Result<Ended, TagFault>
    ensures ok { IfOk result (λ ended. (hs : List OpenCommand)
        → settled held.now hs (judged front held.now.kind held.now.stage Mark.Done)
        ≡ Ok (hs, effect_of ended)) }
    ensures refused { IfErr result (λ fault. (hs : List OpenCommand)
        → IsRefused (settled held.now hs (judged front held.now.kind held.now.stage Mark.Done))
        (cause_of fault)) }
    ensures counted { IfOk result (λ ended. is_counted ended ≡ true → front ≡ true) }
{
    let OpenCommand { kind, stage, .. } = *held;
    match stage {
        Stage::Failed => Ok(Ended::Closed),
        Stage::Received if front && !asks_data(kind) => Ok(Ended::Counted(kind, None)),
        Stage::Received if front => Err(TagFault::NoData),
        Stage::Given(datum) if front => Ok(Ended::Counted(kind, Some(datum))),
        Stage::Sent | Stage::Received | Stage::Given(_) => Err(TagFault::OutOfOrder),
    }
}

// ---- lists of open commands

fn all_failed_before(commands: &Commands, index: usize) -> bool
    requires { index ≤ length commands.now }
    ensures { result ≡ all_failed (take index commands.now) }
{
    for earlier in 0..index {
        if !is_failed(commands.at(earlier).stage) {
            return false;
        }
    }
    true
}

/// Whether the command at a place is at the front: each earlier one has failed, and nothing else keeps it back.
fn is_front(front: bool, commands: &Commands, index: usize) -> bool
    requires { index ≤ length commands.now }
    ensures { result ≡ (front && all_failed (take index commands.now)) }
{
    front && all_failed_before(commands, index)
}

#[inline(always)]
fn find(commands: &Commands, tag: Tag) -> Result<usize, TagFault>
    ensures found { IfOk result (λ index. IsFound tag commands.now index) }
    ensures unknown { IfErr result (λ fault. (front : Bool) (m : Mark)
        → IsRefused (heard_in front commands.now tag m) (cause_of fault)) }
    ensures none { OnErr result (is_held tag commands.now ≡ false) }
{
    for index in 0..commands.len() {
        let held = commands.at(index);
        if is_same(held.tag, tag) {
            return Ok(index);
        }
    }
    Err(TagFault::UnknownTag)
}

/// `&` is read under a tag.
pub(crate) fn receive(commands: &mut Commands, tag: Tag) -> Result<(), TagFault>
    ensures ok { OnOk result ((front : Bool)
        → heard_in front commands.old tag Mark.Ack ≡ Ok (commands.new, Effect.Quiet)) }
    ensures refused { IfErr result (λ fault. (front : Bool)
        → IsRefused (heard_in front commands.old tag Mark.Ack) (cause_of fault)) }
    ensures err { OnErr result (commands.new ≡ commands.old) }
    ensures fit { AreFit commands.old → AreFit commands.new }
{
    let index = find(commands, tag)?;
    acknowledge(commands.at(index))?;
    commands.advance(index, Stage::Received);
    Ok(())
}

/// Data are read. `front`: nothing but an earlier command of the list keeps them back.
#[inline(always)]
pub(crate) fn give(
    commands: &mut Commands,
    front: bool,
    tag: Tag,
    datum: Datum,
) -> Result<(), TagFault>
    requires { may_be_given (held_kind tag commands.old) datum ≡ true }
    ensures ok { OnOk result (heard_in front commands.old tag (Mark.Given datum)
        ≡ Ok (commands.new, Effect.Quiet)) }
    ensures refused { IfErr result (λ fault.
        IsRefused (heard_in front commands.old tag (Mark.Given datum)) (cause_of fault)) }
    ensures err { OnErr result (commands.new ≡ commands.old) }
    ensures fit { AreFit commands.old → AreFit commands.new }
{
    let index = find(commands, tag)?;
    accept(commands.at(index), is_front(front, commands, index), &datum)?;
    commands.advance(index, Stage::Given(datum));
    Ok(())
}

/// `!` is read. Answers whether the command fails now: a further one changes nothing.
pub(crate) fn fail(commands: &mut Commands, tag: Tag) -> Result<bool, TagFault>
    ensures ok { IfOk result (λ now. (front : Bool)
        → heard_in front commands.old tag Mark.Error
        ≡ Ok (commands.new, failure_of now)) }
    ensures refused { IfErr result (λ fault. (front : Bool)
        → IsRefused (heard_in front commands.old tag Mark.Error) (cause_of fault)) }
    ensures err { OnErr result (commands.new ≡ commands.old) }
    ensures fit { AreFit commands.old → AreFit commands.new }
{
    let index = find(commands, tag)?;
    let now = !is_failed(commands.at(index).stage);
    commands.set_stage(index, Stage::Failed);
    Ok(now)
}

/// How a command would end if its `%` was read now. Nothing changes.
#[inline(always)]
pub(crate) fn end_of(commands: &Commands, front: bool, tag: Tag) -> Result<Ended, TagFault>
    ensures ok { IfOk result (λ ended. effect_heard (heard_in front commands.now tag Mark.Done)
        ≡ Some (effect_of ended)) }
    ensures refused { IfErr result (λ fault.
        IsRefused (heard_in front commands.now tag Mark.Done) (cause_of fault)) }
    ensures data { IfOk result (λ ended. AreFit commands.now → has_its_data ended ≡ true) }
{
    let index = find(commands, tag)?;
    let ended = ended(commands.at(index), is_front(front, commands, index))?;
    Ok(ended)
}

/// `%` is read: the command is no longer held. `front` as for data.
#[inline(always)]
pub(crate) fn end(commands: &mut Commands, front: bool, tag: Tag) -> Result<Ended, TagFault>
    ensures ok { IfOk result (λ ended.
        heard_in front commands.old tag Mark.Done
        ≡ Ok (commands.new, effect_of ended)) }
    ensures refused { IfErr result (λ fault.
        IsRefused (heard_in front commands.old tag Mark.Done) (cause_of fault)) }
    ensures in_order { IfOk result (λ ended. is_counted ended ≡ true
        → (front ≡ true) × (all_failed (ahead_of tag commands.old) ≡ true)) }
    ensures data { IfOk result (λ ended. AreFit commands.old → has_its_data ended ≡ true) }
    ensures err { OnErr result (commands.new ≡ commands.old) }
    ensures fit { AreFit commands.old → AreFit commands.new }
{
    let index = find(commands, tag)?;
    let ended = ended(commands.at(index), is_front(front, commands, index))?;
    commands.remove(index);
    Ok(ended)
}

pub(crate) fn is_held(commands: &Commands, tag: Tag) -> bool
    ensures { result ≡ is_held tag commands.now }
{
    match find(commands, tag) {
        Ok(_) => true,
        Err(_) => false,
    }
}

#[inline(always)]
pub(crate) fn kind_of(commands: &Commands, tag: Tag) -> Option<Kind>
    ensures { result ≡ held_kind tag commands.now }
{
    match find(commands, tag) {
        Ok(index) => Some(commands.at(index).kind),
        Err(_) => None,
    }
}
