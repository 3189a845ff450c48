// What a mark does to a command that is open, and what it reports of it.

ghost use Rattle.std.specs.Prelude.{◌≡◌, IfOk};
ghost use Rattle.witness.specs.Dialogues.{act_of, listed, reported_by, touched};
ghost use Rattle.witness.specs.Marks as spec;
ghost use Rattle.witness.specs.Names.{kind_of, the_mark, asks_data, signal_of};

use crate::known::{done, frame_in, frame_of};
use crate::lines::{Heard, Known, Reported, Rule, SentCommand, Side, Stage, Step, Use};
use contact_ledger::Act;
use dme_line::{Command, Kind, MarkSlice, Tag, Text, read_homed, read_point};
use fixed_um::{Dir, Frame, Name, Point};
use protocol_model::Datum;
use std::alloc::{AllocError, Global};

#[tactic(auto, using(crate::proofs::Readings::one_point, crate::proofs::Readings::one_homed))]
pub(crate) fn heard_as(command: &SentCommand, mark: MarkSlice<'_>) -> Heard
    ensures { result ≡ spec.heard_as command.now (signal_of (the_mark mark.entry)) }
{
    match (mark, command) {
        (MarkSlice::Ack, _) => Heard::Received,
        (MarkSlice::Done, _) => Heard::Complete,
        (MarkSlice::Error(_), _) => Heard::Failed,
        (MarkSlice::Given(text), SentCommand::Known(Command::PtMeas(..))) => {
            match read_point(text) {
                Ok(point) => Heard::Given(Datum::Point(point)),
                Err(_) => Heard::Unread,
            }
        }
        (MarkSlice::Given(text), SentCommand::Known(Command::IsHomed)) => match read_homed(text) {
            Ok(homed) => Heard::Given(Datum::Homed(homed)),
            Err(_) => Heard::Unread,
        },
        (MarkSlice::Given(_), _) => Heard::Unread,
    }
}

/// Whether a mark is the end of its command.
pub fn is_end(mark: MarkSlice<'_>) -> bool
    ensures { result ≡ spec.is_end (signal_of (the_mark mark.entry)) }
{
    matches!(mark, MarkSlice::Done)
}

pub(crate) fn is_error(heard: &Heard) -> bool
    ensures { result ≡ spec.is_error heard.now }
{
    matches!(heard, Heard::Failed)
}

pub(crate) fn is_answer(heard: &Heard) -> bool
    ensures { result ≡ spec.is_answer heard.now }
{
    !matches!(heard, Heard::Received | Heard::Failed)
}

pub(crate) fn has_turn(command: &SentCommand) -> bool
    ensures { result ≡ spec.has_turn command.now }
{
    !matches!(
        command,
        SentCommand::Asking | SentCommand::Known(Command::AbortE)
    )
}

pub(crate) fn is_foreign(command: &SentCommand) -> bool
    ensures { result ≡ spec.is_foreign command.now }
{
    matches!(command, SentCommand::Foreign(_))
}

fn step_of(command: &Command, stage: Stage, heard: Heard) -> Step
    ensures { result ≡ spec.step (asks_data (kind_of command.now)) stage heard }
{
    let asks_data = matches!(command.kind(), Kind::PtMeas | Kind::IsHomed);
    match (stage, heard) {
        (Stage::Lost, _) => Step::Stays,
        (_, Heard::Failed) => Step::Fails,
        (Stage::Sent, Heard::Received) => Step::Comes(Stage::Received),
        (Stage::Sent, _) | (_, Heard::Received) => Step::Breaks(Rule::OutOfOrder),
        (_, Heard::Unread) => Step::Breaks(Rule::OtherData),
        (Stage::Received, Heard::Given(datum)) => Step::Comes(Stage::Given(datum)),
        (Stage::Received, Heard::Complete) if asks_data => Step::Breaks(Rule::NoData),
        (Stage::Received, Heard::Complete) => Step::Counts(None),
        (Stage::Given(_), Heard::Given(_)) => Step::Breaks(Rule::SecondData),
        (Stage::Given(datum), Heard::Complete) => Step::Counts(Some(datum)),
    }
}

pub(crate) fn stage_with(command: &SentCommand, stage: &Stage, heard: &Heard) -> Stage
    ensures { result ≡ spec.stage_with command.now stage.now heard.now }
{
    match (command, stage) {
        (SentCommand::Known(command), stage) => match step_of(command, *stage, *heard) {
            Step::Stays | Step::Counts(_) => *stage,
            Step::Comes(next) => next,
            Step::Fails | Step::Breaks(_) => Stage::Lost,
        },
        (_, Stage::Sent) => Stage::Received,
        (_, stage) => *stage,
    }
}

fn touched(
    tool: Option<Name>,
    frame: Option<Frame>,
    target: Point,
    dir: Option<Dir>,
    point: Point,
) -> Reported
    ensures { result ≡ touched tool frame target dir point }
{
    match (tool, frame) {
        (Some(tool), Some(frame)) => Reported::Did(Act::Contact {
            target,
            dir,
            tool,
            frame,
            point,
        }),
        (tool, frame) => Reported::Touched {
            target,
            dir,
            tool,
            frame,
            point,
        },
    }
}

fn act_of(
    alloc: Global,
    known: Known,
    command: &Command,
    given: Option<Datum>,
) -> Result<Option<Reported>, AllocError>
    ensures { IfOk result (λ report. listed report ≡ act_of known command.now given) }
{
    let report = match (command, given) {
        (Command::IsHomed, Some(Datum::Homed(homed))) => Reported::Did(Act::HomedIs(homed)),
        (Command::Home, _) => Reported::Did(Act::Homed),
        (Command::GoTo(target), _) => match frame_of(&known) {
            Some(frame) => Reported::Did(Act::Moved(*target, frame)),
            None => Reported::MovedSomewhere(*target),
        },
        (Command::PtMeas(target, dir), Some(Datum::Point(point))) => {
            let frame = frame_of(&known);
            touched(done(known.tool), frame, *target, *dir, point)
        }
        (Command::ChangeTool(tool), _) => Reported::Did(Act::Changed(tool.copy(alloc)?)),
        (Command::SetCoordSystem(csy), _) => match frame_in(*csy, done(known.zero)) {
            Some(frame) => Reported::Did(Act::Framed(frame)),
            None => Reported::FramedSomehow,
        },
        _ => return Ok(None),
    };
    Ok(Some(report))
}

pub(crate) fn reported_by(
    alloc: Global,
    known: Known,
    used: &Use,
    heard: Heard,
) -> Result<Option<Reported>, AllocError>
    ensures { IfOk result (λ report. listed report
        ≡ reported_by known used.now.tag used.now.command used.now.stage heard) }
{
    match (&used.command, used.tag, used.stage) {
        (SentCommand::Known(command), tag, stage) => match step_of(command, stage, heard) {
            Step::Breaks(rule) => Ok(Some(Reported::Broken(rule, tag))),
            Step::Counts(given) => act_of(alloc, known, command, given),
            Step::Stays | Step::Comes(_) | Step::Fails => Ok(None),
        },
        (SentCommand::Foreign(line), Tag::Std(_), Stage::Sent) => {
            let line = Text::new(alloc, line.as_slice())?;
            Ok(Some(Reported::Other(Side::Client, line)))
        }
        _ => Ok(None),
    }
}
