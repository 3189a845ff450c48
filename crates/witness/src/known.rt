// Changes of tool and frame that may hold for a line, and what becomes of them.

ghost use Rattle.std.specs.Prelude.{◌≡◌, ◌&&◌, IfOk};
ghost use Rattle.witness.specs.Known as spec;
ghost use Rattle.witness.specs.Names.{is_error};

use crate::lines::{Heard, Known, Progress, Renewal, SentCommand, Standing};
use crate::marks::is_error;
use dme_line::{Command, Csy};
use fixed_um::{Frame, Point};
use std::alloc::{AllocError, Global};

pub(crate) fn nothing() -> Known
    ensures { result ≡ spec.nothing }
{
    Known {
        tool: None,
        csy: None,
        part: None,
        zero: None,
    }
}

pub(crate) fn copied(alloc: Global, known: &Known) -> Result<Known, AllocError>
    ensures { IfOk result (λ copy. copy ≡ known.now) }
{
    let tool = match &known.tool {
        Some((tool, standing)) => Some((tool.copy(alloc)?, *standing)),
        None => None,
    };
    Ok(Known {
        tool,
        csy: known.csy,
        part: known.part,
        zero: known.zero,
    })
}

/// Whether a mark is an error of the line that was open last under the tag of another when that was sent: either may be the one that was refused.
pub(crate) fn is_doubt(line: u64, rival: Option<u64>, heard: &Heard) -> bool
    ensures { result ≡ (spec.is_rival line rival && is_error heard.now) }
{
    matches!(rival, Some(rival) if rival == line) && is_error(heard)
}

fn with_mark(standing: Standing, heard: Heard) -> Option<Standing>
    ensures { result ≡ spec.with_mark standing standing.progress heard }
{
    let progress = match (standing.progress, heard) {
        (Progress::Sent, Heard::Received) => Progress::Begun,
        (Progress::Begun, Heard::Complete) => Progress::Done,
        _ => return None,
    };
    Some(Standing {
        progress,
        ..standing
    })
}

fn renewed(by: &Renewal, standing: Standing) -> Option<Standing>
    ensures { result ≡ spec.renewed by.now standing }
{
    match by {
        Renewal::Mark(line, heard) if standing.line == *line => with_mark(standing, *heard),
        Renewal::Mark(line, heard) if is_doubt(*line, standing.rival, heard) => None,
        Renewal::Mark(..) => Some(standing),
        Renewal::Fault => matches!(standing.progress, Progress::Sent).then_some(standing),
        Renewal::Answer => matches!(standing.progress, Progress::Done).then_some(standing),
    }
}

fn renew_one<A: Drop>(by: &Renewal, one: &mut Option<(A, Standing)>)
    ensures { one.new ≡ spec.one_renewed by.now one.old }
{
    if let Some((_, standing)) = one {
        match renewed(by, *standing) {
            Some(next) => *standing = next,
            None => *one = None,
        }
    }
}

pub(crate) fn renew(known: &mut Known, by: &Renewal)
    ensures { known.new ≡ spec.all_renewed by.now known.old }
{
    renew_one(by, &mut known.tool);
    renew_one(by, &mut known.csy);
    renew_one(by, &mut known.part);
    renew_one(by, &mut known.zero);
}

pub(crate) fn fresh(line: u64, rival: Option<u64>, is_lost: bool) -> Option<Standing>
    ensures { result ≡ spec.fresh line rival is_lost }
{
    (!is_lost).then_some(Standing {
        line,
        rival,
        progress: Progress::Sent,
    })
}

fn with_standing<A: Drop>(to: A, standing: Option<Standing>) -> Option<(A, Standing)>
    ensures { result ≡ spec.standing to standing }
{
    Some((to, standing?))
}

fn unless_part(csy: Option<(Csy, Standing)>) -> Option<(Csy, Standing)>
    ensures { result ≡ spec.unless_part csy }
{
    match csy? {
        (Csy::MachineCsy, standing) => Some((Csy::MachineCsy, standing)),
        (Csy::PartCsy, _) => None,
    }
}

pub(crate) fn below(
    alloc: Global,
    known: &Known,
    standing: Option<Standing>,
    command: &SentCommand,
) -> Result<Known, AllocError>
    ensures { IfOk result (λ below. below ≡ spec.below standing command.now known.now) }
{
    let command = match command {
        SentCommand::Known(command) => command,
        SentCommand::Asking => return copied(alloc, known),
        SentCommand::Foreign(_) => return Ok(nothing()),
    };
    let mut below = copied(alloc, known)?;
    match command {
        Command::StartSession | Command::EndSession => below = nothing(),
        Command::Home => below.tool = None,
        Command::ChangeTool(tool) => below.tool = with_standing(tool.copy(alloc)?, standing),
        Command::SetCsyTransformation(zero) => {
            below.csy = unless_part(below.csy);
            below.zero = with_standing(zero.opposite(), standing);
        }
        Command::SetCoordSystem(csy) => {
            below.csy = with_standing(*csy, standing);
            below.part = below.zero;
        }
        _ => {}
    }
    Ok(below)
}

pub(crate) fn done<A: Drop>(one: Option<(A, Standing)>) -> Option<A>
    ensures { result ≡ spec.done one }
{
    let (to, standing) = one?;
    matches!(standing.progress, Progress::Done).then_some(to)
}

pub(crate) fn frame_in(csy: Csy, zero: Option<Point>) -> Option<Frame>
    ensures { result ≡ spec.frame_in csy zero }
{
    match csy {
        Csy::MachineCsy => Some(Frame::Machine),
        Csy::PartCsy => Some(Frame::Part(zero?)),
    }
}

pub(crate) fn frame_of(known: &Known) -> Option<Frame>
    ensures { result ≡ spec.frame_of known.now }
{
    frame_in(done(known.csy)?, done(known.part))
}
