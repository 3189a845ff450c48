// Reading command lines.

ghost use Rattle.std.specs.Prelude.{◌≡◌, ◌≤◌, ℕ, List, length, find, true, MatchOption, IfSome, IfOk, OnErr};
ghost use Rattle.fixed_um.specs.Calls.{Finds};
ghost use Rattle.std.specs.List.{prefix_len};
ghost use Rattle.dme_line.specs.Words.{is_word};
ghost use Rattle.dme_line.specs.Kinds.{kind_name};
ghost use Rattle.dme_line.specs.Tokens.{tokens};
ghost use Rattle.dme_line.specs.Arguments.{Says, IsOneWord};
ghost use Rattle.dme_line.specs.CommandText.{is_name_part, IsNamed, IsTagged, IsCommandOf, HoldsTool, ReadsCommand};

use crate::arguments::is_empty_list;
use crate::commands::{Command, Kind};
use crate::front::cut_five;
use crate::places::{read_move, read_touch, read_written_move, read_written_touch};
use crate::settings::{read_report, read_system, read_tool, read_zero_point};
use crate::tags::{Tag, cut_tag};
use crate::tokens::is_word;
use fixed_um::{Dir, Point};
use std::alloc::{AllocError, Global};

/// Why a line is no command; of several reasons the first in this order.
#[derive(Clone, Copy, Debug, PartialEq, Eq)]
pub enum LineFault {
    /// The line does not begin with a tag, other than number 0, and one space.
    NoTag,
    /// The name is not a known one.
    UnknownCommand(Tag),
    /// The arguments don't read, or the tag is not of the command's kind.
    BadArguments(Tag, Kind),
}

/// A tag that a command can have at the start of a line, and what follows the space that follows it.
fn cut_numbered_tag(line: &[u8]) -> Option<(Tag, &[u8])>
    ensures { MatchOption result
        ((tag : Tag) (text : List ℕ) → IsTagged line.now tag text → ⊥)
        (λ p. IsTagged line.now p.0 p.1.now) }
{
    let (tag, text) = cut_tag(line)?;
    tag.is_numbered().then_some((tag, text))
}

fn name_len(text: &[u8]) -> usize
    ensures count { result ≡ prefix_len is_name_part text.now }
    ensures within { result ≤ length text.now }
{
    text.iter()
        .take_while(|byte| **byte != b' ' && **byte != b'(')
        .count()
}

/// A command's name and what follows it.
pub(crate) fn cut_name(text: &[u8]) -> (&[u8], &[u8])
    ensures { IsNamed text.now result.0.now result.1.now }
{
    text.split_at(name_len(text))
}

const KINDS: [Kind; 12] = [
    Kind::StartSession,
    Kind::EndSession,
    Kind::ClearAllErrors,
    Kind::IsHomed,
    Kind::Home,
    Kind::OnPtMeasReport,
    Kind::GoTo,
    Kind::PtMeas,
    Kind::ChangeTool,
    Kind::SetCsyTransformation,
    Kind::SetCoordSystem,
    Kind::AbortE,
];

fn find_kind(name: &[u8]) -> Option<Kind>
    ensures { result ≡ find (λ kind. is_word (kind_name kind) name.now) KINDS }
{
    KINDS
        .iter()
        .copied()
        .find(|kind| is_word(kind.name(), name))
}

/// The kind that a name most likely is of, by its first letter and its length. It is tried first: a wrong one only costs time.
fn likely_kind(name: &[u8]) -> Kind {
    match name.first() {
        Some(b'G') => Kind::GoTo,
        Some(b'P') => Kind::PtMeas,
        Some(b'H') => Kind::Home,
        Some(b'I') => Kind::IsHomed,
        Some(b'E') => Kind::EndSession,
        Some(b'O') => Kind::OnPtMeasReport,
        Some(b'A') => Kind::AbortE,
        Some(b'C') => if name.len() == 10 {
            Kind::ChangeTool
        } else {
            Kind::ClearAllErrors
        }
        _ => match name.len() {
            14 => Kind::SetCoordSystem,
            20 => Kind::SetCsyTransformation,
            _ => Kind::StartSession,
        },
    }
}

fn kind_named(name: &[u8]) -> Option<Kind>
    ensures { Finds result (λ kind. is_word (kind_name kind) name.now ≡ true) }
{
    let likely = likely_kind(name);
    if is_word(likely.name(), name) {
        return Some(likely);
    }
    find_kind(name)
}

fn read_go_to(bytes: &[u8]) -> Option<Command>
    ensures { Finds result (Says Kind.GoTo (tokens bytes.now)) }
{
    Some(Command::GoTo(read_move(bytes)?))
}

fn read_pt_meas(bytes: &[u8]) -> Option<Command>
    ensures { Finds result (Says Kind.PtMeas (tokens bytes.now)) }
{
    let Some((target, direction)) = read_touch(bytes) else {
        return None;
    };
    Some(Command::PtMeas(target, direction))
}

fn read_set_csy_transformation(bytes: &[u8]) -> Option<Command>
    ensures { Finds result (Says Kind.SetCsyTransformation (tokens bytes.now)) }
{
    Some(Command::SetCsyTransformation(read_zero_point(bytes)?))
}

fn read_set_coord_system(bytes: &[u8]) -> Option<Command>
    ensures { Finds result (Says Kind.SetCoordSystem (tokens bytes.now)) }
{
    Some(Command::SetCoordSystem(read_system(bytes)?))
}

fn read_change_tool(alloc: Global, bytes: &[u8]) -> Result<Option<Command>, AllocError>
    ensures read { IfOk result (λ o. Finds o (Says Kind.ChangeTool (tokens bytes.now))) }
    ensures err { OnErr result ((word : List ℕ) × IsOneWord (tokens bytes.now) word) }
{
    match read_tool(alloc, bytes)? {
        Some(name) => Ok(Some(Command::ChangeTool(name))),
        None => Ok(None),
    }
}

fn read_arguments(alloc: Global, kind: Kind, bytes: &[u8]) -> Result<Option<Command>, AllocError>
    ensures read { IfOk result (λ o. Finds o (Says kind (tokens bytes.now))) }
    ensures err { OnErr result ((kind ≡ Kind.ChangeTool)
        × ((word : List ℕ) × IsOneWord (tokens bytes.now) word)) }
{
    match kind {
        Kind::StartSession => Ok(is_empty_list(bytes).then_some(Command::StartSession)),
        Kind::EndSession => Ok(is_empty_list(bytes).then_some(Command::EndSession)),
        Kind::ClearAllErrors => Ok(is_empty_list(bytes).then_some(Command::ClearAllErrors)),
        Kind::IsHomed => Ok(is_empty_list(bytes).then_some(Command::IsHomed)),
        Kind::Home => Ok(is_empty_list(bytes).then_some(Command::Home)),
        Kind::OnPtMeasReport => Ok(read_report(bytes).map(|_| Command::OnPtMeasReport)),
        Kind::GoTo => Ok(read_go_to(bytes)),
        Kind::PtMeas => Ok(read_pt_meas(bytes)),
        Kind::ChangeTool => read_change_tool(alloc, bytes),
        Kind::SetCsyTransformation => Ok(read_set_csy_transformation(bytes)),
        Kind::SetCoordSystem => Ok(read_set_coord_system(bytes)),
        Kind::AbortE => Ok(is_empty_list(bytes).then_some(Command::AbortE)),
    }
}

/// The target of a `GoTo` after the tag and its space, its name and axes in their written form and read at once. `None` says nothing:
/// the text may stand for one in another form, or for none.
#[inline(always)]
fn read_written_go_to(text: &[u8]) -> Option<Point>
    ensures { IfSome result (λ p. IsCommandOf Kind.GoTo text.now (Command.GoTo p)) }
{
    let bytes = cut_five(text, *b"GoTo", b'(')?;
    read_written_move(bytes)
}

/// The target and the direction, if one is given, of such a `PtMeas`.
#[inline(always)]
fn read_written_pt_meas(text: &[u8]) -> Option<(Point, Option<Dir>)>
    ensures { IfSome result (λ t. IsCommandOf Kind.PtMeas text.now (Command.PtMeas t.0 t.1)) }
{
    match text {
        [b'P', b't', b'M', b'e', b'a', b's', b'(', bytes @ ..] => read_written_touch(bytes),
        _ => None,
    }
}

/// The command of a text after a tag and its space, in any form; or why there is none.
#[inline(never)]
fn read_any_command(
    alloc: Global,
    tag: Tag,
    text: &[u8],
) -> Result<Result<(Tag, Command), LineFault>, AllocError>
    ensures reads { IfOk result (λ reading. (line : List ℕ) → IsTagged line tag text.now
        → ReadsCommand line reading) }
    ensures memory { OnErr result ((line : List ℕ) → IsTagged line tag text.now → HoldsTool line) }
{
    let (name, bytes) = cut_name(text);
    let Some(kind) = kind_named(name) else {
        return Ok(Err(LineFault::UnknownCommand(tag)));
    };
    if tag.is_event() != kind.is_event() {
        return Ok(Err(LineFault::BadArguments(tag, kind)));
    }
    match read_arguments(alloc, kind, bytes)? {
        Some(command) => Ok(Ok((tag, command))),
        None => Ok(Err(LineFault::BadArguments(tag, kind))),
    }
}

/// The command that a line without its end stands for, with its tag; or why it stands for none.
///
/// Names of commands, axes and coordinate systems are read in any case, with any number of spaces next to parentheses and commas
/// and after the last parenthesis. The outer `Err` means out of memory, and comes only for the name of a tool. The same line may be
/// read again.
pub fn read_command(
    alloc: Global,
    line: &[u8],
) -> Result<Result<(Tag, Command), LineFault>, AllocError>
    ensures reads { IfOk result (λ reading. ReadsCommand line.now reading) }
    ensures memory { OnErr result (HoldsTool line.now) }
{
    let Some((tag, text)) = cut_numbered_tag(line) else {
        return Ok(Err(LineFault::NoTag));
    };
    if !tag.is_event() {
        if let Some(target) = read_written_go_to(text) {
            return Ok(Ok((tag, Command::GoTo(target))));
        }
        if let Some((target, direction)) = read_written_pt_meas(text) {
            return Ok(Ok((tag, Command::PtMeas(target, direction))));
        }
    }
    read_any_command(alloc, tag, text)
}
