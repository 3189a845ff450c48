// Texts for the operator, and what a run holds back at them.

ghost use Rattle.std.specs.Prelude.{◌≡◌, ◌++◌, map, IfOk, OnOk};
ghost use Rattle.order_parts.specs.Pauses.{place_seen};
ghost use Rattle.program_review.specs.Texts as spec;

use crate::said::said_in;
use crate::sentences::statement_text;
use crate::tasks::{Left, Task, TaskLine, command_lines, left_after};
use dmis_program::StatementMeaning;
use dmis_text::Statement;
use order_parts::TextPlace;
use program_lowering::is_operator_text;
use session_telling::visible;
use std::alloc::{AllocError, Global};

/// A text for the operator (`TEXT/OPER`, `TEXT/MAN`): the line on which its statement begins, whether it is in a block, and the statement as
/// it is shown.
#[derive(Drop)]
pub struct OperatorText {
    pub line: u64,
    pub is_inside: bool,
    pub shown: String,
}

fn is_open_after(is_open: bool, meaning: &Option<StatementMeaning>) -> bool
    ensures { result ≡ spec.is_open_after is_open meaning.now }
{
    match meaning {
        Some(StatementMeaning::Begins(_, _)) => true,
        Some(StatementMeaning::Ends) => false,
        _ => is_open,
    }
}

/// The texts for the operator among a program's statements, in order, up to `ENDFIL`. Fails only if out of memory.
pub fn operator_texts(
    alloc: Global,
    statements: &[Statement],
) -> Result<Vec<OperatorText>, AllocError>
    ensures { IfOk result (λ texts. map spec.text_seen texts.items
        ≡ spec.texts_of statements.now) }
{
    let said = said_in(alloc, statements)?;
    let mut texts = Vec::new(alloc);
    let mut is_open = false;
    let mut left = said.as_slice();
    while let [said, rest @ ..] = left {
        if said.is_end() {
            break;
        }
        if is_operator_text(said.statement) {
            let text = statement_text(alloc, said.statement)?;
            texts.push(OperatorText {
                line: said.line(),
                is_inside: is_open,
                shown: visible(alloc, text.as_slice())?,
            })?;
        }
        is_open = is_open_after(is_open, said.meaning());
        left = rest;
    }
    Ok(texts)
}

fn is_below(line: u64, other: Option<u64>) -> bool
    ensures { result ≡ spec.is_below line other }
{
    other.is_some_and(|other| line < other)
}

fn held_at(lines: &[Option<u64>], left: &[TaskLine], line: u64) -> usize
    ensures { result ≡ spec.held_at lines.now left.now line }
{
    let above = left.iter().filter(|task| task.line < line).count();
    if above == 0 {
        return usize::MAX;
    }
    let below = lines.iter().filter(|other| is_below(line, **other)).count();
    below.saturating_add(1)
}

fn is_above_touches(left: &[TaskLine], line: u64) -> bool
    ensures { result ≡ spec.is_above_touches left.now line }
{
    let is_above = |task: &&TaskLine| matches!(task.task, Task::Touch) && task.line < line;
    left.iter().filter(is_above).count() == 0
}

/// How a run waits for its operator: whether it does so at texts, and before it begins.
#[derive(Clone, Copy, Debug)]
pub struct Waits {
    pub at_texts: bool,
    pub at_begin: bool,
}

/// Adds what is held back at a text, of these commands and tasks that are left, if it is below the last line that is done.
fn push_place(
    places: &mut Vec<TextPlace>,
    waits: Waits,
    last: Option<u64>,
    lines: &[Option<u64>],
    left: &[TaskLine],
    text: &OperatorText,
) -> Result<(), AllocError>
    ensures { OnOk result (map place_seen places.new.items
        ≡ map place_seen places.old.items
        ++ spec.place_on waits.at_texts waits.at_begin last lines.now left.now
        (spec.text_seen text.now)) }
{
    if !last.is_none_or(|last| last < text.line) {
        return Ok(());
    }
    let held = held_at(lines, left, text.line);
    let is_held = held > 1 && !(waits.at_begin && held == usize::MAX);
    let shown = String::from_str(*places.allocator(), text.shown.as_str())?;
    places.push(TextPlace {
        held,
        is_waited: waits.at_texts && !text.is_inside && is_held,
        is_first: is_above_touches(left, text.line),
        line: text.line,
        shown,
    })?;
    Ok(())
}

/// What a run of a program that has these tasks and texts holds back at each text that is left once that many touches are done. Fails only if
/// out of memory.
pub fn text_places(
    alloc: Global,
    waits: Waits,
    touches: usize,
    tasks: &[TaskLine],
    texts: &[OperatorText],
) -> Result<Vec<TextPlace>, AllocError>
    ensures { IfOk result (λ places. map place_seen places.items
        ≡ spec.places_of waits.at_texts waits.at_begin touches tasks.now
        (map spec.text_seen texts.now)) }
{
    let lines = command_lines(alloc, tasks, touches)?;
    let lines = lines.as_slice();
    let Left {
        last,
        tasks: left,
        ..
    } = left_after(tasks, touches);
    let mut places = Vec::new(alloc);
    for text in texts {
        push_place(&mut places, waits, last, lines, left, text)?;
    }
    Ok(places)
}
