// The statements that a client carries out by commands, and their lines.

ghost use Rattle.std.specs.Prelude.{◌≡◌, ◌++◌, None, IfOk, OnOk};
ghost use Rattle.program_review.specs.TaskLines.{task_said, task_lines_of, command_lines_of, lines_of};
ghost use Rattle.program_review.specs.TaskLines.{last_line, tool_line, frame_line, up_to_touch, after_touch, tool_again, frame_again};

use crate::said::said_in;
use dmis_program::StatementMeaning;
use dmis_text::Statement;
use std::alloc::{AllocError, Global};

/// What a statement asks a client to do by commands (ISO 22093).
#[derive(Clone, Copy, Debug)]
pub enum Task {
    /// A move (`GOTO`).
    Move,
    /// A touch (`PTMEAS`).
    Touch,
    /// A tool is selected (`SNSLCT`).
    Tool,
    /// A stored frame is selected (`RECALL/D`).
    Frame,
}

/// A task, and the line on which its statement begins.
#[derive(Clone, Copy, Debug)]
pub struct TaskLine {
    pub task: Task,
    pub line: u64,
}

fn task_of(meaning: &Option<StatementMeaning>) -> Option<Task>
    ensures { result ≡ task_said meaning.now }
{
    match meaning {
        Some(StatementMeaning::Goes(_)) => Some(Task::Move),
        Some(StatementMeaning::Touches(_, _)) => Some(Task::Touch),
        Some(StatementMeaning::Selects(_)) => Some(Task::Tool),
        Some(StatementMeaning::Recalls(_)) => Some(Task::Frame),
        _ => None,
    }
}

/// The tasks of a program's statements, in order: of an accepted program each is one step, and no step but the begin and the end of a block is
/// left out. A statement that is refused for itself asks for nothing, nor does one after `ENDFIL`. Fails only if out of memory.
pub fn task_lines(alloc: Global, statements: &[Statement]) -> Result<Vec<TaskLine>, AllocError>
    ensures { IfOk result (λ tasks. tasks.items ≡ task_lines_of statements.now) }
{
    let said = said_in(alloc, statements)?;
    let mut tasks = Vec::new(alloc);
    let mut left = said.as_slice();
    while let [said, rest @ ..] = left {
        if said.is_end() {
            break;
        }
        if let Some(task) = task_of(said.meaning()) {
            let line = said.line();
            tasks.push(TaskLine { task, line })?;
        }
        left = rest;
    }
    Ok(tasks)
}

/// Tasks that are left, and the lines of the last of those before them, and of the tool and of the frame that these select.
#[derive(Drop)]
pub(crate) struct Left<'a> {
    pub(crate) last: Option<u64>,
    tool: Option<u64>,
    frame: Option<u64>,
    pub(crate) tasks: &'a [TaskLine],
}

pub(crate) fn left_after(tasks: &[TaskLine], touches: usize) -> Left<'_>
    ensures last { result.last ≡ last_line None (up_to_touch touches tasks.now) }
    ensures tool { result.tool ≡ tool_line None (up_to_touch touches tasks.now) }
    ensures frame { result.frame ≡ frame_line None (up_to_touch touches tasks.now) }
    ensures tasks { result.tasks.now ≡ after_touch touches tasks.now }
{
    let mut last = None;
    let mut tool = None;
    let mut frame = None;
    let mut rest = tasks;
    let mut left = touches;
    while left > 0 {
        let Some((first, after)) = rest.split_first() else {
            break;
        };
        last = Some(first.line);
        match first.task {
            Task::Touch => left -= 1,
            Task::Tool => tool = last,
            Task::Frame => frame = last,
            Task::Move => {}
        }
        rest = after;
    }
    Left {
        last,
        tool,
        frame,
        tasks: rest,
    }
}

fn push_lines(lines: &mut Vec<Option<u64>>, task: TaskLine) -> Result<(), AllocError>
    ensures { OnOk result (lines.new.items ≡ lines.old.items ++ lines_of task) }
{
    lines.push(Some(task.line))?;
    if let Task::Frame = task.task {
        lines.push(Some(task.line))?;
    }
    Ok(())
}

fn push_again(
    lines: &mut Vec<Option<u64>>,
    tool: Option<u64>,
    frame: Option<u64>,
) -> Result<(), AllocError>
    ensures { OnOk result (lines.new.items
        ≡ lines.old.items ++ (tool_again tool ++ frame_again frame)) }
{
    if tool.is_some() {
        lines.push(tool)?;
    }
    if frame.is_some() {
        lines.push(frame)?;
    }
    lines.push(frame)?;
    Ok(())
}

/// The line of each command by which a client carries out the statements of a program that has these tasks, once that many touches are
/// done: a client's plan selects the tool and the frame again first. No line for the machine's own frame, which no statement selects. Fails
/// only if out of memory.
pub fn command_lines(
    alloc: Global,
    tasks: &[TaskLine],
    touches: usize,
) -> Result<Vec<Option<u64>>, AllocError>
    ensures { IfOk result (λ lines. lines.items ≡ command_lines_of touches tasks.now) }
{
    let left = left_after(tasks, touches);
    let mut lines = Vec::new(alloc);
    push_again(&mut lines, left.tool, left.frame)?;
    for task in left.tasks {
        push_lines(&mut lines, *task)?;
    }
    Ok(lines)
}
