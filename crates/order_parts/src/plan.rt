// The plan of a program on a new connection, as text.

ghost use Rattle.std.specs.Prelude.{◌≡◌, ◌<◌, ◌≤◌, [], length, ◌++◌, All, false, OnOk, IfOk, IfSome};
ghost use Rattle.order_parts.specs.Names.{position, kind_of, is_event_kind, HasVolumeLengths, Std, IsSendable, count_to_touch, first_commands, is_touch, plan_text, homing_mark, shown_line, shown_behind, number_behind, number_behind_all, line_under, lines_from, shown_from};

use dme_line::{Command, Tag, write_command};
use dmis_program::Program;
use resume_plan::{Commands, Planned, Planning, Start, plan};
use std::alloc::{AllocError, Global};

/// What is added to the line of a command that is not sent to a machine that is homed.
fn homing_mark(command: &Command) -> &'static str
    ensures { result.now ≡ homing_mark command.now }
{
    match command {
        Command::Home => ", only if it is not homed; if it is, the tags below are one less",
        _ => "",
    }
}

fn next_number(number: u32) -> u32
    requires { number ≤ 9999 }
    ensures { result ≡ number_behind number }
{
    if number == 9999 { 1 } else { number + 1 }
}

/// Lines of commands so far, and the number of the next tag.
#[derive(Drop)]
struct Lines {
    text: Vec<u8>,
    number: u32,
    ghost counted: { (1 ≤ number) × (number ≤ 9999) },
}

impl Lines {
    fn new(alloc: Global) -> Lines
        ensures text { result.text.items ≡ [] }
        ensures number { result.number ≡ 1 }
    {
        Lines {
            text: Vec::new(alloc),
            number: 1,
        }
    }

    /// Adds the line of a standard command under the next tag.
    fn push(&mut self, command: &Command) -> Result<(), AllocError>
        requires standard { is_event_kind (kind_of command.now) ≡ false }
        requires lengths { HasVolumeLengths command.now }
        ensures text { OnOk result (self.new.text.items ≡ self.old.text.items
            ++ line_under self.old.number command.now) }
        ensures number { OnOk result (self.new.number ≡ number_behind self.old.number) }
    {
        write_command(&mut self.text, Tag::Std(self.number), command)?;
        self.text.push(b'\n')?;
        self.number = next_number(self.number);
        Ok(())
    }

    /// Likewise, as it is shown before a run.
    fn push_shown(&mut self, command: &Command) -> Result<(), AllocError>
        requires standard { is_event_kind (kind_of command.now) ≡ false }
        requires lengths { HasVolumeLengths command.now }
        ensures text { OnOk result (self.new.text.items ≡ self.old.text.items
            ++ shown_line (Std self.old.number) command.now) }
        ensures number { OnOk result (self.new.number ≡ number_behind self.old.number) }
    {
        self.text.extend_from_slice(b"dme:   ")?;
        write_command(&mut self.text, Tag::Std(self.number), command)?;
        self.text
            .extend_from_slice(homing_mark(command).as_bytes())?;
        self.text.push(b'\n')?;
        self.number = next_number(self.number);
        Ok(())
    }

    /// Adds the lines of commands.
    fn push_all(&mut self, commands: &[Planned]) -> Result<(), AllocError>
        requires { All IsSendable commands.now }
        ensures text { OnOk result (self.new.text.items ≡ self.old.text.items
            ++ lines_from self.old.number commands.now) }
        ensures number { OnOk result (self.new.number
            ≡ number_behind_all self.old.number commands.now) }
    {
        for planned in commands {
            self.push(&planned.command)?;
        }
        Ok(())
    }

    fn push_all_shown(&mut self, commands: &[Planned]) -> Result<(), AllocError>
        requires { All IsSendable commands.now }
        ensures { OnOk result (self.new.text.items ≡ self.old.text.items
            ++ shown_from self.old.number commands.now) }
    {
        for planned in commands {
            self.push_shown(&planned.command)?;
        }
        Ok(())
    }

    /// Adds the lines of the commands that a plan has, and takes them out.
    fn take(&mut self, commands: &mut Commands) -> Result<(), AllocError>
        requires { All IsSendable commands.old.planned.items }
        ensures text { OnOk result (self.new.text.items ≡ self.old.text.items
            ++ lines_from self.old.number commands.old.planned.items) }
        ensures number { OnOk result (self.new.number
            ≡ number_behind_all self.old.number commands.old.planned.items) }
        ensures taken { commands.new.planned.items ≡ [] }
    {
        let pushed = self.push_all(commands.planned.as_slice());
        commands.planned.clear();
        pushed
    }
}

fn shown_text(alloc: Global, commands: &[Planned]) -> Result<Vec<u8>, AllocError>
    requires { All IsSendable commands.now }
    ensures { IfOk result (λ text. text.items ≡ shown_behind 0 commands.now) }
{
    let mut lines = Lines::new(alloc);
    lines.push_all_shown(commands)?;
    Ok(lines.text)
}

fn is_touch(command: &Command) -> bool
    ensures { result ≡ is_touch command.now }
{
    matches!(command, Command::PtMeas(_, _))
}

fn first_touch(commands: &[Planned]) -> Option<usize>
    ensures place { result ≡ position (λ p. is_touch p.command) commands.now }
    ensures within { IfSome result (λ at. at < length commands.now) }
{
    commands
        .iter()
        .position(|planned| is_touch(&planned.command))
}

/// How many commands there are up to the first touch; all if there is no touch.
fn count_to_touch(commands: &[Planned]) -> usize
    ensures count { result ≡ count_to_touch commands.now }
    ensures within { result ≤ length commands.now }
{
    match first_touch(commands) {
        Some(at) => at + 1,
        None => commands.len(),
    }
}

/// The commands up to the first touch, as a plan begins on a new connection if that many features are completed, as lines that are shown
/// before a run. The caller must ensure that the program has that many features. Fails only if out of memory.
#[tactic(auto, using(crate::proofs::PlanLemmas::first_are_sendable))]
pub fn first_lines(
    alloc: Global,
    program: &Program,
    completed: usize,
) -> Result<Vec<u8>, AllocError>
    requires { completed ≤ length program.now.features }
    ensures { IfOk result (λ text. text.items
        ≡ shown_behind 0 (first_commands program.now completed)) }
{
    let commands = plan(alloc, program, completed, Start::NewConnection)?;
    let commands = commands.as_slice();
    let (first, _) = commands.split_at(count_to_touch(commands));
    shown_text(alloc, first)
}

/// The text of the plan of a program on a new connection, with no feature completed. Fails only if out of memory.
#[tactic(auto, using(crate::proofs::PlanLemmas::plan_has_text))]
pub fn plan_text(alloc: Global, program: &Program) -> Result<Vec<u8>, AllocError>
    ensures text { IfOk result (λ text. text.items ≡ plan_text program.now) }
    ensures some { IfOk result (λ text. 0 < length text.items) }
{
    let mut lines = Lines::new(alloc);
    let mut planning = Planning::begin(alloc, program, 0, Start::NewConnection)?;
    while planning.add_step()? {
        lines.take(&mut planning.commands)?;
    }
    lines.take(&mut planning.commands)?;
    Ok(lines.text)
}
