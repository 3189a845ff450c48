// The commands of a plan.

ghost use Rattle.std.specs.Prelude.{◌≡◌, ◌↔◌, ◌≤◌, ◌<◌, ◌++◌, ◌∷◌, [], true, false, length, All, OnOk, IfOk, drop, option_copied};
ghost use Rattle.resume_plan.specs.Names.{feature_touches, touches_of, planned, framing, tooling, stepping, clearing, starting, behind, plan, planned_with, IsSendable};

use crate::position::{Position, ends_feature, position_behind};
use dme_line::{Command, Csy};
use dmis_program::{Program, Step, Touch};
use fixed_um::{Frame, Name};
use protocol_model::{Does, Planned, Start};
use std::alloc::{AllocError, Global};

/// The commands of a plan so far, or those of them that nobody has taken out.
#[derive(Drop)]
pub struct Commands {
    alloc: Global,
    pub planned: Vec<Planned>,
}

impl Commands {
    #[inline(always)]
    fn push(&mut self, command: Command, does: Does) -> Result<(), AllocError>
        ensures { OnOk result (self.new.planned.items ≡ self.old.planned.items
            ++ planned command does ∷ []) }
    {
        self.planned.reserve(1)?;
        self.planned.push_reserved(Planned { command, does });
        Ok(())
    }

    /// Adds the change to a tool.
    fn push_tool(&mut self, name: &Name) -> Result<(), AllocError>
        ensures { OnOk result (self.new.planned.items ≡ self.old.planned.items
            ++ tooling (Some name.now)) }
    {
        let tool = name.copy(self.alloc)?;
        let changed = name.copy(self.alloc)?;
        self.push(Command::ChangeTool(tool), Does::Changes(changed))
    }

    /// Adds the commands that select a frame.
    fn push_frame(&mut self, frame: &Frame) -> Result<(), AllocError>
        ensures { OnOk result (self.new.planned.items ≡ self.old.planned.items
            ++ framing frame.now) }
    {
        let selects = Does::Frames(*frame);
        match frame {
            Frame::Machine => self.push(Command::SetCoordSystem(Csy::MachineCsy), selects),
            Frame::Part(offset) => {
                self.push(
                    Command::SetCsyTransformation(offset.opposite()),
                    Does::Nothing,
                )?;
                self.push(Command::SetCoordSystem(Csy::PartCsy), selects)
            }
        }
    }

    /// Adds a touch, which may be the last of its feature.
    fn push_touch(&mut self, touch: &Touch, last: bool) -> Result<(), AllocError>
        ensures { OnOk result (self.new.planned.items
            ≡ self.old.planned.items ++ planned (Command.PtMeas touch.now.target touch.now.dir)
            (Does.Touches touch.now last) ∷ []) }
    {
        let command = Command::PtMeas(touch.target, touch.dir);
        let touch = touch.copy(self.alloc)?;
        self.push(command, Does::Touches { touch, last })
    }

    /// Adds the commands of a step in a frame, and gives the frame that is selected after it.
    fn push_step(
        &mut self,
        step: &Step,
        frame: &Frame,
        behind: &[Step],
    ) -> Result<Frame, AllocError>
        ensures { IfOk result (λ next. self.new.planned.items ++ stepping next behind.now
            ≡ self.old.planned.items ++ stepping frame.now (step.now ∷ behind.now)) }
    {
        match step {
            Step::Goto(target) => {
                self.push(Command::GoTo(*target), Does::Moves(*target, *frame))?;
                Ok(*frame)
            }
            Step::Touch(touch) => {
                self.push_touch(touch, ends_feature(behind))?;
                Ok(*frame)
            }
            Step::Tool(name) => {
                self.push_tool(name)?;
                Ok(*frame)
            }
            Step::Recall(offset) => {
                let next = Frame::Part(*offset);
                self.push_frame(&next)?;
                Ok(next)
            }
            Step::Begin(_) | Step::End => Ok(*frame),
        }
    }

    /// Adds what begins every plan.
    fn push_preamble(&mut self, start: Start) -> Result<(), AllocError>
        ensures { OnOk result (self.new.planned.items ≡ self.old.planned.items
            ++ starting start (clearing [])) }
    {
        match start {
            Start::NewConnection => self.push(Command::StartSession, Does::Nothing)?,
            Start::SameConnection => {}
        }
        self.push(Command::ClearAllErrors, Does::Nothing)?;
        self.push(Command::IsHomed, Does::AsksHomed)?;
        self.push(Command::Home, Does::Homes)?;
        self.push(Command::OnPtMeasReport, Does::Nothing)
    }

    /// Adds what is selected at a position.
    fn push_selections(&mut self, position: &Position<'_>) -> Result<(), AllocError>
        ensures { OnOk result (self.new.planned.items ≡ self.old.planned.items
            ++ (tooling (option_copied position.now.tool) ++ framing position.now.frame)) }
    {
        if let Some(name) = position.tool {
            self.push_tool(name)?;
        }
        self.push_frame(&position.frame)
    }
}

/// A plan that is made step by step: its commands so far, the steps that are left, and the frame that is selected before them.
#[derive(Drop)]
pub struct Planning<'p> {
    pub commands: Commands,
    pub frame: Frame,
    pub steps: &'p [Step],
}

impl<'p> Planning<'p> {
    /// The plan that `plan` gives, up to its first step: so it is made by whoever takes the commands out as they come, and never holds them
    /// all.
    ///
    /// The caller must ensure that the program has that many features. Fails only if out of memory.
    pub fn begin(
        alloc: Global,
        program: &'p Program,
        completed: usize,
        start: Start,
    ) -> Result<Planning<'p>, AllocError>
        requires { completed ≤ length program.now.features }
        ensures plan { IfOk result (λ p. planned_with p.commands.planned.items p.frame p.steps.now
            ≡ plan program.now completed start) }
        // No step is made yet.
        ensures steps { IfOk result (λ p. p.steps.now ≡ behind completed program.now.steps) }
        ensures sendable { IfOk result (λ p. All IsSendable
            (planned_with p.commands.planned.items p.frame p.steps.now)) }
        ensures touches { IfOk result (λ p. touches_of
            (planned_with p.commands.planned.items p.frame p.steps.now)
            ≡ feature_touches (drop completed program.now.features)) }
    {
        let mut commands = Commands {
            alloc,
            planned: Vec::new(alloc),
        };
        let position = position_behind(program.statements(), completed);
        commands.push_preamble(start)?;
        commands.push_selections(&position)?;
        Ok(Planning {
            commands,
            frame: position.frame,
            steps: position.steps,
        })
    }

    /// Adds the commands of the next step, and answers whether there was one; if not, it adds the end of the session, and the plan is
    /// complete. Fails only if out of memory.
    pub fn add_step(&mut self) -> Result<bool, AllocError>
        ensures step { IfOk result (λ more. more ≡ true → planned_with self.new.commands.planned.items
            self.new.frame self.new.steps.now
            ≡ planned_with self.old.commands.planned.items self.old.frame self.old.steps.now) }
        ensures shorter { IfOk result (λ more. more ≡ true
            → length self.new.steps.now < length self.old.steps.now) }
        // One step is made, and the answer is whether there was one.
        ensures one { OnOk result (self.new.steps.now ≡ drop 1 self.old.steps.now) }
        ensures more { IfOk result (λ more. more ≡ true ↔ (0 < length self.old.steps.now)) }
        ensures end { IfOk result (λ more. more ≡ false → self.new.commands.planned.items
            ≡ planned_with self.old.commands.planned.items self.old.frame self.old.steps.now) }
    {
        let Some((step, behind)) = self.steps.split_first() else {
            self.commands.push(Command::EndSession, Does::Nothing)?;
            return Ok(false);
        };
        self.frame = self.commands.push_step(step, &self.frame, behind)?;
        self.steps = behind;
        Ok(true)
    }
}

/// The commands that measure what is left of a program of which the first `completed` features are measured, each with what it means
/// once it is counted (this profile).
///
/// The plan begins a session on a new connection, clears errors, asks whether the machine is homed, homes it and asks for the points of
/// touches. It selects the tool and the frame again that are selected after the last touch of the last completed feature, continues with
/// the steps from there, and ends the session. A frame is selected by the machine's zero point in its axes: its offset with each sign
/// turned. Whoever follows the plan skips the homing if the answer to the question is yes.
///
/// The caller must ensure that the program has that many features. Fails only if out of memory.
pub fn plan(
    alloc: Global,
    program: &Program,
    completed: usize,
    start: Start,
) -> Result<Vec<Planned>, AllocError>
    requires { completed ≤ length program.now.features }
    ensures plan { IfOk result (λ planned. planned.items ≡ plan program.now completed start) }
    // Each of its commands can be written under a standard tag.
    ensures sendable { IfOk result (λ planned. All IsSendable planned.items) }
    // Its touches are, in order, those of the features that are left, each with its target, direction, tool and frame.
    ensures touches { IfOk result (λ planned. touches_of planned.items
        ≡ feature_touches (drop completed program.now.features)) }
{
    let mut planning = Planning::begin(alloc, program, completed, start)?;
    while planning.add_step()? {}
    Ok(planning.commands.planned)
}
