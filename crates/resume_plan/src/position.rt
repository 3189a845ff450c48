// Where a plan begins in a program.

ghost use Rattle.std.specs.Prelude.{◌≡◌, None, option_copied};
ghost use Rattle.resume_plan.specs.Names.{block_touches, Machine, is_empty, behind, up_to, tool_behind, frame_behind};

use dmis_program::Step;
use fixed_um::{Frame, Name};

/// Steps that are left, and what is selected before them.
#[derive(Drop)]
pub(crate) struct Position<'p> {
    pub tool: Option<&'p Name>,
    pub frame: Frame,
    pub steps: &'p [Step],
}

/// Whether a touch with these steps after it is the last of its feature. It looks no further than the next touch, so that a plan's
/// touches together look at each step once.
pub(crate) fn ends_feature(behind: &[Step]) -> bool
    ensures { result ≡ is_empty (block_touches behind.now) }
{
    for step in behind {
        match step {
            Step::Touch(_) => return false,
            Step::End => return true,
            Step::Goto(_) | Step::Begin(_) | Step::Tool(_) | Step::Recall(_) => {}
        }
    }
    true
}

/// The position after the last touch of that many features. Does not allocate.
pub(crate) fn position_behind<'p>(steps: &'p [Step], completed: usize) -> Position<'p>
    ensures steps { result.steps.now ≡ behind completed steps.now }
    ensures tool { option_copied result.tool ≡ tool_behind None (up_to completed steps.now) }
    ensures frame { result.frame ≡ frame_behind Machine (up_to completed steps.now) }
{
    let mut tool = None;
    let mut frame = Frame::Machine;
    let mut rest = steps;
    let mut left = completed;
    while left > 0 {
        let Some((step, behind)) = rest.split_first() else {
            break;
        };
        match step {
            Step::Touch(_) => {
                if ends_feature(behind) {
                    left -= 1;
                }
            }
            Step::Tool(name) => tool = Some(name),
            Step::Recall(offset) => frame = Frame::Part(*offset),
            Step::Goto(_) | Step::Begin(_) | Step::End => {}
        }
        rest = behind;
    }
    Position {
        tool,
        frame,
        steps: rest,
    }
}
