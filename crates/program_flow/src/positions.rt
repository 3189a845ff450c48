// Where the flow is in some statements.

ghost use Rattle.std.specs.Prelude.{◌≡◌, [], OnOk};
ghost use Rattle.program_flow.specs.Blocks.{around};
ghost use Rattle.program_flow.specs.Flow.{to};
ghost use Rattle.program_flow.specs.Named.{seen_position};
ghost use Rattle.program_flow.specs.Turns.{moved};

use crate::blocks::{Block, Move};
use std::alloc::{AllocError, Global};

/// The place of the next statement, and the blocks that are open there, the innermost first.
#[derive(Drop)]
pub struct Position {
    pub(crate) place: usize,
    pub(crate) blocks: Vec<Block>,
}

impl Position {
    /// At the first of some statements.
    pub(crate) fn new(alloc: Global) -> Position
        ensures { seen_position result ≡ to 0 [] }
    {
        Position {
            place: 0,
            blocks: Vec::new(alloc),
        }
    }

    /// Goes where a move leads.
    pub(crate) fn go(&mut self, target: Move) -> Result<(), AllocError>
        ensures { OnOk result (seen_position self.new
            ≡ moved (seen_position self.old).blocks target) }
    {
        match target {
            Move::Stay(place) => self.place = place,
            Move::Enter(block) => {
                self.place = block.start;
                self.blocks.insert(0, block)?;
            }
            Move::Leave(place) => {
                self.place = place;
                if !self.blocks.is_empty() {
                    self.blocks.remove(0);
                }
            }
            Move::Jump(place) => {
                self.place = place;
                self.leave_for(place);
            }
        }
        Ok(())
    }

    /// Leaves the blocks that have not this place in them.
    fn leave_for(&mut self, place: usize)
        ensures { seen_position self.new ≡ to self.old.place
            (around place (seen_position self.old).blocks) }
    {
        while let Some(inner) = self.blocks.first()
            && !(inner.start <= place && place < inner.end)
        {
            self.blocks.remove(0);
        }
    }
}
