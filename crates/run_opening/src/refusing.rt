// How a run ends if nothing is begun.

ghost use Rattle.std.specs.Prelude.{◌≡◌, ◌<◌, OnOk};
ghost use Rattle.run_opening.specs.Openings as spec;

use crate::openings::Opening;
use crate::stages::Stage;
use order_parts::{Counts, FilesFault, LastLine, OrderFault};
use program_review::{InputFiles, place_of, shown_fault};
use std::alloc::AllocError;

impl Opening {
    /// Nothing is begun: this is said, and the status is this.
    pub(crate) fn refuse(&mut self, said: String, status: u8)
        ensures { 0 < status → spec.Ends self.new }
    {
        self.said = said;
        self.status = status;
        self.stage = Stage::DiscardingFeatures;
    }

    /// Likewise, for a fault of an order.
    #[tactic(auto, using(crate::proofs::Beginnings::positive))]
    pub(crate) fn refuse_order(&mut self, fault: OrderFault) -> Result<(), AllocError>
        ensures { OnOk result (spec.Ends self.new) }
    {
        let status = fault.status();
        let said = format!(in self.alloc; "{fault}")?;
        self.refuse(said, status);
        Ok(())
    }

    /// A file is refused: where, and what is wrong there, is said, if that is asked for.
    #[tactic(auto, using(crate::proofs::Beginnings::positive))]
    pub(crate) fn refuse_text(&mut self, fault: FilesFault) -> Result<(), AllocError>
        ensures { OnOk result (spec.Ends self.new) }
    {
        let place = if self.order.explain {
            place_of(self.alloc, &fault, &self.files)?
        } else {
            Vec::new(self.alloc)
        };
        let files = std::mem::replace(&mut self.files, InputFiles::unnamed(self.alloc));
        let shown = shown_fault(fault, files);
        let status = shown.status();
        let place = str::from_utf8(place.as_slice()).unwrap_or("");
        let said = format!(in self.alloc; "{shown}{place}")?;
        self.refuse(said, status);
        Ok(())
    }

    /// How many features the program asks for, of which that many are kept.
    pub(crate) fn counts(&self, kept: usize) -> Counts {
        Counts {
            kept,
            complete: kept,
            asked: self.asked,
        }
    }

    /// Nothing is begun: this is said, and then the last line.
    pub(crate) fn refuse_last(
        &mut self,
        said: &str,
        last: Option<LastLine>,
        status: u8,
    ) -> Result<(), AllocError>
        ensures { OnOk result (0 < status → spec.Ends self.new) }
    {
        let said = match last {
            Some(last) => format!(in self.alloc; "{said}{last}")?,
            None => String::from_str(self.alloc, said)?,
        };
        self.refuse(said, status);
        Ok(())
    }
}
