// The answer that begins a run.

ghost use Rattle.std.specs.Prelude.{◌≡◌, true, OnOk};
ghost use Rattle.effects.specs.Effects.{the_reply, Bytes};
ghost use Rattle.run_opening.specs.Openings as spec;

use crate::openings::Opening;
use crate::stages::Stage;
use effects::Answer;
use order_parts::{RunEnding, last_line};
use std::alloc::AllocError;

const UNCONFIRMED: &str = "dme: not confirmed, nothing has moved\n";

impl Opening {
    /// The answer was no empty line.
    fn refuse_answer(&mut self) -> Result<(), AllocError>
        ensures { OnOk result (spec.Ends self.new) }
    {
        let kept = match &self.client {
            Some(client) => client.features().len(),
            None => 0,
        };
        let last = last_line(RunEnding::NotConfirmed, self.counts(kept));
        self.refuse_last(UNCONFIRMED, last, 1)
    }

    /// It was one.
    fn confirm(&mut self)
        ensures { spec.Confirms self.old self.new }
    {
        self.stage = Stage::Ready;
    }

    /// The first byte of the answer was typed.
    fn begin_line(&mut self, bytes: &[u8]) -> Result<(), AllocError>
        requires { self.old.stage ≡ Stage.Confirming }
        ensures { OnOk result (spec.GoesOn self.old (Bytes bytes.now) self.new) }
    {
        match bytes {
            [b'\n'] => self.confirm(),
            [b'\r'] => self.stage = Stage::Returning,
            _ => return self.refuse_answer(),
        }
        Ok(())
    }

    /// The byte after a CR was typed.
    fn end_line(&mut self, bytes: &[u8]) -> Result<(), AllocError>
        requires { self.old.stage ≡ Stage.Returning }
        ensures { OnOk result (spec.GoesOn self.old (Bytes bytes.now) self.new) }
    {
        match bytes {
            [b'\n'] => self.confirm(),
            _ => return self.refuse_answer(),
        }
        Ok(())
    }

    /// A byte was typed, or none can be.
    pub(crate) fn confirmed(&mut self, answer: Answer<'_>) -> Result<(), AllocError>
        requires { spec.is_confirming self.old.stage ≡ true }
        ensures { OnOk result (spec.GoesOn self.old (the_reply answer.entry) self.new) }
    {
        match (self.stage, answer) {
            (Stage::Confirming, Answer::Bytes(bytes)) => self.begin_line(bytes),
            (Stage::Returning, Answer::Bytes(bytes)) => self.end_line(bytes),
            (_, Answer::Short) => Err(AllocError),
            _ => self.refuse_answer(),
        }
    }
}
