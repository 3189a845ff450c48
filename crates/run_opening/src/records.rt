// The record that a run continues.

ghost use Rattle.std.specs.Prelude.{◌≡◌, ◌↔◌, Some, option_map, OnOk, IfOk, IsOk, IsTrue};
ghost use Rattle.effects.specs.Effects.{the_reply};
ghost use Rattle.run_opening.specs.Openings as spec;

use crate::firsts::are_first;
use crate::openings::Opening;
use crate::stages::{Stage, Text};
use dmis_program::Program;
use effects::Answer;
use order_parts::{FilesFault, OrderFault};
use program_review::{write_other_part, write_other_program, write_place};
use record_text::{Beginning, RecordFault, RecordRefusal, begin_record, false_seal, read_record};
use std::alloc::{AllocError, Global};

/// What is wrong with a record that is refused: at which line and what, which parts, or which feature and in what.
fn note(
    alloc: Global,
    refusal: &RecordRefusal,
    (name, part): (&str, Option<&[u8]>),
    text: &[u8],
    program: &Program,
) -> Result<Vec<u8>, AllocError> {
    let mut out = Vec::new(alloc);
    if let RecordRefusal::Damaged(line) = refusal {
        let fault = FilesFault::Record(RecordFault::Damaged(*line));
        write_place(&mut out, &fault, name, text)?;
        return Ok(out);
    }
    let Ok(Some(record)) = read_record(alloc, text) else {
        return Ok(out);
    };
    match refusal {
        RecordRefusal::OtherPart => write_other_part(&mut out, &record, part)?,
        RecordRefusal::OtherProgram(_) => write_other_program(&mut out, &record, program)?,
        RecordRefusal::Damaged(_) | RecordRefusal::Memory => {}
    }
    Ok(out)
}

impl Opening {
    fn part(&self) -> Option<&[u8]>
        ensures { option_map (λ part. part.now) result ≡ spec.part_of self.now.core.order }
    {
        match &self.order.part {
            Some(part) => Some(part.as_bytes()),
            None => None,
        }
    }

    /// How the run continues from the text of its record.
    fn beginning_of(&self, text: &[u8]) -> Result<Beginning, RecordRefusal>
        ensures { IfOk result (λ b. spec.IsRecordRead (spec.part_of self.now.core.order)
            self.now.core.program (Some b) (Some text.now)) }
    {
        match &self.program {
            Some(program) => begin_record(self.alloc, text, program, self.part()),
            None => Err(RecordRefusal::Memory),
        }
    }

    /// The whole text of the record.
    pub(crate) fn take_record(&mut self, text: Vec<u8>) -> Result<(), AllocError>
        ensures { OnOk result (spec.Takes Text.Record text.items self.old self.new) }
    {
        let beginning = self.beginning_of(text.as_slice());
        if self.is_stopped {
            return match beginning {
                Ok(beginning) => self.stop(Some(beginning.features.list().len())),
                Err(_) => self.stop(None),
            };
        }
        match beginning {
            Ok(beginning) => self.check(beginning, text.as_slice()),
            Err(refusal) => self.refuse_record(refusal, text.as_slice()),
        }
    }

    /// The record is not continued, and what is wrong with it is said, if that is asked for.
    fn refuse_record(&mut self, refusal: RecordRefusal, text: &[u8]) -> Result<(), AllocError>
        ensures { OnOk result (spec.Ends self.new) }
    {
        let (Some(program), Some(name)) = (&self.program, &self.order.record) else {
            return Err(AllocError);
        };
        if let RecordRefusal::Memory = refusal {
            return Err(AllocError);
        }
        let note = if self.order.explain {
            note(
                self.alloc,
                &refusal,
                (name.as_str(), self.part()),
                text,
                program,
            )?
        } else {
            Vec::new(self.alloc)
        };
        let note = str::from_utf8(note.as_slice()).unwrap_or("");
        let said = format!(in self.alloc; "dme: {refusal} in record\n{note}")?;
        self.refuse(said, 1);
        Ok(())
    }

    /// The line of the first seal that does not hold, if there is a key.
    fn false_seal(&self, text: &[u8]) -> Result<Option<u64>, AllocError>
        ensures { IfOk result (λ found. found ≡ spec.false_in self.now.core.key text.now) }
    {
        match &self.key {
            Some(key) => false_seal(self.alloc, key.as_slice(), text),
            None => Ok(None),
        }
    }

    /// The run continues from this text of its record, unless a seal does not hold.
    fn check(&mut self, beginning: Beginning, text: &[u8]) -> Result<(), AllocError>
        ensures { OnOk result (spec.Checks beginning text.now self.old self.new) }
    {
        match self.false_seal(text)? {
            Some(line) => self.refuse_order(OrderFault::BadSeal(line)),
            None => self.fill(beginning, text.len()),
        }
    }

    /// Whether the record gives back the features of the file, if one is named.
    fn gives_back(&self, beginning: &Beginning) -> bool
        ensures { IsTrue result ↔ spec.GivesBack (Some beginning.now) self.now.core.features }
    {
        match &self.features {
            Some(features) => are_first(features.list(), beginning.features.list()),
            None => true,
        }
    }

    /// The record is to get the text that the run continues from, unless it does not give back the features of the file.
    fn fill(&mut self, beginning: Beginning, length: usize) -> Result<(), AllocError>
        ensures fills { OnOk result (spec.Fills beginning self.old self.new) }
        ensures ours { spec.GivesBack (Some beginning) self.old.core.features
            → IsOk result × (self.new.stage ≡ Stage.Filling) }
    {
        if !self.gives_back(&beginning) {
            return self.refuse_order(OrderFault::NotOurs);
        }
        self.beginning = Some(beginning);
        self.length = length;
        self.stage = Stage::Filling;
        Ok(())
    }

    /// The record has it, or cannot be written.
    pub(crate) fn filled(&mut self, answer: Answer<'_>) -> Result<(), AllocError>
        requires { self.old.stage ≡ Stage.Filling }
        ensures { OnOk result (spec.GoesOn self.old (the_reply answer.entry) self.new) }
    {
        match answer {
            Answer::Done => self.take_beginning(),
            Answer::Short => Err(AllocError),
            _ => {
                let name = self.order.record.take();
                self.refuse_file(name, answer)
            }
        }
    }
}
