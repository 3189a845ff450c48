ghost use Rattle.std.specs.Prelude.{◌≡◌, ◌∷◌, [], None, length, IfOk, IfSome, IfNone, IfErr};
ghost use Rattle.dmis_program.specs.Names.{AllByRecursion, lines, text_reading, IsDue, GivesProgram, text_refused, TextFault, StepIsStored};
ghost use Rattle.dmis_program.specs.Programs.{IsProgram};

use crate::faults::ProgramFault;
use crate::features::Wanted;
use crate::offsets::Frames;
use crate::reading::Reader;
use crate::steps::Step;
use dmis_text::{Statement, Statements};
use std::alloc::Global;
use std::marker::Model;

/// A measurement program (ISO 22093). Contracts see its features and its steps.
///
/// Whatever text it was read from: touches are in blocks, each block is a feature with 1 to 10,000 touches, and each touch has the
/// tool and the frame that were selected last above it; positions lie in the machine's volume, and there are at most 10,000 steps.
#[derive(Debug, Drop)]
pub struct Program {
    features: Vec<Wanted>,
    steps: Vec<Step>,
}

impl Model for Program {
    ghost use Rattle.dmis_program.specs.Meaning.{Meaning};

    ghost Value = { Meaning };

    ghost use Rattle.dmis_program.specs.Programs.{IsProgram};

    ghost view = { λ p. record { features = p.features.items; steps = p.steps.items } };

    ghost invariant = { λ p. IsProgram (record { features = p.features.items; steps = p.steps.items }) };
}

fn next_statement<'a>(
    statements: &mut Statements<'a>,
) -> Result<Option<Statement<'a>>, ProgramFault>
    ensures statement { IfOk result (λ given. IfSome given
        (λ s. statements.old.left ≡ s ∷ statements.new.left)) }
    ensures end { IfOk result (λ given. IfNone given ((statements.old.left ≡ [])
        × (statements.old.fault ≡ None) × (statements.new ≡ statements.old))) }
    ensures due { IfErr result (λ fault. (text : TextFault) × (fault ≡ text_refused text)
        × IsDue statements.old text) }
    ensures fault { statements.new.fault ≡ statements.old.fault }
    ensures lines { statements.new.lines ≡ statements.old.lines }
{
    Ok(statements.next()?)
}

impl Program {
    ghost use Rattle.dmis_program.specs.Meaning.{program_of};

    /// A program of features and steps that belong together.
    pub(crate) fn new(features: Vec<Wanted>, steps: Vec<Step>) -> Program
        requires { IsProgram (record { features = features.items; steps = steps.items }) }
        ensures { result ≡ record { features = features.items; steps = steps.items } }
    {
        Program { features, steps }
    }

    /// Reads the text of a program up to its `ENDFIL`; `frames` are those that it may recall. What is after is not read.
    ///
    /// Statements are read in order, and the first refusal in the text is answered with its line. Of several refusals of one
    /// statement the first in this order decides: more than 10,000 statements; no `DMISMN` at the start; a statement that this profile
    /// does not read; one that is outside or inside a block where it may not be; its arguments; its numerals, from the left; what
    /// its values mean (no direction, an unknown frame, too few points, another unit or mode); no tool. A line that cannot be read
    /// is refused before the statement that reaches it. Without an `ENDFIL` the text is truncated, at its last line.
    pub fn read(alloc: Global, bytes: &[u8], frames: &Frames) -> Result<Program, ProgramFault>
        ensures meaning { GivesProgram result (program_of frames.now bytes.now) }
        ensures stored { IfOk result (λ program. AllByRecursion (StepIsStored frames.now)
            program.steps) }
    {
        // Opens the frames: that their zero points are in the volume holds from here on.
        let _known = &frames.entries;
        let mut statements = Statements::new(alloc, bytes);
        let mut reader = Reader::new(alloc);
        while let Some(statement) = next_statement(&mut statements)? {
            match reader.read(frames, &statement) {
                Ok(true) => return Ok(reader.finish()),
                Ok(false) => statements.take_back(statement),
                Err(fault) => return Err(fault.at(statement.line)),
            }
        }
        Err(reader.missing_end(statements.lines()))
    }

    /// The features in the order of their blocks. Does not allocate.
    pub fn features(&self) -> &[Wanted]
        ensures features { result.now ≡ self.now.features }
        ensures program { IsProgram self.now }
    {
        self.features.as_slice()
    }

    /// The steps, which are what the statements command, in their order; a statement that commands nothing leaves none. Does not allocate.
    pub fn statements(&self) -> &[Step]
        ensures steps { result.now ≡ self.now.steps }
        ensures program { IsProgram self.now }
    {
        self.steps.as_slice()
    }
}
