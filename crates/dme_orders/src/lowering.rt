// A program is made flat.

ghost use Rattle.std.specs.Prelude.{◌≡◌, IfOk, IfErr};
ghost use Rattle.dme_orders.specs.Input.{named};
ghost use Rattle.dme_orders.specs.Orders.{went};
ghost use Rattle.dme_orders.specs.Reading.{came};
ghost use Rattle.dme_orders.specs.Lowering.{Lowers, ReadsFlat, WhyNoFlat};
ghost use Rattle.program_lowering.specs.Heads.{names_of};
ghost use Rattle.program_review.specs.Reviews.{frames_under};

use crate::reading::{named_setup, read_text};
use byte_ports::{Failed, Sink, Source, push_all};
use dmis_program::{Frames, ProgramFault};
use order_parts::{FilesFault, Role};
use program_lowering::{Answer, Choices, Lowered, SourceNames, lower};
use std::alloc::Global;
use tool_rack::Setup;

/// The flat program of the text that a source gives under these frames, and what was decided.
fn read_flat<R: Source>(
    alloc: Global,
    names: SourceNames<'_>,
    choices: Choices,
    answers: &[Answer],
    frames: &Frames,
    source: &mut R,
) -> Result<Lowered, FilesFault>
    ensures ok { IfOk result (λ flat. ReadsFlat
        (names_of names.entry.program.now names.entry.setup.now) choices answers.now frames.now
        (came R.left R.has_failed source.old source.new) (flat.text.items, flat.notes.items)) }
    ensures err { IfErr result (WhyNoFlat choices answers.now frames.now
        (came R.left R.has_failed source.old source.new)) }
{
    let text = read_text(alloc, source, Role::Program)?;
    match lower(alloc, names, choices, answers, frames, text.as_slice()) {
        Ok(flat) => Ok(flat),
        Err(ProgramFault::Memory) => Err(FilesFault::Memory),
        Err(refused) => Err(FilesFault::Program(refused)),
    }
}

/// Likewise under the frames of a setup, and under no frames without one.
fn flat_under<R: Source>(
    alloc: Global,
    names: SourceNames<'_>,
    choices: Choices,
    answers: &[Answer],
    setup: &Option<Setup>,
    source: &mut R,
) -> Result<Lowered, FilesFault>
    ensures ok { IfOk result (λ flat. ReadsFlat
        (names_of names.entry.program.now names.entry.setup.now) choices answers.now
        (frames_under setup.now)
        (came R.left R.has_failed source.old source.new) (flat.text.items, flat.notes.items)) }
    ensures err { IfErr result (WhyNoFlat choices answers.now (frames_under setup.now)
        (came R.left R.has_failed source.old source.new)) }
{
    match setup {
        Some(setup) => read_flat(alloc, names, choices, answers, setup.frames(), source),
        None => read_flat(alloc, names, choices, answers, &Frames::new(alloc), source),
    }
}

/// Reads a setup if one is named, then a DMIS program, each to the end of its text, and writes the flat program that it stands for, with a
/// head that names both files, the digest of the program's text, and what was chosen and answered. The answer has this text, and what was decided.
///
/// It writes only once the whole text is there. The setup is read and refused before the program is read at all. Each file is blamed only
/// for its own first refusal, or because it could not be read. A sink that fails is blamed, and has taken a prefix of the text.
pub fn lower_program<S: Source, R: Source, W: Sink>(
    alloc: Global,
    names: SourceNames<'_>,
    choices: Choices,
    answers: &[Answer],
    setup: &mut Option<S>,
    program: &mut R,
    sink: &mut W,
) -> Result<Lowered, FilesFault>
    ensures { Lowers (names_of names.entry.program.now names.entry.setup.now) choices answers.now
        (named S.left S.has_failed setup.old setup.new)
        (came R.left R.has_failed program.old program.new)
        (went W.taken W.has_failed sink.old sink.new) result }
{
    let setup = named_setup(alloc, setup)?;
    let flat = flat_under(alloc, names, choices, answers, &setup, program)?;
    match push_all(sink, flat.text.as_slice()) {
        Ok(()) => Ok(flat),
        Err(Failed) => Err(FilesFault::Write),
    }
}
