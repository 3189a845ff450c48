// A check as a whole, over ports: a program is checked under a setup, if one is named.

ghost use Rattle.std.specs.Prelude.{◌≡◌};
ghost use Rattle.dme_orders.specs.Checked.{in_files};
ghost use Rattle.dme_orders.specs.Input.{named};
ghost use Rattle.dme_orders.specs.Orders.{went};
ghost use Rattle.dme_orders.specs.Reading.{came};
ghost use Rattle.dme_orders.specs.UnderSetup.{Checks, PlansFor};
ghost use Rattle.program_review.specs.Reviews.{frames_under};

use crate::check::{CheckFault, check_plan};
use crate::reading::named_setup;
use byte_ports::{Sink, Source};
use dmis_program::Frames;
use order_parts::{FilesFault, Role};
use std::alloc::Global;
use tool_rack::Setup;

/// What an order over files calls it.
fn in_files(fault: CheckFault) -> FilesFault
    ensures { result ≡ in_files fault }
{
    match fault {
        CheckFault::Program(cause) => FilesFault::Program(cause),
        CheckFault::Read => FilesFault::Unread(Role::Program),
        CheckFault::Write => FilesFault::Write,
        CheckFault::Memory => FilesFault::Memory,
    }
}

fn check_frames<R: Source, W: Sink>(
    alloc: Global,
    frames: &Frames,
    program: &mut R,
    sink: &mut W,
) -> Result<(), FilesFault>
    ensures { PlansFor frames.now (came R.left R.has_failed program.old program.new)
        (went W.taken W.has_failed sink.old sink.new) result }
{
    match check_plan(alloc, frames, program, sink) {
        Ok(()) => Ok(()),
        Err(fault) => Err(in_files(fault)),
    }
}

/// Under the frames of a setup, and under no frames without one.
fn check_under<R: Source, W: Sink>(
    alloc: Global,
    setup: &Option<Setup>,
    program: &mut R,
    sink: &mut W,
) -> Result<(), FilesFault>
    ensures { PlansFor (frames_under setup.now) (came R.left R.has_failed program.old program.new)
        (went W.taken W.has_failed sink.old sink.new) result }
{
    match setup {
        Some(setup) => check_frames(alloc, setup.frames(), program, sink),
        None => check_frames(alloc, &Frames::new(alloc), program, sink),
    }
}

/// Reads a setup if one is named, then a DMIS program, each to the end of its text, and writes the command lines of the program's plan on
/// a new connection, each ended by LF. The program may recall the frames of the setup, and no frames without one.
///
/// It writes only once the whole text is there. The setup is read and refused before the program is read at all. Each file is blamed only
/// for its own first refusal, or because it could not be read. A sink that fails is blamed, and has taken a prefix of the text.
#[tactic(auto, using(crate::proofs::CheckLemmas::unnamed))]
pub fn check_under_setup<S: Source, R: Source, W: Sink>(
    alloc: Global,
    setup: &mut Option<S>,
    program: &mut R,
    sink: &mut W,
) -> Result<(), FilesFault>
    ensures { Checks (named S.left S.has_failed setup.old setup.new)
        (came R.left R.has_failed program.old program.new)
        (went W.taken W.has_failed sink.old sink.new) result }
{
    let setup = named_setup(alloc, setup)?;
    check_under(alloc, &setup, program, sink)
}
