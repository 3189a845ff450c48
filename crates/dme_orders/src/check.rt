// Checking a program: its plan as command lines, from any reader to any writer.

ghost use Rattle.std.specs.Prelude.{◌≡◌, ◌⊎◌, ◌<◌, ◌≤◌, ◌*◌, length, OnOk, IfOk, IfErr, IfSome, IsErrOf};
ghost use Rattle.dme_orders.specs.Checked.{in_files};
ghost use Rattle.dme_orders.specs.Orders.{went};
ghost use Rattle.dme_orders.specs.Reading.{Reads, ReadsProgram, WhyNoProgram, WhyNoText, came};
ghost use Rattle.dme_orders.specs.UnderSetup.{Plans};
ghost use Rattle.order_parts.specs.declared.faults.Role.TheVariants as role;

use byte_ports::{Failed, PullFault, Sink, Source, pull_all, push_all};
use dmis_program::{Frames, Program, ProgramFault};
use order_parts::plan_text;
use std::alloc::{AllocError, Global};

/// Why `check_plan` has not printed a plan.
#[derive(Clone, Copy, Debug, PartialEq, Eq)]
pub enum CheckFault {
    /// The program is refused; never because memory ran out.
    Program(ProgramFault),
    /// The source has failed, or a million pulls have not come to the end of the input.
    Read,
    /// The sink has failed; it may have taken a prefix of the text.
    Write,
    /// Out of memory.
    Memory,
}

impl From<PullFault> for CheckFault {
    ghost use Rattle.std.specs.Prelude.{◌≡◌};
    ghost use Rattle.dme_orders.specs.Checked.{told_as};

    ghost from_gives = { λ fault e. e ≡ told_as fault };

    fn from(fault: PullFault) -> CheckFault {
        match fault {
            PullFault::Failed | PullFault::TooMany => CheckFault::Read,
            PullFault::Memory => CheckFault::Memory,
        }
    }
}

impl From<AllocError> for CheckFault {
    ghost use Rattle.std.specs.Prelude.{◌≡◌};
    ghost use Rattle.dme_orders.specs.declared.check.CheckFault.TheVariants as fault;

    ghost from_gives = { λ _ e. e ≡ fault.Memory };

    fn from(_error: AllocError) -> CheckFault {
        CheckFault::Memory
    }
}

/// Pulls to the end of the input.
fn read_input<R: Source>(alloc: Global, source: &mut R) -> Result<Vec<u8>, CheckFault>
    ensures ok { IfOk result (λ input. Reads (came R.left R.has_failed source.old source.new)
        (λ text. input.items ≡ text)) }
    ensures err { IfErr result (λ fault. WhyNoText (came R.left R.has_failed source.old source.new)
        role.Program (in_files fault)) }
    ensures short { OnOk result (IfSome (R.left source.old)
        (λ bytes. length bytes ≤ 999999 * 65536)) }
{
    Ok(pull_all(alloc, source, 1_000_000)?)
}

fn read_program<R: Source>(
    alloc: Global,
    frames: &Frames,
    source: &mut R,
) -> Result<Program, CheckFault>
    ensures ok { IfOk result (ReadsProgram (came R.left R.has_failed source.old source.new)
        frames.now) }
    ensures err { IfErr result (λ fault. WhyNoProgram
        (came R.left R.has_failed source.old source.new) frames.now (in_files fault)) }
    ensures long { IfSome (R.left source.old) (λ input. 999999 * 65536 < length input
        → IsErrOf result CheckFault.Read ⊎ IsErrOf result CheckFault.Memory) }
{
    let input = read_input(alloc, source)?;
    match Program::read(alloc, input.as_slice(), frames) {
        Ok(program) => Ok(program),
        Err(ProgramFault::Memory) => Err(CheckFault::Memory),
        Err(refused) => Err(CheckFault::Program(refused)),
    }
}

/// Reads a DMIS program to the end of its input, in at most a million pulls of at most 65,536 bytes, and writes the command lines
/// of its plan on a new connection, each ended by LF, the i-th with tag `((i - 1) mod 9,999) + 1`.
///
/// It writes only once the whole text is there: nothing is written if the program is refused, a read failed or memory ran out. A port
/// that fails is reported, and no port is blamed otherwise, except a source that has not ended after a million pulls.
pub fn check_plan<R: Source, W: Sink>(
    alloc: Global,
    frames: &Frames,
    source: &mut R,
    sink: &mut W,
) -> Result<(), CheckFault>
    ensures plans { Plans frames.now (came R.left R.has_failed source.old source.new)
        (went W.taken W.has_failed sink.old sink.new) result }
    ensures long { IfSome (R.left source.old) (λ input. 999999 * 65536 < length input
        → IsErrOf result CheckFault.Read ⊎ IsErrOf result CheckFault.Memory) }
{
    let program = read_program(alloc, frames, source)?;
    let text = plan_text(alloc, &program)?;
    match push_all(sink, text.as_slice()) {
        Ok(()) => Ok(()),
        Err(Failed) => Err(CheckFault::Write),
    }
}
