// An audit as a whole, over ports: a client's features are judged by a server's contacts and a program.

ghost use Rattle.std.specs.Prelude.{◌<◌, length, IfOk, IfErr};
ghost use Rattle.tool_rack.specs.Setups.{SetupValue};
ghost use Rattle.dme_orders.specs.Auditing.{LeavesVerdict, Audits};
ghost use Rattle.dme_orders.specs.Input.{ReadsAudit, WhyNoAudit};
ghost use Rattle.dme_orders.specs.Orders.{went};
ghost use Rattle.dme_orders.specs.Reading.{came};

use crate::reading::{contacts_from, features_from, read_program, read_setup};
use crate::simulating::write_text;
use crate::verdicts::write_verdict;
use byte_ports::{Sink, Source};
use contact_ledger::{Feature, FeatureLedger, ServerLedger};
use dmis_program::Program;
use ledger_audit::audit;
use order_parts::FilesFault;
use std::alloc::{AllocError, Global};

/// The exit status of an audit, and its line. Fails only if out of memory.
pub(crate) fn verdict_line(
    alloc: Global,
    program: &Program,
    features: &[Feature],
    ledger: &ServerLedger,
) -> Result<(u8, Vec<u8>), AllocError>
    ensures leaves { IfOk result (λ end. LeavesVerdict program.now features.now ledger.now
        end.0 end.1.items) }
    ensures some { IfOk result (λ end. 0 < length end.1.items) }
{
    let verdict = audit(alloc, program, features, ledger)?;
    let mut text = Vec::new(alloc);
    let status = write_verdict(&mut text, features, &verdict)?;
    Ok((status, text))
}

/// Likewise for features, a ledger and a program that are dropped.
pub(crate) fn audited(
    alloc: Global,
    features: FeatureLedger,
    ledger: ServerLedger,
    program: Program,
) -> Result<(u8, Vec<u8>), AllocError>
    ensures leaves { IfOk result (λ end. LeavesVerdict program features ledger
        end.0 end.1.items) }
    ensures some { IfOk result (λ end. 0 < length end.1.items) }
{
    let end = verdict_line(alloc, &program, features.list(), &ledger);
    drop(program);
    drop(ledger);
    drop(features);
    end
}

/// The files of an audit, as sources.
#[derive(Drop)]
pub struct AuditFiles<S, F, C, R> {
    /// The machine's setup.
    pub setup: S,
    /// The features that the client holds.
    pub features: F,
    /// The contacts that the server made.
    pub contacts: C,
    /// The DMIS program.
    pub program: R,
}

/// Reads a setup, then features, then contacts, then a program under the setup's frames, each to the end of its text and understood before
/// the next is read.
fn audit_input<S: Source, F: Source, C: Source, R: Source>(
    alloc: Global,
    files: &mut AuditFiles<S, F, C, R>,
) -> Result<(FeatureLedger, ServerLedger, Program), FilesFault>
    ensures ok { IfOk result (λ read. (said : SetupValue)
        × ReadsAudit (came S.left S.has_failed files.old.setup files.new.setup)
        (came F.left F.has_failed files.old.features files.new.features)
        (came C.left C.has_failed files.old.contacts files.new.contacts)
        (came R.left R.has_failed files.old.program files.new.program)
        (record { setup = said; features = read.0; ledger = read.1; program = read.2 })) }
    ensures err { IfErr result (WhyNoAudit (came S.left S.has_failed files.old.setup files.new.setup)
        (came F.left F.has_failed files.old.features files.new.features)
        (came C.left C.has_failed files.old.contacts files.new.contacts)
        (came R.left R.has_failed files.old.program files.new.program)) }
{
    let setup = read_setup(alloc, &mut files.setup)?;
    let features = features_from(alloc, &mut files.features)?;
    let ledger = contacts_from(alloc, &mut files.contacts)?;
    let program = read_program(alloc, setup.frames(), &mut files.program)?;
    Ok((features, ledger, program))
}

/// Reads a setup, then features, then contacts, then a program under the setup's frames, each to the end of its text and understood before
/// the next is read; audits the features by the contacts; and writes the line of the verdict. It answers the exit status: 0 where every
/// feature has its run, else 3.
///
/// It writes only once the whole line is there. A file is blamed only for its own first refusal, or because it could not be read.
pub fn audit_files<S: Source, F: Source, C: Source, R: Source, W: Sink>(
    alloc: Global,
    files: &mut AuditFiles<S, F, C, R>,
    sink: &mut W,
) -> Result<u8, FilesFault>
    ensures { Audits (came S.left S.has_failed files.old.setup files.new.setup)
        (came F.left F.has_failed files.old.features files.new.features)
        (came C.left C.has_failed files.old.contacts files.new.contacts)
        (came R.left R.has_failed files.old.program files.new.program)
        (went W.taken W.has_failed sink.old sink.new) result }
{
    let (features, ledger, program) = audit_input(alloc, files)?;
    let (status, text) = audited(alloc, features, ledger, program)?;
    write_text(sink, text.as_slice())?;
    Ok(status)
}
