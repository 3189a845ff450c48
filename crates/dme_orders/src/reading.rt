// The files of an order are read, each to its end, and understood.

ghost use Rattle.std.specs.Prelude.{◌≡◌, Ok, OnOk, IfOk, IfErr, option_map, string_bytes};
ghost use Rattle.dme_orders.specs.Reading.{came, Reads, WhyNoText, ReadsSetup, WhyNoSetup, ReadsSchedule, WhyNoSchedule, ReadsProgram, WhyNoProgram};
ghost use Rattle.dme_orders.specs.Reading.{ReadsFeatures, WhyNoFeatures, ReadsContacts, WhyNoContacts, ReadsRecord, WhyNoRecord};
ghost use Rattle.dme_orders.specs.Reading.{ReadsLimits, WhyNoLimits, ReadsMachine, WhyNoMachine};
ghost use Rattle.dme_orders.specs.Reading.{IsSealed, IsUnsealed, ReadsKey, WhyNoKey, WhyNoSealed};
ghost use Rattle.program_review.specs.Reviews.{frames_under};
ghost use Rattle.record_text.specs.Seals.{digest_of, seal_verdict};
ghost use Rattle.dme_orders.specs.Input.{named, ReadsNamed, WhyNoNamed, ReadsNamedLimits, WhyNoNamedLimits};

use byte_ports::{PullFault, Source, pull_all};
use contact_ledger::{FeatureLedger, ServerLedger, TextFault, read_features};
use deviations::{Limits, LimitsFault};
use dmis_program::{Frames, Program, ProgramFault};
use link_world::{Schedule, ScheduleFault};
use order_parts::{FilesFault, Role};
use record_text::{
    Record, RecordFault, SealVerdict, digest_of, open_line, read_record, seal_verdict,
};
use std::alloc::Global;
use tool_rack::{Machine, MachineFault, Setup, SetupFault};
use witness::read_audited;

pub(crate) fn read_text<S: Source>(
    alloc: Global,
    source: &mut S,
    role: Role,
) -> Result<Vec<u8>, FilesFault>
    ensures ok { IfOk result (λ text. Reads (came S.left S.has_failed source.old source.new)
        (λ told. text.items ≡ told)) }
    ensures unread { IfErr result (WhyNoText (came S.left S.has_failed source.old source.new)
        role) }
{
    match pull_all(alloc, source, 1_000_000) {
        Ok(text) => Ok(text),
        Err(PullFault::Failed | PullFault::TooMany) => Err(FilesFault::Unread(role)),
        Err(PullFault::Memory) => Err(FilesFault::Memory),
    }
}

/// The setup that a source gives.
pub fn read_setup<S: Source>(alloc: Global, source: &mut S) -> Result<Setup, FilesFault>
    ensures ok { IfOk result (ReadsSetup (came S.left S.has_failed source.old source.new)) }
    ensures err { IfErr result (WhyNoSetup (came S.left S.has_failed source.old source.new)) }
{
    let text = read_text(alloc, source, Role::Setup)?;
    let read = Setup::read(alloc, text.as_slice());
    drop(text);
    match read {
        Ok(setup) => Ok(setup),
        Err(SetupFault::Memory) => Err(FilesFault::Memory),
        Err(refused) => Err(FilesFault::Setup(refused)),
    }
}

pub(crate) fn read_schedule<S: Source>(
    alloc: Global,
    source: &mut S,
) -> Result<Schedule, FilesFault>
    ensures ok { IfOk result (ReadsSchedule (came S.left S.has_failed source.old source.new)) }
    ensures err { IfErr result (WhyNoSchedule (came S.left S.has_failed source.old source.new)) }
{
    let text = read_text(alloc, source, Role::Schedule)?;
    let read = Schedule::read(alloc, text.as_slice());
    drop(text);
    match read {
        Ok(schedule) => Ok(schedule),
        Err(ScheduleFault::Memory) => Err(FilesFault::Memory),
        Err(refused) => Err(FilesFault::Schedule(refused)),
    }
}

pub(crate) fn features_from<S: Source>(
    alloc: Global,
    source: &mut S,
) -> Result<FeatureLedger, FilesFault>
    ensures ok { IfOk result (ReadsFeatures (came S.left S.has_failed source.old source.new)) }
    ensures err { IfErr result (WhyNoFeatures (came S.left S.has_failed source.old source.new)) }
{
    let text = read_text(alloc, source, Role::Features)?;
    let read = read_features(alloc, text.as_slice());
    drop(text);
    match read {
        Ok(features) => Ok(features),
        Err(TextFault::Memory) => Err(FilesFault::Memory),
        Err(refused) => Err(FilesFault::Features(refused)),
    }
}

/// The contacts that a source gives: among a server's other acts, or as a server reported them, by the first line of the text.
pub(crate) fn contacts_from<S: Source>(
    alloc: Global,
    source: &mut S,
) -> Result<ServerLedger, FilesFault>
    ensures ok { IfOk result (ReadsContacts (came S.left S.has_failed source.old source.new)) }
    ensures err { IfErr result (WhyNoContacts (came S.left S.has_failed source.old source.new)) }
{
    let text = read_text(alloc, source, Role::Contacts)?;
    let read = read_audited(alloc, text.as_slice());
    drop(text);
    match read {
        Ok(ledger) => Ok(ledger),
        Err(TextFault::Memory) => Err(FilesFault::Memory),
        Err(refused) => Err(FilesFault::Contacts(refused)),
    }
}

/// The record that a source gives, if it is begun.
pub fn record_from<S: Source>(alloc: Global, source: &mut S) -> Result<Option<Record>, FilesFault>
    ensures ok { IfOk result (ReadsRecord (came S.left S.has_failed source.old source.new)) }
    ensures err { IfErr result (WhyNoRecord (came S.left S.has_failed source.old source.new)) }
{
    let text = read_text(alloc, source, Role::Record)?;
    let read = read_record(alloc, text.as_slice());
    drop(text);
    match read {
        Ok(held) => Ok(held),
        Err(RecordFault::Memory) => Err(FilesFault::Memory),
        Err(refused) => Err(FilesFault::Record(refused)),
    }
}

/// The key of a record's seals that a source gives. One without a byte is `EmptyKey`.
pub fn read_key<S: Source>(alloc: Global, source: &mut S) -> Result<Vec<u8>, FilesFault>
    ensures ok { IfOk result (λ key. ReadsKey (came S.left S.has_failed source.old source.new)
        key.items) }
    ensures err { IfErr result (WhyNoKey (came S.left S.has_failed source.old source.new)) }
{
    let key = read_text(alloc, source, Role::Key)?;
    if key.is_empty() {
        return Err(FilesFault::EmptyKey);
    }
    Ok(key)
}

/// Refuses a text of which no seal of a key stands for a line; none is due without a key.
fn check_seals(alloc: Global, key: &Option<Vec<u8>>, text: &[u8]) -> Result<(), FilesFault>
    ensures ok { OnOk result (IsSealed (option_map (λ key. key.items) key.now) text.now) }
    ensures err { IfErr result (IsUnsealed (option_map (λ key. key.items) key.now) text.now) }
{
    let Some(key) = key else {
        return Ok(());
    };
    match open_line(alloc, key.as_slice(), text)? {
        None => Ok(()),
        Some(line) => Err(FilesFault::BadSeal(line)),
    }
}

/// The record that a source gives, if it is begun; with a key its seals stand for each of its lines.
pub fn sealed_from<S: Source>(
    alloc: Global,
    key: &Option<Vec<u8>>,
    source: &mut S,
) -> Result<Option<Record>, FilesFault>
    ensures ok { IfOk result (ReadsRecord (came S.left S.has_failed source.old source.new)) }
    ensures sealed { OnOk result (Reads (came S.left S.has_failed source.old source.new)
        (IsSealed (option_map (λ key. key.items) key.now))) }
    ensures err { IfErr result (WhyNoSealed (came S.left S.has_failed source.old source.new)
        (option_map (λ key. key.items) key.now)) }
{
    let text = read_text(alloc, source, Role::Record)?;
    let read = read_record(alloc, text.as_slice());
    let sealed = check_seals(alloc, key, text.as_slice());
    drop(text);
    match read {
        Ok(held) => {
            sealed?;
            Ok(held)
        }
        Err(RecordFault::Memory) => Err(FilesFault::Memory),
        Err(refused) => Err(FilesFault::Record(refused)),
    }
}

/// The record that a source gives, if it is begun, what its seals say under a key, if one is given, and its SHA-256 as digits.
pub(crate) fn judged_from<S: Source>(
    alloc: Global,
    key: &Option<Vec<u8>>,
    source: &mut S,
) -> Result<(SealVerdict, String, Option<Record>), FilesFault>
    ensures ok { IfOk result (λ read. ReadsRecord (came S.left S.has_failed source.old source.new)
        read.2) }
    ensures judged { IfOk result (λ read. Reads (came S.left S.has_failed source.old source.new)
        (λ text. read.0 ≡ seal_verdict (option_map (λ key. key.items) key.now) text)) }
    ensures digested { IfOk result (λ read. Reads (came S.left S.has_failed source.old source.new)
        (λ text. string_bytes read.1 ≡ digest_of text)) }
    ensures err { IfErr result (WhyNoRecord (came S.left S.has_failed source.old source.new)) }
{
    let text = read_text(alloc, source, Role::Record)?;
    let read = read_record(alloc, text.as_slice());
    let seals = seal_verdict(alloc, key, text.as_slice());
    let digest = digest_of(alloc, text.as_slice());
    drop(text);
    match read {
        Ok(held) => Ok((seals?, digest?, held)),
        Err(RecordFault::Memory) => Err(FilesFault::Memory),
        Err(refused) => Err(FilesFault::Record(refused)),
    }
}

fn limits_from<S: Source>(alloc: Global, source: &mut S) -> Result<Limits, FilesFault>
    ensures ok { IfOk result (ReadsLimits (came S.left S.has_failed source.old source.new)) }
    ensures err { IfErr result (WhyNoLimits (came S.left S.has_failed source.old source.new)) }
{
    let text = read_text(alloc, source, Role::Limits)?;
    let read = Limits::read(alloc, text.as_slice());
    drop(text);
    match read {
        Ok(limits) => Ok(limits),
        Err(LimitsFault::Memory) => Err(FilesFault::Memory),
        Err(refused) => Err(FilesFault::Limits(refused)),
    }
}

/// The machine's file that a source gives.
pub fn read_machine<S: Source>(alloc: Global, source: &mut S) -> Result<Machine, FilesFault>
    ensures ok { IfOk result (ReadsMachine (came S.left S.has_failed source.old source.new)) }
    ensures err { IfErr result (WhyNoMachine (came S.left S.has_failed source.old source.new)) }
{
    let text = read_text(alloc, source, Role::Machine)?;
    let read = Machine::read(alloc, text.as_slice());
    drop(text);
    match read {
        Ok(machine) => Ok(machine),
        Err(MachineFault::Memory) => Err(FilesFault::Memory),
        Err(refused) => Err(FilesFault::Machine(refused)),
    }
}

/// The limits that a source gives, if one is named.
pub fn named_limits<S: Source>(
    alloc: Global,
    source: &mut Option<S>,
) -> Result<Option<Limits>, FilesFault>
    ensures ok { IfOk result (ReadsNamedLimits (named S.left S.has_failed source.old source.new)) }
    ensures err { IfErr result (WhyNoNamedLimits (named S.left S.has_failed source.old
        source.new)) }
{
    match source {
        Some(source) => Ok(Some(limits_from(alloc, source)?)),
        None => Ok(None),
    }
}

pub(crate) fn read_program<S: Source>(
    alloc: Global,
    frames: &Frames,
    source: &mut S,
) -> Result<Program, FilesFault>
    ensures ok { IfOk result (ReadsProgram (came S.left S.has_failed source.old source.new)
        frames.now) }
    ensures err { IfErr result (WhyNoProgram (came S.left S.has_failed source.old source.new)
        frames.now) }
{
    let text = read_text(alloc, source, Role::Program)?;
    let read = Program::read(alloc, text.as_slice(), frames);
    drop(text);
    match read {
        Ok(program) => Ok(program),
        Err(ProgramFault::Memory) => Err(FilesFault::Memory),
        Err(refused) => Err(FilesFault::Program(refused)),
    }
}

/// The setup that a source gives, if one is named.
pub fn named_setup<S: Source>(
    alloc: Global,
    source: &mut Option<S>,
) -> Result<Option<Setup>, FilesFault>
    ensures ok { IfOk result (ReadsNamed (named S.left S.has_failed source.old source.new)) }
    ensures err { IfErr result (WhyNoNamed (named S.left S.has_failed source.old source.new)) }
{
    match source {
        Some(source) => Ok(Some(read_setup(alloc, source)?)),
        None => Ok(None),
    }
}

/// The program that a source gives under the frames of a setup, and under no frames without one.
pub fn program_under<R: Source>(
    alloc: Global,
    setup: &Option<Setup>,
    source: &mut R,
) -> Result<Program, FilesFault>
    ensures ok { IfOk result (ReadsProgram (came R.left R.has_failed source.old source.new)
        (frames_under setup.now)) }
    ensures err { IfErr result (WhyNoProgram (came R.left R.has_failed source.old source.new)
        (frames_under setup.now)) }
{
    match setup {
        Some(setup) => read_program(alloc, setup.frames(), source),
        None => read_program(alloc, &Frames::new(alloc), source),
    }
}
