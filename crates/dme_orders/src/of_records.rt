// The record of a run is audited and exported, over ports.

ghost use Rattle.std.specs.Prelude.{◌≡◌, ◌<◌, [], length, Option, OnOk, IfOk, IfErr, true, option_map, string_bytes};
ghost use Rattle.client_core.specs.Clients.{are_ours};
ghost use Rattle.contact_ledger.specs.ContactTexts.{contacts_text};
ghost use Rattle.contact_ledger.specs.Ledgers.{HaveOrigins};
ghost use Rattle.tool_rack.specs.Setups.{SetupValue};
ghost use Rattle.dme_orders.specs.Auditing.{LeavesVerdict};
ghost use Rattle.order_parts.specs.Kept.{IsFeaturesText};
ghost use Rattle.dme_orders.specs.OfRecords.{RefusesRecord, IsRecordText, AuditsRecord, ExportsRecord};
ghost use Rattle.dme_orders.specs.Exporting.{Compares, RefusesFeatures};
ghost use Rattle.dme_orders.specs.Input.{named, ReadsHeld, WhyNoneHeld, WhyNoneSealed, AreUntouched, ReadsJudged, ReadsLimited, WhyNoLimited};
ghost use Rattle.deviations.specs.Styles.{style_of};
ghost use Rattle.dme_orders.specs.Missing.{IsMissing};
ghost use Rattle.dme_orders.specs.Named.{last_dated, part_text, time_in};
ghost use Rattle.dme_orders.specs.Orders.{went};
ghost use Rattle.dme_orders.specs.Reading.{came, Reads, IsSealed};
ghost use Rattle.dme_orders.specs.Recorded.{IsOfProgram, features_in, told_in};

use crate::auditing::audited;
use crate::digests::part_line;
use crate::exporting::{Exported, compared_lines, table_text};
use crate::missing::{Missing, missing_of};
use crate::reading::{
    judged_from, named_limits, named_setup, program_under, record_from, sealed_from,
};
use crate::reporting::shown_name;
use crate::run_errors::errors_of;
use crate::simulating::write_text;
use byte_ports::{Sink, Source};
use contact_ledger::{Feature, FeatureLedger, ServerLedger, write_contacts, write_features};
use deviations::{Form, Limits, RowsOf, TableOptions, TableStyle, rows_of, style_of};
use dmis_program::Program;
use drawings::Title;
use order_parts::FilesFault;
use record_text::{Note, Record, Remark, SealVerdict, other_feature};
use session_telling::visible;
use std::alloc::{AllocError, Global};

/// The files of an order over a record, as sources.
#[derive(Drop)]
pub struct RecordFiles<S, J, R> {
    /// The machine's setup, if one is named.
    pub setup: Option<S>,
    /// The record of a run.
    pub record: J,
    /// The DMIS program.
    pub program: R,
}

/// What is printed of a record.
#[derive(Clone, Copy, Debug, PartialEq, Eq)]
pub enum RecordText {
    /// The table of its features, or their drawing.
    Table(Form),
    /// The text of a features file.
    Features,
    /// The text of a contacts file.
    Contacts,
}

/// Reads a setup if one is named, then a record, then a program under the setup's frames, each to the end of its text and understood before
/// the next is read.
fn record_input<S: Source, J: Source, R: Source>(
    alloc: Global,
    files: &mut RecordFiles<S, J, R>,
) -> Result<(Option<Record>, Program), FilesFault>
    ensures ok { IfOk result (λ read. (said : Option SetupValue)
        × ReadsHeld (named S.left S.has_failed files.old.setup files.new.setup)
        (came J.left J.has_failed files.old.record files.new.record)
        (came R.left R.has_failed files.old.program files.new.program)
        (record { setup = said; held = read.0; program = read.1 })) }
    ensures err { IfErr result (WhyNoneHeld (named S.left S.has_failed files.old.setup files.new.setup)
        (came J.left J.has_failed files.old.record files.new.record)
        (came R.left R.has_failed files.old.program files.new.program)) }
{
    let setup = named_setup(alloc, &mut files.setup)?;
    let held = record_from(alloc, &mut files.record)?;
    let program = program_under(alloc, &setup, &mut files.program)?;
    Ok((held, program))
}

/// Likewise; with a key its seals are to stand for each line of the record.
fn sealed_input<S: Source, J: Source, R: Source>(
    alloc: Global,
    key: &Option<Vec<u8>>,
    files: &mut RecordFiles<S, J, R>,
) -> Result<(Option<Record>, Program), FilesFault>
    ensures ok { IfOk result (λ read. (said : Option SetupValue)
        × ReadsHeld (named S.left S.has_failed files.old.setup files.new.setup)
        (came J.left J.has_failed files.old.record files.new.record)
        (came R.left R.has_failed files.old.program files.new.program)
        (record { setup = said; held = read.0; program = read.1 })) }
    ensures sealed { OnOk result (Reads (came J.left J.has_failed files.old.record files.new.record)
        (IsSealed (option_map (λ key. key.items) key.now))) }
    ensures err { IfErr result (WhyNoneSealed (named S.left S.has_failed files.old.setup files.new.setup)
        (came J.left J.has_failed files.old.record files.new.record)
        (came R.left R.has_failed files.old.program files.new.program)
        (option_map (λ key. key.items) key.now)) }
{
    let setup = named_setup(alloc, &mut files.setup)?;
    let held = sealed_from(alloc, key, &mut files.record)?;
    let program = program_under(alloc, &setup, &mut files.program)?;
    Ok((held, program))
}

/// Likewise without a key, and before them limits if they are named.
fn limited_input<L: Source, S: Source, J: Source, R: Source>(
    alloc: Global,
    limits: &mut Option<L>,
    files: &mut RecordFiles<S, J, R>,
) -> Result<(Option<Limits>, Option<Record>, Program), FilesFault>
    ensures ok { IfOk result (λ read. (said : Option SetupValue)
        × ReadsLimited (named L.left L.has_failed limits.old limits.new)
        (ReadsHeld (named S.left S.has_failed files.old.setup files.new.setup)
        (came J.left J.has_failed files.old.record files.new.record)
        (came R.left R.has_failed files.old.program files.new.program))
        (record {
          limits = read.0;
          input = record {
            setup = said;
            held = read.1;
            program = read.2;
          };
        })) }
    ensures err { IfErr result (WhyNoLimited (named L.left L.has_failed limits.old limits.new)
        (AreUntouched (named S.left S.has_failed files.old.setup files.new.setup)
        (came J.left J.has_failed files.old.record files.new.record)
        (came R.left R.has_failed files.old.program files.new.program))
        (WhyNoneHeld (named S.left S.has_failed files.old.setup files.new.setup)
        (came J.left J.has_failed files.old.record files.new.record)
        (came R.left R.has_failed files.old.program files.new.program))) }
{
    let limits = named_limits(alloc, limits)?;
    let (held, program) = record_input(alloc, files)?;
    Ok((limits, held, program))
}

/// Likewise, and what the seals of the record say under a key, if one is given.
fn judged_record<S: Source, J: Source, R: Source>(
    alloc: Global,
    key: &Option<Vec<u8>>,
    files: &mut RecordFiles<S, J, R>,
) -> Result<(SealVerdict, String, Option<Record>, Program), FilesFault>
    ensures ok { IfOk result (λ read. (said : Option SetupValue)
        × ReadsJudged (named S.left S.has_failed files.old.setup files.new.setup)
        (came J.left J.has_failed files.old.record files.new.record)
        (came R.left R.has_failed files.old.program files.new.program)
        (option_map (λ key. key.items) key.now)
        (record {
          seals = read.0;
          digest = string_bytes read.1;
          files = record { setup = said; held = read.2; program = read.3 };
        })) }
    ensures err { IfErr result (WhyNoneHeld (named S.left S.has_failed files.old.setup files.new.setup)
        (came J.left J.has_failed files.old.record files.new.record)
        (came R.left R.has_failed files.old.program files.new.program)) }
{
    let setup = named_setup(alloc, &mut files.setup)?;
    let (seals, digest, held) = judged_from(alloc, key, &mut files.record)?;
    let program = program_under(alloc, &setup, &mut files.program)?;
    Ok((seals, digest, held, program))
}

/// Likewise, and before them limits if they are named.
pub(crate) fn judged_input<L: Source, S: Source, J: Source, R: Source>(
    alloc: Global,
    limits: &mut Option<L>,
    key: &Option<Vec<u8>>,
    files: &mut RecordFiles<S, J, R>,
) -> Result<(Option<Limits>, SealVerdict, String, Option<Record>, Program), FilesFault>
    ensures ok { IfOk result (λ read. (said : Option SetupValue)
        × ReadsLimited (named L.left L.has_failed limits.old limits.new)
        (ReadsJudged (named S.left S.has_failed files.old.setup files.new.setup)
        (came J.left J.has_failed files.old.record files.new.record)
        (came R.left R.has_failed files.old.program files.new.program)
        (option_map (λ key. key.items) key.now))
        (record {
          limits = read.0;
          input = record {
            seals = read.1;
            digest = string_bytes read.2;
            files = record { setup = said; held = read.3; program = read.4 };
          };
        })) }
    ensures err { IfErr result (WhyNoLimited (named L.left L.has_failed limits.old limits.new)
        (AreUntouched (named S.left S.has_failed files.old.setup files.new.setup)
        (came J.left J.has_failed files.old.record files.new.record)
        (came R.left R.has_failed files.old.program files.new.program))
        (WhyNoneHeld (named S.left S.has_failed files.old.setup files.new.setup)
        (came J.left J.has_failed files.old.record files.new.record)
        (came R.left R.has_failed files.old.program files.new.program))) }
{
    let limits = named_limits(alloc, limits)?;
    let (seals, digest, held, program) = judged_record(alloc, key, files)?;
    Ok((limits, seals, digest, held, program))
}

/// Refuses a record that is not of this program. One that is not begun is of any.
pub fn of_program(alloc: Global, held: &Option<Record>, program: &Program) -> Result<(), FilesFault>
    ensures same { OnOk result (IsOfProgram held.now program.now) }
    ensures other { IfErr result (RefusesRecord held.now program.now) }
{
    let Some(held) = held else {
        return Ok(());
    };
    match other_feature(held, program) {
        None => Ok(()),
        Some(label) => Err(FilesFault::OtherProgram(label.copy(alloc)?)),
    }
}

/// The features and the acts of a record; one that is not begun has none.
pub(crate) fn parts_of(alloc: Global, held: Option<Record>) -> (FeatureLedger, ServerLedger)
    ensures features { result.0 ≡ features_in held }
    ensures told { result.1 ≡ told_in held }
{
    match held {
        Some(held) => held.into_parts(),
        None => (FeatureLedger::new(alloc), ServerLedger::new(alloc)),
    }
}

/// The exit status of an audit, which features of its program are missing, and the audit's line, for a part that is dropped. Fails only if
/// out of memory.
fn audited_part(
    alloc: Global,
    features: FeatureLedger,
    ledger: ServerLedger,
    program: Program,
) -> Result<(u8, Missing, Vec<u8>), AllocError>
    ensures leaves { IfOk result (λ end. LeavesVerdict program features ledger
        end.0 end.2.items) }
    ensures lacks { IfOk result (λ end. IsMissing program.features features end.1) }
    ensures some { IfOk result (λ end. 0 < length end.2.items) }
{
    let missing = missing_of(alloc, &program, features.list())?;
    let (status, text) = audited(alloc, features, ledger, program)?;
    Ok((status, missing, text))
}

/// What an audit of a record says besides its verdict.
#[derive(Debug, Drop)]
pub struct RecordNotes {
    /// The line of the part that the record names, as `dme: part 0042/7`; empty if it names none.
    pub part: String,
    /// Which features of the program are missing.
    pub missing: Missing,
    /// A line for each error that the server reported during the run of a feature, as
    /// `dme: BORE: during its run the server reported 00009 Error(..)`; empty if there is none.
    pub errors: String,
}

/// Reads a setup if one is named, then a record, then a program under the setup's frames, each to the end of its text and understood before
/// the next is read; audits the record's features by the acts that it says a server reported; and writes the line of the verdict. The answer
/// is the exit status, 0 if every feature of the record has its run, else 3; the part; which features of the program are missing; and the
/// errors that the server reported during the run of a feature. A record of another program is `OtherProgram`; its part is not compared.
/// With a key, a record of which no seal stands for a line is `BadSeal`.
///
/// It writes only once the whole line is there. A file is blamed only for its own first refusal, or because it could not be read.
pub fn audit_record<S: Source, J: Source, R: Source, W: Sink>(
    alloc: Global,
    key: &Option<Vec<u8>>,
    files: &mut RecordFiles<S, J, R>,
    sink: &mut W,
) -> Result<(u8, RecordNotes), FilesFault>
    ensures { AuditsRecord (named S.left S.has_failed files.old.setup files.new.setup)
        (came J.left J.has_failed files.old.record files.new.record)
        (came R.left R.has_failed files.old.program files.new.program)
        (went W.taken W.has_failed sink.old sink.new) (option_map (λ key. key.items) key.now)
        result }
{
    let (held, program) = sealed_input(alloc, key, files)?;
    of_program(alloc, &held, &program)?;
    let part = part_line(alloc, &held)?;
    let errors = errors_of(alloc, &held)?;
    let (features, ledger) = parts_of(alloc, held);
    let (status, missing, text) = audited_part(alloc, features, ledger, program)?;
    write_text(sink, text.as_slice())?;
    let notes = RecordNotes {
        part,
        missing,
        errors,
    };
    Ok((status, notes))
}

/// The time of the last of these remarks that says when features were complete.
fn last_dated(remarks: &[Remark]) -> &[u8]
    ensures { result.now ≡ last_dated remarks.now [] }
{
    let mut time: &[u8] = &[];
    let mut left = remarks;
    while let [remark, others @ ..] = left {
        if let Note::Dated = remark.note {
            time = remark.text.as_bytes();
        }
        left = others;
    }
    time
}

/// When the last feature of a record was complete; nothing if it does not note that. Fails only if out of memory.
pub(crate) fn time_of(alloc: Global, held: &Option<Record>) -> Result<Vec<u8>, AllocError>
    ensures { IfOk result (λ time. time.items ≡ time_in held.now) }
{
    match held {
        Some(held) => Vec::from_slice(alloc, last_dated(held.notes())),
        None => Ok(Vec::new(alloc)),
    }
}

/// The part that a record names, as it is shown; nothing if it names none. Fails only if out of memory.
fn part_text(alloc: Global, held: &Option<Record>) -> Result<String, AllocError>
    ensures { IfOk result (λ text. string_bytes text ≡ part_text held.now) }
{
    let Some(held) = held else {
        return Ok(String::new(alloc));
    };
    match held.part() {
        Some(part) => visible(alloc, part),
        None => Ok(String::new(alloc)),
    }
}

/// The text of a features file. The features are refused only if they are not the first ones of the program.
#[tactic(auto, using(crate::proofs::RecordLemmas::ours_can_be_written, crate::proofs::RecordLemmas::features_have_text))]
fn features_text(
    alloc: Global,
    program: &Program,
    features: &[Feature],
) -> Result<Vec<u8>, FilesFault>
    requires { HaveOrigins features.now }
    ensures ours { OnOk result (are_ours program.now.features features.now ≡ true) }
    ensures text { IfOk result (λ text. IsFeaturesText features.now text.items) }
    ensures some { IfOk result (λ text. 0 < length text.items) }
    ensures refused { IfErr result (RefusesFeatures program.now features.now) }
{
    drop(rows_of(alloc, program, features)?);
    let _wanted = program.features();
    let mut text = Vec::new(alloc);
    write_features(&mut text, features)?;
    Ok(text)
}

#[tactic(auto, using(crate::proofs::RecordLemmas::contacts_have_text))]
fn contacts_text(alloc: Global, ledger: &ServerLedger) -> Result<Vec<u8>, AllocError>
    ensures text { IfOk result (λ text. text.items ≡ contacts_text ledger.now) }
    ensures some { IfOk result (λ text. 0 < length text.items) }
{
    let mut text = Vec::new(alloc);
    write_contacts(&mut text, ledger)?;
    Ok(text)
}

/// What is printed of features and acts of a record. Features are refused only if they are not the first ones of the program.
fn text_in(
    alloc: Global,
    form: RecordText,
    style: &TableStyle<'_>,
    title: &Title<'_>,
    limits: &Option<Limits>,
    program: &Program,
    features: &[Feature],
    ledger: &ServerLedger,
) -> Result<Vec<u8>, FilesFault>
    requires { HaveOrigins features.now }
    ensures leaves { IfOk result (λ text. IsRecordText form style.now title.now limits.now program.now
        features.now ledger.now text.items) }
    ensures some { IfOk result (λ text. 0 < length text.items) }
    ensures refused { IfErr result (RefusesFeatures program.now features.now) }
{
    match form {
        RecordText::Table(form) => table_text(alloc, form, style, title, limits, program, features),
        RecordText::Features => features_text(alloc, program, features),
        RecordText::Contacts => Ok(contacts_text(alloc, ledger)?),
    }
}

/// Likewise, and what is said besides it.
fn text_of_part(
    alloc: Global,
    form: RecordText,
    style: &TableStyle<'_>,
    title: &Title<'_>,
    limits: &Option<Limits>,
    program: &Program,
    features: &[Feature],
    ledger: &ServerLedger,
) -> Result<(Exported, Vec<u8>), FilesFault>
    requires { HaveOrigins features.now }
    ensures leaves { IfOk result (λ end. IsRecordText form style.now title.now limits.now program.now
        features.now ledger.now end.1.items) }
    ensures lacks { IfOk result (λ end. IsMissing program.now.features features.now
        end.0.missing) }
    ensures compares { IfOk result (λ end. Compares limits.now program.now features.now
        (string_bytes end.0.compared)) }
    ensures some { IfOk result (λ end. 0 < length end.1.items) }
    ensures refused { IfErr result (RefusesFeatures program.now features.now) }
{
    let missing = missing_of(alloc, program, features)?;
    let compared = compared_lines(alloc, limits, program, features)?;
    let text = text_in(alloc, form, style, title, limits, program, features, ledger)?;
    Ok((Exported { missing, compared }, text))
}

/// What a record's text is called by: its part, and when its last feature was complete.
#[derive(Drop)]
struct Names {
    part: String,
    time: Vec<u8>,
}

fn names_of(alloc: Global, held: &Option<Record>) -> Result<Names, AllocError>
    ensures part { IfOk result (λ names. string_bytes names.part ≡ part_text held.now) }
    ensures time { IfOk result (λ names. names.time.items ≡ time_in held.now) }
{
    let part = part_text(alloc, held)?;
    let time = time_of(alloc, held)?;
    Ok(Names { part, time })
}

/// What is printed of features and acts of a record that is called so, under a program of this name, and what is said besides it.
fn text_under(
    alloc: Global,
    form: RecordText,
    table: TableOptions,
    name: &str,
    names: &Names,
    limits: &Option<Limits>,
    program: &Program,
    features: &[Feature],
    ledger: &ServerLedger,
) -> Result<(Exported, Vec<u8>), FilesFault>
    requires { HaveOrigins features.now }
    ensures leaves { IfOk result (λ end. IsRecordText form
        (style_of table (record { part = string_bytes names.now.part; program = name.now }))
        (record { part = string_bytes names.now.part; program = name.now; time = names.now.time.items })
        limits.now program.now features.now ledger.now end.1.items) }
    ensures lacks { IfOk result (λ end. IsMissing program.now.features features.now
        end.0.missing) }
    ensures compares { IfOk result (λ end. Compares limits.now program.now features.now
        (string_bytes end.0.compared)) }
    ensures some { IfOk result (λ end. 0 < length end.1.items) }
    ensures refused { IfErr result (RefusesFeatures program.now features.now) }
{
    let of = RowsOf {
        part: names.part.as_str(),
        program: name,
    };
    let style = style_of(table, &of);
    let title = Title {
        part: names.part.as_bytes(),
        program: name.as_bytes(),
        time: names.time.as_slice(),
    };
    text_of_part(
        alloc, form, &style, &title, limits, program, features, ledger,
    )
}

/// Reads limits if they are named, then a setup if one is named, then a record, then a program under the setup's frames, each to the end of
/// its text and understood before the next is read; and writes what the record holds in a form: the table of its features as `export_files` writes it, or the text of a
/// features file or of a contacts file. The answer is which features of the program are missing, and with limits what they say of the
/// points. A record of another program is
/// `OtherProgram`; its part is not compared. The program's name is that on the command line: `-` is standard input.
///
/// It writes only once the whole text is there. A file is blamed only for its own first refusal, or because it could not be read.
pub fn export_record<L: Source, S: Source, J: Source, R: Source, W: Sink>(
    alloc: Global,
    name: &str,
    form: RecordText,
    table: TableOptions,
    limits: &mut Option<L>,
    files: &mut RecordFiles<S, J, R>,
    sink: &mut W,
) -> Result<Exported, FilesFault>
    ensures { ExportsRecord (named S.left S.has_failed files.old.setup files.new.setup)
        (came J.left J.has_failed files.old.record files.new.record)
        (came R.left R.has_failed files.old.program files.new.program)
        (went W.taken W.has_failed sink.old sink.new)
        (named L.left L.has_failed limits.old limits.new) form table name.now result }
{
    let (ranges, held, program) = limited_input(alloc, limits, files)?;
    of_program(alloc, &held, &program)?;
    let names = names_of(alloc, &held)?;
    let (features, ledger) = parts_of(alloc, held);
    let (exported, text) = text_under(
        alloc,
        form,
        table,
        shown_name(name),
        &names,
        &ranges,
        &program,
        features.list(),
        &ledger,
    )?;
    write_text(sink, text.as_slice())?;
    Ok(exported)
}
