// The page of a record's part, over ports.

ghost use Rattle.std.specs.Prelude.{◌≡◌, ◌<◌, length, option_map, IfOk, IfErr, string_bytes};
ghost use Rattle.drawings.specs.Pages.{IsPage};
ghost use Rattle.std.specs.List.{flat_map};
ghost use Rattle.dme_orders.specs.Exporting.{RefusesFeatures};
ghost use Rattle.dme_orders.specs.Input.{named};
ghost use Rattle.dme_orders.specs.Missing.{IsMissing};
ghost use Rattle.dme_orders.specs.Named.{shown_name, time_in};
ghost use Rattle.dme_orders.specs.Orders.{went};
ghost use Rattle.dme_orders.specs.Reading.{came};
ghost use Rattle.dme_orders.specs.Reporting.{facts_of, part_in, IsPageOf, Judges, ReportsRecord};
ghost use Rattle.dme_orders.specs.RunErrors.{errors_in, error_line};
ghost use Rattle.dme_orders.specs.RunNotes.{notes_in, note_line};

use crate::attempts::attempts_of;
use crate::missing::{Missing, missing_of};
use crate::of_records::{RecordFiles, judged_input, of_program, parts_of, time_of};
use crate::run_errors::errors_of;
use crate::run_notes::notes_of;
use crate::simulating::write_text;
use crate::verdicts::write_verdict;
use byte_ports::{Sink, Source};
use contact_ledger::{Feature, ServerLedger};
use deviations::{Limits, Row, rows_of};
use dmis_program::Program;
use drawings::{Facts, report_text};
use ledger_audit::audit;
use order_parts::FilesFault;
use record_text::{Record, SealVerdict};
use std::alloc::{AllocError, Global};

const NOT_NAMED: &[u8] = b"(not named)";

/// The part that a record names, or that it names none.
fn part_of(held: &Option<Record>) -> &[u8]
    ensures { result.now ≡ part_in held.now }
{
    match held {
        Some(held) => held.part().unwrap_or(NOT_NAMED),
        None => NOT_NAMED,
    }
}

/// How a page or a table names a program.
pub(crate) fn shown_name(name: &str) -> &str
    ensures { result.now ≡ shown_name name.now }
{
    if name == "-" { "standard input" } else { name }
}

/// What a page has of a record besides its points: its part, and the lines of the errors that its server reported and of other notes.
#[derive(Drop)]
struct Texts {
    part: Vec<u8>,
    time: Vec<u8>,
    errors: String,
    notes: String,
}

fn texts_of(alloc: Global, held: &Option<Record>) -> Result<Texts, AllocError>
    ensures part { IfOk result (λ texts. texts.part.items ≡ part_in held.now) }
    ensures time { IfOk result (λ texts. texts.time.items ≡ time_in held.now) }
    ensures errors { IfOk result (λ texts. string_bytes texts.errors
        ≡ flat_map error_line (errors_in held.now)) }
    ensures notes { IfOk result (λ texts. string_bytes texts.notes
        ≡ flat_map note_line (notes_in held.now)) }
{
    let part = Vec::from_slice(alloc, part_of(held))?;
    let time = time_of(alloc, held)?;
    let errors = errors_of(alloc, held)?;
    let notes = notes_of(alloc, held)?;
    Ok(Texts {
        part,
        time,
        errors,
        notes,
    })
}

/// The exit status of an audit, its line, and the lines of discarded attempts. Fails only if out of memory.
fn judgement(
    alloc: Global,
    program: &Program,
    features: &[Feature],
    ledger: &ServerLedger,
) -> Result<(u8, Vec<u8>, String), AllocError>
    ensures { IfOk result (λ end. Judges program.now features.now ledger.now end.0 end.1.items
        (string_bytes end.2)) }
{
    let verdict = audit(alloc, program, features, ledger)?;
    let mut line = Vec::new(alloc);
    let status = write_verdict(&mut line, features, &verdict)?;
    let total = ledger.contacts();
    let attempts = attempts_of(alloc, total, program.features(), features, &verdict)?;
    Ok((status, line, attempts))
}

/// The page of rows, with the status and the line of their audit.
fn page_text(
    alloc: Global,
    name: &str,
    texts: &Texts,
    notes: &str,
    digest: &str,
    seals: SealVerdict,
    limits: &Option<Limits>,
    program: &Program,
    features: &[Feature],
    rows: &[Row<'_>],
    status: u8,
    verdict: &[u8],
) -> Result<Vec<u8>, AllocError>
    ensures page { IfOk result (λ text. IsPage (facts_of texts.now.part.items name.now texts.now.time.items
        (string_bytes texts.now.errors) notes.now digest.now seals status verdict.now)
        program.now features.now limits.now
        rows.now text.items) }
    ensures some { IfOk result (λ text. 0 < length text.items) }
{
    let facts = Facts {
        part: texts.part.as_slice(),
        program: name.as_bytes(),
        time: texts.time.as_slice(),
        seals,
        sound: status == 0,
        verdict,
        errors: texts.errors.as_bytes(),
        notes: notes.as_bytes(),
        digest: digest.as_bytes(),
    };
    report_text(alloc, &facts, program, features, limits, rows)
}

/// The page of features and acts of a record. Features are refused only if they are not the first ones of the program.
fn page_of(
    alloc: Global,
    name: &str,
    texts: &Texts,
    digest: &str,
    seals: SealVerdict,
    limits: &Option<Limits>,
    program: &Program,
    features: &[Feature],
    ledger: &ServerLedger,
) -> Result<(Missing, Vec<u8>), FilesFault>
    ensures page { IfOk result (λ end. IsPageOf texts.now.part.items name.now texts.now.time.items
        (string_bytes texts.now.errors) (string_bytes texts.now.notes) digest.now seals limits.now program.now
        features.now ledger.now end.1.items) }
    ensures lacks { IfOk result (λ end. IsMissing program.now.features features.now end.0) }
    ensures some { IfOk result (λ end. 0 < length end.1.items) }
    ensures refused { IfErr result (RefusesFeatures program.now features.now) }
{
    let rows = rows_of(alloc, program, features)?;
    let missing = missing_of(alloc, program, features)?;
    let (status, verdict, attempts) = judgement(alloc, program, features, ledger)?;
    let said = texts.notes.as_str();
    let notes = format!(in alloc; "{said}{attempts}")?;
    let text = page_text(
        alloc,
        name,
        texts,
        notes.as_str(),
        digest,
        seals,
        limits,
        program,
        features,
        rows.as_slice(),
        status,
        verdict.as_slice(),
    )?;
    Ok((missing, text))
}

/// Reads limits if they are named, then a setup if one is named, then a record, then a program under the setup's frames, each to the end of
/// its text and understood before the next is read; and writes the page of the record's part, which says what its seals are under a key, if
/// one is given. The answer is which features of the program are missing. A record of another program is `OtherProgram`. The program's name is that on the command line: `-` is standard input.
///
/// It writes only once the whole page is there. A file is blamed only for its own first refusal, or because it could not be read.
pub fn report_record<L: Source, S: Source, J: Source, R: Source, W: Sink>(
    alloc: Global,
    name: &str,
    key: &Option<Vec<u8>>,
    limits: &mut Option<L>,
    files: &mut RecordFiles<S, J, R>,
    sink: &mut W,
) -> Result<Missing, FilesFault>
    ensures { ReportsRecord (named S.left S.has_failed files.old.setup files.new.setup)
        (came J.left J.has_failed files.old.record files.new.record)
        (came R.left R.has_failed files.old.program files.new.program)
        (went W.taken W.has_failed sink.old sink.new)
        (named L.left L.has_failed limits.old limits.new) name.now
        (option_map (λ key. key.items) key.now) result }
{
    let (ranges, seals, digest, held, program) = judged_input(alloc, limits, key, files)?;
    of_program(alloc, &held, &program)?;
    let texts = texts_of(alloc, &held)?;
    let (features, ledger) = parts_of(alloc, held);
    let (missing, text) = page_of(
        alloc,
        shown_name(name),
        &texts,
        digest.as_str(),
        seals,
        &ranges,
        &program,
        features.list(),
        &ledger,
    )?;
    write_text(sink, text.as_slice())?;
    Ok(missing)
}
