// Which order the words of a command line ask for, or why they ask for nothing.

ghost use Rattle.std.specs.Prelude.{◌≡◌, ◌≤◌, IfOk, IfErr, IfSome, OnOk, IsErrAnd, IsSomeAnd, MatchOption, Some, map, true, codes, string_bytes};
ghost use Rattle.std.specs.Option.{option_map};
ghost use Rattle.clap.specs.Words.{found_of, rows_of, subcommand_rows_of};
ghost use Rattle.client_core.specs.Clients.{is_window};
ghost use Rattle.dme_words.specs.Answers.{HasNoAnswer, named_answers};
ghost use Rattle.dme_words.specs.Ordered as spec;
ghost use Rattle.dme_words.specs.CommandLine.{audit_line, check_line, explain_line, export_line, judge_line, ledger_line, loop_line, lower_line, report_line, run_line, serve_line, simulate_line, watch_line};
ghost use Rattle.dme_words.specs.Ordered.{Asks, AsksForNothing, AuditMisfits, ExportMisfits, FitsAudit, FitsRun, Has, HasFlag, HasNoAudit, HasNoExport, HasNoReview, HasNoForm, HasNoRun, HasNoRunValue, HasNoSeconds, HasNoSummary, HasNoTable, HasNoTopic, HasValue, IsAnyAuditOf, IsAskable, IsCalled, IsExplainOf, IsExportOf, IsFindingFormOf, IsJudgeOf, IsLaterAskable, IsLedgerOf, IsLoopOf, IsLowerOf, IsMeasuredOf, IsOrderOf, IsReady, IsRecordOf, IsRecordedOf, IsRefusal, IsRefusedOf, IsReportOf, IsReviewOf, IsRunOf, IsSeparatorOf, IsServeOf, IsSignOf, IsSimulateOf, IsSubjectOf, IsSummaryFormOf, IsSummaryOf, IsTableOf, IsValueOf, IsWatchOf, KeepsItsTable, NamesOneFile, RunMisfits, form_in, form_word, rows_in};

use crate::folders::record_in;
use crate::line::whole_command;
use crate::misfits::{Lacks, MORE, Misfit};
use crate::orders::{
    Audit, BatchSummary, Export, Judge, Ledger, Loop, Lower, Measured, Order, PartReport,
    RecordForm, Recorded, Review, Run, Service, Simulation, Subject, SummaryForm, Watch,
};
use crate::values::{
    all_values, answers_of, connections_of, flag_of, is_lacking, maybe, name_of, needed, number_of,
    or_input, port_of, seconds_of, value_of, window_of,
};
use clap::error::ErrorKind;
use clap::parser::ValueSource;
use clap::{ArgMatches, Error};
use deviations::{DecimalSign, Form, Separator, TableOptions};
use program_review::Topic;
use session_telling::visible;
use std::alloc::{AllocError, Global};
use std::fmt;

/// What an argument takes.
#[derive(Clone, Copy, Debug, PartialEq, Eq)]
pub enum Wanted {
    /// The code of a refusal.
    Code,
    /// The word for a form of what was measured.
    Form,
    /// The word for a form of a review's findings.
    FindingForm,
    /// The word for a form of a summary.
    SummaryForm,
    /// The word for a separator of a table.
    Separator,
    /// The word for a decimal sign.
    Sign,
    /// A number of seconds; of this option.
    Seconds(&'static str),
    /// The name of a part or of an operator; of this option.
    Name(&'static str),
    /// An answer to what a program asks for.
    Answer,
}

/// Shown as `clap` shows the argument, and why it does not take a value.
impl fmt::Display for Wanted {
    fn fmt<W: fmt::Write>(&self, f: &mut fmt::Formatter<W>) -> fmt::Result {
        let shown = match self {
            Wanted::Code => "'<CODE>': no refusal has this code",
            Wanted::Form => {
                "'--as <FORM>'\n  [possible values: csv, json, svg, features, contacts]"
            }
            Wanted::FindingForm => "'--as <FORM>'\n  [possible values: json]",
            Wanted::SummaryForm => "'--as <FORM>'\n  [possible values: text, csv, html]",
            Wanted::Separator => "'--separator <SIGN>'\n  [possible values: ',', ';', tab]",
            Wanted::Answer => "'--value <NAME=TEXT>': a name, then = and a text",
            Wanted::Sign => "'--decimal <SIGN>'\n  [possible values: point, comma]",
            Wanted::Seconds(option) => {
                return write!(f, "'--{option} <SECONDS>': a number from 1 to 86400");
            }
            Wanted::Name(option) => {
                return write!(f, "'--{option} <TEXT>': 1 to 64 printable bytes");
            }
        };
        f.write_str(shown)
    }
}

/// Why words ask for nothing. Shown as `clap` shows its own faults.
#[derive(Debug, Drop)]
pub enum WordsFault {
    /// A bad command line, or a call for help, with `clap`'s text.
    Line(Error),
    /// A word with a control character, as people read it.
    Control(String),
    /// A text that an argument does not take.
    NoValue(Wanted, String),
    /// Options that do not go together.
    Misfits(Misfit),
    /// Out of memory.
    Memory,
}

impl From<AllocError> for WordsFault {
    ghost use Rattle.std.specs.Prelude.{◌≡◌};
    ghost use Rattle.dme_words.specs.declared.words.WordsFault.TheVariants as fault;

    ghost from_gives = { λ _ e. e ≡ fault.Memory };

    fn from(_error: AllocError) -> WordsFault {
        WordsFault::Memory
    }
}

impl fmt::Display for WordsFault {
    fn fmt<W: fmt::Write>(&self, f: &mut fmt::Formatter<W>) -> fmt::Result {
        match self {
            WordsFault::Line(error) => write!(f, "{error}"),
            WordsFault::Control(word) => {
                write!(f, "error: control character in '{word}'\n\n{MORE}")
            }
            WordsFault::NoValue(wanted, text) => {
                write!(f, "error: invalid value '{text}' for {wanted}\n\n{MORE}")
            }
            WordsFault::Misfits(why) => write!(f, "{why}"),
            WordsFault::Memory => f.write_str("dme: out of memory\n"),
        }
    }
}

/// The program of an order, and its setup if one is named.
fn subject_of(alloc: Global, values: &ArgMatches) -> Result<Subject, AllocError>
    requires { HasFlag (codes "explain") (rows_in values.now) }
    ensures { IfOk result (IsSubjectOf (rows_in values.now)) }
{
    Ok(Subject {
        setup: maybe(alloc, values, "setup")?,
        explain: flag_of(values, "explain"),
        program: or_input(alloc, values, "PROGRAM")?,
    })
}

/// The named record, its key and the program.
fn recorded_of(alloc: Global, values: &ArgMatches) -> Result<Recorded, AllocError>
    requires explain { HasFlag (codes "explain") (rows_in values.now) }
    requires record { HasValue (codes "record") (rows_in values.now) }
    ensures { IfOk result (IsRecordedOf (rows_in values.now)) }
{
    Ok(Recorded {
        record: needed(alloc, values, "record")?,
        seal_key: maybe(alloc, values, "seal-key")?,
        subject: subject_of(alloc, values)?,
    })
}

fn check_order(alloc: Global, values: &ArgMatches) -> Result<Subject, AllocError>
    requires { Has check_line (rows_in values.now) }
    ensures { IfOk result (IsSubjectOf (rows_in values.now)) }
{
    subject_of(alloc, values)
}

fn simulate_order(alloc: Global, values: &ArgMatches) -> Result<Simulation, AllocError>
    requires { Has simulate_line (rows_in values.now) }
    ensures named { IfOk result (IsSimulateOf (rows_in values.now)) }
    ensures ready { IfOk result (λ order. is_window order.window ≡ true) }
{
    Ok(Simulation {
        setup: needed(alloc, values, "setup")?,
        schedule: needed(alloc, values, "schedule")?,
        window: window_of(values),
        trace: flag_of(values, "trace"),
        explain: flag_of(values, "explain"),
        program: or_input(alloc, values, "PROGRAM")?,
    })
}

/// Whether the command line names a program.
fn names_program(values: &ArgMatches) -> bool {
    matches!(
        values.value_source("PROGRAM"),
        Some(ValueSource::CommandLine)
    )
}

/// Why the options of an audit do not go together, if they do not.
fn audit_misfit(values: &ArgMatches) -> Option<Misfit>
    ensures { MatchOption result (FitsAudit (rows_in values.now))
        (AuditMisfits (rows_in values.now)) }
{
    let lacks = Lacks {
        setup: is_lacking(values, "setup"),
        features: is_lacking(values, "features"),
        contacts: is_lacking(values, "contacts"),
        is_named: names_program(values),
    };
    match is_lacking(values, "record") {
        false if !lacks.features => Some(Misfit::RecordAndFeatures),
        false if !lacks.contacts => Some(Misfit::RecordAndContacts),
        false => None,
        true if !is_lacking(values, "seal-key") => Some(Misfit::KeyWithoutRecord),
        true if lacks.setup || lacks.features || lacks.contacts => Some(Misfit::AuditLacks(lacks)),
        true => None,
    }
}

/// The values of `audit`: of a record, if one is named.
fn audit_order(alloc: Global, values: &ArgMatches) -> Result<Order, WordsFault>
    requires { Has audit_line (rows_in values.now) }
    ensures named { IfOk result (IsAnyAuditOf (rows_in values.now)) }
    ensures none { IfErr result (HasNoAudit (rows_in values.now)) }
{
    if let Some(why) = audit_misfit(values) {
        return Err(WordsFault::Misfits(why));
    }
    if !is_lacking(values, "record") {
        return Ok(Order::AuditRecord(recorded_of(alloc, values)?));
    }
    Ok(Order::Audit(Audit {
        setup: needed(alloc, values, "setup")?,
        features: needed(alloc, values, "features")?,
        contacts: needed(alloc, values, "contacts")?,
        explain: flag_of(values, "explain"),
        program: or_input(alloc, values, "PROGRAM")?,
    }))
}

fn loop_order(alloc: Global, values: &ArgMatches) -> Result<Loop, AllocError>
    requires { Has loop_line (rows_in values.now) }
    ensures named { IfOk result (IsLoopOf (rows_in values.now)) }
    ensures ready { IfOk result (λ order. is_window order.window ≡ true) }
{
    Ok(Loop {
        setup: needed(alloc, values, "setup")?,
        window: window_of(values),
        progress: flag_of(values, "progress"),
        trace: flag_of(values, "trace"),
        explain: flag_of(values, "explain"),
        program: or_input(alloc, values, "PROGRAM")?,
    })
}

fn serve_order(alloc: Global, values: &ArgMatches) -> Result<Service, WordsFault>
    requires { Has serve_line (rows_in values.now) }
    ensures named { IfOk result (IsServeOf (rows_in values.now)) }
    ensures none { IfErr result (HasNoSeconds (codes "timeout") (rows_in values.now)) }
    ensures ready { IfOk result (λ order. (1 ≤ order.port)
        × (1 ≤ order.connections) × (order.connections ≤ 4000000000)) }
{
    Ok(Service {
        setup: needed(alloc, values, "setup")?,
        listen: maybe(alloc, values, "listen")?,
        port: port_of(values, "port"),
        connections: connections_of(values),
        contacts: maybe(alloc, values, "contacts")?,
        progress: flag_of(values, "progress"),
        trace: flag_of(values, "trace"),
        log: maybe(alloc, values, "log")?,
        timeout: seconds_of(alloc, values, "timeout")?,
        stop: maybe(alloc, values, "stop")?,
        explain: flag_of(values, "explain"),
    })
}

/// The file of the record: the named one, or else that of the part in the named folder.
fn record_of(alloc: Global, values: &ArgMatches) -> Result<Option<String>, AllocError>
    ensures { IfOk result (λ file. IsRecordOf (rows_in values.now)
        (option_map string_bytes file)) }
{
    if let Some(file) = maybe(alloc, values, "record")? {
        return Ok(Some(file));
    }
    match (value_of(values, "records"), value_of(values, "part")) {
        (Some(folder), Some(part)) => Ok(Some(record_in(alloc, folder, part)?)),
        _ => Ok(None),
    }
}

fn run_values(alloc: Global, values: &ArgMatches) -> Result<Run, WordsFault>
    requires { Has run_line (rows_in values.now) }
    ensures named { IfOk result (IsRunOf (rows_in values.now)) }
    ensures ready { IfOk result (λ order. (1 ≤ order.port)
        × (is_window order.window ≡ true)) }
    ensures none { IfErr result (HasNoRunValue (rows_in values.now)) }
{
    let timeout = seconds_of(alloc, values, "timeout")?;
    let wait = seconds_of(alloc, values, "wait")?;
    Ok(Run {
        setup: needed(alloc, values, "setup")?,
        host: needed(alloc, values, "host")?,
        port: port_of(values, "port"),
        window: window_of(values),
        features: maybe(alloc, values, "features")?,
        record: record_of(alloc, values)?,
        part: name_of(alloc, values, "part")?,
        operator: name_of(alloc, values, "operator")?,
        seal_key: maybe(alloc, values, "seal-key")?,
        contacts: maybe(alloc, values, "contacts")?,
        progress: flag_of(values, "progress"),
        trace: flag_of(values, "trace"),
        log: maybe(alloc, values, "log")?,
        timeout,
        wait,
        stop: maybe(alloc, values, "stop")?,
        confirm: flag_of(values, "confirm"),
        pause: flag_of(values, "pause"),
        explain: flag_of(values, "explain"),
        program: or_input(alloc, values, "PROGRAM")?,
    })
}

/// Why the options of a run do not go together, if they do not.
fn run_misfit(values: &ArgMatches) -> Option<Misfit>
    ensures { MatchOption result (FitsRun (rows_in values.now)) (RunMisfits (rows_in values.now)) }
{
    let (no_record, no_part) = (is_lacking(values, "record"), is_lacking(values, "part"));
    let is_unrecorded = no_record && is_lacking(values, "records");
    match (is_unrecorded, no_part) {
        (true, false) => Some(Misfit::PartWithoutRecord),
        (true, true) if !is_lacking(values, "operator") => Some(Misfit::OperatorWithoutRecord),
        (true, true) if !is_lacking(values, "seal-key") => Some(Misfit::KeyWithoutRecord),
        (false, true) if no_record => Some(Misfit::FolderWithoutPart),
        (false, true) => Some(Misfit::RecordWithoutPart),
        _ => None,
    }
}

/// The values of `run`. A record is of a part, so that its points are not taken for those of another; a part, an operator and a key are
/// those of a record.
fn run_order(alloc: Global, values: &ArgMatches) -> Result<Run, WordsFault>
    requires { Has run_line (rows_in values.now) }
    ensures named { IfOk result (IsRunOf (rows_in values.now)) }
    ensures fits { OnOk result (FitsRun (rows_in values.now)) }
    ensures ready { IfOk result (λ order. (1 ≤ order.port)
        × (is_window order.window ≡ true)) }
    ensures none { IfErr result (HasNoRun (rows_in values.now)) }
{
    match run_misfit(values) {
        Some(why) => Err(WordsFault::Misfits(why)),
        None => run_values(alloc, values),
    }
}

/// The refusal that `explain` names, its letters in any case.
fn explain_order(alloc: Global, values: &ArgMatches) -> Result<Topic, WordsFault>
    requires { Has explain_line (rows_in values.now) }
    ensures named { IfOk result (IsExplainOf (rows_in values.now)) }
    ensures none { IfErr result (HasNoTopic (rows_in values.now)) }
{
    let code = needed(alloc, values, "CODE")?;
    match Topic::of_code(code.as_bytes()) {
        Some(topic) => Ok(topic),
        None => Err(WordsFault::NoValue(Wanted::Code, code)),
    }
}

fn form_of(alloc: Global, values: &ArgMatches) -> Result<RecordForm, WordsFault>
    requires { HasValue (codes "as") (rows_in values.now) }
    ensures named { IfOk result (λ form. IsValueOf (codes "as") (rows_in values.now)
        (form_word form)) }
    ensures none { IfErr result (HasNoForm (rows_in values.now)) }
{
    match value_of(values, "as") {
        Some("csv") => Ok(RecordForm::Table(Form::Csv)),
        Some("json") => Ok(RecordForm::Table(Form::Json)),
        Some("svg") => Ok(RecordForm::Table(Form::Svg)),
        Some("features") => Ok(RecordForm::Features),
        Some("contacts") => Ok(RecordForm::Contacts),
        Some(word) => Err(WordsFault::NoValue(Wanted::Form, String::from_str(alloc, word)?)),
        None => unreachable!(),
    }
}

fn separator_of(alloc: Global, values: &ArgMatches) -> Result<Separator, WordsFault>
    ensures named { IfOk result (IsSeparatorOf (rows_in values.now)) }
    ensures none { IfErr result (HasNoTable (rows_in values.now)) }
{
    match value_of(values, "separator") {
        None | Some(",") => Ok(Separator::Comma),
        Some(";") => Ok(Separator::Semicolon),
        Some("tab") => Ok(Separator::Tab),
        Some(word) => Err(WordsFault::NoValue(Wanted::Separator, String::from_str(alloc, word)?)),
    }
}

fn sign_of(alloc: Global, values: &ArgMatches) -> Result<DecimalSign, WordsFault>
    ensures named { IfOk result (IsSignOf (rows_in values.now)) }
    ensures none { IfErr result (HasNoTable (rows_in values.now)) }
{
    match value_of(values, "decimal") {
        None | Some("point") => Ok(DecimalSign::Point),
        Some("comma") => Ok(DecimalSign::Comma),
        Some(word) => Err(WordsFault::NoValue(Wanted::Sign, String::from_str(alloc, word)?)),
    }
}

/// How a table is written.
fn table_of(alloc: Global, values: &ArgMatches) -> Result<TableOptions, WordsFault>
    requires { HasFlag (codes "with-part") (rows_in values.now) }
    ensures named { IfOk result (IsTableOf (rows_in values.now)) }
    ensures none { IfErr result (HasNoTable (rows_in values.now)) }
{
    Ok(TableOptions {
        separator: separator_of(alloc, values)?,
        sign: sign_of(alloc, values)?,
        with_part: flag_of(values, "with-part"),
    })
}

/// Why options of a table are not those of a form, if they are not.
fn table_misfit(values: &ArgMatches, form: RecordForm, table: TableOptions) -> Option<Misfit>
    requires form { IsValueOf (codes "as") (rows_in values.now) (form_word form) }
    requires table { IsTableOf (rows_in values.now) table }
    ensures { MatchOption result (KeepsItsTable (rows_in values.now) form table)
        (ExportMisfits (rows_in values.now)) }
{
    let is_plain = is_lacking(values, "separator") && is_lacking(values, "decimal");
    match form {
        RecordForm::Table(Form::Csv) => None,
        _ if !is_plain => Some(Misfit::SignsWithoutCsv),
        RecordForm::Table(Form::Json) => None,
        _ if table.with_part => Some(Misfit::PartWithoutTable),
        _ => None,
    }
}

/// Why the files of an export do not go together, if they do not. Two of the forms are those of a record only.
fn file_misfit(values: &ArgMatches) -> Option<Misfit>
    ensures { MatchOption result (NamesOneFile (rows_in values.now))
        (ExportMisfits (rows_in values.now)) }
{
    let (no_record, no_features) = (is_lacking(values, "record"), is_lacking(values, "features"));
    match (no_record, no_features, value_of(values, "as")) {
        (false, false, _) => Some(Misfit::RecordAndFeatures),
        (true, true, Some("features")) => Some(Misfit::FeaturesWithoutRecord),
        (true, true, Some("contacts")) => Some(Misfit::ContactsWithoutRecord),
        (true, true, _) => Some(Misfit::ExportLacks(names_program(values))),
        _ => None,
    }
}

/// What is printed of the file that is named.
fn measured_of(alloc: Global, values: &ArgMatches, form: RecordForm) -> Result<Measured, WordsFault>
    requires one { NamesOneFile (rows_in values.now) }
    requires form { IsValueOf (codes "as") (rows_in values.now) (form_word form) }
    ensures named { IfOk result (IsMeasuredOf (rows_in values.now)) }
    ensures form { IfOk result (λ measured. form_in measured ≡ form) }
    ensures none { IfErr result (HasNoExport (rows_in values.now)) }
{
    if !is_lacking(values, "record") {
        return Ok(Measured::Record(form, needed(alloc, values, "record")?));
    }
    match form {
        RecordForm::Table(form) => {
            Ok(Measured::Features(form, needed(alloc, values, "features")?))
        }
        RecordForm::Features => Err(WordsFault::Misfits(Misfit::FeaturesWithoutRecord)),
        RecordForm::Contacts => Err(WordsFault::Misfits(Misfit::ContactsWithoutRecord)),
    }
}

fn export_order(alloc: Global, values: &ArgMatches) -> Result<Export, WordsFault>
    requires { Has export_line (rows_in values.now) }
    ensures named { IfOk result (IsExportOf (rows_in values.now)) }
    ensures none { IfErr result (HasNoExport (rows_in values.now)) }
{
    if let Some(why) = file_misfit(values) {
        return Err(WordsFault::Misfits(why));
    }
    let form = form_of(alloc, values)?;
    let table = table_of(alloc, values)?;
    if let Some(why) = table_misfit(values, form, table) {
        return Err(WordsFault::Misfits(why));
    }
    Ok(Export {
        measured: measured_of(alloc, values, form)?,
        table,
        limits: maybe(alloc, values, "limits")?,
        subject: subject_of(alloc, values)?,
    })
}

/// Whether findings are printed as JSON; as lines if no form is named.
fn is_json(alloc: Global, values: &ArgMatches) -> Result<bool, WordsFault>
    ensures named { IfOk result (IsFindingFormOf (rows_in values.now)) }
    ensures none { IfErr result (HasNoReview (rows_in values.now)) }
{
    match value_of(values, "as") {
        Some("json") => Ok(true),
        Some(word) => Err(WordsFault::NoValue(Wanted::FindingForm, String::from_str(alloc, word)?)),
        None => Ok(false),
    }
}

fn review_order(alloc: Global, values: &ArgMatches) -> Result<Review, WordsFault>
    ensures named { IfOk result (IsReviewOf (rows_in values.now)) }
    ensures none { IfErr result (HasNoReview (rows_in values.now)) }
{
    Ok(Review {
        is_json: is_json(alloc, values)?,
        setup: maybe(alloc, values, "setup")?,
        program: or_input(alloc, values, "PROGRAM")?,
    })
}

fn ledger_order(alloc: Global, values: &ArgMatches) -> Result<Ledger, AllocError>
    requires { Has ledger_line (rows_in values.now) }
    ensures named { IfOk result (IsLedgerOf (rows_in values.now)) }
    ensures ready { IfOk result (λ order. (1 ≤ order.connection)
        × (order.connection ≤ 4000000000)) }
{
    Ok(Ledger {
        up: needed(alloc, values, "up")?,
        down: needed(alloc, values, "down")?,
        connection: number_of(values, "connection", 4_000_000_000),
    })
}

fn judge_order(alloc: Global, values: &ArgMatches) -> Result<Judge, AllocError>
    requires { Has judge_line (rows_in values.now) }
    ensures { IfOk result (IsJudgeOf (rows_in values.now)) }
{
    Ok(Judge {
        up: needed(alloc, values, "up")?,
        down: needed(alloc, values, "down")?,
    })
}

fn watch_order(alloc: Global, values: &ArgMatches) -> Result<Watch, WordsFault>
    requires { Has watch_line (rows_in values.now) }
    ensures named { IfOk result (IsWatchOf (rows_in values.now)) }
    ensures none { IfErr result (HasNoSeconds (codes "timeout") (rows_in values.now)) }
    ensures ready { IfOk result (λ order. (1 ≤ order.listen) × (1 ≤ order.port)
        × (1 ≤ order.connections) × (order.connections ≤ 4000000000)) }
{
    Ok(Watch {
        listen: port_of(values, "listen"),
        host: needed(alloc, values, "host")?,
        port: port_of(values, "port"),
        told: needed(alloc, values, "told")?,
        record_bytes: maybe(alloc, values, "record-bytes")?,
        connections: connections_of(values),
        trace: flag_of(values, "trace"),
        log: maybe(alloc, values, "log")?,
        timeout: seconds_of(alloc, values, "timeout")?,
    })
}

fn lower_order(alloc: Global, values: &ArgMatches) -> Result<Lower, WordsFault>
    requires { Has lower_line (rows_in values.now) }
    ensures named { IfOk result (IsLowerOf (rows_in values.now)) }
    ensures none { IfErr result (HasNoAnswer (named_answers (rows_in values.now))) }
{
    Ok(Lower {
        no_clearing: flag_of(values, "no-clearing"),
        compensated: flag_of(values, "compensated"),
        skip_manual: flag_of(values, "skip-manual"),
        stored_frames: flag_of(values, "stored-frames"),
        even_touches: flag_of(values, "even-touches"),
        answers: answers_of(alloc, values)?,
        subject: subject_of(alloc, values)?,
    })
}

fn report_order(alloc: Global, values: &ArgMatches) -> Result<PartReport, AllocError>
    requires { Has report_line (rows_in values.now) }
    ensures { IfOk result (IsReportOf (rows_in values.now)) }
{
    Ok(PartReport {
        limits: maybe(alloc, values, "limits")?,
        recorded: recorded_of(alloc, values)?,
    })
}

/// The form of a summary: text if none is named.
fn summary_form(alloc: Global, values: &ArgMatches) -> Result<SummaryForm, WordsFault>
    ensures named { IfOk result (IsSummaryFormOf (rows_in values.now)) }
    ensures none { IfErr result (HasNoSummary (rows_in values.now)) }
{
    match value_of(values, "as") {
        None | Some("text") => Ok(SummaryForm::Text),
        Some("csv") => Ok(SummaryForm::Csv),
        Some("html") => Ok(SummaryForm::Html),
        Some(word) => Err(WordsFault::NoValue(Wanted::SummaryForm, String::from_str(alloc, word)?)),
    }
}

fn summary_order(alloc: Global, values: &ArgMatches) -> Result<BatchSummary, WordsFault>
    ensures named { IfOk result (IsSummaryOf (rows_in values.now)) }
    ensures none { IfErr result (HasNoSummary (rows_in values.now)) }
{
    Ok(BatchSummary {
        form: summary_form(alloc, values)?,
        setup: maybe(alloc, values, "setup")?,
        limits: maybe(alloc, values, "limits")?,
        seal_key: maybe(alloc, values, "seal-key")?,
        program: or_input(alloc, values, "program")?,
        records: all_values(alloc, values, "RECORD")?,
    })
}

/// The order of one of the last ten subcommands, with its values.
fn later_order(alloc: Global, name: &str, values: &ArgMatches) -> Result<Order, WordsFault>
    requires { IsLaterAskable (name.now, rows_in values.now) }
    ensures named { IfOk result (IsOrderOf (Some (name.now, rows_in values.now))) }
    ensures ready { IfOk result IsReady }
    ensures none { IfErr result (IsRefusedOf (name.now, rows_in values.now)) }
{
    match name {
        "serve" => Ok(Order::Serve(serve_order(alloc, values)?)),
        "run" => Ok(Order::Run(run_order(alloc, values)?)),
        "explain" => Ok(Order::Explain(explain_order(alloc, values)?)),
        "export" => Ok(Order::Export(export_order(alloc, values)?)),
        "review" => Ok(Order::Review(review_order(alloc, values)?)),
        "ledger" => Ok(Order::Ledger(ledger_order(alloc, values)?)),
        "judge" => Ok(Order::Judge(judge_order(alloc, values)?)),
        "watch" => Ok(Order::Watch(watch_order(alloc, values)?)),
        "lower" => Ok(Order::Lower(lower_order(alloc, values)?)),
        "report" => Ok(Order::Report(report_order(alloc, values)?)),
        _ => unreachable!(),
    }
}

/// The order of the subcommand that `clap` found, with its values.
fn order_of(alloc: Global, matches: &ArgMatches) -> Result<Order, WordsFault>
    requires { IsSomeAnd (subcommand_rows_of matches.now) IsAskable }
    ensures named { IfOk result (IsOrderOf (subcommand_rows_of matches.now)) }
    ensures ready { IfOk result IsReady }
    ensures none { IfErr result (AsksForNothing (subcommand_rows_of matches.now)) }
{
    match matches.subcommand() {
        Some(("check", values)) => Ok(Order::Check(check_order(alloc, values)?)),
        Some(("simulate", values)) => Ok(Order::Simulate(simulate_order(alloc, values)?)),
        Some(("audit", values)) => audit_order(alloc, values),
        Some(("loop", values)) => Ok(Order::Loop(loop_order(alloc, values)?)),
        Some(("summary", values)) => Ok(Order::Summary(summary_order(alloc, values)?)),
        Some((name, values)) => later_order(alloc, name, values),
        None => unreachable!(),
    }
}

/// What an error of `clap` is called: out of memory if it is that, else a bad line.
fn refusal_of(error: Error) -> WordsFault
    ensures { IsCalled error result }
{
    if error.kind() == ErrorKind::OutOfMemory {
        return WordsFault::Memory;
    }
    WordsFault::Line(error)
}

/// What `clap`'s answer asks for. Words that it takes are refused only for a code that no refusal has, for a word that names no form, for
/// options that do not go together, or because memory ran out in copying a value.
fn answered(alloc: Global, answer: Result<ArgMatches, Error>) -> Result<Order, WordsFault>
    requires { IfOk answer (λ matches. IsSomeAnd (subcommand_rows_of matches) IsAskable) }
    ensures order { IfOk answer.entry (λ matches. IfOk result
        (IsOrderOf (subcommand_rows_of matches))) }
    ensures ready { IfOk result IsReady }
    ensures taken { IfOk answer.entry (λ matches. IfErr result
        (AsksForNothing (subcommand_rows_of matches))) }
    ensures refused { IfErr answer.entry (λ error. IsErrAnd result (IsCalled error)) }
{
    match answer {
        Ok(matches) => order_of(alloc, &matches),
        Err(error) => Err(refusal_of(error)),
    }
}

/// What words without a control character ask for.
fn asked<'a>(alloc: Global, words: &'a [&'a str]) -> Result<Order, WordsFault>
    ensures order { IfOk result (Asks (map (λ word. word.now) words.now)) }
    ensures refused { IfErr result (IsRefusal (map (λ word. word.now) words.now)) }
    ensures ready { IfOk result IsReady }
{
    let command = whole_command(alloc)?;
    answered(alloc, command.try_get_matches_from(words))
}

/// Whether a byte is no control character.
fn is_shown(byte: u8) -> bool
    ensures { result ≡ spec.is_shown byte }
{
    byte >= 32 && byte != 127
}

fn is_plain(word: &[u8]) -> bool
    ensures { result ≡ spec.is_plain word.now }
{
    word.iter().all(|byte| is_shown(*byte))
}

/// The first word that has a control character.
fn controlled<'a>(words: &'a [&'a str]) -> Option<&'a str>
    ensures { option_map (λ word. word.now) result
        ≡ spec.controlled (map (λ word. word.now) words.now) }
{
    for word in words {
        if !is_plain(word.as_bytes()) {
            return Some(*word);
        }
    }
    None
}

/// What the words of a command line ask for. The first word names the program in `clap`'s texts.
///
/// A word with a control character is refused before all else, so that no text that names a file has one. Words are a bad line only for a
/// fault that they have; a code is refused only if no refusal has it, a word only if it names no form, and options only if they do not go
/// together.
/// Running out of memory is reported as that alone, in building the command, in `clap`, or in copying a value.
pub fn read_words<'a>(alloc: Global, words: &'a [&'a str]) -> Result<Order, WordsFault>
    ensures order { IfOk result (Asks (map (λ word. word.now) words.now)) }
    ensures refused { IfErr result (IsRefusal (map (λ word. word.now) words.now)) }
    ensures plain { IfSome (spec.controlled (map (λ word. word.now) words.now))
        (λ word. IsErrAnd result (spec.IsControl word)) }
    ensures ready { IfOk result IsReady }
{
    if let Some(word) = controlled(words) {
        return Err(WordsFault::Control(visible(alloc, word.as_bytes())?));
    }
    asked(alloc, words)
}
