// The orders `export`, `report`, `summary` and `explain`, on files and the standard streams.

use crate::explaining::{key_of, refused};
use crate::files::{NamedSource, Sources, file_of};
use byte_ports::{Writing, push_all};
use deviations::{Form as TableForm, Limits, TableOptions};
use dme_orders::{
    ExportFiles, Exported, RecordFiles, RecordText, explain, export_files, export_record,
    named_limits, named_setup, program_under, report_record,
};
use dme_words::{BatchSummary, Export, Measured, PartReport, RecordForm, Subject, SummaryForm};
use dmis_program::Program;
use order_parts::FilesFault;
use part_summary::{Form, Summary, uncounted_line};
use program_review::{InputFiles, Topic};
use std::alloc::AllocError;
use std::io::{self, Write};

/// The exit status of an export, after which standard error shows what it says besides what it prints, or why it was not carried out.
fn export_end(
    rt: HostRuntime,
    exported: Result<Exported, FilesFault>,
    files: InputFiles,
    is_explained: bool,
) -> u8 {
    let exported = match exported {
        Ok(exported) => exported,
        Err(fault) => return refused(rt, fault, files, is_explained),
    };
    let (missing, compared) = (&exported.missing.sentence, &exported.compared);
    let _ = eprint!(rt; "{missing}{compared}");
    exported.missing.status()
}

/// The order `export` for features: its exit status.
#[inline(never)]
fn export_of_features(
    rt: HostRuntime,
    form: TableForm,
    features: String,
    table: TableOptions,
    limits: Option<String>,
    subject: Subject,
) -> Result<u8, AllocError> {
    let name = subject.program.clone()?;
    let mut sources = Sources::new(rt, subject.explain);
    let mut sought = ExportFiles {
        setup: sources.maybe(subject.setup),
        features: sources.file(features),
        program: sources.file(subject.program),
    };
    let mut limits = sources.maybe(limits);
    let mut sink = Writing::new(io::writer(&rt));
    let exported = export_files(
        rt.alloc(),
        name.as_str(),
        form,
        table,
        &mut limits,
        &mut sought,
        &mut sink,
    );
    let files = InputFiles {
        setup: file_of(rt, sought.setup),
        features: sought.features.into_file(),
        program: sought.program.into_file(),
        limits: file_of(rt, limits),
        ..InputFiles::unnamed(rt.alloc())
    };
    Ok(export_end(rt, exported, files, subject.explain))
}

/// What is printed of a record in a form.
fn text_of(form: RecordForm) -> RecordText {
    match form {
        RecordForm::Table(form) => RecordText::Table(form),
        RecordForm::Features => RecordText::Features,
        RecordForm::Contacts => RecordText::Contacts,
    }
}

/// The files of an order over a record, as far as they were read.
pub fn record_files(
    rt: HostRuntime,
    sought: RecordFiles<NamedSource, NamedSource, NamedSource>,
) -> InputFiles {
    InputFiles {
        setup: file_of(rt, sought.setup),
        record: sought.record.into_file(),
        program: sought.program.into_file(),
        ..InputFiles::unnamed(rt.alloc())
    }
}

/// The order `export` for a record: its exit status.
#[inline(never)]
fn export_of_record(
    rt: HostRuntime,
    form: RecordForm,
    record: String,
    table: TableOptions,
    limits: Option<String>,
    subject: Subject,
) -> Result<u8, AllocError> {
    let name = subject.program.clone()?;
    let mut sources = Sources::new(rt, subject.explain);
    let mut sought = RecordFiles {
        setup: sources.maybe(subject.setup),
        record: sources.file(record),
        program: sources.file(subject.program),
    };
    let mut limits = sources.maybe(limits);
    let mut sink = Writing::new(io::writer(&rt));
    let form = text_of(form);
    let exported = export_record(
        rt.alloc(),
        name.as_str(),
        form,
        table,
        &mut limits,
        &mut sought,
        &mut sink,
    );
    let files = InputFiles {
        limits: file_of(rt, limits),
        ..record_files(rt, sought)
    };
    Ok(export_end(rt, exported, files, subject.explain))
}

/// The order `export`: its exit status.
pub fn export(rt: HostRuntime, order: Export) -> Result<u8, AllocError> {
    let (table, limits, subject) = (order.table, order.limits, order.subject);
    let measured = order.measured;
    match measured {
        Measured::Features(form, file) => {
            export_of_features(rt, form, file, table, limits, subject)
        }
        Measured::Record(form, file) => export_of_record(rt, form, file, table, limits, subject),
    }
}

/// The order `report`: its exit status.
#[inline(never)]
pub fn report_of_record(rt: HostRuntime, order: PartReport) -> Result<u8, AllocError> {
    let recorded = order.recorded;
    let subject = recorded.subject;
    let name = subject.program.clone()?;
    let mut sources = Sources::new(rt, subject.explain);
    let source = sources.maybe(recorded.seal_key);
    let key = match key_of(rt, source, subject.explain) {
        Ok(key) => key,
        Err(status) => return Ok(status),
    };
    let mut sought = RecordFiles {
        setup: sources.maybe(subject.setup),
        record: sources.file(recorded.record),
        program: sources.file(subject.program),
    };
    let mut limits = sources.maybe(order.limits);
    let mut sink = Writing::new(io::writer(&rt));
    let name = name.as_str();
    let reported = report_record(rt.alloc(), name, &key, &mut limits, &mut sought, &mut sink);
    let files = InputFiles {
        limits: file_of(rt, limits),
        ..record_files(rt, sought)
    };
    match reported {
        Ok(missing) => {
            let sentence = &missing.sentence;
            let _ = eprint!(rt; "{sentence}");
            Ok(missing.status())
        }
        Err(fault) => Ok(refused(rt, fault, files, subject.explain)),
    }
}

/// The limits of a summary, if they are named, and its program under the frames of a setup, if one is named.
fn summed_program(
    rt: HostRuntime,
    limits: &mut Option<NamedSource>,
    setup: &mut Option<NamedSource>,
    program: &mut NamedSource,
) -> Result<(Option<Limits>, Program), FilesFault> {
    let limits = named_limits(rt.alloc(), limits)?;
    let setup = named_setup(rt.alloc(), setup)?;
    let program = program_under(rt.alloc(), &setup, program)?;
    Ok((limits, program))
}

/// Counts the record of a file, or says on standard error that it does not count, and why.
fn add_record(
    rt: HostRuntime,
    summary: &mut Summary<'_>,
    name: &str,
    source: NamedSource,
) -> Result<(), AllocError> {
    let mut source = source;
    let Err(fault) = summary.add(name, &mut source) else {
        return Ok(());
    };
    let line = uncounted_line(rt.alloc(), name)?;
    let _ = eprint!(rt; "{line}");
    let files = InputFiles {
        record: source.into_file(),
        ..InputFiles::unnamed(rt.alloc())
    };
    refused(rt, fault, files, false);
    Ok(())
}

/// Prints a summary of records of which this many were named: the exit status.
fn print_summary(
    rt: HostRuntime,
    summary: &mut Summary<'_>,
    form: Form,
    program: &str,
    named: usize,
) -> Result<u8, AllocError> {
    let printed = summary.printed(rt.alloc(), form, program, named)?;
    let _ = rt.stderr().write_all(printed.notes.as_slice());
    if push_all(&mut Writing::new(io::writer(&rt)), printed.text.as_slice()).is_err() {
        summary.blame(&FilesFault::Write);
        refused(
            rt,
            FilesFault::Write,
            InputFiles::unnamed(rt.alloc()),
            false,
        );
    }
    Ok(summary.status())
}

/// How a summary is printed.
fn summary_form(form: SummaryForm) -> Form {
    match form {
        SummaryForm::Text => Form::Text,
        SummaryForm::Csv => Form::Csv,
        SummaryForm::Html => Form::Html,
    }
}

/// The order `summary`: its exit status.
#[inline(never)]
pub fn summary_of_records(rt: HostRuntime, order: BatchSummary) -> Result<u8, AllocError> {
    let mut sources = Sources::new(rt, false);
    let key = sources.maybe(order.seal_key);
    let key = match key_of(rt, key, false) {
        Ok(key) => key,
        Err(status) => return Ok(status),
    };
    let mut limits = sources.maybe(order.limits);
    let mut setup = sources.maybe(order.setup);
    let program_name = order.program.clone()?;
    let mut program = sources.file(order.program);
    let read = summed_program(rt, &mut limits, &mut setup, &mut program);
    let files = InputFiles {
        limits: file_of(rt, limits),
        setup: file_of(rt, setup),
        program: program.into_file(),
        ..InputFiles::unnamed(rt.alloc())
    };
    let (limits, program) = match read {
        Ok(read) => read,
        Err(fault) => return Ok(refused(rt, fault, files, false)),
    };
    let mut summary = Summary::new(rt.alloc(), &program, &limits, &key)?;
    let named = order.records.len();
    for record in order.records {
        let name = record.clone()?;
        let source = sources.file(record);
        add_record(rt, &mut summary, name.as_str(), source)?;
    }
    let form = summary_form(order.form);
    print_summary(rt, &mut summary, form, program_name.as_str(), named)
}

/// The order `explain`: its exit status.
#[inline(never)]
pub fn explain_topic(rt: HostRuntime, topic: Topic) -> u8 {
    match explain(rt.alloc(), topic, &mut Writing::new(io::writer(&rt))) {
        Ok(()) => 0,
        Err(fault) => refused(rt, fault, InputFiles::unnamed(rt.alloc()), false),
    }
}
