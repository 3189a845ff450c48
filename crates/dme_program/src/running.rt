// An order is carried out on files and the standard streams.

ghost use Rattle.std.specs.Prelude.{◌≡◌, true, is_some, IfOk, IfErr};
ghost use Rattle.client_core.specs.Clients.{is_window};
ghost use Rattle.dme_words.specs.Ordered.{IsReady};
ghost use Rattle.dme_program.specs.Blamed.{OnSetup};

use crate::connecting::loop_program;
use crate::explaining::{key_of, refused, tell_audit};
use crate::exporting::{explain_topic, export, report_of_record, summary_of_records};
use crate::faults::Fault;
use crate::files::{NamedSource, Sources, file_of};
use crate::serving::{read_recordings, run_program, serve, watch};
use crate::version;
use byte_ports::Writing;
use dme_orders::{
    AuditFiles, Judged, JudgedLine, RecordFiles, SimulationFiles, audit_files, audit_record,
    check_under_setup, lower_program, read_machine, review_program, simulate,
};
use dme_words::{Audit, Lower, Order, Recorded, Review, Simulation, Subject, read_words};
use order_parts::{FilesFault, status};
use program_lowering::{Choices, SourceNames};
use program_review::{FindingForm, FindingStyle, InputFile, InputFiles};
use std::alloc::{AllocError, Global};
use std::env;
use std::io::{self, Write};
use tool_rack::{Machine, named_machine, names_option, with_machine};
use watched_ends::Job;

/// The command line as it was given.
fn given_words(rt: HostRuntime) -> Result<Vec<String>, Fault> {
    let given = env::args(&rt).map_err(|error| Fault::of_words(error.kind()))?;
    Ok(given.collect::<Vec<String>>(rt.alloc())?)
}

/// The words of the command line; the first names the program in `clap`'s texts, whatever file it runs from.
fn words_of(alloc: Global, given: &[String]) -> Result<Vec<&str>, AllocError> {
    let mut words = Vec::new(alloc);
    words.push("dme")?;
    for word in given.iter().skip(1) {
        words.push(word.as_str())?;
    }
    Ok(words)
}

/// The machine's file of this name; if it is refused, standard error shows why, and this is the exit status.
#[inline(never)]
fn machine_of(rt: HostRuntime, name: String, is_explained: bool) -> Result<Machine, u8> {
    let mut source = Sources::new(rt, is_explained).file(name);
    let read = read_machine(rt.alloc(), &mut source);
    let files = InputFiles {
        machine: source.into_file(),
        ..InputFiles::unnamed(rt.alloc())
    };
    read.map_err(|fault| refused(rt, fault, files, is_explained))
}

/// The order that words ask for.
#[inline(never)]
fn read_order(alloc: Global, words: &[&str]) -> Result<Order, Fault>
    ensures { IfOk result IsReady }
{
    Ok(read_words(alloc, words)?)
}

/// Carries out what a command line asks for that names a machine's file: its exit status.
fn run_on(rt: HostRuntime, given: &[String], name: &str) -> Result<u8, Fault> {
    let alloc = rt.alloc();
    let name = String::from_str(alloc, name)?;
    let words = words_of(alloc, given)?;
    match machine_of(rt, name, names_option("explain", words.as_slice())) {
        Ok(machine) => {
            let words = words_of(alloc, given)?;
            let all = with_machine(alloc, words.as_slice(), &machine)?;
            let order = read_order(alloc, all.as_slice())?;
            carry_out(rt, order)
        }
        Err(status) => Ok(status),
    }
}

/// A program is checked under a setup, if one is named, and its plan is printed. A setup is blamed only if there is one.
#[tactic(auto, using(crate::proofs::Blaming::only_named))]
fn check_files(
    rt: HostRuntime,
    setup: &mut Option<NamedSource>,
    program: &mut NamedSource,
) -> Result<(), FilesFault>
    ensures { IfErr result (OnSetup (is_some setup.old ≡ true)) }
{
    let mut sink = Writing::new(io::writer(&rt));
    check_under_setup(rt.alloc(), setup, program, &mut sink)
}

/// The files of an order over a program, and the setup under which it is read, if one is named.
fn program_files(rt: HostRuntime, setup: Option<NamedSource>, program: NamedSource) -> InputFiles {
    InputFiles {
        setup: file_of(rt, setup),
        program: program.into_file(),
        ..InputFiles::unnamed(rt.alloc())
    }
}

/// The order `check`: its exit status.
#[inline(never)]
fn check(rt: HostRuntime, order: Subject) -> u8 {
    let mut sources = Sources::new(rt, order.explain);
    let mut setup = sources.maybe(order.setup);
    let mut program = sources.file(order.program);
    let checked = check_files(rt, &mut setup, &mut program);
    let files = program_files(rt, setup, program);
    match checked {
        Ok(()) => 0,
        Err(fault) => refused(rt, fault, files, order.explain),
    }
}

/// The order `review`: its exit status.
#[inline(never)]
fn review(rt: HostRuntime, order: Review) -> Result<u8, AllocError> {
    let (name, setup_name) = (order.program.clone()?, order.setup.clone()?);
    let style = FindingStyle {
        form: if order.is_json {
            FindingForm::Json
        } else {
            FindingForm::Lines
        },
        program: name.as_str(),
        setup: setup_name.as_deref().unwrap_or(""),
    };
    let mut sources = Sources::new(rt, false);
    let mut setup = sources.maybe(order.setup);
    let mut program = sources.file(order.program);
    let mut sink = Writing::new(io::writer(&rt));
    let reviewed = review_program(rt.alloc(), style, &mut setup, &mut program, &mut sink);
    let files = program_files(rt, setup, program);
    match reviewed {
        Ok(status) => Ok(status),
        Err(fault) => Ok(refused(rt, fault, files, false)),
    }
}

/// The order `lower`: its exit status. Standard error shows what was decided.
#[inline(never)]
fn lower(rt: HostRuntime, order: Lower) -> Result<u8, AllocError> {
    let choices = Choices {
        no_clearing: order.no_clearing,
        compensated: order.compensated,
        skip_manual: order.skip_manual,
        stored_frames: order.stored_frames,
        even_touches: order.even_touches,
    };
    let answers = order.answers;
    let order = order.subject;
    let (name, setup_name) = (order.program.clone()?, order.setup.clone()?);
    let names = SourceNames {
        program: name.as_str(),
        setup: setup_name.as_deref().unwrap_or(""),
    };
    let mut sources = Sources::new(rt, order.explain);
    let mut setup = sources.maybe(order.setup);
    let mut program = sources.file(order.program);
    let mut sink = Writing::new(io::writer(&rt));
    let alloc = rt.alloc();
    let lowered = lower_program(
        alloc,
        names,
        choices,
        answers.as_slice(),
        &mut setup,
        &mut program,
        &mut sink,
    );
    let files = program_files(rt, setup, program);
    match lowered {
        Ok(flat) => {
            let _ = rt.stderr().write_all(flat.notes.as_slice());
            Ok(0)
        }
        Err(fault) => Ok(refused(rt, fault, files, order.explain)),
    }
}

/// The order `simulate`: its exit status.
#[inline(never)]
fn simulate_files(rt: HostRuntime, order: Simulation) -> u8
    requires { is_window order.window ≡ true }
{
    let mut sources = Sources::new(rt, order.explain);
    let mut sought = SimulationFiles {
        setup: sources.file(order.setup),
        schedule: sources.file(order.schedule),
        program: sources.file(order.program),
    };
    let mut lines = order.trace.then_some(Writing::new(rt.stderr()));
    let mut sink = Writing::new(io::writer(&rt));
    let simulated = simulate(rt.alloc(), &mut sought, order.window, &mut lines, &mut sink);
    let files = InputFiles {
        setup: sought.setup.into_file(),
        schedule: sought.schedule.into_file(),
        program: sought.program.into_file(),
        ..InputFiles::unnamed(rt.alloc())
    };
    match simulated {
        Ok(state) => status(state),
        Err(fault) => refused(rt, fault, files, order.explain),
    }
}

/// A file that was judged. If the audit was carried out, its digest is shown on standard error.
fn judged(rt: HostRuntime, source: Judged<NamedSource>, is_done: bool) -> InputFile {
    let (source, digest) = source.finish();
    let file = source.into_file();
    if is_done {
        let name = file.name.as_str();
        let line = JudgedLine { name, digest };
        let _ = eprint!(rt; "{line}");
    }
    file
}

/// Likewise, if there is a file.
fn judged_if_named(
    rt: HostRuntime,
    source: Option<Judged<NamedSource>>,
    is_done: bool,
) -> InputFile {
    match source {
        Some(source) => judged(rt, source, is_done),
        None => file_of(rt, None),
    }
}

/// The exit status of an audit, after which standard error shows what it found, if that is asked for.
fn audit_end(
    rt: HostRuntime,
    audited: Result<u8, FilesFault>,
    files: InputFiles,
    is_explained: bool,
) -> u8 {
    let status = match audited {
        Ok(status) => status,
        Err(fault) => return refused(rt, fault, files, is_explained),
    };
    if is_explained {
        tell_audit(rt, &files);
    }
    status
}

/// The order `audit`: its exit status.
#[inline(never)]
fn audit(rt: HostRuntime, order: Audit) -> u8 {
    let mut sources = Sources::new(rt, order.explain);
    let mut sought = AuditFiles {
        setup: Judged::new(sources.file(order.setup)),
        features: Judged::new(sources.file(order.features)),
        contacts: Judged::new(sources.file(order.contacts)),
        program: Judged::new(sources.file(order.program)),
    };
    let mut sink = Writing::new(io::writer(&rt));
    let result = audit_files(rt.alloc(), &mut sought, &mut sink);
    let is_done = result.is_ok();
    let files = InputFiles {
        setup: judged(rt, sought.setup, is_done),
        features: judged(rt, sought.features, is_done),
        contacts: judged(rt, sought.contacts, is_done),
        program: judged(rt, sought.program, is_done),
        ..InputFiles::unnamed(rt.alloc())
    };
    audit_end(rt, result, files, order.explain)
}

/// The order `audit` for a record: its exit status. Standard error shows the part, which features are missing, and the errors of the server.
#[inline(never)]
fn audit_of_record(rt: HostRuntime, order: Recorded) -> u8 {
    let subject = order.subject;
    let mut sources = Sources::new(rt, subject.explain);
    let source = sources.maybe(order.seal_key);
    let key = match key_of(rt, source, subject.explain) {
        Ok(key) => key,
        Err(status) => return status,
    };
    let setup = sources.maybe(subject.setup);
    let mut sought = RecordFiles {
        setup: setup.map(Judged::new),
        record: Judged::new(sources.file(order.record)),
        program: Judged::new(sources.file(subject.program)),
    };
    let mut sink = Writing::new(io::writer(&rt));
    let result = audit_record(rt.alloc(), &key, &mut sought, &mut sink).map(|(status, notes)| {
        let (part, missing, errors) = (&notes.part, &notes.missing.sentence, &notes.errors);
        let _ = eprint!(rt; "{part}{missing}{errors}");
        status
    });
    let is_done = result.is_ok();
    let files = InputFiles {
        setup: judged_if_named(rt, sought.setup, is_done),
        record: judged(rt, sought.record, is_done),
        program: judged(rt, sought.program, is_done),
        ..InputFiles::unnamed(rt.alloc())
    };
    audit_end(rt, result, files, subject.explain)
}

/// Carries out an order: its exit status. None is joined to this function, whose frame would have room for all of them.
fn carry_out(rt: HostRuntime, order: Order) -> Result<u8, Fault>
    requires { IsReady order }
{
    match order {
        Order::Check(order) => Ok(check(rt, order)),
        Order::Simulate(order) => Ok(simulate_files(rt, order)),
        Order::Audit(order) => Ok(audit(rt, order)),
        Order::AuditRecord(order) => Ok(audit_of_record(rt, order)),
        Order::Loop(order) => loop_program(rt, order),
        Order::Serve(order) => Ok(serve(rt, order)?),
        Order::Run(order) => Ok(run_program(rt, order)),
        Order::Explain(topic) => Ok(explain_topic(rt, topic)),
        Order::Export(order) => Ok(export(rt, order)?),
        Order::Review(order) => Ok(review(rt, order)?),
        Order::Ledger(order) => {
            let job = Job::Ledger(u64::from(order.connection));
            Ok(read_recordings(rt, job, order.up, order.down)?)
        }
        Order::Judge(order) => Ok(read_recordings(rt, Job::Judge, order.up, order.down)?),
        Order::Watch(order) => Ok(watch(rt, order)?),
        Order::Lower(order) => Ok(lower(rt, order)?),
        Order::Report(order) => Ok(report_of_record(rt, order)?),
        Order::Summary(order) => Ok(summary_of_records(rt, order)?),
    }
}

/// Reads the command line and does what it asks for. The exit status of an order that was carried out.
pub fn run(rt: HostRuntime) -> Result<u8, Fault> {
    let given = given_words(rt)?;
    if version::is_asked(given.as_slice()) {
        return version::tell(rt);
    }
    let words = words_of(rt.alloc(), given.as_slice())?;
    if let Some(name) = named_machine(words.as_slice()) {
        return run_on(rt, given.as_slice(), name);
    }
    let order = read_order(rt.alloc(), words.as_slice())?;
    carry_out(rt, order)
}
