// What an audit found, and in what a record differs from a program, besides what an order prints: from the texts that the order read.

use contact_ledger::{FeatureLedger, ServerLedger, read_features};
use dmis_program::{Frames, Program};
use program_review::{InputFiles, write_audit, write_other_program};
use record_text::{Record, read_record};
use std::alloc::{AllocError, Global};
use tool_rack::Setup;
use witness::{
    ToldLedger, contact_connections, doubts_of, ends_runs, is_told_file, read_audited, read_told,
};

/// The program of these files under the frames of their setup, if both are understood.
fn program_of(alloc: Global, files: &InputFiles) -> Option<Program> {
    let text = files.program.text.as_slice();
    if files.setup.name.is_empty() {
        return Program::read(alloc, text, &Frames::new(alloc)).ok();
    }
    let setup = Setup::read(alloc, files.setup.text.as_slice()).ok()?;
    Program::read(alloc, text, setup.frames()).ok()
}

/// The record of these files, if it is begun and understood.
fn record_of(alloc: Global, files: &InputFiles) -> Option<Record> {
    read_record(alloc, files.record.text.as_slice()).ok()?
}

/// The features and acts that an audit of these files judges, if they are understood; those of the record, if there is one.
fn audited_of(alloc: Global, files: &InputFiles) -> Option<(FeatureLedger, ServerLedger)> {
    if files.features.name.is_empty() {
        return match read_record(alloc, files.record.text.as_slice()).ok()? {
            Some(record) => Some(record.into_parts()),
            None => Some((FeatureLedger::new(alloc), ServerLedger::new(alloc))),
        };
    }
    let features = read_features(alloc, files.features.text.as_slice()).ok()?;
    let ledger = read_audited(alloc, files.contacts.text.as_slice()).ok()?;
    Some((features, ledger))
}

/// What a server reported, if that is what the contacts of these files are, and they are understood.
fn told_of(alloc: Global, files: &InputFiles) -> Option<ToldLedger> {
    let text = files.contacts.text.as_slice();
    if !is_told_file(text) {
        return None;
    }
    read_told(alloc, text).ok()
}

/// Appends how many contacts have a tool or a frame that is not known, and from which line on; nothing if none has.
fn add_doubts(text: &mut String, told: &ToldLedger) -> Result<(), AllocError> {
    let found = doubts_of(told);
    let Some(first) = found.first else {
        return Ok(());
    };
    let line = first.saturating_add(2);
    let count = found.doubtful;
    let all = found.contacts;
    writeln!(
        text,
        "dme: {count} of {all} contacts have an unknown tool or frame, from line {line} on"
    )
}

/// Appends which lines other than contacts end runs.
fn add_ends(text: &mut String, told: &ToldLedger) -> Result<(), AllocError> {
    let mut line: usize = 1;
    let entries = told.entries();
    for (connection, one) in entries {
        line = line.saturating_add(1);
        if ends_runs(one) {
            writeln!(
                text,
                "dme: line {line} ends the runs of connection {connection}"
            )?;
        }
    }
    Ok(())
}

/// Appends what an audit of these files found, as `write_audit` says it: the contacts are shown with these connections, if there are any.
fn add_audit(
    alloc: Global,
    text: &mut Vec<u8>,
    files: &InputFiles,
    connections: &[u64],
) -> Result<(), AllocError> {
    let Some(program) = program_of(alloc, files) else {
        return Ok(());
    };
    let Some((features, ledger)) = audited_of(alloc, files) else {
        return Ok(());
    };
    write_audit(text, &program, features.list(), &ledger, connections)
}

/// What an audit of these files found, as `write_audit` says it; by what a server reported, first how many contacts have a tool or a
/// frame that is not known, and which other lines end runs. Nothing if memory ran out for their texts. Fails only if out of memory.
pub fn audit_notes(alloc: Global, files: &InputFiles) -> Result<Vec<u8>, AllocError> {
    let mut text = Vec::new(alloc);
    if files.is_short() {
        return Ok(text);
    }
    let mut connections = Vec::new(alloc);
    if let Some(told) = told_of(alloc, files) {
        let mut doubts = String::new(alloc);
        add_doubts(&mut doubts, &told)?;
        add_ends(&mut doubts, &told)?;
        text.extend_from_slice(doubts.as_bytes())?;
        connections = contact_connections(alloc, &told)?;
    }
    add_audit(alloc, &mut text, files, connections.as_slice())?;
    Ok(text)
}

/// In which feature the record of these files is not of their program, and in what, as `write_other_program` says it; nothing if it is, or
/// if memory ran out for their texts. Fails only if out of memory.
pub fn other_program_notes(alloc: Global, files: &InputFiles) -> Result<Vec<u8>, AllocError> {
    let mut text = Vec::new(alloc);
    if files.is_short() {
        return Ok(text);
    }
    if let Some(program) = program_of(alloc, files) {
        if let Some(record) = record_of(alloc, files) {
            write_other_program(&mut text, &record, &program)?;
        }
    }
    Ok(text)
}
