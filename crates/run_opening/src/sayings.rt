// What a run says before it connects: the features that it keeps, what comes next, and what its setup lacks.

use client_core::Client;
use contact_ledger::Feature;
use dmis_program::{Touch, Wanted};
use fixed_um::Frame;
use order_parts::{TextPlace, first_lines, kept_text};
use program_review::{Lack, Reading, Task, TaskLine, What, lacking_for};
use run_session::touches_of;
use std::alloc::{AllocError, Global};
use tool_rack::Setup;

/// The frame of the last of touches.
fn last_frame(touches: &[Touch]) -> Frame {
    match touches.last() {
        Some(touch) => touch.frame,
        None => Frame::Machine,
    }
}

/// A frame, as files have it.
fn frame_text(alloc: Global, frame: Frame) -> Result<String, AllocError> {
    match frame {
        Frame::Machine => String::from_str(alloc, "M"),
        Frame::Part(zero) => format!(in alloc; "P {zero}"),
    }
}

/// The line on a kept feature that was measured in another frame than that of its last touch; nothing if it was not.
fn frame_line(alloc: Global, feature: &Feature, wanted: &Wanted) -> Result<String, AllocError> {
    let frame = last_frame(wanted.touches.as_slice());
    let Some(origin) = feature.origin else {
        return Ok(String::new(alloc));
    };
    if origin.frame == frame {
        return Ok(String::new(alloc));
    }
    let label = &feature.label;
    let (is, asked) = (frame_text(alloc, origin.frame)?, frame_text(alloc, frame)?);
    format!(in alloc;
        "dme: feature {label} is kept, and is in another frame than the program asks for: {is}, not {asked}\n"
    )
}

/// How many features a file gives back, if it gives any, and which of them are in another frame than the program asks for.
pub(crate) fn kept_lines(
    alloc: Global,
    name: &str,
    features: &[Feature],
    wanted: &[Wanted],
) -> Result<String, AllocError> {
    if features.is_empty() {
        return Ok(String::new(alloc));
    }
    let mut text = kept_text(alloc, features.len(), wanted.len(), name)?;
    for at in 0..features.len().min(wanted.len()) {
        let line = frame_line(alloc, &features[at], &wanted[at])?;
        text.push_str(line.as_str())?;
    }
    Ok(text)
}

/// The line of the touch of a program with this number, from 0.
fn touch_line(tasks: &[TaskLine], number: usize) -> Option<u64> {
    let mut left = number;
    for task in tasks {
        if matches!(task.task, Task::Touch) {
            if left == 0 {
                return Some(task.line);
            }
            left -= 1;
        }
    }
    None
}

/// The first feature that is still to be measured, and its first touch, with that one's line, if it is known.
fn next_feature(
    alloc: Global,
    wanted: &[Wanted],
    held: usize,
    tasks: &[TaskLine],
) -> Result<String, AllocError> {
    let Some(next) = wanted.get(held) else {
        return String::from_str(alloc, "dme: no feature is left to be measured\n");
    };
    let label = &next.label;
    match touch_line(tasks, touches_of(&wanted[..held])) {
        Some(line) => format!(in alloc; "dme: next is feature {label}, touch 1, line {line}\n"),
        None => format!(in alloc; "dme: next is feature {label}, touch 1\n"),
    }
}

/// What comes next: the first feature that is still to be measured, and the commands up to its first touch.
pub(crate) fn next_lines(
    alloc: Global,
    client: &Client,
    tasks: &[TaskLine],
) -> Result<String, AllocError> {
    let wanted = client.program().features();
    let held = client.features().len().min(wanted.len());
    let mut text = next_feature(alloc, wanted, held, tasks)?;
    let lines = first_lines(alloc, client.program(), held)?;
    text.push_str("dme: it begins from where the probe stands, with\n")?;
    text.push_str(str::from_utf8(lines.as_slice()).unwrap_or(""))?;
    Ok(text)
}

/// The texts for the operator that come before the first touch.
pub(crate) fn text_lines(alloc: Global, places: &[TextPlace]) -> Result<String, AllocError> {
    let mut text = String::new(alloc);
    for place in places {
        if place.is_first {
            let (number, shown) = (place.line, &place.shown);
            let line = format!(in alloc; "dme: line {number}: {shown}\n")?;
            text.push_str(line.as_str())?;
        }
    }
    Ok(text)
}

/// Each line of a program that selects a tool which the rack of a setup lacks, or goes out of the machine's volume.
pub fn lacking_lines(
    alloc: Global,
    reading: &Reading,
    setup: &Setup,
    name: &str,
) -> Result<String, AllocError> {
    let statements = reading.statements.as_slice();
    let lacking = lacking_for(alloc, statements, setup.rack(), setup.frames())?;
    let mut lines = String::new(alloc);
    for remark in lacking.iter() {
        let number = remark.line;
        let line = match remark.what {
            What::Lack(Lack::Tool) => {
                format!(in alloc; "dme: line {number}: the rack of {name} lacks this tool\n")?
            }
            _ => format!(in alloc; "dme: line {number}: out of the machine's volume\n")?,
        };
        lines.push_str(line.as_str())?;
    }
    Ok(lines)
}
