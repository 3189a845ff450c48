// What texts say: values, lines of the interface, DMIS statements and programs, setups, schedules, features and acts. What is read is
// written again where there is a writer.

use crate::shown::lined;
use crate::stop::{Pushed, Stop};
use crate::tried::push_written;
use crate::{framing, numerals, programs, statements, wire};
use contact_ledger::{read_contacts, read_features, write_contacts, write_features};
use fixed_um::Name;
use link_world::Schedule;
use std::alloc::Global;
use std::io::Write;
use tool_rack::Setup;

fn name(alloc: Global, text: &str) -> Result<Name, Stop> {
    Name::new(alloc, text.as_bytes())?.ok_or(Stop::Row)
}

/// Which of the tools P1, P2 and P9 the rack has; the zero points of the frames PART, P1 and P9; how many shifts there are, and those of
/// the first four contacts.
fn push_read_setup(out: &mut Vec<u8>, setup: &Setup) -> Pushed {
    let alloc = *out.allocator();
    for tool in ["p1", "P2", "P9"] {
        if setup.rack().has(&name(alloc, tool)?) {
            write!(out, "{tool} ")?;
        }
    }
    out.push(b';')?;
    for frame in ["part", "P1", "P9"] {
        if let Some(offset) = setup.frames().get(&name(alloc, frame)?) {
            write!(out, "{offset} ")?;
        }
    }
    write!(out, ";{} shifts", setup.shifts().len())?;
    for number in 0..4u64 {
        write!(out, " {}", setup.shift(number))?;
    }
    Ok(out.push(b';')?)
}

fn push_setup(out: &mut Vec<u8>, text: &[u8]) -> Pushed {
    match Setup::read(*out.allocator(), text) {
        Ok(setup) => push_read_setup(out, &setup),
        Err(fault) => Ok(write!(out, "{fault}")?),
    }
}

fn push_schedule(out: &mut Vec<u8>, text: &[u8]) -> Pushed {
    match Schedule::read(*out.allocator(), text) {
        Ok(schedule) => {
            for instruction in schedule.instructions() {
                write!(out, "{instruction:?};")?;
            }
        }
        Err(fault) => write!(out, "{fault}")?,
    }
    Ok(())
}

fn push_features(out: &mut Vec<u8>, text: &[u8]) -> Pushed {
    match read_features(*out.allocator(), text) {
        Ok(features) => push_written(out, |text| write_features(text, features.list())),
        Err(fault) => Ok(write!(out, "{fault}")?),
    }
}

fn push_contacts(out: &mut Vec<u8>, text: &[u8]) -> Pushed {
    match read_contacts(*out.allocator(), text) {
        Ok(ledger) => push_written(out, |text| write_contacts(text, &ledger)),
        Err(fault) => Ok(write!(out, "{fault}")?),
    }
}

/// What the bytes of a row show in a part of this word.
fn push_bytes(out: &mut Vec<u8>, word: &str, bytes: &[u8]) -> Pushed {
    match word {
        "numerals" => numerals::push_numeral(out, bytes),
        "names" => numerals::push_name(out, bytes),
        "commands" => wire::push_command(out, bytes),
        "responses" => wire::push_response(out, bytes),
        "points" => wire::push_point(out, bytes),
        "statements" => statements::push_statements(out, bytes),
        "programs" => programs::push_program(out, bytes),
        "setups" => push_setup(out, bytes),
        "schedules" => push_schedule(out, bytes),
        "features" => push_features(out, bytes),
        "contacts" => push_contacts(out, bytes),
        _ => Err(Stop::Row),
    }
}

/// What a row shows in a part of this word, or why it is refused.
pub(crate) fn push_row(out: &mut Vec<u8>, (word, row): (&str, &str)) -> Pushed {
    match word {
        "directions" => numerals::push_direction(out, row),
        "errors" => wire::push_error(out, row),
        "writes" => wire::push_write(out, row),
        "pieces" => framing::push_pieces(out, row),
        "queues" => framing::push_queue(out, row),
        _ => {
            let bytes = lined(*out.allocator(), row)?;
            push_bytes(out, word, bytes.as_slice())
        }
    }
}
