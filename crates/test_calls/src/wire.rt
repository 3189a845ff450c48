// Lines of the interface, and texts of their parts.

ghost use Rattle.std.specs.Prelude.{IsTrue};
ghost use Rattle.dme_line.specs.Tags.{IsTag};

use crate::shown::push_visible;
use crate::stop::{Pushed, Stop};
use crate::tried::push_written;
use dme_line::{
    Kind, Mark, Response, Tag, Text, read_command, read_point, read_response, write_command,
    write_data, write_error, write_homed, write_homed_data, write_point, write_response,
};
use std::alloc::{AllocError, Global};
use std::io::Write;

/// The command of a line as it is written, or why it is not one.
pub(crate) fn push_command(out: &mut Vec<u8>, line: &[u8]) -> Pushed {
    match read_command(*out.allocator(), line) {
        Ok(Ok((tag, command))) => push_written(out, |text| write_command(text, tag, &command)),
        Ok(Err(fault)) => Ok(write!(out, "{fault:?}")?),
        Err(AllocError) => Err(Stop::Refused),
    }
}

fn push_mark(out: &mut Vec<u8>, mark: &Mark) -> Pushed {
    let (sign, text) = match mark {
        Mark::Ack => return Ok(out.push(b'&')?),
        Mark::Done => return Ok(out.push(b'%')?),
        Mark::Given(text) => (b'#', text),
        Mark::Error(text) => (b'!', text),
    };
    out.push(sign)?;
    push_visible(out, text.as_slice())
}

/// The tag, the mark and the text of the response of a line, or why it is not one.
pub(crate) fn push_response(out: &mut Vec<u8>, line: &[u8]) -> Pushed {
    match read_response(*out.allocator(), line) {
        Ok(Ok(response)) => {
            write!(out, "{:?} ", response.tag)?;
            push_mark(out, &response.mark)
        }
        Ok(Err(fault)) => Ok(write!(out, "{fault:?}")?),
        Err(AllocError) => Err(Stop::Refused),
    }
}

/// The point of a text as it is written, or why it is not one.
pub(crate) fn push_point(out: &mut Vec<u8>, text: &[u8]) -> Pushed {
    match read_point(text) {
        Ok(point) => push_written(out, |text| write_point(text, point)),
        Err(fault) => Ok(write!(out, "{fault:?}")?),
    }
}

/// The tag and the kind of a command line, or the tag alone of a response line.
fn named(alloc: Global, line: &str) -> Result<(Tag, Option<Kind>), Stop> {
    if let Ok((tag, command)) = read_command(alloc, line.as_bytes())? {
        return Ok((tag, Some(command.kind())));
    }
    match read_response(alloc, line.as_bytes())? {
        Ok(response) => Ok((response.tag, None)),
        Err(_) => Err(Stop::Row),
    }
}

/// Whether the number of a tag has four digits at most.
fn is_short(tag: Tag) -> bool
    ensures { IsTrue result → IsTag tag }
{
    match tag {
        Tag::Std(number) => number <= 9999,
        Tag::Event(number) => number <= 9999,
    }
}

/// The line of an error number for the command of a line, or for the tag of a response line.
pub(crate) fn push_error(out: &mut Vec<u8>, row: &str) -> Pushed {
    let (number, line) = row.split_once(" ").ok_or(Stop::Row)?;
    let number: u16 = number.parse().map_err(|_| Stop::Row)?;
    let (tag, kind) = named(*out.allocator(), line)?;
    if number < 9001 || number > 9015 || !is_short(tag) {
        return Err(Stop::Row);
    }
    push_written(out, |text| write_error(text, tag, number, kind))
}

/// A text that is made with these bytes.
fn push_copy(out: &mut Vec<u8>, bytes: &[u8]) -> Pushed {
    match Text::new(*out.allocator(), bytes) {
        Ok(text) => Ok(out.extend_from_slice(text.as_slice())?),
        Err(AllocError) => Err(Stop::Refused),
    }
}

/// What is written of a word and what follows it: a line under the eighth tag, or a part of one.
pub(crate) fn push_write(out: &mut Vec<u8>, row: &str) -> Pushed {
    let (word, rest) = row.split_once(" ").unwrap_or((row, ""));
    let (tag, mark) = (Tag::Std(8), Mark::Done);
    match word {
        "text" => push_copy(out, rest.as_bytes()),
        "data" => {
            let point = read_point(rest.as_bytes()).ok().ok_or(Stop::Row)?;
            push_written(out, |text| write_data(text, tag, point))
        }
        "homed_data" => push_written(out, |text| write_homed_data(text, tag, rest == "1")),
        "homed" => push_written(out, |text| write_homed(text, rest == "1")),
        "complete" => push_written(out, |text| write_response(text, &Response { tag, mark })),
        _ => Err(Stop::Row),
    }
}
