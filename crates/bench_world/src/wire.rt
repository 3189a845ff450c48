// Reads many command lines or response lines through a framing buffer, in pieces of a set length.

use crate::values::{Stop, place};
use dme_line::{
    COMMAND_MAX, Command, LINE_END_LENGTH, Tag, read_command, read_response,
    write_command_reserved, write_complete_reserved, write_line_end_reserved,
    write_received_reserved,
};
use line_framing::{FramingFault, Lines};
use std::alloc::Global;

/// What is read.
#[derive(Clone, Copy)]
pub(crate) enum Side {
    Commands,
    Responses,
}

impl Side {
    pub(crate) fn named(word: &str) -> Result<Side, Stop> {
        match word {
            "commands" => Ok(Side::Commands),
            "responses" => Ok(Side::Responses),
            _ => Err(Stop::Words),
        }
    }
}

impl From<FramingFault> for Stop {
    fn from(_fault: FramingFault) -> Stop {
        Stop::Refused
    }
}

/// Appends line number `number`, with its end.
fn push_line(out: &mut Vec<u8>, side: Side, number: u64) -> Result<(), Stop> {
    let tag = Tag::Std((number % 9999 + 1) as u32);
    out.reserve(COMMAND_MAX + LINE_END_LENGTH)?;
    match side {
        Side::Commands => write_command_reserved(out, tag, &Command::GoTo(place(number))),
        Side::Responses => {
            if number % 2 == 0 {
                write_received_reserved(out, tag);
            } else {
                write_complete_reserved(out, tag);
            }
        }
    }
    write_line_end_reserved(out);
    Ok(())
}

fn read_line(alloc: Global, side: Side, line: &[u8]) -> Result<(), Stop> {
    let is_read = match side {
        Side::Commands => read_command(alloc, line)?.is_ok(),
        Side::Responses => read_response(alloc, line)?.is_ok(),
    };
    if is_read { Ok(()) } else { Err(Stop::Refused) }
}

/// Reads each whole line in place in the buffer, as both ends do, and answers how many there were.
fn read_lines(alloc: Global, side: Side, lines: &mut Lines) -> Result<u64, Stop> {
    for count in 0..u64::MAX {
        let Some(length) = lines.first_line()? else {
            return Ok(count);
        };
        read_line(alloc, side, &lines.rest()[..length])?;
        lines.drop_line(length);
    }
    Err(Stop::Refused)
}

/// Feeds bytes in pieces of this length, and answers how many lines were read.
fn read_pieces(
    alloc: Global,
    side: Side,
    lines: &mut Lines,
    pieces: (&[u8], usize),
) -> Result<u64, Stop> {
    let mut count = 0u64;
    for part in pieces.0.chunks(pieces.1.max(1)) {
        lines.feed(part)?;
        count = count.saturating_add(read_lines(alloc, side, lines)?);
    }
    Ok(count)
}

/// Writes that many lines, feeds them in pieces of this many bytes, and answers how many were read.
pub(crate) fn count_lines(
    alloc: Global,
    side: Side,
    wanted: u64,
    piece: usize,
) -> Result<u64, Stop> {
    let mut bytes = Vec::new(alloc);
    for number in 0..wanted {
        push_line(&mut bytes, side, number)?;
    }
    let mut lines = Lines::new(alloc);
    read_pieces(alloc, side, &mut lines, (bytes.as_slice(), piece))
}
