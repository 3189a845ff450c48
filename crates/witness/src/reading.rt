// What each line is.

ghost use Rattle.std.specs.Prelude.{◌≡◌, map, IfOk};
ghost use Rattle.witness.specs.JudgementNames.{Point, command_of, response_of};
ghost use Rattle.witness.specs.JudgedLines as spec;

use crate::asking::only_asks;
use crate::judged_lines::{Data, Heard, Reply, Sent, Severity};
use dme_line::{LineFault, MarkSlice, cut_response, read_command, read_homed, read_point};
use line_framing::Line;
use std::alloc::{AllocError, Global};

/// What a line of the client is, given without its end. Fails only if out of memory.
#[tactic(auto, using(crate::proofs::Readings::one_command))]
fn sent_of(alloc: Global, line: &[u8]) -> Result<Sent, AllocError>
    ensures { IfOk result (λ sent. sent ≡ spec.sent_of line.now) }
{
    match read_command(alloc, line)? {
        Ok((tag, command)) => Ok(Sent::Command(tag, command.kind())),
        Err(LineFault::NoTag) => Ok(Sent::Untagged),
        Err(LineFault::UnknownCommand(tag)) if only_asks(line) => Ok(Sent::Standard(tag)),
        Err(LineFault::UnknownCommand(tag)) => Ok(Sent::Unknown(tag)),
        Err(LineFault::BadArguments(tag, kind)) => Ok(Sent::Unread(tag, kind)),
    }
}

#[tactic(auto, using(crate::proofs::Readings::one_point, crate::proofs::Readings::one_homed))]
fn data_of(text: &[u8]) -> Data
    ensures { result ≡ spec.data_of text.now }
{
    match (read_point(text), read_homed(text)) {
        (Ok(_), _) => Data::Point,
        (Err(_), Ok(_)) => Data::Homed,
        (Err(_), Err(_)) => Data::Other,
    }
}

/// What a line of the server is, given without its end.
#[tactic(auto, using(crate::proofs::Readings::one_response))]
fn heard_of(line: &[u8]) -> Heard
    ensures { result ≡ spec.heard_of line.now }
{
    let Ok(response) = cut_response(line) else {
        return Heard::Other;
    };
    let reply = match response.mark {
        MarkSlice::Ack => Reply::Received,
        MarkSlice::Given(text) => Reply::Given(data_of(text)),
        MarkSlice::Done => Reply::Complete,
        MarkSlice::Error(text) if text.starts_with(b"Error(3,") => Reply::Error(Severity::Three),
        MarkSlice::Error(_) => Reply::Error(Severity::Other),
    };
    Heard::Response(response.tag, reply)
}

pub(crate) fn sent_lines(alloc: Global, lines: &[Line]) -> Result<Vec<Sent>, AllocError>
    ensures { IfOk result (λ all. all.items ≡ map spec.sent_of lines.now) }
{
    let mut all = Vec::with_capacity(alloc, lines.len())?;
    for line in lines {
        all.push(sent_of(alloc, line.as_slice())?)?;
    }
    Ok(all)
}

pub(crate) fn heard_lines(alloc: Global, lines: &[Line]) -> Result<Vec<Heard>, AllocError>
    ensures { IfOk result (λ all. all.items ≡ map spec.heard_of lines.now) }
{
    lines
        .iter()
        .map(|line| heard_of(line.as_slice()))
        .collect(alloc)
}
