// What two recordings of a connection say of either end.

ghost use Rattle.std.specs.Prelude.{◌≡◌, ◌<◌, ◌^◌, IfOk};
ghost use Rattle.witness.specs.JudgementNames.{option_map, bytes_of};
ghost use Rattle.witness.specs.Judging as spec;

use crate::client::{Both, client_break};
use crate::counts::{client_counts, server_counts};
use crate::lines::Side;
use crate::orders::seen_lines;
use crate::reading::{heard_lines, sent_lines};
use crate::rules::{Found, Rule};
use crate::server::server_break;
use crate::witness::cut_lines;
use dme_line::Text;
use line_framing::{FramingFault, Line};
use std::alloc::{AllocError, Global};

/// A line that breaks a rule.
#[derive(Debug, Drop)]
pub struct Break {
    /// Its number, counted from 1.
    pub number: usize,
    pub rule: Rule,
    /// The line without its end; empty if the bytes there are not a line.
    pub line: Text,
}

/// What two recordings of a connection say of either end.
#[derive(Drop)]
pub struct Judgement {
    /// The first line of the client that breaks a rule.
    pub client: Option<Break>,
    /// The first line of the server that breaks a rule.
    pub server: Option<Break>,
    /// How many lines of the client have the name of each command, in the order of `KINDS`, and last how many have none of them.
    pub commands: Vec<usize>,
    /// How many lines of the server are of each mark: received, data, complete, error.
    pub marks: Vec<usize>,
}

/// The first break of an end: a line, or the bytes after all lines.
fn end_break(found: Option<Found>, count: usize, fault: Option<FramingFault>) -> Option<Found>
    requires { count < 2 ^ 63 }
    ensures { result ≡ spec.end_break found count fault }
{
    found.or(fault.map(|fault| Found {
        number: count + 1,
        rule: match fault {
            FramingFault::LineTooLong => Rule::LineTooLong,
            FramingFault::BadByte => Rule::BadByte,
        },
    }))
}

fn shown(alloc: Global, lines: &[Line], found: Option<Found>) -> Result<Option<Break>, AllocError>
    ensures { IfOk result (λ shown. shown ≡ option_map (spec.shown lines.now) found) }
{
    let Some(Found { number, rule }) = found else {
        return Ok(None);
    };
    let line = lines
        .get(number.saturating_sub(1))
        .map_or(b"".as_slice(), |line| line.as_slice());
    let line = Text::new(alloc, line)?;
    Ok(Some(Break { number, rule, line }))
}

/// What two recordings of one connection say of either end: the bytes that its client sent, and those that its server sent. The first line of
/// either end that breaks a rule, if one does, and how many lines of each sort there are. A line without its end is not read. The bytes came in
/// these pieces; without a piece, their order is not known. Fails only if out of memory.
pub fn judge(
    alloc: Global,
    up: &[u8],
    down: &[u8],
    pieces: &[(Side, u64)],
) -> Result<Judgement, AllocError>
    requires up { bytes_of Side.Client pieces.now < 2 ^ 63 }
    requires down { bytes_of Side.Server pieces.now < 2 ^ 63 }
    ensures { IfOk result (spec.IsJudged up.now down.now pieces.now) }
{
    let (up_lines, up_fault) = cut_lines(alloc, up)?;
    let (down_lines, down_fault) = cut_lines(alloc, down)?;
    let seen = seen_lines(alloc, pieces, up_lines.as_slice(), down_lines.as_slice())?;
    let sent = sent_lines(alloc, up_lines.as_slice())?;
    let heard = heard_lines(alloc, down_lines.as_slice())?;
    let (seen, sent, heard) = (seen.as_slice(), sent.as_slice(), heard.as_slice());
    let (course, server) = server_break(alloc, seen, sent, heard)?;
    let both = Both {
        seen,
        up: sent,
        down: heard,
        course: &course,
    };
    let client = client_break(alloc, both)?;
    let client = end_break(client, sent.len(), up_fault);
    let server = end_break(server, heard.len(), down_fault);
    Ok(Judgement {
        client: shown(alloc, up_lines.as_slice(), client)?,
        server: shown(alloc, down_lines.as_slice(), server)?,
        commands: client_counts(alloc, sent)?,
        marks: server_counts(alloc, heard)?,
    })
}
