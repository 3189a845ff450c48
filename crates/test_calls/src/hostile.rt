// Arbitrary bytes, given to either end in pieces of 1, 7 and 200 bytes.
//
// A row of `client_cuts NAME W` and `server_cuts` has the actions before, and after ` | ` the bytes in hex. It shows where the three cuts
// leave the end, if all leave it alike: how many lines it has read, why it reads no more, its state, what it has written, and what it
// keeps. A row of `both_cuts NAME W` has the count of commands that both ends have completed, the client's bytes and the server's. After
// those bytes the server works and the client reads what it has written; then both leave, and are driven to the end on another connection.

use crate::both::Both;
use crate::fresh::{BothTask, Made, Task, push_both, push_new, read_program};
use crate::shown::{push_acts, push_entries, push_features, push_lines};
use crate::stop::{Pushed, Stop};
use crate::tried::{Call, Called};
use crate::{client, server};
use client_core::Client;
use ledger_audit::{Verdict, audit};
use server_core::Server;
use std::fmt::Debug;
use std::io::Write;

/// What a row gives to a client, a server or both, in pieces of this size: what happens before, the bytes of one end, and if both get some,
/// those of the server.
#[derive(Clone, Copy)]
struct Cut<'a> {
    made: Made<'a>,
    before: &'a str,
    bytes: &'a [u8],
    others: &'a [u8],
    size: usize,
}

/// An end takes a piece and reads all lines; they are counted. Each ends with a byte of the piece.
fn read_piece<'a, F, E: Called<Call<'a>, F>>(
    end: &mut E,
    piece: &'a [u8],
    lines: &mut u64,
) -> Result<(), F> {
    end.make(&Call::Feed(piece))?;
    for _ in 0..piece.len() {
        if !end.make(&Call::Read)? {
            return Ok(());
        }
        *lines = lines.saturating_add(1);
    }
    Ok(())
}

/// An end takes bytes in pieces: how many lines it has read of them, and why no more.
fn push_read<'a, F: Debug + Drop, E: Called<Call<'a>, F>>(
    out: &mut Vec<u8>,
    end: &mut E,
    (bytes, size): (&'a [u8], usize),
) -> Pushed {
    let mut lines = 0u64;
    let mut answer = Ok(());
    for piece in bytes.chunks(size.max(1)) {
        if answer.is_ok() {
            answer = read_piece(end, piece, &mut lines);
        }
    }
    write!(out, "{lines} lines ")?;
    if let Err(fault) = answer {
        write!(out, "{fault:?} ")?;
    }
    Ok(())
}

/// The state of a client, what it has written, and what it keeps.
pub(crate) fn push_client(out: &mut Vec<u8>, client: &Client) -> Pushed {
    let (state, open, completed) = (client.state(), client.open(), client.completed());
    write!(out, "{state:?} {open} open {completed} completed: ")?;
    push_lines(out, client.out())?;
    push_acts(out, client.counted())?;
    push_features(out, client.features())
}

/// Likewise for a server.
pub(crate) fn push_server(out: &mut Vec<u8>, server: &Server) -> Pushed {
    server::push_state(out, server)?;
    server::push_job(out, server)?;
    write!(out, ": ")?;
    push_lines(out, server.out())?;
    push_entries(out, server.ledger().acts())
}

fn push_ends(out: &mut Vec<u8>, both: &Both<'_, '_>) -> Pushed {
    push_client(out, both.client)?;
    push_server(out, both.server)
}

// ---- the three cuts

impl Task<Client> for Cut<'_> {
    fn push(&mut self, out: &mut Vec<u8>, client: &mut Client) -> Pushed {
        client::call_all(*out.allocator(), client, self.before)?;
        push_read(out, client, (self.bytes, self.size))?;
        push_client(out, client)
    }
}

impl Task<Server> for Cut<'_> {
    fn push(&mut self, out: &mut Vec<u8>, server: &mut Server) -> Pushed {
        server::call_all(*out.allocator(), server, self.before)?;
        push_read(out, server, (self.bytes, self.size))?;
        push_server(out, server)
    }
}

impl Cut<'_> {
    /// Both take their bytes, the server works, and the client reads what it has written; then both are driven to the end.
    fn drive(&self, out: &mut Vec<u8>, both: &mut Both<'_, '_>) -> Pushed {
        push_read(out, both.client, (self.bytes, self.size))?;
        push_read(out, both.server, (self.others, self.size))?;
        both.work()?;
        push_read(out, both.client, (both.server.out(), self.size))?;
        push_ends(out, both)?;
        both.run_on()
    }
}

impl BothTask for Cut<'_> {
    /// Both ends after a count of commands; at last whether the audit of what they keep answers RUNS.
    fn push_both(&mut self, out: &mut Vec<u8>, ends: (&mut Client, &mut Server)) -> Pushed {
        let alloc = *out.allocator();
        let (client, server) = ends;
        let mut both = Both::new(alloc, (&mut *client, &mut *server), self.before)?;
        self.drive(out, &mut both)?;
        push_ends(out, &both)?;
        drop(both);
        let program = read_program(alloc, self.made)?;
        let verdict = audit(alloc, &program, client.features(), server.ledger())?;
        match verdict {
            Verdict::Starts(_) => write!(out, "RUNS")?,
            Verdict::NoRun(_) => write!(out, "NONE")?,
        }
        Ok(())
    }
}

/// What all three cuts show, or those that differ.
fn push_cuts(out: &mut Vec<u8>, word: &str, cut: Cut<'_>) -> Pushed {
    for size in [1, 7, 200] {
        let mut shown = Vec::new(*out.allocator());
        let mut cut = Cut { size, ..cut };
        match word {
            "client_cuts" => push_new::<Client, _>(&mut shown, cut.made, &mut cut)?,
            "server_cuts" => push_new::<Server, _>(&mut shown, cut.made, &mut cut)?,
            _ => push_both(&mut shown, cut.made, &mut cut)?,
        }
        if shown.as_slice() != out.as_slice() {
            if !out.is_empty() {
                write!(out, " differs from ")?;
            }
            out.extend_from_slice(shown.as_slice())?;
        }
    }
    Ok(())
}

/// What the bytes of a row show.
pub(crate) fn push_row(out: &mut Vec<u8>, made: Made<'_>, (word, row): (&str, &str)) -> Pushed {
    let (before, texts) = row.split_once(" | ").ok_or(Stop::Row)?;
    let (bytes, others) = texts.split_once(" | ").unwrap_or((texts, ""));
    let alloc = *out.allocator();
    let bytes = hex::decode(alloc, bytes).ok().ok_or(Stop::Row)?;
    let others = hex::decode(alloc, others).ok().ok_or(Stop::Row)?;
    let cut = Cut {
        made,
        before,
        bytes: bytes.as_slice(),
        others: others.as_slice(),
        size: 1,
    };
    push_cuts(out, word, cut)
}
