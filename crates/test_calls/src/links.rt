// Turns and runs over ports in memory.
//
// A row says what it asks for, and after ` < ` what comes in. It asks by words with numbers: `least` and `bound` of a turn, `read` and
// `write` for the call that fails on either side's port, `takes` for the most bytes that go out at once; in a loop these are the client's
// ports. What comes in is one piece, or `all` pieces that the program's part has: `replies NAME` for a client and `commands NAME` for a
// server. It shows what the call answers, the side's state after it, the lines that went out, and the features.
//
// If a row asks for `again`, a call for which memory is short is made again. A side has then left its connection, and keeps what it holds:
// this may lack some of what it measured or did until then. So it first comes to the next connection, and continues from there; if
// everything was measured, what comes in is that of `last replies NAME` and `last commands NAME`.

use crate::fresh::{BothTask, Made, Task, push_both, push_new};
use crate::shown::{lined, push_answer, push_features, push_lines};
use crate::stop::{Pushed, Stop};
use crate::tried::{Called, Tries};
use crate::{hostile, server};
use byte_ports::{Pieces, Ports, Takes};
use client_core::Client;
use contact_ledger::Feature;
use link_world::{
    LoopPorts, Simulated, Watcher, client_turns, loop_link, run_link, serve_link, serve_turns,
};
use server_core::Server;
use std::alloc::Global;
use std::io::Write;

/// A call over new ports: its word, words with numbers on the client's ports, or the server's where there is no client, and what comes in.
#[derive(Clone, Copy)]
struct Call<'a> {
    word: &'a str,
    words: &'a str,
    made: Made<'a>,
}

impl Call<'_> {
    /// The number of a word; another one if the row does not have it.
    fn number(&self, word: &str, other: usize) -> Result<usize, Stop> {
        for pair in self.words.split(", ") {
            if let Some((asked, number)) = pair.split_once(" ")
                && asked == word
            {
                return number.parse().ok().ok_or(Stop::Row);
            }
        }
        Ok(other)
    }

    /// New ports, into which these pieces come, one a line.
    fn ports(&self, alloc: Global, pieces: &str) -> Result<(Pieces, Takes), Stop> {
        let mut source = match self.number("read", 0)? {
            0 => Pieces::new(alloc),
            call => Pieces::failing_at(alloc, call as u64),
        };
        for piece in pieces.lines() {
            source.add(lined(alloc, piece)?.as_slice())?;
        }
        let most = self.number("takes", 1_000)?.max(1);
        let sink = match self.number("write", 0)? {
            0 => Takes::new(alloc, most),
            call => Takes::failing_at(alloc, most, call as u64),
        };
        Ok((source, sink))
    }

    /// Whether its call is made again if memory is short for it.
    fn is_made_again(&self) -> Result<bool, Stop> {
        Ok(self.number("again", 0)? > 0)
    }
}

// ---- what is shown

/// The state of a client, these lines, and the first of its features.
fn push_left(out: &mut Vec<u8>, client: &Client, lines: &[u8], count: usize) -> Pushed {
    let connection = if client.is_on() { "on" } else { "off" };
    write!(out, " {:?} {connection}: ", client.state())?;
    push_lines(out, lines)?;
    match client.features().get(..count) {
        Some(first) => push_features(out, first),
        None => Err(Stop::Changed),
    }
}

/// Whether a server takes bytes, as it does on a connection; and what went out.
fn push_served(out: &mut Vec<u8>, server: &mut Server, output: &Takes) -> Pushed {
    let is_on = server.feed(b"").is_ok();
    write!(out, "{}", if is_on { " on: " } else { " off: " })?;
    Ok(push_lines(out, output.taken())?)
}

/// A watcher that keeps nothing.
#[derive(Clone, Copy, Debug)]
struct Unwatched;

impl Watcher for Unwatched {
    ghost use Rattle.std.specs.Prelude.{None};

    ghost told = { λ _. None };

    fn completed(&mut self, _number: usize, _feature: &Feature) {}

    fn turned(&mut self, _client: &Client) {}
}

// ---- calls, each on a connection of its own

/// A client, a server or both, of which a call is made.
trait Side {
    /// What all readers answer, but for what may be measured or done until memory is short; the client has held this many features before.
    fn push_kept(&self, out: &mut Vec<u8>, held: usize) -> Pushed;

    /// How many features the client holds.
    fn held(&self) -> usize;

    /// It comes to the connection of this number, and shows what the call answers and leaves.
    fn call(&mut self, out: &mut Vec<u8>, call: &Call<'_>, number: u64) -> Pushed;
}

impl Side for Client {
    fn push_kept(&self, out: &mut Vec<u8>, held: usize) -> Pushed {
        push_left(out, self, self.out(), held)
    }

    fn held(&self) -> usize {
        self.features().len()
    }

    fn call(&mut self, out: &mut Vec<u8>, call: &Call<'_>, number: u64) -> Pushed {
        self.connected(number)?;
        let (mut source, mut sink) = call.ports(*out.allocator(), call.made.replies)?;
        if call.word == "turns" {
            let (least, bound) = (call.number("least", 1)?, call.number("bound", 1_000)?);
            let answer = client_turns(self, &mut source, &mut sink, least, bound as u64);
            push_answer(out, &answer)?;
        } else {
            push_answer(out, &run_link(self, &mut source, &mut sink))?;
        }
        let held = self.held();
        push_left(out, self, sink.taken(), held)
    }
}

impl Side for Server {
    fn push_kept(&self, out: &mut Vec<u8>, _held: usize) -> Pushed {
        hostile::push_server(out, self)
    }

    fn held(&self) -> usize {
        0
    }

    fn call(&mut self, out: &mut Vec<u8>, call: &Call<'_>, number: u64) -> Pushed {
        self.accept(number)?;
        let (mut source, mut sink) = call.ports(*out.allocator(), call.made.commands)?;
        let mut machine = Simulated::new(*out.allocator(), self.setup())?;
        if call.word == "serves" {
            let (least, bound) = (call.number("least", 1)?, call.number("bound", 1_000)?);
            let (from, to, bound) = (&mut source, &mut sink, bound as u64);
            let answer = serve_turns(self, &mut machine, from, to, least, bound);
            push_answer(out, &answer)?;
        } else {
            let answer = serve_link(self, &mut machine, &mut source, &mut sink);
            push_answer(out, &answer)?;
        }
        push_served(out, self, &sink)
    }
}

/// Both sides; the server's ports take and give all at once.
#[derive(Drop)]
struct Both<'c, 's> {
    client: &'c mut Client,
    server: &'s mut Server,
}

impl Side for Both<'_, '_> {
    /// Also whether the machine is homed, on which connection the server is, and its first act.
    fn push_kept(&self, out: &mut Vec<u8>, held: usize) -> Pushed {
        push_left(out, self.client, self.client.out(), held)?;
        let view = self.server.view();
        write!(out, "{:?}", (view.homed, view.connection))?;
        Ok(write!(out, "{:?}", self.server.ledger().acts().first())?)
    }

    fn held(&self) -> usize {
        self.client.features().len()
    }

    fn call(&mut self, out: &mut Vec<u8>, call: &Call<'_>, number: u64) -> Pushed {
        self.client.connected(number)?;
        self.server.accept(number)?;
        let alloc = *out.allocator();
        let (source, sink) = call.ports(alloc, call.made.replies)?;
        let client = Ports { source, sink };
        let plain = Call { words: "", ..*call };
        let (source, sink) = plain.ports(alloc, call.made.commands)?;
        let server = Ports { source, sink };
        let mut ports = LoopPorts { client, server };
        let mut machine = Simulated::new(alloc, self.server.setup())?;
        let answer = loop_link(
            self.client,
            self.server,
            &mut machine,
            &mut ports,
            &mut Unwatched,
        );
        push_answer(out, &answer)?;
        let held = self.held();
        push_left(out, self.client, ports.client.sink.taken(), held)?;
        push_served(out, self.server, &ports.server.sink)
    }
}

/// Calls of a side: the number of its last connection, how many features the client held before, and what the last call has shown.
#[derive(Drop)]
struct Calling<'a, S> {
    side: &'a mut S,
    last: u64,
    held: usize,
    shown: Vec<u8>,
}

/// What an answer of either side begins with.
fn begins(shown: &[u8], answer: &[u8]) -> bool {
    let inner = match shown.split_at_checked(7) {
        Some((b"Client(" | b"Server(", inner)) => inner,
        _ => shown,
    };
    inner.starts_with(answer)
}

impl<S: Side> Called<Call<'_>, Stop> for Calling<'_, S> {
    fn push_all(&self, out: &mut Vec<u8>) -> Pushed {
        self.side.push_kept(out, self.held)
    }

    /// The call on the next connection. A port that fails has no memory for what goes out.
    fn make(&mut self, call: &Call<'_>) -> Result<bool, Stop> {
        self.last = self.last.saturating_add(1);
        self.shown = Vec::new(*self.shown.allocator());
        let is_last = self.side.held() > self.held;
        let call = if is_last { call.last() } else { *call };
        self.side.call(&mut self.shown, &call, self.last)?;
        match call.is_made_again()? {
            true if begins(self.shown.as_slice(), b"Memory") => Err(Stop::Refused),
            true if begins(self.shown.as_slice(), b"WriteFailed") => Err(Stop::Memory),
            _ => Ok(true),
        }
    }
}

impl Call<'_> {
    /// Likewise if everything was measured.
    fn last(&self) -> Self {
        let made = Made {
            replies: self.made.last_replies,
            commands: self.made.last_commands,
            ..self.made
        };
        Call { made, ..*self }
    }

    /// Makes it of a side, after the connection of this number, and appends what it shows. It is made again if the row asks for that.
    fn push_made<S: Side>(&self, out: &mut Vec<u8>, side: &mut S, last: u64) -> Pushed {
        let alloc = *out.allocator();
        let held = side.held();
        let mut calling = Calling {
            side,
            last,
            held,
            shown: Vec::new(alloc),
        };
        let mut tries = Tries::new(alloc, self.is_made_again()?);
        let done = tries.call(&mut calling, Stop::Refused, self);
        tries.push(out)?;
        done?;
        Ok(out.extend_from_slice(calling.shown.as_slice())?)
    }
}

impl<S: Side> Task<S> for Call<'_> {
    fn push(&mut self, out: &mut Vec<u8>, side: &mut S) -> Pushed {
        self.push_made(out, side, 0)
    }
}

/// What homes the machine.
const HOMED: &str = "accept 1 / 00001 StartSession() / turn / 00002 Home() / turn / done / leave";

impl BothTask for Call<'_> {
    /// If it is made again, the machine is homed.
    fn push_both(
        &mut self,
        out: &mut Vec<u8>,
        (client, server): (&mut Client, &mut Server),
    ) -> Pushed {
        let mut last = 0u64;
        if self.is_made_again()? {
            server::call_all(*out.allocator(), server, HOMED)?;
            last = 1;
        }
        self.push_made(out, &mut Both { client, server }, last)
    }
}

/// What a row of ports shows: a turn or a run of a client or a server, or a loop.
pub(crate) fn push_row<'a>(
    out: &mut Vec<u8>,
    mut made: Made<'a>,
    (word, row): (&'a str, &'a str),
) -> Pushed {
    let (words, given) = row.split_once(" < ").ok_or(Stop::Row)?;
    match word {
        "serves" | "connections" => made.commands = given,
        _ if given != "all" => made.replies = given,
        _ => {}
    }
    let mut call = Call { word, words, made };
    match word {
        "loops" => push_both(out, made, &mut call),
        "turns" | "runs" => push_new::<Client, _>(out, made, &mut call),
        _ => push_new::<Server, _>(out, made, &mut call),
    }
}
