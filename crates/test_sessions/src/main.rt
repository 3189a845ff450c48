//! Plays a run, a service and perhaps a relay against one another in memory: one effect of one of them is answered in another way, or is its
//! last; then the same call is made again. It reads plays from standard input, and writes what is left after each call: how each has
//! ended, how many effects it had, what it has said and printed; and each file. `tests/played.py` makes thousands of plays and judges them.
//!
//! The input has parts, each after a head in brackets: `setup`, `program`, and `plays`. A line of these is `direct` or, with a relay,
//! `through`; then for each call but the last, which nothing disturbs, `WHO NUMBER HOW LEFT`, with a `;` between two: whose effect of this
//! number is disturbed (`run`, `serve`, `watch`), how (`kill`, or the answer), and how many bytes are left of what was not forced.
//!
//! - `files`, `wires`: the outside in memory
//! - `hands`: what each end has open there, and how each effect is carried out
//! - `plays`: a play
//! - `ends`: the sessions of both ends and the relay
#![tactic(auto)]

mod ends;
mod files;
mod hands;
mod plays;
mod wires;

use byte_ports::{Reading, Writing, pull_all, push_all};
use effects::{Answer, Cause};
use plays::{Texts, push_row};
use std::alloc::{AllocError, Global};
use std::io;
use std::process::ExitCode;

/// One of the three.
#[derive(Clone, Copy, PartialEq, Eq)]
pub(crate) enum Who {
    Run,
    Serve,
    Watch,
}

/// What comes of an effect, but for its bytes.
#[derive(Clone, Copy)]
pub(crate) enum Kind {
    /// It has to wait.
    Waits,
    Done,
    Bytes,
    End,
    Missing,
    Found,
    Nothing,
    At(u64),
    Took(usize),
    Failed(Cause),
    Short,
}

impl Kind {
    /// Nothing has come; it waits unless it waits no longer.
    pub(crate) fn waits(is_over: bool) -> Kind {
        if is_over { Kind::Nothing } else { Kind::Waits }
    }

    /// Whether a file that grows stands.
    pub(crate) fn stands(is_so: bool) -> Kind {
        if is_so {
            Kind::Done
        } else {
            Kind::Failed(Cause::Renamed)
        }
    }

    pub(crate) fn answer(self, bytes: &[u8]) -> Answer<'_> {
        match self {
            Kind::Waits | Kind::Nothing => Answer::Nothing,
            Kind::Done => Answer::Done,
            Kind::Bytes => Answer::Bytes(bytes),
            Kind::End => Answer::End,
            Kind::Missing => Answer::Missing,
            Kind::Found => Answer::Found,
            Kind::At(ms) => Answer::At(ms),
            Kind::Took(count) => Answer::Took(count),
            Kind::Failed(why) => Answer::Failed(why),
            Kind::Short => Answer::Short,
        }
    }
}

/// Why it ends early.
#[derive(Clone, Copy)]
pub(crate) enum Stop {
    /// A line is no play, or a text is refused.
    Row,
    Port,
    Memory,
}

impl From<AllocError> for Stop {
    fn from(_error: AllocError) -> Stop {
        Stop::Memory
    }
}

/// Only memory is written to by `write!`.
impl From<io::Error> for Stop {
    fn from(_error: io::Error) -> Stop {
        Stop::Memory
    }
}

/// The text of the part with this head.
fn part<'a>(input: &'a str, head: &str) -> Result<&'a str, Stop> {
    for piece in input.split("[") {
        if let Some((title, text)) = piece.split_once("]\n")
            && title == head
        {
            return Ok(text);
        }
    }
    Err(Stop::Row)
}

fn write<R: Print>(rt: &R, bytes: &[u8]) -> Result<(), Stop> {
    let mut sink = Writing::new(io::writer(rt));
    push_all(&mut sink, bytes).ok().ok_or(Stop::Port)
}

fn run<R: Input + Print + AllocGlobal>(rt: &R) -> Result<(), Stop> {
    let alloc: Global = rt.alloc();
    let mut source = Reading::new(rt.reader());
    let input = pull_all(alloc, &mut source, 1_000_000)
        .ok()
        .ok_or(Stop::Port)?;
    let text = str::from_utf8(input.as_slice()).ok().ok_or(Stop::Row)?;
    let texts = Texts {
        setup: part(text, "setup")?,
        program: part(text, "program")?,
    };
    for row in part(text, "plays")?.lines() {
        let mut out = Vec::new(alloc);
        push_row(&mut out, texts, row)?;
        write(rt, out.as_slice())?;
    }
    Ok(())
}

fn main(rt: HostRuntime) -> ExitCode {
    match run(&rt) {
        Ok(()) => ExitCode::from(0),
        Err(Stop::Memory) => ExitCode::from(4),
        Err(_) => ExitCode::from(1),
    }
}
