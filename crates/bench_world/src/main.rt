//! Programs that are measured: many lines read through a framing buffer, many rounds of a move and a touch on a server, and a client that
//! is driven through a program of many touches, and the undisturbed run of such a program. Each prints what it has counted, and both ends a
//! sum over what they have seen; the scripts of `bench/` count its instructions.
//!
//! Its words are `wire commands` or `wire responses` with the count of lines and the bytes of a piece, `server` with the count of rounds,
//! or `client` or `quiet` with the count of touches, at most 9,900, and the window. `samples` runs a few of each: a test from bytes to
//! bytes.
//!
//! - `wire`, `server`, `client`, `quiet`: what is measured
//! - `values`: what all of them use, and why nothing is printed
#![tactic(auto)]

mod client;
mod quiet;
mod server;
mod values;
mod wire;

use std::alloc::Global;
use std::env::{self, Env};
use std::process::ExitCode;
use values::Stop;
use wire::Side;

/// A few of each, and both windows' ends.
const SAMPLES: [&str; 7] = [
    "wire commands 1000 7",
    "wire responses 1000 7",
    "server 500",
    "client 700 1",
    "client 700 16",
    "quiet 700 1",
    "quiet 700 16",
];

fn number(word: &str) -> Result<u64, Stop> {
    word.parse().map_err(|_| Stop::Words)
}

/// What is counted, in words.
fn counted(alloc: Global, what: &str, values: &[&str]) -> Result<String, Stop> {
    match (what, values) {
        ("wire", [name, lines, piece]) => {
            let piece = piece.parse().map_err(|_| Stop::Words)?;
            let count = wire::count_lines(alloc, Side::named(name)?, number(lines)?, piece)?;
            Ok(format!(in alloc; "{count} {name}")?)
        }
        ("server", [rounds]) => {
            let (count, sum) = server::rounds(alloc, number(rounds)?)?;
            Ok(format!(in alloc; "{count} contacts, sum {sum}")?)
        }
        ("client", [touches, window]) => {
            let window = window.parse().map_err(|_| Stop::Words)?;
            let (count, sum) = client::touches(alloc, number(touches)?, window)?;
            Ok(format!(in alloc; "{count} points, sum {sum}")?)
        }
        ("quiet", [touches, window]) => {
            let window = window.parse().map_err(|_| Stop::Words)?;
            let (count, turns, sum) = quiet::counts(alloc, number(touches)?, window)?;
            Ok(format!(in alloc; "{count} points, {turns} turns, sum {sum}")?)
        }
        _ => Err(Stop::Words),
    }
}

/// The words of a call, or of each sample.
fn print_words<R: Print>(rt: &R, alloc: Global, words: &[&str]) -> Result<(), Stop> {
    let [what, values @ ..] = words else {
        return Err(Stop::Words);
    };
    let line = counted(alloc, what, values)?;
    println!(rt; "{line}").map_err(|_| Stop::Refused)
}

fn run<R: Env + Print + AllocGlobal>(rt: &R) -> Result<(), Stop> {
    let given = env::args(rt).ok().ok_or(Stop::Memory)?;
    let given: Vec<String> = given.collect(rt.alloc())?;
    let mut words = Vec::new(rt.alloc());
    for word in given.as_slice().get(1..).unwrap_or(&[]) {
        words.push(word.as_str())?;
    }
    if words.as_slice() != ["samples"].as_slice() {
        return print_words(rt, rt.alloc(), words.as_slice());
    }
    for sample in SAMPLES {
        let words: Vec<&str> = sample.split(" ").collect(rt.alloc())?;
        print_words(rt, rt.alloc(), words.as_slice())?;
    }
    Ok(())
}

fn main(rt: HostRuntime) -> ExitCode {
    match run(&rt) {
        Ok(()) => ExitCode::from(0),
        Err(Stop::Words) => ExitCode::from(2),
        Err(Stop::Refused) => ExitCode::from(1),
        Err(Stop::Memory) => ExitCode::from(4),
    }
}
