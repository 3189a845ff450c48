//! Texts that are read, and calls of a client and of a server, row by row: it reads actions from standard input, and writes each followed by
//! ` => ` and what it answers. The expected output is next to the input. It shows what no clause says: that the clauses mean the numerals,
//! names, lines and programs that a programmer of a measuring machine writes; that the calls succeed with memory, and what is left when it is
//! short; ports that fail; the texts that are written; arbitrary bytes; and worlds that are stopped. The rows are its input and not its text,
//! since the prover reads all that is text.
//!
//! The input has parts, each after a head in brackets. `program NAME`, `setup` and `held NAME` are texts that the other parts are made of; a
//! client of the program has the features `held` at its beginning. `client NAME W` is a client of a program with this window, `server` a
//! server of the setup and `world NAME W` a world, each through all rows of its part. In the others each row is independent. `numerals`,
//! `directions` and `names` are values, `commands`, `responses`, `points`, `errors` and `writes` lines of the interface or parts of them,
//! `pieces` what is fed to a framing buffer and `queues` what waits to be sent, with `/` between two pieces, `statements` and `programs` DMIS
//! texts, and `setups`, `schedules`, `features` and `contacts` texts of files. `values NAME` are calls of what both ends are made of,
//! `quiets NAME W` undisturbed runs, `client_cuts NAME W`, `server_cuts` and `both_cuts NAME W` arbitrary bytes, and `turns NAME W`,
//! `runs NAME W`, `loops NAME W`, `serves` and `connections` turns and runs over ports, into which the texts `replies NAME` and
//! `commands NAME` come. A line that begins with `-- ` says what the rows below it show. In a text `;` means LF, `|` CR, and `\` with two
//! hexadecimal digits any byte.
//!
//! `files NAME W` has a schedule, which is replaced by the features and contacts files that it leaves. `stops NAME W` has a schedule: the
//! world after each prefix of it is written as `front`, followed by each world that is stopped there in a way of `ways NAME` and brought to
//! its end by `ending NAME`, with the number of the way and its own number. A way is `once`, `features`, `up` or `down`, and instructions,
//! each followed by `;`, for one world, for each count of features that are held, or for each byte that waits; `*` is that number.
//! `plays NAME W` has events, each of which shows whether it happens; `show` shows the world, `files` its files. `tests/stopped.py` makes
//! thousands of worlds and checks them.
#![tactic(auto)]

mod both;
mod client;
mod ended;
mod events;
mod framing;
mod fresh;
mod fronts;
mod hostile;
mod links;
mod numerals;
mod parts;
mod played;
mod programs;
mod server;
mod shown;
mod statements;
mod stop;
mod texts;
mod tried;
mod values;
mod wire;

use byte_ports::{Reading, Writing, pull_all, push_all};
use std::io;
use std::process::ExitCode;
use stop::Stop;

fn run<R: Input + Print + AllocGlobal>(rt: &R) -> Result<(), Stop> {
    let mut source = Reading::new(rt.reader());
    let input = pull_all(rt.alloc(), &mut source, 1_000_000).map_err(|_| Stop::Port)?;
    let text = str::from_utf8(input.as_slice()).map_err(|_| Stop::Row)?;
    let answers = parts::answered(rt.alloc(), text)?;
    let mut sink = Writing::new(io::writer(rt));
    push_all(&mut sink, answers.as_slice()).map_err(|_| Stop::Port)
}

fn main(rt: HostRuntime) -> ExitCode {
    match run(&rt) {
        Ok(()) => ExitCode::from(0),
        Err(Stop::Memory) => ExitCode::from(4),
        Err(_) => ExitCode::from(1),
    }
}
