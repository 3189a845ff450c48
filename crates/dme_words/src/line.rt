// The command line of `dme`, as the crate `clap` is given it: a table of its commands, each with its arguments.

ghost use Rattle.std.specs.Prelude.{◌≡◌, IfOk, false, fold};
ghost use Rattle.clap.specs.declared.builder.command.Command.TheViews.{out-Command};
ghost use Rattle.clap.specs.Words.{app_of, rule_of};
ghost use Rattle.dme_words.specs.CommandLine.{bare_line, first_line, text_rule, whole_line};
ghost use Rattle.dme_words.specs.Arguments.{argument_rule, with_argument, with_line};

use Argument::{Flag, Needed, Number, NumberOr, Text, Texts, Word, WordOr, Words};
use clap::builder::ValueParser;
use clap::{Arg, ArgAction, Command};
use std::alloc::{AllocError, Global};

/// The commands as a person meets them, each with its own first line of help.
const HELP: &str = "Runs DMIS inspection programs over the I++ DME interface

Usage: dme <COMMAND>

Before a run:
  review    Lists everything that stands between a DMIS program and its run
  lower     Writes the flat program that a DMIS program stands for
  check     Prints the I++ DME command lines of a DMIS program
  loop      Runs a DMIS program on a simulated machine over a connection to itself, and prints the report

At the machine:
  run       Runs a DMIS program on the machine of a server, and prints the report

After a run:
  audit     Says in which runs of the server's contacts the client's features were measured
  export    Prints how far the measured points of features lie from their nominal points
  report    Prints a page of a part, for a browser or a printer
  summary   Prints statistics over the parts of a batch, a record each

For makers of clients and servers:
  serve     Is the server of a simulated machine, and prints the contacts that it made
  simulate  Runs a DMIS program on a simulated machine, event by event, and prints the report
  watch     Stands between a client and a server, and writes what the server reports that it did
  ledger    Prints what a server told that it did, from the bytes of both ends
  judge     Shows which line of a client or a server first breaks a rule, from the bytes of both ends

Help:
  explain   Says what a refusal means and what to do about it
  help      Print this message or the help of the given subcommand(s)

Options:
  -h, --help  Print help";

/// An argument of a command: one row, with its name, what the help calls its value, and its line of help.
#[derive(Clone, Copy)]
enum Argument {
    /// `--NAME TEXT`.
    Text(&'static str, &'static str, &'static str),
    /// `--NAME TEXT`, which may be there several times.
    Texts(&'static str, &'static str, &'static str),
    /// `--NAME TEXT`, which must be named.
    Needed(&'static str, &'static str, &'static str),
    /// `--NAME N`, which must be named: a number from 1 to this.
    Number(&'static str, &'static str, u32, &'static str),
    /// `--NAME N`: a number from 1 to this, the second if none is named.
    NumberOr(&'static str, &'static str, u32, &'static str, &'static str),
    /// `--NAME`, which is set or not.
    Flag(&'static str, &'static str),
    /// A word by itself, which must be there.
    Word(&'static str, &'static str),
    /// A word by itself, the second if there is none.
    WordOr(&'static str, &'static str, &'static str),
    /// Words by themselves, of which one must be there.
    Words(&'static str, &'static str),
}

/// A command: its name, its line of help, and its arguments in their order.
#[derive(Clone, Copy)]
struct Line(&'static str, &'static str, &'static [Argument]);

/// As many connections as can be numbered.
const ALL: u32 = 4_000_000_000;

const SETUP_HELP: &str = "The machine's setup; - is standard input";

const RECORD_HELP: &str =
    "The record of a run, in place of features and contacts; - is standard input";

const LIMITS_HELP: &str =
    "The limits that the points are compared with, along the normal; - is standard input";

const WINDOW_HELP: &str = "How many commands may be open at once, from 1 to 16";

const HOST_HELP: &str = "The server's host, as a name or as an address";

const CONNECTIONS_HELP: &str =
    "How many connections are served, one after the other, from 1 to 4000000000";

const ENDLESS_HELP: &str = "Serves all connections that come, one after the other";

const UP_HELP: &str = "The bytes that the client sent; - is standard input";

const DOWN_HELP: &str = "The bytes that the server sent; - is standard input";

const TRACE_HELP: &str = "Shows on standard error each line that either side writes";

const LOG_HELP: &str = "The file that each line that either side writes is added to, with its time";

const TIMEOUT_HELP: &str =
    "How long the other end may be silent if something is due from it, from 1 to 86400";

const SEAL_KEY_HELP: &str = "The file of the key of the record's seals";

const EXPLAIN_HELP: &str = "Shows the line of a file that is refused, and what is wrong with it";

const SETUP: Argument = Text("setup", "FILE", SETUP_HELP);

const NEEDED_SETUP: Argument = Needed("setup", "FILE", SETUP_HELP);

const RECORD: Argument = Text("record", "FILE", RECORD_HELP);

const SEAL_KEY: Argument = Text("seal-key", "FILE", SEAL_KEY_HELP);

const HOST: Argument = Needed("host", "H", HOST_HELP);

const PORT: Argument = Number("port", "N", 65_535, "The server's port, from 1 to 65535");

const WINDOW: Argument = NumberOr("window", "W", 16, "1", WINDOW_HELP);

const ENDLESS: Argument = Flag("endless", ENDLESS_HELP);

const PROGRESS: Argument = Flag("progress", "Reports on standard error how far it is");

const TRACE: Argument = Flag("trace", TRACE_HELP);

const LOG: Argument = Text("log", "FILE", LOG_HELP);

const TIMEOUT: Argument = Text("timeout", "SECONDS", TIMEOUT_HELP);

const STOP: Argument = Text("stop", "FILE", "The file that ends it when it appears");

const EXPLAIN: Argument = Flag("explain", EXPLAIN_HELP);

const PROGRAM: Argument = WordOr("PROGRAM", "-", "The DMIS program; - is standard input");

const UP: Argument = Needed("up", "FILE", UP_HELP);

const DOWN: Argument = Needed("down", "FILE", DOWN_HELP);

/// A table of commands: each with its line of help, and a row for each argument.
macro_rules! lines {
    ($($name:literal: $about:literal { $($row:expr;)* })*) => {
        [$(Line($name, $about, &[$($row),*])),*]
    };
}

/// The commands.
const LINES: [Line; 6] = lines! {
    "check": "Prints the I++ DME command lines of a DMIS program" {
        SETUP; EXPLAIN; PROGRAM;
    }
    "simulate": "Runs a DMIS program on a simulated machine, event by event, and prints the report" {
        NEEDED_SETUP;
        Needed("schedule", "FILE", "The schedule of the link's events; - is standard input");
        WINDOW; TRACE; EXPLAIN; PROGRAM;
    }
    "audit": "Says in which runs of the server's contacts the client's features were measured" {
        SETUP;
        Text("features", "FILE", "The features that the client holds; - is standard input");
        Text("contacts", "FILE", "The contacts that the server made; - is standard input");
        RECORD; SEAL_KEY; EXPLAIN; PROGRAM;
    }
    "loop": "Runs a DMIS program on a simulated machine over a connection to itself, and prints the report" {
        NEEDED_SETUP; WINDOW; PROGRESS; TRACE; EXPLAIN; PROGRAM;
    }
    "serve": "Is the server of a simulated machine, and prints the contacts that it made" {
        NEEDED_SETUP;
        Text("listen", "ADDRESS", "The address that is listened on, 127.0.0.1 if none is named");
        Number("port", "N", 65_535, "The port that is listened on, from 1 to 65535");
        NumberOr("connections", "K", ALL, "1", CONNECTIONS_HELP);
        ENDLESS;
        Text("contacts", "FILE", "The file that the contacts are written to");
        PROGRESS; TRACE; LOG; TIMEOUT; STOP; EXPLAIN;
    }
    "run": "Runs a DMIS program on the machine of a server, and prints the report" {
        Text("machine", "FILE", "A file of what is the same every day: SETUP, HOST, PORT, TIMEOUT, WAIT, WINDOW, RECORDS, SEALKEY; \
            what is named here goes over it");
        NEEDED_SETUP; HOST; PORT; WINDOW;
        Text("features", "FILE", "The features that are there already, and the file that they are written to");
        Text("record", "FILE", "The record of the run: begun, or continued from what it holds");
        Text("records", "FOLDER", "The folder that the records of parts are kept in, each as PART.record");
        Text("part", "TEXT", "Which part is measured: 1 to 64 printable bytes, kept in the record");
        Text("operator", "TEXT", "Who operates the machine: 1 to 64 printable bytes. \
            The record then also has the program, the setup, the server and the times");
        SEAL_KEY;
        Text("contacts", "FILE", "The file that the contacts which the server reports are written to");
        PROGRESS; TRACE; LOG; TIMEOUT;
        Text("wait", "SECONDS", "How long it tries to connect, from 1 to 86400");
        STOP;
        Flag("confirm", "Shows what comes first, and waits for an empty line before anything moves");
        Flag("pause", "Waits at each text for the operator between features until an empty line is read");
        EXPLAIN; PROGRAM;
    }
};

/// The others.
const LATER_LINES: [Line; 9] = lines! {
    "explain": "Says what a refusal means and what to do about it" {
        Word("CODE", "The code of a refusal, as P5, or the number of a server's error, as 9012; in any letter case");
    }
    "export": "Prints how far the measured points of features lie from their nominal points" {
        Needed("as", "FORM", "The form that is printed: csv, comma-separated values; json; svg, a drawing; \
            of a record also features or contacts");
        SETUP;
        Text("features", "FILE", "The features that were measured; - is standard input");
        RECORD;
        Text("limits", "FILE", LIMITS_HELP);
        Text("separator", "SIGN", "What is between the fields of --as csv: ',', ';' or tab; a comma if none is named");
        Text("decimal", "SIGN", "What is before the decimals of --as csv: point or comma; a point if none is named");
        Flag("with-part", "Says in each row of a table its part, its program, and whether its point is missing");
        EXPLAIN; PROGRAM;
    }
    "review": "Lists everything that stands between a DMIS program and its run" {
        Text("as", "FORM", "The form that is printed: json, for other programs; lines if none is named");
        SETUP; PROGRAM;
    }
    "ledger": "Prints what a server told that it did, from the bytes of both ends" {
        UP; DOWN;
        NumberOr("connection", "N", ALL, "1", "The number of the connection, from 1 to 4000000000");
    }
    "judge": "Shows which line of a client or a server first breaks a rule, from the bytes of both ends" {
        UP; DOWN;
    }
    "watch": "Stands between a client and a server, and writes what the server reports that it did" {
        Number("listen", "PORT", 65_535, "The port of 127.0.0.1 that the client is to call, from 1 to 65535");
        HOST; PORT;
        Needed("told", "FILE", "The file that what the server reports is written to");
        Text("record-bytes", "FOLDER", "The folder that the bytes of each connection are kept in, as 1.up and 1.down");
        NumberOr("connections", "K", ALL, "4000000000", CONNECTIONS_HELP);
        ENDLESS; TRACE; LOG; TIMEOUT;
    }
    "lower": "Writes the flat program that a DMIS program stands for" {
        SETUP;
        Flag("no-clearing", "Leaves out statements on clearing: nothing moves between features by itself");
        Flag("compensated", "Says that the machine corrects for temperature");
        Flag("skip-manual", "Leaves out what the operator would measure, from MODE/MAN on");
        Flag("stored-frames", "Takes the frames of the setup for the alignments of their names");
        Flag("even-touches", "Gives inner circles and cylinders without touches even ones, each from the centre");
        Texts("value", "NAME=TEXT", "Answers NAME=PROMPT/.. with TEXT; one for each name");
        EXPLAIN; PROGRAM;
    }
    "report": "Prints a page of a part, for a browser or a printer" {
        Needed("record", "FILE", "The record of a run; - is standard input");
        SETUP;
        Text("limits", "FILE", LIMITS_HELP);
        SEAL_KEY; EXPLAIN; PROGRAM;
    }
    "summary": "Prints statistics over the parts of a batch, a record each" {
        Text("as", "FORM", "The form that is printed: text; csv, comma-separated values; html, a page; text if none is named");
        SETUP;
        Text("limits", "FILE", LIMITS_HELP);
        SEAL_KEY;
        Text("program", "FILE", "The DMIS program that was run; - is standard input, as if none is named");
        Words("RECORD", "The records of the runs, one for each part; - is standard input");
    }
};

/// `--NAME TEXT`.
fn text_argument<'a>(alloc: Global, name: &'a str, value: &'a str, help: &'a str) -> Arg<'a>
    ensures rule { rule_of result ≡ text_rule name.entry.now }
    ensures local { result.global ≡ false }
{
    Arg::new(alloc, name)
        .long(name)
        .value_name(value)
        .help(help)
}

/// What `clap` is given of an argument.
fn made_argument<'a>(alloc: Global, argument: Argument) -> Arg<'a>
    ensures rule { rule_of result ≡ argument_rule argument }
    ensures local { result.global ≡ false }
{
    match argument {
        Text(name, value, help) => text_argument(alloc, name, value, help),
        Texts(name, value, help) => {
            text_argument(alloc, name, value, help).action(ArgAction::Append)
        }
        Needed(name, value, help) => text_argument(alloc, name, value, help).required(true),
        Number(name, value, most, help) => text_argument(alloc, name, value, help)
            .value_parser(ValueParser::signed(1, i64::from(most)))
            .required(true),
        NumberOr(name, value, most, usual, help) => text_argument(alloc, name, value, help)
            .value_parser(ValueParser::signed(1, i64::from(most)))
            .default_value(usual),
        Flag(name, help) => Arg::new(alloc, name)
            .long(name)
            .help(help)
            .action(ArgAction::SetTrue),
        Word(name, help) => Arg::new(alloc, name).help(help).required(true),
        WordOr(name, usual, help) => Arg::new(alloc, name).help(help).default_value(usual),
        Words(name, help) => Arg::new(alloc, name)
            .help(help)
            .action(ArgAction::Append)
            .required(true),
    }
}

fn with_argument<'a>(
    alloc: Global,
    command: Command<'a>,
    argument: Argument,
) -> Result<Command<'a>, AllocError>
    requires command { (out-Command command).has_globals ≡ false }
    ensures shape { IfOk result (λ made. app_of made
        ≡ with_argument (app_of command.entry) argument) }
    ensures local { IfOk result (λ made. (out-Command made).has_globals ≡ false) }
{
    command.arg(made_argument(alloc, argument))
}

fn with_arguments<'a>(
    alloc: Global,
    command: Command<'a>,
    arguments: &[Argument],
) -> Result<Command<'a>, AllocError>
    requires command { (out-Command command).has_globals ≡ false }
    ensures shape { IfOk result (λ made. app_of made
        ≡ fold with_argument (app_of command.entry) arguments.now) }
    ensures local { IfOk result (λ made. (out-Command made).has_globals ≡ false) }
{
    let mut command = command;
    for argument in arguments {
        command = with_argument(alloc, command, *argument)?;
    }
    Ok(command)
}

fn with_line<'a>(alloc: Global, command: Command<'a>, line: Line) -> Result<Command<'a>, AllocError>
    requires command { (out-Command command).has_globals ≡ false }
    ensures shape { IfOk result (λ made. app_of made ≡ with_line (app_of command.entry) line) }
    ensures local { IfOk result (λ made. (out-Command made).has_globals ≡ false) }
{
    let order = Command::new(alloc, line.0).about(line.1);
    command.subcommand(with_arguments(alloc, order, line.2)?)
}

fn with_lines<'a>(
    alloc: Global,
    command: Command<'a>,
    lines: &[Line],
) -> Result<Command<'a>, AllocError>
    requires command { (out-Command command).has_globals ≡ false }
    ensures shape { IfOk result (λ made. app_of made
        ≡ fold with_line (app_of command.entry) lines.now) }
    ensures local { IfOk result (λ made. (out-Command made).has_globals ≡ false) }
{
    let mut command = command;
    for line in lines {
        command = with_line(alloc, command, *line)?;
    }
    Ok(command)
}

/// `dme`, without its subcommands.
fn bare_command<'a>(alloc: Global) -> Command<'a>
    ensures shape { app_of result ≡ bare_line }
    ensures local { (out-Command result).has_globals ≡ false }
{
    Command::new(alloc, "dme")
        .about("Runs DMIS inspection programs over the I++ DME interface")
        .override_help(HELP)
        .subcommand_required(true)
}

/// The first commands.
fn first_lines() -> &'static [Line]
    ensures { fold with_line bare_line result.now ≡ first_line }
{
    &LINES
}

/// The others.
fn later_lines() -> &'static [Line]
    ensures { fold with_line first_line result.now ≡ whole_line }
{
    &LATER_LINES
}

/// `dme COMMAND ..`.
pub(crate) fn whole_command<'a>(alloc: Global) -> Result<Command<'a>, AllocError>
    ensures shape { IfOk result (λ command. app_of command ≡ whole_line) }
    ensures local { IfOk result (λ command. (out-Command command).has_globals ≡ false) }
{
    let command = with_lines(alloc, bare_command(alloc), first_lines())?;
    with_lines(alloc, command, later_lines())
}
