// What a run says last.

ghost use Rattle.std.specs.Prelude.{◌≡◌};
ghost use Rattle.order_parts.specs.LastLine.{feature_noun, halt_cause, stop_cause, kept_line, last_line, cause_words};

use client_core::State;
use std::fmt;

/// How a run has ended.
#[derive(Clone, Copy, Debug, PartialEq, Eq)]
pub enum RunEnding {
    /// The answer to its question was no confirmation: nothing has moved.
    NotConfirmed,
    /// The stop file was there before its connection: nothing was begun.
    NotBegun,
    /// It has left its client in this state; and in which state its client was when the stop file was seen, if it was.
    Left(State, Option<State>),
}

/// How many features of a run there are.
#[derive(Clone, Copy, Debug, PartialEq, Eq)]
pub struct Counts {
    /// Those that it had before it began.
    pub kept: usize,
    /// Those that are complete in the end.
    pub complete: usize,
    /// Those that its program asks for.
    pub asked: usize,
}

/// What kept a run from its end.
#[derive(Clone, Copy, Debug, PartialEq, Eq)]
pub enum StopCause {
    /// An error that its server answered.
    ServerError,
    /// The stop file.
    StopFile,
    /// The operator, who has not confirmed it.
    Operator,
    /// What the lines before say: a connection that broke off, a file, or memory.
    Shown,
}

/// The last line of a run.
#[derive(Clone, Copy, Debug, PartialEq, Eq)]
pub enum LastLine {
    /// It did not come to its end: what kept it from that, how many features are complete, and how many its program asks for.
    Stopped(StopCause, usize, usize),
    /// All features were kept before it began: their number.
    AllKept(usize),
}

/// What halted a run, by the state in which its client was when the stop file was seen.
fn halt_cause(seen: Option<State>) -> StopCause
    ensures { result ≡ halt_cause seen }
{
    match seen {
        Some(State::Running) => StopCause::StopFile,
        _ => StopCause::ServerError,
    }
}

/// What kept a run from its end, if anything did.
fn stop_cause(how: RunEnding) -> Option<StopCause>
    ensures { result ≡ stop_cause how }
{
    match how {
        RunEnding::NotConfirmed => Some(StopCause::Operator),
        RunEnding::NotBegun => Some(StopCause::StopFile),
        RunEnding::Left(State::Done, _) => None,
        RunEnding::Left(State::Halted, seen) => Some(halt_cause(seen)),
        RunEnding::Left(_, _) => Some(StopCause::Shown),
    }
}

/// What a run says that has come to its end.
fn kept_line(kept: usize, asked: usize) -> Option<LastLine>
    ensures { result ≡ kept_line kept asked }
{
    if asked == 0 {
        None
    } else if kept == asked {
        Some(LastLine::AllKept(asked))
    } else {
        None
    }
}

/// What a run says last: if it did not come to its end, by what it was stopped, how far it came and what to do next; if it measured nothing
/// because all features were kept before, that; else nothing.
pub fn last_line(how: RunEnding, counts: Counts) -> Option<LastLine>
    ensures { result ≡ last_line how counts }
{
    match stop_cause(how) {
        Some(why) => Some(LastLine::Stopped(why, counts.complete, counts.asked)),
        None => kept_line(counts.kept, counts.asked),
    }
}

/// Features are counted in words: one feature, two features.
pub fn feature_noun(count: usize) -> &'static str
    ensures { result.now ≡ feature_noun count }
{
    if count == 1 { "feature" } else { "features" }
}

/// By what a run was stopped, in words.
fn cause_words(why: StopCause) -> &'static str
    ensures { result.now ≡ cause_words why }
{
    match why {
        StopCause::ServerError => " by the server's error",
        StopCause::StopFile => " by the stop file",
        StopCause::Operator => " by the operator",
        StopCause::Shown => "",
    }
}

impl fmt::Display for LastLine {
    ghost use Rattle.std.specs.Prelude.{Some};
    ghost use Rattle.order_parts.specs.LastLine.{last_text};

    ghost output = { λ line. Some (last_text line) };

    fn fmt<W: fmt::Write>(&self, f: &mut fmt::Formatter<W>) -> fmt::Result {
        match self {
            LastLine::Stopped(why, complete, asked) => {
                let by = cause_words(*why);
                let noun = feature_noun(*asked);
                write!(
                    f,
                    "dme: stopped{by}: {complete} of {asked} {noun} complete. Remove the cause, then make the same call.\n"
                )
            }
            LastLine::AllKept(count) => {
                if *count == 1 {
                    return f.write_str(
                        "dme: the only feature was kept before: nothing was measured\n",
                    );
                }
                write!(
                    f,
                    "dme: all {count} features were kept before: nothing was measured\n"
                )
            }
        }
    }
}
