// The parts of the input.

use crate::fresh::{Made, Task, push_new};
use crate::fronts::push_fronts;
use crate::stop::{Pushed, Stop};
use crate::{ended, hostile, links, played, texts, values};
use client_core::Client;
use link_world::World;
use server_core::Server;
use std::alloc::Global;
use std::io::Write;

/// The text of the part whose head is this word followed by this name; empty if there is no such part.
fn named<'a>(input: &'a str, word: &str, name: &str) -> &'a str {
    for piece in input.split("[") {
        if let Some((title, text)) = piece.split_once("]\n")
            && title.strip_suffix(name) == Some(word)
        {
            return text;
        }
    }
    ""
}

// ---- rows

/// What the rows of a part ask.
pub(crate) trait Answers {
    /// Appends what a row shows.
    fn answer(&mut self, out: &mut Vec<u8>, row: &str) -> Pushed;
}

/// The answer of a row; or the words for a call that did not behave as required if memory was short for it.
fn push_once<A: Answers>(out: &mut Vec<u8>, asked: &mut A, row: &str) -> Pushed {
    let mut answer = Vec::new(*out.allocator());
    match asked.answer(&mut answer, row) {
        Ok(()) => out.extend_from_slice(answer.as_slice())?,
        Err(Stop::Changed) => write!(out, "changed")?,
        Err(Stop::ForEver) => write!(out, "refused for ever")?,
        Err(stop) => return Err(stop),
    }
    Ok(())
}

/// Likewise; a row is asked again, once, if memory was short for it.
fn push_answer<A: Answers>(out: &mut Vec<u8>, asked: &mut A, row: &str) -> Pushed {
    match push_once(out, asked, row) {
        Err(Stop::Refused) => write!(out, "refused, as before; ")?,
        done => return done,
    }
    match push_once(out, asked, row) {
        Err(Stop::Refused) => Ok(write!(out, "refused for ever")?),
        done => done,
    }
}

/// Rows, each followed by its answer; a line that begins with `-- ` is no row.
fn push_rows<A: Answers>(out: &mut Vec<u8>, asked: &mut A, text: &str) -> Pushed {
    for row in text.lines() {
        write!(out, "{row}")?;
        if !row.starts_with("-- ") {
            write!(out, " => ")?;
            push_answer(out, asked, row)?;
        }
        out.push(b'\n')?;
    }
    Ok(())
}

// ---- parts

/// Rows that do not depend on each other.
#[derive(Drop)]
struct Alone<'a> {
    made: Made<'a>,
    word: &'a str,
}

impl Answers for Alone<'_> {
    fn answer(&mut self, out: &mut Vec<u8>, row: &str) -> Pushed {
        let (made, words) = (self.made, (self.word, row));
        match self.word {
            "values" | "quiets" => values::push_row(out, made, words),
            "client_cuts" | "server_cuts" | "both_cuts" => hostile::push_row(out, made, words),
            "serves" | "connections" | "loops" | "turns" | "runs" => {
                links::push_row(out, made, words)
            }
            _ => texts::push_row(out, words),
        }
    }
}

/// What a new client, server or world shows through all rows of its part.
#[derive(Drop)]
struct Rows<'a> {
    text: &'a str,
}

impl<E: Answers> Task<E> for Rows<'_> {
    fn push(&mut self, out: &mut Vec<u8>, end: &mut E) -> Pushed {
        push_rows(out, end, self.text)
    }
}

/// A part of this word.
fn push_made(out: &mut Vec<u8>, made: Made<'_>, (word, text): (&str, &str)) -> Pushed {
    match word {
        "client" => push_new::<Client, _>(out, made, &mut Rows { text }),
        "server" => push_new::<Server, _>(out, made, &mut Rows { text }),
        "world" => push_new::<World, _>(out, made, &mut Rows { text }),
        "files" => ended::push_played(out, made, (text.as_bytes(), None)),
        "plays" => played::push_events(out, made, text),
        "stops" => push_fronts(out, made, text.as_bytes()),
        _ => push_rows(out, &mut Alone { made, word }, text),
    }
}

/// What a part is made of, by the rest of its head: the name of a program and a window.
fn made_of<'a>(input: &'a str, rest: &str) -> Result<Made<'a>, Stop> {
    let (name, window) = rest.split_once(" ").unwrap_or((rest, "1"));
    Ok(Made {
        held: named(input, "held ", name),
        program: named(input, "program ", name),
        setup: named(input, "setup", ""),
        replies: named(input, "replies ", name),
        commands: named(input, "commands ", name),
        last_replies: named(input, "last replies ", name),
        last_commands: named(input, "last commands ", name),
        ways: named(input, "ways ", name),
        ending: named(input, "ending ", name),
        window: window.parse().ok().ok_or(Stop::Row)?,
    })
}

/// The words of parts that are texts of which others are made; each but the setup has a name.
const TEXTS: [&str; 7] = [
    "program", "held", "replies", "commands", "last", "ways", "ending",
];

/// A part with its answers; a text that others are made of, unchanged.
fn push_part_once(out: &mut Vec<u8>, input: &str, piece: &str) -> Pushed {
    let (head, text) = piece.split_once("]\n").ok_or(Stop::Row)?;
    write!(out, "[{head}]\n")?;
    let (word, rest) = head.split_once(" ").unwrap_or((head, ""));
    if head == "setup" || !rest.is_empty() && TEXTS.iter().any(|text| *text == word) {
        return Ok(write!(out, "{text}")?);
    }
    push_made(out, made_of(input, rest)?, (word, text))
}

/// A part with its answers. If the program is out of memory, or memory is short for what the part is made of, it is started again, once.
fn push_part(out: &mut Vec<u8>, input: &str, piece: &str) -> Pushed {
    let count = out.len();
    match push_part_once(out, input, piece) {
        Err(Stop::Memory) => out.truncate(count),
        Err(Stop::Refused) => {
            out.truncate(count);
            write!(out, "refused, as before; ")?;
        }
        done => return done,
    }
    push_part_once(out, input, piece)
}

/// The input, with each row followed by its answer. No row has a bracket.
pub(crate) fn answered(alloc: Global, input: &str) -> Result<Vec<u8>, Stop> {
    let mut out = Vec::new(alloc);
    for piece in input.split("[") {
        if !piece.is_empty() {
            push_part(&mut out, input, piece)?;
        }
    }
    Ok(out)
}
