// A server that is driven by words.
//
// An action is a line that is fed and read, or a word for another call; it shows the lines that are answered, each with `;` for its end, or
// why the call is refused. `homes n` reads 65 commands `Home()` with the tags that follow number n.

use crate::hostile;
use crate::parts::Answers;
use crate::shown::{push_direction, push_entries, push_frame, push_lines};
use crate::stop::{Pushed, Stop};
use crate::tried::{Call, Called, Tries, push_written};
use fixed_um::{Point, Um, read_um};
use link_world::write_contact_rows;
use server_core::{Job, Outcome, Server, ServerFault};
use std::alloc::Global;
use std::io::Write;

/// What was answered is sent.
pub(crate) fn take_out(server: &mut Server) {
    let count = server.out().len();
    server.sent(count);
}

fn length(numeral: &str) -> Um {
    read_um(numeral.as_bytes(), Um::wire_limit()).unwrap_or(Um::zero())
}

/// Three numerals with a space between them.
fn point(text: &str) -> Point {
    let (x, rest) = text.split_once(" ").unwrap_or((text, ""));
    let (y, z) = rest.split_once(" ").unwrap_or((rest, ""));
    let (x, y, z) = (length(x), length(y), length(z));
    Point { x, y, z }
}

impl Called<Call<'_>, ServerFault> for Server {
    fn push_all(&self, out: &mut Vec<u8>) -> Pushed {
        let may_end = self.may_end(&Outcome::Done);
        write!(out, "{:?}", (self.has_line(), self.may_turn(), may_end))?;
        write!(out, "{:?}", self.setup())?;
        hostile::push_server(out, self)
    }

    fn make(&mut self, call: &Call<'_>) -> Result<bool, ServerFault> {
        match *call {
            Call::Feed(piece) => self.feed(piece)?,
            Call::Read => return self.read_one(),
            Call::Word("turn", _) => self.turn()?,
            Call::Word("accept", number) => self.accept(number.parse().unwrap_or(0))?,
            Call::Word("leave", _) => self.leave(),
            Call::Word("restart", _) => self.restart(),
            Call::Word(word, rest) => self.machine(outcome(word, rest))?,
        }
        Ok(true)
    }
}

/// How what runs ends, by its word.
fn outcome(word: &str, rest: &str) -> Outcome {
    match word {
        "done" => Outcome::Done,
        "missed" => Outcome::Missed,
        "fault" => Outcome::Fault,
        _ => Outcome::Touched(point(rest)),
    }
}

/// A server through the calls of a row.
#[derive(Drop)]
struct Driven<'a> {
    server: &'a mut Server,
    tries: Tries,
}

impl Driven<'_> {
    /// Makes a call, and once more if memory is short for it.
    fn make(&mut self, call: Call<'_>) -> Result<bool, ServerFault> {
        self.tries.call(self.server, ServerFault::Memory, &call)
    }

    fn feed_line(&mut self, line: &[u8], end: &[u8]) -> Result<bool, ServerFault> {
        self.make(Call::Feed(line))?;
        self.make(Call::Feed(end))?;
        self.make(Call::Read)
    }

    /// 65 commands `Home()` with the tags that follow this number, with no turn between them.
    fn feed_homes(&mut self, number: u32) -> Result<bool, ServerFault> {
        for nth in 1..=65u32 {
            let tag = number.saturating_add(nth);
            let line = format!(in self.tries.alloc; "{tag:05} Home()").map_err(
                |_| ServerFault::Memory,
            )?;
            self.feed_line(line.as_bytes(), b"\r\n")?;
        }
        Ok(true)
    }

    /// One byte more than a line may have.
    fn feed_long(&mut self) -> Result<bool, ServerFault> {
        for _ in 0..65_537 {
            self.server.feed(b"A")?;
        }
        self.server.read_one()
    }

    /// A call by its word, of any other word the action itself is a line; false where no line was read.
    fn call(&mut self, action: &str) -> Result<bool, ServerFault> {
        let (word, rest) = action.split_once(" ").unwrap_or((action, ""));
        match word {
            "turn" | "done" | "missed" | "fault" | "touched" | "accept" | "leave" | "restart" => {
                self.make(Call::Word(word, rest))
            }
            "read" => self.make(Call::Read),
            "clear" => {
                self.feed_line(b"09999 ClearAllErrors()", b"\r\n")?;
                self.make(Call::Word("turn", ""))
            }
            "long" => self.feed_long(),
            "homes" => self.feed_homes(rest.parse().unwrap_or(0)),
            "bad" => self.feed_line(rest.as_bytes(), b"\n"),
            _ => self.feed_line(action.as_bytes(), b"\r\n"),
        }
    }
}

// ---- what is shown of it

/// The connection, whether a session is open and the machine is homed, the tool, the frame and what is stored for it, and whether there is
/// an error, each followed by `;`.
pub(crate) fn push_state(out: &mut Vec<u8>, server: &Server) -> Pushed {
    let view = server.view();
    match view.connection {
        Some(number) => write!(out, "on {number};")?,
        None => write!(out, "off;")?,
    }
    write!(out, "{}session;", if view.session { "" } else { "no " })?;
    write!(out, "{}homed;", if view.homed { "" } else { "not " })?;
    match view.tool {
        Some(tool) => write!(out, "{tool};")?,
        None => write!(out, "no tool;")?,
    }
    push_frame(out, view.frame)?;
    let no = if view.error { "" } else { "no " };
    Ok(write!(out, ";{};{no}error;", view.stored)?)
}

/// What runs, with its place and direction or its tool.
pub(crate) fn push_job(out: &mut Vec<u8>, server: &Server) -> Pushed {
    match server.running() {
        None => write!(out, "nothing")?,
        Some(Job::Home) => write!(out, "Home")?,
        Some(Job::Move(target)) => write!(out, "Move {target}")?,
        Some(Job::Touch(target, dir)) => {
            write!(out, "Touch {target} ")?;
            push_direction(out, *dir)?;
        }
        Some(Job::Change(tool)) => write!(out, "Change {tool}")?,
    }
    Ok(())
}

/// The lines that a call answers, which are sent, and why it is refused.
fn push_called(out: &mut Vec<u8>, server: &mut Server, action: &str) -> Pushed {
    let tries = Tries::new(*out.allocator(), true);
    let mut driven = Driven { server, tries };
    let done = driven.call(action);
    driven.tries.push(out)?;
    push_lines(out, driven.server.out())?;
    take_out(driven.server);
    match done {
        Ok(true) => {}
        Ok(false) => write!(out, "no line;")?,
        Err(fault) => write!(out, "{fault:?}")?,
    }
    Ok(())
}

impl Answers for Server {
    fn answer(&mut self, out: &mut Vec<u8>, action: &str) -> Pushed {
        match action {
            "contact rows" => push_written(out, |text| write_contact_rows(text, self.ledger())),
            "state" => push_state(out, self),
            "running" => push_job(out, self),
            "ledger" => push_entries(out, self.ledger().acts()),
            _ => push_called(out, self, action),
        }
    }
}

/// Actions that all succeed; what is answered is sent.
pub(crate) fn call_all(alloc: Global, server: &mut Server, actions: &str) -> Pushed {
    let tries = Tries::new(alloc, false);
    let mut driven = Driven { server, tries };
    for action in actions.split(" / ") {
        if !driven.call(action)? {
            return Err(Stop::Row);
        }
        take_out(driven.server);
    }
    Ok(())
}
