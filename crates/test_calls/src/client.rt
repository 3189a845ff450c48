// A client that is driven by words.
//
// An action is a line that is fed and read, or a word for another call; it shows the lines that are written, each with `;` for its end, and
// the state, or why the call is refused; a reader's word shows what it answers. `ended` sends the command that is due and reads that it is
// received and done, `touched` and `told` with the text of its data between them; without another text, a question whether the machine is
// homed is answered by `IsHomed(0)`. `ended n` and `sends n` do so with n commands and show no line. `letters n` feeds n letters A, `bare`
// a line that ends with LF alone; `aborts n` sends n aborts that fail.

use crate::hostile;
use crate::parts::Answers;
use crate::shown::{push_acts, push_features, push_lines};
use crate::stop::{Pushed, Stop};
use crate::tried::{Call, Called, Tries, push_written};
use client_core::{Client, ClientFault};
use link_world::{report_of, write_report};
use std::alloc::Global;
use std::io::Write;

/// What was written is sent.
pub(crate) fn take_out(client: &mut Client) {
    let count = client.out().len();
    client.sent(count);
}

impl Called<Call<'_>, ClientFault> for Client {
    fn push_all(&self, out: &mut Vec<u8>) -> Pushed {
        push_due(out, self)?;
        write!(out, "{:?}", (self.has_line(), self.is_on()))?;
        hostile::push_client(out, self)
    }

    fn make(&mut self, call: &Call<'_>) -> Result<bool, ClientFault> {
        match *call {
            Call::Feed(piece) => self.feed(piece)?,
            Call::Read => return self.read_one(),
            Call::Word("connected", number) => self.connected(number.parse().unwrap_or(0))?,
            Call::Word("send", _) => self.send()?,
            Call::Word("abort", _) => self.abort()?,
            Call::Word("restart", count) => self.restart(count.parse().unwrap_or(0))?,
            Call::Word("leave", _) => self.leave(),
            Call::Word(_, _) => self.resume()?,
        }
        Ok(true)
    }
}

/// The tag with which a line begins.
fn tag_of(line: &[u8]) -> [u8; 5] {
    match line {
        [a, b, c, d, e, ..] => [*a, *b, *c, *d, *e],
        _ => *b"00000",
    }
}

/// The data for a written command: this text. If it is empty, a command that asks whether the machine is homed gets the answer that it is
/// not.
fn data_for<'a>(written: &[u8], text: &'a str) -> &'a str {
    if text.is_empty() && written.ends_with(b" IsHomed()\r\n") {
        "IsHomed(0)"
    } else {
        text
    }
}

/// A client through the calls of a row.
#[derive(Drop)]
struct Driven<'a> {
    client: &'a mut Client,
    tries: Tries,
}

impl Driven<'_> {
    /// Makes a call, and once more if memory is short for it.
    fn make(&mut self, call: Call<'_>) -> Result<bool, ClientFault> {
        self.tries.call(self.client, ClientFault::Memory, &call)
    }

    fn feed_line(&mut self, parts: &[&[u8]]) -> Result<bool, ClientFault> {
        for part in parts {
            self.make(Call::Feed(part))?;
        }
        self.make(Call::Read)
    }

    /// The command that is due is sent, received, given its data if a text is given here or it asks whether the machine is homed, and done.
    fn end_one(&mut self, text: &str) -> Result<bool, ClientFault> {
        self.make(Call::Word("send", ""))?;
        let tag = tag_of(self.client.out());
        let data = data_for(self.client.out(), text);
        self.feed_line(&[&tag, b" &\r\n"])?;
        if !data.is_empty() {
            self.feed_line(&[&tag, b" # ", data.as_bytes(), b"\r\n"])?;
        }
        self.feed_line(&[&tag, b" %\r\n"])
    }

    /// Calls that are made that many times, by their word; none of them is made again.
    fn call_often(&mut self, word: &str, count: u32) -> Result<bool, ClientFault> {
        self.tries.make_once();
        for _ in 0..count {
            match word {
                "sends" => self.client.send()?,
                "letters" => self.client.feed(b"A")?,
                "aborts" => {
                    self.client.abort()?;
                    let tag = tag_of(self.client.out());
                    self.feed_line(&[&tag, b" !\r\n"])?;
                }
                _ => {
                    self.end_one("")?;
                }
            }
            take_out(self.client);
        }
        Ok(true)
    }

    /// A call by its word, of any other word the action itself is a line; false where no line was read.
    fn call(&mut self, action: &str) -> Result<bool, ClientFault> {
        let (word, rest) = action.split_once(" ").unwrap_or((action, ""));
        match word {
            "sends" | "aborts" | "letters" => self.call_often(word, rest.parse().unwrap_or(0)),
            "ended" if !rest.is_empty() => self.call_often(word, rest.parse().unwrap_or(0)),
            "connected" | "send" | "abort" | "resume" | "restart" | "leave" => {
                self.make(Call::Word(word, rest))
            }
            "read" => self.make(Call::Read),
            "ended" | "touched" | "told" => self.end_one(rest),
            "bare" => self.feed_line(&[rest.as_bytes(), b"\n"]),
            _ => self.feed_line(&[action.as_bytes(), b"\r\n"]),
        }
    }
}

// ---- what is shown of it

fn push_due(out: &mut Vec<u8>, client: &Client) -> Pushed {
    if let Some(command) = client.due() {
        write!(out, "{:?}", command.kind())?;
    }
    Ok(())
}

/// The lines that a call writes, which are sent, and the state or why it is refused.
fn push_called(out: &mut Vec<u8>, client: &mut Client, action: &str) -> Pushed {
    let tries = Tries::new(*out.allocator(), true);
    let mut driven = Driven { client, tries };
    let done = driven.call(action);
    driven.tries.push(out)?;
    push_lines(out, driven.client.out())?;
    take_out(driven.client);
    match done {
        Ok(true) => write!(out, "{:?}", driven.client.state())?,
        Ok(false) => write!(out, "no line")?,
        Err(fault) => write!(out, "{fault:?}")?,
    }
    Ok(())
}

/// The report of a client, without a server's ledger.
fn push_report(out: &mut Vec<u8>, client: &Client) -> Pushed {
    let report = report_of(*out.allocator(), client, None);
    let report = report.ok().ok_or(Stop::Refused)?;
    push_written(out, |text| write_report(text, &report))
}

impl Answers for Client {
    /// What a reader answers, or what a call does.
    fn answer(&mut self, out: &mut Vec<u8>, action: &str) -> Pushed {
        match action {
            "report" => push_report(out, self)?,
            "state" => write!(out, "{:?}", self.state())?,
            "due" => push_due(out, self)?,
            "open" => write!(out, "{}", self.open())?,
            "completed" => write!(out, "{}", self.completed())?,
            "counted" => push_acts(out, self.counted())?,
            "features" => push_features(out, self.features())?,
            _ => push_called(out, self, action)?,
        }
        if out.is_empty() {
            write!(out, "nothing")?;
        }
        Ok(())
    }
}

/// A new client is connected, and does actions that all succeed.
pub(crate) fn call_all(alloc: Global, client: &mut Client, actions: &str) -> Pushed {
    client.connected(1)?;
    let tries = Tries::new(alloc, false);
    let mut driven = Driven { client, tries };
    for action in actions.split(" / ") {
        if !driven.call(action)? {
            return Err(Stop::Row);
        }
        take_out(driven.client);
    }
    Ok(())
}
