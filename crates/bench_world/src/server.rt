// Drives a server directly through many rounds of a move and a touch.

use crate::values::{Stop, place, summed_bytes};
use dme_line::{Command, Tag, write_command};
use server_core::{Outcome, Server};
use std::alloc::Global;
use tool_rack::Setup;

/// Takes what the server answered, and adds it to the sum.
fn take_answers(server: &mut Server, sum: u64) -> u64 {
    let sum = summed_bytes(sum, server.out());
    let count = server.out().len();
    server.sent(count);
    sum
}

/// Feeds a line with its end, reads it, and processes its command.
fn begin(server: &mut Server, line: &[u8]) -> Result<(), Stop> {
    server.feed(line)?;
    server.read_one()?;
    server.turn()?;
    Ok(())
}

/// Opens a session, asks whether the machine is homed and homes it, and changes to a tool.
fn make_ready(server: &mut Server) -> Result<(), Stop> {
    server.accept(1)?;
    begin(server, b"00001 StartSession()\r\n")?;
    begin(server, b"00002 IsHomed()\r\n")?;
    begin(server, b"00003 Home()\r\n")?;
    server.machine(Outcome::Done)?;
    begin(server, b"00004 ChangeTool(\"P1\")\r\n")?;
    server.machine(Outcome::Done)?;
    Ok(())
}

/// Ends the line that was written, feeds it as `begin` does, and ends what runs.
fn carry_out(server: &mut Server, line: &mut Vec<u8>, outcome: Outcome) -> Result<(), Stop> {
    line.extend_from_slice(b"\r\n")?;
    begin(server, line.as_slice())?;
    server.machine(outcome)?;
    Ok(())
}

fn move_to(server: &mut Server, line: &mut Vec<u8>, number: u64) -> Result<(), Stop> {
    let tag = Tag::Std((number % 9999 + 1) as u32);
    line.clear();
    write_command(line, tag, &Command::GoTo(place(number)))?;
    carry_out(server, line, Outcome::Done)
}

fn touch(server: &mut Server, line: &mut Vec<u8>, number: u64) -> Result<(), Stop> {
    let tag = Tag::Std((number % 9999 + 1) as u32);
    line.clear();
    write_command(line, tag, &Command::PtMeas(place(number), None))?;
    carry_out(server, line, Outcome::Touched(place(number)))
}

/// A move and a touch. Each line is written into a text that is used again.
fn round(server: &mut Server, line: &mut Vec<u8>, number: u64, sum: u64) -> Result<u64, Stop> {
    move_to(server, line, number)?;
    let sum = take_answers(server, sum);
    touch(server, line, number)?;
    Ok(take_answers(server, sum))
}

/// Makes a new server ready, makes that many rounds on it, and answers what `rounds` does.
fn run_all(alloc: Global, server: &mut Server, wanted: u64) -> Result<(u64, u64), Stop> {
    make_ready(server)?;
    let mut sum = take_answers(server, 0);
    let mut line = Vec::new(alloc);
    for number in 0..wanted {
        sum = round(server, &mut line, number, sum)?;
    }
    Ok((server.ledger().contacts(), sum))
}

fn new_server(alloc: Global) -> Result<Server, Stop> {
    let setup = Setup::read(alloc, b"TOOL P1").ok().ok_or(Stop::Memory)?;
    Ok(Server::new(alloc, setup)?)
}

/// Makes that many rounds, and answers the count of contacts and the sum over all bytes that were answered.
pub(crate) fn rounds(alloc: Global, wanted: u64) -> Result<(u64, u64), Stop> {
    let mut server = new_server(alloc)?;
    let ran = run_all(alloc, &mut server, wanted);
    drop(server);
    ran
}
