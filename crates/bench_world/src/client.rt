// Drives a client through a program of many touches, answered by a peer in memory.

ghost use Rattle.std.specs.Prelude.{◌<◌};

use crate::values::{Stop, place, summed, summed_bytes};
use client_core::{Client, State};
use contact_ledger::{Feature, FeatureLedger};
use dme_line::write_point;
use dmis_program::{Frames, Program};
use fixed_um::Um;
use std::alloc::{AllocError, Global};

/// How many touches a feature has at most.
const TOUCHES: u64 = 330;

/// The most commands that are open at once, and the most lines that answer them.
const COMMANDS: u32 = 16;

const LINES: u32 = 48;

/// More rounds than any program needs.
const ROUNDS: u32 = 20_000;

/// The statements of one touch, with those that begin and end its feature.
fn push_touch(
    alloc: Global,
    text: &mut Vec<u8>,
    number: u64,
    touches: u64,
) -> Result<(), AllocError>
    requires { number < touches }
{
    if number % TOUCHES == 0 {
        let count = (touches - number).min(TOUCHES);
        text.extend_from_slice(format!(in alloc; "MEAS/POINT,F(F{number}),{count}\n")?.as_bytes())?;
    }
    text.extend_from_slice(format!(in alloc; "PTMEAS/CART,{number},1,2,0,0,1\n")?.as_bytes())?;
    if (number + 1) % TOUCHES == 0 || number + 1 == touches {
        text.extend_from_slice(b"ENDMES\n")?;
    }
    Ok(())
}

/// The text of a program of that many touches.
fn push_program(alloc: Global, text: &mut Vec<u8>, touches: u64) -> Result<(), AllocError> {
    text.extend_from_slice(b"DMISMN/'TOUCHES',05.2\nSNSLCT/S(P1)\n")?;
    for number in 0..touches {
        push_touch(alloc, text, number, touches)?;
    }
    text.extend_from_slice(b"ENDFIL\n")
}

/// A program of that many touches.
pub(crate) fn new_program(alloc: Global, touches: u64) -> Result<Program, Stop> {
    let mut text = Vec::new(alloc);
    push_program(alloc, &mut text, touches)?;
    Program::read(alloc, text.as_slice(), &Frames::new(alloc))
        .ok()
        .ok_or(Stop::Refused)
}

fn new_client(alloc: Global, touches: u64, window: u8) -> Result<Client, Stop> {
    let program = new_program(alloc, touches)?;
    match Client::new(alloc, program, FeatureLedger::new(alloc), window) {
        Ok(client) => Ok(client),
        Err(_) => Err(Stop::Refused),
    }
}

/// The peer at the other end: the lines that it answers next, how many touches it has answered, and a sum over the bytes that came.
#[derive(Drop)]
struct Peer {
    answers: Vec<u8>,
    touches: u64,
    sum: u64,
}

impl Peer {
    /// Appends an answer without a text.
    fn push(&mut self, tag: &[u8; 5], mark: u8) -> Result<(), AllocError> {
        let [a, b, c, d, e] = *tag;
        self.answers
            .extend_from_slice(&[a, b, c, d, e, b' ', mark, b'\r', b'\n'])
    }

    /// Appends the front of an answer with a text.
    fn push_front(&mut self, tag: &[u8; 5]) -> Result<(), AllocError> {
        let [a, b, c, d, e] = *tag;
        self.answers
            .extend_from_slice(&[a, b, c, d, e, b' ', b'#', b' '])
    }

    /// A command is received and done; a touch has a point, and the machine answers that it is not homed.
    fn hear(&mut self, line: &[u8]) -> Result<(), AllocError> {
        self.sum = summed_bytes(self.sum, line);
        let Some((tag, command)) = line.split_first_chunk::<5>() else {
            return Ok(());
        };
        self.push(tag, b'&')?;
        if command.starts_with(b" IsHomed") {
            self.push_front(tag)?;
            self.answers.extend_from_slice(b"IsHomed(0)\r\n")?;
        }
        if command.starts_with(b" PtMeas") {
            self.push_front(tag)?;
            write_point(&mut self.answers, place(self.touches))?;
            self.answers.extend_from_slice(b"\r\n")?;
            self.touches = self.touches.wrapping_add(1);
        }
        self.push(tag, b'%')
    }
}

/// Sends all that is due, each line to the peer.
fn send_all(client: &mut Client, peer: &mut Peer) -> Result<(), Stop> {
    for _ in 0..COMMANDS {
        if client.due().is_none() {
            break;
        }
        client.send()?;
        peer.hear(client.out())?;
        let count = client.out().len();
        client.sent(count);
    }
    Ok(())
}

/// Reads all that the peer answers.
fn read_all(client: &mut Client, peer: &mut Peer) -> Result<(), Stop> {
    client.feed(peer.answers.as_slice())?;
    peer.answers.clear();
    for _ in 0..LINES {
        if !client.read_one()? {
            break;
        }
    }
    Ok(())
}

/// Runs the program to its end, and answers what `touches` does.
fn run_all(client: &mut Client, peer: &mut Peer) -> Result<(u64, u64), Stop> {
    client.connected(1)?;
    for _ in 0..ROUNDS {
        if client.state() == State::Done {
            return Ok(points(client.features(), peer.sum));
        }
        send_all(client, peer)?;
        read_all(client, peer)?;
    }
    Err(Stop::Refused)
}

fn micrometres(length: Um) -> u64 {
    u64::try_from(length.get()).unwrap_or(0)
}

/// The count of all points of the features, and the sum with them.
pub(crate) fn points(features: &[Feature], sum: u64) -> (u64, u64) {
    let mut count = 0u64;
    let mut sum = sum;
    for feature in features {
        for point in feature.points.as_slice() {
            count = count.wrapping_add(1);
            sum = summed(sum, micrometres(point.x));
            sum = summed(sum, micrometres(point.y));
            sum = summed(sum, micrometres(point.z));
        }
    }
    (count, sum)
}

/// Drives a client through that many touches, and answers the count of its points and the sum over all bytes that it sent and all its
/// points.
pub(crate) fn touches(alloc: Global, wanted: u64, window: u8) -> Result<(u64, u64), Stop> {
    let mut client = new_client(alloc, wanted, window)?;
    let mut peer = Peer {
        answers: Vec::new(alloc),
        touches: 0,
        sum: 0,
    };
    let ran = run_all(&mut client, &mut peer);
    drop(client);
    ran
}
