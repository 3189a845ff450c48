// A new world through many events: each shows `1` if it happens, else `0`; `show` and `files` are not events.

use crate::ended::{push_ended, push_files};
use crate::fresh::{Made, Task, push_new, read_program};
use crate::stop::{Pushed, Stop};
use dmis_program::Program;
use link_world::{Event, Instruction, Machine, Schedule, Simulated, World, WorldFault};

/// At most this many bytes are moved at once.
const PIECE_MOST: usize = 2_000;

/// This many bytes move on a way.
pub(crate) fn moving(count: usize, is_up: bool) -> Event {
    if is_up {
        Event::Up(count)
    } else {
        Event::Down(count)
    }
}

/// Whether an event happens.
pub(crate) fn happens(world: &mut World, event: Event) -> Result<bool, Stop> {
    match world.step(event) {
        Ok(()) => Ok(true),
        Err(WorldFault::NotNow) => Ok(false),
        Err(WorldFault::Memory) => Err(Stop::Memory),
    }
}

/// One event moves all bytes that wait on their way, up to the given number. Answers whether there were any.
fn moves_all(world: &mut World, is_up: bool) -> Result<bool, Stop> {
    for less in 0..PIECE_MOST {
        if happens(world, moving(PIECE_MOST - less, is_up))? {
            return Ok(true);
        }
    }
    Ok(false)
}

/// Whether the one event of an instruction happens; a machine that ends what runs is one.
fn instruction_happens<M: Machine>(
    world: &mut World,
    machine: &mut M,
    schedule: &Schedule,
) -> Result<bool, Stop> {
    match schedule.instructions() {
        [Instruction::Once(event)] => happens(world, *event),
        [Instruction::Auto] => {
            let number = world.ledger().contacts();
            match world.running().map(|job| machine.answer(job, number)) {
                Some(outcome) => happens(world, Event::Machine(outcome)),
                None => Ok(false),
            }
        }
        _ => Err(Stop::Row),
    }
}

/// The rows of a new world, which has made this many connections.
#[derive(Drop)]
struct Rows<'a> {
    program: &'a Program,
    rows: &'a str,
    connections: u64,
}

impl Rows<'_> {
    /// The event of a row: `1` if it happens, else `0`.
    fn push_event<M: Machine>(
        &mut self,
        out: &mut Vec<u8>,
        (world, machine): (&mut World, &mut M),
        row: &str,
    ) -> Pushed {
        let happened = match row {
            "accept" => happens(world, Event::Accept(self.connections))?,
            "up all" => moves_all(world, true)?,
            "down all" => moves_all(world, false)?,
            _ => {
                let schedule = Schedule::read(*out.allocator(), row.as_bytes())?;
                instruction_happens(world, machine, &schedule)?
            }
        };
        if happened && row == "connect" {
            self.connections = self.connections.saturating_add(1);
        }
        Ok(out.push(if happened { b'1' } else { b'0' })?)
    }

    /// A row: an event, or the world, or its files.
    fn push_row<M: Machine>(
        &mut self,
        out: &mut Vec<u8>,
        (world, machine): (&mut World, &mut M),
        row: &str,
    ) -> Pushed {
        match row {
            "show" => {
                out.push(b'|')?;
                push_ended(out, self.program, world)
            }
            "files" => {
                out.push(b'\n')?;
                push_files(out, world)
            }
            _ => self.push_event(out, (world, machine), row),
        }
    }
}

impl Task<World> for Rows<'_> {
    fn push(&mut self, out: &mut Vec<u8>, world: &mut World) -> Pushed {
        let mut machine = Simulated::new(*out.allocator(), world.setup())?;
        let rows = self.rows;
        for row in rows.lines() {
            self.push_row(out, (world, &mut machine), row)?;
        }
        Ok(())
    }
}

/// What the rows of a part of events show of a new world.
pub(crate) fn push_events(out: &mut Vec<u8>, made: Made<'_>, rows: &str) -> Pushed {
    let program = read_program(*out.allocator(), made)?;
    let mut task = Rows {
        program: &program,
        rows,
        connections: 0,
    };
    push_new::<World, _>(out, made, &mut task)
}
