// A world through events, one a row.
//
// A row is an instruction that is one event; `run`, the first two events of a world at once; `play` and an instruction; `then` and
// instructions whose events are not made again; `finish`, which brings the world to its end; `report`; or `files`, the texts of both files.
// It shows the state, how many bytes the client has written on its last connection, and how many acts are done and counted.

use crate::parts::Answers;
use crate::shown::{lined, push_acts, push_features};
use crate::stop::{Pushed, Stop};
use crate::tried::{Called, push_tried, push_written};
use contact_ledger::{write_contacts, write_features};
use link_world::{
    Event, Instruction, RunCount, Schedule, Simulated, World, WorldFault, write_report,
};
use std::io::Write;

/// The state and the counts.
fn push_told(out: &mut Vec<u8>, world: &World) -> Pushed {
    let (state, written) = (world.state(), world.written().len());
    let (done, counted) = (world.ledger().acts().len(), world.counted().len());
    Ok(write!(
        out,
        "{state:?}, {written} written, {done} done, {counted} counted"
    )?)
}

// ---- the calls

/// A call for which memory can be short: `run`, `play` and a schedule of one event, or the schedule that a row is.
#[derive(Drop)]
struct Call<'a> {
    word: &'a str,
    schedule: Schedule,
}

impl Called<Call<'_>, WorldFault> for World {
    fn push_all(&self, out: &mut Vec<u8>) -> Pushed {
        push_told(out, self)?;
        write!(out, "{:?}", (self.running(), self.ledger().acts()))?;
        out.extend_from_slice(self.written())?;
        write!(out, "{:?}", self.setup())?;
        push_acts(out, self.counted())?;
        push_features(out, self.features())
    }

    fn make(&mut self, call: &Call<'_>) -> Result<bool, WorldFault> {
        match (call.word, call.schedule.instructions()) {
            // If memory is short for the first of these two events, the second cannot happen.
            ("run", _) => match self.run(&[Event::Connect, Event::Accept(1)]) {
                RunCount { done: 2, .. } => {}
                RunCount { memory: 1, .. } => return Err(WorldFault::Memory),
                _ => return Err(WorldFault::NotNow),
            },
            ("play", _) => call.schedule.play(self)?,
            (_, [Instruction::Once(event)]) => self.step(*event)?,
            _ => return Err(WorldFault::NotNow),
        }
        Ok(true)
    }
}

/// A call of a row.
fn push_called(out: &mut Vec<u8>, world: &mut World, row: &str) -> Pushed {
    let alloc = *out.allocator();
    let (word, rest) = row.split_once(" ").unwrap_or((row, ""));
    let text = match word {
        "run" | "play" | "then" => rest,
        _ => row,
    };
    let schedule = Schedule::read(alloc, lined(alloc, text)?.as_slice())?;
    if word == "then" {
        return Ok(schedule.play(world)?);
    }
    push_tried(out, world, WorldFault::Memory, &Call { word, schedule })
}

// ---- what is made of a world

fn push_report(out: &mut Vec<u8>, world: &World) -> Pushed {
    let report = world.report().ok().ok_or(Stop::Refused)?;
    push_written(out, |text| write_report(text, &report))
}

fn push_files(out: &mut Vec<u8>, world: &World) -> Pushed {
    push_written(out, |text| write_features(text, world.features()))?;
    push_written(out, |text| write_contacts(text, world.ledger()))
}

/// A world that is brought to its end by a machine. If memory is short during that, the first of its events have happened: what
/// stays are the features that the client held.
#[derive(Drop)]
struct Finished<'a> {
    world: &'a mut World,
    machine: Simulated,
    held: usize,
}

impl Called<(), WorldFault> for Finished<'_> {
    fn push_all(&self, out: &mut Vec<u8>) -> Pushed {
        match self.world.features().get(..self.held) {
            Some(held) => push_features(out, held),
            None => Err(Stop::Changed),
        }
    }

    fn make(&mut self, _call: &()) -> Result<bool, WorldFault> {
        self.world.finish(&mut self.machine)?;
        Ok(true)
    }
}

/// A world is brought to its end: the state, and the labels of the features. How many acts are done depends on how often it was started.
fn push_finished(out: &mut Vec<u8>, world: &mut World) -> Pushed {
    let machine = Simulated::new(*out.allocator(), world.setup())?;
    let held = world.features().len();
    let mut finished = Finished {
        world,
        machine,
        held,
    };
    push_tried(out, &mut finished, WorldFault::Memory, &())?;
    write!(out, "{:?}", finished.world.state())?;
    for feature in finished.world.features() {
        write!(out, " {}", feature.label)?;
    }
    Ok(())
}

impl Answers for World {
    fn answer(&mut self, out: &mut Vec<u8>, row: &str) -> Pushed {
        match row {
            "report" => push_report(out, self),
            "files" => push_files(out, self),
            "finish" => push_finished(out, self),
            _ => {
                push_called(out, self, row)?;
                push_told(out, self)
            }
        }
    }
}
