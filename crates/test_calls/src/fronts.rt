// The worlds after each prefix of a schedule.

use crate::ended::push_played;
use crate::fresh::{Made, Task, play, push_new, read_program};
use crate::played::{happens, moving};
use crate::stop::{Pushed, Stop};
use dmis_program::Program;
use link_world::World;
use std::io::Write;

/// More bytes than ever wait on a way.
const BYTES_MOST: u64 = 1_000_000;

/// The worlds after a prefix, and what they are made of.
#[derive(Clone, Copy)]
struct Front<'a> {
    made: Made<'a>,
    program: &'a Program,
    front: &'a [u8],
}

/// How many bytes wait on a way. Counting moves them.
fn bytes_moved(world: &mut World, is_up: bool) -> Result<u64, Stop> {
    for count in 0..BYTES_MOST {
        if !happens(world, moving(1, is_up))? {
            return Ok(count);
        }
    }
    Err(Stop::Row)
}

/// The first and the last number of the worlds that a way has after a prefix.
#[derive(Drop)]
struct Numbers<'a> {
    front: &'a [u8],
    word: &'a str,
    found: (u64, u64),
}

impl Task<World> for Numbers<'_> {
    /// Shows nothing, and uses up the world.
    fn push(&mut self, out: &mut Vec<u8>, world: &mut World) -> Pushed {
        play(*out.allocator(), world, self.front)?;
        self.found = match self.word {
            "once" => (0, 0),
            "features" => (0, world.features().len() as u64),
            "up" => (1, bytes_moved(world, true)?),
            "down" => (1, bytes_moved(world, false)?),
            _ => return Err(Stop::Row),
        };
        Ok(())
    }
}

/// Instructions, each followed by `;`, as lines; each `*` is this number.
fn push_lined(text: &mut Vec<u8>, row: &str, number: u64) -> Pushed {
    for byte in row.as_bytes() {
        match *byte {
            b';' => text.push(b'\n')?,
            b'*' => write!(text, "{number}")?,
            other => text.push(other)?,
        }
    }
    Ok(())
}

impl Front<'_> {
    /// A world that is stopped by these instructions after the prefix, at its end, preceded by the number of its way and its own number.
    fn push_stopped(&self, out: &mut Vec<u8>, (way, row): (u64, &str), number: u64) -> Pushed {
        let mut text = Vec::new(*out.allocator());
        text.extend_from_slice(self.front)?;
        push_lined(&mut text, row, number)?;
        push_lined(&mut text, self.made.ending, number)?;
        write!(out, "{way} {number}|")?;
        push_played(out, self.made, (text.as_slice(), Some(self.program)))
    }

    /// The worlds of a way.
    fn push_way(&self, out: &mut Vec<u8>, (way, row): (u64, &str)) -> Pushed {
        let (word, row) = row.split_once(" ").ok_or(Stop::Row)?;
        let mut numbers = Numbers {
            front: self.front,
            word,
            found: (0, 0),
        };
        push_new::<World, _>(out, self.made, &mut numbers)?;
        let (first, last) = numbers.found;
        for number in first..last.saturating_add(1) {
            self.push_stopped(out, (way, row), number)?;
        }
        Ok(())
    }

    /// The world after the prefix as it is, and then the worlds of each way.
    fn push(&self, out: &mut Vec<u8>) -> Pushed {
        write!(out, "front|")?;
        push_played(out, self.made, (self.front, Some(self.program)))?;
        let mut way = 0u64;
        for row in self.made.ways.lines() {
            self.push_way(out, (way, row))?;
            way = way.saturating_add(1);
        }
        Ok(())
    }
}

/// The prefixes of a schedule, from the empty one to the whole.
pub(crate) fn push_fronts(out: &mut Vec<u8>, made: Made<'_>, schedule: &[u8]) -> Pushed {
    let program = read_program(*out.allocator(), made)?;
    for at in 0..=schedule.len() {
        if at == 0 || schedule[at - 1] == b'\n' {
            let front = Front {
                made,
                program: &program,
                front: &schedule[..at],
            };
            front.push(out)?;
        }
    }
    Ok(())
}
