// What became of worlds: one a line, or their files.

use crate::fresh::{Made, Task, play, push_new};
use crate::stop::Pushed;
use crate::tried::push_written;
use contact_ledger::{write_contacts, write_features};
use dmis_program::Program;
use ledger_audit::{Verdict, audit};
use link_world::World;
use std::io::Write;

/// The verdict of an audit: `RUNS` with the numbers at which the runs begin, or `NONE` with the count of the first features that have none.
fn push_verdict(out: &mut Vec<u8>, verdict: &Verdict) -> Pushed {
    match verdict {
        Verdict::NoRun(count) => write!(out, "NONE {count}")?,
        Verdict::Starts(starts) => {
            write!(out, "RUNS")?;
            for start in starts.as_slice() {
                write!(out, " {start}")?;
            }
        }
    }
    Ok(())
}

/// The client's state, the counts of the acts that it has counted, of the server's contacts and of all its acts, the verdict of an audit of
/// both, and the features; `|` between them.
pub(crate) fn push_ended(out: &mut Vec<u8>, program: &Program, world: &World) -> Pushed {
    let alloc = *out.allocator();
    let counted = world.counted().len();
    let contacts = world.ledger().contacts();
    write!(out, "{:?}|{counted}|{contacts}|", world.state())?;
    let verdict = audit(alloc, program, world.features(), world.ledger())?;
    push_verdict(out, &verdict)?;
    out.push(b'|')?;
    push_written(out, |text| write_features(text, world.features()))?;
    Ok(out.push(b'\n')?)
}

/// The texts of the features and of the contacts, each as its file has it.
pub(crate) fn push_files(out: &mut Vec<u8>, world: &World) -> Pushed {
    write_features(out, world.features())?;
    Ok(write_contacts(out, world.ledger())?)
}

/// A world after a text of instructions: what became of it, or its files if no program is given.
#[derive(Drop)]
struct Played<'a> {
    text: &'a [u8],
    program: Option<&'a Program>,
}

impl Task<World> for Played<'_> {
    fn push(&mut self, out: &mut Vec<u8>, world: &mut World) -> Pushed {
        play(*out.allocator(), world, self.text)?;
        match self.program {
            Some(program) => push_ended(out, program, world),
            None => push_files(out, world),
        }
    }
}

/// Likewise for a new world.
pub(crate) fn push_played(
    out: &mut Vec<u8>,
    made: Made<'_>,
    (text, program): (&[u8], Option<&Program>),
) -> Pushed {
    push_new::<World, _>(out, made, &mut Played { text, program })
}
