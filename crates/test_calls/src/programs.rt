// Features and steps of programs, or why they are refused.

use crate::stop::{Pushed, Stop};
use crate::tried::{Called, push_tried};
use dmis_program::{Frames, Program, ProgramFault, Step, Touch};
use fixed_um::{Frame, Name, Point, Um};
use std::alloc::Global;
use std::io::Write;

fn push_touch(out: &mut Vec<u8>, touch: &Touch) -> Pushed {
    match touch.frame {
        Frame::Machine => write!(out, "{} machine {}", touch.tool, touch.target)?,
        Frame::Part(offset) => write!(out, "{} part {offset} at {}", touch.tool, touch.target)?,
    }
    match touch.dir {
        Some(direction) => write!(out, " from {direction};")?,
        None => out.push(b';')?,
    }
    Ok(())
}

fn push_step(out: &mut Vec<u8>, step: &Step) -> Pushed {
    match step {
        Step::Goto(target) => write!(out, "goto {target};")?,
        Step::Begin(label) => write!(out, "begin {label};")?,
        Step::Touch(touch) => {
            write!(out, "touch ")?;
            push_touch(out, touch)?;
        }
        Step::Tool(name) => write!(out, "tool {name};")?,
        Step::Recall(offset) => write!(out, "recall {offset};")?,
        Step::End => write!(out, "end;")?,
    }
    Ok(())
}

/// Features and steps of a program, each with `;` for its end.
fn push_read(out: &mut Vec<u8>, program: &Program) -> Pushed {
    for feature in program.features() {
        write!(out, "feature {};", feature.label)?;
        for touch in feature.touches.as_slice() {
            push_touch(out, touch)?;
        }
    }
    for step in program.statements() {
        push_step(out, step)?;
    }
    Ok(())
}

fn part(alloc: Global) -> Result<Name, Stop> {
    Name::new(alloc, b"part")?.ok_or(Stop::Row)
}

/// The frame PART is added, whose zero point is at x = 100 mm.
impl Called<Global, Stop> for Frames {
    fn push_all(&self, out: &mut Vec<u8>) -> Pushed {
        let name = part(*out.allocator())?;
        Ok(write!(out, "{:?}", self.get(&name))?)
    }

    fn make(&mut self, alloc: &Global) -> Result<bool, Stop> {
        let x = Um::new(100_000).ok_or(Stop::Row)?;
        let offset = Point { x, ..Point::zero() };
        if !offset.is_in_volume() {
            return Err(Stop::Row);
        }
        Ok(self.add(part(*alloc)?, offset)?)
    }
}

/// Features and steps of a text, or why it is refused.
pub(crate) fn push_program(out: &mut Vec<u8>, text: &[u8]) -> Pushed {
    let alloc = *out.allocator();
    let mut frames = Frames::new(alloc);
    push_tried(out, &mut frames, Stop::Memory, &alloc)?;
    match Program::read(alloc, text, &frames) {
        Ok(program) => push_read(out, &program),
        Err(ProgramFault::Memory) => Err(Stop::Refused),
        Err(fault) => Ok(write!(out, "{fault}")?),
    }
}
