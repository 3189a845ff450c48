ghost use Rattle.std.specs.Prelude.{◌≡◌, ◌↔◌, ◌+◌, ◌%◌, ◌<◌, ◌≤◌, ◌^◌, ◌∷◌, [], ◌++◌, not, IsTrue, Any, true, false, Ok, length, IfOk, IfErr, OnOk, if◌then◌else◌};
ghost use Rattle.tool_rack.specs.Names.{Leads, IsInVolume, AreFrames, IsEntryInVolume, has_name, is_twice, setup_of, GivesSetup, IsDue, shift_at, setup_more, read_line};
ghost use Rattle.tool_rack.specs.Setups.{SetupValue, IsSetup};

use crate::entries::{Entry, entry_on};
use crate::faults::SetupFault;
use dmis_program::Frames;
use dmis_text::cut_line;
use fixed_um::{Name, Point};
use std::alloc::{AllocError, Global};
use std::marker::Model;

/// The tools that a machine can change to. Contracts see the list of their names.
#[derive(Debug, Drop)]
pub struct Rack {
    tools: Vec<Name>,
}

impl Model for Rack {
    ghost use Rattle.std.specs.Prelude.{ℕ, List};

    ghost Value = { List (List ℕ) };

    ghost view = { λ r. r.tools.items };
}

impl Rack {
    /// Whether the rack has the tool of this name. Does not allocate.
    pub fn has(&self, name: &Name) -> bool
        ensures value { result ≡ has_name self.now name.now }
        ensures among { IsTrue result ↔ Any (λ tool. tool ≡ name.now) self.now }
    {
        self.tools
            .iter()
            .any(|tool| tool.as_bytes() == name.as_bytes())
    }

    /// Adds a tool after the others. Fails only if out of memory, and then nothing has changed.
    fn push(&mut self, name: Name) -> Result<(), AllocError>
        ensures { Leads result self.old self.new (self.old ++ name ∷ []) }
    {
        self.tools.push(name)?;
        Ok(())
    }
}

/// What a machine has: its tools, its stored frames, and the shifts of a simulated one (this profile).
///
/// Whatever text it was read from: no two tools and no two frames share a name, and each frame's zero point and each shift is in the
/// machine's volume.
#[derive(Debug, Drop)]
pub struct Setup {
    rack: Rack,
    frames: Frames,
    shifts: Vec<Point>,
}

impl Model for Setup {
    ghost use Rattle.tool_rack.specs.Setups.{SetupValue};

    ghost Value = { SetupValue };

    ghost use Rattle.tool_rack.specs.Setups.{IsSetup};

    ghost view = { λ s. record { tools = s.rack; frames = s.frames; shifts = s.shifts.items } };

    ghost invariant = { λ s. IsSetup (record { tools = s.rack; frames = s.frames; shifts = s.shifts.items }) };
}

impl Setup {
    /// The setup that says nothing. It does not allocate yet.
    fn empty(alloc: Global) -> Setup
        ensures { result ≡ record { tools = []; frames = []; shifts = [] } }
    {
        Setup {
            rack: Rack {
                tools: Vec::new(alloc),
            },
            frames: Frames::new(alloc),
            shifts: Vec::new(alloc),
        }
    }

    /// Adds what a line says; false if its name is there already, and then nothing has changed. The caller must give positions in the
    /// machine's volume. Fails only if out of memory, and then nothing has changed either.
    fn add(&mut self, entry: Entry) -> Result<bool, AllocError>
        requires { IsEntryInVolume entry }
        ensures is_new { IfOk result (λ added. added ≡ not (is_twice self.old entry)) }
        ensures leads { Leads result self.old self.new
            (if is_twice self.old entry then self.old else setup_more self.old entry) }
    {
        match entry {
            Entry::Nothing => Ok(true),
            Entry::Tool(name) => {
                if self.rack.has(&name) {
                    return Ok(false);
                }
                self.rack.push(name)?;
                Ok(true)
            }
            Entry::Frame(name, offset) => self.frames.add(name, offset),
            Entry::Shift(shift) => {
                self.shifts.push(shift)?;
                Ok(true)
            }
        }
    }

    fn add_line(&mut self, alloc: Global, number: u64, line: &[u8]) -> Result<(), SetupFault>
        ensures ok { OnOk result (read_line number self.old line.now ≡ Ok self.new) }
        ensures refused { IfErr result (IsDue (read_line number self.old line.now)) }
    {
        let entry = entry_on(alloc, number, line)?;
        if self.add(entry)? {
            Ok(())
        } else {
            Err(SetupFault::Twice(number))
        }
    }

    /// Reads the text of a setup. Its lines end with LF or CR LF, the last may lack its end. Empty lines and lines that begin with `#`
    /// say nothing; each other is `TOOL name`, `FRAME name x y z` or `SHIFT dx dy dz`, its fields separated by one or more spaces, its
    /// word in any case, its numerals in millimetres and within the machine's volume.
    ///
    /// The first line that is refused is answered with its number. Of one line its form is examined first, then its numerals, then
    /// whether a tool or a frame of its name is above.
    pub fn read(alloc: Global, bytes: &[u8]) -> Result<Setup, SetupFault>
        ensures value { GivesSetup result (setup_of bytes.now) }
    {
        let mut setup = Setup::empty(alloc);
        let mut number = 0;
        let mut rest = bytes;
        while let Some((line, after)) = cut_line(rest) {
            number += 1;
            setup.add_line(alloc, number, line)?;
            rest = after;
        }
        Ok(setup)
    }

    /// The tools of the rack. Does not allocate.
    pub fn rack(&self) -> &Rack
        ensures rack { result.now ≡ self.now.tools }
        ensures setup { IsSetup self.now }
    {
        &self.rack
    }

    /// The frames that a program may recall, each with its zero point in machine axes. Does not allocate.
    pub fn frames(&self) -> &Frames
        ensures frames { result.now ≡ self.now.frames }
        ensures setup { IsSetup self.now }
    {
        &self.frames
    }

    /// The shifts of a simulated machine, in the order of the text. Does not allocate.
    pub fn shifts(&self) -> &[Point]
        ensures shifts { result.now ≡ self.now.shifts }
        ensures setup { IsSetup self.now }
    {
        self.shifts.as_slice()
    }

    /// Shift number `k`, counted from 0, and from the first again after the last; the zero point if there is no shift. Does
    /// not allocate.
    pub fn shift(&self, k: u64) -> Point
        ensures value { result ≡ shift_at self.now.shifts k }
        ensures within { IsInVolume result }
    {
        let count = self.shifts.len() as u64;
        if count == 0 {
            return Point::zero();
        }
        self.shifts[(k % count) as usize]
    }
}
