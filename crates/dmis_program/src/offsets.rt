ghost use Rattle.std.specs.Prelude.{◌≡◌, ◌↔◌, [], ◌∷◌, ◌++◌, IfOk, OnErr, IsTrue, None, if◌then◌else◌};
ghost use Rattle.dmis_program.specs.Names.{offset_of, IsInVolume};
ghost use Rattle.dmis_program.specs.Offsets.{AreFrames};

use fixed_um::{Name, Point};
use std::alloc::{AllocError, Global};
use std::marker::Model;

/// Stored frames that a program may recall (ISO 22093 `RECALL/D`): names, each with the place of the frame's zero point in machine
/// axes, which is in the machine's volume. Contracts see the list of pairs in the order in which they were added. No name is there twice.
#[derive(Debug, Drop)]
pub struct Frames {
    pub(crate) entries: Vec<(Name, Point)>,
}

impl Model for Frames {
    ghost use Rattle.std.specs.Prelude.{ℕ, List};
    ghost use Rattle.fixed_um.specs.declared.lengths.Point.{Point};
    ghost use Rattle.dmis_program.specs.Offsets.{AreFrames};

    ghost Value = { List (List ℕ × Point) };

    ghost view = { λ f. f.entries.items };

    ghost invariant = { λ f. AreFrames f.entries.items };
}

impl Frames {
    /// No frame. It does not allocate yet.
    pub fn new(alloc: Global) -> Frames
        ensures { result ≡ [] }
    {
        Frames {
            entries: Vec::new(alloc),
        }
    }

    /// The zero point of the frame of this name, or `None`. Does not allocate.
    pub fn get(&self, name: &Name) -> Option<Point>
        ensures offset { result ≡ offset_of self.now name.now }
        ensures frames { AreFrames self.now }
    {
        let entry = self
            .entries
            .iter()
            .find(|e| e.0.as_bytes() == name.as_bytes())?;
        Some(entry.1)
    }

    /// Adds a frame after the others; false if one of this name is there, and then nothing has changed.
    /// The caller must give a zero point in the machine's volume. Fails only if out of memory, and then nothing has changed either.
    pub fn add(&mut self, name: Name, point: Point) -> Result<bool, AllocError>
        requires { IsInVolume point }
        ensures is_new { IfOk result (λ added. IsTrue added ↔ (offset_of self.old name ≡ None)) }
        ensures added { IfOk result (λ added. self.new
            ≡ (if added then self.old ++ (name, point) ∷ [] else self.old)) }
        ensures err { OnErr result (self.new ≡ self.old) }
    {
        if self.get(&name).is_some() {
            return Ok(false);
        }
        self.entries.push((name, point))?;
        Ok(true)
    }
}
