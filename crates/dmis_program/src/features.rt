ghost use Rattle.std.specs.Prelude.{◌≡◌, IfOk};

use fixed_um::{Dir, Frame, Name, Point};
use std::alloc::{AllocError, Global};
use std::marker::Model;

/// A touch that a program asks for (ISO 22093 `PTMEAS`), with what was selected above it in the text.
#[derive(Debug, Drop)]
pub struct Touch {
    /// Where to touch, in the axes of the frame, within the machine's volume.
    pub target: Point,
    /// The direction, where the program gives one: the outward normal of the surface at the target, against which the probe comes.
    pub dir: Option<Dir>,
    /// The tool of the last `SNSLCT` above.
    pub tool: Name,
    /// The frame of the last `RECALL/D` above, or the machine's.
    pub frame: Frame,
}

impl Touch {
    /// An equal touch. Fails only if out of memory.
    pub fn copy(&self, alloc: Global) -> Result<Touch, AllocError>
        ensures { IfOk result (λ touch. touch ≡ self.now) }
    {
        let tool = self.tool.copy(alloc)?;
        Ok(Touch {
            target: self.target,
            dir: self.dir,
            tool,
            frame: self.frame,
        })
    }
}

/// The touches of a feature in order, which contracts see as their list.
#[derive(Debug, Drop)]
pub struct Touches {
    touches: Vec<Touch>,
}

impl Model for Touches {
    ghost use Rattle.std.specs.Prelude.{List};
    ghost use Rattle.dmis_program.specs.declared.features.Touch.{Touch};

    ghost Value = { List Touch };

    ghost view = { λ t. t.touches.items };
}

impl Touches {
    /// The touches in order.
    pub fn as_slice(&self) -> &[Touch]
        ensures { result.now ≡ self.now }
    {
        self.touches.as_slice()
    }

    pub(crate) fn new(touches: Vec<Touch>) -> Touches
        ensures { result ≡ touches.items }
    {
        Touches { touches }
    }
}

/// A feature that a program asks for (ISO 22093 `MEAS` to `ENDMES`).
#[derive(Debug, Drop)]
pub struct Wanted {
    /// The name in its `MEAS`.
    pub label: Name,
    /// The touches between its `MEAS` and its `ENDMES`, from 1 to 10,000.
    pub touches: Touches,
}
