// What a contact that serves a touch has in common with it.

ghost use Rattle.std.specs.Prelude.{◌≡◌, ◌<◌, ◌↔◌, Some, IsTrue, length};
ghost use Rattle.ledger_audit.specs.Shifts.{asked_at};

use dmis_program::Touch;
use fixed_um::{Dir, Frame, Name, Point};
use std::marker::Model;

/// What a touch asks for with the point of its feature, or what a contact shows: all but the connection.
#[derive(Drop)]
pub(crate) struct Probing<'l> {
    pub target: Point,
    pub dir: Option<Dir>,
    pub tool: &'l Name,
    pub frame: Frame,
    pub point: Point,
}

impl<'l> Model for Probing<'l> {
    ghost use Rattle.ledger_audit.specs.Shifts.{Probed};

    ghost Value = { Probed };

    ghost view = { λ p. record {
      target = p.target;
      dir = p.dir;
      tool = p.tool.now;
      frame = p.frame;
      point = p.point;
    } };
}

// Equality of values, stated in contracts as equality.

fn same_point(one: Point, other: Point) -> bool
    ensures { IsTrue result ↔ (one ≡ other) }
{
    one == other
}

fn same_dir(one: Option<Dir>, other: Option<Dir>) -> bool
    ensures { IsTrue result ↔ (one ≡ other) }
{
    one == other
}

fn same_frame(one: Frame, other: Frame) -> bool
    ensures { IsTrue result ↔ (one ≡ other) }
{
    one == other
}

fn same_name(one: &Name, other: &Name) -> bool
    ensures { IsTrue result ↔ (one.now ≡ other.now) }
{
    one.as_bytes() == other.as_bytes()
}

/// Whether two are equal in all that a contact has in common with a touch.
pub(crate) fn same_probing(one: &Probing<'_>, other: &Probing<'_>) -> bool
    ensures { IsTrue result ↔ (one.now ≡ other.now) }
{
    same_point(one.target, other.target)
        && same_dir(one.dir, other.dir)
        && same_name(one.tool, other.tool)
        && same_frame(one.frame, other.frame)
        && same_point(one.point, other.point)
}

pub(crate) fn asked<'l>(touches: &'l [Touch], points: &[Point], number: usize) -> Probing<'l>
    requires touch { number < length touches.now }
    requires point { number < length points.now }
    ensures { asked_at touches.now points.now number ≡ Some result }
{
    let touch = &touches[number];
    Probing {
        target: touch.target,
        dir: touch.dir,
        tool: &touch.tool,
        frame: touch.frame,
        point: points[number],
    }
}
