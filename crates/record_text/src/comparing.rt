// Equality of values, as contracts see it.

ghost use Rattle.std.specs.Prelude.{◌≡◌, ◌↔◌, IsTrue};

use fixed_um::{Dir, Frame, Name, Point};

pub(crate) fn same_point(one: Point, other: Point) -> bool
    ensures { IsTrue result ↔ (one ≡ other) }
{
    one == other
}

pub(crate) fn same_dir(one: Option<Dir>, other: Option<Dir>) -> bool
    ensures { IsTrue result ↔ (one ≡ other) }
{
    one == other
}

pub(crate) fn same_frame(one: Frame, other: Frame) -> bool
    ensures { IsTrue result ↔ (one ≡ other) }
{
    one == other
}

pub(crate) fn same_name(one: &Name, other: &Name) -> bool
    ensures { IsTrue result ↔ (one.now ≡ other.now) }
{
    one.as_bytes() == other.as_bytes()
}
