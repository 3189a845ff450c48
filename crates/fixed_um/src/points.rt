// Points that are moved.

ghost use Rattle.std.specs.Prelude.{◌≡◌, ◌≤◌, ◌+ℤ◌, ◌-ℤ◌, neg_ℤ, unsigned_abs, SomeIff, ◌↔◌, IsTrue};
ghost use Rattle.fixed_um.specs.Limits.{volume_limit};
ghost use Rattle.fixed_um.specs.Points.{zero_point, point_sum, point_difference, point_opposite, IsInVolume};

use crate::lengths::{Point, Um};

fn length_within(micrometres: i64) -> Option<Um>
    ensures { SomeIff result (unsigned_abs micrometres ≤ volume_limit) micrometres }
{
    if micrometres >= -1_000_000_000 && micrometres <= 1_000_000_000 {
        Um::new(micrometres)
    } else {
        None
    }
}

fn length_sum(one: Um, by: Um) -> Option<Um>
    ensures { SomeIff result (unsigned_abs (one +ℤ by) ≤ volume_limit) (one +ℤ by) }
{
    length_within(one.get() + by.get())
}

fn length_difference(one: Um, by: Um) -> Um
    requires one { unsigned_abs one ≤ volume_limit }
    requires by { unsigned_abs by ≤ volume_limit }
    ensures { result ≡ one -ℤ by }
{
    Um::new(one.get() - by.get()).unwrap()
}

fn length_opposite(one: Um) -> Um
    ensures { result ≡ neg_ℤ one }
{
    Um::new(-one.get()).unwrap()
}

impl Point {
    /// The zero point of the axes; as a displacement, none.
    pub fn zero() -> Point
        ensures { result ≡ zero_point }
    {
        Point {
            x: Um::zero(),
            y: Um::zero(),
            z: Um::zero(),
        }
    }

    /// Whether each axis is within the machine's volume, 1,000,000,000 micrometres.
    pub fn is_in_volume(self) -> bool
        ensures { IsTrue result ↔ IsInVolume self }
    {
        length_within(self.x.get()).is_some()
            && length_within(self.y.get()).is_some()
            && length_within(self.z.get()).is_some()
    }

    /// The point moved by another; `None` if an axis leaves the machine's volume. Does not allocate.
    pub fn shifted(self, by: Point) -> Option<Point>
        ensures { SomeIff result (IsInVolume (point_sum self by)) (point_sum self by) }
    {
        let x = length_sum(self.x, by.x)?;
        let y = length_sum(self.y, by.y)?;
        let z = length_sum(self.z, by.z)?;
        Some(Point { x, y, z })
    }

    /// The point as seen from another. The caller must ensure that both are in the machine's volume. Does not allocate.
    pub fn minus(self, by: Point) -> Point
        requires point { IsInVolume self }
        requires by { IsInVolume by }
        ensures { result ≡ point_difference self by }
    {
        Point {
            x: length_difference(self.x, by.x),
            y: length_difference(self.y, by.y),
            z: length_difference(self.z, by.z),
        }
    }

    /// The point with each sign turned: what a part's zero point is seen from the machine's, the machine's is seen from the part's.
    /// Does not allocate.
    pub fn opposite(self) -> Point
        ensures { result ≡ point_opposite self }
    {
        Point {
            x: length_opposite(self.x),
            y: length_opposite(self.y),
            z: length_opposite(self.z),
        }
    }
}
