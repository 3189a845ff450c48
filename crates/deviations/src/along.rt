// Deviations, and their part along a direction.

ghost use Rattle.std.specs.Prelude.{◌≡◌, ◌≤◌, ◌<◌, ◌*◌, ◌+◌, ◌^◌, ◌+ℤ◌, ◌-ℤ◌, ◌*ℤ◌, unsigned_abs};
ghost use Rattle.deviations.specs.Names.{volume_limit, component_limit, IsInVolume, deviation, deviation_limit, on_side_of, IsDeviation, scalar_product, squared, squared_length, IsNearestRoot, IsAlong, Direction, Deviation};
ghost use Rattle.std.specs.Prelude.{ℤ};

use fixed_um::{Dir, Point, Um};

/// How far a measured point lies from its nominal point, in micrometres along each axis.
#[derive(Clone, Copy, Debug, PartialEq, Eq)]
pub struct Deviation {
    pub x: i64,
    pub y: i64,
    pub z: i64,
}

fn difference(measured: Um, nominal: Um) -> i64
    requires { unsigned_abs nominal ≤ volume_limit }
    ensures value { result ≡ measured -ℤ nominal }
    ensures within { unsigned_abs result ≤ deviation_limit }
{
    measured.get() - nominal.get()
}

impl Deviation {
    /// The measured point less the nominal one. Requires that the nominal point is in the machine's volume.
    pub fn of(measured: Point, nominal: Point) -> Deviation
        requires { IsInVolume nominal }
        ensures value { result ≡ deviation measured nominal }
        ensures within { IsDeviation result }
    {
        Deviation {
            x: difference(measured.x, nominal.x),
            y: difference(measured.y, nominal.y),
            z: difference(measured.z, nominal.z),
        }
    }
}

fn product(length: i64, component: i64) -> i128
    requires length { unsigned_abs length ≤ deviation_limit }
    requires component { unsigned_abs component ≤ component_limit }
    ensures value { result ≡ length *ℤ component }
    ensures within { unsigned_abs result ≤ 5 * 10 ^ 18 }
{
    i128::from(length) * i128::from(component)
}

fn sum(x: i128, y: i128, z: i128) -> i128
    requires x { unsigned_abs x ≤ 5 * 10 ^ 18 }
    requires y { unsigned_abs y ≤ 5 * 10 ^ 18 }
    requires z { unsigned_abs z ≤ 5 * 10 ^ 18 }
    ensures value { result ≡ x +ℤ y +ℤ z }
    ensures within { unsigned_abs result ≤ 15 * 10 ^ 18 }
{
    x + y + z
}

fn scalar_product(deviation: Deviation, direction: Dir) -> i128
    requires { IsDeviation deviation }
    ensures value { result ≡ scalar_product deviation direction }
    ensures within { unsigned_abs result ≤ 15 * 10 ^ 18 }
{
    let x = product(deviation.x, i64::from(direction.i));
    let y = product(deviation.y, i64::from(direction.j));
    let z = product(deviation.z, i64::from(direction.k));
    sum(x, y, z)
}

fn squared(component: i64) -> u128
    requires { unsigned_abs component ≤ component_limit }
    ensures value { result ≡ squared (unsigned_abs component) }
    ensures within { result ≤ 10 ^ 18 }
{
    let magnitude = u128::from(component.unsigned_abs());
    magnitude * magnitude
}

fn squared_length(direction: Dir) -> u128
    ensures value { result ≡ squared_length direction }
    ensures some { 0 < result }
    ensures within { result ≤ 3 * 10 ^ 18 }
{
    squared(i64::from(direction.i))
        + squared(i64::from(direction.j))
        + squared(i64::from(direction.k))
}

/// The whole number nearest to the root of a fraction, halves up.
fn nearest_root(square: u128, length: u128) -> u128
    requires some { 0 < length }
    requires small { length ≤ 3 * 10 ^ 18 }
    ensures near { IsNearestRoot square length result }
    ensures within { result ≤ 2 ^ 64 }
{
    let whole = (square / length).isqrt();
    let rest = square - whole * whole * length;
    let half = whole * length + length.div_ceil(4);
    if half <= rest { whole + 1 } else { whole }
}

/// A length with the sign of a number.
fn on_side_of(number: i128, magnitude: u128) -> i128
    requires { magnitude ≤ 2 ^ 64 }
    ensures value { result ≡ on_side_of number magnitude }
    ensures magnitude { unsigned_abs result ≡ magnitude }
{
    let magnitude = magnitude as i128;
    if number < 0 { -magnitude } else { magnitude }
}

/// The deviation along a direction, in micrometres: the scalar product of both, divided by the direction's own length, which need not be
/// one, to the nearest micrometre; of two equally near, the one farther from zero. It is decided in whole numbers, on squares. Does not
/// allocate.
pub fn along_normal(deviation: Deviation, direction: Dir) -> i128
    requires { IsDeviation deviation }
    ensures along { IsAlong deviation direction result }
    ensures within { unsigned_abs result ≤ 2 ^ 64 }
{
    let product = scalar_product(deviation, direction);
    let magnitude = product.unsigned_abs();
    let root = nearest_root(magnitude * magnitude, squared_length(direction));
    on_side_of(product, root)
}

/// The deviation along a direction is unique.
pub fn one_length_is_along()
    ensures { (deviation : Deviation) (direction : Direction) (one other : ℤ)
        → IsAlong deviation direction one → IsAlong deviation direction other → one ≡ other }
{}
