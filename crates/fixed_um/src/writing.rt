// Writing lengths and directions.
//
// A writer whose name ends in `_reserved` needs room that its caller has made, and cannot fail. The others make the room first,
// so that running out of memory changes nothing.

ghost use Rattle.std.specs.Prelude.{◌≡◌, ◌≤◌, ◌+◌, ◌*◌, ◌%◌, ◌^◌, ◌++◌, ◌∷◌, [], ℕ, length, vec_len, vec_capacity, IfSome, IfNone, OnOk, OnErr, Ok, Some, unsigned_abs, decimal, codes, ◌<◌, drop};
ghost use Rattle.fixed_um.specs.Calls.{Grows, HasRoom, Writes};
ghost use Rattle.fixed_um.specs.Limits.{wire_limit, component_limit};
ghost use Rattle.fixed_um.specs.Numerals.{Reads, ReadsDirection};
ghost use Rattle.fixed_um.specs.Shapes.{IsDirection};
ghost use Rattle.fixed_um.specs.Written.{minus_sign, three_digits, written, written_component, written_direction};

use crate::directions::Dir;
use crate::lengths::Um;
use itoa::write_digits;
use std::alloc::AllocError;

/// Puts the last three digits of a number in front of a place in a text. Returns where they begin.
#[inline(always)]
fn put_three_before(text: &mut [u8], end: usize, value: u64) -> usize
    requires { (4 ≤ end) × (end ≤ length text.old) }
    ensures written { drop result text.new ≡ three_digits value ++ drop end text.old }
    ensures place { result + 3 ≡ end }
{
    // The 1 in front keeps the zeros after it; what comes in front is written over it.
    write_digits(1000 + value % 1000, text, end) + 1
}

/// Puts the sign of a value, a whole part and a point in front of a place in a text, at most nine bytes. Returns where they begin.
#[tactic(auto, using(crate::proofs::WrittenLemmas::short))]
#[inline(always)]
fn put_whole_before(text: &mut [u8], end: usize, value: i64, whole: u64) -> usize
    requires whole { whole < 10 ^ 7 }
    requires place { (9 ≤ end) × (end ≤ length text.old) }
    ensures written { drop result text.new ≡ minus_sign value
        ++ (decimal whole ++ (codes "." ++ drop end text.old)) }
    ensures place { (end ≤ result + 9) × (result < end) }
{
    text[end - 1] = b'.';
    let start = write_digits(whole, text, end - 1);
    if value >= 0 {
        return start;
    }
    text[start - 1] = b'-';
    start - 1
}

/// Puts a length in millimetres with three decimals, as `-0.001`, at most 12 bytes, in front of a place in a text: what follows
/// that place stays. Returns where the length begins.
///
/// Requires a place with 12 bytes in front of it.
#[tactic(auto, unfolding(crate::specs::Written::written))]
#[inline(always)]
pub fn write_um_before(text: &mut [u8], end: usize, value: Um) -> usize
    requires { (12 ≤ end) × (end ≤ length text.old) }
    ensures written { drop result text.new ≡ written value ++ drop end text.old }
    ensures place { (end ≤ result + 12) × (result < end) }
{
    let micrometres = value.get();
    let magnitude = micrometres.unsigned_abs();
    let point = put_three_before(text, end, magnitude);
    put_whole_before(text, point, micrometres, magnitude / 1000)
}

/// Appends a length in millimetres with three decimals, as `-0.001`, at most 12 bytes; the caller must have made room for them.
pub fn write_um_reserved(out: &mut Vec<u8>, value: Um)
    requires { HasRoom out.old 12 }
    ensures text { out.new.items ≡ out.old.items ++ written value }
    ensures grows { Grows out.old out.new 12 }
{
    let mut text = [0; 12];
    let start = write_um_before(&mut text, 12, value);
    out.extend_from_slice(&text[start..]).unwrap();
}

/// Puts a component of a direction with six decimals in front of a place in a text. Returns where it begins.
#[tactic(auto, unfolding(crate::specs::Written::written_component))]
fn write_component_before(text: &mut [u8], end: usize, value: i64) -> usize
    requires value { unsigned_abs value ≤ component_limit }
    requires place { (15 ≤ end) × (end ≤ length text.old) }
    ensures written { drop result text.new ≡ written_component value ++ drop end text.old }
    ensures place { (end ≤ result + 15) × (result < end) }
{
    let magnitude = value.unsigned_abs();
    let middle = put_three_before(text, end, magnitude);
    let point = put_three_before(text, middle, magnitude / 1000);
    put_whole_before(text, point, value, magnitude / 1_000_000)
}

fn write_any_component_reserved(out: &mut Vec<u8>, value: i64)
    requires value { unsigned_abs value ≤ component_limit }
    requires room { HasRoom out.old 15 }
    ensures text { out.new.items ≡ out.old.items ++ written_component value }
    ensures grows { Grows out.old out.new 15 }
{
    let mut text = [0; 15];
    let start = write_component_before(&mut text, 15, value);
    out.extend_from_slice(&text[start..]).unwrap();
}

/// The text of a component along an axis; none of another.
#[inline(always)]
fn text_on_axis(value: i64) -> Option<&'static [u8]>
    ensures text { IfSome result (λ text. text.now ≡ written_component value) }
    ensures short { IfSome result (λ text. length text.now ≤ 15) }
{
    match value {
        0 => Some(b"0.000000"),
        1_000_000 => Some(b"1.000000"),
        -1_000_000 => Some(b"-1.000000"),
        _ => None,
    }
}

/// Appends a component. Most directions are along an axis.
#[inline(always)]
fn write_component_reserved(out: &mut Vec<u8>, value: i64)
    requires value { unsigned_abs value ≤ component_limit }
    requires room { HasRoom out.old 15 }
    ensures text { out.new.items ≡ out.old.items ++ written_component value }
    ensures grows { Grows out.old out.new 15 }
{
    match text_on_axis(value) {
        Some(text) => out.extend_from_slice(text).unwrap(),
        None => write_any_component_reserved(out, value),
    }
}

/// Appends the three components of a direction with six decimals each, as `0.577350`, with a text between each two,
/// at most 45 bytes besides those texts; the caller must have made room for them.
pub fn write_dir_reserved(out: &mut Vec<u8>, direction: Dir, between: &[u8])
    requires { HasRoom out.old (45 + 2 * length between.now) }
    ensures text { out.new.items ≡ out.old.items ++ written_direction direction between.now }
    ensures grows { Grows out.old out.new (45 + 2 * length between.now) }
{
    write_component_reserved(out, i64::from(direction.i));
    out.extend_from_slice(between).unwrap();
    write_component_reserved(out, i64::from(direction.j));
    out.extend_from_slice(between).unwrap();
    write_component_reserved(out, i64::from(direction.k));
}

/// Appends a length in millimetres with three decimals, as `-0.001`. Fails only if out of memory, and then appends nothing.
pub fn write_um(out: &mut Vec<u8>, value: Um) -> Result<(), AllocError>
    ensures writes { Writes result out.old out.new (written value) }
    ensures reads_back { (limit : ℕ) → unsigned_abs value ≤ limit → limit ≤ wire_limit
        → Reads 3 limit (written value) (Ok value) }
{
    out.reserve(12)?;
    write_um_reserved(out, value);
    Ok(())
}

/// The room that a direction needs with a text between each two of its components; none if no memory has that much.
fn room_with(between: &[u8]) -> Option<usize>
    ensures room { IfSome result (λ room. room ≡ 45 + 2 * length between.now) }
    ensures none { IfNone result (2 ^ 64 ≤ 45 + 2 * length between.now) }
{
    between.len().checked_mul(2)?.checked_add(45)
}

/// Appends the three components of a direction with six decimals each, with any text between each two.
/// Fails only if out of memory, and then appends nothing; that is also the answer if no memory has room for such a text.
pub fn write_dir(out: &mut Vec<u8>, direction: Dir, between: &[u8]) -> Result<(), AllocError>
    ensures writes { Writes result out.old out.new (written_direction direction between.now) }
    ensures reads_back { IsDirection direction → ReadsDirection (written_component direction.i)
        (written_component direction.j) (written_component direction.k) (Ok (Some direction)) }
{
    out.reserve(room_with(between).ok_or(AllocError)?)?;
    write_dir_reserved(out, direction, between);
    Ok(())
}
