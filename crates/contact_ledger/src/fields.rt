// Values as fields of a line: a space, and the value in its written form.

ghost use Rattle.std.specs.Prelude.{◌≡◌, ◌≤◌, ◌++◌, ◌∷◌, [], decimal, OnOk};
ghost use Rattle.contact_ledger.specs.Names.{IsName, written, spaced, IsLength, IsOnWire, IsFrame, IsTouch, point_fields, frame_fields, direction_fields};

use fixed_um::{Dir, Frame, Name, Point, Um, write_dir, write_um};
use itoa::Buffer;
use std::alloc::AllocError;

/// Adds a number in decimal.
pub fn add_number(text: &mut Vec<u8>, number: u64) -> Result<(), AllocError>
    ensures { OnOk result (text.new.items ≡ text.old.items ++ spaced (decimal number ∷ [])) }
{
    let mut buffer = Buffer::new();
    text.push(b' ')?;
    text.extend_from_slice(buffer.format(number).as_bytes())
}

/// Adds a name.
pub fn add_name(text: &mut Vec<u8>, name: &Name) -> Result<(), AllocError>
    ensures text { OnOk result (text.new.items ≡ text.old.items ++ spaced (name.now ∷ [])) }
    ensures name { OnOk result (IsName name.now) }
{
    text.push(b' ')?;
    text.extend_from_slice(name.as_bytes())
}

/// Adds a length in millimetres at the start of a line.
pub fn add_first_length(text: &mut Vec<u8>, length: Um) -> Result<(), AllocError>
    ensures text { OnOk result (text.new.items ≡ text.old.items ++ written length) }
    ensures length { IsLength length }
{
    prove!(length.get().unsigned_abs() <= 4_000_000_000);
    write_um(text, length)
}

/// Adds a length in millimetres.
pub fn add_length(text: &mut Vec<u8>, length: Um) -> Result<(), AllocError>
    ensures text { OnOk result (text.new.items ≡ text.old.items ++ spaced (written length ∷ [])) }
    ensures length { IsLength length }
{
    text.push(b' ')?;
    add_first_length(text, length)
}

/// Adds the three lengths of a point.
pub fn add_point(text: &mut Vec<u8>, point: Point) -> Result<(), AllocError>
    ensures text { OnOk result (text.new.items ≡ text.old.items ++ spaced (point_fields point)) }
    ensures point { OnOk result (IsOnWire point) }
{
    add_length(text, point.x)?;
    add_length(text, point.y)?;
    add_length(text, point.z)
}

/// Adds a frame.
pub fn add_frame(text: &mut Vec<u8>, frame: Frame) -> Result<(), AllocError>
    ensures text { OnOk result (text.new.items ≡ text.old.items ++ spaced (frame_fields frame)) }
    ensures frame { OnOk result (IsFrame frame) }
{
    match frame {
        Frame::Machine => text.extend_from_slice(b" M"),
        Frame::Part(offset) => {
            text.extend_from_slice(b" P")?;
            add_point(text, offset)
        }
    }
}

/// Adds a direction, or its absence.
pub fn add_direction(text: &mut Vec<u8>, direction: Option<Dir>) -> Result<(), AllocError>
    ensures text { OnOk result (text.new.items ≡ text.old.items
        ++ spaced (direction_fields direction)) }
    ensures direction { OnOk result (IsTouch direction) }
{
    match direction {
        None => text.extend_from_slice(b" N"),
        Some(direction) => {
            prove!(direction.i != 0 || direction.j != 0 || direction.k != 0);
            text.extend_from_slice(b" D ")?;
            write_dir(text, direction, b" ")
        }
    }
}
