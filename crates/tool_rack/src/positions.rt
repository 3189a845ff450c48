// Positions in the machine's volume, as texts write them.

ghost use Rattle.std.specs.Prelude.{◌≡◌, ◌≤◌, unsigned_abs, IfOk, IfSome};
ghost use Rattle.tool_rack.specs.Names.{volume_limit, IsInVolume, length_of, point_of};

use fixed_um::{NumeralFault, Point, Um, read_um};

/// The length that a numeral writes, within the machine's volume.
fn length(text: &[u8]) -> Result<Um, NumeralFault>
    ensures value { result ≡ length_of text.now }
    ensures within { IfOk result (λ length. unsigned_abs length ≤ volume_limit) }
{
    read_um(text, Um::volume_limit())
}

/// The point that three numerals in millimetres write; `None` if one of them is not a numeral, has too many digits, or is past the limit
/// of the machine's volume. Does not allocate.
pub fn point_in_volume(x: &[u8], y: &[u8], z: &[u8]) -> Option<Point>
    ensures value { result ≡ point_of x.now y.now z.now }
    ensures within { IfSome result IsInVolume }
{
    match (length(x), length(y), length(z)) {
        (Ok(x), Ok(y), Ok(z)) => Some(Point { x, y, z }),
        _ => None,
    }
}
