ghost use Rattle.std.specs.Prelude.{◌≡◌, ◌∷◌, []};
ghost use Rattle.dmis_program.specs.Positions.{length_of, position_of, direction_of};

use crate::faults::Refusal;
use fixed_um::{Dir, Point, Um, read_dir, read_um};

/// The length that a numeral writes, within the machine's volume.
fn length(text: &[u8]) -> Result<Um, Refusal>
    ensures { result ≡ length_of text.now }
{
    match read_um(text, Um::volume_limit()) {
        Ok(length) => Ok(length),
        Err(fault) => Err(Refusal::BadNumeral(fault)),
    }
}

/// The position that three numerals write.
#[tactic(auto, unfolding(crate::specs::Positions::position_of))]
pub(crate) fn position(x: &[u8], y: &[u8], z: &[u8]) -> Result<Point, Refusal>
    ensures { result ≡ position_of x.now y.now z.now }
{
    let x = length(x)?;
    let y = length(y)?;
    let z = length(z)?;
    Ok(Point { x, y, z })
}

/// The direction that three numerals write.
pub(crate) fn direction(i: &[u8], j: &[u8], k: &[u8]) -> Result<Dir, Refusal>
    ensures { result ≡ direction_of i.now j.now k.now }
{
    match read_dir(i, j, k) {
        Ok(Some(direction)) => Ok(direction),
        Ok(None) => Err(Refusal::ZeroVector),
        Err(fault) => Err(Refusal::BadNumeral(fault)),
    }
}
