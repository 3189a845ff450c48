// The bytes of rows, and what rows show of either end: the lines that it writes, its acts and its features. Lengths are in millimetres.

ghost use Rattle.std.specs.Prelude.{◌<◌};

use crate::stop::Pushed;
use contact_ledger::{Act, Feature, Origin, add_entry};
use fixed_um::{Dir, Frame, Point};
use std::alloc::{AllocError, Global};
use std::fmt::Debug;
use std::io::Write;

/// The value of a hexadecimal digit; 0 for anything else.
fn digit(byte: u8) -> u8
    ensures { result < 16 }
{
    match byte {
        b'0'..=b'9' => byte - b'0',
        b'A'..=b'F' => byte - b'A' + 10,
        _ => 0,
    }
}

/// The bytes of a row: `;` means LF, `|` CR, and `\` with two digits a byte.
pub(crate) fn lined(alloc: Global, row: &str) -> Result<Vec<u8>, AllocError> {
    let mut bytes = Vec::new(alloc);
    let mut left = row.as_bytes();
    for _ in 0..row.len() {
        let (byte, taken) = match left {
            [] => break,
            [b'\\', high, low, ..] => (16 * digit(*high) + digit(*low), 3),
            [b';', ..] => (b'\n', 1),
            [b'|', ..] => (b'\r', 1),
            [other, ..] => (*other, 1),
        };
        bytes.push(byte)?;
        left = left.get(taken..).unwrap_or(&[]);
    }
    Ok(bytes)
}

/// Bytes of an answer; what cannot be printed is shown as `\` with two digits.
pub(crate) fn push_visible(out: &mut Vec<u8>, bytes: &[u8]) -> Pushed {
    for byte in bytes {
        match *byte {
            b' '..=b'~' => out.push(*byte)?,
            other => write!(out, "\\{other:02X}")?,
        }
    }
    Ok(())
}

/// What a call answers, or its fault, by their names.
pub(crate) fn push_answer<T: Debug, F: Debug>(out: &mut Vec<u8>, answer: &Result<T, F>) -> Pushed {
    match answer {
        Ok(done) => write!(out, "{done:?}")?,
        Err(fault) => write!(out, "{fault:?}")?,
    }
    Ok(())
}

/// Lines, each with `;` for its end.
pub(crate) fn push_lines(out: &mut Vec<u8>, lines: &[u8]) -> Result<(), AllocError> {
    for byte in lines {
        match *byte {
            b'\r' => {}
            b'\n' => out.push(b';')?,
            content => out.push(content)?,
        }
    }
    Ok(())
}

/// Points, each followed by `;`.
pub(crate) fn push_points(out: &mut Vec<u8>, points: &[Point]) -> Pushed {
    for point in points {
        write!(out, "{point};")?;
    }
    Ok(())
}

/// `M`, or `P` and the zero point.
pub(crate) fn push_frame(out: &mut Vec<u8>, frame: Frame) -> Pushed {
    match frame {
        Frame::Machine => write!(out, "M")?,
        Frame::Part(offset) => write!(out, "P {offset}")?,
    }
    Ok(())
}

/// `N`, or `D` and the direction.
pub(crate) fn push_direction(out: &mut Vec<u8>, dir: Option<Dir>) -> Pushed {
    match dir {
        None => write!(out, "N")?,
        Some(dir) => write!(out, "D {dir}")?,
    }
    Ok(())
}

/// Acts, each after its connection as a contacts file has it, with `;` for its end.
pub(crate) fn push_entries(out: &mut Vec<u8>, acts: &[(u64, Act)]) -> Pushed {
    for (connection, act) in acts {
        add_entry(out, *connection, act)?;
        let _ = out.pop();
        out.push(b';')?;
    }
    Ok(())
}

/// Acts likewise, without a connection.
pub(crate) fn push_acts(out: &mut Vec<u8>, acts: &[Act]) -> Pushed {
    for act in acts {
        let mut entry = Vec::new(*out.allocator());
        add_entry(&mut entry, 1, act)?;
        push_lines(out, entry.as_slice().strip_prefix(b"1 ").unwrap_or(b""))?;
    }
    Ok(())
}

/// Features, each with the connection and the frame that it comes from, `-` if they are not known, and its points, with `;` for its end.
pub(crate) fn push_features(out: &mut Vec<u8>, features: &[Feature]) -> Pushed {
    for feature in features {
        write!(out, "{}", feature.label)?;
        match feature.origin {
            Some(Origin { connection, frame }) => {
                write!(out, " {connection} ")?;
                push_frame(out, frame)?;
            }
            None => write!(out, " -")?,
        }
        for point in feature.points.as_slice() {
            write!(out, " {point}")?;
        }
        out.push(b';')?;
    }
    Ok(())
}
