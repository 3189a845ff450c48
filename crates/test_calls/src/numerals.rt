// Numerals, directions and names.

use crate::stop::{Pushed, Stop};
use crate::tried::push_written;
use fixed_um::{Name, Um, read_dir, read_um, write_dir, write_um};
use std::alloc::AllocError;
use std::io::Write;

/// The length of a numeral in millimetres within the volume limit, as it is written, or why it is not one.
pub(crate) fn push_numeral(out: &mut Vec<u8>, numeral: &[u8]) -> Pushed {
    match read_um(numeral, Um::volume_limit()) {
        Ok(length) => push_written(out, |text| write_um(text, length)),
        Err(fault) => Ok(write!(out, "{fault:?}")?),
    }
}

/// The direction of three numerals, as it is written; `none` if all are zero.
pub(crate) fn push_direction(out: &mut Vec<u8>, numerals: &str) -> Pushed {
    let (i, rest) = numerals.split_once(" ").unwrap_or((numerals, ""));
    let (j, k) = rest.split_once(" ").unwrap_or((rest, ""));
    match read_dir(i.as_bytes(), j.as_bytes(), k.as_bytes()) {
        Ok(Some(direction)) => push_written(out, |text| write_dir(text, direction, b", ")),
        Ok(None) => Ok(write!(out, "none")?),
        Err(fault) => Ok(write!(out, "{fault:?}")?),
    }
}

/// The name that a text is.
pub(crate) fn push_name(out: &mut Vec<u8>, text: &[u8]) -> Pushed {
    match Name::new(*out.allocator(), text) {
        Ok(Some(name)) => Ok(write!(out, "{name}")?),
        Ok(None) => Ok(write!(out, "no name")?),
        Err(AllocError) => Err(Stop::Refused),
    }
}
