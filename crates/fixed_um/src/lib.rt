//! Exact decimal numerals and the values that every crate shares: lengths in whole micrometres,
//! directions in whole millionths, points, names and frames.
//!
//! - `lengths`: `Um`, `Point`, and the limits of the wire and of the machine's volume
//! - `directions`: `Dir`
//! - `naming`: `Name`
//! - `frames`: `Frame`
//! - `numerals`: `read_um`, `read_dir`, and why a text is refused
//! - `scanning`: the steps by which a numeral is taken apart
//! - `front`: `cut_um`, a written length at the start of a text
//! - `plain`: the numerals that one machine word takes, which nearly all are
//! - `points`: sums and differences of points
//! - `rounding`: the whole number nearest to a fraction
//! - `display`: how lengths, points, directions and names are printed
//! - `writing`: `write_um`, `write_dir`, and likewise for a caller who has made room or puts a length in front of a text
#![tactic(auto)]

pub mod directions;
mod display;
pub mod frames;
mod front;
pub mod lengths;
pub mod naming;
pub mod numerals;
mod plain;
mod points;
mod rounding;
mod scanning;
pub mod writing;

pub use directions::Dir;
pub use frames::Frame;
pub use front::cut_um;
pub use lengths::{Point, Um};
pub use naming::Name;
pub use numerals::{NumeralFault, computed_reading, is_zero, one_reading, read_dir, read_um};
pub use writing::{write_dir, write_dir_reserved, write_um, write_um_before, write_um_reserved};
