// The greatest deviation of each feature along its normals.

ghost use Rattle.std.specs.Prelude.{◌≡◌, ◌≤◌, ◌<◌, ◌^◌, ◌++◌, None, unsigned_abs, OnOk};
ghost use Rattle.std.specs.List.{AllByRecursion};
ghost use Rattle.dmis_program.specs.Programs.{IsTouch};
ghost use Rattle.drawings.specs.BarCells.{magnitude};
ghost use Rattle.drawings.specs.Peaks.{farther_out, IsPeakAfter, greatest_peak, peak_length, left_end, right_end, along_text, peak_bar, peak_number, peak_text};

use crate::away::{Along, Away};
use crate::marks::Mark;
use crate::pictures::colour_of;
use crate::sheet::Position;
use crate::texts::{begin_text, end_text, put_coordinate, put_frame, put_line, put_markup};
use crate::walk::after_first;
use dmis_program::Touch;
use fixed_um::Point;
use std::alloc::AllocError;

/// The axis of the bars.
const AXIS: u64 = 274_500;

/// The longest bar.
const LONGEST: u128 = 8_000;

fn farther_out(peak: Option<Along>, next: Option<Along>) -> Option<Along>
    ensures { result ≡ farther_out peak next }
{
    match (peak, next) {
        (Some(peak), Some(next)) => {
            if peak.get().unsigned_abs() < next.get().unsigned_abs() {
                Some(next)
            } else {
                Some(peak)
            }
        }
        (Some(peak), None) => Some(peak),
        (None, next) => next,
    }
}

/// The peak of the touches of a feature that have measured these points.
pub(crate) fn peak_of(touches: &[Touch], points: &[Point]) -> Option<Along>
    requires { AllByRecursion IsTouch touches.now }
    ensures { IsPeakAfter None touches.now points.now result }
{
    let mut peak = None;
    let mut touches = touches;
    let mut points = points;
    while let [touch, later @ ..] = touches {
        let [point, ..] = points else {
            return peak;
        };
        peak = farther_out(peak, Away::of(*point, touch).along());
        touches = later;
        points = after_first(points);
    }
    peak
}

fn magnitude(peak: &Option<Along>) -> u128
    ensures value { result ≡ magnitude peak.now }
    ensures within { result ≤ 2 ^ 64 }
{
    match peak {
        Some(along) => along.get().unsigned_abs(),
        None => 0,
    }
}

/// The greatest magnitude of the peaks of a part, at least one micrometre.
pub(crate) fn greatest_peak(marks: &[Mark]) -> u128
    ensures value { result ≡ greatest_peak marks.now }
    ensures some { 0 < result }
    ensures within { result ≤ 2 ^ 64 }
{
    let mut most = 1;
    for mark in marks {
        most = most.max(magnitude(&mark.peak));
    }
    most
}

fn peak_length(most: u128, magnitude: u128) -> u64
    requires some { 0 < most }
    requires magnitude { magnitude ≤ 2 ^ 64 }
    ensures value { result ≡ peak_length most magnitude }
    ensures within { result ≤ 8000 }
{
    (magnitude * LONGEST / most).min(LONGEST) as u64
}

fn left_end(along: i128, length: u64) -> u64
    requires { length ≤ 8000 }
    ensures value { result ≡ left_end along length }
    ensures within { result ≤ 274500 }
{
    if along < 0 { AXIS - length } else { AXIS }
}

fn right_end(along: i128, length: u64) -> u64
    requires { length ≤ 8000 }
    ensures value { result ≡ right_end along length }
    ensures within { result ≤ 282500 }
{
    if along < 0 { AXIS } else { AXIS + length }
}

#[tactic(auto, unfolding(crate::specs::Peaks::peak_bar))]
fn put_peak_bar(
    out: &mut Vec<u8>,
    colour: &[u8],
    left: u64,
    right: u64,
    line: u64,
) -> Result<(), AllocError>
    requires left { left ≤ 282500 }
    requires right { right ≤ 282500 }
    requires low { 26000 ≤ line }
    requires high { line ≤ 186000 }
    ensures { OnOk result (out.new.items ≡ out.old.items ++ peak_bar colour.now left right line) }
{
    put_markup(out, b"<g stroke=\"none\" fill=\"")?;
    put_markup(out, colour)?;
    put_markup(out, b"\">")?;
    let first = Position::new(left, line - 2_000);
    put_frame(out, first, Position::new(right, line))?;
    put_markup(out, b"</g>\n")?;
    let above = Position::new(AXIS, line - 3_000);
    put_line(out, above, Position::new(AXIS, line + 1_000))
}

/// Appends a deviation at a position.
#[tactic(auto, unfolding(crate::specs::Peaks::along_text))]
pub(crate) fn put_along_text(
    out: &mut Vec<u8>,
    at: Position,
    along: Along,
) -> Result<(), AllocError>
    ensures { OnOk result (out.new.items ≡ out.old.items ++ along_text at along) }
{
    begin_text(out, at)?;
    put_coordinate(out, along.get())?;
    end_text(out)
}

#[tactic(auto, unfolding(crate::specs::Peaks::peak_number))]
fn put_peak_number(out: &mut Vec<u8>, along: Along, line: u64) -> Result<(), AllocError>
    requires { line ≤ 186000 }
    ensures { OnOk result (out.new.items ≡ out.old.items ++ peak_number along line) }
{
    put_markup(out, b"<g stroke=\"none\" text-anchor=\"end\">")?;
    put_along_text(out, Position::new(294_000, line), along)?;
    put_markup(out, b"</g>\n")
}

/// Appends the bar and the number of a peak at a line, if there is one.
pub(crate) fn put_peak(
    out: &mut Vec<u8>,
    most: u128,
    peak: &Option<Along>,
    line: u64,
) -> Result<(), AllocError>
    requires some { 0 < most }
    requires low { 26000 ≤ line }
    requires high { line ≤ 186000 }
    ensures { OnOk result (out.new.items ≡ out.old.items ++ peak_text most peak.now line) }
{
    match peak {
        Some(along) => {
            let length = peak_length(most, along.get().unsigned_abs());
            let left = left_end(along.get(), length);
            let right = right_end(along.get(), length);
            put_peak_bar(out, colour_of(peak), left, right, line)?;
            put_peak_number(out, *along, line)
        }
        None => Ok(()),
    }
}
