// The way of the probe: the straight travels of a program from feature to feature, and the touches that go astray if refused statements are
// deleted.

ghost use Rattle.std.specs.Prelude.{◌≡◌, ◌≤◌, ◌*◌, ◌^◌, ◌++◌, ◌+ℤ◌, ◌-ℤ◌, unsigned_abs, OnOk};
ghost use Rattle.fixed_um.specs.Points.{point_sum};
ghost use Rattle.program_review.specs.Strays.{astray, by_hand, strays_in, strays_of};
ghost use Rattle.program_review.specs.Travels as spec;
ghost use Rattle.program_review.specs.Travels.{zeros, squared, squared_distance, squared_length, IsLength};

use crate::groups::is_of_coordinates;
use crate::remarks::{Remark, What, push_remark};
use crate::said::Said;
use dmis_program::{Frames, Keyword, StatementMeaning};
use fixed_um::{Point, Um};
use std::alloc::AllocError;

/// A touch on the way of the probe.
#[derive(Clone, Copy, Debug, PartialEq, Eq)]
pub struct Stop {
    /// The number of its line, from 1.
    pub line: u64,
    /// Its target, as the program has it.
    pub target: Point,
    /// The zero point of its coordinates in machine axes, if it is known.
    pub zero: Option<Point>,
    /// The line of the statement that has selected them; 0 at the start.
    pub set_on: u64,
}

/// A travel of the probe from feature to feature, with no move between.
#[derive(Clone, Copy, Debug, PartialEq, Eq)]
pub struct Travel {
    /// The last touch of a feature.
    pub last: Stop,
    /// The first touch of the next one.
    pub first: Stop,
}

/// How a touch would be measured once the refused statements above it are deleted.
#[derive(Clone, Copy, Debug, PartialEq, Eq)]
pub(crate) enum Stray {
    /// In machine coordinates instead of others.
    Machine,
    /// Likewise in those of a stored frame that is recalled above them.
    Stored,
    /// By the machine itself instead of the operator. The number of its line, from 1.
    ByHand(u64),
}

/// What has been passed on the way.
#[derive(Clone, Copy)]
pub(crate) struct Way {
    /// The zero point of the coordinates that are selected, if it is known.
    pub(crate) zero: Option<Point>,
    /// The line of the statement that has selected them.
    pub(crate) set_on: u64,
    /// A stored frame has been selected.
    pub(crate) is_stored: bool,
    /// The last `MODE` is refused: an operator is to take the touches.
    pub(crate) is_by_hand: bool,
    /// A block is open.
    pub(crate) is_open: bool,
    /// A block has begun since the last touch whose place is known.
    pub(crate) has_begun: bool,
    /// That touch, if no move came since.
    pub(crate) last: Option<Stop>,
}

impl Way {
    fn start() -> Way
        ensures { result ≡ spec.at_home }
    {
        Way {
            zero: Some(Point::zero()),
            set_on: 0,
            is_stored: false,
            is_by_hand: false,
            is_open: false,
            has_begun: false,
            last: None,
        }
    }

    fn selected(&self, zero: Option<Point>, line: u64) -> Way
        ensures { result ≡ spec.way_selected self.now zero line }
    {
        Way {
            zero,
            set_on: line,
            is_stored: self.is_stored || zero.is_some(),
            ..*self
        }
    }

    fn recalled(&self, frames: &Frames, said: &Said) -> Way
        ensures { result ≡ spec.way_recalled frames.now self.now said.now }
    {
        match said.meaning() {
            Some(StatementMeaning::Recalls(name)) => self.selected(frames.get(name), said.line()),
            Some(_) => *self,
            None => self.selected(None, said.line()),
        }
    }

    /// The touch that a statement makes, if its place is known.
    fn stop_at(&self, said: &Said) -> Option<Stop>
        ensures { result ≡ spec.stop_at self.now said.now }
    {
        match said.meaning() {
            Some(StatementMeaning::Touches(target, _)) if self.is_open => Some(Stop {
                line: said.line(),
                target: *target,
                zero: self.zero,
                set_on: self.set_on,
            }),
            _ => None,
        }
    }

    fn stopped(&self, last: Option<Stop>) -> Way
        ensures { result ≡ spec.way_stopped self.now last }
    {
        Way {
            has_begun: self.has_begun && last.is_none(),
            last,
            ..*self
        }
    }

    fn after(&self, frames: &Frames, said: &Said) -> Way
        ensures { result ≡ spec.way_after frames.now self.now said.now }
    {
        match said.keyword() {
            Keyword::Recall => self.recalled(frames, said),
            Keyword::Unknown if is_of_coordinates(&said.statement.word) => {
                self.selected(None, said.line())
            }
            Keyword::Mode => Way {
                is_by_hand: said.meaning().is_none(),
                ..*self
            },
            Keyword::Meas => Way {
                is_open: true,
                has_begun: true,
                ..*self
            },
            Keyword::Endmes => Way {
                is_open: false,
                ..*self
            },
            Keyword::Goto => self.stopped(None),
            Keyword::Ptmeas => self.stopped(self.stop_at(said)),
            _ => *self,
        }
    }

    fn travel_to(&self, said: &Said) -> Option<What>
        ensures { result ≡ spec.travel_to self.now said.now }
    {
        let first = self.stop_at(said)?;
        let last = self.last?;
        if self.has_begun {
            Some(What::Straight(Travel { last, first }))
        } else {
            None
        }
    }

    /// Adds how a touch on this line would be measured, if otherwise than it is meant.
    fn push_touch(&self, strays: &mut Vec<Stray>, line: u64) -> Result<(), AllocError>
        ensures { OnOk result (strays.new.items
            ≡ strays.old.items ++ (astray self.now ++ by_hand self.now line)) }
    {
        if self.zero.is_none() {
            strays.push(if self.is_stored {
                Stray::Stored
            } else {
                Stray::Machine
            })?;
        }
        if self.is_by_hand {
            strays.push(Stray::ByHand(line))?;
        }
        Ok(())
    }

    fn push_strays(&self, strays: &mut Vec<Stray>, said: &Said) -> Result<(), AllocError>
        ensures { OnOk result (strays.new.items ≡ strays.old.items ++ strays_in self.now said.now) }
    {
        match said.keyword() {
            Keyword::Ptmeas => self.push_touch(strays, said.line()),
            _ => Ok(()),
        }
    }
}

/// Adds each straight travel from the last touch of a feature to the first touch of the next, with no `GOTO` between, among these statements, in
/// order, up to `ENDFIL`; `frames` are those that they may recall. A touch that is refused for itself or outside a block ends a way and begins
/// none, since its place is not known. Adds also the touches that would be measured otherwise if the refused statements above them were
/// deleted: those after one that sets up, keeps or recalls a coordinate system, up to the next `RECALL` of a stored frame, and those after a
/// refused `MODE`, up to the next that is accepted. Fails only if out of memory.
pub(crate) fn push_travels(
    remarks: &mut Vec<Remark>,
    strays: &mut Vec<Stray>,
    statements: &[Said],
    frames: &Frames,
) -> Result<(), AllocError>
    ensures travels { OnOk result (remarks.new.items
        ≡ remarks.old.items ++ spec.travels_of frames.now statements.now) }
    ensures strays { OnOk result (strays.new.items
        ≡ strays.old.items ++ strays_of frames.now statements.now) }
{
    let mut way = Way::start();
    let mut left = statements;
    while let [said, rest @ ..] = left {
        if said.is_end() {
            break;
        }
        push_remark(remarks, way.travel_to(said), said.line())?;
        way.push_strays(strays, said)?;
        way = way.after(frames, said);
        left = rest;
    }
    Ok(())
}

#[tactic(auto, unfolding(crate::specs::Travels::squared))]
fn squared(length: i64) -> u128
    requires { unsigned_abs length ≤ 16000000000 }
    ensures value { result ≡ squared length }
    ensures within { result ≤ 256 * 10 ^ 18 }
{
    let magnitude = u128::from(length.unsigned_abs());
    magnitude * magnitude
}

/// A length as it is seen from the zero point of another axis.
fn shifted(length: Um, zero: Um) -> i64
    ensures value { result ≡ length +ℤ zero }
    ensures within { unsigned_abs result ≤ 8000000000 }
{
    length.get() + zero.get()
}

fn squared_apart(last: i64, first: i64) -> u128
    requires last { unsigned_abs last ≤ 8000000000 }
    requires first { unsigned_abs first ≤ 8000000000 }
    ensures value { result ≡ squared (first -ℤ last) }
    ensures within { result ≤ 256 * 10 ^ 18 }
{
    squared(first - last)
}

/// The square of how far two lengths are apart, each seen from its zero point.
fn squared_shifted(last: Um, last_zero: Um, first: Um, first_zero: Um) -> u128
    ensures value { result ≡ squared ((first +ℤ first_zero) -ℤ (last +ℤ last_zero)) }
    ensures within { result ≤ 256 * 10 ^ 18 }
{
    let last_place = shifted(last, last_zero);
    let first_place = shifted(first, first_zero);
    squared_apart(last_place, first_place)
}

/// The square of how far two points are apart, each seen from its zero point.
fn squared_distance(last: Point, last_zero: Point, first: Point, first_zero: Point) -> u128
    ensures { result ≡ squared_distance (point_sum last last_zero) (point_sum first first_zero) }
{
    squared_shifted(last.x, last_zero.x, first.x, first_zero.x)
        + squared_shifted(last.y, last_zero.y, first.y, first_zero.y)
        + squared_shifted(last.z, last_zero.z, first.z, first_zero.z)
}

/// The zero points of coordinates that are the same or not, seen from one place; none if they differ and are not both known.
fn zeros(last: Option<Point>, first: Option<Point>, is_same: bool) -> Option<(Point, Point)>
    ensures { result ≡ zeros last first is_same }
{
    match (last, first) {
        (Some(last), Some(first)) => Some((last, first)),
        _ if is_same => Some((Point::zero(), Point::zero())),
        _ => None,
    }
}

impl Travel {
    /// Its length in whole micrometres, rounded down; none if other coordinates are selected on the way, and are not both known. Does not
    /// allocate.
    pub(crate) fn length(&self) -> Option<u128>
        ensures { IsLength (squared_length self.now) result }
    {
        let is_same = self.last.set_on == self.first.set_on;
        let (last_zero, first_zero) = zeros(self.last.zero, self.first.zero, is_same)?;
        let square = squared_distance(self.last.target, last_zero, self.first.target, first_zero);
        Some(square.isqrt())
    }
}
