// The two views.

ghost use Rattle.std.specs.Prelude.{◌≡◌, ◌≤◌, ◌+◌, ◌-◌, ◌-ℤ◌, unsigned_abs};
ghost use Rattle.deviations.specs.Along.{IsDeviation};
ghost use Rattle.drawings.specs.Scales.{on_paper};
ghost use Rattle.drawings.specs.Sheet.{margin, sheet_width, sheet_height};
ghost use Rattle.drawings.specs.Places.{height_in, IsBetween};
ghost use Rattle.drawings.specs.Views.{upright_of, part_of, IsInView, moved, tip_of};

use crate::places::Place;
use crate::scales::Scale;
use crate::sheet::Position;
use crate::sides::Side;
use crate::spans::Span;
use crate::whiskers::Whiskers;
use deviations::Deviation;

/// The left and the right edge of both frames.
pub(crate) const FRAME_LEFT: u64 = 10_000;

pub(crate) const FRAME_RIGHT: u64 = 217_000;

/// A view: what it shows across and upright, at which scale, where the lowest of both is on the sheet, and its frame.
#[derive(Clone, Copy)]
pub(crate) struct View {
    pub side: Side,
    pub scale: Scale,
    pub across: Span,
    pub upright: Span,
    pub left: u64,
    pub base: u64,
    pub top: u64,
    pub bottom: u64,
    ghost left_room: { margin ≤ left },
    ghost right_room: { left + on_paper scale (unsigned_abs (across.high -ℤ across.low)) + margin
        ≤ sheet_width },
    ghost upper_room: { margin + on_paper scale (unsigned_abs (upright.high -ℤ upright.low))
        ≤ base },
    ghost lower_room: { base + margin ≤ sheet_height },
    ghost title_room: { 7000 ≤ top },
    ghost frame_top: { top + margin ≤ base },
    ghost frame_low: { base + margin ≤ bottom },
    ghost frame_bottom: { bottom ≤ sheet_height },
}

impl View {
    /// The position of a place in the view: across from the left, and up from the base.
    #[tactic(auto, using(crate::proofs::Paper::shorter))]
    pub fn position(&self, place: Place) -> Position
        ensures across { IsBetween self.now.across.low self.now.across.high place.x
            → result.across ≡ self.now.left
            + on_paper self.now.scale (unsigned_abs (place.x -ℤ self.now.across.low)) }
        ensures down { IsBetween self.now.upright.low self.now.upright.high
            (upright_of self.now.side place)
            → result.down ≡ self.now.base
            - on_paper self.now.scale (unsigned_abs (upright_of self.now.side place
            -ℤ self.now.upright.low)) }
        ensures right { result.across ≡ self.now.left + on_paper self.now.scale
            (height_in self.now.across.low self.now.across.high place.x) }
        ensures up { result.down ≡ self.now.base - on_paper self.now.scale
            (height_in self.now.upright.low self.now.upright.high
            (upright_of self.now.side place)) }
        ensures in_view { IsInView result }
    {
        let right = self.scale.on_paper(self.across.above(place.x));
        let up = self
            .scale
            .on_paper(self.upright.above(self.side.upright_of(place)));
        Position::new(self.left + right, self.base - up)
    }

    /// The end of a deviation's line that starts at a position in the view.
    pub fn tip(&self, from: Position, deviation: Deviation, whiskers: &Whiskers) -> Position
        requires in_view { IsInView from }
        requires deviation { IsDeviation deviation }
        ensures { result ≡ tip_of self.now.side whiskers.now from deviation }
    {
        let right = deviation.x;
        let across = moved(from.across(), right, whiskers.length(right));
        let part = self.side.part_of(deviation);
        let down = moved(from.down(), -part, whiskers.length(part));
        Position::new(across, down)
    }
}

/// A length moved by another in the direction of a number's sign: up if the number is above zero, down if it is below.
fn moved(from: u64, side: i64, by: u64) -> u64
    requires enough { by ≤ from }
    requires small { from ≤ 300000 }
    ensures value { result ≡ moved from side by }
    ensures most { result ≤ from + by }
{
    if side < 0 { from - by } else { from + by }
}
