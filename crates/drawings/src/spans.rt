// What coordinates fill along an axis.

ghost use Rattle.std.specs.Prelude.{◌≡◌, ◌≤◌, ◌≤ℤ◌, ◌-ℤ◌, ℤ, pos, unsigned_abs};
ghost use Rattle.drawings.specs.Scales.{length_limit};
ghost use Rattle.drawings.specs.Places.{machine_limit, height_in, IsBetween, IsWider};

use crate::places::Coordinate;

/// The range from the lowest to the highest coordinate, in micrometres.
#[derive(Clone, Copy)]
pub(crate) struct Span {
    pub low: i64,
    pub high: i64,
    ghost ordered: { low ≤ℤ high },
    ghost low_within: { unsigned_abs low ≤ machine_limit },
    ghost high_within: { unsigned_abs high ≤ machine_limit },
}

impl Span {
    /// One coordinate alone.
    pub fn at(coordinate: Coordinate) -> Span
        ensures low { result.low ≡ coordinate }
        ensures high { result.high ≡ coordinate }
    {
        let only = coordinate.get();
        Span {
            low: only,
            high: only,
        }
    }

    /// The span extended to include this coordinate.
    pub fn with(self, coordinate: Coordinate) -> Span
        ensures { IsWider self.low self.high coordinate result.low result.high }
    {
        let more = coordinate.get();
        if more < self.low {
            Span {
                low: more,
                high: self.high,
            }
        } else if self.high < more {
            Span {
                low: self.low,
                high: more,
            }
        } else {
            self
        }
    }

    /// How long it is.
    pub fn length(self) -> u64
        ensures value { result ≡ unsigned_abs (self.high -ℤ self.low) }
        ensures within { result ≤ length_limit }
    {
        (self.high - self.low) as u64
    }

    /// How far a coordinate is above the lowest; one that lies outside is clamped to the nearer end.
    #[tactic(auto, unfolding(crate::specs::Places::height_in))]
    pub fn above(self, coordinate: Coordinate) -> u64
        ensures value { IsBetween self.low self.high coordinate
            → result ≡ unsigned_abs (coordinate -ℤ self.low) }
        ensures nearest { result ≡ height_in self.low self.high coordinate }
        ensures within { result ≤ unsigned_abs (self.high -ℤ self.low) }
    {
        let here = coordinate.get();
        if here < self.low {
            0
        } else if self.high < here {
            self.length()
        } else {
            (here - self.low) as u64
        }
    }
}
