// Scales, and the largest at which lengths fit.

ghost use Rattle.std.specs.Prelude.{◌≡◌, ◌≤◌, ◌<◌, ◌*◌, ◌^◌, ℕ, IsTrue, ◌↔◌};
ghost use Rattle.drawings.specs.Names.{round, numerator, denominator, on_paper, tenths, Fits, AreShort, IsScaleFor, length_limit, IsLongest};

use std::marker::Model;

/// Lengths to draw, in micrometres: one across the paper, and two above each other.
#[derive(Clone, Copy)]
pub(crate) struct Lengths {
    pub across: u64,
    pub first: u64,
    pub second: u64,
}

/// The available paper, in micrometres.
#[derive(Clone, Copy)]
pub(crate) struct Room {
    pub across: u64,
    pub upright: u64,
}

/// A round scale: 1, 2, 2.5, 3, 4 or 5 times a power of ten to one, from 10,000:1 on, or one to that, down to 1:2,000,000.
#[derive(Clone, Copy)]
pub(crate) struct Scale {
    number: usize,
}

impl Model for Scale {
    ghost use Rattle.std.specs.Prelude.{ℕ, ◌≤◌};

    ghost Value = { ℕ };

    ghost view = { λ s. s.number };

    ghost invariant = { λ s. s.number ≤ 61 };

    ghost inverse = { λ n. record { number = n } };
}

/// The round length of an index: 1, 2, 5, 10, 20, 50, ..
pub(crate) fn round(index: usize) -> u64
    requires { index ≤ 30 }
    ensures value { result ≡ round index }
    ensures within { result ≤ 10 ^ 10 }
{
    [1, 2, 5][index % 3] * 10u64.pow(index as u32 / 3)
}

/// Ten times the number of a scale: 10, 20, 25, 30, 40, 50, 100, ..
fn tenths(index: usize) -> u64
    requires { index ≤ 37 }
    ensures value { result ≡ tenths index }
    ensures some { 10 ≤ result }
    ensures few { index ≤ 24 → result ≤ 10 ^ 5 }
    ensures within { result ≤ 5 * 10 ^ 7 }
{
    [10, 20, 25, 30, 40, 50][index % 6] * 10u64.pow(index as u32 / 6)
}

impl Scale {
    /// The numerator of the ratio of paper to part, in tenths.
    #[tactic(auto, unfolding(crate::specs::Scales::numerator))]
    pub fn numerator(self) -> u64
        ensures value { result ≡ numerator self }
        ensures within { result ≤ 10 ^ 5 }
    {
        tenths(24usize.saturating_sub(self.number))
    }

    /// The denominator of the ratio of paper to part, in tenths.
    #[tactic(auto, unfolding(crate::specs::Scales::denominator))]
    pub fn denominator(self) -> u64
        ensures value { result ≡ denominator self }
        ensures some { 10 ≤ result }
        ensures within { result ≤ 5 * 10 ^ 7 }
    {
        tenths(self.number.saturating_sub(24))
    }

    /// A length on paper, in whole micrometres, rounded down.
    #[tactic(auto, unfolding(crate::specs::Scales::on_paper))]
    pub fn on_paper(self, length: u64) -> u64
        requires { length ≤ length_limit }
        ensures { result ≡ on_paper self length }
    {
        length * self.numerator() / self.denominator()
    }

    fn fits(self, lengths: Lengths, room: Room) -> bool
        requires { AreShort lengths }
        ensures fits { IsTrue result → Fits self lengths room }
        ensures fits_not { Fits self lengths room → IsTrue result }
    {
        let across = u128::from(self.on_paper(lengths.across));
        let first = u128::from(self.on_paper(lengths.first));
        let second = u128::from(self.on_paper(lengths.second));
        across <= u128::from(room.across) && first + second <= u128::from(room.upright)
    }

    /// The largest scale at which the lengths fit. Requires that they fit at the smallest.
    fn largest(lengths: Lengths, room: Room) -> Scale
        requires lengths { AreShort lengths }
        requires smallest { Fits 61 lengths room }
        ensures fits { Fits result lengths room }
        ensures largest { (larger : ℕ) → larger < result → Fits larger lengths room → ⊥ }
    {
        for number in 0..61 {
            let scale = Scale { number };
            if scale.fits(lengths, room) {
                return scale;
            }
        }
        Scale { number: 61 }
    }

    /// The largest scale at which the lengths fit; 1:1 if there is nothing to draw. Requires that they fit at the smallest.
    #[tactic(auto, using(crate::proofs::Paper::nothing))]
    pub fn for_room(lengths: Lengths, room: Room) -> Scale
        requires lengths { AreShort lengths }
        requires smallest { Fits 61 lengths room }
        ensures { IsScaleFor lengths room result }
    {
        if lengths.across == 0 && lengths.first == 0 && lengths.second == 0 {
            Scale { number: 24 }
        } else {
            Scale::largest(lengths, room)
        }
    }

    /// The number of the longest round length that is at most this long on paper; that of the shortest if none fits.
    #[tactic(auto, using(crate::proofs::Paper::shortest_fits))]
    pub fn bar(self, room: u64) -> usize
        ensures within { result ≤ 30 }
        ensures longest { 10000 ≤ room → IsLongest self room result }
    {
        let _within = (self.numerator(), self.denominator());
        for back in 0..30 {
            let number = 30 - back;
            if self.on_paper(round(number)) <= room {
                return number;
            }
        }
        0
    }
}
