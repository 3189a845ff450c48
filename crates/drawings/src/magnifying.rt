// The lengths of deviations, and the scale of their lines.

ghost use Rattle.std.specs.Prelude.{◌≡◌, ◌≤◌, ◌*◌, ◌+◌, ℕ, unsigned_abs};
ghost use Rattle.drawings.specs.Names.{on_paper, IsScaleFor, margin, IsAtMost, NotLonger, IsLongestAway, AreWhiskers, one_length, whisker_room};

use crate::scales::{Lengths, Room, Scale};
use crate::walk::{Act, Stop};
use crate::whiskers::Whiskers;

/// The longest line of a deviation on paper, in micrometres: a twentieth of the width of a frame.
const LONGEST: u64 = 10_000;

pub(crate) fn squared(part: i64) -> u128
    requires { unsigned_abs part ≤ 8000000000 }
    ensures value { result ≡ unsigned_abs part * unsigned_abs part }
    ensures within { result ≤ 64000000000000000000 }
{
    let part = u128::from(part.unsigned_abs());
    part * part
}

/// The length of a line with these parts across and upright, in whole micrometres, rounded up.
#[tactic(auto, using(crate::proofs::Paper::root_within, crate::proofs::Paper::root_above, crate::proofs::Paper::root_exact))]
fn length(across: i64, upright: i64) -> u64
    requires across { unsigned_abs across ≤ 8000000000 }
    requires upright { unsigned_abs upright ≤ 8000000000 }
    ensures reaches { IsAtMost result across upright }
    ensures least { (most : ℕ) → IsAtMost most across upright → result ≤ most }
    ensures within { result ≤ 12000000000 }
{
    let square = squared(across) + squared(upright);
    let root = square.isqrt();
    let up = if root * root < square { root + 1 } else { root };
    up as u64
}

fn longest_of(stop: &Stop) -> u64
    ensures reaches { NotLonger result stop.now.act }
    ensures least { (most : ℕ) → NotLonger most stop.now.act → result ≤ most }
    ensures within { result ≤ 12000000000 }
{
    match stop.act {
        Act::Measured(away) => {
            let deviation = away.deviation();
            let across = deviation.x;
            length(across, deviation.y).max(length(across, deviation.z))
        }
        Act::Move | Act::Touch => 0,
    }
}

fn longest(stops: &[Stop]) -> u64
    ensures longest { IsLongestAway stops.now result }
    ensures within { result ≤ 12000000000 }
{
    let mut longest = 0;
    for stop in stops {
        longest = longest_of(stop).max(longest);
    }
    longest
}

#[tactic(auto, using(crate::proofs::Paper::whisker_fits))]
fn scale_of(longest: u64) -> Scale
    requires { longest ≤ 12000000000 }
    ensures scale { IsScaleFor (one_length longest) whisker_room result }
    ensures fits { on_paper result longest ≤ margin }
{
    let lengths = Lengths {
        across: longest,
        first: 0,
        second: 0,
    };
    let room = Room {
        across: LONGEST,
        upright: LONGEST,
    };
    Scale::for_room(lengths, room)
}

/// The deviations of stops at the largest scale at which the longest is at most 10 mm on paper; 1:1 if there is no deviation.
pub(crate) fn whiskers_of(stops: &[Stop]) -> Whiskers
    ensures { AreWhiskers stops.now result }
{
    let longest = longest(stops);
    let scale = scale_of(longest);
    Whiskers { scale, longest }
}
