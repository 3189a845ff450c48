// What is kept of the deviations of a touch.

ghost use Rattle.std.specs.Prelude.{◌≡◌, ◌≤◌, ◌<◌, ◌^◌, ◌*◌, ◌+◌, ◌+ℤ◌, ◌-ℤ◌, if◌then◌else◌, IfOk, IfSome, unsigned_abs};
ghost use Rattle.std.specs.Int.{int_min, int_max};
ghost use Rattle.fixed_um.specs.Computed.{rounded};
ghost use Rattle.deviations.specs.Along.{on_side_of};
ghost use Rattle.part_summary.specs.Sums.{is_outside, joined, mean, more, only};

use deviations::{Range, Verdict};
use std::alloc::AllocError;
use std::marker::Model;

/// What is kept of deviations, one of them at least, in micrometres.
#[derive(Clone, Copy)]
pub(crate) struct Sums {
    pub(crate) count: u64,
    total: i128,
    pub(crate) least: i128,
    pub(crate) greatest: i128,
    pub(crate) out: u64,
}

impl Model for Sums {
    ghost use Rattle.std.specs.Prelude.{◌*◌, ◌≤◌, ◌<◌, ◌^◌, unsigned_abs};
    ghost use Rattle.part_summary.specs.Sums.{Sums};

    ghost Value = { Sums };

    ghost view = { λ s. record {
      count = s.count;
      total = s.total;
      least = s.least;
      greatest = s.greatest;
      out = s.out;
    } };

    ghost inverse = { λ s. record {
      count = s.count;
      total = s.total;
      least = s.least;
      greatest = s.greatest;
      out = s.out;
    } };

    ghost invariant = { λ s. (0 < s.count) × (s.count ≤ 4000000000) × (s.out ≤ s.count)
        × (unsigned_abs s.total ≤ s.count * 2 ^ 64) × (unsigned_abs s.least ≤ 2 ^ 64)
        × (unsigned_abs s.greatest ≤ 2 ^ 64) };
}

/// The lesser of two deviations.
pub(crate) fn lesser(one: i128, other: i128) -> i128
    requires one { unsigned_abs one ≤ 2 ^ 64 }
    requires other { unsigned_abs other ≤ 2 ^ 64 }
    ensures value { result ≡ int_min one other }
    ensures within { unsigned_abs result ≤ 2 ^ 64 }
{
    if other < one { other } else { one }
}

/// The greater of two deviations.
pub(crate) fn greater(one: i128, other: i128) -> i128
    requires one { unsigned_abs one ≤ 2 ^ 64 }
    requires other { unsigned_abs other ≤ 2 ^ 64 }
    ensures value { result ≡ int_max one other }
    ensures within { unsigned_abs result ≤ 2 ^ 64 }
{
    if other < one { one } else { other }
}

/// A deviation added to the sum of that many.
fn total_with(along: i128, total: i128, count: u64) -> i128
    requires few { count < 4000000000 }
    requires along { unsigned_abs along ≤ 2 ^ 64 }
    requires total { unsigned_abs total ≤ count * 2 ^ 64 }
    ensures value { result ≡ along +ℤ total }
    ensures within { unsigned_abs result ≤ (count + 1) * 2 ^ 64 }
{
    along + total
}

/// One if a deviation is out of a range, else nothing.
fn outside(range: Option<Range>, along: i128) -> u64
    ensures value { result ≡ (if is_outside range along then 1 else 0) }
    ensures within { result ≤ 1 }
{
    match range {
        Some(range) => match range.verdict(along) {
            Verdict::Outside => 1,
            Verdict::Inside => 0,
        },
        None => 0,
    }
}

/// The sum divided by how many there are, to the nearest micrometre; of two equally near, the one farther from zero.
fn mean(sum: i128, count: u64) -> i128
    requires some { 0 < count }
    requires few { count ≤ 4000000000 }
    requires small { unsigned_abs sum ≤ count * 2 ^ 64 }
    ensures { result ≡ mean sum count }
{
    let count = u128::from(count);
    let nearest = ((2 * sum.unsigned_abs() + count) / (2 * count)) as i128;
    if sum < 0 { -nearest } else { nearest }
}

impl Sums {
    fn only(range: Option<Range>, along: i128) -> Sums
        requires { unsigned_abs along ≤ 2 ^ 64 }
        ensures { result ≡ only range along }
    {
        Sums {
            count: 1,
            total: along,
            least: along,
            greatest: along,
            out: outside(range, along),
        }
    }

    fn more(&self, range: Option<Range>, along: i128) -> Sums
        requires few { self.now.count < 4000000000 }
        requires small { unsigned_abs along ≤ 2 ^ 64 }
        ensures { result ≡ more range along self.now }
    {
        Sums {
            count: self.count + 1,
            total: total_with(along, self.total, self.count),
            least: lesser(along, self.least),
            greatest: greater(along, self.greatest),
            out: outside(range, along) + self.out,
        }
    }

    /// Their mean, rounded once.
    pub(crate) fn mean(&self) -> i128
        ensures { result ≡ mean self.now.total self.now.count }
    {
        mean(self.total, self.count)
    }

    /// The greatest less the least.
    pub(crate) fn range(&self) -> i128
        ensures { result ≡ self.now.greatest -ℤ self.now.least }
    {
        self.greatest - self.least
    }
}

/// What is kept of a touch: the range for its deviations, if a limit is for its feature, and their sums, if it has any.
#[derive(Clone, Copy)]
pub(crate) struct Tally {
    pub(crate) range: Option<Range>,
    pub(crate) sums: Option<Sums>,
}

impl Model for Tally {
    ghost use Rattle.part_summary.specs.Sums.{Tally};

    ghost Value = { Tally };

    ghost view = { λ t. record { range = t.range; sums = t.sums } };

    ghost inverse = { λ t. record { range = t.range; sums = t.sums } };
}

impl Tally {
    /// With the deviation of a part, if there is one. Fails only if there are too many.
    pub(crate) fn joined(&self, along: Option<i128>) -> Result<Tally, AllocError>
        requires { IfSome along (λ x. unsigned_abs x ≤ 2 ^ 64) }
        ensures range { IfOk result (λ t. t.range ≡ self.now.range) }
        ensures sums { IfOk result (λ t. t.sums ≡ joined self.now.range along self.now.sums) }
    {
        let Some(along) = along else {
            return Ok(*self);
        };
        let sums = match &self.sums {
            None => Sums::only(self.range, along),
            Some(sums) if sums.count >= 4_000_000_000 => return Err(AllocError),
            Some(sums) => sums.more(self.range, along),
        };
        Ok(Tally {
            range: self.range,
            sums: Some(sums),
        })
    }
}
