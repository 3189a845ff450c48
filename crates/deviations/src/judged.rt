// Whether points are within the limits of their features.

ghost use Rattle.std.specs.Prelude.{◌≡◌};
ghost use Rattle.deviations.specs.Judged.{verdict_of, row_verdict, verdict_word};

use crate::rows::Row;
use crate::{Limits, Range, Verdict};

fn verdict_of(range: Option<Range>, along: Option<i128>) -> Option<Verdict>
    ensures { result ≡ verdict_of range along }
{
    match (range, along) {
        (Some(range), Some(along)) => Some(range.verdict(along)),
        _ => None,
    }
}

/// Whether the point of a row is within the limit of its feature, by its deviation along the normal; none if no limit is for it, if it was
/// not measured, or if it has no normal. Does not allocate.
pub fn row_verdict(limits: &Limits, row: &Row<'_>) -> Option<Verdict>
    ensures { result ≡ row_verdict limits.now row.now }
{
    verdict_of(limits.range_for(row.feature()), row.along())
}

/// The word for a verdict: `in` or `out`.
pub fn verdict_word(verdict: Verdict) -> &'static str
    ensures { result.now ≡ verdict_word verdict }
{
    match verdict {
        Verdict::Inside => "in",
        Verdict::Outside => "out",
    }
}
