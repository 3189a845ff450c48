// How far the deviations of a feature of one part reach.

ghost use Rattle.std.specs.Prelude.{◌≡◌, ◌≤◌, ◌^◌, IfOk, IfSome, None, drop, take, unsigned_abs};
ghost use Rattle.part_summary.specs.Spans.{span_after, spans_of, widened};

use crate::sums::{greater, lesser};
use deviations::{Row, first_rows, later_rows};
use dmis_program::Wanted;
use std::alloc::{AllocError, Global};
use std::marker::Model;

/// The least and the greatest of deviations, in micrometres.
#[derive(Clone, Copy, Debug)]
pub(crate) struct Span {
    pub(crate) least: i128,
    pub(crate) greatest: i128,
}

impl Model for Span {
    ghost use Rattle.std.specs.Prelude.{◌≤◌, ◌^◌, unsigned_abs};
    ghost use Rattle.part_summary.specs.Spans.{Span};

    ghost Value = { Span };

    ghost view = { λ s. record { least = s.least; greatest = s.greatest } };

    ghost inverse = { λ s. record { least = s.least; greatest = s.greatest } };

    ghost invariant = { λ s. (unsigned_abs s.least ≤ 2 ^ 64) × (unsigned_abs s.greatest ≤ 2 ^ 64) };
}

/// With one deviation more, if there is one.
fn widened(span: Option<Span>, along: Option<i128>) -> Option<Span>
    requires { IfSome along (λ x. unsigned_abs x ≤ 2 ^ 64) }
    ensures { result ≡ widened span along }
{
    let Some(along) = along else {
        return span;
    };
    match span {
        None => Some(Span {
            least: along,
            greatest: along,
        }),
        Some(span) => Some(Span {
            least: lesser(span.least, along),
            greatest: greater(span.greatest, along),
        }),
    }
}

/// How far the deviations of rows reach.
fn span_of(rows: &[Row<'_>]) -> Option<Span>
    ensures { result ≡ span_after None rows.now }
{
    let mut span = None;
    let mut left = rows;
    while let [row, others @ ..] = left {
        span = widened(span, row.along());
        left = others;
    }
    span
}

/// Likewise for each feature, of which each has as many rows as it has touches.
pub(crate) fn spans_of(
    alloc: Global,
    wanted: &[Wanted],
    rows: &[Row<'_>],
) -> Result<Vec<Option<Span>>, AllocError>
    ensures { IfOk result (λ spans. spans.items ≡ spans_of wanted.now rows.now) }
{
    let mut spans = Vec::new(alloc);
    let mut left = wanted;
    let mut later = rows;
    while let [feature, others @ ..] = left {
        let count = feature.touches.as_slice().len();
        spans.push(span_of(first_rows(later, count)))?;
        later = later_rows(later, count);
        left = others;
    }
    Ok(spans)
}
