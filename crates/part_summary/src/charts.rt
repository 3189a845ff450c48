// The run chart of a feature.

ghost use Rattle.std.specs.Prelude.{◌≡◌, ◌≤◌, ◌^◌, ◌+◌, ◌*◌, ◌++◌, ◌+ℤ◌, OnOk, decimal, length, neg_ℤ, pos, unsigned_abs};
ghost use Rattle.drawings.specs.Texts.{markup};
ghost use Rattle.fixed_um.specs.Written.{written};
ghost use Rattle.part_summary.specs.Charts.{chart_start, chart_text, height, level, limit_levels, margin, reach_after, reach_of, reach_with, span_at, stroke, stroke_of, strokes};

use crate::plots::Plot;
use crate::spans::Span;
use crate::sums::{greater, lesser};
use crate::tables::length_text;
use deviations::Range;
use drawings::{put_between, put_count, put_markup};
use fixed_um::Um;
use std::alloc::AllocError;

/// The span of a part's feature, by the number of features before it.
fn span_at(feature: usize, part: &Plot) -> Option<Span>
    ensures { result ≡ span_at feature part.now }
{
    match part.spans.get(feature) {
        Some(span) => *span,
        None => None,
    }
}

/// Zero and limits.
fn reach_of(range: &Option<Range>) -> Span
    ensures { result ≡ reach_of range.now }
{
    match range {
        None => Span {
            least: 0,
            greatest: 0,
        },
        Some(range) => Span {
            least: lesser(0, i128::from(range.lower.get())),
            greatest: greater(0, i128::from(range.upper.get())),
        },
    }
}

fn reach_with(reach: Span, span: Option<Span>) -> Span
    ensures { result ≡ reach_with reach span }
{
    match span {
        None => reach,
        Some(span) => Span {
            least: lesser(reach.least, span.least),
            greatest: greater(reach.greatest, span.greatest),
        },
    }
}

fn reach_after(feature: usize, reach: Span, parts: &[Plot]) -> Span
    ensures { result ≡ reach_after feature reach parts.now }
{
    let mut most = reach;
    let mut left = parts;
    while let [part, others @ ..] = left {
        most = reach_with(most, span_at(feature, part));
        left = others;
    }
    most
}

/// Appends a length in millimetres.
pub(crate) fn put_length(out: &mut Vec<u8>, length: i128) -> Result<(), AllocError>
    ensures { OnOk result (out.new.items ≡ out.old.items ++ written length) }
{
    let text = length_text(*out.allocator(), length)?;
    out.extend_from_slice(text.as_bytes())
}

fn height(reach: Span) -> u128
    ensures is { result ≡ height reach }
    ensures bound { result ≤ 2 ^ 65 }
{
    (reach.greatest - reach.least).unsigned_abs()
}

fn margin(reach: Span) -> u128
    ensures is { result ≡ margin reach }
    ensures bound { result ≤ 2 ^ 65 }
{
    height(reach) / 20 + 1
}

/// Appends where the box that is seen begins, with y down.
fn put_top(out: &mut Vec<u8>, reach: Span) -> Result<(), AllocError>
    ensures { OnOk result (out.new.items
        ≡ out.old.items ++ written (neg_ℤ (reach.greatest +ℤ pos (margin reach)))) }
{
    put_length(out, -(reach.greatest + margin(reach) as i128))
}

/// Appends how high it is.
fn put_room(out: &mut Vec<u8>, reach: Span) -> Result<(), AllocError>
    ensures { OnOk result (out.new.items
        ≡ out.old.items ++ written (pos (height reach + 2 * margin reach))) }
{
    put_length(out, (height(reach) + 2 * margin(reach)) as i128)
}

fn put_start(out: &mut Vec<u8>, reach: Span, count: usize) -> Result<(), AllocError>
    ensures { OnOk result (out.new.items ≡ out.old.items ++ chart_start reach count) }
{
    put_markup(
        out,
        b"<svg class=\"run\" preserveAspectRatio=\"none\" viewBox=\"0 ",
    )?;
    put_top(out, reach)?;
    put_markup(out, b" ")?;
    put_width(out, count)?;
    put_markup(out, b" ")?;
    put_room(out, reach)?;
    put_markup(out, b"\"><g transform=\"scale(1 -1)\">\n")
}

/// Appends the width of a chart of this many parts. Fails only if out of memory, or if there are too many.
fn put_width(out: &mut Vec<u8>, count: usize) -> Result<(), AllocError>
    ensures { OnOk result (out.new.items ≡ out.old.items ++ decimal (count + 1)) }
{
    match count.checked_add(1) {
        Some(width) => put_count(out, width),
        None => Err(AllocError),
    }
}

fn put_level(out: &mut Vec<u8>, class: &[u8], at: i128, count: usize) -> Result<(), AllocError>
    ensures { OnOk result (out.new.items ≡ out.old.items ++ level class.now at count) }
{
    put_markup(out, b"<path class=\"")?;
    put_markup(out, class)?;
    put_markup(out, b"\" d=\"M0 ")?;
    put_length(out, at)?;
    put_markup(out, b"H")?;
    put_width(out, count)?;
    put_markup(out, b"\"/>\n")
}

/// Appends a limit in millimetres.
pub(crate) fn put_limit(out: &mut Vec<u8>, limit: Um) -> Result<(), AllocError>
    ensures { OnOk result (out.new.items ≡ out.old.items ++ written limit) }
{
    put_length(out, i128::from(limit.get()))
}

fn put_limits(out: &mut Vec<u8>, range: &Option<Range>, count: usize) -> Result<(), AllocError>
    ensures { OnOk result (out.new.items ≡ out.old.items ++ limit_levels range.now count) }
{
    let Some(range) = range else {
        return Ok(());
    };
    put_level(out, b"limit", i128::from(range.lower.get()), count)?;
    put_level(out, b"limit", i128::from(range.upper.get()), count)
}

fn put_least(out: &mut Vec<u8>, span: Span) -> Result<(), AllocError>
    ensures { OnOk result (out.new.items ≡ out.old.items ++ written span.least) }
{
    put_length(out, span.least)
}

fn put_greatest(out: &mut Vec<u8>, span: Span) -> Result<(), AllocError>
    ensures { OnOk result (out.new.items ≡ out.old.items ++ written span.greatest) }
{
    put_length(out, span.greatest)
}

fn put_stroke(out: &mut Vec<u8>, number: usize, name: &[u8], span: Span) -> Result<(), AllocError>
    ensures { OnOk result (out.new.items ≡ out.old.items ++ stroke number name.now span) }
{
    put_markup(out, b"<path d=\"M")?;
    put_count(out, number)?;
    put_markup(out, b" ")?;
    put_least(out, span)?;
    put_markup(out, b"V")?;
    put_greatest(out, span)?;
    put_between(out, b"\"><title>", name, b"</title></path>\n")
}

fn put_stroke_of(
    out: &mut Vec<u8>,
    number: usize,
    name: &[u8],
    span: Option<Span>,
) -> Result<(), AllocError>
    ensures { OnOk result (out.new.items ≡ out.old.items ++ stroke_of number name.now span) }
{
    match span {
        None => Ok(()),
        Some(span) => put_stroke(out, number, name, span),
    }
}

fn put_strokes(out: &mut Vec<u8>, feature: usize, parts: &[Plot]) -> Result<(), AllocError>
    ensures { OnOk result (out.new.items ≡ out.old.items ++ strokes feature 1 parts.now) }
{
    let mut number = 1;
    let mut left = parts;
    while let [part, others @ ..] = left {
        put_stroke_of(out, number, part.name.as_slice(), span_at(feature, part))?;
        number += 1;
        left = others;
    }
    Ok(())
}

/// Appends the run chart of a feature, by the number of features before it. Fails only if out of memory.
pub(crate) fn put_chart(
    out: &mut Vec<u8>,
    feature: usize,
    range: &Option<Range>,
    parts: &[Plot],
) -> Result<(), AllocError>
    ensures { OnOk result (out.new.items
        ≡ out.old.items ++ chart_text feature range.now parts.now) }
{
    let count = parts.len();
    put_start(out, reach_after(feature, reach_of(range), parts), count)?;
    put_level(out, b"zero", 0, count)?;
    put_limits(out, range, count)?;
    put_strokes(out, feature, parts)?;
    put_markup(out, b"</g></svg>\n")
}
