// The table of each feature.

ghost use Rattle.std.specs.Prelude.{◌≡◌, ◌<◌, ◌≤◌, ◌^◌, ◌++◌, ◌∷◌, [], decimal, pos, OnOk};
ghost use Rattle.drawings.specs.Names.{written, point_fields, measured_fields, deviation_fields, along_fields, verdict_field, limit_fields, between, cell, cells, number_cells, row_class, row_start, row_text, rows_text, limit_title, titles, worst_text, range_line, range_text, limit_text, heading_end, heading, section_text, sections_text};

use crate::bar_cells::put_bar_cell;
use crate::markup::{put_between, put_cell};
use crate::texts::put_markup;
use deviations::{
    Deviation, Limits, Micrometres, Range, Row, Verdict, first_rows, later_rows, row_verdict,
    verdict_word, worst_words,
};
use dmis_program::Wanted;
use fixed_um::{Name, Point, Um, write_um};
use std::alloc::{AllocError, Global};

fn put_written(alloc: Global, out: &mut Vec<u8>, length: i128) -> Result<(), AllocError>
    ensures { OnOk result (out.new.items ≡ out.old.items ++ written length) }
{
    let length = Micrometres(length);
    let text = format!(in alloc; "{length}")?;
    out.extend_from_slice(text.as_bytes())
}

fn put_length(alloc: Global, out: &mut Vec<u8>, length: i128) -> Result<(), AllocError>
    ensures { OnOk result (out.new.items ≡ out.old.items ++ cell (written length)) }
{
    let length = Micrometres(length);
    let text = format!(in alloc; "{length}")?;
    put_cell(out, text.as_bytes())
}

fn put_ordinal(alloc: Global, out: &mut Vec<u8>, number: u64) -> Result<(), AllocError>
    ensures { OnOk result (out.new.items ≡ out.old.items ++ cell (decimal number)) }
{
    let text = format!(in alloc; "{number}")?;
    put_cell(out, text.as_bytes())
}

fn put_two(alloc: Global, out: &mut Vec<u8>, x: i128, y: i128) -> Result<(), AllocError>
    ensures { OnOk result (out.new.items ≡ out.old.items ++ cells (written x ∷ written y ∷ [])) }
{
    put_length(alloc, out, x)?;
    put_length(alloc, out, y)
}

fn put_three(alloc: Global, out: &mut Vec<u8>, x: i128, y: i128, z: i128) -> Result<(), AllocError>
    ensures { OnOk result (out.new.items
        ≡ out.old.items ++ cells (written x ∷ written y ∷ written z ∷ [])) }
{
    put_length(alloc, out, x)?;
    put_two(alloc, out, y, z)
}

fn put_point(alloc: Global, out: &mut Vec<u8>, point: Point) -> Result<(), AllocError>
    ensures { OnOk result (out.new.items ≡ out.old.items ++ cells (point_fields point)) }
{
    put_length(alloc, out, i128::from(point.x.get()))?;
    put_length(alloc, out, i128::from(point.y.get()))?;
    put_length(alloc, out, i128::from(point.z.get()))
}

fn put_nothing(out: &mut Vec<u8>) -> Result<(), AllocError>
    ensures { OnOk result (out.new.items ≡ out.old.items ++ cells ([] ∷ [] ∷ [] ∷ [])) }
{
    put_cell(out, b"")?;
    put_cell(out, b"")?;
    put_cell(out, b"")
}

fn put_measured(alloc: Global, out: &mut Vec<u8>, measured: Option<Point>) -> Result<(), AllocError>
    ensures { OnOk result (out.new.items ≡ out.old.items ++ cells (measured_fields measured)) }
{
    match measured {
        Some(point) => put_point(alloc, out, point),
        None => put_nothing(out),
    }
}

fn put_deviation(
    alloc: Global,
    out: &mut Vec<u8>,
    deviation: Option<Deviation>,
) -> Result<(), AllocError>
    ensures { OnOk result (out.new.items ≡ out.old.items ++ cells (deviation_fields deviation)) }
{
    match deviation {
        Some(deviation) => put_three(
            alloc,
            out,
            i128::from(deviation.x),
            i128::from(deviation.y),
            i128::from(deviation.z),
        ),
        None => put_nothing(out),
    }
}

fn put_along(alloc: Global, out: &mut Vec<u8>, along: Option<i128>) -> Result<(), AllocError>
    ensures { OnOk result (out.new.items ≡ out.old.items ++ cells (along_fields along)) }
{
    match along {
        Some(along) => put_length(alloc, out, along),
        None => put_cell(out, b""),
    }
}

fn put_numbers(alloc: Global, out: &mut Vec<u8>, row: &Row<'_>) -> Result<(), AllocError>
    ensures { OnOk result (out.new.items ≡ out.old.items ++ number_cells row.now) }
{
    put_ordinal(alloc, out, row.number())?;
    put_point(alloc, out, row.nominal())?;
    put_measured(alloc, out, row.measured())?;
    put_deviation(alloc, out, row.deviation())?;
    put_along(alloc, out, row.along())
}

fn word_of(verdict: Option<Verdict>) -> &'static [u8]
    ensures { result.now ≡ verdict_field verdict }
{
    match verdict {
        Some(verdict) => verdict_word(verdict).as_bytes(),
        None => b"",
    }
}

fn row_class(limits: &Option<Limits>, row: &Row<'_>) -> &'static [u8]
    ensures { result.now ≡ row_class limits.now row.now }
{
    match limits {
        Some(limits) => word_of(row_verdict(limits, row)),
        None => b"",
    }
}

fn put_limit(out: &mut Vec<u8>, limits: &Option<Limits>, row: &Row<'_>) -> Result<(), AllocError>
    ensures { OnOk result (out.new.items
        ≡ out.old.items ++ cells (limit_fields limits.now row.now)) }
{
    match limits {
        Some(limits) => put_cell(out, word_of(row_verdict(limits, row))),
        None => Ok(()),
    }
}

fn put_row_start(
    out: &mut Vec<u8>,
    limits: &Option<Limits>,
    row: &Row<'_>,
) -> Result<(), AllocError>
    ensures { OnOk result (out.new.items
        ≡ out.old.items ++ row_start limits.now row.now) }
{
    put_between(out, b"<tr class=\"", row_class(limits, row), b"\">")
}

#[tactic(auto, unfolding(crate::specs::Sections::row_text))]
fn put_row(
    alloc: Global,
    out: &mut Vec<u8>,
    most: u128,
    limits: &Option<Limits>,
    row: &Row<'_>,
) -> Result<(), AllocError>
    requires { 0 < most }
    ensures { OnOk result (out.new.items ≡ out.old.items ++ row_text most limits.now row.now) }
{
    put_row_start(out, limits, row)?;
    put_numbers(alloc, out, row)?;
    put_bar_cell(out, most, row)?;
    put_limit(out, limits, row)?;
    put_markup(out, b"</tr>\n")
}

fn put_rows(
    alloc: Global,
    out: &mut Vec<u8>,
    most: u128,
    limits: &Option<Limits>,
    rows: &[Row<'_>],
) -> Result<(), AllocError>
    requires { 0 < most }
    ensures { OnOk result (out.new.items ≡ out.old.items ++ rows_text most limits.now rows.now) }
{
    let mut left = rows;
    while let [row, others @ ..] = left {
        put_row(alloc, out, most, limits, row)?;
        left = others;
    }
    Ok(())
}

fn put_limit_title(out: &mut Vec<u8>, limits: &Option<Limits>) -> Result<(), AllocError>
    ensures { OnOk result (out.new.items ≡ out.old.items ++ limit_title limits.now) }
{
    match limits {
        Some(_) => put_markup(out, b"<th rowspan=\"2\">limit</th>"),
        None => Ok(()),
    }
}

#[tactic(auto, unfolding(crate::specs::Sections::titles))]
fn put_titles(
    alloc: Global,
    out: &mut Vec<u8>,
    most: u128,
    limits: &Option<Limits>,
) -> Result<(), AllocError>
    requires { most ≤ 2 ^ 64 }
    ensures { OnOk result (out.new.items ≡ out.old.items ++ titles most limits.now) }
{
    put_markup(
        out,
        b"<table><thead><tr><th rowspan=\"2\">point</th><th colspan=\"3\">nominal</th><th colspan=\"3\">",
    )?;
    put_markup(
        out,
        b"measured</th><th colspan=\"4\">deviation</th><th rowspan=\"2\">&#177;",
    )?;
    put_written(alloc, out, most as i128)?;
    put_markup(out, b"</th>")?;
    put_limit_title(out, limits)?;
    put_markup(
        out,
        b"</tr>\n<tr><th>x</th><th>y</th><th>z</th><th>x</th><th>y</th><th>z</th><th>x</th><th>y</th><th>z</th>",
    )?;
    put_markup(out, b"<th>along normal</th></tr></thead><tbody>\n")
}

fn put_worst(
    alloc: Global,
    out: &mut Vec<u8>,
    range: &Range,
    rows: &[Row<'_>],
) -> Result<(), AllocError>
    ensures { OnOk result (out.new.items ≡ out.old.items ++ worst_text range.now rows.now) }
{
    let worst = worst_words(alloc, *range, rows)?;
    put_between(out, b". <b>", worst.as_bytes(), b"</b></p>\n")
}

fn put_limit_length(out: &mut Vec<u8>, length: Um) -> Result<(), AllocError>
    ensures { OnOk result (out.new.items ≡ out.old.items ++ written length) }
{
    write_um(out, length)
}

#[tactic(auto, unfolding(crate::specs::Sections::range_line))]
fn put_range_line(
    alloc: Global,
    out: &mut Vec<u8>,
    range: &Range,
    rows: &[Row<'_>],
) -> Result<(), AllocError>
    ensures { OnOk result (out.new.items ≡ out.old.items ++ range_line range.now rows.now) }
{
    put_markup(out, b"<p>Limits ")?;
    put_limit_length(out, range.lower)?;
    put_markup(out, b" to ")?;
    put_limit_length(out, range.upper)?;
    put_worst(alloc, out, range, rows)
}

fn put_range(
    alloc: Global,
    out: &mut Vec<u8>,
    range: Option<Range>,
    rows: &[Row<'_>],
) -> Result<(), AllocError>
    ensures { OnOk result (out.new.items ≡ out.old.items ++ range_text range rows.now) }
{
    match range {
        Some(range) => put_range_line(alloc, out, &range, rows),
        None => put_markup(out, b"<p>No limit is for it.</p>\n"),
    }
}

fn put_limit_text(
    alloc: Global,
    out: &mut Vec<u8>,
    limits: &Option<Limits>,
    label: &Name,
    rows: &[Row<'_>],
) -> Result<(), AllocError>
    ensures { OnOk result (out.new.items
        ≡ out.old.items ++ limit_text limits.now label.now rows.now) }
{
    match limits {
        Some(limits) => put_range(alloc, out, limits.range_for(label), rows),
        None => Ok(()),
    }
}

fn heading_end(missing: bool) -> &'static [u8]
    ensures { result.now ≡ heading_end missing }
{
    if missing {
        b": not measured</h2>\n"
    } else {
        b"</h2>\n"
    }
}

fn put_heading(out: &mut Vec<u8>, missing: bool, label: &Name) -> Result<(), AllocError>
    ensures { OnOk result (out.new.items ≡ out.old.items ++ heading missing label.now) }
{
    put_between(out, b"<h2>", label.as_bytes(), heading_end(missing))
}

#[tactic(auto, unfolding(crate::specs::Sections::section_text))]
fn put_section(
    alloc: Global,
    out: &mut Vec<u8>,
    most: u128,
    limits: &Option<Limits>,
    missing: bool,
    label: &Name,
    rows: &[Row<'_>],
) -> Result<(), AllocError>
    requires some { 0 < most }
    requires within { most ≤ 2 ^ 64 }
    ensures { OnOk result (out.new.items
        ≡ out.old.items ++ section_text most limits.now missing label.now rows.now) }
{
    put_heading(out, missing, label)?;
    put_limit_text(alloc, out, limits, label, rows)?;
    put_titles(alloc, out, most, limits)?;
    put_rows(alloc, out, most, limits, rows)?;
    put_markup(out, b"</tbody></table>\n")
}

/// Appends the features of a program, each with its rows, of which this many were measured.
pub(crate) fn put_sections(
    alloc: Global,
    out: &mut Vec<u8>,
    most: u128,
    limits: &Option<Limits>,
    measured: usize,
    wanted: &[Wanted],
    rows: &[Row<'_>],
) -> Result<(), AllocError>
    requires some { 0 < most }
    requires within { most ≤ 2 ^ 64 }
    ensures { OnOk result (out.new.items
        ≡ out.old.items ++ sections_text most limits.now measured wanted.now rows.now) }
{
    let mut done = measured;
    let mut left = wanted;
    let mut later = rows;
    while let [first, others @ ..] = left {
        let count = first.touches.as_slice().len();
        let own = first_rows(later, count);
        put_section(alloc, out, most, limits, done == 0, &first.label, own)?;
        done = done.saturating_sub(1);
        left = others;
        later = later_rows(later, count);
    }
    Ok(())
}
