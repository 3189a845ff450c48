// The lines that compare the points of a part with limits.

ghost use Rattle.std.specs.Prelude.{◌≡◌, ◌-ℤ◌, ◌++◌, ◌≤◌, ◌^◌, take, drop, IfOk, OnOk, string_bytes, None, unsigned_abs};
ghost use Rattle.deviations.specs.Names.{int_min, margin, worse, worse_row, worst_after, point_words, worst_words, worst_line, worst_text, feature_text, features_text, is_out, compared_count, out_count, part_text, compared_text};

use crate::judged::{row_verdict, verdict_word};
use crate::printed::Micrometres;
use crate::rows::Row;
use crate::{Limits, Range, Verdict};
use dmis_program::{Program, Wanted};
use fixed_um::Name;
use std::alloc::{AllocError, Global};
use std::marker::Model;

/// The worst point of a feature: its number there, and its deviation along the normal.
#[derive(Drop)]
struct Worst {
    number: u64,
    along: i128,
}

impl Model for Worst {
    ghost use Rattle.std.specs.Prelude.{◌≤◌, ◌^◌, unsigned_abs};
    ghost use Rattle.deviations.specs.Compared.{Worst};

    ghost Value = { Worst };

    ghost view = { λ w. record { number = w.number; along = w.along } };

    ghost invariant = { λ w. unsigned_abs w.along ≤ 2 ^ 64 };
}

fn lesser(one: i128, other: i128) -> i128
    ensures { result ≡ int_min one other }
{
    if other < one { other } else { one }
}

fn less(one: i128, other: i128) -> i128
    requires one { unsigned_abs one ≤ 2 ^ 64 }
    requires other { unsigned_abs other ≤ 2 ^ 64 }
    ensures { result ≡ one -ℤ other }
{
    one - other
}

fn margin(range: &Range, along: i128) -> i128
    requires { unsigned_abs along ≤ 2 ^ 64 }
    ensures { result ≡ margin range.now along }
{
    let below = less(along, i128::from(range.lower.get()));
    let above = less(i128::from(range.upper.get()), along);
    lesser(below, above)
}

fn worse(range: &Range, worst: Option<Worst>, next: Worst) -> Option<Worst>
    ensures { result ≡ worse range.now worst next }
{
    match worst {
        None => Some(next),
        Some(worst) => {
            if margin(range, next.along) < margin(range, worst.along) {
                Some(next)
            } else {
                Some(worst)
            }
        }
    }
}

fn worse_row(range: &Range, worst: Option<Worst>, row: &Row<'_>) -> Option<Worst>
    ensures { result ≡ worse_row range.now worst row.now.place.number row.now.along }
{
    match row.along() {
        Some(along) => worse(
            range,
            worst,
            Worst {
                number: row.number(),
                along,
            },
        ),
        None => worst,
    }
}

/// The first of the points with the least margin.
fn worst_of(range: &Range, rows: &[Row<'_>]) -> Option<Worst>
    ensures { result ≡ worst_after range.now None rows.now }
{
    let mut worst = None;
    for row in rows {
        worst = worse_row(range, worst, row);
    }
    worst
}

#[tactic(auto, unfolding(crate::specs::Compared::point_words))]
fn push_worst(text: &mut String, range: Range, worst: Worst) -> Result<(), AllocError>
    ensures { OnOk result (string_bytes text.new
        ≡ string_bytes text.old ++ point_words range worst) }
{
    let along = Micrometres(worst.along);
    let number = worst.number;
    let verdict = verdict_word(range.verdict(worst.along));
    write!(text, "worst {along} at point {number}: {verdict}")
}

/// The words for the worst of rows under a range, as `worst 0.021 at point 3: out`; none if no row has a deviation along its normal. Fails
/// only if out of memory.
pub fn worst_words(alloc: Global, range: Range, rows: &[Row<'_>]) -> Result<String, AllocError>
    ensures { IfOk result (λ text. string_bytes text
        ≡ worst_words range (worst_after range None rows.now)) }
{
    let mut text = String::new(alloc);
    if let Some(worst) = worst_of(&range, rows) {
        push_worst(&mut text, range, worst)?;
    }
    Ok(text)
}

#[tactic(auto, unfolding(crate::specs::Compared::worst_line))]
fn push_line(text: &mut String, label: &Name, range: Range, worst: Worst) -> Result<(), AllocError>
    ensures { OnOk result (string_bytes text.new
        ≡ string_bytes text.old ++ worst_line label.now range worst) }
{
    write!(text, "dme: {label}: ")?;
    push_worst(text, range, worst)?;
    text.push_str("\n")
}

/// Appends the line of a feature, if a limit is for it and one of its points has a deviation along its normal. Fails only if out of memory.
fn push_feature(
    text: &mut String,
    label: &Name,
    range: Option<Range>,
    rows: &[Row<'_>],
) -> Result<(), AllocError>
    ensures { OnOk result (string_bytes text.new
        ≡ string_bytes text.old ++ feature_text label.now range rows.now) }
{
    let Some(range) = range else {
        return Ok(());
    };
    match worst_of(&range, rows) {
        Some(worst) => push_line(text, label, range, worst),
        None => Ok(()),
    }
}

/// The first rows, up to this many. Does not allocate.
#[tactic(auto, using(std::proofs::lemmas::List::take_all))]
pub fn first_rows<'a, 'b>(rows: &'a [Row<'b>], count: usize) -> &'a [Row<'b>]
    ensures { result.now ≡ take count rows.now }
{
    if count > rows.len() {
        return rows;
    }
    let (front, _) = rows.split_at(count);
    front
}

/// The rows after the first ones, if these are this many. Does not allocate.
#[tactic(auto, using(std::proofs::lemmas::List::drop_all))]
pub fn later_rows<'a, 'b>(rows: &'a [Row<'b>], count: usize) -> &'a [Row<'b>]
    ensures { result.now ≡ drop count rows.now }
{
    if count > rows.len() {
        let (_, nothing) = rows.split_at(rows.len());
        return nothing;
    }
    let (_, behind) = rows.split_at(count);
    behind
}

fn push_features(
    text: &mut String,
    limits: &Limits,
    wanted: &[Wanted],
    rows: &[Row<'_>],
) -> Result<(), AllocError>
    ensures { OnOk result (string_bytes text.new
        ≡ string_bytes text.old ++ features_text limits.now wanted.now rows.now) }
{
    let mut left = wanted;
    let mut later = rows;
    while let [first, others @ ..] = left {
        let count = first.touches.as_slice().len();
        let range = limits.range_for(&first.label);
        push_feature(text, &first.label, range, first_rows(later, count))?;
        left = others;
        later = later_rows(later, count);
    }
    Ok(())
}

fn is_out(verdict: Option<Verdict>) -> bool
    ensures { result ≡ is_out verdict }
{
    match verdict {
        Some(Verdict::Outside) => true,
        Some(Verdict::Inside) => false,
        None => false,
    }
}

/// How many rows are compared with a limit. Does not allocate.
pub fn compared_count(limits: &Limits, rows: &[Row<'_>]) -> usize
    ensures { result ≡ compared_count limits.now rows.now }
{
    rows.iter()
        .filter(|row| row_verdict(limits, row).is_some())
        .count()
}

/// How many of them are out of their limits. Does not allocate.
pub fn out_count(limits: &Limits, rows: &[Row<'_>]) -> usize
    ensures { result ≡ out_count limits.now rows.now }
{
    rows.iter()
        .filter(|row| is_out(row_verdict(limits, row)))
        .count()
}

#[tactic(auto, unfolding(crate::specs::Compared::part_text))]
fn push_part(text: &mut String, limits: &Limits, rows: &[Row<'_>]) -> Result<(), AllocError>
    ensures { OnOk result (string_bytes text.new
        ≡ string_bytes text.old ++ part_text limits.now rows.now) }
{
    let out = out_count(limits, rows);
    let all = compared_count(limits, rows);
    write!(
        text,
        "dme: out of limits: {out} of {all} points; no fit and no other tolerance was evaluated\n"
    )
}

/// The lines that compare the rows of a program with limits: a line for each feature that a limit is for, with its worst point,
/// `dme: BORE: worst 0.021 at point 3: out`, and a last one with the number of points that are out, of those that have a limit. Fails
/// only if out of memory.
pub fn limit_lines(
    alloc: Global,
    limits: &Limits,
    program: &Program,
    rows: &[Row<'_>],
) -> Result<String, AllocError>
    ensures { IfOk result (λ text. string_bytes text
        ≡ compared_text limits.now program.now.features rows.now) }
{
    let mut text = String::new(alloc);
    push_features(&mut text, limits, program.features(), rows)?;
    push_part(&mut text, limits, rows)?;
    Ok(text)
}
