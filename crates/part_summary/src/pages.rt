// A summary as a page.

ghost use Rattle.std.specs.Prelude.{◌≡◌, ◌++◌, ◌*◌, ◌-◌, ◌≤◌, IfOk, OnOk, [], codes, drop, length, option_map, take, unwrap_or};
ghost use Rattle.std.specs.List.{flat_map};
ghost use Rattle.dme_orders.specs.Named.{shown_name};
ghost use Rattle.drawings.specs.Markup.{between, cells};
ghost use Rattle.drawings.specs.Pages.{style, within_line};
ghost use Rattle.drawings.specs.Texts.{markup};
ghost use Rattle.part_summary.specs.Pages.{all_compared, all_out, chart_style, compared, counts_line, counts_start, figure_row, figure_rows, figure_titles, head_lines, is_complete, lacking_line, lacking_lines, limits_line, name_lines, out_class, out_of, page_end, page_head, page_text, part_row, part_rows, parts_table, range_line, range_lines, scope_line, seals_line, section, sections};
ghost use Rattle.part_summary.specs.Tables.{figures};
ghost use Rattle.part_summary.specs.Texts.{few_words};

use crate::charts::{put_chart, put_limit};
use crate::plots::Plot;
use crate::summary::{Summary, Unfinished, range_named};
use crate::sums::Tally;
use crate::tables::figures_of;
use crate::texts::few_text;
use deviations::{Limits, Range};
use dmis_program::Wanted;
use drawings::{put_between, put_cell, put_count, put_markup, put_within_line, style};
use std::alloc::{AllocError, Global};

/// How a page names a program.
fn shown_name(name: &str) -> &str
    ensures { result.now ≡ shown_name name.now }
{
    if name == "-" { "standard input" } else { name }
}

fn chart_style() -> &'static [u8]
    ensures { result.now ≡ chart_style }
{
    b"<!DOCTYPE html>\n<html lang=\"en\"><head><meta charset=\"utf-8\"><style>\n\
.run{width:100%;height:11em;border:1px solid #8886}.run path{vector-effect:non-scaling-stroke;stroke:var(--bar);\
stroke-width:4;stroke-linecap:round}.run .zero{stroke:#8889;stroke-width:1}.run .limit{stroke:var(--no);stroke-width:1}\n\
</style><title>Summary of "
}

fn put_head(out: &mut Vec<u8>, name: &str) -> Result<(), AllocError>
    ensures { OnOk result (out.new.items ≡ out.old.items ++ page_head name.now) }
{
    put_between(out, chart_style(), shown_name(name).as_bytes(), style())
}

#[tactic(auto, unfolding(crate::specs::Pages::name_lines))]
fn put_name(out: &mut Vec<u8>, name: &str) -> Result<(), AllocError>
    ensures { OnOk result (out.new.items ≡ out.old.items ++ name_lines name.now) }
{
    let shown = shown_name(name).as_bytes();
    put_between(out, b"<h1>Summary of ", shown, b"</h1>\n")
}

fn counts_start(counted: u64, named: usize) -> &'static [u8]
    ensures { result.now ≡ counts_start counted named }
{
    if counted == 0 {
        b"<p class=\"no\"><b>Nothing counts:</b> "
    } else if counted == named as u64 {
        b"<p class=\"yes\"><b>All records count:</b> "
    } else {
        b"<p class=\"no\"><b>Not all records count:</b> "
    }
}

#[tactic(auto, unfolding(crate::specs::Pages::counts_line))]
fn put_counts(out: &mut Vec<u8>, counted: u64, named: usize) -> Result<(), AllocError>
    ensures { OnOk result (out.new.items ≡ out.old.items ++ counts_line counted named) }
{
    put_markup(out, counts_start(counted, named))?;
    put_count(out, counted as usize)?;
    put_markup(out, b" of ")?;
    put_count(out, named)?;
    put_markup(out, b" records count.</p>\n")
}

fn put_unfinished(out: &mut Vec<u8>, part: &Unfinished) -> Result<(), AllocError>
    ensures { OnOk result (out.new.items ≡ out.old.items
        ++ between (codes "<p class=\"no\"><b>Unfinished:</b> ") part.now.name []) }
{
    let name = part.name.as_slice();
    put_between(out, b"<p class=\"no\"><b>Unfinished:</b> ", name, b"")
}

fn put_few(out: &mut Vec<u8>, asked: usize, part: &Unfinished) -> Result<(), AllocError>
    ensures { OnOk result (out.new.items
        ≡ out.old.items ++ few_words part.now.measured asked) }
{
    let few = few_text(*out.allocator(), part.measured, asked)?;
    out.extend_from_slice(few.as_bytes())
}

fn put_lacking_part(out: &mut Vec<u8>, asked: usize, part: &Unfinished) -> Result<(), AllocError>
    ensures { OnOk result (out.new.items ≡ out.old.items ++ lacking_line asked part.now) }
{
    put_unfinished(out, part)?;
    put_few(out, asked, part)?;
    put_markup(out, b"</p>\n")
}

#[tactic(auto, unfolding(crate::specs::Pages::lacking_lines))]
fn put_lacking(
    out: &mut Vec<u8>,
    counted: u64,
    asked: usize,
    parts: &[Unfinished],
) -> Result<(), AllocError>
    ensures { OnOk result (out.new.items
        ≡ out.old.items ++ lacking_lines counted asked parts.now) }
{
    match parts {
        [] if counted == 0 => Ok(()),
        [] => put_markup(
            out,
            b"<p class=\"yes\"><b>Complete:</b> no part that counts lacks a feature.</p>\n",
        ),
        [_, ..] => put_all_lacking(out, asked, parts),
    }
}

fn put_all_lacking(out: &mut Vec<u8>, asked: usize, parts: &[Unfinished]) -> Result<(), AllocError>
    ensures { OnOk result (out.new.items
        ≡ out.old.items ++ flat_map (lacking_line asked) parts.now) }
{
    let mut left = parts;
    while let [part, others @ ..] = left {
        put_lacking_part(out, asked, part)?;
        left = others;
    }
    Ok(())
}

fn compared(tally: &Tally) -> u64
    ensures { result ≡ compared tally.now.range tally.now.sums }
{
    match (&tally.range, &tally.sums) {
        (Some(_), Some(sums)) => sums.count,
        _ => 0,
    }
}

fn out_of(tally: &Tally) -> u64
    ensures { result ≡ out_of tally.now.range tally.now.sums }
{
    match (&tally.range, &tally.sums) {
        (Some(_), Some(sums)) => sums.out,
        _ => 0,
    }
}

/// How many deviations are compared with limits. Fails only if there are too many.
fn all_compared(tallies: &[Tally]) -> Result<u64, AllocError>
    ensures { IfOk result (λ count. count ≡ all_compared tallies.now) }
{
    let mut count = 0u64;
    let mut left = tallies;
    while let [tally, others @ ..] = left {
        match count.checked_add(compared(tally)) {
            Some(more) => count = more,
            None => return Err(AllocError),
        }
        left = others;
    }
    Ok(count)
}

/// How many of them are out. Fails only if there are too many.
fn all_out(tallies: &[Tally]) -> Result<u64, AllocError>
    ensures { IfOk result (λ count. count ≡ all_out tallies.now) }
{
    let mut count = 0u64;
    let mut left = tallies;
    while let [tally, others @ ..] = left {
        match count.checked_add(out_of(tally)) {
            Some(more) => count = more,
            None => return Err(AllocError),
        }
        left = others;
    }
    Ok(count)
}

fn is_complete(counted: u64, named: usize, parts: &[Unfinished]) -> bool
    ensures { result ≡ is_complete counted named parts.now }
{
    match parts {
        [] => counted == named as u64,
        [_, ..] => false,
    }
}

#[tactic(auto, unfolding(crate::specs::Pages::seals_line))]
fn put_seals(out: &mut Vec<u8>, key: &Option<Vec<u8>>) -> Result<(), AllocError>
    ensures { OnOk result (out.new.items
        ≡ out.old.items ++ seals_line (option_map (λ key. key.items) key.now)) }
{
    match key {
        None => put_markup(
            out,
            b"<p class=\"open\"><b>Seals not checked:</b> no key was named.</p>\n",
        ),
        Some(_) => put_markup(
            out,
            b"<p class=\"yes\"><b>Seals checked:</b> seals of the key stand for each record that counts.</p>\n",
        ),
    }
}

fn put_scope(out: &mut Vec<u8>) -> Result<(), AllocError>
    ensures { OnOk result (out.new.items ≡ out.old.items ++ scope_line) }
{
    put_markup(
        out,
        b"<p>Lengths are in millimetres; deviations are along the normal. No fit and no other tolerance was evaluated. ",
    )?;
    put_markup(
        out,
        b"A chart has a stroke for each part, from its least deviation to its greatest, in the order of the last table.</p>\n",
    )
}

fn out_class(tally: &Tally) -> &'static [u8]
    ensures { result.now ≡ out_class tally.now.sums }
{
    match &tally.sums {
        Some(sums) if sums.out != 0 => b"out",
        _ => b"",
    }
}

fn put_figures(out: &mut Vec<u8>, number: u64, tally: &Tally) -> Result<(), AllocError>
    ensures { OnOk result (out.new.items ≡ out.old.items
        ++ cells (figures number tally.now.range tally.now.sums)) }
{
    let figures = figures_of(*out.allocator(), number, tally)?;
    put_cell(out, figures.number.as_bytes())?;
    put_cell(out, figures.count.as_bytes())?;
    put_cell(out, figures.least.as_bytes())?;
    put_cell(out, figures.mean.as_bytes())?;
    put_cell(out, figures.greatest.as_bytes())?;
    put_cell(out, figures.range.as_bytes())?;
    put_cell(out, figures.out.as_bytes())
}

fn put_figure_row(out: &mut Vec<u8>, number: u64, tally: &Tally) -> Result<(), AllocError>
    ensures { OnOk result (out.new.items ≡ out.old.items ++ figure_row number tally.now) }
{
    put_between(out, b"<tr class=\"", out_class(tally), b"\">")?;
    put_figures(out, number, tally)?;
    put_markup(out, b"</tr>\n")
}

fn put_figure_rows(out: &mut Vec<u8>, tallies: &[Tally]) -> Result<(), AllocError>
    ensures { OnOk result (out.new.items ≡ out.old.items ++ figure_rows 1 tallies.now) }
{
    let mut number = 1u64;
    let mut left = tallies;
    while let [tally, others @ ..] = left {
        put_figure_row(out, number, tally)?;
        number += 1;
        left = others;
    }
    Ok(())
}

#[tactic(auto, unfolding(crate::specs::Pages::figure_titles))]
fn put_titles(out: &mut Vec<u8>) -> Result<(), AllocError>
    ensures { OnOk result (out.new.items ≡ out.old.items ++ figure_titles) }
{
    put_markup(
        out,
        b"<table><thead><tr><th>touch</th><th>count</th><th>least</th><th>mean</th><th>greatest</th>",
    )?;
    put_markup(out, b"<th>range</th><th>out</th></tr></thead><tbody>\n")
}

fn put_range_line(out: &mut Vec<u8>, range: &Range) -> Result<(), AllocError>
    ensures { OnOk result (out.new.items ≡ out.old.items ++ range_line range.now) }
{
    put_markup(out, b"<p>Limits ")?;
    put_limit(out, range.lower)?;
    put_markup(out, b" to ")?;
    put_limit(out, range.upper)?;
    put_markup(out, b"</p>\n")
}

fn put_range(out: &mut Vec<u8>, range: &Option<Range>) -> Result<(), AllocError>
    ensures { OnOk result (out.new.items ≡ out.old.items ++ range_lines range.now) }
{
    match range {
        None => put_markup(out, b"<p>No limit is for it.</p>\n"),
        Some(range) => put_range_line(out, range),
    }
}

#[tactic(auto, unfolding(crate::specs::Pages::section))]
fn put_section(
    out: &mut Vec<u8>,
    feature: usize,
    label: &[u8],
    range: &Option<Range>,
    parts: &[Plot],
    tallies: &[Tally],
) -> Result<(), AllocError>
    ensures { OnOk result (out.new.items
        ≡ out.old.items ++ section feature label.now range.now parts.now tallies.now) }
{
    put_between(out, b"<h2>", label, b"</h2>\n")?;
    put_range(out, range)?;
    put_titles(out)?;
    put_figure_rows(out, tallies)?;
    put_markup(out, b"</tbody></table>\n")?;
    put_chart(out, feature, range, parts)
}

/// The first tallies, up to this many.
#[tactic(auto, using(std::proofs::lemmas::List::take_all))]
fn first_tallies(tallies: &[Tally], count: usize) -> &[Tally]
    ensures { result.now ≡ take count tallies.now }
{
    if count > tallies.len() {
        return tallies;
    }
    let (first, _) = tallies.split_at(count);
    first
}

/// Those after them.
#[tactic(auto, using(std::proofs::lemmas::List::drop_all))]
fn later_tallies(tallies: &[Tally], count: usize) -> &[Tally]
    ensures { result.now ≡ drop count tallies.now }
{
    if count > tallies.len() {
        return &[];
    }
    let (_, later) = tallies.split_at(count);
    later
}

fn put_sections(
    out: &mut Vec<u8>,
    limits: &Option<Limits>,
    parts: &[Plot],
    wanted: &[Wanted],
    tallies: &[Tally],
) -> Result<(), AllocError>
    ensures { OnOk result (out.new.items
        ≡ out.old.items ++ sections 0 limits.now parts.now wanted.now tallies.now) }
{
    let mut number = 0;
    let mut left = wanted;
    let mut later = tallies;
    while let [feature, others @ ..] = left {
        let count = feature.touches.as_slice().len();
        let range = range_named(limits, &feature.label);
        let label = feature.label.as_bytes();
        put_section(
            out,
            number,
            label,
            &range,
            parts,
            first_tallies(later, count),
        )?;
        number += 1;
        later = later_tallies(later, count);
        left = others;
    }
    Ok(())
}

fn time_of(part: &Plot) -> &[u8]
    ensures { result.now ≡ unwrap_or part.now.time [] }
{
    match &part.time {
        Some(time) => time.as_slice(),
        None => b"",
    }
}

#[tactic(auto, unfolding(crate::specs::Pages::part_row))]
fn put_part(out: &mut Vec<u8>, number: usize, part: &Plot) -> Result<(), AllocError>
    ensures { OnOk result (out.new.items ≡ out.old.items ++ part_row number part.now) }
{
    let alloc = *out.allocator();
    let measured = part.measured;
    let (number, measured) = (
        format!(in alloc; "{number}")?,
        format!(in alloc; "{measured}")?,
    );
    put_markup(out, b"<tr>")?;
    put_cell(out, number.as_bytes())?;
    put_cell(out, part.name.as_slice())?;
    put_cell(out, time_of(part))?;
    put_cell(out, measured.as_bytes())?;
    put_markup(out, b"</tr>\n")
}

fn put_parts(out: &mut Vec<u8>, parts: &[Plot]) -> Result<(), AllocError>
    ensures { OnOk result (out.new.items ≡ out.old.items ++ part_rows 1 parts.now) }
{
    let mut number = 1;
    let mut left = parts;
    while let [part, others @ ..] = left {
        put_part(out, number, part)?;
        number += 1;
        left = others;
    }
    Ok(())
}

fn put_table(out: &mut Vec<u8>, parts: &[Plot]) -> Result<(), AllocError>
    ensures { OnOk result (out.new.items ≡ out.old.items ++ parts_table parts.now) }
{
    put_markup(
        out,
        b"<h2>Parts</h2>\n<table><thead><tr><th></th><th>part</th><th>begun</th><th>features</th></tr></thead><tbody>\n",
    )?;
    put_parts(out, parts)?;
    put_markup(out, b"</tbody></table>\n")
}

#[tactic(auto, unfolding(crate::specs::Pages::page_end))]
fn put_end(out: &mut Vec<u8>) -> Result<(), AllocError>
    ensures { OnOk result (out.new.items ≡ out.old.items ++ page_end) }
{
    put_markup(
        out,
        b"<p><code>dme summary --as csv</code> prints the same figures.</p>\n</body></html>\n",
    )
}

impl<'a> Summary<'a> {
    /// Appends how many points are out of limits. Fails only if out of memory, or if there are too many points.
    #[tactic(auto, unfolding(crate::specs::Pages::limits_line))]
    fn put_within(&self, out: &mut Vec<u8>, named: usize) -> Result<(), AllocError>
        ensures { OnOk result (out.new.items
            ≡ out.old.items ++ limits_line named self.now self.now.limits) }
    {
        let tallies = self.tallies.as_slice();
        if self.limits.is_none() {
            return put_markup(
                out,
                b"<p class=\"open\"><b>Not compared with limits:</b> none were named.</p>\n",
            );
        }
        let (outside, compared) = (all_out(tallies)?, all_compared(tallies)?);
        let Some(all) = self.counted.checked_mul(tallies.len() as u64) else {
            return Err(AllocError);
        };
        let others = all.saturating_sub(compared);
        let complete = is_complete(self.counted, named, self.unfinished.as_slice());
        put_within_line(
            out,
            outside as usize,
            compared as usize,
            complete,
            others as usize,
        )
    }

    #[tactic(auto, unfolding(crate::specs::Pages::head_lines))]
    fn put_lines(&self, out: &mut Vec<u8>, name: &str, named: usize) -> Result<(), AllocError>
        ensures { OnOk result (out.new.items ≡ out.old.items ++ head_lines name.now named self.now) }
    {
        let asked = self.program.features().len();
        put_name(out, name)?;
        put_counts(out, self.counted, named)?;
        put_lacking(out, self.counted, asked, self.unfinished.as_slice())?;
        self.put_within(out, named)?;
        put_seals(out, self.key)?;
        put_scope(out)
    }

    /// The summary as a page of HTML that is complete in itself, with the name of the program: how many records count, which parts lack a
    /// feature, how many points are out of limits, whether seals were checked; a table and a run chart for each feature; and the parts in
    /// the order of their times. Texts are escaped. Fails only if out of memory.
    #[tactic(auto, unfolding(crate::specs::Pages::page_text))]
    pub(crate) fn page(
        &self,
        alloc: Global,
        name: &str,
        named: usize,
    ) -> Result<Vec<u8>, AllocError>
        ensures { IfOk result (λ text. text.items ≡ page_text name.now named self.now) }
    {
        let mut out = Vec::new(alloc);
        let wanted = self.program.features();
        put_head(&mut out, name)?;
        self.put_lines(&mut out, name, named)?;
        put_sections(
            &mut out,
            self.limits,
            self.plots.as_slice(),
            wanted,
            self.tallies.as_slice(),
        )?;
        put_table(&mut out, self.plots.as_slice())?;
        put_end(&mut out)?;
        Ok(out)
    }
}
