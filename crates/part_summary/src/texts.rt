// A summary as text.

ghost use Rattle.std.specs.Prelude.{◌≡◌, ◌++◌, [], length, OnOk, IfOk, string_bytes};
ghost use Rattle.std.specs.List.{flat_map};
ghost use Rattle.part_summary.specs.Batches.{places_in};
ghost use Rattle.part_summary.specs.Texts.{few_words, head_text, high_words, low_words, out_words, start_words, summary_text, sums_words, tally_words, touch_line, touch_lines, uncounted_line, unfinished_line};

use crate::summary::{Summary, Unfinished, open_rows};
use crate::sums::{Sums, Tally};
use deviations::{Micrometres, Range, Row};
use order_parts::feature_noun;
use std::alloc::{AllocError, Global};

fn push_out(text: &mut String, range: Option<Range>, out: u64) -> Result<(), AllocError>
    ensures { OnOk result (string_bytes text.new ≡ string_bytes text.old ++ out_words range out) }
{
    match range {
        Some(_) => write!(text, ", out {out}"),
        None => Ok(()),
    }
}

#[tactic(auto, unfolding(crate::specs::Texts::low_words))]
fn push_low(text: &mut String, sums: &Sums) -> Result<(), AllocError>
    ensures { OnOk result (string_bytes text.new ≡ string_bytes text.old ++ low_words sums.now) }
{
    let count = sums.count;
    let least = Micrometres(sums.least);
    let mean = Micrometres(sums.mean());
    write!(text, "count {count}, least {least}, mean {mean}")
}

#[tactic(auto, unfolding(crate::specs::Texts::high_words))]
fn push_high(text: &mut String, sums: &Sums) -> Result<(), AllocError>
    ensures { OnOk result (string_bytes text.new ≡ string_bytes text.old ++ high_words sums.now) }
{
    let greatest = Micrometres(sums.greatest);
    let between = Micrometres(sums.range());
    write!(text, ", greatest {greatest}, range {between}")
}

fn push_sums(text: &mut String, range: Option<Range>, sums: &Sums) -> Result<(), AllocError>
    ensures { OnOk result (string_bytes text.new
        ≡ string_bytes text.old ++ sums_words range sums.now) }
{
    push_low(text, sums)?;
    push_high(text, sums)?;
    push_out(text, range, sums.out)
}

fn push_tally(text: &mut String, tally: &Tally) -> Result<(), AllocError>
    ensures { OnOk result (string_bytes text.new
        ≡ string_bytes text.old ++ tally_words tally.now.range tally.now.sums) }
{
    match &tally.sums {
        Some(sums) => push_sums(text, tally.range, sums),
        None => text.push_str("no value"),
    }
}

#[tactic(auto, unfolding(crate::specs::Texts::touch_line))]
fn push_touch(text: &mut String, row: &Row<'_>, tally: &Tally) -> Result<(), AllocError>
    ensures { OnOk result (string_bytes text.new ≡ string_bytes text.old
        ++ touch_line row.now.place.feature row.now.place.number tally.now) }
{
    let feature = row.feature();
    let number = row.number();
    write!(text, "{feature} {number}: ")?;
    push_tally(text, tally)?;
    text.push_str("\n")
}

fn push_touches(text: &mut String, rows: &[Row<'_>], tallies: &[Tally]) -> Result<(), AllocError>
    ensures { OnOk result (string_bytes text.new ≡ string_bytes text.old
        ++ touch_lines (places_in rows.now) tallies.now) }
{
    let mut left = rows;
    let mut later = tallies;
    while let [row, others @ ..] = left {
        let [tally, behind @ ..] = later else {
            return Ok(());
        };
        push_touch(text, row, tally)?;
        left = others;
        later = behind;
    }
    Ok(())
}

/// How many features a part has. Fails only if out of memory.
#[tactic(auto, unfolding(crate::specs::Texts::few_words))]
pub(crate) fn few_text(alloc: Global, measured: usize, asked: usize) -> Result<String, AllocError>
    ensures { IfOk result (λ text. string_bytes text ≡ few_words measured asked) }
{
    let noun = feature_noun(asked);
    format!(in alloc; ": {measured} of {asked} {noun}\n")
}

#[tactic(auto, unfolding(crate::specs::Texts::start_words))]
fn start_text(alloc: Global, before: &str) -> Result<String, AllocError>
    ensures { IfOk result (λ text. string_bytes text ≡ start_words before.now) }
{
    format!(in alloc; "{before}unfinished: ")
}

#[tactic(auto, unfolding(crate::specs::Texts::unfinished_line))]
fn push_unfinished(
    out: &mut Vec<u8>,
    before: &str,
    asked: usize,
    part: &Unfinished,
) -> Result<(), AllocError>
    ensures { OnOk result (out.new.items
        ≡ out.old.items ++ unfinished_line before.now asked part.now) }
{
    let alloc = *out.allocator();
    let start = start_text(alloc, before)?;
    let few = few_text(alloc, part.measured, asked)?;
    out.extend_from_slice(start.as_bytes())?;
    out.extend_from_slice(part.name.as_slice())?;
    out.extend_from_slice(few.as_bytes())
}

fn push_all_unfinished(
    out: &mut Vec<u8>,
    before: &str,
    asked: usize,
    parts: &[Unfinished],
) -> Result<(), AllocError>
    ensures { OnOk result (out.new.items
        ≡ out.old.items ++ flat_map (unfinished_line before.now asked) parts.now) }
{
    let mut left = parts;
    while let [part, others @ ..] = left {
        push_unfinished(out, before, asked, part)?;
        left = others;
    }
    Ok(())
}

/// The line for a record of this name that does not count; why follows it. Fails only if out of memory.
#[tactic(auto, unfolding(crate::specs::Texts::uncounted_line))]
pub fn uncounted_line(alloc: Global, name: &str) -> Result<String, AllocError>
    ensures { IfOk result (λ text. string_bytes text ≡ uncounted_line name.now) }
{
    format!(in alloc; "dme: {name} does not count:\n")
}

impl<'a> Summary<'a> {
    /// How many records count of how many that were named, and a line for each part that lacks a feature, as
    /// `unfinished: 0042/7: 1 of 2 features`; each line after these bytes. Fails only if out of memory.
    #[tactic(auto, unfolding(crate::specs::Texts::head_text))]
    pub(crate) fn head(
        &self,
        alloc: Global,
        before: &str,
        named: usize,
    ) -> Result<Vec<u8>, AllocError>
        ensures { IfOk result (λ text. text.items ≡ head_text before.now named self.now) }
    {
        let counted = self.counted;
        let counts = format!(in alloc; "{before}{counted} of {named} records count\n")?;
        let mut out = Vec::from_slice(alloc, counts.as_bytes())?;
        let asked = self.program.features().len();
        push_all_unfinished(&mut out, before, asked, self.unfinished.as_slice())?;
        Ok(out)
    }

    /// The text of the summary: its head, a line for each touch of the program, as
    /// `BORE 1: count 3, least -0.012, mean 0.001, greatest 0.021, range 0.033, out 1`, and what was not evaluated. Fails only if out of
    /// memory.
    #[tactic(auto, unfolding(crate::specs::Texts::summary_text, crate::specs::Texts::last_words))]
    pub(crate) fn text(&self, alloc: Global, named: usize) -> Result<Vec<u8>, AllocError>
        ensures { IfOk result (λ text. text.items ≡ summary_text named self.now) }
    {
        let rows = open_rows(alloc, self.program)?;
        let mut out = self.head(alloc, "", named)?;
        let mut lines = String::new(alloc);
        push_touches(&mut lines, rows.as_slice(), self.tallies.as_slice())?;
        out.extend_from_slice(lines.as_bytes())?;
        out.extend_from_slice(
            b"In millimetres, along the normal. No fit and no other tolerance was evaluated.\n",
        )?;
        Ok(out)
    }
}
