// A summary as comma-separated values.

ghost use Rattle.std.specs.Prelude.{◌≡◌, ◌++◌, Some, None, decimal, OnOk, IfOk, map, string_bytes};
ghost use Rattle.csv.specs.Writing.{default_writer, row_text};
ghost use Rattle.fixed_um.specs.Written.{written};
ghost use Rattle.part_summary.specs.Batches.{places_in};
ghost use Rattle.part_summary.specs.Tables.{figures, out_field, table_text, touch_fields, touch_rows};

use crate::summary::{Summary, open_rows};
use crate::sums::{Sums, Tally};
use csv::{ByteRecord, WriterBuilder};
use deviations::{Micrometres, Range, Row};
use std::alloc::{AllocError, Global};
use std::marker::Model;

/// Appends a record of these fields. Fails only if out of memory.
fn push_fields(out: &mut Vec<u8>, fields: &[&[u8]]) -> Result<(), AllocError>
    ensures { OnOk result (out.new.items ≡ out.old.items
        ++ row_text default_writer (map (λ f. f.now) fields.now)) }
{
    let alloc = *out.allocator();
    let record = ByteRecord::from_fields(alloc, fields)?;
    let mut writer = WriterBuilder::new().from_writer(Vec::new(alloc));
    match writer.write_byte_record(&record) {
        Ok(()) => {}
        Err(_) => return Err(AllocError),
    }
    match writer.into_inner() {
        Ok(text) => out.extend_from_slice(text.as_slice()),
        Err(_) => Err(AllocError),
    }
}

/// A length in millimetres. Fails only if out of memory.
pub(crate) fn length_text(alloc: Global, length: i128) -> Result<String, AllocError>
    ensures { IfOk result (λ text. string_bytes text ≡ written length) }
{
    let length = Micrometres(length);
    format!(in alloc; "{length}")
}

fn number_text(alloc: Global, number: u64) -> Result<String, AllocError>
    ensures { IfOk result (λ text. string_bytes text ≡ decimal number) }
{
    format!(in alloc; "{number}")
}

fn out_text(alloc: Global, range: Option<Range>, out: u64) -> Result<String, AllocError>
    ensures { IfOk result (λ text. string_bytes text ≡ out_field range out) }
{
    match range {
        Some(_) => number_text(alloc, out),
        None => Ok(String::new(alloc)),
    }
}

/// The number of a touch and its figures, as texts.
#[derive(Drop)]
pub(crate) struct Figures {
    pub(crate) number: String,
    pub(crate) count: String,
    pub(crate) least: String,
    pub(crate) mean: String,
    pub(crate) greatest: String,
    pub(crate) range: String,
    pub(crate) out: String,
}

impl Model for Figures {
    ghost use Rattle.std.specs.Prelude.{ℕ, List, [], ◌∷◌, string_bytes};

    ghost Value = { List (List ℕ) };

    ghost view = { λ f. string_bytes f.number ∷ string_bytes f.count ∷ string_bytes f.least
        ∷ string_bytes f.mean ∷ string_bytes f.greatest ∷ string_bytes f.range
        ∷ string_bytes f.out ∷ [] };
}

fn no_figures(alloc: Global, number: u64, range: Option<Range>) -> Result<Figures, AllocError>
    ensures { IfOk result (λ f. f ≡ figures number range None) }
{
    Ok(Figures {
        number: number_text(alloc, number)?,
        count: String::from_str(alloc, "0")?,
        least: String::new(alloc),
        mean: String::new(alloc),
        greatest: String::new(alloc),
        range: String::new(alloc),
        out: out_text(alloc, range, 0)?,
    })
}

fn sums_figures(
    alloc: Global,
    number: u64,
    range: Option<Range>,
    sums: &Sums,
) -> Result<Figures, AllocError>
    ensures { IfOk result (λ f. f ≡ figures number range (Some sums.now)) }
{
    Ok(Figures {
        number: number_text(alloc, number)?,
        count: number_text(alloc, sums.count)?,
        least: length_text(alloc, sums.least)?,
        mean: length_text(alloc, sums.mean())?,
        greatest: length_text(alloc, sums.greatest)?,
        range: length_text(alloc, sums.range())?,
        out: out_text(alloc, range, sums.out)?,
    })
}

/// The figures of a touch; those of one without deviations are empty. Fails only if out of memory.
pub(crate) fn figures_of(alloc: Global, number: u64, tally: &Tally) -> Result<Figures, AllocError>
    ensures { IfOk result (λ f. f ≡ figures number tally.now.range tally.now.sums) }
{
    match &tally.sums {
        Some(sums) => sums_figures(alloc, number, tally.range, sums),
        None => no_figures(alloc, number, tally.range),
    }
}

fn push_touch(out: &mut Vec<u8>, row: &Row<'_>, tally: &Tally) -> Result<(), AllocError>
    ensures { OnOk result (out.new.items ≡ out.old.items ++ row_text default_writer
        (touch_fields row.now.place.feature row.now.place.number tally.now.range tally.now.sums)) }
{
    let alloc = *out.allocator();
    let feature = row.feature().as_bytes();
    let figures = figures_of(alloc, row.number(), tally)?;
    push_fields(
        out,
        &[
            feature,
            figures.number.as_bytes(),
            figures.count.as_bytes(),
            figures.least.as_bytes(),
            figures.mean.as_bytes(),
            figures.greatest.as_bytes(),
            figures.range.as_bytes(),
            figures.out.as_bytes(),
        ],
    )
}

fn push_touches(out: &mut Vec<u8>, rows: &[Row<'_>], tallies: &[Tally]) -> Result<(), AllocError>
    ensures { OnOk result (out.new.items ≡ out.old.items
        ++ touch_rows (places_in rows.now) tallies.now) }
{
    let mut left = rows;
    let mut later = tallies;
    while let [row, others @ ..] = left {
        let [tally, behind @ ..] = later else {
            return Ok(());
        };
        push_touch(out, row, tally)?;
        left = others;
        later = behind;
    }
    Ok(())
}

impl<'a> Summary<'a> {
    /// The summary as comma-separated values (RFC 4180): a header, and a record for each touch of the program, whose fields are empty if it
    /// has no deviation, the last one if no limit is for its feature. Lines end with LF. Fails only if out of memory.
    #[tactic(auto, unfolding(crate::specs::Tables::table_text))]
    pub(crate) fn table(&self, alloc: Global) -> Result<Vec<u8>, AllocError>
        ensures { IfOk result (λ text. text.items ≡ table_text self.now) }
    {
        let rows = open_rows(alloc, self.program)?;
        let mut out = Vec::new(alloc);
        push_fields(
            &mut out,
            &[
                b"feature",
                b"touch",
                b"count",
                b"least",
                b"mean",
                b"greatest",
                b"range",
                b"out",
            ],
        )?;
        push_touches(&mut out, rows.as_slice(), self.tallies.as_slice())?;
        Ok(out)
    }
}
