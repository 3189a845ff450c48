// A summary, which counts records one after the other.

ghost use Rattle.std.specs.Prelude.{◌≡◌, ◌<◌, vec_capacity, vec_len, [], length, option_map, IfOk, IfErr, OnOk, OnErr};
ghost use Rattle.dme_orders.specs.Exporting.{RefusesFeatures};
ghost use Rattle.dme_orders.specs.Reading.{came};
ghost use Rattle.dme_orders.specs.Recorded.{features_in};
ghost use Rattle.part_summary.specs.Batches.{Adds, Counts, IsSummary, WhyNotCounted, alongs_in, empty_tallies, fault_status, joined_all, name_of, named_if_unfinished, places_in, plot_of, range_named, summary_status, touches_of, with_fault, with_part};
ghost use Rattle.part_summary.specs.Times.{placed};

use crate::plots::{Plot, place_for, time_of};
use crate::spans::spans_of;
use crate::sums::Tally;
use byte_ports::Source;
use contact_ledger::Feature;
use deviations::{Limits, Range, Row, rows_of};
use dme_orders::{of_program, sealed_from};
use dmis_program::Program;
use fixed_um::Name;
use order_parts::FilesFault;
use record_text::Record;
use std::alloc::{AllocError, Global};
use std::marker::Model;

/// A part that lacks a feature.
#[derive(Debug, Drop)]
pub(crate) struct Unfinished {
    pub(crate) name: Vec<u8>,
    pub(crate) measured: usize,
}

impl Model for Unfinished {
    ghost use Rattle.part_summary.specs.Batches.{UnfinishedPart};

    ghost Value = { UnfinishedPart };

    ghost view = { λ u. record { name = u.name.items; measured = u.measured } };
}

/// What is kept of the records of a batch: sums for each touch of their program, and which parts lack a feature (this profile). Contracts
/// see it as a `Summed`; `IsSummary` relates it to its parts.
#[derive(Drop)]
pub struct Summary<'a> {
    alloc: Global,
    pub(crate) program: &'a Program,
    pub(crate) limits: &'a Option<Limits>,
    pub(crate) key: &'a Option<Vec<u8>>,
    pub(crate) counted: u64,
    pub(crate) tallies: Vec<Tally>,
    pub(crate) unfinished: Vec<Unfinished>,
    pub(crate) plots: Vec<Plot>,
    worst: u8,
}

impl<'a> Model for Summary<'a> {
    ghost use Rattle.std.specs.Prelude.{option_map};
    ghost use Rattle.part_summary.specs.Batches.{Summed};

    ghost Value = { Summed };

    ghost view = { λ s. record {
      program = s.program.now;
      limits = s.limits.now;
      key = option_map (λ key. key.items) s.key.now;
      counted = s.counted;
      tallies = s.tallies.items;
      unfinished = s.unfinished.items;
      plots = s.plots.items;
      worst = s.worst;
    } };
}

/// The rows of the touches of a program, as if none was made. Fails only if out of memory.
#[tactic(auto, using(crate::proofs::Touches::are_touches))]
pub(crate) fn open_rows<'a>(alloc: Global, program: &'a Program) -> Result<Vec<Row<'a>>, AllocError>
    ensures { IfOk result (λ rows. places_in rows.items ≡ touches_of program.now) }
{
    match rows_of(alloc, program, &[]) {
        Ok(rows) => Ok(rows),
        Err(_) => Err(AllocError),
    }
}

/// The range for a feature, if a limit is for it.
pub(crate) fn range_named(limits: &Option<Limits>, label: &Name) -> Option<Range>
    ensures { result ≡ range_named limits.now label.now }
{
    match limits {
        Some(limits) => limits.range_for(label),
        None => None,
    }
}

/// What is kept of the touches of these rows if they have no deviation.
fn empty_tallies(
    alloc: Global,
    limits: &Option<Limits>,
    rows: &[Row<'_>],
) -> Result<Vec<Tally>, AllocError>
    ensures { IfOk result (λ tallies. tallies.items
        ≡ empty_tallies limits.now (places_in rows.now)) }
{
    let mut tallies = Vec::new(alloc);
    let mut left = rows;
    while let [row, others @ ..] = left {
        tallies.push(Tally {
            range: range_named(limits, row.feature()),
            sums: None,
        })?;
        left = others;
    }
    Ok(tallies)
}

/// What is kept of touches, with the deviation of each in the row at its place. Fails only if out of memory, or if there are too many.
fn joined_all(alloc: Global, tallies: &[Tally], rows: &[Row<'_>]) -> Result<Vec<Tally>, AllocError>
    ensures { IfOk result (λ all. all.items ≡ joined_all (alongs_in rows.now) tallies.now) }
{
    let mut all = Vec::with_capacity(alloc, tallies.len())?;
    let mut left = tallies;
    let mut later = rows;
    while let [tally, others @ ..] = left {
        match later {
            [row, behind @ ..] => {
                all.push(tally.joined(row.along())?)?;
                later = behind;
            }
            [] => all.push(*tally)?,
        }
        left = others;
    }
    Ok(all)
}

/// The features of a record; one that is not begun has none.
fn features_in(held: &Option<Record>) -> &[Feature]
    ensures { result.now ≡ features_in held.now }
{
    match held {
        Some(held) => held.features(),
        None => &[],
    }
}

/// What a part is called: by its record, or as the file of the record.
fn name_of<'a>(file: &'a str, held: &'a Option<Record>) -> &'a [u8]
    ensures { result.now ≡ name_of file.now held.now }
{
    match held {
        Some(held) => held.part().unwrap_or(file.as_bytes()),
        None => file.as_bytes(),
    }
}

/// The exit status of a fault.
fn fault_status(fault: &FilesFault) -> u8
    ensures { result ≡ fault_status fault.now }
{
    match fault {
        FilesFault::Memory => 4,
        _ => 1,
    }
}

/// What is plotted of a record in a file, by the rows of its features. Fails only if out of memory.
fn plot_of(
    alloc: Global,
    program: &Program,
    file: &str,
    held: &Option<Record>,
    rows: &[Row<'_>],
) -> Result<Plot, AllocError>
    ensures { IfOk result (λ p. p ≡ plot_of program.now file.now held.now rows.now) }
{
    Ok(Plot {
        name: Vec::from_slice(alloc, name_of(file, held))?,
        measured: features_in(held).len(),
        time: time_of(alloc, held)?,
        spans: spans_of(alloc, program.features(), rows)?,
    })
}

/// Names a part if it lacks one of this many features. Fails only if out of memory.
fn name_unfinished(
    unfinished: &mut Vec<Unfinished>,
    asked: usize,
    part: &Plot,
) -> Result<(), AllocError>
    ensures named { OnOk result (unfinished.new.items
        ≡ named_if_unfinished asked part.now.name part.now.measured unfinished.old.items) }
    ensures same { OnErr result (unfinished.new.items ≡ unfinished.old.items) }
{
    if part.measured == asked {
        return Ok(());
    }
    let name = Vec::from_slice(*unfinished.allocator(), part.name.as_slice())?;
    unfinished.push(Unfinished {
        name,
        measured: part.measured,
    })?;
    Ok(())
}

/// Puts a part in at its place, if there is room for it.
fn put_in(plots: &mut Vec<Plot>, part: Plot)
    requires { vec_len plots.old < vec_capacity plots.old }
    ensures { plots.new.items ≡ placed part plots.old.items }
{
    let place = place_for(&part.time, plots.as_slice());
    match plots.insert(place, part) {
        Ok(()) => {}
        Err(_) => unreachable!(),
    }
}

impl<'a> Summary<'a> {
    /// A summary of no part, for records of a program, with limits for its features if there are any, and with the key of their seals if
    /// these are to be checked. Fails only if out of memory.
    pub fn new(
        alloc: Global,
        program: &'a Program,
        limits: &'a Option<Limits>,
        key: &'a Option<Vec<u8>>,
    ) -> Result<Summary<'a>, AllocError>
        ensures program { IfOk result (λ s. s.program ≡ program.now) }
        ensures limits { IfOk result (λ s. s.limits ≡ limits.now) }
        ensures key { IfOk result (λ s. s.key ≡ option_map (λ key. key.items) key.now) }
        ensures none { IfOk result (λ s. IsSummary s []) }
        ensures best { IfOk result (λ s. s.worst ≡ 0) }
    {
        let rows = open_rows(alloc, program)?;
        let tallies = empty_tallies(alloc, limits, rows.as_slice())?;
        Ok(Summary {
            alloc,
            program,
            limits,
            key,
            counted: 0,
            tallies,
            unfinished: Vec::new(alloc),
            plots: Vec::new(alloc),
            worst: 0,
        })
    }

    /// Keeps the deviations of a part, what is plotted of it, and its name if it lacks a feature. Fails only if out of memory, or if there
    /// are too many parts.
    fn keep(&mut self, part: Plot, rows: &[Row<'_>]) -> Result<(), AllocError>
        ensures kept { OnOk result (self.new ≡ with_part self.old part (alongs_in rows.now)) }
        ensures same { OnErr result (self.new ≡ self.old) }
    {
        let tallies = joined_all(self.alloc, self.tallies.as_slice(), rows)?;
        let Some(counted) = self.counted.checked_add(1) else {
            return Err(AllocError);
        };
        self.plots.reserve(1)?;
        name_unfinished(&mut self.unfinished, self.program.features().len(), &part)?;
        put_in(&mut self.plots, part);
        self.counted = counted;
        self.tallies = tallies;
        Ok(())
    }

    /// Counts the part of a record in a file. Its features are refused only if they are not the first ones of the program.
    #[tactic(auto, using(crate::proofs::Tallies::adds))]
    fn count(&mut self, file: &str, held: &Option<Record>) -> Result<(), FilesFault>
        ensures adds { OnOk result (Adds file.now held.now self.old self.new) }
        ensures refused { IfErr result (RefusesFeatures self.old.program (features_in held.now)) }
        ensures same { OnErr result (self.new ≡ self.old) }
    {
        let features = features_in(held);
        let program = self.program;
        let rows = rows_of(self.alloc, program, features)?;
        let part = plot_of(self.alloc, program, file, held, rows.as_slice())?;
        Ok(self.keep(part, rows.as_slice())?)
    }

    /// Reads the record of a part, and counts it.
    #[tactic(auto, using(crate::proofs::Reasons::counts, crate::proofs::Reasons::stranger))]
    fn read<S: Source>(&mut self, file: &str, source: &mut S) -> Result<(), FilesFault>
        ensures counts { OnOk result (Counts (came S.left S.has_failed source.old source.new)
            file.now self.old self.new) }
        ensures refused { IfErr result (WhyNotCounted
            (came S.left S.has_failed source.old source.new) self.old.key self.old.program) }
        ensures same { OnErr result (self.new ≡ self.old) }
    {
        let held = sealed_from(self.alloc, self.key, source)?;
        of_program(self.alloc, &held, self.program)?;
        self.count(file, &held)
    }

    /// Keeps the exit status of a fault, if it is the greatest so far.
    pub fn blame(&mut self, fault: &FilesFault)
        ensures { self.new ≡ with_fault self.old fault.now }
    {
        self.worst = self.worst.max(fault_status(fault));
    }

    /// Reads the record of a part to the end of its text, and counts it. The part is called by its record, or as this file if the record
    /// names none; a record that is not begun is that of a part without any feature. A record that is damaged, or cannot be read, or is
    /// of another program does not count, nor does one of which no seal of the key stands for a line; it changes nothing but the exit
    /// status. Four thousand million parts count; more are called out of memory.
    pub fn add<S: Source>(&mut self, file: &str, source: &mut S) -> Result<(), FilesFault>
        ensures counts { OnOk result (Counts (came S.left S.has_failed source.old source.new)
            file.now self.old self.new) }
        ensures refused { IfErr result (WhyNotCounted
            (came S.left S.has_failed source.old source.new) self.old.key self.old.program) }
        ensures blamed { IfErr result (λ cause. self.new ≡ with_fault self.old cause) }
    {
        let counted = self.read(file, source);
        if let Err(fault) = &counted {
            self.blame(fault);
        }
        counted
    }

    /// The exit status: the greatest of what was blamed; if nothing was, 3 if a part lacks a feature, else 0.
    pub fn status(&self) -> u8
        ensures { result ≡ summary_status self.now }
    {
        match (self.worst, self.unfinished.as_slice()) {
            (0, []) => 0,
            (0, [_, ..]) => 3,
            (worst, _) => worst,
        }
    }
}
