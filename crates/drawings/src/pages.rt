// The whole page.

ghost use Rattle.std.specs.Prelude.{◌≡◌, ◌<◌, ◌++◌, drop, length, IfOk, OnOk};
ghost use Rattle.drawings.specs.Names.{flat_map, Adds, style, page_head, complete_start, missing_label, complete_text, within_start, within_line, within_text, limits_text, broken_start, broken_end, broken_text, seals_text, audit_start, verdict_text, errors_text, audit_text, names_text, notes_text, program_line, program_text, summary_text, title_of, check_calls, digest_line, page_end, IsPage};

use crate::bar_cells::greatest;
use crate::drawing::write_drawing;
use crate::markup::{put_between, put_count};
use crate::sections::put_sections;
use crate::texts::{put_markup, put_number};
use crate::title::Title;
use contact_ledger::Feature;
use deviations::{Limits, Row, compared_count, out_count};
use dmis_program::{Program, Wanted};
use record_text::SealVerdict;
use std::alloc::{AllocError, Global};
use std::marker::Model;

/// What a page has besides its points.
#[derive(Drop)]
pub struct Facts<'a> {
    /// The part, as the record has it.
    pub part: &'a [u8],
    /// The name of the program.
    pub program: &'a [u8],
    /// When its last feature was complete; empty if that is not noted.
    pub time: &'a [u8],
    /// What the seals of the record say.
    pub seals: SealVerdict,
    /// Whether each feature has its run of contacts.
    pub sound: bool,
    /// The line of the audit.
    pub verdict: &'a [u8],
    /// A line for each error that the server reported during the run of a feature.
    pub errors: &'a [u8],
    /// A line for each thing that the record notes of its runs.
    pub notes: &'a [u8],
    /// The SHA-256 of the record, as digits.
    pub digest: &'a [u8],
}

impl<'a> Model for Facts<'a> {
    ghost use Rattle.drawings.specs.Pages.{PageFacts};

    ghost Value = { PageFacts };

    ghost view = { λ f. record {
      part = f.part.now;
      program = f.program.now;
      time = f.time.now;
      seals = f.seals;
      sound = f.sound;
      verdict = f.verdict.now;
      errors = f.errors.now;
      notes = f.notes.now;
      digest = f.digest.now;
    } };
}

impl<'a> Facts<'a> {
    fn part(&self) -> &[u8]
        ensures { result.now ≡ self.now.part }
    {
        self.part
    }

    fn program(&self) -> &[u8]
        ensures { result.now ≡ self.now.program }
    {
        self.program
    }

    fn time(&self) -> &[u8]
        ensures { result.now ≡ self.now.time }
    {
        self.time
    }

    fn seals(&self) -> SealVerdict
        ensures { result ≡ self.now.seals }
    {
        self.seals
    }

    fn is_sound(&self) -> bool
        ensures { result ≡ self.now.sound }
    {
        self.sound
    }

    fn verdict(&self) -> &[u8]
        ensures { result.now ≡ self.now.verdict }
    {
        self.verdict
    }

    fn errors(&self) -> &[u8]
        ensures { result.now ≡ self.now.errors }
    {
        self.errors
    }

    fn notes(&self) -> &[u8]
        ensures { result.now ≡ self.now.notes }
    {
        self.notes
    }

    fn digest(&self) -> &[u8]
        ensures { result.now ≡ self.now.digest }
    {
        self.digest
    }
}

/// How a browser shows a page, from its title to its body: light or dark as its reader has it, and also on A4.
pub fn style() -> &'static [u8]
    ensures { result.now ≡ style }
{
    b"</title>\n<style>\n\
:root{color-scheme:light dark;--yes:#17733f;--no:#b3261e;--open:#8a5a00;--bar:#3b6ea5}\n\
@media screen and (prefers-color-scheme:dark){:root{--yes:#5bd08f;--no:#ff8a80;--open:#e3b341;--bar:#8ab4e8}}\n\
body{font:14px/1.4 sans-serif;max-width:64em;margin:1.5em auto;padding:0 1em}.yes,.no,.open{padding-left:.6em;\
border-left:.5em solid;margin:.4em 0}.yes{color:var(--yes)}.no{color:var(--no)}.open{color:var(--open)}\n\
table{border-collapse:collapse;width:100%;font-variant-numeric:tabular-nums}td,th{padding:0 .5em;text-align:right}\n\
td,th[colspan]{border-bottom:1px solid #8886}.out td:last-child{color:var(--no);font-weight:bold}pre{white-space:pre-wrap}\n\
.bar{width:7em;vertical-align:middle}.bar path{stroke:currentColor}.bar rect{fill:var(--bar)}\n\
.out rect{fill:var(--no)}body>svg{max-width:100%;height:auto;break-inside:avoid;margin-top:1em}\n\
h2{break-after:avoid}tr{break-inside:avoid}@page{size:A4;margin:12mm}@media print{body{font-size:8pt;padding:0}}\n\
</style></head><body>\n"
}

fn put_head(out: &mut Vec<u8>, facts: &Facts<'_>) -> Result<(), AllocError>
    ensures { OnOk result (out.new.items ≡ out.old.items ++ page_head facts.now.part) }
{
    put_between(
        out,
        b"<!DOCTYPE html>\n<html lang=\"en\"><head><meta charset=\"utf-8\"><title>Part ",
        facts.part(),
        style(),
    )
}

fn complete_start(measured: usize, asked: usize) -> &'static [u8]
    ensures { result.now ≡ complete_start measured asked }
{
    if measured == asked {
        b"<p class=\"yes\"><b>Complete:</b> "
    } else {
        b"<p class=\"no\"><b>Not complete:</b> "
    }
}

/// The features after the first ones.
#[tactic(auto, using(std::proofs::lemmas::List::drop_all))]
fn missing(wanted: &[Wanted], measured: usize) -> &[Wanted]
    ensures { result.now ≡ drop measured wanted.now }
{
    if measured > wanted.len() {
        let (_, nothing) = wanted.split_at(wanted.len());
        return nothing;
    }
    let (_, missing) = wanted.split_at(measured);
    missing
}

fn put_label(out: &mut Vec<u8>, feature: &Wanted) -> Result<(), AllocError>
    ensures { OnOk result (out.new.items ≡ out.old.items ++ missing_label feature.now) }
{
    put_between(out, b" <b>", feature.label.as_bytes(), b"</b> is missing.")
}

fn put_labels(out: &mut Vec<u8>, wanted: &[Wanted]) -> Result<(), AllocError>
    ensures { OnOk result (out.new.items ≡ out.old.items ++ flat_map missing_label wanted.now) }
{
    for feature in wanted {
        put_label(out, feature)?;
    }
    Ok(())
}

#[tactic(auto, unfolding(crate::specs::Pages::complete_text))]
fn put_complete(out: &mut Vec<u8>, measured: usize, wanted: &[Wanted]) -> Result<(), AllocError>
    ensures { OnOk result (out.new.items ≡ out.old.items ++ complete_text measured wanted.now) }
{
    let asked = wanted.len();
    put_markup(out, complete_start(measured, asked))?;
    put_count(out, measured)?;
    put_markup(out, b" of ")?;
    put_count(out, asked)?;
    put_markup(out, b" features were measured.")?;
    put_labels(out, missing(wanted, measured))?;
    put_markup(out, b"</p>\n")
}

fn within_start(outside: usize, compared: usize, complete: bool, others: usize) -> &'static [u8]
    ensures { result.now ≡ within_start outside compared complete others }
{
    if outside != 0 {
        b"<p class=\"no\"><b>Out of limits:</b> "
    } else if compared == 0 {
        b"<p class=\"open\"><b>Not compared with limits:</b> "
    } else if complete && others == 0 {
        b"<p class=\"yes\"><b>Within limits:</b> "
    } else {
        b"<p class=\"open\"><b>Within limits as far as compared:</b> "
    }
}

/// Appends how many points are out of limits, of how many that are compared, and how many others there are. Fails only if out of memory.
#[tactic(auto, unfolding(crate::specs::Pages::within_line))]
pub fn put_within_line(
    out: &mut Vec<u8>,
    outside: usize,
    compared: usize,
    complete: bool,
    others: usize,
) -> Result<(), AllocError>
    ensures { OnOk result (out.new.items
        ≡ out.old.items ++ within_line outside compared complete others) }
{
    put_markup(out, within_start(outside, compared, complete, others))?;
    put_count(out, outside)?;
    put_markup(out, b" of ")?;
    put_count(out, compared)?;
    put_markup(out, b" compared points are out, ")?;
    put_count(out, others)?;
    put_markup(
        out,
        b" not compared. No fit and no other tolerance was evaluated.</p>\n",
    )
}

fn put_within(
    out: &mut Vec<u8>,
    limits: &Limits,
    complete: bool,
    rows: &[Row<'_>],
) -> Result<(), AllocError>
    ensures { OnOk result (out.new.items
        ≡ out.old.items ++ within_text limits.now complete rows.now) }
{
    let outside = out_count(limits, rows);
    let compared = compared_count(limits, rows);
    let others = rows.len().saturating_sub(compared);
    put_within_line(out, outside, compared, complete, others)
}

fn put_limits(
    out: &mut Vec<u8>,
    limits: &Option<Limits>,
    complete: bool,
    rows: &[Row<'_>],
) -> Result<(), AllocError>
    ensures { OnOk result (out.new.items
        ≡ out.old.items ++ limits_text limits.now complete rows.now) }
{
    match limits {
        Some(limits) => put_within(out, limits, complete, rows),
        None => put_markup(
            out,
            b"<p class=\"open\"><b>Not compared with limits:</b> none were named.</p>\n",
        ),
    }
}

#[tactic(auto, unfolding(crate::specs::Pages::broken_start))]
fn broken_start() -> &'static [u8]
    ensures { result.now ≡ broken_start }
{
    b"<p class=\"no\"><b>Seals do not hold:</b> no true seal stands for line "
}

#[tactic(auto, unfolding(crate::specs::Pages::broken_end))]
fn broken_end() -> &'static [u8]
    ensures { result.now ≡ broken_end }
{
    b" of the record.</p>\n"
}

fn put_broken(out: &mut Vec<u8>, line: u64) -> Result<(), AllocError>
    ensures { OnOk result (out.new.items ≡ out.old.items ++ broken_text line) }
{
    put_markup(out, broken_start())?;
    put_number(out, line)?;
    put_markup(out, broken_end())
}

fn put_seals(out: &mut Vec<u8>, seals: SealVerdict) -> Result<(), AllocError>
    ensures { OnOk result (out.new.items ≡ out.old.items ++ seals_text seals) }
{
    match seals {
        SealVerdict::Unsealed => put_markup(
            out,
            b"<p class=\"open\"><b>Not sealed:</b> the record has no seal.</p>\n",
        ),
        SealVerdict::Unjudged => put_markup(
            out,
            b"<p class=\"open\"><b>Seals not checked:</b> no key was named.</p>\n",
        ),
        SealVerdict::Sealed => put_markup(
            out,
            b"<p class=\"yes\"><b>Sealed:</b> a true seal stands for each line of the record.</p>\n",
        ),
        SealVerdict::Open(line) => put_broken(out, line),
    }
}

fn audit_start(measured: usize, sound: bool) -> &'static [u8]
    ensures { result.now ≡ audit_start measured sound }
{
    if measured == 0 {
        b"<p class=\"open\"><b>Nothing to audit:</b> no feature was measured. <code>"
    } else if sound {
        b"<p class=\"yes\"><b>Audit passed:</b> each measured feature has its run of reported contacts. <code>"
    } else {
        b"<p class=\"no\"><b>Audit failed:</b> a measured feature has no run of reported contacts. <code>"
    }
}

fn put_errors(out: &mut Vec<u8>, errors: &[u8]) -> Result<(), AllocError>
    ensures { OnOk result (out.new.items ≡ out.old.items ++ errors_text errors.now) }
{
    match errors {
        [] => Ok(()),
        [_, ..] => put_between(
            out,
            b"<p class=\"open\"><b>The server reported errors:</b></p>\n<pre>",
            errors,
            b"</pre>\n",
        ),
    }
}

fn put_verdict(out: &mut Vec<u8>, facts: &Facts<'_>, measured: usize) -> Result<(), AllocError>
    ensures { OnOk result (out.new.items ≡ out.old.items ++ verdict_text facts.now measured) }
{
    let start = audit_start(measured, facts.is_sound());
    put_between(out, start, facts.verdict(), b"</code></p>\n")
}

#[tactic(auto, unfolding(crate::specs::Pages::audit_text))]
fn put_audit(out: &mut Vec<u8>, facts: &Facts<'_>, measured: usize) -> Result<(), AllocError>
    ensures { OnOk result (out.new.items ≡ out.old.items ++ audit_text facts.now measured) }
{
    put_verdict(out, facts, measured)?;
    put_errors(out, facts.errors())
}

fn put_notes(out: &mut Vec<u8>, notes: &[u8]) -> Result<(), AllocError>
    ensures { OnOk result (out.new.items ≡ out.old.items ++ notes_text notes.now) }
{
    match notes {
        [] => Ok(()),
        [_, ..] => put_between(out, b"<pre>", notes, b"</pre>\n"),
    }
}

fn put_program_line(out: &mut Vec<u8>, facts: &Facts<'_>) -> Result<(), AllocError>
    ensures { OnOk result (out.new.items ≡ out.old.items ++ program_line facts.now) }
{
    put_between(out, b"<p>Program: ", facts.program(), b"</p>\n")
}

#[tactic(auto, unfolding(crate::specs::Pages::program_text))]
fn put_program(out: &mut Vec<u8>, facts: &Facts<'_>) -> Result<(), AllocError>
    ensures { OnOk result (out.new.items ≡ out.old.items ++ program_text facts.now) }
{
    put_program_line(out, facts)?;
    put_notes(out, facts.notes())
}

fn put_names(out: &mut Vec<u8>, facts: &Facts<'_>) -> Result<(), AllocError>
    ensures { OnOk result (out.new.items ≡ out.old.items ++ names_text facts.now) }
{
    put_between(out, b"<h1>Part ", facts.part(), b"</h1>\n")?;
    put_program(out, facts)
}

#[tactic(auto, unfolding(crate::specs::Pages::summary_text))]
fn put_summary(
    out: &mut Vec<u8>,
    facts: &Facts<'_>,
    measured: usize,
    wanted: &[Wanted],
    limits: &Option<Limits>,
    rows: &[Row<'_>],
) -> Result<(), AllocError>
    ensures { OnOk result (out.new.items
        ≡ out.old.items ++ summary_text facts.now measured wanted.now limits.now rows.now) }
{
    put_names(out, facts)?;
    put_complete(out, measured, wanted)?;
    put_limits(out, limits, measured == wanted.len(), rows)?;
    put_seals(out, facts.seals())?;
    put_audit(out, facts, measured)?;
    put_markup(
        out,
        b"<p>Lengths are in millimetres. A bar is the deviation along the normal, to the right if there is too much material.</p>\n",
    )
}

fn put_digest(out: &mut Vec<u8>, digest: &[u8]) -> Result<(), AllocError>
    ensures { OnOk result (out.new.items ≡ out.old.items ++ digest_line digest.now) }
{
    put_between(
        out,
        b"<p>SHA-256 of the record: <code>",
        digest,
        b"</code></p>\n</body></html>\n",
    )
}

#[tactic(auto, unfolding(crate::specs::Pages::check_calls))]
fn put_calls(out: &mut Vec<u8>) -> Result<(), AllocError>
    ensures { OnOk result (out.new.items ≡ out.old.items ++ check_calls) }
{
    put_markup(
        out,
        b"<h2>How to check this page</h2>\n<p><code>dme audit --record FILE [--setup FILE] [--seal-key FILE] PROGRAM</code> audits the record again, ",
    )?;
    put_markup(
        out,
        b"<code>dme export --as csv --record FILE [--setup FILE] [--limits FILE] PROGRAM</code> prints the same numbers.</p>\n",
    )
}

fn put_end(out: &mut Vec<u8>, facts: &Facts<'_>) -> Result<(), AllocError>
    ensures { OnOk result (out.new.items ≡ out.old.items ++ page_end facts.now) }
{
    put_calls(out)?;
    put_digest(out, facts.digest())
}

fn title_of<'a>(facts: &'a Facts<'_>) -> Title<'a>
    ensures { result ≡ title_of facts.now }
{
    Title {
        part: facts.part(),
        program: facts.program(),
        time: facts.time(),
    }
}

fn put_page(
    alloc: Global,
    out: &mut Vec<u8>,
    facts: &Facts<'_>,
    program: &Program,
    features: &[Feature],
    limits: &Option<Limits>,
    rows: &[Row<'_>],
) -> Result<(), AllocError>
    ensures { OnOk result (Adds (IsPage facts.now program.now features.now limits.now rows.now)
        out.old.items out.new.items) }
{
    let measured = features.len();
    let wanted = program.features();
    put_head(out, facts)?;
    put_summary(out, facts, measured, wanted, limits, rows)?;
    put_sections(alloc, out, greatest(rows), limits, measured, wanted, rows)?;
    write_drawing(alloc, out, &title_of(facts), program, features)?;
    put_end(out, facts)
}

/// The page of a part (HTML, complete in itself): whether it is complete, within its limits and audited; the rows of each feature of its
/// program, with a bar for each deviation along the normal; and a drawing. Texts are escaped, and the numbers are those of the rows. Fails
/// only if out of memory.
#[tactic(auto, using(crate::proofs::Filled::page_added, crate::proofs::Filled::page_has_text))]
pub fn report_text(
    alloc: Global,
    facts: &Facts<'_>,
    program: &Program,
    features: &[Feature],
    limits: &Option<Limits>,
    rows: &[Row<'_>],
) -> Result<Vec<u8>, AllocError>
    ensures page { IfOk result (λ text. IsPage facts.now program.now features.now limits.now
        rows.now text.items) }
    ensures some { IfOk result (λ text. 0 < length text.items) }
{
    let mut text = Vec::new(alloc);
    put_page(alloc, &mut text, facts, program, features, limits, rows)?;
    Ok(text)
}
