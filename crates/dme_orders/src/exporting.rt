// An export as a whole, over ports: what was measured of features next to what a program asks for.

ghost use Rattle.std.specs.Prelude.{◌≡◌, ◌<◌, length, Option, IfOk, IfErr, string_bytes};
ghost use Rattle.tool_rack.specs.Setups.{SetupValue};
ghost use Rattle.drawings.specs.Drawing.{IsDrawing};
ghost use Rattle.drawings.specs.Title.{untitled};
ghost use Rattle.drawings.specs.Texts.{Adds};
ghost use Rattle.dme_orders.specs.Exporting.{xml, IsInForm, LeavesTable, Compares, RefusesFeatures, Exports};
ghost use Rattle.dme_orders.specs.Input.{named, ReadsExport, WhyNoExport, AreUntouched, ReadsLimited, WhyNoLimited};
ghost use Rattle.dme_orders.specs.Missing.{IsMissing};
ghost use Rattle.dme_orders.specs.Orders.{went};
ghost use Rattle.dme_orders.specs.Reading.{came};

use crate::missing::{Missing, missing_of};
use crate::reading::{features_from, named_limits, named_setup, program_under};
use crate::reporting::shown_name;
use crate::simulating::write_text;
use byte_ports::{Sink, Source};
use contact_ledger::{Feature, FeatureLedger};
use deviations::{
    Form, Limits, Row, RowsOf, TableOptions, TableStyle, limit_lines, rows_of, style_of, write_csv,
    write_json,
};
use dmis_program::Program;
use drawings::{Title, write_drawing};
use order_parts::FilesFault;
use std::alloc::{AllocError, Global};

/// The files of an export, as sources.
#[derive(Drop)]
pub struct ExportFiles<S, F, R> {
    /// The machine's setup, if one is named.
    pub setup: Option<S>,
    /// The features that were measured.
    pub features: F,
    /// The DMIS program.
    pub program: R,
}

/// What an export says besides what it prints.
#[derive(Debug, Drop)]
pub struct Exported {
    /// Which features of the program are missing.
    pub missing: Missing,
    /// With limits, a line for the worst point of each feature, as `dme: BORE: worst 0.021 at point 3: out`, and one for how many points
    /// are out; else empty.
    pub compared: String,
}

/// Reads a setup if one is named, then features, then a program under the setup's frames, each to the end of its text and understood
/// before the next is read.
fn export_input<S: Source, F: Source, R: Source>(
    alloc: Global,
    files: &mut ExportFiles<S, F, R>,
) -> Result<(FeatureLedger, Program), FilesFault>
    ensures ok { IfOk result (λ read. (said : Option SetupValue)
        × ReadsExport (named S.left S.has_failed files.old.setup files.new.setup)
        (came F.left F.has_failed files.old.features files.new.features)
        (came R.left R.has_failed files.old.program files.new.program)
        (record { setup = said; features = read.0; program = read.1 })) }
    ensures err { IfErr result (WhyNoExport (named S.left S.has_failed files.old.setup files.new.setup)
        (came F.left F.has_failed files.old.features files.new.features)
        (came R.left R.has_failed files.old.program files.new.program)) }
{
    let setup = named_setup(alloc, &mut files.setup)?;
    let features = features_from(alloc, &mut files.features)?;
    let program = program_under(alloc, &setup, &mut files.program)?;
    Ok((features, program))
}

/// Likewise, and before them limits if they are named.
fn limited_input<L: Source, S: Source, F: Source, R: Source>(
    alloc: Global,
    limits: &mut Option<L>,
    files: &mut ExportFiles<S, F, R>,
) -> Result<(Option<Limits>, FeatureLedger, Program), FilesFault>
    ensures ok { IfOk result (λ read. (said : Option SetupValue)
        × ReadsLimited (named L.left L.has_failed limits.old limits.new)
        (ReadsExport (named S.left S.has_failed files.old.setup files.new.setup)
        (came F.left F.has_failed files.old.features files.new.features)
        (came R.left R.has_failed files.old.program files.new.program))
        (record {
          limits = read.0;
          input = record {
            setup = said;
            features = read.1;
            program = read.2;
          };
        })) }
    ensures err { IfErr result (WhyNoLimited (named L.left L.has_failed limits.old limits.new)
        (AreUntouched (named S.left S.has_failed files.old.setup files.new.setup)
        (came F.left F.has_failed files.old.features files.new.features)
        (came R.left R.has_failed files.old.program files.new.program))
        (WhyNoExport (named S.left S.has_failed files.old.setup files.new.setup)
        (came F.left F.has_failed files.old.features files.new.features)
        (came R.left R.has_failed files.old.program files.new.program))) }
{
    let limits = named_limits(alloc, limits)?;
    let (features, program) = export_input(alloc, files)?;
    Ok((limits, features, program))
}

/// The declaration of a text in XML, with its line's end. Fails only if out of memory.
#[tactic(auto, unfolding(crate::specs::Exporting::xml))]
fn declared(alloc: Global) -> Result<Vec<u8>, AllocError>
    ensures text { IfOk result (λ text. text.items ≡ xml) }
    ensures some { IfOk result (λ text. 0 < length text.items) }
{
    let mut text = Vec::new(alloc);
    text.extend_from_slice(b"<?xml version=\"1.0\" encoding=\"UTF-8\"?>\n")?;
    Ok(text)
}

fn drawn(
    alloc: Global,
    title: &Title<'_>,
    program: &Program,
    features: &[Feature],
) -> Result<Vec<u8>, AllocError>
    ensures text { IfOk result (λ text. Adds (IsDrawing title.now program.now features.now)
        xml text.items) }
    ensures some { IfOk result (λ text. 0 < length text.items) }
{
    let mut text = declared(alloc)?;
    write_drawing(alloc, &mut text, title, program, features)?;
    Ok(text)
}

/// Rows in a form; in a drawing the features whose rows they are. Fails only if out of memory.
fn form_text(
    alloc: Global,
    form: Form,
    style: &TableStyle<'_>,
    title: &Title<'_>,
    limits: &Option<Limits>,
    rows: &[Row<'_>],
    program: &Program,
    features: &[Feature],
) -> Result<Vec<u8>, AllocError>
    ensures text { IfOk result (λ text. IsInForm form style.now title.now limits.now program.now
        features.now rows.now text.items) }
    ensures some { IfOk result (λ text. 0 < length text.items) }
{
    let mut text = Vec::new(alloc);
    match form {
        Form::Csv => write_csv(&mut text, style, limits, rows)?,
        Form::Json => write_json(&mut text, style.of(), limits, rows)?,
        Form::Svg => return drawn(alloc, title, program, features),
    }
    Ok(text)
}

/// The table of features in a form. They are refused only if they are not the first ones of the program.
pub(crate) fn table_text(
    alloc: Global,
    form: Form,
    style: &TableStyle<'_>,
    title: &Title<'_>,
    limits: &Option<Limits>,
    program: &Program,
    features: &[Feature],
) -> Result<Vec<u8>, FilesFault>
    ensures leaves { IfOk result (λ text. LeavesTable form style.now title.now limits.now program.now
        features.now text.items) }
    ensures some { IfOk result (λ text. 0 < length text.items) }
    ensures refused { IfErr result (RefusesFeatures program.now features.now) }
{
    let rows = rows_of(alloc, program, features)?;
    Ok(form_text(
        alloc,
        form,
        style,
        title,
        limits,
        rows.as_slice(),
        program,
        features,
    )?)
}

/// The lines that compare features with limits; none without limits. They are refused only if they are not the first ones of the program.
pub(crate) fn compared_lines(
    alloc: Global,
    limits: &Option<Limits>,
    program: &Program,
    features: &[Feature],
) -> Result<String, FilesFault>
    ensures compares { IfOk result (λ lines. Compares limits.now program.now features.now
        (string_bytes lines)) }
    ensures refused { IfErr result (RefusesFeatures program.now features.now) }
{
    let Some(limits) = limits else {
        return Ok(String::new(alloc));
    };
    let rows = rows_of(alloc, program, features)?;
    Ok(limit_lines(alloc, limits, program, rows.as_slice())?)
}

/// The table of features in a form, and what is said besides it.
fn table_of_part(
    alloc: Global,
    form: Form,
    style: &TableStyle<'_>,
    title: &Title<'_>,
    limits: &Option<Limits>,
    program: &Program,
    features: &[Feature],
) -> Result<(Exported, Vec<u8>), FilesFault>
    ensures leaves { IfOk result (λ end. LeavesTable form style.now title.now limits.now program.now
        features.now end.1.items) }
    ensures lacks { IfOk result (λ end. IsMissing program.now.features features.now
        end.0.missing) }
    ensures compares { IfOk result (λ end. Compares limits.now program.now features.now
        (string_bytes end.0.compared)) }
    ensures some { IfOk result (λ end. 0 < length end.1.items) }
    ensures refused { IfErr result (RefusesFeatures program.now features.now) }
{
    let missing = missing_of(alloc, program, features)?;
    let compared = compared_lines(alloc, limits, program, features)?;
    let text = table_text(alloc, form, style, title, limits, program, features)?;
    Ok((Exported { missing, compared }, text))
}

/// Reads limits if they are named, then a setup if one is named, then features, then a program under the setup's frames, each to the end of
/// its text and understood before the next is read; and writes the table of the features in a form: a row for each touch of the program, and how far the measured
/// point lies from where the program asks for it. Features that are not the first ones of the program are `NotOurs`. The answer is which
/// features are missing, whose rows have no measured point, and with limits what they say of the points. The program's name is that on the
/// command line: `-` is standard input; features are of no named part.
///
/// It writes only once the whole table is there. A file is blamed only for its own first refusal, or because it could not be read.
pub fn export_files<L: Source, S: Source, F: Source, R: Source, W: Sink>(
    alloc: Global,
    name: &str,
    form: Form,
    table: TableOptions,
    limits: &mut Option<L>,
    files: &mut ExportFiles<S, F, R>,
    sink: &mut W,
) -> Result<Exported, FilesFault>
    ensures { Exports form table name.now (named S.left S.has_failed files.old.setup files.new.setup)
        (came F.left F.has_failed files.old.features files.new.features)
        (came R.left R.has_failed files.old.program files.new.program)
        (went W.taken W.has_failed sink.old sink.new)
        (named L.left L.has_failed limits.old limits.new) result }
{
    let (ranges, features, program) = limited_input(alloc, limits, files)?;
    let of = RowsOf {
        part: "",
        program: shown_name(name),
    };
    let style = style_of(table, &of);
    let title = Title {
        part: b"",
        program: shown_name(name).as_bytes(),
        time: b"",
    };
    let (exported, text) = table_of_part(
        alloc,
        form,
        &style,
        &title,
        &ranges,
        &program,
        features.list(),
    )?;
    write_text(sink, text.as_slice())?;
    Ok(exported)
}
