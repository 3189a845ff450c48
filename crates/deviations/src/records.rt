// The table as comma-separated values.

ghost use Rattle.std.specs.Prelude.{◌≡◌, ◌++◌, ◌∷◌, [], IfOk, OnOk, map, decimal};
ghost use Rattle.deviations.specs.Names.{partial_of, row_text, Writes, written, written_component, point_fields, Joins, normal_fields, measured_fields, deviation_fields, along_fields, frame_columns, connection_fields, header, record_of, verdict_field, limit_header, records_text, csv_text};
ghost use Rattle.csv.specs.Records.{fields_of};
ghost use Rattle.deviations.specs.Styles.{of_fields, of_header, styled, writer_with};
ghost use Rattle.deviations.specs.Records.{asked_fields, found_fields, limit_fields, means_fields};

use crate::along::Deviation;
use crate::judged::{row_verdict, verdict_word};
use crate::printed::{Micrometres, Millionths};
use crate::rows::Row;
use crate::styles::{
    DecimalSign, RowsOf, Separator, TableStyle, missing_word, separator_byte, signed,
};
use crate::{Limits, Verdict};
use csv::{ByteRecord, WriterBuilder};
use fixed_um::{Dir, Frame, Point};
use std::alloc::{AllocError, Global};

/// Adds a number with its decimal sign.
fn push_numeral(
    alloc: Global,
    columns: &mut ByteRecord,
    sign: DecimalSign,
    numeral: &[u8],
) -> Result<(), AllocError>
    requires { partial_of columns.old ≡ [] }
    ensures { Joins result columns.old columns.new (styled sign (numeral.now ∷ [])) }
{
    let mut shown = Vec::new(alloc);
    let mut left = numeral;
    while let [byte, others @ ..] = left {
        shown.push(signed(sign, *byte))?;
        left = others;
    }
    columns.push_field(shown.as_slice())
}

fn push_length(
    alloc: Global,
    columns: &mut ByteRecord,
    sign: DecimalSign,
    length: i128,
) -> Result<(), AllocError>
    requires { partial_of columns.old ≡ [] }
    ensures { Joins result columns.old columns.new (styled sign (written length ∷ [])) }
{
    let length = Micrometres(length);
    let text = format!(in alloc; "{length}")?;
    push_numeral(alloc, columns, sign, text.as_bytes())
}

fn push_component(
    alloc: Global,
    columns: &mut ByteRecord,
    sign: DecimalSign,
    component: i64,
) -> Result<(), AllocError>
    requires { partial_of columns.old ≡ [] }
    ensures { Joins result columns.old columns.new (styled sign (written_component component ∷ [])) }
{
    let component = Millionths(component);
    let text = format!(in alloc; "{component}")?;
    push_numeral(alloc, columns, sign, text.as_bytes())
}

fn push_number(alloc: Global, columns: &mut ByteRecord, number: u64) -> Result<(), AllocError>
    requires { partial_of columns.old ≡ [] }
    ensures { Joins result columns.old columns.new (decimal number ∷ []) }
{
    let text = format!(in alloc; "{number}")?;
    columns.push_field(text.as_str().as_bytes())
}

fn push_point(
    alloc: Global,
    columns: &mut ByteRecord,
    sign: DecimalSign,
    point: Point,
) -> Result<(), AllocError>
    requires { partial_of columns.old ≡ [] }
    ensures { Joins result columns.old columns.new (styled sign (point_fields point)) }
{
    push_length(alloc, columns, sign, i128::from(point.x.get()))?;
    push_length(alloc, columns, sign, i128::from(point.y.get()))?;
    push_length(alloc, columns, sign, i128::from(point.z.get()))
}

fn push_normal(
    alloc: Global,
    columns: &mut ByteRecord,
    sign: DecimalSign,
    normal: Option<Dir>,
) -> Result<(), AllocError>
    requires { partial_of columns.old ≡ [] }
    ensures { Joins result columns.old columns.new (styled sign (normal_fields normal)) }
{
    match normal {
        Some(direction) => {
            push_component(alloc, columns, sign, i64::from(direction.i))?;
            push_component(alloc, columns, sign, i64::from(direction.j))?;
            push_component(alloc, columns, sign, i64::from(direction.k))
        }
        None => push_nothing(columns),
    }
}

fn push_nothing(columns: &mut ByteRecord) -> Result<(), AllocError>
    requires { partial_of columns.old ≡ [] }
    ensures { Joins result columns.old columns.new ([] ∷ [] ∷ [] ∷ []) }
{
    columns.push_field(b"")?;
    columns.push_field(b"")?;
    columns.push_field(b"")
}

fn push_measured(
    alloc: Global,
    columns: &mut ByteRecord,
    sign: DecimalSign,
    measured: Option<Point>,
) -> Result<(), AllocError>
    requires { partial_of columns.old ≡ [] }
    ensures { Joins result columns.old columns.new (styled sign (measured_fields measured)) }
{
    match measured {
        Some(point) => push_point(alloc, columns, sign, point),
        None => push_nothing(columns),
    }
}

fn push_deviation(
    alloc: Global,
    columns: &mut ByteRecord,
    sign: DecimalSign,
    deviation: Option<Deviation>,
) -> Result<(), AllocError>
    requires { partial_of columns.old ≡ [] }
    ensures { Joins result columns.old columns.new (styled sign (deviation_fields deviation)) }
{
    match deviation {
        Some(deviation) => {
            push_length(alloc, columns, sign, i128::from(deviation.x))?;
            push_length(alloc, columns, sign, i128::from(deviation.y))?;
            push_length(alloc, columns, sign, i128::from(deviation.z))
        }
        None => push_nothing(columns),
    }
}

fn push_along(
    alloc: Global,
    columns: &mut ByteRecord,
    sign: DecimalSign,
    along: Option<i128>,
) -> Result<(), AllocError>
    requires { partial_of columns.old ≡ [] }
    ensures { Joins result columns.old columns.new (styled sign (along_fields along)) }
{
    match along {
        Some(length) => push_length(alloc, columns, sign, length),
        None => columns.push_field(b""),
    }
}

fn push_frame(
    alloc: Global,
    columns: &mut ByteRecord,
    sign: DecimalSign,
    frame: Frame,
) -> Result<(), AllocError>
    requires { partial_of columns.old ≡ [] }
    ensures { Joins result columns.old columns.new (frame_columns sign frame) }
{
    match frame {
        Frame::Machine => {
            columns.push_field(b"MACHINE")?;
            push_point(alloc, columns, sign, Point::zero())
        }
        Frame::Part(offset) => {
            columns.push_field(b"PART")?;
            push_point(alloc, columns, sign, offset)
        }
    }
}

fn push_connection(
    alloc: Global,
    columns: &mut ByteRecord,
    connection: Option<u64>,
) -> Result<(), AllocError>
    requires { partial_of columns.old ≡ [] }
    ensures { Joins result columns.old columns.new (connection_fields connection) }
{
    match connection {
        Some(number) => push_number(alloc, columns, number),
        None => columns.push_field(b""),
    }
}

/// Adds what a row says first.
fn push_of(
    columns: &mut ByteRecord,
    of: &Option<RowsOf<'_>>,
    row: &Row<'_>,
) -> Result<(), AllocError>
    requires { partial_of columns.old ≡ [] }
    ensures { Joins result columns.old columns.new (of_fields of.now row.now.place.measured) }
{
    let Some(of) = of else {
        return Ok(());
    };
    columns.push_field(of.part().as_bytes())?;
    columns.push_field(of.program().as_bytes())?;
    columns.push_field(missing_word(row.measured().is_none()).as_bytes())
}

/// What was requested.
#[tactic(auto, unfolding(crate::specs::Records::asked_fields))]
fn push_asked(
    alloc: Global,
    columns: &mut ByteRecord,
    sign: DecimalSign,
    row: &Row<'_>,
) -> Result<(), AllocError>
    requires { partial_of columns.old ≡ [] }
    ensures { Joins result columns.old columns.new (asked_fields sign row.now) }
{
    columns.push_field(row.feature().as_bytes())?;
    push_number(alloc, columns, row.number())?;
    push_point(alloc, columns, sign, row.nominal())?;
    push_normal(alloc, columns, sign, row.normal())
}

/// What was found.
#[tactic(auto, unfolding(crate::specs::Records::found_fields))]
fn push_found(
    alloc: Global,
    columns: &mut ByteRecord,
    sign: DecimalSign,
    row: &Row<'_>,
) -> Result<(), AllocError>
    requires { partial_of columns.old ≡ [] }
    ensures { Joins result columns.old columns.new (found_fields sign row.now) }
{
    push_measured(alloc, columns, sign, row.measured())?;
    push_deviation(alloc, columns, sign, row.deviation())?;
    push_along(alloc, columns, sign, row.along())
}

/// With which tool, and where.
#[tactic(auto, unfolding(crate::specs::Records::means_fields))]
fn push_means(
    alloc: Global,
    columns: &mut ByteRecord,
    sign: DecimalSign,
    row: &Row<'_>,
) -> Result<(), AllocError>
    requires { partial_of columns.old ≡ [] }
    ensures { Joins result columns.old columns.new (means_fields sign row.now) }
{
    columns.push_field(row.tool().as_bytes())?;
    push_frame(alloc, columns, sign, row.frame())?;
    push_connection(alloc, columns, row.connection())
}

fn record_of(alloc: Global, style: &TableStyle<'_>, row: &Row<'_>) -> Result<ByteRecord, AllocError>
    ensures fields { IfOk result (λ columns. fields_of columns ≡ record_of style.now row.now) }
    ensures whole { IfOk result (λ columns. partial_of columns ≡ []) }
{
    let sign = style.sign();
    let mut columns = ByteRecord::new(alloc);
    push_of(&mut columns, style.of(), row)?;
    push_asked(alloc, &mut columns, sign, row)?;
    push_found(alloc, &mut columns, sign, row)?;
    push_means(alloc, &mut columns, sign, row)?;
    Ok(columns)
}

fn verdict_field(verdict: Option<Verdict>) -> &'static [u8]
    ensures { result.now ≡ verdict_field verdict }
{
    match verdict {
        Some(verdict) => verdict_word(verdict).as_bytes(),
        None => b"",
    }
}

fn push_limit(
    columns: &mut ByteRecord,
    limits: &Option<Limits>,
    row: &Row<'_>,
) -> Result<(), AllocError>
    requires { partial_of columns.old ≡ [] }
    ensures { Joins result columns.old columns.new (limit_fields limits.now row.now) }
{
    match limits {
        Some(limits) => columns.push_field(verdict_field(row_verdict(limits, row))),
        None => Ok(()),
    }
}

/// The record of a row, with its limit's column if there are limits.
fn judged_record(
    alloc: Global,
    style: &TableStyle<'_>,
    limits: &Option<Limits>,
    row: &Row<'_>,
) -> Result<ByteRecord, AllocError>
    ensures { IfOk result (λ columns. fields_of columns
        ≡ record_of style.now row.now ++ limit_fields limits.now row.now) }
{
    let mut columns = record_of(alloc, style, row)?;
    push_limit(&mut columns, limits, row)?;
    Ok(columns)
}

fn record_text(
    alloc: Global,
    separator: Separator,
    columns: &ByteRecord,
) -> Result<Vec<u8>, AllocError>
    ensures { IfOk result (λ text. text.items
        ≡ row_text (writer_with separator) (fields_of columns.now)) }
{
    let mut writer = WriterBuilder::new()
        .delimiter(separator_byte(separator))
        .from_writer(Vec::new(alloc));
    match writer.write_byte_record(columns) {
        Ok(()) => {}
        Err(_) => return Err(AllocError),
    }
    match writer.into_inner() {
        Ok(text) => Ok(text),
        Err(_) => Err(AllocError),
    }
}

/// Adds these fields.
fn push_all(columns: &mut ByteRecord, fields: &[&[u8]]) -> Result<(), AllocError>
    requires { partial_of columns.old ≡ [] }
    ensures { Joins result columns.old columns.new (map (λ f. f.now) fields.now) }
{
    let mut left = fields;
    while let [field, others @ ..] = left {
        columns.push_field(field)?;
        left = others;
    }
    Ok(())
}

/// The names of what a row says first.
fn push_of_header(columns: &mut ByteRecord, of: &Option<RowsOf<'_>>) -> Result<(), AllocError>
    requires { partial_of columns.old ≡ [] }
    ensures { Joins result columns.old columns.new (of_header of.now) }
{
    match of {
        Some(_) => push_all(columns, &[b"part", b"program", b"missing"]),
        None => Ok(()),
    }
}

fn push_header(columns: &mut ByteRecord) -> Result<(), AllocError>
    requires { partial_of columns.old ≡ [] }
    ensures { Joins result columns.old columns.new header }
{
    push_all(
        columns,
        &[
            b"feature",
            b"point",
            b"nominal_x",
            b"nominal_y",
            b"nominal_z",
            b"normal_i",
            b"normal_j",
            b"normal_k",
            b"measured_x",
            b"measured_y",
            b"measured_z",
            b"deviation_x",
            b"deviation_y",
            b"deviation_z",
            b"deviation_along_normal",
            b"tool",
            b"frame",
            b"frame_x",
            b"frame_y",
            b"frame_z",
            b"connection",
        ],
    )
}

/// The names of the columns, with that of limits if there are limits.
fn judged_header(
    alloc: Global,
    style: &TableStyle<'_>,
    limits: &Option<Limits>,
) -> Result<ByteRecord, AllocError>
    ensures { IfOk result (λ columns. fields_of columns
        ≡ of_header style.now.of ++ (header ++ limit_header limits.now)) }
{
    let mut columns = ByteRecord::new(alloc);
    push_of_header(&mut columns, style.of())?;
    push_header(&mut columns)?;
    match limits {
        Some(_) => columns.push_field(b"limit")?,
        None => {}
    }
    Ok(columns)
}

/// Appends a table as comma-separated values (RFC 4180) in a style, a header and a record for each row: lengths in millimetres with three
/// decimals, normals with six. If the style names part and program, the first columns are `part`, `program` and `missing`, which is `yes`
/// for a point that was not measured, else `no`. A field is empty if there is no normal, if it is not known which connection a feature comes from, or if a point was
/// not measured. With limits there is a last column `limit`: `in`, `out`, or empty if no limit is for the point. Lines end with LF. Fails
/// only if out of memory, and then appends nothing.
pub fn write_csv(
    out: &mut Vec<u8>,
    style: &TableStyle<'_>,
    limits: &Option<Limits>,
    rows: &[Row<'_>],
) -> Result<(), AllocError>
    ensures { Writes result out.old out.new (csv_text style.now limits.now rows.now) }
{
    let alloc = *out.allocator();
    let mut text = record_text(
        alloc,
        style.separator(),
        &judged_header(alloc, style, limits)?,
    )?;
    let mut left = rows;
    while let [row, others @ ..] = left {
        let columns = judged_record(alloc, style, limits, row)?;
        let line = record_text(alloc, style.separator(), &columns)?;
        text.extend_from_slice(line.as_slice())?;
        left = others;
    }
    out.extend_from_slice(text.as_slice())
}
