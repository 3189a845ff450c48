// The table as JSON.

ghost use Rattle.std.specs.Prelude.{◌≡◌, ◌++◌, ◌∷◌, [], IfOk, OnOk, decimal};
ghost use Rattle.deviations.specs.Json.{missing_member, named_members, of_members, part_member, program_member};
ghost use Rattle.deviations.specs.Names.{key, number, string, null, tokens, Writes, Puts, length_member, length_members, null_members, component_member, components_of, length_or_null, kind_of, place_of, feature_member, count_member, nominal_members, normal_members, measured_members, deviation_members, along_member, tool_member, kind_member, place_members, connection_member, verdict_member, limit_member, asked_members, found_members, means_members, row_tokens, json_tokens, array_text, json_of};

use crate::along::Deviation;
use crate::judged::{row_verdict, verdict_word};
use crate::printed::{Micrometres, Millionths};
use crate::rows::Row;
use crate::styles::RowsOf;
use crate::{Limits, Verdict};
use fixed_um::{Dir, Frame, Name, Point};
use json::Writer;
use std::alloc::{AllocError, Global};

#[tactic(auto, using(crate::proofs::Numbers::written_is_number))]
fn put_length(alloc: Global, json: &mut Writer, name: &str, length: i128) -> Result<(), AllocError>
    ensures { Puts result json.old json.new (length_member name.now length) }
{
    let length = Micrometres(length);
    let text = format!(in alloc; "{length}")?;
    json.key(name)?;
    json.number(text.as_str())
}

#[tactic(auto, using(crate::proofs::Numbers::component_is_number))]
fn put_component(
    alloc: Global,
    json: &mut Writer,
    name: &str,
    component: i64,
) -> Result<(), AllocError>
    ensures { Puts result json.old json.new (component_member name.now component) }
{
    let component = Millionths(component);
    let text = format!(in alloc; "{component}")?;
    json.key(name)?;
    json.number(text.as_str())
}

fn put_number(json: &mut Writer, name: &str, value: u64) -> Result<(), AllocError>
    ensures { Puts result json.old json.new (key name.now ∷ number (decimal value) ∷ []) }
{
    json.key(name)?;
    json.u64(value)
}

fn put_null(json: &mut Writer, name: &str) -> Result<(), AllocError>
    ensures { Puts result json.old json.new (key name.now ∷ null ∷ []) }
{
    json.key(name)?;
    json.null()
}

fn put_text(json: &mut Writer, name: &str, text: &str) -> Result<(), AllocError>
    ensures { Puts result json.old json.new (key name.now ∷ string text.now ∷ []) }
{
    json.key(name)?;
    json.string(text)
}

fn put_name(alloc: Global, json: &mut Writer, name: &str, value: &Name) -> Result<(), AllocError>
    ensures { Puts result json.old json.new (key name.now ∷ string value.now ∷ []) }
{
    let text = format!(in alloc; "{value}")?;
    put_text(json, name, text.as_str())
}

fn put_lengths(
    alloc: Global,
    json: &mut Writer,
    first: &str,
    second: &str,
    third: &str,
    x: i128,
    y: i128,
    z: i128,
) -> Result<(), AllocError>
    ensures { Puts result json.old json.new (length_members first.now second.now third.now x y z) }
{
    put_length(alloc, json, first, x)?;
    put_length(alloc, json, second, y)?;
    put_length(alloc, json, third, z)?;
    Ok(())
}

fn put_point(
    alloc: Global,
    json: &mut Writer,
    first: &str,
    second: &str,
    third: &str,
    point: Point,
) -> Result<(), AllocError>
    ensures { Puts result json.old json.new
        (length_members first.now second.now third.now point.x point.y point.z) }
{
    let x = i128::from(point.x.get());
    let y = i128::from(point.y.get());
    let z = i128::from(point.z.get());
    put_lengths(alloc, json, first, second, third, x, y, z)?;
    Ok(())
}

fn put_nulls(json: &mut Writer, first: &str, second: &str, third: &str) -> Result<(), AllocError>
    ensures { Puts result json.old json.new (null_members first.now second.now third.now) }
{
    put_null(json, first)?;
    put_null(json, second)?;
    put_null(json, third)?;
    Ok(())
}

fn put_direction(
    alloc: Global,
    json: &mut Writer,
    first: &str,
    second: &str,
    third: &str,
    normal: Option<Dir>,
) -> Result<(), AllocError>
    ensures { Puts result json.old json.new (components_of first.now second.now third.now normal) }
{
    match normal {
        Some(direction) => {
            put_component(alloc, json, first, i64::from(direction.i))?;
            put_component(alloc, json, second, i64::from(direction.j))?;
            put_component(alloc, json, third, i64::from(direction.k))?;
            Ok(())
        }
        None => put_nulls(json, first, second, third),
    }
}

fn put_length_or_null(
    alloc: Global,
    json: &mut Writer,
    name: &str,
    length: Option<i128>,
) -> Result<(), AllocError>
    ensures { Puts result json.old json.new (length_or_null name.now length) }
{
    match length {
        Some(length) => put_length(alloc, json, name, length)?,
        None => put_null(json, name)?,
    }
    Ok(())
}

fn kind_of(frame: Frame) -> &'static str
    ensures { result.now ≡ kind_of frame }
{
    match frame {
        Frame::Machine => "MACHINE",
        Frame::Part(_) => "PART",
    }
}

fn place_of(frame: Frame) -> Point
    ensures { result ≡ place_of frame }
{
    match frame {
        Frame::Machine => Point::zero(),
        Frame::Part(offset) => offset,
    }
}

#[tactic(auto, unfolding(crate::specs::Json::feature_member))]
fn put_feature(alloc: Global, json: &mut Writer, feature: &Name) -> Result<(), AllocError>
    ensures { Puts result json.old json.new (feature_member feature.now) }
{
    put_name(alloc, json, "feature", feature)?;
    Ok(())
}

#[tactic(auto, unfolding(crate::specs::Json::count_member))]
fn put_count(json: &mut Writer, number: u64) -> Result<(), AllocError>
    ensures { Puts result json.old json.new (count_member number) }
{
    put_number(json, "point", number)?;
    Ok(())
}

#[tactic(auto, unfolding(crate::specs::Json::nominal_members))]
fn put_nominal(alloc: Global, json: &mut Writer, point: Point) -> Result<(), AllocError>
    ensures { Puts result json.old json.new (nominal_members point) }
{
    put_point(alloc, json, "nominal_x", "nominal_y", "nominal_z", point)?;
    Ok(())
}

#[tactic(auto, unfolding(crate::specs::Json::normal_members))]
fn put_normal(alloc: Global, json: &mut Writer, normal: Option<Dir>) -> Result<(), AllocError>
    ensures { Puts result json.old json.new (normal_members normal) }
{
    put_direction(alloc, json, "normal_i", "normal_j", "normal_k", normal)?;
    Ok(())
}

#[tactic(auto, unfolding(crate::specs::Json::measured_members))]
fn put_measured(alloc: Global, json: &mut Writer, measured: Option<Point>) -> Result<(), AllocError>
    ensures { Puts result json.old json.new (measured_members measured) }
{
    match measured {
        Some(point) => put_point(alloc, json, "measured_x", "measured_y", "measured_z", point)?,
        None => put_nulls(json, "measured_x", "measured_y", "measured_z")?,
    }
    Ok(())
}

#[tactic(auto, unfolding(crate::specs::Json::deviation_members))]
fn put_deviation(
    alloc: Global,
    json: &mut Writer,
    deviation: Option<Deviation>,
) -> Result<(), AllocError>
    ensures { Puts result json.old json.new (deviation_members deviation) }
{
    let names = ("deviation_x", "deviation_y", "deviation_z");
    match deviation {
        Some(v) => {
            let (x, y, z) = (i128::from(v.x), i128::from(v.y), i128::from(v.z));
            put_lengths(alloc, json, names.0, names.1, names.2, x, y, z)?;
        }
        None => put_nulls(json, names.0, names.1, names.2)?,
    }
    Ok(())
}

#[tactic(auto, unfolding(crate::specs::Json::along_member))]
fn put_along(alloc: Global, json: &mut Writer, along: Option<i128>) -> Result<(), AllocError>
    ensures { Puts result json.old json.new (along_member along) }
{
    put_length_or_null(alloc, json, "deviation_along_normal", along)?;
    Ok(())
}

#[tactic(auto, unfolding(crate::specs::Json::tool_member))]
fn put_tool(alloc: Global, json: &mut Writer, tool: &Name) -> Result<(), AllocError>
    ensures { Puts result json.old json.new (tool_member tool.now) }
{
    put_name(alloc, json, "tool", tool)?;
    Ok(())
}

#[tactic(auto, unfolding(crate::specs::Json::kind_member))]
fn put_kind(json: &mut Writer, frame: Frame) -> Result<(), AllocError>
    ensures { Puts result json.old json.new (kind_member frame) }
{
    put_text(json, "frame", kind_of(frame))?;
    Ok(())
}

#[tactic(auto, unfolding(crate::specs::Json::place_members))]
fn put_place(alloc: Global, json: &mut Writer, place: Point) -> Result<(), AllocError>
    ensures { Puts result json.old json.new (place_members place) }
{
    put_point(alloc, json, "frame_x", "frame_y", "frame_z", place)?;
    Ok(())
}

#[tactic(auto, unfolding(crate::specs::Json::connection_member))]
fn put_connection(json: &mut Writer, connection: Option<u64>) -> Result<(), AllocError>
    ensures { Puts result json.old json.new (connection_member connection) }
{
    match connection {
        Some(number) => put_number(json, "connection", number)?,
        None => put_null(json, "connection")?,
    }
    Ok(())
}

fn put_verdict(json: &mut Writer, verdict: Option<Verdict>) -> Result<(), AllocError>
    ensures { Puts result json.old json.new (verdict_member verdict) }
{
    match verdict {
        Some(verdict) => put_text(json, "limit", verdict_word(verdict)),
        None => put_null(json, "limit"),
    }
}

/// Whether the point is within its limit, if there are limits.
#[tactic(auto, unfolding(crate::specs::Json::limit_member))]
fn put_limit(json: &mut Writer, limits: &Option<Limits>, row: &Row<'_>) -> Result<(), AllocError>
    ensures { Puts result json.old json.new (limit_member limits.now row.now) }
{
    match limits {
        Some(limits) => put_verdict(json, row_verdict(limits, row)),
        None => Ok(()),
    }
}

/// What was requested.
#[tactic(auto, unfolding(crate::specs::Json::asked_members))]
fn put_asked(alloc: Global, json: &mut Writer, row: &Row<'_>) -> Result<(), AllocError>
    ensures { Puts result json.old json.new (asked_members row.now) }
{
    put_feature(alloc, json, row.feature())?;
    put_count(json, row.number())?;
    put_nominal(alloc, json, row.nominal())?;
    put_normal(alloc, json, row.normal())?;
    Ok(())
}

#[tactic(auto, unfolding(crate::specs::Json::found_members))]
fn put_found(alloc: Global, json: &mut Writer, row: &Row<'_>) -> Result<(), AllocError>
    ensures { Puts result json.old json.new (found_members row.now) }
{
    put_measured(alloc, json, row.measured())?;
    put_deviation(alloc, json, row.deviation())?;
    put_along(alloc, json, row.along())?;
    Ok(())
}

/// With which tool, and where.
#[tactic(auto, unfolding(crate::specs::Json::means_members))]
fn put_means(alloc: Global, json: &mut Writer, row: &Row<'_>) -> Result<(), AllocError>
    ensures { Puts result json.old json.new (means_members row.now) }
{
    put_tool(alloc, json, row.tool())?;
    put_kind(json, row.frame())?;
    put_place(alloc, json, place_of(row.frame()))?;
    put_connection(json, row.connection())?;
    Ok(())
}

#[tactic(auto, unfolding(crate::specs::Json::part_member))]
fn put_part(json: &mut Writer, part: &str) -> Result<(), AllocError>
    ensures { Puts result json.old json.new (part_member part.now) }
{
    put_text(json, "part", part)
}

#[tactic(auto, unfolding(crate::specs::Json::program_member))]
fn put_program(json: &mut Writer, program: &str) -> Result<(), AllocError>
    ensures { Puts result json.old json.new (program_member program.now) }
{
    put_text(json, "program", program)
}

#[tactic(auto, unfolding(crate::specs::Json::missing_member))]
fn put_missing(json: &mut Writer, is_missing: bool) -> Result<(), AllocError>
    ensures { Puts result json.old json.new (missing_member is_missing) }
{
    json.key("missing")?;
    json.boolean(is_missing)
}

#[tactic(auto, unfolding(crate::specs::Json::named_members))]
fn put_named(json: &mut Writer, of: &RowsOf<'_>, row: &Row<'_>) -> Result<(), AllocError>
    ensures { Puts result json.old json.new (named_members of.now row.now.place.measured) }
{
    put_part(json, of.part())?;
    put_program(json, of.program())?;
    put_missing(json, row.measured().is_none())?;
    Ok(())
}

/// What a row says first.
fn put_of(json: &mut Writer, of: &Option<RowsOf<'_>>, row: &Row<'_>) -> Result<(), AllocError>
    ensures { Puts result json.old json.new (of_members of.now row.now.place.measured) }
{
    match of {
        Some(of) => put_named(json, of, row),
        None => Ok(()),
    }
}

#[tactic(auto, unfolding(crate::specs::Json::row_tokens))]
fn put_row(
    alloc: Global,
    json: &mut Writer,
    of: &Option<RowsOf<'_>>,
    limits: &Option<Limits>,
    row: &Row<'_>,
) -> Result<(), AllocError>
    ensures { Puts result json.old json.new (row_tokens of.now limits.now row.now) }
{
    json.begin_object()?;
    put_of(json, of, row)?;
    put_asked(alloc, json, row)?;
    put_found(alloc, json, row)?;
    put_means(alloc, json, row)?;
    put_limit(json, limits, row)?;
    json.end_object()?;
    Ok(())
}

/// Appends a table as JSON (RFC 8259), in one line that ends with LF: an array with an object for each row, its members named as the
/// columns of `write_csv` are. A length is a number in millimetres with three decimals, a component of a normal one with six, each written
/// exactly and without floating point; `null` is written if there is no normal, if it is not known which connection a feature comes from,
/// or if a point was not measured. If part and program are given, each object says them first, and `missing`, which is whether its point was
/// not measured. With limits each object has a member `limit` too, `"in"`, `"out"`, or `null` if no limit is for the
/// point. Fails only if out of memory, and then appends nothing.
pub fn write_json(
    out: &mut Vec<u8>,
    of: &Option<RowsOf<'_>>,
    limits: &Option<Limits>,
    rows: &[Row<'_>],
) -> Result<(), AllocError>
    ensures text { Writes result out.old out.new (json_of of.now limits.now rows.now) }
    ensures reads_back { OnOk result (tokens (array_text of.now limits.now rows.now)
        ≡ json_tokens of.now limits.now rows.now) }
{
    let alloc = *out.allocator();
    let mut json = Writer::new(Vec::new(alloc));
    json.begin_array()?;
    let mut left = rows;
    while let [row, others @ ..] = left {
        put_row(alloc, &mut json, of, limits, row)?;
        left = others;
    }
    json.end_array()?;
    let mut text = json.into_inner();
    text.extend_from_slice(b"\n")?;
    out.extend_from_slice(text.as_slice())
}
