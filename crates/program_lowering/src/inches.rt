// Programs in inches.

ghost use Rattle.std.specs.Prelude.{◌≡◌, ◌≢◌, ◌≤◌, slice_index, unsigned_abs};
ghost use Rattle.std.specs.Char.{is_ascii_alphabetic};
ghost use Rattle.fixed_um.specs.Limits.{component_limit};
ghost use Rattle.dmis_program.specs.Keywords.{keyword_of};
ghost use Rattle.dmis_program.specs.Outcomes.{Gives};
ghost use Rattle.dmis_program.specs.Parameters.{is_other_coordinates};
ghost use Rattle.dmis_program.specs.Positions.{direction_of};
ghost use Rattle.dmis_program.specs.Sayings.{is_badly_formed};
ghost use Rattle.program_lowering.specs.Inches as spec;

use crate::texts::{begins_with, without_cart};
use dmis_program::{Keyword, Refusal, StatementFault, StatementMeaning, said_of};
use dmis_text::{Statement, Text};
use fixed_um::{Dir, Point, Um, read_dir};
use program_flow::is_text;
use std::alloc::Global;

/// The length of that many millionths of an inch.
fn inch_length(millionths: i32) -> Um
    requires { unsigned_abs millionths ≤ component_limit }
    ensures { result ≡ spec.inch_length millionths }
{
    let wide = i64::from(millionths);
    let magnitude = (508 * wide.unsigned_abs() + 10_000) / 20_000;
    let micrometres = magnitude as i64;
    let length = Um::new(if wide < 0 { -micrometres } else { micrometres });
    let Some(length) = length else { unreachable!() };
    length
}

/// The point whose coordinates are that many millionths of an inch.
fn inch_point(inches: Dir) -> Point
    ensures { result ≡ spec.inch_point inches }
{
    Point {
        x: inch_length(inches.i),
        y: inch_length(inches.j),
        z: inch_length(inches.k),
    }
}

/// The position that three numerals in inches write.
fn position(x: &[u8], y: &[u8], z: &[u8]) -> Result<Point, Refusal>
    ensures { result ≡ spec.inch_position x.now y.now z.now }
{
    match read_dir(x, y, z) {
        Ok(Some(inches)) => Ok(inch_point(inches)),
        Ok(None) => Ok(Point::zero()),
        Err(fault) => Err(Refusal::BadNumeral(fault)),
    }
}

/// The direction that three numerals write: it has no unit.
pub(crate) fn direction(i: &[u8], j: &[u8], k: &[u8]) -> Result<Dir, Refusal>
    ensures { result ≡ direction_of i.now j.now k.now }
{
    match read_dir(i, j, k) {
        Ok(Some(direction)) => Ok(direction),
        Ok(None) => Err(Refusal::ZeroVector),
        Err(fault) => Err(Refusal::BadNumeral(fault)),
    }
}

fn begins_with_letter(text: &[u8]) -> bool
    ensures { result ≡ is_ascii_alphabetic (slice_index text.now 0) }
{
    match text {
        [first, ..] => first.is_ascii_alphabetic(),
        [] => false,
    }
}

/// Whether the first parameter names other coordinates than `CART`.
fn is_other_coordinates(params: &[Text]) -> bool
    ensures { result ≡ is_other_coordinates params.now }
{
    params.first().is_some_and(|first| begins_with_letter(first) && !is_text(first, "CART"))
}

/// `GOTO/x,y,z` in inches.
fn goes(params: &[Text]) -> Result<StatementMeaning, Refusal>
    ensures { result ≡ spec.goes_in params.now }
{
    match params {
        [x, y, z] => Ok(StatementMeaning::Goes(position(x, y, z)?)),
        _ => Err(Refusal::BadArguments),
    }
}

/// `PTMEAS/CART` in inches, after its first parameter.
fn touches_at(params: &[Text]) -> Result<StatementMeaning, Refusal>
    ensures { result ≡ spec.touches_in params.now }
{
    match params {
        [x, y, z] => {
            let target = position(x, y, z)?;
            Ok(StatementMeaning::Touches(target, None))
        }
        [x, y, z, i, j, k] => {
            let target = position(x, y, z)?;
            let direction = direction(i, j, k)?;
            Ok(StatementMeaning::Touches(target, Some(direction)))
        }
        _ => Err(Refusal::BadArguments),
    }
}

/// `PTMEAS` in inches.
fn touches(params: &[Text]) -> Result<StatementMeaning, Refusal>
    ensures { result ≡ spec.touches_after params.now }
{
    match params.split_first() {
        Some((first, rest)) if is_text(first, "CART") => touches_at(rest),
        _ => Err(Refusal::BadArguments),
    }
}

/// `UNITS`, which may name the inch.
fn units(params: &[Text]) -> Result<StatementMeaning, Refusal>
    ensures { result ≡ spec.units_in params.now }
{
    match params.split_first() {
        Some((first, _)) if is_text(first, "INCH") || is_text(first, "MM") => {
            Ok(StatementMeaning::Passes)
        }
        Some(_) => Err(Refusal::NotMillimetres),
        None => Err(Refusal::BadArguments),
    }
}

/// Whether the unit is the inch after a statement with this keyword.
pub(crate) fn inches_after(inches: bool, keyword: Keyword, statement: &Statement) -> bool
    requires { keyword ≡ keyword_of statement.now.word }
    ensures { result ≡ spec.inches_after inches statement.now }
{
    match keyword {
        Keyword::Units => begins_with("INCH", &statement.params),
        _ => inches,
    }
}

/// Whether the lengths of a statement with this keyword are read as inches.
fn is_in_inches(inches: bool, keyword: Keyword, params: &[Text]) -> bool
    ensures { result ≡ spec.is_in_inches inches keyword params.now }
{
    match keyword {
        Keyword::Goto => inches && !is_other_coordinates(params),
        Keyword::Ptmeas => inches,
        Keyword::Units => true,
        _ => false,
    }
}

/// What a statement with this keyword says, where the unit is the inch or not. The caller gives a word that a flat program has.
#[tactic(auto, unfolding(dmis_program::specs::Sayings::said_of))]
pub(crate) fn said_in(
    alloc: Global,
    inches: bool,
    keyword: Keyword,
    statement: &Statement,
) -> Result<StatementMeaning, StatementFault>
    requires { keyword ≢ Keyword.Unknown }
    ensures { Gives result (spec.said_stated inches keyword statement.now) }
{
    if !is_in_inches(inches, keyword, &statement.params) {
        return said_of(alloc, keyword, statement);
    }
    if statement.label.is_some() || statement.is_open() {
        return Err(StatementFault::Refused(Refusal::BadArguments));
    }
    match keyword {
        Keyword::Goto => Ok(goes(without_cart(&statement.params))?),
        Keyword::Ptmeas => Ok(touches(&statement.params)?),
        _ => Ok(units(&statement.params)?),
    }
}
