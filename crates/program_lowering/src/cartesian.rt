// Polar and incremental coordinates.

ghost use Rattle.std.specs.Prelude.{◌≡◌, ◌≤◌, ◌<◌, ◌==◌, ◌*◌, ◌++◌, IfSome, length, ◌∷◌, [], ℕ, List, IfOk, Ok, bytes_eq, codes, drop, false, map, option_map, unsigned_abs};
ghost use Rattle.std.specs.Char.{is_ascii_digit};
ghost use Rattle.std.specs.List.{list_all, list_any, position};
ghost use Rattle.program_flow.specs.Numbers.{numeral};
ghost use Rattle.program_lowering.specs.OperatorTexts.{is_plain, marked};
ghost use Rattle.fixed_um.specs.Limits.{component_limit};
ghost use Rattle.dmis_program.specs.Keywords.{is_among};
ghost use Rattle.program_lowering.specs.Carried.{line_if, line_with};
ghost use Rattle.program_lowering.specs.Cartesian as spec;

use crate::inches::direction;
use crate::lines::{are_plain, push_params};
use crate::texts::{is_among, without_cart};
use crate::values::{line_of, push_number};
use dmis_text::{Statement, Text};
use fixed_um::Dir;
use program_flow::{Number, Variables, cosine, in_radians, is_text, sine, value_of};
use std::alloc::{AllocError, Global};

/// A working plane.
#[derive(Clone, Copy)]
pub(crate) enum Plane {
    Xy,
    Yz,
    Zx,
}

/// A unit of angles.
#[derive(Clone, Copy)]
pub(crate) enum AngleUnit {
    Degrees,
    Radians,
    /// Degrees, minutes and seconds.
    Sexagesimal,
}

/// Three coordinates, or the components of a direction.
pub(crate) type Triple = (Number, Number, Number);

/// What coordinates refer to, as far as this profile takes it.
#[derive(Clone, Copy)]
pub(crate) struct Reference {
    pub(crate) plane: Option<Plane>,
    pub(crate) unit: AngleUnit,
    /// Where the machine is, if a `GOTO` ended there.
    pub(crate) place: Option<Triple>,
    /// Whether the block that is open has no touch.
    pub(crate) untouched: bool,
}

/// The value of an expression without names.
pub(crate) fn number_in(alloc: Global, text: &[u8]) -> Option<Number>
    ensures { result ≡ spec.number_in text.now }
{
    value_of(text, &Variables::new(alloc)).ok()
}

pub(crate) fn numbers_in(alloc: Global, first: &[u8], second: &[u8], third: &[u8]) -> Option<Triple>
    ensures { result ≡ spec.numbers_in (first.now ∷ (second.now ∷ (third.now ∷ []))) }
{
    let first = number_in(alloc, first)?;
    let second = number_in(alloc, second)?;
    let third = number_in(alloc, third)?;
    Some((first, second, third))
}

/// Where a byte is first.
fn first_place(mark: u8, text: &[u8]) -> Option<usize>
    ensures value { result ≡ position (λ b. b == mark) text.now }
    ensures within { IfSome result (λ i. i < length text.now) }
{
    text.iter().position(|byte| *byte == mark)
}

/// The texts around the first mark.
fn parted(mark: u8, text: &[u8]) -> Option<(&[u8], &[u8])>
    ensures { option_map (λ p. (p.0.now, p.1.now)) result ≡ spec.parted mark text.now }
{
    let Some(place) = first_place(mark, text) else {
        return None;
    };
    let (before, _) = text.split_at(place);
    let (_, after) = text.split_at(place + 1);
    Some((before, after))
}

fn are_digits(text: &[u8]) -> bool
    ensures { result ≡ list_all is_ascii_digit text.now }
{
    text.iter().all(|byte| byte.is_ascii_digit())
}

/// Whether a text is a number below 60: one digit, or two.
fn is_sixtieth(text: &[u8]) -> bool
    ensures { result ≡ spec.is_sixtieth text.now }
{
    match text {
        [only] => only.is_ascii_digit(),
        [first, second] => first.is_ascii_digit() && *first <= b'5' && second.is_ascii_digit(),
        _ => false,
    }
}

/// The seconds that a text writes, with decimals or without.
fn seconds_in(alloc: Global, text: &[u8]) -> Option<Number>
    ensures { result ≡ spec.seconds_in text.now }
{
    let taken = match parted(b'.', text) {
        Some((whole, decimals)) => is_sixtieth(whole) && are_digits(decimals),
        None => is_sixtieth(text),
    };
    if !taken {
        return None;
    }
    number_in(alloc, text)
}

/// A number with that many sixtieths.
fn with_sixtieths(alloc: Global, whole: &[u8], part: Option<Number>) -> Option<Number>
    ensures { result ≡ spec.with_sixtieths whole.now part }
{
    let whole = number_in(alloc, whole)?;
    let part = part?.quotient(number_in(alloc, b"60")?).ok()?;
    whole.sum(part).ok()
}

/// The minutes that a text writes, with seconds or without.
fn minutes_in(alloc: Global, text: &[u8]) -> Option<Number>
    ensures { result ≡ spec.minutes_in text.now }
{
    match parted(b':', text) {
        Some((minutes, seconds)) if is_sixtieth(minutes) => {
            with_sixtieths(alloc, minutes, seconds_in(alloc, seconds))
        }
        None if is_sixtieth(text) => number_in(alloc, text),
        _ => None,
    }
}

/// The degrees that a text writes with minutes.
fn degrees_in(alloc: Global, text: &[u8]) -> Option<Number>
    ensures { result ≡ spec.degrees_in text.now }
{
    let (degrees, minutes) = parted(b':', text)?;
    if !are_digits(degrees) {
        return None;
    }
    with_sixtieths(alloc, degrees, minutes_in(alloc, minutes))
}

/// The degrees that a text writes with minutes, and with a minus or without one.
fn signed_degrees(alloc: Global, text: &[u8]) -> Option<Number>
    ensures { result ≡ spec.signed_degrees text.now }
{
    match text {
        [] => None,
        [b'-', rest @ ..] => Some(degrees_in(alloc, rest)?.opposite()),
        _ => degrees_in(alloc, text),
    }
}

fn has_colon(text: &[u8]) -> bool
    ensures { result ≡ list_any (λ b. b == 58) text.now }
{
    text.iter().any(|byte| *byte == b':')
}

/// The number of an angle in this unit.
fn angle_in(alloc: Global, unit: AngleUnit, text: &[u8]) -> Option<Number>
    ensures { result ≡ spec.angle_in unit text.now }
{
    match unit {
        AngleUnit::Degrees | AngleUnit::Radians => number_in(alloc, text),
        AngleUnit::Sexagesimal if !has_colon(text) => number_in(alloc, text),
        AngleUnit::Sexagesimal => signed_degrees(alloc, text),
    }
}

/// The plane that a `WKPLAN` names.
fn plane_named(params: &[Text]) -> Option<Plane>
    ensures { result ≡ spec.plane_named params.now }
{
    match params {
        [only] if is_text(only, "XYPLAN") => Some(Plane::Xy),
        [only] if is_text(only, "YZPLAN") => Some(Plane::Yz),
        [only] if is_text(only, "ZXPLAN") => Some(Plane::Zx),
        _ => None,
    }
}

fn has_word(params: &[Text], word: &str) -> bool
    ensures { result ≡ list_any (λ p. bytes_eq p word.now) params.now }
{
    params.iter().any(|param| is_text(param, word))
}

/// The unit of angles that a `UNITS` names.
fn unit_named(params: &[Text]) -> AngleUnit
    ensures { result ≡ spec.unit_named params.now }
{
    if has_word(params, "ANGDMS") {
        AngleUnit::Sexagesimal
    } else if has_word(params, "ANGRAD") {
        AngleUnit::Radians
    } else {
        AngleUnit::Degrees
    }
}

/// Whether a word moves nothing, and leaves tool, unit and frame as they are.
fn is_still(word: &[u8]) -> bool
    ensures { result ≡ is_among word.now spec.still }
{
    is_among(
        word,
        &[
            "MEAS", "FEAT", "TOL", "SNSDEF", "FILNAM", "FEDRAT", "ACLRAT", "SNSET", "FINPOS",
            "PRCOMP", "WKPLAN", "TEXT", "DISPLY", "OUTPUT", "ASSIGN", "DECL", "FLY", "RAPID", "IF",
            "SELECT", "JUMPTO", "CALL",
        ],
    )
}

fn radians(unit: AngleUnit, angle: Number) -> Option<Number>
    ensures { result ≡ spec.radians unit angle }
{
    match unit {
        AngleUnit::Radians => Some(angle),
        AngleUnit::Degrees | AngleUnit::Sexagesimal => in_radians(angle).ok(),
    }
}

/// What is that far along the axes of a plane, at a height.
pub(crate) fn in_plane(plane: Plane, first: Number, second: Number, height: Number) -> Triple
    ensures { result ≡ spec.in_plane plane first second height }
{
    match plane {
        Plane::Xy => (first, second, height),
        Plane::Yz => (height, first, second),
        Plane::Zx => (second, height, first),
    }
}

fn square(component: i32) -> u64
    requires { unsigned_abs component ≤ component_limit }
    ensures value { result ≡ spec.square component }
    ensures within { result ≤ component_limit * component_limit }
{
    let magnitude = u64::from(component.unsigned_abs());
    magnitude * magnitude
}

/// Whether the length of a direction is within 10^-5 of 1.
fn is_of_length_one(direction: Dir) -> bool
    ensures { result ≡ spec.is_of_length_one direction }
{
    let squares = square(direction.i) + square(direction.j) + square(direction.k);
    999_980_000_000 <= squares && squares <= 1_000_020_000_000
}

/// A coordinate after a move by a distance.
fn moved(start: Number, distance: Number, component: Number) -> Option<Number>
    ensures { result ≡ spec.moved start distance component }
{
    let way = distance.rounded_product(component).ok()?;
    start.sum(way).ok()
}

pub(crate) fn moved_by(start: Triple, distance: Number, direction: Triple) -> Option<Triple>
    ensures { result ≡ spec.moved_by start distance direction }
{
    let x = moved(start.0, distance, direction.0)?;
    let y = moved(start.1, distance, direction.1)?;
    let z = moved(start.2, distance, direction.2)?;
    Some((x, y, z))
}

/// Appends numbers and the parameters after them, each after a comma. Whether all are read back as they are written.
fn push_place(out: &mut Vec<u8>, numbers: &[Number], rest: &[Text]) -> Result<bool, AllocError>
    ensures { IfOk result (λ plain. (out.new.items
        ≡ out.old.items ++ marked 44 (map numeral numbers.now ++ rest.now))
        × (plain ≡ list_all (is_plain false) (map numeral numbers.now ++ rest.now))) }
{
    let [first, others @ ..] = numbers else {
        push_params(out, b',', rest)?;
        return Ok(are_plain(rest));
    };
    let plain = push_number(out, *first)?;
    let more = push_place(out, others, rest)?;
    Ok(plain && more)
}

/// What follows three parameters.
fn behind_three<'a, 'b>(params: &'a [Text<'b>]) -> &'a [Text<'b>]
    ensures { result.now ≡ drop 3 params.now }
{
    match params {
        [_, _, _, rest @ ..] => rest,
        _ => &[],
    }
}

/// The line of a word with these Cartesian numbers, and with the parameters after them.
pub(crate) fn cartesian_line(
    alloc: Global,
    word: &[u8],
    numbers: &[Number],
    rest: &[Text],
) -> Result<Vec<u8>, AllocError>
    ensures { IfOk result (λ line. line.items ≡ line_with word.now
        (Ok (codes "CART" ∷ (map numeral numbers.now ++ rest.now)))) }
{
    let mut text = Vec::from_slice(alloc, word)?;
    text.extend_from_slice(b"/CART")?;
    let plain = push_place(&mut text, numbers, rest)?;
    line_of(alloc, word, text, plain)
}

/// The line of a word with a Cartesian place, if there is one, and with the parameters after it.
fn placed_line(
    alloc: Global,
    word: &[u8],
    place: Option<Triple>,
    rest: &[Text],
) -> Result<Option<Vec<u8>>, AllocError>
    ensures { IfOk result (λ line. option_map (λ l. l.items) line
        ≡ line_if word.now (spec.with_place rest.now place)) }
{
    let Some(place) = place else {
        return Ok(None);
    };
    let line = cartesian_line(alloc, word, &[place.0, place.1, place.2], rest)?;
    Ok(Some(line))
}

impl Reference {
    /// Before any statement.
    pub(crate) fn none() -> Reference
        ensures { result ≡ spec.no_reference }
    {
        Reference {
            plane: Some(Plane::Xy),
            unit: AngleUnit::Degrees,
            place: None,
            untouched: false,
        }
    }

    /// Whether the machine is where it was, below this word.
    fn stays(self, word: &[u8]) -> bool
        ensures { result ≡ spec.stays self word.now }
    {
        is_still(word) || (is_text(word, "ENDMES") && !self.untouched)
    }

    /// After a statement with Cartesian coordinates.
    pub(crate) fn after(self, alloc: Global, statement: &Statement) -> Reference
        ensures { result ≡ spec.reference_after self statement.now }
    {
        let mut after = self;
        if is_text(&statement.word, "WKPLAN") {
            after.plane = plane_named(&statement.params);
        }
        if is_text(&statement.word, "UNITS") {
            after.unit = unit_named(&statement.params);
        }
        if is_text(&statement.word, "GOTO") {
            after.place = match without_cart(&statement.params) {
                [x, y, z] => numbers_in(alloc, x, y, z),
                _ => None,
            };
        } else if !self.stays(&statement.word) {
            after.place = None;
        }
        if is_text(&statement.word, "MEAS") {
            after.untouched = true;
        } else if is_text(&statement.word, "PTMEAS") {
            after.untouched = false;
        }
        after
    }

    /// The place of a radius, an angle and a height.
    fn polar(self, alloc: Global, params: &[Text]) -> Option<Triple>
        ensures { result ≡ spec.polar self params.now }
    {
        let [radius, angle, height, ..] = params else {
            return None;
        };
        let plane = self.plane?;
        let radius = number_in(alloc, radius)?;
        let angle = angle_in(alloc, self.unit, angle)?;
        let height = number_in(alloc, height)?;
        let turn = radians(self.unit, angle)?;
        let first = radius.rounded_product(cosine(turn).ok()?).ok()?;
        let second = radius.rounded_product(sine(turn).ok()?).ok()?;
        Some(in_plane(plane, first, second, height))
    }

    /// The place after a move by a distance in a direction.
    fn incremental(self, alloc: Global, params: &[Text]) -> Option<Triple>
        ensures { result ≡ spec.incremental self params.now }
    {
        let [distance, i, j, k] = params else {
            return None;
        };
        let start = self.place?;
        if !is_of_length_one(direction(i, j, k).ok()?) {
            return None;
        }
        let distance = number_in(alloc, distance)?;
        moved_by(start, distance, numbers_in(alloc, i, j, k)?)
    }

    /// The line of a word with Cartesian coordinates, if these parameters have others that are taken.
    fn line_for(
        self,
        alloc: Global,
        word: &[u8],
        params: &[Text],
    ) -> Result<Option<Vec<u8>>, AllocError>
        ensures { IfOk result (λ line. option_map (λ l. l.items) line
            ≡ line_if word.now (spec.cartesian_params self word.now params.now)) }
    {
        let [form, rest @ ..] = params else {
            return Ok(None);
        };
        if is_text(form, "POL") {
            return placed_line(alloc, word, self.polar(alloc, rest), behind_three(rest));
        }
        if is_text(form, "INCR") && is_text(word, "GOTO") {
            return placed_line(alloc, word, self.incremental(alloc, rest), &[]);
        }
        Ok(None)
    }

    /// The line from which a statement is read with Cartesian coordinates, if it has others that are taken.
    pub(crate) fn line(
        self,
        alloc: Global,
        statement: &Statement,
    ) -> Result<Option<Vec<u8>>, AllocError>
        ensures { IfOk result (λ line. option_map (λ l. l.items) line
            ≡ line_if statement.now.word (spec.made_cartesian self statement.now)) }
    {
        if statement.label.is_some() || !is_among(&statement.word, &["GOTO", "PTMEAS"]) {
            return Ok(None);
        }
        self.line_for(alloc, &statement.word, &statement.params)
    }
}
