// Touches from the nominal.

ghost use Rattle.std.specs.Prelude.{◌≡◌, [], codes, IfOk, OnOk, None, Ok};
ghost use Rattle.std.specs.Option.{option_map};
ghost use Rattle.dmis_program.specs.Keywords.{keyword_of};
ghost use Rattle.dmis_program.specs.Sayings.{said_of};
ghost use Rattle.program_flow.specs.Numbers.{and_then, magnitude, quotient};
ghost use Rattle.program_flow.specs.Texts.{whole_of};
ghost use Rattle.program_lowering.specs.Carried as code;
ghost use Rattle.program_lowering.specs.EvenTouches as spec;
ghost use Rattle.program_lowering.specs.Texts.{begins_with};

use crate::cartesian::{Plane, Triple, in_plane, moved_by, number_in, numbers_in};
use crate::flats::push_number;
use crate::manual::manual_after;
use crate::stored::{makes_frame, name_within};
use crate::texts::begins_with;
use crate::words::names_frame;
use dmis_program::{Keyword, StatementFault, StatementMeaning, said_of};
use dmis_text::{Statement, Text};
use fixed_um::Name;
use program_flow::{Number, cosine, in_radians, is_text, sine};
use std::alloc::{AllocError, Global};
use std::marker::Model;

/// A bore, as its `FEAT` says it.
#[derive(Clone, Copy)]
pub(crate) struct Bore {
    pub(crate) centre: Triple,
    /// The centre of the second level of a cylinder; `centre` is that of the first.
    pub(crate) far: Option<Triple>,
    pub(crate) plane: Plane,
    pub(crate) radius: Number,
}

/// The level of a touch.
#[derive(Clone, Copy)]
pub(crate) struct Level {
    pub(crate) centre: Triple,
    /// How many touches it has.
    pub(crate) count: u64,
    /// Which of them this is, counted from 0.
    pub(crate) touch: u64,
}

/// A touch from within.
#[derive(Clone, Copy)]
pub(crate) struct Touch {
    /// The centre of its level.
    pub(crate) from: Triple,
    pub(crate) place: Triple,
    pub(crate) direction: Triple,
}

/// An open block of a circle or a cylinder without a touch: its feature, and how many touches it asks for.
#[derive(Drop)]
pub(crate) struct Wanted {
    pub(crate) name: Name,
    pub(crate) count: u64,
    pub(crate) cylinder: bool,
}

/// A feature, with its bore if it is one.
#[derive(Drop)]
pub(crate) struct Feature {
    pub(crate) name: Name,
    pub(crate) bore: Option<Bore>,
}

/// What a block is given.
#[derive(Drop)]
pub(crate) struct Filling {
    pub(crate) name: Name,
    pub(crate) count: u64,
    pub(crate) cylinder: bool,
    /// Where it ends.
    pub(crate) end: Triple,
    pub(crate) touches: Vec<Touch>,
}

impl Model for Filling {
    ghost use Rattle.program_lowering.specs.EvenTouches.{Filling};

    ghost Value = { Filling };

    ghost view = { λ f. record {
      name = f.name;
      count = f.count;
      cylinder = f.cylinder;
      end = f.end;
      touches = f.touches.items;
    } };
}

/// What the statements above leave for the next block.
#[derive(Drop)]
pub(crate) struct Even {
    waiting: Option<Wanted>,
    /// The features above, the nearest last.
    features: Vec<Feature>,
    manual: bool,
}

impl Model for Even {
    ghost use Rattle.program_lowering.specs.Carried.{Seen};

    ghost Value = { Seen };

    ghost view = { λ e. record { waiting = e.waiting; features = e.features.items; manual = e.manual } };
}

/// The block that a `MEAS` begins, if it is of a circle or a cylinder.
fn begun(alloc: Global, statement: &Statement) -> Result<Option<Wanted>, AllocError>
    ensures { IfOk result (λ block. block ≡ spec.begun
        (begins_with (codes "CIRCLE") statement.now.params)
        (begins_with (codes "CYLNDR") statement.now.params) (said_of Keyword.Meas statement.now)) }
{
    let circle = begins_with("CIRCLE", &statement.params);
    let cylinder = begins_with("CYLNDR", &statement.params);
    match said_of(alloc, Keyword::Meas, statement) {
        Ok(StatementMeaning::Begins(name, count)) => {
            if circle || cylinder {
                Ok(Some(Wanted {
                    name,
                    count,
                    cylinder,
                }))
            } else {
                Ok(None)
            }
        }
        Ok(_) => Ok(None),
        Err(StatementFault::Refused(_)) => Ok(None),
        Err(StatementFault::Memory) => Err(AllocError),
    }
}

/// Whether a number is whole and has this size.
fn has_size(size: u64, number: Number) -> bool
    ensures { result ≡ spec.has_size size (whole_of number) }
{
    number
        .get_whole()
        .is_ok_and(|whole| whole.unsigned_abs() == size)
}

fn are_along(along: Number, second: Number, third: Number) -> bool
    ensures { result ≡ spec.are_along along second third }
{
    has_size(1, along) && has_size(0, second) && has_size(0, third)
}

/// The plane across an axis of the machine.
fn plane_across(axis: Triple) -> Option<Plane>
    ensures { result ≡ spec.plane_across axis }
{
    if are_along(axis.2, axis.0, axis.1) {
        Some(Plane::Xy)
    } else if are_along(axis.0, axis.1, axis.2) {
        Some(Plane::Yz)
    } else if are_along(axis.1, axis.2, axis.0) {
        Some(Plane::Zx)
    } else {
        None
    }
}

fn is_above_zero(number: Number) -> bool
    ensures { result ≡ spec.is_above_zero (and_then (quotient number (magnitude number)) whole_of) }
{
    match number.quotient(number.magnitude()) {
        Ok(sign) => sign.get_whole().is_ok_and(|whole| whole > 0),
        Err(_) => false,
    }
}

/// Half of a length above zero.
fn half(alloc: Global, length: Number) -> Option<Number>
    ensures { result ≡ spec.half length }
{
    if !is_above_zero(length) {
        return None;
    }
    length.quotient(number_in(alloc, b"2")?).ok()
}

/// The bore on its level, or with two if these parameters are a length.
fn levels_in(alloc: Global, bore: Bore, axis: Triple, params: &[Text]) -> Option<Bore>
    ensures { result ≡ spec.levels_in bore axis params.now }
{
    match params {
        [] => Some(bore),
        [length] => {
            let apart = half(alloc, number_in(alloc, length)?)?;
            let depth = half(alloc, apart)?;
            let near = moved_by(bore.centre, depth, axis)?;
            let far = moved_by(near, apart, axis)?;
            Some(Bore {
                centre: near,
                far: Some(far),
                plane: bore.plane,
                radius: bore.radius,
            })
        }
        _ => None,
    }
}

/// The bore at a point, of an axis, a diameter and perhaps a length.
fn wall_in(alloc: Global, point: Triple, params: &[Text]) -> Option<Bore>
    ensures { result ≡ spec.wall_in point params.now }
{
    let [i, j, k, diameter, rest @ ..] = params else {
        return None;
    };
    let axis = numbers_in(alloc, i, j, k)?;
    let plane = plane_across(axis)?;
    let radius = half(alloc, number_in(alloc, diameter)?)?;
    let wall = Bore {
        centre: point,
        far: None,
        plane,
        radius,
    };
    levels_in(alloc, wall, axis, rest)
}

/// The bore of a point, an axis, a diameter and perhaps a length.
fn bore_in(alloc: Global, params: &[Text]) -> Option<Bore>
    ensures { result ≡ spec.bore_in params.now }
{
    match params {
        [x, y, z, wall @ ..] => {
            let point = numbers_in(alloc, x, y, z)?;
            wall_in(alloc, point, wall)
        }
        _ => None,
    }
}

/// Whether this word is that for a bore with this second level, or with none.
fn is_kind(kind: &[u8], far: Option<Triple>) -> bool
    ensures { result ≡ spec.is_kind kind.now far }
{
    match far {
        None => is_text(kind, "CIRCLE"),
        Some(_) => is_text(kind, "CYLNDR"),
    }
}

/// The bore that a `FEAT` with these parameters says.
fn bore_of(alloc: Global, params: &[Text]) -> Option<Bore>
    ensures { result ≡ spec.bore_of params.now }
{
    match params {
        [kind, side, form, rest @ ..] if is_text(side, "INNER") && is_text(form, "CART") => {
            let bore = bore_in(alloc, rest)?;
            if is_kind(kind, bore.far) {
                Some(bore)
            } else {
                None
            }
        }
        _ => None,
    }
}

/// The name in a label `F(name)`.
fn feature_name(alloc: Global, label: &Option<Text<'_>>) -> Result<Option<Name>, AllocError>
    ensures { IfOk result (λ name. name ≡ spec.feature_name label.now) }
{
    match label {
        Some(label) => name_within(alloc, b"F(", label),
        None => Ok(None),
    }
}

/// Whether what a `FEAT` above says does not hold below a statement with this keyword: it selects or makes another unit or coordinate system.
fn ends_nominals(keyword: Keyword, statement: &Statement) -> bool
    requires { keyword ≡ keyword_of statement.now.word }
    ensures { result ≡ spec.ends_nominals (keyword_of statement.now.word) statement.now }
{
    match keyword {
        Keyword::Units => true,
        Keyword::Recall => names_frame(&statement.params),
        Keyword::Unknown => makes_frame(&statement.word),
        _ => false,
    }
}

/// The level of one of n touches.
fn level_at(bore: &Bore, count: u64, touch: u64) -> Level
    ensures { result ≡ spec.level_at bore.now count touch }
{
    let centre = bore.centre;
    let Some(far) = bore.far else {
        return Level {
            centre,
            count,
            touch,
        };
    };
    let first = count - count / 2;
    if touch < first {
        Level {
            centre,
            count: first,
            touch,
        }
    } else {
        Level {
            centre: far,
            count: count / 2,
            touch: touch - first,
        }
    }
}

/// The angle of one of n touches, in degrees, as an expression.
fn angle_text(alloc: Global, count: u64, touch: u64) -> Result<Vec<u8>, AllocError>
    ensures { IfOk result (λ text. text.items ≡ spec.angle_text count touch) }
{
    let mut text = Vec::from_slice(alloc, b"360*")?;
    push_number(&mut text, touch)?;
    text.extend_from_slice(b"/")?;
    push_number(&mut text, count)?;
    Ok(text)
}

/// The way outwards at an angle.
fn outward(alloc: Global, plane: Plane, angle: &[u8]) -> Option<Triple>
    ensures { result ≡ spec.outward_at plane angle.now }
{
    let turn = in_radians(number_in(alloc, angle)?).ok()?;
    let first = cosine(turn).ok()?;
    let second = sine(turn).ok()?;
    Some(in_plane(plane, first, second, number_in(alloc, b"0")?))
}

/// The touch where this way outwards from a centre meets the wall.
fn touch_on(alloc: Global, from: Triple, radius: Number, way: Triple) -> Option<Touch>
    ensures { result ≡ spec.touch_on from radius way }
{
    let place = moved_by(from, radius, way)?;
    let nowhere = numbers_in(alloc, b"0", b"0", b"0")?;
    let direction = moved_by(nowhere, number_in(alloc, b"-1")?, way)?;
    Some(Touch {
        from,
        place,
        direction,
    })
}

/// One of n touches.
fn touch_at(alloc: Global, bore: &Bore, count: u64, touch: u64) -> Result<Option<Touch>, AllocError>
    ensures { IfOk result (λ made. made ≡ spec.touch_at bore.now count touch) }
{
    let level = level_at(bore, count, touch);
    let angle = angle_text(alloc, level.count, level.touch)?;
    Ok(match outward(alloc, bore.plane, &angle) {
        Some(way) => touch_on(alloc, level.centre, bore.radius, way),
        None => None,
    })
}

/// All touches, if all have values.
fn touches_of(alloc: Global, bore: &Bore, count: u64) -> Result<Option<Vec<Touch>>, AllocError>
    ensures { IfOk result (λ made. option_map (λ v. v.items) made
        ≡ spec.touches_to bore.now count count) }
{
    let mut made = Vec::new(alloc);
    for place in 0..count {
        let Some(touch) = touch_at(alloc, bore, count, place)? else {
            return Ok(None);
        };
        made.push(touch)?;
    }
    Ok(Some(made))
}

/// The bore of a name: that of its last feature.
fn latest(features: &[Feature], name: &Name) -> Option<Bore>
    ensures { result ≡ code.latest name.now None features.now }
{
    let mut found = None;
    for feature in features {
        if feature.name.as_bytes() == name.as_bytes() {
            found = feature.bore;
        }
    }
    found
}

/// Whether a bore with this second level, or with none, is of the kind that is asked for.
fn is_as_asked(cylinder: bool, far: Option<Triple>) -> bool
    ensures { result ≡ spec.is_as_asked cylinder far }
{
    match far {
        None => !cylinder,
        Some(_) => cylinder,
    }
}

/// The fewest touches that a block is given.
fn fewest(cylinder: bool) -> u64
    ensures { result ≡ spec.fewest cylinder }
{
    if cylinder { 6 } else { 3 }
}

/// What a block is given in a bore.
fn filling_by(alloc: Global, wanted: &Wanted, bore: &Bore) -> Result<Option<Filling>, AllocError>
    ensures { IfOk result (λ filling. filling ≡ spec.filling_by wanted.now bore.now) }
{
    let Some(touches) = touches_of(alloc, bore, wanted.count)? else {
        return Ok(None);
    };
    Ok(Some(Filling {
        name: wanted.name.copy(alloc)?,
        count: wanted.count,
        cylinder: wanted.cylinder,
        end: bore.far.unwrap_or(bore.centre),
        touches,
    }))
}

impl Even {
    /// Before any statement.
    pub(crate) fn none(alloc: Global) -> Even
        ensures { result ≡ code.nothing_seen }
    {
        Even {
            waiting: None,
            features: Vec::new(alloc),
            manual: false,
        }
    }

    /// What the open block is given.
    fn filling(&self, alloc: Global) -> Result<Option<Filling>, AllocError>
        ensures { IfOk result (λ filling. filling
            ≡ spec.filling_of self.now.waiting (code.bore_among self.now.features)) }
    {
        let Some(wanted) = &self.waiting else {
            return Ok(None);
        };
        if wanted.count < fewest(wanted.cylinder) || wanted.count > 1000 {
            return Ok(None);
        }
        let Some(bore) = latest(&self.features, &wanted.name) else {
            return Ok(None);
        };
        if !is_as_asked(wanted.cylinder, bore.far) {
            return Ok(None);
        }
        filling_by(alloc, wanted, &bore)
    }

    /// What is given before a statement with this keyword.
    pub(crate) fn due(
        &self,
        alloc: Global,
        keyword: Keyword,
        statement: &Statement,
    ) -> Result<Option<Filling>, AllocError>
        requires { keyword ≡ keyword_of statement.now.word }
        ensures { IfOk result (λ filling. filling ≡ code.filling_due self.now statement.now) }
    {
        if keyword != Keyword::Endmes || statement.label.is_some() {
            return Ok(None);
        }
        if !statement.params.is_empty() || self.manual {
            return Ok(None);
        }
        self.filling(alloc)
    }

    /// Notes the feature of a statement with this keyword.
    fn follow_feature(
        &mut self,
        alloc: Global,
        keyword: Keyword,
        statement: &Statement,
    ) -> Result<(), AllocError>
        requires { keyword ≡ keyword_of statement.now.word }
        ensures { OnOk result (self.new ≡ record self.old {
          features = code.features_after self.old.features statement.now;
        }) }
    {
        if ends_nominals(keyword, statement) {
            self.features = Vec::new(alloc);
            return Ok(());
        }
        if let Some(name) = feature_name(alloc, &statement.label)? {
            let bore = if is_text(&statement.word, "FEAT") {
                bore_of(alloc, &statement.params)
            } else {
                None
            };
            self.features.push(Feature { name, bore })?;
        }
        Ok(())
    }

    /// After a statement with this keyword.
    pub(crate) fn follow(
        &mut self,
        alloc: Global,
        keyword: Keyword,
        statement: &Statement,
    ) -> Result<(), AllocError>
        requires { keyword ≡ keyword_of statement.now.word }
        ensures { OnOk result (self.new ≡ code.seen_after self.old statement.now) }
    {
        match keyword {
            Keyword::Meas => self.waiting = begun(alloc, statement)?,
            Keyword::Ptmeas | Keyword::Endmes => self.waiting = None,
            _ => {}
        }
        self.manual = manual_after(self.manual, keyword, statement);
        self.follow_feature(alloc, keyword, statement)
    }
}
