// The rows of a table of deviations.

ghost use Rattle.std.specs.Prelude.{◌≡◌, ◌≤◌, ◌+◌, ◌^◌, ◌++◌, length, true, false, IfOk, IfErr, IfSome, OnOk, unsigned_abs};
ghost use Rattle.deviations.specs.Names.{AllByRecursion, AllZip, is_ours, are_ours, HaveOrigins, IsFeature, IsTouch, NotOurs, IsDeviation, connection_of, places_from, feature_places, open_places, missing_places, places_of, IsAlongNormal, IsAway, IsRow};
ghost use Rattle.fixed_um.specs.Points.{IsInVolume};

use crate::along::{Deviation, along_normal};
use crate::faults::RowsFault;
use contact_ledger::{Feature, Origin};
use dmis_program::{Program, Touch, Wanted};
use fixed_um::{Dir, Frame, Name, Point};
use std::alloc::{AllocError, Global};
use std::marker::Model;

/// A touch and the point that was measured, if it was.
#[derive(Drop)]
pub struct Place<'a> {
    feature: &'a Name,
    number: u64,
    touch: &'a Touch,
    measured: Option<Point>,
    connection: Option<u64>,
}

impl<'a> Model for Place<'a> {
    ghost use Rattle.deviations.specs.Rows.{Place};
    ghost use Rattle.fixed_um.specs.Points.{IsInVolume};

    ghost Value = { Place };

    ghost view = { λ p. record {
      feature = p.feature.now;
      number = p.number;
      touch = p.touch.now;
      measured = p.measured;
      connection = p.connection;
    } };

    ghost invariant = { λ p. IsInVolume p.touch.now.target };
}

/// A row of a table of deviations (this profile): a touch, the point that was measured, and how far it lies from the target; of a feature
/// that is missing the touch alone.
#[derive(Drop)]
pub struct Row<'a> {
    place: Place<'a>,
    deviation: Option<Deviation>,
    along: Option<i128>,
}

impl<'a> Model for Row<'a> {
    ghost use Rattle.deviations.specs.Rows.{Row};
    ghost use Rattle.std.specs.Prelude.{◌≤◌, ◌^◌, IfSome, unsigned_abs};

    ghost Value = { Row };

    ghost view = { λ r. record { place = r.place; deviation = r.deviation; along = r.along } };

    ghost invariant = { λ r. IfSome r.along (λ along. unsigned_abs along ≤ 2 ^ 64) };
}

fn is_ours(wanted: &Wanted, feature: &Feature) -> bool
    ensures { result ≡ is_ours wanted.now feature.now }
{
    feature.label.as_bytes() == wanted.label.as_bytes()
        && feature.points.len() == wanted.touches.as_slice().len()
}

fn connection_of(origin: Option<Origin>) -> Option<u64>
    ensures { result ≡ connection_of origin }
{
    match origin {
        Some(origin) => Some(origin.connection),
        None => None,
    }
}

fn push_places<'a>(
    places: &mut Vec<Place<'a>>,
    wanted: &'a Wanted,
    feature: &'a Feature,
) -> Result<(), AllocError>
    requires { IsFeature wanted.now }
    ensures { OnOk result (places.new.items ≡ places.old.items
        ++ feature_places wanted.now feature.now) }
{
    let connection = connection_of(feature.origin);
    let mut touches = wanted.touches.as_slice();
    let mut points = feature.points.as_slice();
    let mut number = 1;
    while let [point, other_points @ ..] = points {
        let [touch, other_touches @ ..] = touches else {
            return Ok(());
        };
        places.push(Place {
            feature: &feature.label,
            number,
            touch,
            measured: Some(*point),
            connection,
        })?;
        number += 1;
        touches = other_touches;
        points = other_points;
    }
    Ok(())
}

/// Adds the places of the touches of a feature that is missing.
fn push_open<'a>(places: &mut Vec<Place<'a>>, wanted: &'a Wanted) -> Result<(), AllocError>
    requires { IsFeature wanted.now }
    ensures { OnOk result (places.new.items ≡ places.old.items
        ++ open_places wanted.now.label 1 wanted.now.touches) }
{
    let mut touches = wanted.touches.as_slice();
    let mut number: u64 = 1;
    while let [touch, others @ ..] = touches {
        places.push(Place {
            feature: &wanted.label,
            number,
            touch,
            measured: None,
            connection: None,
        })?;
        number += 1;
        touches = others;
    }
    Ok(())
}

/// Likewise, of features.
fn push_missing<'a>(places: &mut Vec<Place<'a>>, wanted: &'a [Wanted]) -> Result<(), AllocError>
    requires { AllByRecursion IsFeature wanted.now }
    ensures { OnOk result (places.new.items ≡ places.old.items ++ missing_places wanted.now) }
{
    let mut wanted = wanted;
    while let [first, others @ ..] = wanted {
        push_open(places, first)?;
        wanted = others;
    }
    Ok(())
}

fn places_of<'a>(
    alloc: Global,
    wanted: &'a [Wanted],
    features: &'a [Feature],
) -> Result<Vec<Place<'a>>, RowsFault>
    requires { AllByRecursion IsFeature wanted.now }
    ensures places { IfOk result (λ places. places.items ≡ places_of wanted.now features.now) }
    ensures ours { OnOk result (are_ours wanted.now features.now ≡ true) }
    ensures not_ours { IfErr result (λ fault. fault ≡ NotOurs
        → are_ours wanted.now features.now ≡ false) }
{
    let mut places = Vec::new(alloc);
    let mut wanted = wanted;
    let mut features = features;
    while let [feature, later @ ..] = features {
        let [first, others @ ..] = wanted else {
            return Err(RowsFault::NotOurs);
        };
        if !is_ours(first, feature) {
            return Err(RowsFault::NotOurs);
        }
        push_places(&mut places, first, feature)?;
        wanted = others;
        features = later;
    }
    push_missing(&mut places, wanted)?;
    Ok(places)
}

fn along_of(deviation: Deviation, normal: Option<Dir>) -> Option<i128>
    requires { IsDeviation deviation }
    ensures along { IsAlongNormal deviation normal result }
    ensures within { IfSome result (λ along. unsigned_abs along ≤ 2 ^ 64) }
{
    match normal {
        Some(direction) => Some(along_normal(deviation, direction)),
        None => None,
    }
}

/// How far a point was measured from the target of a touch, and along its normal.
fn away_of(measured: Option<Point>, touch: &Touch) -> (Option<Deviation>, Option<i128>)
    requires { IsInVolume touch.now.target }
    ensures away { IsAway measured touch.now result.0 result.1 }
    ensures within { IfSome result.1 (λ along. unsigned_abs along ≤ 2 ^ 64) }
{
    match measured {
        Some(point) => {
            let deviation = Deviation::of(point, touch.target);
            (Some(deviation), along_of(deviation, touch.dir))
        }
        None => (None, None),
    }
}

impl<'a> Row<'a> {
    /// The label of the feature.
    pub fn feature(&self) -> &Name
        ensures { result.now ≡ self.now.place.feature }
    {
        self.place.feature
    }

    /// The number of the point in its feature, from 1.
    pub fn number(&self) -> u64
        ensures { result ≡ self.now.place.number }
    {
        self.place.number
    }

    /// Where the program asks for a touch, in the axes of the frame.
    pub fn nominal(&self) -> Point
        ensures { result ≡ self.now.place.touch.target }
    {
        self.place.touch.target
    }

    /// The outward normal of the surface there, if the program gives one.
    pub fn normal(&self) -> Option<Dir>
        ensures { result ≡ self.now.place.touch.dir }
    {
        self.place.touch.dir
    }

    /// Where the point was measured, in the axes of the frame; nothing if the feature is missing.
    pub fn measured(&self) -> Option<Point>
        ensures { result ≡ self.now.place.measured }
    {
        self.place.measured
    }

    /// The measured point less the nominal one, if it was measured.
    pub fn deviation(&self) -> Option<Deviation>
        ensures { result ≡ self.now.deviation }
    {
        self.deviation
    }

    /// The deviation along the normal in micrometres, if the point was measured and there is a normal.
    pub fn along(&self) -> Option<i128>
        ensures along { result ≡ self.now.along }
        ensures within { IfSome result (λ along. unsigned_abs along ≤ 2 ^ 64) }
    {
        self.along
    }

    /// The tool of the touch.
    pub fn tool(&self) -> &Name
        ensures { result.now ≡ self.now.place.touch.tool }
    {
        &self.place.touch.tool
    }

    /// The frame of the touch.
    pub fn frame(&self) -> Frame
        ensures { result ≡ self.now.place.touch.frame }
    {
        self.place.touch.frame
    }

    /// The number of the connection that the feature comes from, if known.
    pub fn connection(&self) -> Option<u64>
        ensures { result ≡ self.now.place.connection }
    {
        self.place.connection
    }

    fn of(place: Place<'a>) -> Row<'a>
        ensures { IsRow place.entry result }
    {
        let (deviation, along) = away_of(place.measured, place.touch);
        Row {
            place,
            deviation,
            along,
        }
    }
}

/// The table of deviations of features, which are the first ones of a program: a row for each touch of the program, in the order of its
/// features and of their touches; one of a feature that is missing has no measured point. `NotOurs` if the labels of the features or their
/// counts of points are not those of the program.
#[tactic(auto, using(crate::proofs::Tables::zip_push))]
pub fn rows_of<'a>(
    alloc: Global,
    program: &'a Program,
    features: &'a [Feature],
) -> Result<Vec<Row<'a>>, RowsFault>
    ensures rows { IfOk result (λ rows. AllZip IsRow
        (places_of program.now.features features.now) rows.items) }
    ensures ours { OnOk result (are_ours program.now.features features.now ≡ true) }
    ensures not_ours { IfErr result (λ fault. fault ≡ NotOurs
        → are_ours program.now.features features.now ≡ false) }
{
    let places = places_of(alloc, program.features(), features)?;
    let mut rows = Vec::with_capacity(alloc, places.len())?;
    for place in places {
        rows.push(Row::of(place))?;
    }
    Ok(rows)
}
