// A program as stops of the machine.

ghost use Rattle.std.specs.Prelude.{◌≡◌, ◌++◌, ◌∷◌, [], drop, IfOk, OnOk};
ghost use Rattle.std.specs.List.{AllByRecursion};
ghost use Rattle.dmis_program.specs.Programs.{IsStep};
ghost use Rattle.fixed_um.specs.Points.{IsInVolume};
ghost use Rattle.drawings.specs.Names.{place_of, zero_of, zero_with, later_with, next_points, points_with, act_by, stops_at, stops_of, is_asked, touches_among, first_with_any};

use crate::away::Away;
use crate::places::Place;
use contact_ledger::Feature;
use dmis_program::{Step, Touch};
use fixed_um::{Frame, Point};
use std::alloc::{AllocError, Global};

/// What the machine does at a stop.
#[derive(Clone, Copy)]
pub(crate) enum Act {
    /// It only passes.
    Move,
    /// It must touch, and has not done so yet.
    Touch,
    /// It has touched, at this deviation.
    Measured(Away),
}

/// A stop of the machine.
#[derive(Clone, Copy)]
pub(crate) struct Stop {
    pub place: Place,
    pub act: Act,
}

/// What is carried from step to step: the stops so far, the zero point of the selected frame, the features of later blocks, and the points
/// left for touches.
#[derive(Drop)]
struct Walk<'a> {
    stops: Vec<Stop>,
    origin: Point,
    features: &'a [Feature],
    points: &'a [Point],
}

pub(crate) fn zero_of(frame: Frame) -> Point
    ensures { result ≡ zero_of frame }
{
    match frame {
        Frame::Machine => Point::zero(),
        Frame::Part(offset) => offset,
    }
}

pub(crate) fn next_points<'a>(features: &'a [Feature]) -> &'a [Point]
    ensures { result.now ≡ next_points features.now }
{
    match features {
        [feature, ..] => feature.points.as_slice(),
        [] => &[],
    }
}

pub(crate) fn after_first<'a, T>(items: &'a [T]) -> &'a [T]
    ensures { result.now ≡ drop 1 items.now }
{
    match items {
        [_, later @ ..] => later,
        [] => &[],
    }
}

/// What the next of the remaining points means for a touch: measured, with its deviation, or still open.
fn act_by(points: &[Point], touch: &Touch) -> Act
    requires { IsInVolume touch.now.target }
    ensures { result ≡ act_by points.now touch.now }
{
    match points {
        [point, ..] => Act::Measured(Away::of(*point, touch)),
        [] => Act::Touch,
    }
}

impl<'a> Walk<'a> {
    fn take(&mut self, step: &Step) -> Result<(), AllocError>
        requires { IsStep step.now }
        ensures origin { OnOk result (self.new.origin ≡ zero_with step.now self.old.origin) }
        ensures later { OnOk result (self.new.features.now
            ≡ later_with step.now self.old.features.now) }
        ensures points { OnOk result (self.new.points.now
            ≡ points_with step.now self.old.features.now self.old.points.now) }
        ensures stops { OnOk result (self.new.stops.items ≡ self.old.stops.items
            ++ stops_at self.old.origin self.old.points.now step.now) }
    {
        match step {
            Step::Goto(target) => self.stop(*target, Act::Move)?,
            Step::Begin(_) => {
                self.points = next_points(self.features);
                self.features = after_first(self.features);
            }
            Step::Touch(touch) => {
                let act = act_by(self.points, touch);
                self.origin = zero_of(touch.frame);
                self.points = after_first(self.points);
                self.stop(touch.target, act)?;
            }
            Step::Recall(offset) => self.origin = *offset,
            Step::End => self.points = &[],
            Step::Tool(_) => {}
        }
        Ok(())
    }

    fn stop(&mut self, target: Point, act: Act) -> Result<(), AllocError>
        ensures stops { OnOk result (self.new.stops.items ≡ self.old.stops.items
            ++ record { place = place_of target self.old.origin; act = act } ∷ []) }
        ensures origin { self.new.origin ≡ self.old.origin }
        ensures later { self.new.features.now ≡ self.old.features.now }
        ensures points { self.new.points.now ≡ self.old.points.now }
    {
        let place = Place::of(target, self.origin);
        self.stops.push(Stop { place, act })?;
        Ok(())
    }
}

/// The stops of the steps of a program, with the features measured first.
pub(crate) fn stops_of(
    alloc: Global,
    steps: &[Step],
    features: &[Feature],
) -> Result<Vec<Stop>, AllocError>
    requires { AllByRecursion IsStep steps.now }
    ensures { IfOk result (λ stops. stops.items ≡ stops_of steps.now features.now) }
{
    let mut walk = Walk {
        stops: Vec::new(alloc),
        origin: Point::zero(),
        features,
        points: &[],
    };
    for step in steps {
        walk.take(step)?;
    }
    let Walk { stops, .. } = walk;
    Ok(stops)
}

pub(crate) fn is_asked(stop: &Stop) -> bool
    ensures { result ≡ is_asked stop.now.act }
{
    matches!(stop.act, Act::Measured(_) | Act::Touch)
}

/// The stops that are touches.
pub(crate) fn touches_among(alloc: Global, stops: &[Stop]) -> Result<Vec<Stop>, AllocError>
    ensures { IfOk result (λ touches. touches.items ≡ touches_among stops.now) }
{
    let mut touches = Vec::new(alloc);
    for stop in stops {
        if is_asked(stop) {
            touches.push(*stop)?;
        }
    }
    Ok(touches)
}

/// The touches; all stops if there is no touch.
pub(crate) fn first_with_any<'a>(touches: &'a [Stop], stops: &'a [Stop]) -> &'a [Stop]
    ensures { result.now ≡ first_with_any touches.now stops.now }
{
    match touches {
        [_, ..] => touches,
        [] => stops,
    }
}
