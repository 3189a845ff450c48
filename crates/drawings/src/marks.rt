// What labels name.

ghost use Rattle.std.specs.Prelude.{◌≡◌, ◌<◌, length, IfOk};
ghost use Rattle.drawings.specs.Named.{touch_place, farther, farthest, farthest_of, AreMarks};

use crate::away::Along;
use crate::peaks::peak_of;
use crate::places::Place;
use crate::walk::{after_first, next_points, zero_of};
use contact_ledger::Feature;
use dmis_program::{Program, Touch, Wanted};
use std::alloc::{AllocError, Global};

/// A feature: its touch that is farthest to the right, whether its first touch was measured, and the greatest deviation along a normal.
#[derive(Clone, Copy)]
pub(crate) struct Mark {
    pub place: Place,
    pub is_measured: bool,
    pub peak: Option<Along>,
}

fn touch_place(touch: &Touch) -> Place
    ensures { result ≡ touch_place touch.now }
{
    Place::of(touch.target, zero_of(touch.frame))
}

/// The one of two places that is farther to the right; the earlier one if both are equally far.
fn farther(first: Place, later: Place) -> Place
    ensures { result ≡ farther first later }
{
    if first.x.get() < later.x.get() {
        later
    } else {
        first
    }
}

fn farthest(first: Place, touches: &[Touch]) -> Place
    ensures { result ≡ farthest first touches.now }
{
    let mut place = first;
    for touch in touches {
        place = farther(place, touch_place(touch));
    }
    place
}

fn farthest_of(touches: &[Touch]) -> Place
    requires { 0 < length touches.now }
    ensures { result ≡ farthest_of touches.now }
{
    match touches {
        [first, others @ ..] => farthest(touch_place(first), others),
        [] => unreachable!(),
    }
}

/// The mark of each feature of a program, paired with the features that were measured first.
pub(crate) fn marks_of(
    alloc: Global,
    program: &Program,
    features: &[Feature],
) -> Result<Vec<Mark>, AllocError>
    ensures { IfOk result (λ marks. AreMarks program.now.features features.now marks.items) }
{
    let mut marks = Vec::new(alloc);
    let mut wanted = program.features();
    let mut measured = features;
    while let [feature, later @ ..] = wanted {
        let place = farthest_of(feature.touches.as_slice());
        let is_measured = !next_points(measured).is_empty();
        let peak = peak_of(feature.touches.as_slice(), next_points(measured));
        marks.push(Mark {
            place,
            is_measured,
            peak,
        })?;
        wanted = later;
        measured = after_first(measured);
    }
    Ok(marks)
}
