// The places of a text of features, line by line.

ghost use Rattle.std.specs.Prelude.{◌≡◌, ◌≤◌, ◌++◌, ◌∷◌, [], ℕ, List, length, ◌<◌, OnOk, Ok, Err, IfOk};
ghost use Rattle.contact_ledger.specs.Names.{Finds, IsOnWire, IsFeature, point_line, IsSound, Next, Feature, Place, Start, Between, Within, Damaged};

use crate::faults::TextFault;
use crate::feature_ledger::FeatureLedger;
use crate::features::{Feature, Points};
use crate::forms::Forms;
use crate::openings::{Opening, Version, read_header, read_opening};
use std::alloc::Global;

/// Where a reader is between two lines.
#[derive(Drop)]
pub(crate) enum Place {
    /// Before the first line.
    Start,
    /// Where a feature may begin.
    Between(Version),
    /// Within a feature, after these of its points.
    Within(Version, Opening, Points),
}

fn behind_header(number: u64, line: &[u8]) -> Result<Place, TextFault>
    ensures next { (features : List Feature)
        → IfOk result (λ p. Next features Start line.now features p) }
    ensures sound { (features : List Feature) → IfOk result (IsSound features) }
    ensures damaged { (n : ℕ) → result ≡ Err (Damaged n) → (n ≡ number)
        × ((f g : List Feature) (p : Place) → Next f Start line.now g p → ⊥) }
{
    match read_header(line) {
        Some(version) => Ok(Place::Between(version)),
        None => Err(TextFault::Damaged(number)),
    }
}

fn behind_opening(
    alloc: Global,
    forms: &mut Forms,
    version: Version,
    number: u64,
    line: &[u8],
) -> Result<Place, TextFault>
    ensures next { (features : List Feature)
        → IfOk result (λ p. Next features (Between version) line.now features p) }
    ensures sound { (features : List Feature) → IfOk result (IsSound features) }
    ensures damaged { (n : ℕ) → result ≡ Err (Damaged n) → (n ≡ number)
        × ((f g : List Feature) (p : Place) → Next f (Between version) line.now g p → ⊥) }
{
    match read_opening(alloc, forms, version, line)? {
        Some(opening) => Ok(Place::Within(version, opening, Points::new(alloc))),
        None => Err(TextFault::Damaged(number)),
    }
}

fn behind_point(
    forms: &mut Forms,
    version: Version,
    opening: Opening,
    mut points: Points,
    number: u64,
    line: &[u8],
) -> Result<Place, TextFault>
    requires sound { (features : List Feature) → IsSound features (Within version opening points) }
    requires missing { length points < opening.count }
    ensures next { (features : List Feature) → IfOk result
        (λ p. Next features (Within version opening points) line.now features p) }
    ensures sound { (features : List Feature) → IfOk result (IsSound features) }
    ensures damaged { (n : ℕ) → result ≡ Err (Damaged n) → (n ≡ number)
        × ((f g : List Feature) (p : Place) → Next f (Within version opening points) line.now g p → ⊥) }
{
    match forms.point_line(line) {
        Some(point) => {
            points.push(point)?;
            Ok(Place::Within(version, opening, points))
        }
        None => Err(TextFault::Damaged(number)),
    }
}

/// Adds the feature that `END` completes.
fn behind_end(
    features: &mut FeatureLedger,
    version: Version,
    opening: Opening,
    points: Points,
    number: u64,
    line: &[u8],
) -> Result<Place, TextFault>
    requires sound { IsSound features.old (Within version opening points) }
    requires whole { length points ≡ opening.count }
    ensures next { IfOk result
        (λ p. Next features.old (Within version opening points) line.now features.new p) }
    ensures sound { IfOk result (IsSound features.new) }
    ensures damaged { (n : ℕ) → result ≡ Err (Damaged n) → (n ≡ number)
        × ((f g : List Feature) (p : Place) → Next f (Within version opening points) line.now g p → ⊥) }
{
    if line != b"END".as_slice() {
        return Err(TextFault::Damaged(number));
    }
    features.push(Feature {
        label: opening.label,
        points,
        origin: opening.origin,
    })?;
    Ok(Place::Between(version))
}

/// The place after the line of this number; a feature that it completes joins the others. An `Err` discards the text.
pub(crate) fn behind_line(
    alloc: Global,
    forms: &mut Forms,
    features: &mut FeatureLedger,
    place: Place,
    number: u64,
    line: &[u8],
) -> Result<Place, TextFault>
    requires sound { IsSound features.old place }
    ensures next { IfOk result (λ p. Next features.old place line.now features.new p) }
    ensures sound { IfOk result (IsSound features.new) }
    ensures damaged { (n : ℕ) → result ≡ Err (Damaged n) → (n ≡ number)
        × ((f g : List Feature) (p : Place) → Next f place line.now g p → ⊥) }
{
    match place {
        Place::Start => behind_header(number, line),
        Place::Between(version) => behind_opening(alloc, forms, version, number, line),
        Place::Within(version, opening, points) => {
            if (points.len() as u64) < opening.count {
                behind_point(forms, version, opening, points, number, line)
            } else {
                behind_end(features, version, opening, points, number, line)
            }
        }
    }
}
