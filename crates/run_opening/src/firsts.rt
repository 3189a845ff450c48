// Features that a record gives back.

ghost use Rattle.std.specs.Prelude.{◌≡◌, ◌↔◌, IsTrue};
ghost use Rattle.run_opening.specs.Openings as spec;

use contact_ledger::Feature;

/// Whether a feature has the label and the points of another.
fn is_alike(one: &Feature, other: &Feature) -> bool
    ensures { IsTrue result ↔ spec.IsAlike one.now other.now }
{
    one.label.as_bytes() == other.label.as_bytes()
        && one.points.as_slice() == other.points.as_slice()
}

/// Whether the features of a file are the first of those that a record gives back.
pub(crate) fn are_first(features: &[Feature], recorded: &[Feature]) -> bool
    ensures { IsTrue result ↔ spec.AreFirstFeatures features.now recorded.now }
{
    let mut features = features;
    let mut recorded = recorded;
    while let [feature, later @ ..] = features {
        let [first, others @ ..] = recorded else {
            return false;
        };
        if !is_alike(feature, first) {
            return false;
        }
        features = later;
        recorded = others;
    }
    true
}
