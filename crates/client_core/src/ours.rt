// Whose features a client may keep (this profile).

ghost use Rattle.std.specs.Prelude.{◌≡◌};
ghost use Rattle.client_core.specs.Clients.{is_ours, are_ours};

use contact_ledger::Feature;
use dmis_program::Wanted;

fn is_ours(wanted: &Wanted, feature: &Feature) -> bool
    ensures { result ≡ is_ours wanted.now feature.now }
{
    feature.label.as_bytes() == wanted.label.as_bytes()
        && feature.points.len() == wanted.touches.as_slice().len()
}

/// Whether features are the first of the wanted ones, by labels and counts.
pub(crate) fn are_ours(wanted: &[Wanted], features: &[Feature]) -> bool
    ensures { result ≡ are_ours wanted.now features.now }
{
    let mut wanted = wanted;
    let mut features = features;
    while let [feature, later @ ..] = features {
        let [first, others @ ..] = wanted else {
            return false;
        };
        if !is_ours(first, feature) {
            return false;
        }
        wanted = others;
        features = later;
    }
    true
}
