// What the opening line of a feature says.

ghost use Rattle.std.specs.Prelude.{◌≡◌, IfOk};
ghost use Rattle.contact_ledger.specs.Names.{Finds, IsOpening, header, opening_line};

use crate::features::Origin;
use crate::forms::{Forms, read_name, read_number};
use crate::lines::{first_field, next_field};
use fixed_um::Name;
use std::alloc::{AllocError, Global};

/// The versions of the text of features (this profile). The first knows no origins.
#[derive(Clone, Copy)]
pub(crate) enum Version {
    First,
    Second,
}

/// What the opening line of a feature says: its label, how many points follow, and its origin.
#[derive(Drop)]
pub(crate) struct Opening {
    pub(crate) label: Name,
    pub(crate) count: u64,
    pub(crate) origin: Option<Origin>,
}

/// The most points that a feature has in a text (this profile).
const POINTS_MAX: u64 = 10_000;

pub(crate) fn read_header(line: &[u8]) -> Option<Version>
    ensures { Finds result (λ version. line.now ≡ header version) }
{
    if line == b"DME-FEATURES 1".as_slice() {
        Some(Version::First)
    } else if line == b"DME-FEATURES 2".as_slice() {
        Some(Version::Second)
    } else {
        None
    }
}

/// What an opening line says. Fails only if out of memory.
#[tactic(auto, using(crate::proofs::OpeningLines::openings))]
pub(crate) fn read_opening(
    alloc: Global,
    forms: &mut Forms,
    version: Version,
    line: &[u8],
) -> Result<Option<Opening>, AllocError>
    ensures { IfOk result (λ found. Finds found
        (λ o. IsOpening version o × (line.now ≡ opening_line version o))) }
{
    let (word, rest) = first_field(line);
    if word != b"FEATURE".as_slice() {
        return Ok(None);
    }
    let Some((label, rest)) = next_field(rest) else {
        return Ok(None);
    };
    let Some((count, rest)) = next_field(rest) else {
        return Ok(None);
    };
    let Some(count) = read_number(count, POINTS_MAX) else {
        return Ok(None);
    };
    let Some(origin) = forms.origin(version, rest) else {
        return Ok(None);
    };
    let Some(label) = read_name(alloc, label)? else {
        return Ok(None);
    };
    Ok(Some(Opening {
        label,
        count,
        origin,
    }))
}
