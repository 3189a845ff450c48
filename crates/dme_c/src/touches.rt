// Which touch of which feature a touch of a connection is, for C.

ghost use Rattle.std.specs.Prelude.{◌≡◌, ◌≢◌, ◌⊎◌, IfOk, IsSome, IfSome};
ghost use Rattle.dme_c.specs.Touches.{IsTouchOf, touch_counts};

use crate::handles::ClientHandle;
use dmis_program::Wanted;
use session_telling::place_of;
use std::alloc::{AllocError, Global};

/// The number of an answer, and which touch of which feature of the program a touch is, both from 1; zeros if there is no such touch.
#[repr(C)]
#[derive(Drop)]
pub struct TouchPlace {
    pub number: u32,
    pub feature: usize,
    pub touch: usize,
}

fn touch_counts(alloc: Global, wanted: &[Wanted]) -> Result<Vec<usize>, AllocError>
    ensures { IfOk result (λ counts. counts.items ≡ touch_counts wanted.now) }
{
    let mut counts = Vec::new(alloc);
    for feature in wanted {
        counts.push(feature.touches.as_slice().len())?;
    }
    Ok(counts)
}

/// The place of the touch of this number, from 1, among those of the features from `first` on.
fn placed(
    alloc: Global,
    wanted: &[Wanted],
    first: usize,
    number: usize,
) -> Result<(usize, usize), AllocError>
    ensures { IfOk result (λ place. IsTouchOf wanted.now first number place.0 place.1) }
{
    let before = first.saturating_sub(1).min(wanted.len());
    let (_, rest) = wanted.split_at(before);
    let counts = touch_counts(alloc, rest)?;
    match place_of(counts.as_slice(), number) {
        Some((at, touch)) => Ok((before + at + 1, touch)),
        None => Ok((0, 0)),
    }
}

/// Says which touch of which feature the touch of this number, from 1, is, among those of the features from the one of the number `first` on.
/// Nothing changes.
#[unsafe(no_mangle)]
pub extern "C" fn dme_client_touch(
    client: &mut ClientHandle,
    alloc: Global,
    first: usize,
    number: usize,
) -> TouchPlace
    requires { IsSome client.old.held }
    ensures same { client.new.held ≡ client.old.held }
    ensures place { result.number ≡ 0 → IfSome client.old.held (λ e.
        IsTouchOf e.client.program.features first number result.feature result.touch) }
    ensures memory { result.number ≢ 0 → (result.feature ≡ 0) × (result.touch ≡ 0) }
    ensures number { (result.number ≡ 0) ⊎ (result.number ≡ 3) }
{
    let core = client.take(alloc);
    let found = placed(alloc, core.program().features(), first, number);
    client.put(core);
    match found {
        Ok((feature, touch)) => TouchPlace {
            number: 0,
            feature,
            touch,
        },
        Err(AllocError) => TouchPlace {
            number: 3,
            feature: 0,
            touch: 0,
        },
    }
}
