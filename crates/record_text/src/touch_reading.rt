// The lines of a wanted feature.

ghost use Rattle.std.specs.Prelude.{◌≡◌, ◌∷◌, [], codes, decimal, IfOk};
ghost use Rattle.record_text.specs.Names.{Finds, IsName, fields_behind, IsPointCount, IsAskedTouch, touch_fields, touch_line, feature_line};

use contact_ledger::forms::{Forms, read_name, read_number};
use contact_ledger::lines::{first_field, next_field};
use dmis_program::Touch;
use fixed_um::Name;
use std::alloc::{AllocError, Global};

/// The most touches that a feature has (this profile).
const TOUCHES_MAX: u64 = 10_000;

fn read_fields(alloc: Global, forms: &mut Forms, rest: &[u8]) -> Result<Option<Touch>, AllocError>
    ensures { IfOk result (λ found. Finds found (λ t. IsAskedTouch t
        × (fields_behind rest.now ≡ touch_fields t))) }
{
    let Some((target, rest)) = forms.point(rest) else {
        return Ok(None);
    };
    let Some((dir, rest)) = forms.direction(rest) else {
        return Ok(None);
    };
    let Some((tool, rest)) = next_field(rest) else {
        return Ok(None);
    };
    let Some((frame, rest)) = forms.frame(rest) else {
        return Ok(None);
    };
    let None = next_field(rest) else {
        return Ok(None);
    };
    let Some(tool) = read_name(alloc, tool)? else {
        return Ok(None);
    };
    Ok(Some(Touch {
        target,
        dir,
        tool,
        frame,
    }))
}

#[tactic(auto, using(crate::proofs::RecordFields::fields))]
pub(crate) fn read_touch(
    alloc: Global,
    forms: &mut Forms,
    line: &[u8],
) -> Result<Option<Touch>, AllocError>
    ensures { IfOk result (λ found. Finds found (λ t. IsAskedTouch t × (line.now ≡ touch_line t))) }
{
    let (word, rest) = first_field(line);
    if word != b"TOUCH".as_slice() {
        return Ok(None);
    }
    read_fields(alloc, forms, rest)
}

#[tactic(auto, using(crate::proofs::RecordFields::fields))]
pub(crate) fn read_opening(alloc: Global, line: &[u8]) -> Result<Option<(Name, u64)>, AllocError>
    ensures { IfOk result (λ found. Finds found (λ o. IsName o.0 × IsPointCount o.1
        × (line.now ≡ feature_line o.0 o.1))) }
{
    let (word, rest) = first_field(line);
    if word != b"FEATURE".as_slice() {
        return Ok(None);
    }
    let Some((label, rest)) = next_field(rest) else {
        return Ok(None);
    };
    let Some((count, rest)) = next_field(rest) else {
        return Ok(None);
    };
    let None = next_field(rest) else {
        return Ok(None);
    };
    let Some(count) = read_number(count, TOUCHES_MAX) else {
        return Ok(None);
    };
    let Some(label) = read_name(alloc, label)? else {
        return Ok(None);
    };
    Ok(Some((label, count)))
}
