// Writing the head of a record.

ghost use Rattle.std.specs.Prelude.{◌≡◌, ◌++◌, ◌∷◌, [], map, length, OnOk, option_map};
ghost use Rattle.record_text.specs.Names.{AllByRecursion, Writes, IsName, text_of, spaced, IsPointCount, IsFeature, IsAskedTouch, IsAsked, AreAsked, part_lines, touch_fields, touch_line, feature_line, wanted_lines, asked_lines, head_lines, Second};

use contact_ledger::fields::{add_direction, add_frame, add_name, add_number, add_point};
use dmis_program::{Program, Touch, Wanted};
use fixed_um::Name;
use std::alloc::AllocError;

fn add_part(text: &mut Vec<u8>, part: Option<&[u8]>) -> Result<(), AllocError>
    ensures { OnOk result (text.new.items ≡ text.old.items
        ++ text_of (part_lines (option_map (λ p. p.now) part.entry))) }
{
    match part {
        None => Ok(()),
        Some(part) => {
            text.extend_from_slice(b"PART ")?;
            text.extend_from_slice(part)?;
            text.push(b'\n')?;
            Ok(())
        }
    }
}

#[tactic(auto, using(contact_ledger::proofs::EntryWrites::pieces))]
fn add_touch_fields(text: &mut Vec<u8>, touch: &Touch) -> Result<(), AllocError>
    ensures text { OnOk result (text.new.items
        ≡ text.old.items ++ spaced (touch_fields touch.now)) }
    ensures touch { OnOk result (IsAskedTouch touch.now) }
{
    add_point(text, touch.target)?;
    add_direction(text, touch.dir)?;
    add_name(text, &touch.tool)?;
    add_frame(text, touch.frame)
}

fn add_touch(text: &mut Vec<u8>, touch: &Touch) -> Result<(), AllocError>
    ensures text { OnOk result (text.new.items
        ≡ text.old.items ++ text_of (touch_line touch.now ∷ [])) }
    ensures touch { OnOk result (IsAskedTouch touch.now) }
{
    text.extend_from_slice(b"TOUCH")?;
    add_touch_fields(text, touch)?;
    text.push(b'\n')?;
    Ok(())
}

fn add_touches(text: &mut Vec<u8>, touches: &[Touch]) -> Result<(), AllocError>
    ensures text { OnOk result (text.new.items
        ≡ text.old.items ++ text_of (map touch_line touches.now)) }
    ensures touches { OnOk result (AllByRecursion IsAskedTouch touches.now) }
{
    for touch in touches {
        add_touch(text, touch)?;
    }
    Ok(())
}

fn add_feature_line(text: &mut Vec<u8>, label: &Name, count: u64) -> Result<(), AllocError>
    ensures text { OnOk result (text.new.items
        ≡ text.old.items ++ text_of (feature_line label.now count ∷ [])) }
    ensures label { OnOk result (IsName label.now) }
{
    text.extend_from_slice(b"FEATURE")?;
    add_name(text, label)?;
    add_number(text, count)?;
    text.push(b'\n')?;
    Ok(())
}

fn add_wanted(text: &mut Vec<u8>, wanted: &Wanted) -> Result<(), AllocError>
    ensures text { OnOk result (text.new.items
        ≡ text.old.items ++ text_of (wanted_lines wanted.now)) }
    ensures asked { OnOk result (IsPointCount (length wanted.now.touches) → IsAsked wanted.now) }
{
    add_feature_line(text, &wanted.label, wanted.touches.as_slice().len() as u64)?;
    add_touches(text, wanted.touches.as_slice())
}

fn add_asked(text: &mut Vec<u8>, wanted: &[Wanted]) -> Result<(), AllocError>
    ensures text { OnOk result (text.new.items
        ≡ text.old.items ++ text_of (asked_lines wanted.now)) }
    ensures asked { OnOk result (AllByRecursion IsFeature wanted.now → AreAsked wanted.now) }
{
    for feature in wanted {
        add_wanted(text, feature)?;
    }
    Ok(())
}

/// Appends the head of a record (this profile): `DME-RECORD 2`; `PART` and its name, if one is given; for each wanted feature of the
/// program `FEATURE label n`, and its touches in the form of a contact of a contacts file, without a point; `END`.
///
/// The caller must ensure that the name is one (`is_part`). Fails only if out of memory, and then nothing is appended.
pub fn write_head(
    out: &mut Vec<u8>,
    part: Option<&[u8]>,
    program: &Program,
) -> Result<(), AllocError>
    ensures writes { Writes result out.old out.new
        (text_of (head_lines Second (option_map (λ p. p.now) part.entry) program.now.features)) }
    ensures asked { OnOk result (AreAsked program.now.features) }
{
    let mut text = Vec::new(*out.allocator());
    text.extend_from_slice(b"DME-RECORD 2\n")?;
    add_part(&mut text, part)?;
    add_asked(&mut text, program.features())?;
    text.extend_from_slice(b"END\n")?;
    out.extend_from_slice(text.as_slice())
}
