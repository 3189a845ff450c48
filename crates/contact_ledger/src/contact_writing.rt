// Writing the acts of a server.

ghost use Rattle.std.specs.Prelude.{◌≡◌, ◌++◌, ◌∷◌, [], map, codes, OnOk};
ghost use Rattle.contact_ledger.specs.Names.{AllByRecursion, Writes, IsName, text_of, spaced, IsOnWire, IsFrame, IsTouch, point_fields, frame_fields, direction_fields, IsConnection, IsWrittenAct, IsEntry, AreEntries, homed_field, act_fields, act_line, contacts_text};

use crate::acts::Act;
use crate::fields::{add_direction, add_frame, add_name, add_point};
use crate::server_ledger::ServerLedger;
use fixed_um::{Dir, Frame, Name, Point};
use itoa::Buffer;
use std::alloc::AllocError;

fn add_homed_is(text: &mut Vec<u8>, homed: bool) -> Result<(), AllocError>
    ensures { OnOk result (text.new.items
        ≡ text.old.items ++ spaced (codes "HOMEDIS" ∷ homed_field homed ∷ [])) }
{
    if homed {
        text.extend_from_slice(b" HOMEDIS 1")
    } else {
        text.extend_from_slice(b" HOMEDIS 0")
    }
}

#[tactic(auto, using(crate::proofs::EntryWrites::pieces))]
fn add_moved(text: &mut Vec<u8>, target: Point, frame: Frame) -> Result<(), AllocError>
    ensures text { OnOk result (text.new.items
        ≡ text.old.items ++ spaced (codes "MOVED" ∷ (point_fields target ++ frame_fields frame))) }
    ensures values { OnOk result (IsOnWire target × IsFrame frame) }
{
    text.extend_from_slice(b" MOVED")?;
    add_point(text, target)?;
    add_frame(text, frame)
}

#[tactic(auto, using(crate::proofs::EntryWrites::pieces))]
fn add_contact(
    text: &mut Vec<u8>,
    target: Point,
    dir: Option<Dir>,
    tool: &Name,
    frame: Frame,
    point: Point,
) -> Result<(), AllocError>
    ensures text { OnOk result (text.new.items ≡ text.old.items ++ spaced (codes "CONTACT"
        ∷ (point_fields target ++ (direction_fields dir ++ (tool.now
        ∷ (frame_fields frame ++ point_fields point)))))) }
    ensures values { OnOk result (IsOnWire target × IsTouch dir × IsName tool.now × IsFrame frame
        × IsOnWire point) }
{
    text.extend_from_slice(b" CONTACT")?;
    add_point(text, target)?;
    add_direction(text, dir)?;
    add_name(text, tool)?;
    add_frame(text, frame)?;
    add_point(text, point)
}

#[tactic(auto, using(crate::proofs::EntryWrites::pieces))]
fn add_act(text: &mut Vec<u8>, act: &Act) -> Result<(), AllocError>
    ensures text { OnOk result (text.new.items ≡ text.old.items ++ spaced (act_fields act.now)) }
    ensures act { OnOk result (IsWrittenAct act.now) }
{
    match act {
        Act::HomedIs(homed) => add_homed_is(text, *homed),
        Act::Homed => text.extend_from_slice(b" HOMED"),
        Act::Moved(target, frame) => add_moved(text, *target, *frame),
        Act::Changed(tool) => {
            text.extend_from_slice(b" CHANGED")?;
            add_name(text, tool)
        }
        Act::Framed(frame) => {
            text.extend_from_slice(b" FRAMED")?;
            add_frame(text, *frame)
        }
        Act::Contact {
            target,
            dir,
            tool,
            frame,
            point,
        } => add_contact(text, *target, *dir, tool, *frame, *point),
    }
}

/// Adds the line of an act and its LF. Fails only if out of memory, and then a prefix of the line may be added.
pub fn add_entry(text: &mut Vec<u8>, connection: u64, act: &Act) -> Result<(), AllocError>
    ensures text { OnOk result (text.new.items
        ≡ text.old.items ++ text_of (act_line (connection, act.now) ∷ [])) }
    ensures act { OnOk result (IsWrittenAct act.now) }
{
    let mut buffer = Buffer::new();
    text.extend_from_slice(buffer.format(connection).as_bytes())?;
    add_act(text, act)?;
    text.push(b'\n')?;
    Ok(())
}

fn add_entries(text: &mut Vec<u8>, entries: &[(u64, Act)]) -> Result<(), AllocError>
    ensures text { OnOk result (text.new.items
        ≡ text.old.items ++ text_of (map act_line entries.now)) }
    ensures acts { OnOk result (AllByRecursion (λ entry. IsWrittenAct entry.1) entries.now) }
{
    for entry in entries {
        let (connection, act) = entry;
        add_entry(text, *connection, act)?;
    }
    Ok(())
}

/// Appends the text of a server's acts (this profile): `DME-CONTACTS 1`, and for each act in order a line with the number of its
/// connection, its word, and what it says, with points in millimetres.
///
/// Fails only if out of memory, and then nothing is appended.
pub fn write_contacts(out: &mut Vec<u8>, ledger: &ServerLedger) -> Result<(), AllocError>
    ensures writes { Writes result out.old out.new (contacts_text ledger.now) }
    ensures entries { OnOk result (AreEntries ledger.now) }
{
    let mut text = Vec::new(*out.allocator());
    text.extend_from_slice(b"DME-CONTACTS 1\n")?;
    add_entries(&mut text, ledger.acts())?;
    out.extend_from_slice(text.as_slice())
}
