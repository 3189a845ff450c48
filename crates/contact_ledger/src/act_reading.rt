// Reading the line of an act.

ghost use Rattle.std.specs.Prelude.{◌≡◌, ◌∷◌, [], codes, IfOk};
ghost use Rattle.contact_ledger.specs.Names.{Finds, fields_behind, IsWrittenAct, IsEntry, act_fields, act_line};

use crate::acts::Act;
use crate::forms::{Forms, read_name, read_number};
use crate::lines::{first_field, next_field};
use crate::server_ledger::CONNECTION_MAX;
use std::alloc::{AllocError, Global};

/// The answer about home, after its word.
fn read_homed_is(rest: &[u8]) -> Option<Act>
    ensures { Finds result (λ a. IsWrittenAct a
        × (codes "HOMEDIS" ∷ fields_behind rest.now ≡ act_fields a)) }
{
    let (field, rest) = next_field(rest)?;
    let None = next_field(rest) else {
        return None;
    };
    match field {
        [b'0'] => Some(Act::HomedIs(false)),
        [b'1'] => Some(Act::HomedIs(true)),
        _ => None,
    }
}

/// That the machine is at home, where nothing follows the word.
fn read_homed(rest: &[u8]) -> Option<Act>
    ensures { Finds result (λ a. IsWrittenAct a
        × (codes "HOMED" ∷ fields_behind rest.now ≡ act_fields a)) }
{
    match next_field(rest) {
        None => Some(Act::Homed),
        Some(_) => None,
    }
}

/// A target and its frame, after their word.
fn read_moved(forms: &mut Forms, rest: &[u8]) -> Option<Act>
    ensures { Finds result (λ a. IsWrittenAct a
        × (codes "MOVED" ∷ fields_behind rest.now ≡ act_fields a)) }
{
    let Some((target, rest)) = forms.point(rest) else {
        return None;
    };
    let Some((frame, rest)) = forms.frame(rest) else {
        return None;
    };
    let None = next_field(rest) else {
        return None;
    };
    Some(Act::Moved(target, frame))
}

/// A tool, after its word. Fails only if out of memory.
fn read_changed(alloc: Global, rest: &[u8]) -> Result<Option<Act>, AllocError>
    ensures { IfOk result (λ found. Finds found (λ a. IsWrittenAct a
        × (codes "CHANGED" ∷ fields_behind rest.now ≡ act_fields a))) }
{
    let Some((tool, rest)) = next_field(rest) else {
        return Ok(None);
    };
    let None = next_field(rest) else {
        return Ok(None);
    };
    let Some(tool) = read_name(alloc, tool)? else {
        return Ok(None);
    };
    Ok(Some(Act::Changed(tool)))
}

/// A frame, after its word.
fn read_framed(forms: &mut Forms, rest: &[u8]) -> Option<Act>
    ensures { Finds result (λ a. IsWrittenAct a
        × (codes "FRAMED" ∷ fields_behind rest.now ≡ act_fields a)) }
{
    let Some((frame, rest)) = forms.frame(rest) else {
        return None;
    };
    let None = next_field(rest) else {
        return None;
    };
    Some(Act::Framed(frame))
}

/// A contact, after its word. Fails only if out of memory.
fn read_contact(alloc: Global, forms: &mut Forms, rest: &[u8]) -> Result<Option<Act>, AllocError>
    ensures { IfOk result (λ found. Finds found (λ a. IsWrittenAct a
        × (codes "CONTACT" ∷ fields_behind rest.now ≡ act_fields a))) }
{
    let Some((target, rest)) = forms.point(rest) else {
        return Ok(None);
    };
    let Some((dir, rest)) = forms.direction(rest) else {
        return Ok(None);
    };
    let Some((tool, rest)) = next_field(rest) else {
        return Ok(None);
    };
    let Some((frame, rest)) = forms.frame(rest) else {
        return Ok(None);
    };
    let Some((point, rest)) = forms.point(rest) else {
        return Ok(None);
    };
    let None = next_field(rest) else {
        return Ok(None);
    };
    let Some(tool) = read_name(alloc, tool)? else {
        return Ok(None);
    };
    Ok(Some(Act::Contact {
        target,
        dir,
        tool,
        frame,
        point,
    }))
}

/// The act that the fields after a connection's number are. Fails only if out of memory.
fn read_act(alloc: Global, forms: &mut Forms, rest: &[u8]) -> Result<Option<Act>, AllocError>
    ensures { IfOk result (λ found. Finds found (λ a. IsWrittenAct a
        × (fields_behind rest.now ≡ act_fields a))) }
{
    let Some((word, rest)) = next_field(rest) else {
        return Ok(None);
    };
    if word == b"HOMEDIS".as_slice() {
        Ok(read_homed_is(rest))
    } else if word == b"HOMED".as_slice() {
        Ok(read_homed(rest))
    } else if word == b"MOVED".as_slice() {
        Ok(read_moved(forms, rest))
    } else if word == b"CHANGED".as_slice() {
        read_changed(alloc, rest)
    } else if word == b"FRAMED".as_slice() {
        Ok(read_framed(forms, rest))
    } else if word == b"CONTACT".as_slice() {
        read_contact(alloc, forms, rest)
    } else {
        Ok(None)
    }
}

/// The act that a line is, and the number of its connection. Fails only if out of memory.
pub fn read_entry(
    alloc: Global,
    forms: &mut Forms,
    line: &[u8],
) -> Result<Option<(u64, Act)>, AllocError>
    ensures { IfOk result (λ found. Finds found (λ e. IsEntry e × (line.now ≡ act_line e))) }
{
    let (connection, rest) = first_field(line);
    let Some(connection) = read_number(connection, CONNECTION_MAX) else {
        return Ok(None);
    };
    let Some(act) = read_act(alloc, forms, rest)? else {
        return Ok(None);
    };
    Ok(Some((connection, act)))
}
