// What a line of a text says that was reported.

ghost use Rattle.std.specs.Prelude.{◌≡◌, ◌∷◌, [], codes, IfOk};
ghost use Rattle.witness.specs.ToldNames.{Finds, fields_behind, told_line, IsOtherTold, told_parts, IsToldEntry};

use crate::told_fields::{read_frame, read_line_text, read_rule, read_tag, read_tool};
use crate::{Reported, Side};
use contact_ledger::forms::{Forms, read_number};
use contact_ledger::lines::{first_field, next_field};
use contact_ledger::{CONNECTION_MAX, read_entry};
use std::alloc::{AllocError, Global};

fn read_moved(forms: &mut Forms, rest: &[u8]) -> Option<Reported>
    ensures { Finds result (λ t. IsOtherTold t
        × (codes "MOVED" ∷ fields_behind rest.now ≡ told_parts t)) }
{
    let Some((target, rest)) = forms.point(rest) else {
        return None;
    };
    let (frame, rest) = next_field(rest)?;
    if frame != b"?".as_slice() || next_field(rest).is_some() {
        return None;
    }
    Some(Reported::MovedSomewhere(target))
}

fn read_framed(rest: &[u8]) -> Option<Reported>
    ensures { Finds result (λ t. IsOtherTold t
        × (codes "FRAMED" ∷ fields_behind rest.now ≡ told_parts t)) }
{
    let (frame, rest) = next_field(rest)?;
    if frame != b"?".as_slice() || next_field(rest).is_some() {
        return None;
    }
    Some(Reported::FramedSomehow)
}

/// A touch with a tool or in a frame that is not known, after its word. Fails only if out of memory.
fn read_touched(
    alloc: Global,
    forms: &mut Forms,
    rest: &[u8],
) -> Result<Option<Reported>, AllocError>
    ensures { IfOk result (λ found. Finds found (λ t. IsOtherTold t
        × (codes "CONTACT" ∷ fields_behind rest.now ≡ told_parts t))) }
{
    let Some((target, rest)) = forms.point(rest) else {
        return Ok(None);
    };
    let Some((dir, rest)) = forms.direction(rest) else {
        return Ok(None);
    };
    let Some((tool, rest)) = next_field(rest) else {
        return Ok(None);
    };
    let Some((frame, rest)) = read_frame(forms, rest) else {
        return Ok(None);
    };
    let Some((point, rest)) = forms.point(rest) else {
        return Ok(None);
    };
    let None = next_field(rest) else {
        return Ok(None);
    };
    let Some(tool) = read_tool(alloc, tool)? else {
        return Ok(None);
    };
    if tool.is_some() && frame.is_some() {
        return Ok(None);
    }
    Ok(Some(Reported::Touched {
        target,
        dir,
        tool,
        frame,
        point,
    }))
}

fn read_other(alloc: Global, rest: &[u8]) -> Result<Option<Reported>, AllocError>
    ensures { IfOk result (λ found. Finds found (λ t. IsOtherTold t
        × (codes "OTHER" ∷ fields_behind rest.now ≡ told_parts t))) }
{
    let Some((side, rest)) = next_field(rest) else {
        return Ok(None);
    };
    let side = match side {
        [b'>'] => Side::Client,
        [b'<'] => Side::Server,
        _ => return Ok(None),
    };
    Ok(read_line_text(alloc, rest)?.map(|line| Reported::Other(side, line)))
}

fn read_broken(rest: &[u8]) -> Option<Reported>
    ensures { Finds result (λ t. IsOtherTold t
        × (codes "BROKEN" ∷ fields_behind rest.now ≡ told_parts t)) }
{
    let (rule, rest) = next_field(rest)?;
    let (tag, rest) = next_field(rest)?;
    let None = next_field(rest) else {
        return None;
    };
    Some(Reported::Broken(read_rule(rule)?, read_tag(tag)?))
}

/// What the fields after a connection's number are, if they are not those of an act. Fails only if out of memory.
fn read_told(alloc: Global, forms: &mut Forms, rest: &[u8]) -> Result<Option<Reported>, AllocError>
    ensures { IfOk result (λ found. Finds found (λ t. IsOtherTold t
        × (fields_behind rest.now ≡ told_parts t))) }
{
    let Some((word, rest)) = next_field(rest) else {
        return Ok(None);
    };
    if word == b"MOVED".as_slice() {
        Ok(read_moved(forms, rest))
    } else if word == b"FRAMED".as_slice() {
        Ok(read_framed(rest))
    } else if word == b"CONTACT".as_slice() {
        read_touched(alloc, forms, rest)
    } else if word == b"OTHER".as_slice() {
        read_other(alloc, rest)
    } else if word == b"UNASKED".as_slice() {
        Ok(read_line_text(alloc, rest)?.map(|line| Reported::Unasked(line)))
    } else if word == b"BROKEN".as_slice() {
        Ok(read_broken(rest))
    } else if word == b"OPENED".as_slice() {
        Ok(next_field(rest).is_none().then_some(Reported::Opened))
    } else if word == b"LEFT".as_slice() {
        Ok(next_field(rest).is_none().then_some(Reported::Left))
    } else {
        Ok(None)
    }
}

/// What a line says that was reported, and the number of its connection. Fails only if out of memory.
pub(crate) fn read_line(
    alloc: Global,
    forms: &mut Forms,
    line: &[u8],
) -> Result<Option<(u64, Reported)>, AllocError>
    ensures { IfOk result (λ found. Finds found (λ e. IsToldEntry e
        × (line.now ≡ told_line e))) }
{
    let (connection, rest) = first_field(line);
    let Some(connection) = read_number(connection, CONNECTION_MAX) else {
        return Ok(None);
    };
    if let Some(told) = read_told(alloc, forms, rest)? {
        return Ok(Some((connection, told)));
    }
    let Some((connection, act)) = read_entry(alloc, forms, line)? else {
        return Ok(None);
    };
    Ok(Some((connection, Reported::Did(act))))
}
