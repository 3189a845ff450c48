ghost use Rattle.std.specs.Prelude.{IfOk};
ghost use Rattle.tool_rack.specs.Names.{fields_of, tool_entry, frame_entry, shift_entry, fields_entry, entry_on, IsEntryInVolume, GivesSetup};

use crate::faults::SetupFault;
use crate::fields::{cut_field, has_outer_space, is_dropped, is_word, one_field, three_fields};
use crate::positions::point_in_volume;
use fixed_um::{Name, Point};
use std::alloc::Global;

/// What a line of a setup says.
#[derive(Debug, Drop)]
pub(crate) enum Entry {
    Nothing,
    Tool(Name),
    /// A frame, with its zero point in machine axes.
    Frame(Name, Point),
    Shift(Point),
}

/// What the fields after `TOOL` say.
fn tool_entry(alloc: Global, number: u64, values: &[u8]) -> Result<Entry, SetupFault>
    ensures value { GivesSetup result (tool_entry number (fields_of values.now)) }
    ensures within { IfOk result IsEntryInVolume }
{
    let Some(name) = one_field(values) else {
        return Err(SetupFault::BadLine(number));
    };
    match Name::new(alloc, name)? {
        Some(name) => Ok(Entry::Tool(name)),
        None => Err(SetupFault::BadLine(number)),
    }
}

/// What the fields after `FRAME` say.
fn frame_entry(alloc: Global, number: u64, values: &[u8]) -> Result<Entry, SetupFault>
    ensures value { GivesSetup result (frame_entry number (fields_of values.now)) }
    ensures within { IfOk result IsEntryInVolume }
{
    let Some((name, rest)) = cut_field(values) else {
        return Err(SetupFault::BadLine(number));
    };
    let Some((x, y, z)) = three_fields(rest) else {
        return Err(SetupFault::BadLine(number));
    };
    let Some(name) = Name::new(alloc, name)? else {
        return Err(SetupFault::BadLine(number));
    };
    match point_in_volume(x, y, z) {
        Some(offset) => Ok(Entry::Frame(name, offset)),
        None => Err(SetupFault::BadNumeral(number)),
    }
}

/// What the fields after `SHIFT` say.
fn shift_entry(number: u64, values: &[u8]) -> Result<Entry, SetupFault>
    ensures value { GivesSetup result (shift_entry number (fields_of values.now)) }
    ensures within { IfOk result IsEntryInVolume }
{
    let Some((x, y, z)) = three_fields(values) else {
        return Err(SetupFault::BadLine(number));
    };
    match point_in_volume(x, y, z) {
        Some(shift) => Ok(Entry::Shift(shift)),
        None => Err(SetupFault::BadNumeral(number)),
    }
}

#[tactic(auto, unfolding(crate::specs::Entries::fields_entry))]
fn fields_entry(alloc: Global, number: u64, line: &[u8]) -> Result<Entry, SetupFault>
    ensures value { GivesSetup result (fields_entry number (fields_of line.now)) }
    ensures within { IfOk result IsEntryInVolume }
{
    let Some((word, values)) = cut_field(line) else {
        return Err(SetupFault::BadLine(number));
    };
    if is_word(b"TOOL", word) {
        tool_entry(alloc, number, values)
    } else if is_word(b"FRAME", word) {
        frame_entry(alloc, number, values)
    } else if is_word(b"SHIFT", word) {
        shift_entry(number, values)
    } else {
        Err(SetupFault::BadLine(number))
    }
}

/// What the line of this number says by itself.
#[tactic(auto, unfolding(crate::specs::Entries::entry_on))]
pub(crate) fn entry_on(alloc: Global, number: u64, line: &[u8]) -> Result<Entry, SetupFault>
    ensures value { GivesSetup result (entry_on number line.now) }
    ensures within { IfOk result IsEntryInVolume }
{
    if is_dropped(line) {
        return Ok(Entry::Nothing);
    }
    if has_outer_space(line) {
        return Err(SetupFault::BadLine(number));
    }
    fields_entry(alloc, number, line)
}
