// Names in texts.

ghost use Rattle.std.specs.Prelude.{◌≡◌, ◌++◌, ◌<◌, ◌≤◌, Ok, Some, OnOk, false, length};
ghost use Rattle.std.specs.List.{prefix_len};
ghost use Rattle.program_flow.specs.Texts as spec;
ghost use Rattle.program_flow.specs.Numbers.{and_then};
ghost use Rattle.program_flow.specs.Texts.{Appends};
ghost use Rattle.program_flow.specs.Variables.{entry_value};
ghost use Rattle.program_flow.specs.Values.{Valuation, is_name_byte};
ghost use Rattle.program_flow.specs.Values as values;

use crate::faults::ValueFault;
use crate::numbers::Number;
use crate::parts::first_place;
use crate::values::is_name_byte;
use crate::variables::Variables;
use itoa::Buffer;
use std::alloc::AllocError;

/// How many names may be in one text.
const MOST_NAMES: u64 = 100;

fn name_length(text: &[u8]) -> usize
    ensures count { result ≡ prefix_len is_name_byte text.now }
    ensures within { result ≤ length text.now }
{
    text.iter().take_while(|byte| is_name_byte(**byte)).count()
}

fn cut_name(text: &[u8]) -> (&[u8], &[u8])
    ensures front { result.0.now ≡ spec.name_front text.now }
    ensures behind { result.1.now ≡ spec.name_behind text.now }
{
    text.split_at(name_length(text))
}

/// Appends the digits of a whole number.
pub(crate) fn push_whole(out: &mut Vec<u8>, number: Number) -> Result<(), ValueFault>
    ensures { Appends result out.old.items out.new.items
        (spec.inserted (values.Value.Number number)) }
{
    let whole = number.get_whole()?;
    Ok(out.extend_from_slice(Buffer::new().format(whole).as_bytes())?)
}

#[cycle(expanded)]
fn push_named(
    out: &mut Vec<u8>,
    text: &[u8],
    mark: usize,
    variables: &Variables,
    names: u64,
) -> Result<(), ValueFault>
    requires { mark < length text.now }
    ensures { Appends result out.old.items out.new.items (spec.expanded_at
        (entry_value variables.now) (spec.expanded_within (entry_value variables.now) names)
        text.now (Some mark)) }
{
    let (front, _) = text.split_at(mark);
    let (_, behind) = text.split_at(mark + 1);
    let (name, rest) = cut_name(behind);
    out.extend_from_slice(front)?;
    variables.push_inserted(out, name)?;
    push_expanded(out, rest, variables, names)
}

#[cycle(expanded)]
fn push_expanded(
    out: &mut Vec<u8>,
    text: &[u8],
    variables: &Variables,
    names: u64,
) -> Result<(), ValueFault>
    ensures { Appends result out.old.items out.new.items
        (spec.expanded_within (entry_value variables.now) names text.now) }
{
    if names == 0 {
        return Err(ValueFault::TooDeep);
    }
    match first_place(b'@', text) {
        Some(mark) => push_named(out, text, mark, variables, names - 1),
        None => Ok(out.extend_from_slice(text)?),
    }
}

/// Whether there are names in a text.
pub fn has_names(text: &[u8]) -> bool
    ensures { (values : Valuation) → result ≡ false → spec.expanded values text.now ≡ Ok text.now }
{
    first_place(b'@', text).is_some()
}

/// Appends a text with the value of each `@NAME` in its place, letters or a whole number without a point: `UnknownName`, `NotAssigned`,
/// `NotWhole`, or `TooDeep` if it has 100 names or more. After a fault a part may be there.
pub fn expanded(out: &mut Vec<u8>, text: &[u8], variables: &Variables) -> Result<(), ValueFault>
    ensures { Appends result out.old.items out.new.items
        (spec.expanded (entry_value variables.now) text.now) }
{
    push_expanded(out, text, variables, MOST_NAMES)
}
