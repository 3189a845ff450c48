ghost use Rattle.std.specs.Prelude.{◌≡◌, ◌≤◌, ◌==◌, not, length, IfOk};
ghost use Rattle.deviations.specs.Names.{list_all, prefix_len, length_of, is_no_exponent, is_in_micrometres, length_in, label_in, limit_from, entry_on, GivesLimits};
ghost use Rattle.tool_rack.specs.Fields.{fields_of};
ghost use Rattle.deviations.specs.Entries.{limit_fields};

use crate::limit_faults::LimitsFault;
use crate::ranges::Range;
use fixed_um::{Name, NumeralFault, Um, read_um};
use std::alloc::{AllocError, Global};
use tool_rack::fields::{cut_field, has_outer_space, is_dropped, is_word, three_fields};

/// What a line of limits says: the range for the points of a feature, or of every feature that has none of its own.
#[derive(Debug, Drop)]
pub(crate) struct Limit {
    /// The feature's label; none for every other feature.
    pub(crate) label: Option<Name>,
    pub(crate) range: Range,
}

/// How many bytes precede the point of a numeral.
fn whole_len(text: &[u8]) -> usize
    ensures value { result ≡ prefix_len (λ b. not (b == 46)) text.now }
    ensures within { result ≤ length text.now }
{
    text.iter().take_while(|byte| **byte != b'.').count()
}

fn is_no_exponent(byte: u8) -> bool
    ensures { result ≡ is_no_exponent byte }
{
    byte != b'E' && byte != b'e'
}

fn has_no_exponent(text: &[u8]) -> bool
    ensures { result ≡ list_all is_no_exponent text.now }
{
    text.iter().all(|byte| is_no_exponent(*byte))
}

/// Whether a numeral has no exponent and at most three decimals, so that it writes whole micrometres. Does not allocate.
pub fn is_in_micrometres(text: &[u8]) -> bool
    ensures { result ≡ is_in_micrometres text.now }
{
    has_no_exponent(text) && text.len() - whole_len(text) <= 4
}

/// The length that a numeral writes, within the machine's volume.
fn length(text: &[u8]) -> Result<Um, NumeralFault>
    ensures { result ≡ length_of text.now }
{
    read_um(text, Um::volume_limit())
}

/// The length that a numeral in millimetres with at most three decimals writes.
fn length_in(text: &[u8]) -> Option<Um>
    ensures { result ≡ length_in text.now }
{
    if !is_in_micrometres(text) {
        return None;
    }
    match length(text) {
        Ok(length) => Some(length),
        Err(_) => None,
    }
}

/// The label that a field names, or none for `*`; nothing if the field is neither. Fails only if out of memory.
fn label_in(alloc: Global, field: &[u8]) -> Result<Option<Option<Name>>, AllocError>
    ensures { IfOk result (λ label. label ≡ label_in field.now) }
{
    if field == b"*".as_slice() {
        return Ok(Some(None));
    }
    match Name::new(alloc, field)? {
        Some(name) => Ok(Some(Some(name))),
        None => Ok(None),
    }
}

/// The limit of these three fields.
fn limit_from(
    alloc: Global,
    number: u64,
    label: &[u8],
    lower: &[u8],
    upper: &[u8],
) -> Result<Option<Limit>, LimitsFault>
    ensures { GivesLimits result (limit_from number (label_in label.now) (length_in lower.now)
        (length_in upper.now)) }
{
    let Some(label) = label_in(alloc, label)? else {
        return Err(LimitsFault::NotLimit(number));
    };
    match (length_in(lower), length_in(upper)) {
        (Some(lower), Some(upper)) => match Range::new(lower, upper) {
            Some(range) => Ok(Some(Limit { label, range })),
            None => Err(LimitsFault::EmptyRange(number)),
        },
        _ => Err(LimitsFault::NotLimit(number)),
    }
}

#[tactic(auto, unfolding(crate::specs::Entries::limit_fields))]
fn limit_fields(alloc: Global, number: u64, line: &[u8]) -> Result<Option<Limit>, LimitsFault>
    ensures { GivesLimits result (limit_fields number (fields_of line.now)) }
{
    let Some((word, values)) = cut_field(line) else {
        return Err(LimitsFault::NotLimit(number));
    };
    if !is_word(b"LIMIT", word) {
        return Err(LimitsFault::NotLimit(number));
    }
    let Some((label, lower, upper)) = three_fields(values) else {
        return Err(LimitsFault::NotLimit(number));
    };
    limit_from(alloc, number, label, lower, upper)
}

/// What the line of this number says by itself: a limit, or nothing.
#[tactic(auto, unfolding(crate::specs::Entries::entry_on))]
pub(crate) fn entry_on(
    alloc: Global,
    number: u64,
    line: &[u8],
) -> Result<Option<Limit>, LimitsFault>
    ensures { GivesLimits result (entry_on number line.now) }
{
    if is_dropped(line) {
        return Ok(None);
    }
    if has_outer_space(line) {
        return Err(LimitsFault::NotLimit(number));
    }
    limit_fields(alloc, number, line)
}
