// What one line of a machine's file says.

ghost use Rattle.std.specs.Prelude.{◌≡◌, ◌≤◌, ◌++◌, not, ◌==◌, length, codes, string_bytes, IfOk};
ghost use Rattle.std.specs.List.{prefix_len};
ghost use Rattle.std.specs.Option.{option_map};
ghost use Rattle.tool_rack.specs.MachineEntries as spec;
ghost use Rattle.tool_rack.specs.Machines.{GivesMachine};

use crate::fields::{has_outer_space, is_dropped, is_word};
use crate::machine_faults::MachineFault;
use std::alloc::{AllocError, Global};
use std::marker::Model;
use std::str;

/// An option of a run, and the word of a command line that gives it its value.
#[derive(Debug, Drop)]
pub(crate) struct Entry {
    pub(crate) option: &'static str,
    pub(crate) word: String,
}

impl Model for Entry {
    ghost use Rattle.std.specs.Prelude.{string_bytes};
    ghost use Rattle.tool_rack.specs.MachineEntries.{Given};

    ghost Value = { Given };

    ghost view = { λ e. record { option = e.option.now; word = string_bytes e.word } };
}

/// The option that a word names.
fn option_in(word: &[u8]) -> Option<&'static str>
    ensures { option_map (λ o. o.now) result ≡ spec.option_in word.now }
{
    if is_word(b"SETUP", word) {
        Some("setup")
    } else if is_word(b"HOST", word) {
        Some("host")
    } else if is_word(b"PORT", word) {
        Some("port")
    } else if is_word(b"TIMEOUT", word) {
        Some("timeout")
    } else if is_word(b"WAIT", word) {
        Some("wait")
    } else if is_word(b"WINDOW", word) {
        Some("window")
    } else if is_word(b"RECORDS", word) {
        Some("records")
    } else if is_word(b"SEALKEY", word) {
        Some("seal-key")
    } else {
        None
    }
}

fn word_len(line: &[u8]) -> usize
    ensures { (result ≡ prefix_len (λ b. not (b == 32)) line.now) × (result ≤ length line.now) }
{
    line.iter().take_while(|byte| **byte != b' ').count()
}

fn spaces_len(bytes: &[u8]) -> usize
    ensures { (result ≡ prefix_len (λ b. b == 32) bytes.now) × (result ≤ length bytes.now) }
{
    bytes.iter().take_while(|byte| **byte == b' ').count()
}

/// A value, if it is one.
#[tactic(auto, using(crate::proofs::MachineTexts::text_is_value, crate::proofs::MachineTexts::other_is_none))]
fn value_in(value: &[u8]) -> Option<&str>
    ensures { option_map (λ v. v.now) result ≡ spec.valued value.now }
{
    if value.is_empty() {
        return None;
    }
    match str::from_utf8(value) {
        Ok(text) => Some(text),
        Err(_) => None,
    }
}

fn entry_of(alloc: Global, option: &'static str, value: &str) -> Result<Entry, AllocError>
    ensures { IfOk result (λ entry. entry ≡ spec.given option.now value.now) }
{
    let word = format!(in alloc; "--{option}={value}")?;
    Ok(Entry { option, word })
}

/// What the line of this number says by itself: the value of an option, or nothing.
#[tactic(auto, unfolding(crate::specs::MachineEntries::given_on))]
pub(crate) fn entry_on(
    alloc: Global,
    number: u64,
    line: &[u8],
) -> Result<Option<Entry>, MachineFault>
    ensures { GivesMachine result (spec.given_on number line.now) }
{
    if is_dropped(line) {
        return Ok(None);
    }
    if has_outer_space(line) {
        return Err(MachineFault::BadLine(number));
    }
    let (word, behind) = line.split_at(word_len(line));
    let (_, value) = behind.split_at(spaces_len(behind));
    match (option_in(word), value_in(value)) {
        (Some(option), Some(value)) => Ok(Some(entry_of(alloc, option, value)?)),
        _ => Err(MachineFault::BadLine(number)),
    }
}
