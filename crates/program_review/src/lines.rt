// The line of a number, and how it is shown.

ghost use Rattle.std.specs.Prelude.{◌≡◌, ◌==◌, ◌<◌, ◌≤◌, ◌+◌, ◌-◌, ◌++◌, length, drop, OnOk, IfOk, IfSome, string_bytes};
ghost use Rattle.std.specs.List.{flat_map, position};
ghost use Rattle.std.specs.Str.Lines.{lines};
ghost use Rattle.program_review.specs.Windows.{shown_start};
ghost use Rattle.program_review.specs.Lines.{lines_from, bytes_from, after_feeds, first_of, visible_in_line, shown_front, shown_from};

use dmis_text::cut_line;
use session_telling::push_visible;
use std::alloc::{AllocError, Global};

/// The most bytes of a line that are shown (this profile).
const MOST_SHOWN: usize = 200;

/// A text with the line of its refusal: the text, the bytes from that line on, and the line's number.
#[derive(Clone, Copy)]
pub(crate) struct Place<'a> {
    pub(crate) text: &'a [u8],
    pub(crate) rest: &'a [u8],
    pub(crate) number: u64,
}

impl<'a> Place<'a> {
    /// The line of this number of a text; the last one if it has fewer.
    pub(crate) fn on_line(text: &'a [u8], number: u64) -> Place<'a> {
        Place {
            text,
            rest: from_line(text, number),
            number,
        }
    }

    /// The lines above it.
    pub(crate) fn above_line(&self) -> &'a [u8] {
        let count = self.text.len().saturating_sub(self.rest.len());
        let (lines, _) = self.text.split_at(count);
        lines
    }
}

fn end_of(bytes: &[u8]) -> Option<usize>
    ensures place { result ≡ position (λ b. b == 10) bytes.now }
    ensures within { IfSome result (λ at. at < length bytes.now) }
{
    bytes.iter().position(|byte| *byte == b'\n')
}

fn after_feed(bytes: &[u8]) -> &[u8]
    ensures after { result.now ≡ after_feeds 1 bytes.now }
    ensures others { lines result.now ≡ drop 1 (lines bytes.now) }
{
    match end_of(bytes) {
        Some(at) => {
            let (_, after) = bytes.split_at(at + 1);
            after
        }
        None => {
            let (_, after) = bytes.split_at(bytes.len());
            after
        }
    }
}

/// The bytes of a text from the line of this number on; from its last line on if it has fewer.
pub(crate) fn from_line(text: &[u8], number: u64) -> &[u8]
    ensures bytes { result.now ≡ bytes_from number text.now }
    ensures lines { lines result.now ≡ lines_from number text.now }
{
    let mut rest = text;
    let mut left = number;
    while left > 1 {
        let after = after_feed(rest);
        if after.is_empty() {
            return rest;
        }
        rest = after;
        left -= 1;
    }
    rest
}

/// The first line of a text; empty if it has none.
pub(crate) fn first_line(text: &[u8]) -> &[u8]
    ensures { result.now ≡ first_of (lines text.now) }
{
    match cut_line(text) {
        Some((line, _)) => line,
        None => text,
    }
}

fn push_line(text: &mut String, bytes: &[u8]) -> Result<(), AllocError>
    ensures { OnOk result (string_bytes text.new
        ≡ string_bytes text.old ++ flat_map visible_in_line bytes.now) }
{
    for byte in bytes {
        if *byte == b'\t' {
            text.push('\t')?;
        } else {
            push_visible(text, *byte)?;
        }
    }
    Ok(())
}

fn push_front(text: &mut String, bytes: &[u8]) -> Result<(), AllocError>
    ensures { OnOk result (string_bytes text.new
        ≡ string_bytes text.old ++ shown_front bytes.now) }
{
    if bytes.len() <= MOST_SHOWN {
        return push_line(text, bytes);
    }
    let (front, _) = bytes.split_at(MOST_SHOWN);
    push_line(text, front)?;
    text.push_str(" ..")
}

/// The byte from which a line is shown, so that the word of this place and length is among the 200 bytes that are shown, if it fits: the
/// first byte if the word is then shown, else a byte that puts the word in their middle.
pub(crate) fn shown_start(line: &[u8], at: usize, len: usize) -> usize
    ensures start { result ≡ shown_start (length line.now) at len }
    ensures within { result ≤ length line.now - 200 }
    ensures seen { len ≤ 200 → at + len ≤ length line.now → (result ≤ at) × (at + len ≤ result + 200) }
{
    if line.len() <= MOST_SHOWN || (at < MOST_SHOWN && len <= MOST_SHOWN - at) {
        return 0;
    }
    let before = (MOST_SHOWN - len.min(MOST_SHOWN)) / 2;
    at.saturating_sub(before).min(line.len() - MOST_SHOWN)
}

/// A line as it is shown from this byte on: at most 200 bytes of it, and `..` at each cut.
pub(crate) fn shown_line(alloc: Global, line: &[u8], start: usize) -> Result<String, AllocError>
    requires { start ≤ length line.now - 200 }
    ensures { IfOk result (λ text. string_bytes text ≡ shown_from start line.now) }
{
    let mut text = String::new(alloc);
    if start > 0 {
        text.push_str(".. ")?;
    }
    let (_, tail) = line.split_at(start);
    push_front(&mut text, tail)?;
    Ok(text)
}
