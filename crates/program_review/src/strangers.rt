// Why a record is not the one of a run: it is of another part, or of another program.

ghost use Rattle.std.specs.Prelude.{◌≡◌, OnErr, IfOk, option_map, string_bytes};
ghost use Rattle.fixed_um.specs.Calls.{Writes};
ghost use Rattle.program_review.specs.Strangers.{part_words, other_part_text};

use crate::touches::{Appended, Request};
use dmis_program::{Program, Touch, Wanted};
use fixed_um::Name;
use record_text::{Asked, Record};
use session_telling::visible;
use std::alloc::{AllocError, Global};

fn part_words(
    alloc: Global,
    part: Option<&[u8]>,
    before: &str,
    without: &str,
) -> Result<String, AllocError>
    ensures { IfOk result (λ text. string_bytes text
        ≡ part_words (option_map (λ p. p.now) part.entry) before.now without.now) }
{
    let Some(part) = part else {
        return String::from_str(alloc, without);
    };
    let part = visible(alloc, part)?;
    format!(in alloc; "{before}{part}")
}

fn part_text(alloc: Global, held: Option<&[u8]>, given: Option<&[u8]>) -> Result<String, AllocError>
    ensures { IfOk result (λ text. string_bytes text ≡ other_part_text
        (option_map (λ p. p.now) held.entry) (option_map (λ p. p.now) given.entry)) }
{
    let held = part_words(alloc, held, "is of part ", "names no part")?;
    let given = part_words(alloc, given, "--part names ", "--part is not given")?;
    format!(in alloc; "The record {held}, and {given}.\n")
}

/// Appends a line that says which part a record names and which was given, of a run that is refused for its part. Fails only if out of
/// memory, and then nothing is appended.
pub fn write_other_part(
    out: &mut Vec<u8>,
    held: &Record,
    part: Option<&[u8]>,
) -> Result<(), AllocError>
    ensures { Writes result out.old out.new
        (other_part_text held.now.part (option_map (λ p. p.now) part.entry)) }
{
    let text = part_text(*out.allocator(), held.part(), part)?;
    out.extend_from_slice(text.as_bytes())
}

/// Appends in what the first differing touch differs; nothing if none does.
fn add_touch(text: &mut String, label: &str, asked: &[Touch], wanted: &[Touch]) -> Appended {
    let alloc = *text.allocator();
    let mut number = 0usize;
    for (held, other) in asked.iter().zip(wanted) {
        number = number.saturating_add(1);
        let held = Request::of_touch(held);
        if let Some((what, one, other)) = held.difference(alloc, &Request::of_touch(other))? {
            return writeln!(
                text,
                "The {what} of touch {number} of {label} is {one} in the record and {other} in the program."
            );
        }
    }
    Ok(())
}

/// Appends in what a feature of this number, counted from 1, differs; nothing if it does not.
fn add_feature(text: &mut String, number: usize, asked: &Asked, wanted: &Wanted) -> Appended {
    let alloc = *text.allocator();
    let held = visible(alloc, asked.label().as_bytes())?;
    if asked.label().as_bytes() != wanted.label.as_bytes() {
        let other = visible(alloc, wanted.label.as_bytes())?;
        return writeln!(
            text,
            "Feature {number} is {held} in the record and {other} in the program."
        );
    }
    let count = asked.touches().len();
    let touches = wanted.touches.as_slice();
    let other = touches.len();
    if count != other {
        return writeln!(
            text,
            "The number of touches of {held} is {count} in the record and {other} in the program."
        );
    }
    add_touch(text, &held, asked.touches(), touches)
}

/// Appends that a feature of this number, counted from 1, is only in one of both.
fn add_missing(
    text: &mut String,
    number: usize,
    label: &Name,
    without: &str,
    with: &str,
) -> Appended {
    let label = visible(*text.allocator(), label.as_bytes())?;
    writeln!(
        text,
        "The {without} has no feature {number}, which is {label} in the {with}."
    )
}

/// In what the first differing feature differs; nothing if none does.
fn program_text(alloc: Global, asked: &[Asked], wanted: &[Wanted]) -> Result<String, AllocError> {
    let mut text = String::new(alloc);
    for index in 0..asked.len().max(wanted.len()) {
        let number = index.saturating_add(1);
        match (asked.get(index), wanted.get(index)) {
            (Some(held), Some(other)) => add_feature(&mut text, number, held, other)?,
            (Some(held), None) => {
                add_missing(&mut text, number, held.label(), "program", "record")?
            }
            (None, Some(next)) => {
                add_missing(&mut text, number, &next.label, "record", "program")?
            }
            (None, None) => {}
        }
        if !text.is_empty() {
            break;
        }
    }
    Ok(text)
}

/// Appends a line that says which feature of a record differs from the program's, and in what: its label, how many touches it has, or the
/// target, direction, tool or frame of a touch. Appends nothing if none differs. Fails only if out of memory, and then nothing is appended.
pub fn write_other_program(
    out: &mut Vec<u8>,
    held: &Record,
    program: &Program,
) -> Result<(), AllocError>
    ensures err { OnErr result (out.new.items ≡ out.old.items) }
{
    let text = program_text(*out.allocator(), held.asked(), program.features())?;
    out.extend_from_slice(text.as_bytes())
}
