// The comments before a flat program.

ghost use Rattle.std.specs.Prelude.{◌≡◌, ◌++◌, ◌∷◌, IfOk, OnOk, map, string_bytes};
ghost use Rattle.program_lowering.specs.Heads.{given_options, head_lines, names_of, option_text, or_none, setup_name, shown_byte, shown_name, value_line};
ghost use Rattle.program_lowering.specs.Lowering.{ended_lines};

use crate::flats::{front, push_named};
use crate::prompts::Answer;
use crate::words::Choices;
use record_text::digest_of;
use std::alloc::{AllocError, Global};

/// The names of the files that a flat program is written of, as its head names them.
#[derive(Clone, Copy)]
pub struct SourceNames<'a> {
    /// The program's.
    pub program: &'a str,
    /// The setup's; empty if none is named.
    pub setup: &'a str,
}

/// A byte in a comment: `?` for one that may not be there.
fn shown_byte(byte: u8) -> u8
    ensures { result ≡ shown_byte byte }
{
    if byte == 9 || (byte >= 32 && byte <= 126) || byte >= 128 {
        byte
    } else {
        b'?'
    }
}

/// A name in a comment.
fn shown_name(alloc: Global, name: &[u8]) -> Result<Vec<u8>, AllocError>
    ensures { IfOk result (λ shown. shown.items ≡ shown_name name.now) }
{
    front(name, 1000)
        .iter()
        .map(|byte| shown_byte(*byte))
        .collect(alloc)
}

/// The setup's name, or that there is none.
fn setup_name(setup: &[u8]) -> &[u8]
    ensures { result.now ≡ setup_name setup.now }
{
    match setup {
        [] => b"none",
        _ => setup,
    }
}

/// Appends the name of an option, if it was given.
fn push_option(out: &mut Vec<u8>, given: bool, name: &[u8]) -> Result<(), AllocError>
    ensures { OnOk result (out.new.items ≡ out.old.items ++ option_text given name.now) }
{
    if given {
        out.extend_from_slice(name)?;
    }
    Ok(())
}

/// The options that were given, each after a blank.
fn given_options(alloc: Global, choices: Choices) -> Result<Vec<u8>, AllocError>
    ensures { IfOk result (λ text. text.items ≡ given_options choices) }
{
    let mut text = Vec::new(alloc);
    push_option(&mut text, choices.no_clearing, b" --no-clearing")?;
    push_option(&mut text, choices.compensated, b" --compensated")?;
    push_option(&mut text, choices.skip_manual, b" --skip-manual")?;
    push_option(&mut text, choices.stored_frames, b" --stored-frames")?;
    push_option(&mut text, choices.even_touches, b" --even-touches")?;
    Ok(text)
}

/// These options, or that there are none.
fn or_none(options: &[u8]) -> &[u8]
    ensures { result.now ≡ or_none options.now }
{
    match options {
        [] => b" none",
        _ => options,
    }
}

/// An answer in a comment.
fn value_text(alloc: Global, answer: &Answer) -> Result<Vec<u8>, AllocError>
    ensures { IfOk result (λ text. text.items
        ≡ shown_name (answer.now.name ++ 61 ∷ answer.now.text)) }
{
    let mut text = Vec::from_slice(alloc, answer.name())?;
    text.push(b'=')?;
    text.extend_from_slice(answer.text())?;
    shown_name(alloc, text.as_slice())
}

/// Appends a line for each answer.
fn push_values(out: &mut Vec<u8>, answers: &[Answer]) -> Result<(), AllocError>
    ensures { OnOk result (out.new.items
        ≡ out.old.items ++ ended_lines (map value_line answers.now)) }
{
    let [answer, others @ ..] = answers else {
        return Ok(());
    };
    let text = value_text(*out.allocator(), answer)?;
    push_named(out, b"$$ value: ", text.as_slice())?;
    push_values(out, others)
}

/// The lines of a flat program after its head: the name of its source with the digest of that text, the name of the setup, the options,
/// and the answers.
pub(crate) fn with_head(
    alloc: Global,
    names: SourceNames<'_>,
    choices: Choices,
    answers: &[Answer],
    source: &[u8],
    lines: &[u8],
) -> Result<Vec<u8>, AllocError>
    ensures { IfOk result (λ text. text.items ≡ ended_lines (head_lines
        (names_of names.entry.program.now names.entry.setup.now) choices answers.now source.now)
        ++ lines.now) }
{
    let program = shown_name(alloc, names.program.as_bytes())?;
    let digest = digest_of(alloc, source)?;
    let setup = shown_name(alloc, setup_name(names.setup.as_bytes()))?;
    let options = given_options(alloc, choices)?;
    let mut head = Vec::new(alloc);
    push_named(&mut head, b"$$ flat program, written by dme lower", b"")?;
    push_named(&mut head, b"$$ source: ", program.as_slice())?;
    push_named(&mut head, b"$$ SHA-256 of the source: ", digest.as_bytes())?;
    push_named(&mut head, b"$$ setup: ", setup.as_slice())?;
    push_named(&mut head, b"$$ options:", or_none(options.as_slice()))?;
    push_values(&mut head, answers)?;
    head.extend_from_slice(lines)?;
    Ok(head)
}
