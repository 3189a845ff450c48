// The macros of a text, and what their parameters stand for.

ghost use Rattle.std.specs.Prelude.{◌≡◌, ◌==◌, ◌≤◌, ◌++◌, IfOk, OnOk, length, map};
ghost use Rattle.std.specs.List.{position};
ghost use Rattle.std.specs.Option.{option_map};
ghost use Rattle.program_flow.specs.Calls.{is_call};
ghost use Rattle.program_flow.specs.Macros as spec;
ghost use Rattle.program_flow.specs.Named as named;
ghost use Rattle.program_flow.specs.Named.{count_ends, inside, seen_macro, seen_pair};

use crate::blocks::is_label;
use crate::parts::{first_place, trimmed};
use crate::values::{is_name_byte, is_text};
use dmis_text::{Statement, Text};
use std::alloc::{AllocError, Global};

/// A parameter, and the text of its argument.
#[derive(Clone, Copy)]
pub struct Pair<'a> {
    pub parameter: &'a [u8],
    pub argument: &'a [u8],
}

/// The parameters of a macro, and the statements between its MACRO and its ENDMAC.
#[derive(Clone, Copy)]
pub struct Macro<'a, 'b> {
    pub params: &'b [Text<'a>],
    pub body: &'b [Statement<'a>],
}

/// Appends what an identifier stands for: itself, if it is no parameter.
fn push_meaning(made: &mut Vec<u8>, pairs: &[Pair], name: &[u8]) -> Result<(), AllocError>
    ensures { OnOk result (made.new.items ≡ made.old.items
        ++ spec.meaning_of (map seen_pair pairs.now) name.now) }
{
    let mut left = pairs;
    while let [first, others @ ..] = left {
        if first.parameter == name {
            return made.extend_from_slice(first.argument);
        }
        left = others;
    }
    made.extend_from_slice(name)
}

/// A text with each identifier that is a parameter replaced, outside texts in apostrophes.
#[tactic(auto, unfolding(crate::specs::Macros::replaced_after))]
pub(crate) fn replaced(alloc: Global, pairs: &[Pair], text: &[u8]) -> Result<Vec<u8>, AllocError>
    ensures { IfOk result (λ made. made.items ≡ spec.replaced (map seen_pair pairs.now) text.now) }
{
    let mut made = Vec::new(alloc);
    let mut name = Vec::new(alloc);
    let mut quoted = false;
    let mut left = text;
    while let [byte, others @ ..] = left {
        if !quoted && is_name_byte(*byte) {
            name.push(*byte)?;
        } else {
            push_meaning(&mut made, pairs, &name)?;
            made.push(*byte)?;
            name.clear();
            quoted = if *byte == b'\'' { !quoted } else { quoted };
        }
        left = others;
    }
    push_meaning(&mut made, pairs, &name)?;
    Ok(made)
}

pub(crate) fn is_macro_name(name: &[u8]) -> bool
    ensures { result ≡ spec.is_macro_name name.now }
{
    match name {
        [b'M', rest @ ..] => is_label(rest),
        _ => false,
    }
}

fn name_if(begins: bool, name: &[u8]) -> Option<&[u8]>
    ensures { option_map (λ n. n.now) result ≡ spec.name_if begins name.now }
{
    if begins && is_macro_name(name) {
        Some(name)
    } else {
        None
    }
}

/// The label of a macro without parameters, whose word has it.
fn name_before(word: &[u8]) -> Option<&[u8]>
    ensures { option_map (λ n. n.now) result
        ≡ spec.name_before word.now (position (λ b. b == 61) word.now) }
{
    let index = first_place(b'=', word)?;
    let (front, _) = word.split_at(index);
    let (_, rest) = word.split_at(index + 1);
    name_if(is_text(trimmed(rest), "MACRO"), trimmed(front))
}

/// The label of the macro that begins at a statement.
fn macro_name<'b>(statement: &'b Statement<'_>) -> Option<&'b [u8]>
    ensures { option_map (λ n. n.now) result ≡ spec.macro_name statement.now }
{
    match &statement.label {
        Some(label) => name_if(is_text(&statement.word, "MACRO"), label),
        None if statement.params.is_empty() => name_before(&statement.word),
        None => None,
    }
}

/// Whether a macro begins at a statement.
pub(crate) fn begins_macro(statement: &Statement) -> bool
    ensures { result ≡ spec.begins_macro statement.now }
{
    macro_name(statement).is_some()
}

/// Whether a macro ends at a statement.
pub(crate) fn ends_macro(statement: &Statement) -> bool
    ensures { result ≡ spec.ends_macro statement.now }
{
    statement.label.is_none() && is_text(&statement.word, "ENDMAC") && statement.params.is_empty()
}

/// Whether a statement calls a macro.
pub(crate) fn is_call(statement: &Statement) -> bool
    ensures { result ≡ is_call statement.now }
{
    statement.label.is_none() && is_text(&statement.word, "CALL") && !statement.params.is_empty()
}

/// Whether a macro that began above these statements ends there.
fn has_end(below: &[Statement]) -> bool
    ensures { result ≡ spec.has_end below.now }
{
    below.iter().any(|statement| ends_macro(statement))
}

/// The statements above the first ENDMAC.
fn body_of<'a, 'b>(below: &'b [Statement<'a>]) -> &'b [Statement<'a>]
    ensures { result.now ≡ spec.body_of below.now }
{
    let (body, _) = below.split_at(count_of(below));
    body
}

/// How many statements stand above the first ENDMAC.
fn count_of(below: &[Statement]) -> usize
    ensures value { result ≡ length (spec.body_of below.now) }
    ensures within { result ≤ length below.now }
{
    let mut left = below;
    let mut count = 0;
    while let [first, others @ ..] = left
        && !ends_macro(first)
    {
        count += 1;
        left = others;
    }
    count
}

fn has_label(statement: &Statement, name: &[u8]) -> bool
    ensures { result ≡ spec.has_label (spec.macro_name statement.now) name.now }
{
    match macro_name(statement) {
        Some(label) => label == name,
        None => false,
    }
}

/// The first macro of this label.
#[tactic(auto, unfolding(crate::specs::Macros::macro_after))]
pub(crate) fn macro_named<'a, 'b>(name: &[u8], text: &'b [Statement<'a>]) -> Option<Macro<'a, 'b>>
    ensures { option_map seen_macro result ≡ spec.macro_named name.now text.now }
{
    let mut left = text;
    let mut within = false;
    while let [first, below @ ..] = left {
        if within {
            within = !ends_macro(first);
        } else if begins_macro(first) && has_end(below) {
            if has_label(first, name) {
                return Some(Macro {
                    params: &first.params,
                    body: body_of(below),
                });
            }
            within = true;
        }
        left = below;
    }
    None
}

/// How many statements end a macro.
fn count_ends(statements: &[Statement]) -> usize
    ensures { result ≡ count_ends statements.now }
{
    let mut left = statements;
    let mut count = 0;
    while let [first, others @ ..] = left {
        if ends_macro(first) {
            count += 1;
        }
        left = others;
    }
    count
}

/// How many of these ENDMACs are below a statement, which may be one.
fn ends_below(ends: usize, last: bool) -> usize
    ensures { result ≡ named.ends_below ends last }
{
    if last { ends.saturating_sub(1) } else { ends }
}

/// Whether a statement is within a macro.
fn within_by(within: bool, ends: usize, begins: bool) -> bool
    ensures { result ≡ named.within_by within ends begins }
{
    within || ends > 0 && begins
}

/// Whether those below it are.
fn within_after(within: bool, last: bool, inside: bool) -> bool
    ensures { result ≡ named.within_after within last inside }
{
    if within { !last } else { inside }
}

/// The statements outside macros, and those within.
#[tactic(auto, unfolding(crate::specs::Macros::outside_after, crate::specs::Named::inside_after))]
pub(crate) fn split<'a>(
    alloc: Global,
    text: Vec<Statement<'a>>,
) -> Result<(Vec<Statement<'a>>, Vec<Statement<'a>>), AllocError>
    ensures outside { IfOk result (λ both. both.0.items ≡ spec.outside text.entry.items) }
    ensures inside { IfOk result (λ both. both.1.items ≡ inside text.entry.items) }
{
    let mut ends = count_ends(&text);
    let mut outside = Vec::new(alloc);
    let mut macros = Vec::new(alloc);
    let mut within = false;
    let mut left = text.into_iter();
    while let Some(statement) = left.next() {
        let last = ends_macro(&statement);
        ends = ends_below(ends, last);
        let inside = within_by(within, ends, begins_macro(&statement));
        within = within_after(within, last, inside);
        if inside {
            macros.push(statement)?;
        } else {
            outside.push(statement)?;
        }
    }
    Ok((outside, macros))
}
