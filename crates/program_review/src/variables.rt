// The names that statements declare or assign, and the moves that are refused for one.

ghost use Rattle.std.specs.Prelude.{◌≡◌, ◌++◌, OnOk, find};
ghost use Rattle.dmis_program.specs.Keywords.{keyword_of, is_among};
ghost use Rattle.dmis_program.specs.Parameters.{name_of, without_cart};
ghost use Rattle.tool_rack.specs.Setups.{has_name};
ghost use Rattle.program_review.specs.Variables.{declaring, assigning, as_list, names_in, names_by, refused_argument};
ghost use Rattle.program_review.specs.Lengths.{is_no_length};
ghost use Rattle.program_review.specs.Variables.{is_named, is_computed_move};

use crate::numerals::is_no_length;
use dmis_program::{Keyword, Refusal};
use dmis_text::{Statement, Text};
use fixed_um::Name;
use program_lowering::{is_among, without_cart};
use std::alloc::AllocError;

fn is_declaring(word: &[u8]) -> bool
    ensures { result ≡ is_among word.now declaring }
{
    is_among(word, &["DECL", "DO", "MACRO", "READ"])
}

fn is_assigning(word: &[u8]) -> bool
    ensures { result ≡ is_among word.now assigning }
{
    is_among(word, &["ASSIGN", "OBTAIN", "PROMPT", "VALUE"])
}

fn push_name(names: &mut Vec<Name>, text: &[u8]) -> Result<(), AllocError>
    ensures { OnOk result (names.new.items ≡ names.old.items ++ as_list (name_of text.now)) }
{
    if let Some(name) = Name::new(*names.allocator(), text)? {
        names.push(name)?;
    }
    Ok(())
}

fn push_names(names: &mut Vec<Name>, texts: &[Text]) -> Result<(), AllocError>
    ensures { OnOk result (names.new.items ≡ names.old.items ++ names_in texts.now) }
{
    let mut left = texts;
    while let [text, others @ ..] = left {
        push_name(names, text)?;
        left = others;
    }
    Ok(())
}

pub(crate) fn push_declared(names: &mut Vec<Name>, statement: &Statement) -> Result<(), AllocError>
    ensures { OnOk result (names.new.items ≡ names.old.items ++ names_by statement.now) }
{
    if is_declaring(&statement.word) {
        return push_names(names, &statement.params);
    }
    if let Some(label) = &statement.label
        && is_assigning(&statement.word)
    {
        return push_name(names, label);
    }
    Ok(())
}

pub(crate) fn has_name(names: &[Name], text: &[u8]) -> bool
    ensures { result ≡ has_name names.now text.now }
{
    names.iter().any(|name| name.as_bytes() == text)
}

fn is_refused_numeral(names: &[Name], numerals: &[Text]) -> bool
    ensures { result ≡ is_named names.now (find is_no_length numerals.now) }
{
    let mut left = numerals;
    while let [text, others @ ..] = left {
        if is_no_length(text) {
            return has_name(names, text);
        }
        left = others;
    }
    false
}

fn is_refused_for(names: &[Name], refusal: Refusal, params: &[Text]) -> bool
    ensures { result ≡ is_named names.now (refused_argument refusal params.now) }
{
    match refusal {
        Refusal::Unsupported => params.first().is_some_and(|text| has_name(names, text)),
        Refusal::BadNumeral(_) => is_refused_numeral(names, without_cart(params)),
        _ => false,
    }
}

/// Whether a refused statement of this keyword is a move to variables, below those that declare or assign these names. Does not allocate.
pub(crate) fn is_computed_move(
    names: &[Name],
    refusal: Refusal,
    keyword: Keyword,
    statement: &Statement,
) -> bool
    requires { keyword ≡ keyword_of statement.now.word }
    ensures { result ≡ is_computed_move names.now refusal statement.now }
{
    keyword == Keyword::Goto && is_refused_for(names, refusal, &statement.params)
}
