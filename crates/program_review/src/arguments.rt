// Which parameter of a statement does not fit, or how many there are.

ghost use Rattle.std.specs.Prelude.{◌≡◌, ◌≤◌, length, codes};
ghost use Rattle.std.specs.List.{list_all};
ghost use Rattle.std.specs.Char.{is_ascii_alphabetic};
ghost use Rattle.std.specs.Option.{option_map};
ghost use Rattle.std.specs.Str.{bytes_eq};
ghost use Rattle.dmis_program.specs.Parameters.{is_letters};
ghost use Rattle.program_review.specs.Arguments as spec;
ghost use Rattle.program_review.specs.Causes.{within_ends};
ghost use Rattle.program_review.specs.Numerals.{count_before};
ghost use Rattle.program_review.specs.Spots.{site_of};
ghost use Rattle.program_review.specs.Words.{given, Gives};

use crate::bad_names::name_fault;
use crate::causes::Cause;
use crate::statements::Found;
use crate::words::{Fault, Given, Word};
use dmis_program::Keyword;
use dmis_text::Text;
use std::alloc::Global;

fn is_cart(param: &[u8]) -> bool
    ensures { result ≡ bytes_eq param.now (codes "CART") }
{
    param == b"CART".as_slice()
}

pub(crate) fn count_before(params: &[Text]) -> usize
    ensures count { result ≡ count_before params.now }
    ensures within { result ≤ length params.now }
{
    match params.split_first() {
        Some((first, _)) if is_cart(first) => 1,
        _ => 0,
    }
}

#[tactic(auto, unfolding(crate::specs::Causes::within_ends))]
pub(crate) fn within<'a>(front: &[u8], text: &'a [u8]) -> Option<&'a [u8]>
    ensures { option_map (λ inner. inner.now) result ≡ within_ends front.now text.now }
{
    match text.strip_prefix(front)? {
        [inner @ .., b')'] => Some(inner),
        _ => None,
    }
}

/// How many parameters a statement has after a first `CART`.
fn count_fault<'s>(found: Found<'s, '_>) -> Option<Fault<'s>>
    ensures { given result ≡ spec.count_cause (site_of found.entry) }
{
    let params: &[Text] = &found.statement.params;
    let before = count_before(params);
    found.at_word(Cause::Count(before, params.len() - before))
}

/// Why the parameter of this number is not a name in parentheses after this prefix; none if it is one.
fn form_fault<'s>(
    alloc: Global,
    found: Found<'s, '_>,
    index: usize,
    front: &[u8],
    param: &'s [u8],
) -> Given<'s>
    ensures { Gives result (spec.form_cause (site_of found.entry) index front.now param.now) }
{
    match within(front, param) {
        Some(name) => name_fault(alloc, name, found.in_param(index, name)),
        None => Ok(found.at_param(index, param, Cause::NoParentheses)),
    }
}

fn all_letters(text: &[u8]) -> bool
    ensures { result ≡ list_all is_ascii_alphabetic text.now }
{
    text.iter().all(|b| b.is_ascii_alphabetic())
}

fn is_letters(param: &[u8]) -> bool
    ensures { result ≡ is_letters param.now }
{
    !param.is_empty() && all_letters(param)
}

fn meas_fault<'s>(alloc: Global, found: Found<'s, '_>) -> Given<'s>
    ensures { Gives result (spec.meas_cause (site_of found.entry)) }
{
    let params: &[Text] = &found.statement.params;
    let [kind, feature, count] = params else {
        return Ok(count_fault(found));
    };
    if !is_letters(kind) {
        return Ok(found.at_param(0, kind, Cause::NoKind));
    }
    match form_fault(alloc, found, 1, b"F(", feature)? {
        Some(fault) => Ok(Some(fault)),
        None => Ok(found.at_param(2, count, Cause::NoCount)),
    }
}

fn ptmeas_fault<'s>(found: Found<'s, '_>) -> Option<Fault<'s>>
    ensures { given result ≡ spec.ptmeas_cause (site_of found.entry) }
{
    match found.statement.params.split_first() {
        Some((first, _)) if !is_cart(first) => found.at_param(0, first, Cause::NotCart),
        _ => count_fault(found),
    }
}

fn front_of(is_tool: bool, first: &[u8]) -> &'static [u8]
    ensures { result.now ≡ spec.front_of is_tool first.now }
{
    if !is_tool {
        return b"D(";
    }
    if first.starts_with(b"SA(") {
        b"SA("
    } else {
        b"S("
    }
}

/// `SNSLCT` and `RECALL`, which take one name in parentheses.
fn name_alone<'s>(alloc: Global, found: Found<'s, '_>, is_tool: bool) -> Given<'s>
    ensures { Gives result (spec.name_alone (site_of found.entry) is_tool) }
{
    let params: &[Text] = &found.statement.params;
    let [first] = params else {
        return Ok(count_fault(found));
    };
    form_fault(alloc, found, 0, front_of(is_tool, first), first)
}

fn last_apostrophe(text: &[u8]) -> usize
    ensures place { result ≡ spec.last_apostrophe text.now }
    ensures within { result ≤ length text.now }
{
    let mut end = text.len();
    while end > 0 {
        if text[end - 1] == b'\'' {
            return end - 1;
        }
        end -= 1;
    }
    0
}

fn last_text(element: &[u8]) -> &[u8]
    ensures { result.now ≡ spec.last_text element.now }
{
    let (_, text) = element.split_at(last_apostrophe(element));
    text
}

fn open_fault<'s>(found: Found<'s, '_>) -> Option<Fault<'s>>
    ensures { given result ≡ spec.open_cause (site_of found.entry) }
{
    if !found.statement.is_open() {
        return None;
    }
    let params: &[Text] = &found.statement.params;
    let cause = Cause::OpenText;
    let Some(last) = params.last() else {
        let text = last_text(&found.statement.word);
        let word = found.in_word(text);
        return Some(Fault { cause, word });
    };
    let text = last_text(last);
    found.at_param(params.len().saturating_sub(1), text, cause)
}

fn head_fault<'s>(found: Found<'s, '_>) -> Option<Fault<'s>>
    ensures { given result ≡ spec.head_cause (site_of found.entry) }
{
    let Some(label) = &found.statement.label else {
        return open_fault(found);
    };
    match found.keyword() {
        Keyword::Definition => open_fault(found),
        _ => {
            let word = Word::found(found.rest, 0, label);
            let cause = Cause::Label;
            Some(Fault { cause, word })
        }
    }
}

fn params_fault<'s>(alloc: Global, found: Found<'s, '_>) -> Given<'s>
    ensures { Gives result (spec.params_cause (site_of found.entry)) }
{
    match found.keyword() {
        Keyword::Meas => meas_fault(alloc, found),
        Keyword::Ptmeas => Ok(ptmeas_fault(found)),
        Keyword::Snslct => name_alone(alloc, found, true),
        Keyword::Recall => name_alone(alloc, found, false),
        Keyword::Goto | Keyword::Endmes | Keyword::Endfil => Ok(count_fault(found)),
        Keyword::Units | Keyword::Mode => Ok(count_fault(found)),
        _ => Ok(None),
    }
}

/// Why a statement is not one of its word; none if it takes any parameters.
pub(crate) fn argument_fault<'s>(alloc: Global, found: Found<'s, '_>) -> Given<'s>
    ensures { Gives result (spec.argument_cause (site_of found.entry)) }
{
    match head_fault(found) {
        Some(fault) => Ok(Some(fault)),
        None => params_fault(alloc, found),
    }
}
