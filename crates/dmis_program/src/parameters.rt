ghost use Rattle.std.specs.Prelude.{◌≡◌, ◌==◌, ◌∷◌, [], ◌<◌, ◌≤◌, ◌^◌, ◌-◌, true, length, slice_index, IfOk, IfSome, MatchOption, Option, Some, None, codes, nat_eq, option_and_then};
ghost use Rattle.dmis_program.specs.Names.{list_all, list_any, option_map, is_ascii_digit, is_ascii_alphabetic, bytes_eq, digits_value, is_name_text, folded, is_letters, begins, before_close, name_of, name_within, count_of, without_cart, is_other_coordinates, is_other_recall};

use crate::keywords::is_text;
use dmis_text::Text;
use fixed_um::Name;
use std::alloc::{AllocError, Global};

/// The most touches that a block may ask for (this profile).
const MOST_TOUCHES: u64 = 10_000;

pub(crate) fn has_word(params: &[Text], word: &str) -> bool
    ensures { result ≡ list_any (λ p. bytes_eq p word.now) params.now }
{
    params.iter().any(|p| is_text(p, word))
}

fn all_letters(text: &[u8]) -> bool
    ensures { result ≡ list_all is_ascii_alphabetic text.now }
{
    text.iter().all(|b| b.is_ascii_alphabetic())
}

/// Whether a parameter is a word of letters.
pub(crate) fn is_letters(text: &[u8]) -> bool
    ensures { result ≡ is_letters text.now }
{
    !text.is_empty() && all_letters(text)
}

/// Whether a parameter begins with these bytes.
pub(crate) fn begins(text: &[u8], front: &[u8]) -> bool
    ensures { result ≡ begins front.now text.now }
{
    text.starts_with(front)
}

/// What precedes a `)` at the end.
fn before_close(text: &[u8]) -> Option<&[u8]>
    ensures { option_map (λ t. t.now) result ≡ before_close text.now }
{
    match text {
        [front @ .., b')'] => Some(front),
        _ => None,
    }
}

/// The name between these bytes and a `)`.
#[tactic(auto, unfolding(crate::specs::Parameters::name_within))]
pub(crate) fn name_within(
    alloc: Global,
    front: &[u8],
    text: &[u8],
) -> Result<Option<Name>, AllocError>
    ensures { IfOk result (λ name. name ≡ name_within front.now text.now) }
{
    let Some(rest) = text.strip_prefix(front) else {
        return Ok(None);
    };
    let Some(inner) = before_close(rest) else {
        return Ok(None);
    };
    Name::new(alloc, inner)
}

fn all_digits(text: &[u8]) -> bool
    ensures { result ≡ list_all is_ascii_digit text.now }
{
    text.iter().all(|b| b.is_ascii_digit())
}

/// The count of touches that a block asks for.
pub(crate) fn count_of(text: &[u8]) -> Option<u64>
    ensures { result ≡ count_of text.now }
{
    if !all_digits(text) {
        return None;
    }
    let mut value = 0;
    for digit in text {
        value = value * 10 + u64::from(*digit - b'0');
        if value > MOST_TOUCHES {
            return None;
        }
    }
    if value > 0 { Some(value) } else { None }
}

/// Whether a parameter is `CART`.
#[inline(always)]
pub(crate) fn is_cart(text: &[u8]) -> bool
    ensures { result ≡ bytes_eq text.now (codes "CART") }
{
    match text {
        [b'C', b'A', b'R', b'T'] => true,
        _ => false,
    }
}

/// The parameters after a first `CART`.
pub(crate) fn without_cart<'p, 'a>(params: &'p [Text<'a>]) -> &'p [Text<'a>]
    ensures { result.now ≡ without_cart params.now }
{
    let count = match params.split_first() {
        Some((first, _)) if is_cart(first) => 1,
        _ => 0,
    };
    let (_, rest) = params.split_at(count);
    rest
}

fn begins_with_letter(text: &[u8]) -> bool
    ensures { result ≡ is_ascii_alphabetic (slice_index text.now 0) }
{
    match text {
        [first, ..] => first.is_ascii_alphabetic(),
        _ => false,
    }
}

/// Whether the first parameter names other coordinates than `CART`.
pub(crate) fn is_other_coordinates(params: &[Text]) -> bool
    ensures { result ≡ is_other_coordinates params.now }
{
    match params.split_first() {
        Some((first, _)) => begins_with_letter(first) && !is_cart(first),
        None => false,
    }
}

/// Whether the first parameter recalls nothing that this profile knows.
pub(crate) fn is_other_recall(params: &[Text]) -> bool
    ensures { result ≡ is_other_recall params.now }
{
    match params.split_first() {
        Some((first, _)) => {
            !begins(first, b"D(") && !begins(first, b"S(") && !begins(first, b"SA(")
        }
        None => false,
    }
}
