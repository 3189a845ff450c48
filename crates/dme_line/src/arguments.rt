// The arguments of commands.

ghost use Rattle.std.specs.Prelude.{◌≡◌, ◌++◌, ◌∷◌, [], ◌↔◌, ℕ, List, IsTrue, MatchOption};
ghost use Rattle.dme_line.specs.Tokens.{Token, Close, Comma, Word, tokens};
ghost use Rattle.dme_line.specs.Arguments.{Argument as GivenArgument, Seven, argument_tokens, list_tokens, enclosed, IsOneWord, seven_tokens};
ghost use Rattle.dme_line.specs.Taken.{the_argument, the_list, IsPlaceLong, the_seven};

use crate::tokens::{is_end, is_word, take_mark, take_word};

/// A named argument: its name, and one or three words in its parentheses.
#[derive(Clone, Copy)]
pub(crate) enum Argument<'a> {
    Single(&'a [u8], &'a [u8]),
    Triple(&'a [u8], &'a [u8], &'a [u8], &'a [u8]),
}

/// A named argument and what follows it; `None` if none comes first.
pub(crate) fn take_argument(bytes: &[u8]) -> Option<(Argument<'_>, &[u8])>
    ensures { MatchOption result
        ((a : GivenArgument) (ts : List Token) → tokens bytes.now ≡ argument_tokens a ++ ts → ⊥)
        (λ p. tokens bytes.now ≡ argument_tokens (the_argument p.0) ++ tokens p.1.now) }
{
    let (name, rest) = take_word(bytes)?;
    let rest = take_mark(rest, b'(')?;
    let (first, rest) = take_word(rest)?;
    if let Some(rest) = take_mark(rest, b')') {
        return Some((Argument::Single(name, first), rest));
    }
    let rest = take_mark(rest, b',')?;
    let (second, rest) = take_word(rest)?;
    let rest = take_mark(rest, b',')?;
    let (third, rest) = take_word(rest)?;
    let rest = take_mark(rest, b')')?;
    Some((Argument::Triple(name, first, second, third), rest))
}

/// The arguments of a move or touch, in the order in which they stand.
#[derive(Clone, Copy)]
pub(crate) struct Place<'a> {
    pub first: Argument<'a>,
    pub second: Argument<'a>,
    pub third: Argument<'a>,
    pub fourth: Option<Argument<'a>>,
}

/// Whether the closing parenthesis is all that is left, with spaces next to it or without.
#[inline(always)]
pub(crate) fn is_closed(bytes: &[u8]) -> bool
    ensures { IsTrue result ↔ (tokens bytes.now ≡ Close ∷ []) }
{
    match bytes {
        [b')'] => true,
        _ => take_mark(bytes, b')').is_some_and(is_end),
    }
}

/// A comma and a named argument, and what follows them.
pub(crate) fn take_next(bytes: &[u8]) -> Option<(Argument<'_>, &[u8])>
    ensures { MatchOption result
        ((a : GivenArgument) (ts : List Token) → tokens bytes.now ≡ Comma
        ∷ (argument_tokens a ++ ts) → ⊥)
        (λ p. tokens bytes.now ≡ Comma ∷ (argument_tokens (the_argument p.0) ++ tokens p.1.now)) }
{
    take_argument(take_mark(bytes, b',')?)
}

/// Three or four named arguments in their parentheses, and nothing after them.
pub(crate) fn read_place(bytes: &[u8]) -> Option<Place<'_>>
    ensures { MatchOption result
        ((arguments : List GivenArgument) → IsPlaceLong arguments
        → tokens bytes.now ≡ enclosed (list_tokens arguments) → ⊥)
        (λ p. tokens bytes.now ≡ enclosed (list_tokens (the_list p))) }
{
    let (first, rest) = take_argument(take_mark(bytes, b'(')?)?;
    let (second, rest) = take_next(rest)?;
    let (third, rest) = take_next(rest)?;
    if is_closed(rest) {
        return Some(Place {
            first,
            second,
            third,
            fourth: None,
        });
    }
    let (fourth, rest) = take_next(rest)?;
    if !is_closed(rest) {
        return None;
    }
    Some(Place {
        first,
        second,
        third,
        fourth: Some(fourth),
    })
}

/// Whether there is nothing between the parentheses.
pub(crate) fn is_empty_list(bytes: &[u8]) -> bool
    ensures { IsTrue result ↔ (tokens bytes.now ≡ enclosed []) }
{
    take_mark(bytes, b'(').is_some_and(is_closed)
}

pub(crate) fn read_word(bytes: &[u8]) -> Option<&[u8]>
    ensures { MatchOption result
        ((word : List ℕ) → IsOneWord (tokens bytes.now) word → ⊥)
        (λ word. IsOneWord (tokens bytes.now) word.now) }
{
    let (word, rest) = take_word(take_mark(bytes, b'(')?)?;
    is_closed(rest).then_some(word)
}

/// The words of a transformation.
#[derive(Clone, Copy)]
pub(crate) struct Transformation<'a> {
    pub system: &'a [u8],
    pub x: &'a [u8],
    pub y: &'a [u8],
    pub z: &'a [u8],
    pub a: &'a [u8],
    pub b: &'a [u8],
    pub c: &'a [u8],
}

/// A comma and a word, and what follows them.
fn take_next_word(bytes: &[u8]) -> Option<(&[u8], &[u8])>
    ensures { MatchOption result
        ((w : List ℕ) (ts : List Token) → tokens bytes.now ≡ Comma ∷ Word w ∷ ts → ⊥)
        (λ p. tokens bytes.now ≡ Comma ∷ Word p.0.now ∷ tokens p.1.now) }
{
    take_word(take_mark(bytes, b',')?)
}

/// Seven words in their parentheses, and nothing after them.
pub(crate) fn read_transformation(bytes: &[u8]) -> Option<Transformation<'_>>
    ensures { MatchOption result
        ((words : Seven) → tokens bytes.now ≡ enclosed (seven_tokens words) → ⊥)
        (λ t. tokens bytes.now ≡ enclosed (seven_tokens (the_seven t))) }
{
    let (system, rest) = take_word(take_mark(bytes, b'(')?)?;
    let (x, rest) = take_next_word(rest)?;
    let (y, rest) = take_next_word(rest)?;
    let (z, rest) = take_next_word(rest)?;
    let (a, rest) = take_next_word(rest)?;
    let (b, rest) = take_next_word(rest)?;
    let (c, rest) = take_next_word(rest)?;
    if !is_closed(rest) {
        return None;
    }
    Some(Transformation {
        system,
        x,
        y,
        z,
        a,
        b,
        c,
    })
}
