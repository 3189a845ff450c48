// The word of a line that a sentence names.

ghost use Rattle.std.specs.Prelude.{◌≡◌, ◌≤◌, ◌+◌, length, None, IfOk, IfSome};
ghost use Rattle.program_review.specs.Words.{first_place, word_in, named_by, caused, caused_by};

use crate::causes::Cause;
use crate::topics::meaning_of;
use session_telling::visible;
use std::alloc::{AllocError, Global};

/// The most bytes of a word that a sentence shows (this profile).
const MOST_OF_WORD: usize = 100;

/// A word that a sentence names, and its place in the bytes from its line on; no place if it is not found there in one piece.
#[derive(Clone, Copy)]
pub(crate) struct Word<'a> {
    pub(crate) bytes: &'a [u8],
    pub(crate) at: Option<usize>,
}

impl<'a> Word<'a> {
    /// The word of these bytes in a text, its letters in any case: the first from this place on, as it is written there. If it is not
    /// found, it is the bytes themselves.
    pub(crate) fn found(text: &'a [u8], from: usize, wanted: &'a [u8]) -> Word<'a>
        ensures { named_by result ≡ word_in text.now from wanted.now }
    {
        match place_from(text, from, wanted) {
            Some(at) => {
                let (_, tail) = text.split_at(at);
                let (bytes, _) = tail.split_at(wanted.len());
                Word {
                    bytes,
                    at: Some(at),
                }
            }
            None => Word::of_bytes(wanted),
        }
    }

    /// Bytes that a sentence names, and that are at no place of the text.
    pub(crate) fn of_bytes(bytes: &'a [u8]) -> Word<'a>
        ensures { named_by result ≡ record { bytes = bytes.now; at = None } }
    {
        Word { bytes, at: None }
    }

    /// The word as a sentence shows it: with at most 100 of its bytes.
    pub(crate) fn shown(&self, alloc: Global) -> Result<String, AllocError> {
        if self.bytes.is_empty() {
            return String::from_str(alloc, "(nothing)");
        }
        if self.bytes.len() <= MOST_OF_WORD {
            return visible(alloc, self.bytes);
        }
        let (front, _) = self.bytes.split_at(MOST_OF_WORD);
        let front = visible(alloc, front)?;
        format!(in alloc; "{front} ..")
    }

    /// The word between these texts.
    pub(crate) fn between(
        &self,
        alloc: Global,
        before: &str,
        behind: &str,
    ) -> Result<String, AllocError> {
        let shown = self.shown(alloc)?;
        format!(in alloc; "{before}{shown}{behind}")
    }

    /// The sentence that has the word between these texts.
    pub(crate) fn reason(&self, alloc: Global, before: &str, behind: &str) -> Explained {
        let said = self.between(alloc, before, behind)?;
        Ok(Some(Reason::of_word(Cause::Other, said, *self)))
    }
}

/// Why a text is refused, and the word at fault.
#[derive(Clone, Copy)]
pub(crate) struct Fault<'a> {
    pub(crate) cause: Cause,
    pub(crate) word: Word<'a>,
}

/// Why a text is refused, and the word at fault; none if it is not refused for this. Fails only if out of memory.
pub(crate) type Given<'a> = Result<Option<Fault<'a>>, AllocError>;

/// The first place from this one on at which these bytes are found, letters in any case.
pub(crate) fn place_from(text: &[u8], from: usize, wanted: &[u8]) -> Option<usize>
    ensures place { result ≡ first_place text.now from wanted.now }
    ensures within { IfSome result (λ at. at + length wanted.now ≤ length text.now) }
{
    if wanted.len() > text.len() {
        return None;
    }
    let last = text.len() - wanted.len();
    for at in from..last + 1 {
        let (_, tail) = text.split_at(at);
        let (front, _) = tail.split_at(wanted.len());
        if front.eq_ignore_ascii_case(wanted) {
            return Some(at);
        }
    }
    None
}

/// Why a text is refused; none if it is not refused for this. Fails only if out of memory.
pub(crate) type Explained = Result<Option<Reason>, AllocError>;

/// What is wrong with a line: why, a sentence, and the place and the length of the word at fault in the bytes from that line on.
#[derive(Drop)]
pub(crate) struct Reason {
    pub(crate) cause: Cause,
    pub(crate) said: String,
    pub(crate) at: usize,
    pub(crate) len: usize,
}

impl Reason {
    pub(crate) fn of_word(cause: Cause, said: String, word: Word) -> Reason
        ensures { caused_by result ≡ caused cause (named_by word.entry) }
    {
        let (at, len) = match word.at {
            Some(at) => (at, word.bytes.len()),
            None => (0, 0),
        };
        Reason {
            cause,
            said,
            at,
            len,
        }
    }

    /// A sentence that names no word of its line.
    pub(crate) fn of_line(said: String) -> Reason {
        Reason {
            cause: Cause::Other,
            said,
            at: 0,
            len: 0,
        }
    }

    /// Likewise of these words.
    pub(crate) fn of_text(alloc: Global, text: &str) -> Explained {
        Ok(Some(Reason::of_line(String::from_str(alloc, text)?)))
    }

    /// What the refusal of a code means.
    pub(crate) fn meaning(alloc: Global, code: &str) -> Result<Reason, AllocError> {
        let meaning = meaning_of(code.as_bytes());
        Ok(Reason::of_line(String::from_str(alloc, meaning)?))
    }
}
