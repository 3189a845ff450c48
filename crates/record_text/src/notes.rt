// What a line of a record says about a connection besides the acts on it.

ghost use Rattle.std.specs.Prelude.{◌≡◌, ◌↔◌, IsTrue, ℕ, MatchOption, option_map};
ghost use Rattle.record_text.specs.Names.{IsNoteText, after_form, fits, has_form, ends_so, is_decimal, is_digest, is_error, is_hex, is_identified, is_stamped, is_time, list_all, word_of};

use crate::parts::is_text;

/// The most bytes that a note says (this profile).
const NOTE_MAX: usize = 400;

/// What a note is about.
#[derive(Clone, Copy, Debug, PartialEq, Eq)]
pub enum Note {
    /// An error that the server reported, from its tag on.
    Refused,
    /// The program that ran, with its version.
    By,
    /// Who operated the machine.
    Operator,
    /// The name of the DMIS program, and the SHA-256 of its bytes.
    Program,
    /// Likewise of the setup.
    Setup,
    /// When the connection was made, and with whom.
    Opened,
    /// When the features above this line were complete.
    Dated,
    /// When the connection ended, and how.
    Left,
    /// The seal of all that is above this line.
    Sealed,
}

impl Note {
    /// The word of its lines.
    pub(crate) fn word(self) -> &'static [u8]
        ensures { result.now ≡ word_of self }
    {
        match self {
            Note::Refused => b"REFUSED".as_slice(),
            Note::By => b"BY".as_slice(),
            Note::Operator => b"OPERATOR".as_slice(),
            Note::Program => b"PROGRAM".as_slice(),
            Note::Setup => b"SETUP".as_slice(),
            Note::Opened => b"OPENED".as_slice(),
            Note::Dated => b"DATED".as_slice(),
            Note::Left => b"LEFT".as_slice(),
            Note::Sealed => b"SEAL".as_slice(),
        }
    }
}

/// The note of this word.
pub(crate) fn note_of(word: &[u8]) -> Option<Note>
    ensures { MatchOption result ((note : _) → word.now ≡ word_of note → ⊥) (λ note. word.now ≡ word_of note) }
{
    if word == b"REFUSED".as_slice() {
        Some(Note::Refused)
    } else if word == b"BY".as_slice() {
        Some(Note::By)
    } else if word == b"OPERATOR".as_slice() {
        Some(Note::Operator)
    } else if word == b"PROGRAM".as_slice() {
        Some(Note::Program)
    } else if word == b"SETUP".as_slice() {
        Some(Note::Setup)
    } else if word == b"OPENED".as_slice() {
        Some(Note::Opened)
    } else if word == b"DATED".as_slice() {
        Some(Note::Dated)
    } else if word == b"LEFT".as_slice() {
        Some(Note::Left)
    } else if word == b"SEAL".as_slice() {
        Some(Note::Sealed)
    } else {
        None
    }
}

/// Whether it is an error that the server reported.
pub(crate) fn is_error(note: Note) -> bool
    ensures { result ≡ is_error note }
{
    matches!(note, Note::Refused)
}

fn is_decimal(byte: u8) -> bool
    ensures { result ≡ is_decimal byte }
{
    byte >= 48 && byte <= 57
}

fn is_hex(byte: u8) -> bool
    ensures { result ≡ is_hex byte }
{
    is_decimal(byte) || (byte >= 97 && byte <= 102)
}

fn fits(form: u8, byte: u8) -> bool
    ensures { result ≡ fits form byte }
{
    if form == b'0' {
        return is_decimal(byte);
    }
    byte == form
}

/// What follows in a text that begins in this form.
fn after_form<'a>(form: &[u8], text: &'a [u8]) -> Option<&'a [u8]>
    ensures { option_map (λ t. t.now) result ≡ after_form form.now text.now }
{
    let mut left = form;
    let mut rest = text;
    while let [first, form @ ..] = left {
        let [byte, text @ ..] = rest else {
            return None;
        };
        if !fits(*first, *byte) {
            return None;
        }
        left = form;
        rest = text;
    }
    Some(rest)
}

fn is_time(text: &[u8]) -> bool
    ensures { result ≡ is_time text.now }
{
    match after_form(b"0000-00-00T00:00:00.000Z".as_slice(), text) {
        Some(rest) => rest.is_empty(),
        None => false,
    }
}

fn is_stamped(text: &[u8]) -> bool
    ensures { result ≡ is_stamped text.now }
{
    match after_form(b"0000-00-00T00:00:00.000Z ".as_slice(), text) {
        Some(rest) => !rest.is_empty(),
        None => false,
    }
}

fn are_hex(text: &[u8]) -> bool
    ensures { result ≡ list_all is_hex text.now }
{
    text.iter().all(|byte| is_hex(*byte))
}

fn is_digest(text: &[u8]) -> bool
    ensures { result ≡ is_digest text.now }
{
    text.len() == 64 && are_hex(text)
}

fn ends_so(text: &[u8]) -> bool
    ensures { result ≡ ends_so text.now }
{
    match text {
        [byte, digest @ ..] => *byte == b' ' && is_digest(digest),
        [] => false,
    }
}

fn is_identified(text: &[u8]) -> bool
    ensures { result ≡ is_identified text.now }
{
    if text.len() < 66 {
        return false;
    }
    let (_, end) = text.split_at(text.len() - 65);
    ends_so(end)
}

fn has_form(note: Note, text: &[u8]) -> bool
    ensures { result ≡ has_form note text.now }
{
    match note {
        Note::Refused | Note::By | Note::Operator => true,
        Note::Program | Note::Setup => is_identified(text),
        Note::Opened | Note::Left => is_stamped(text),
        Note::Dated => is_time(text),
        Note::Sealed => is_digest(text),
    }
}

/// Whether a note can say this: 1 to 400 bytes from 32 to 126, in the form of its word (this profile). A time is one of RFC 3339 in UTC
/// with milliseconds.
pub fn can_say(note: Note, text: &[u8]) -> bool
    ensures { IsTrue result ↔ IsNoteText note text.now }
{
    is_text(text, NOTE_MAX) && has_form(note, text)
}
