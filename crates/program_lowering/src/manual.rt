// Manual blocks.

ghost use Rattle.std.specs.Prelude.{◌≡◌};
ghost use Rattle.dmis_program.specs.Keywords.{is_among, keyword_of};
ghost use Rattle.program_lowering.specs.Manual as spec;

use crate::texts::is_among;
use dmis_program::Keyword;
use dmis_text::{Statement, Text};
use program_flow::is_text;

/// Whether the words of a `MODE` leave measuring to the operator.
fn is_manual(params: &[Text]) -> bool
    ensures { result ≡ spec.is_manual params.now }
{
    match params {
        [only] => is_text(only, "MAN"),
        _ => false,
    }
}

/// Whether the operator measures from a statement with this keyword on.
pub fn manual_after(manual: bool, keyword: Keyword, statement: &Statement) -> bool
    requires { keyword ≡ keyword_of statement.now.word }
    ensures { result ≡ spec.manual_after manual statement.now }
{
    match keyword {
        Keyword::Mode => is_manual(&statement.params),
        _ => manual,
    }
}

/// The words that measure or move, of those that no flat program has.
fn is_manual_word(word: &[u8]) -> bool
    ensures { result ≡ is_among word.now spec.manual_words }
{
    is_among(
        word,
        &[
            "GOHOME", "GOTARG", "ENDGO", "FROM", "PAMEAS", "PATH", "RMEAS", "SCAN",
        ],
    )
}

/// Whether a word measures or moves, or is a `MODE`.
fn measures(keyword: Keyword, word: &[u8]) -> bool
    ensures { result ≡ spec.measures keyword word.now }
{
    match keyword {
        Keyword::Mode | Keyword::Goto | Keyword::Meas | Keyword::Ptmeas | Keyword::Endmes => true,
        Keyword::Unknown => is_manual_word(word),
        _ => false,
    }
}

/// Whether a statement with this keyword is left out, where the operator measures or not.
pub fn is_skipped(manual: bool, keyword: Keyword, statement: &Statement) -> bool
    requires { keyword ≡ keyword_of statement.now.word }
    ensures { result ≡ spec.is_skipped manual statement.now }
{
    manual
        && measures(keyword, &statement.word)
        && statement.label.is_none()
        && !statement.is_open()
}
