ghost use Rattle.std.specs.Prelude.{◌≡◌};
ghost use Rattle.dmis_program.specs.Names.{bytes_eq, keyword_of, is_among, definitions, passed};

/// What a statement's word is in this profile (the words are those of ISO 22093).
#[derive(Clone, Copy, Debug, PartialEq, Eq)]
pub enum Keyword {
    Dmismn,
    Goto,
    Meas,
    Ptmeas,
    Endmes,
    Snslct,
    Recall,
    Endfil,
    Units,
    Mode,
    /// `FEAT`, `TOL` and `SNSDEF`, which may have a label and command nothing.
    Definition,
    /// The words that command nothing and have no label.
    Passed,
    /// Every other word.
    Unknown,
}

pub(crate) fn is_text(text: &[u8], other: &str) -> bool
    ensures { result ≡ bytes_eq text.now other.now }
{
    text == other.as_bytes()
}

/// What a statement's word is.
pub fn keyword_of_word(word: &[u8]) -> Keyword
    ensures { result ≡ keyword_of word.now }
{
    read_keyword(word)
}

/// What a statement's word is. Half of them are one of two.
#[tactic(auto, unfolding(crate::specs::Keywords::keyword_of))]
#[inline(always)]
pub(crate) fn read_keyword(word: &[u8]) -> Keyword
    ensures { result ≡ keyword_of word.now }
{
    match word {
        [b'G', b'O', b'T', b'O'] => Keyword::Goto,
        [b'M', b'E', b'A', b'S'] => Keyword::Meas,
        _ => searched_keyword(word),
    }
}

/// Likewise by comparing it with each.
#[inline(never)]
#[tactic(auto, unfolding(crate::specs::Keywords::keyword_of))]
fn searched_keyword(word: &[u8]) -> Keyword
    ensures { result ≡ keyword_of word.now }
{
    if is_text(word, "DMISMN") {
        return Keyword::Dmismn;
    }
    if is_text(word, "GOTO") {
        return Keyword::Goto;
    }
    if is_text(word, "MEAS") {
        return Keyword::Meas;
    }
    if is_text(word, "PTMEAS") {
        return Keyword::Ptmeas;
    }
    if is_text(word, "ENDMES") {
        return Keyword::Endmes;
    }
    if is_text(word, "SNSLCT") {
        return Keyword::Snslct;
    }
    if is_text(word, "RECALL") {
        return Keyword::Recall;
    }
    if is_text(word, "ENDFIL") {
        return Keyword::Endfil;
    }
    if is_text(word, "UNITS") {
        return Keyword::Units;
    }
    if is_text(word, "MODE") {
        return Keyword::Mode;
    }
    if is_definition(word) {
        return Keyword::Definition;
    }
    if is_passed(word) {
        return Keyword::Passed;
    }
    Keyword::Unknown
}

fn is_definition(word: &[u8]) -> bool
    ensures { result ≡ is_among word.now definitions }
{
    is_text(word, "FEAT") || is_text(word, "TOL") || is_text(word, "SNSDEF")
}

fn is_passed(word: &[u8]) -> bool
    ensures { result ≡ is_among word.now passed }
{
    is_text(word, "FILNAM")
        || is_text(word, "FEDRAT")
        || is_text(word, "ACLRAT")
        || is_text(word, "SNSET")
        || is_text(word, "FINPOS")
        || is_text(word, "PRCOMP")
        || is_text(word, "WKPLAN")
        || is_text(word, "TEXT")
        || is_text(word, "DISPLY")
        || is_text(word, "OUTPUT")
}
