// What refused statements are for.

ghost use Rattle.std.specs.Prelude.{◌≡◌};
ghost use Rattle.dmis_program.specs.Keywords.{keyword_of, is_among};
ghost use Rattle.program_review.specs.Groups.{bookkeeping, coordinates, measuring, deciding, moving, compensating};
ghost use Rattle.program_review.specs.Groups.{is_jump_label, word_group, unsupported_group, mistaken_group, group_of};

use dmis_program::{Keyword, Refusal, keyword_of_word};
use program_lowering::is_among;

/// What a refused statement is for (ISO 22093): what deleting it would change.
#[derive(Clone, Copy, Debug, PartialEq, Eq)]
pub enum Group {
    /// It identifies, prints, keeps or evaluates: what is measured stays.
    Bookkeeping,
    /// It sets up or selects a coordinate system, or turns the part.
    Coordinates,
    /// It leaves touches to the operator.
    ByHand,
    /// It asks for measuring other than by programmed touches.
    Measuring,
    /// It decides which statements come next.
    Flow,
    /// It moves the machine, or says how it moves.
    Motion,
    /// It says what lengths mean.
    Lengths,
    /// It is read, but not as it is written, or not where it is.
    Mistake,
    /// Any other word.
    Other,
}

fn is_bookkeeping(word: &[u8]) -> bool
    ensures { result ≡ is_among word.now bookkeeping }
{
    is_among(
        word,
        &[
            "CLMPID", "CLMPSN", "DMEID", "FIXTID", "FIXTSN", "LOTID", "MFGDEV", "OPERID", "PARTID",
            "PARTRV", "PARTSN", "PLANID", "PREVOP", "PROCID", "QISDEF", "BOUND", "CLOSE", "CONST",
            "DECPL", "DEVICE", "EVAL", "GEOALG", "KEYCHAR", "OPEN", "RAWDAT", "REPORT", "VFORM",
            "WRITE",
        ],
    )
}

/// Whether a word sets up, keeps or changes a coordinate system, or selects another carriage, or turns the part.
pub(crate) fn is_of_coordinates(word: &[u8]) -> bool
    ensures { result ≡ is_among word.now coordinates }
{
    is_among(
        word,
        &[
            "CRSLCT", "DATDEF", "DATSET", "EQUATE", "ITERAT", "LOCATE", "MATDEF", "ROTAB",
            "ROTATE", "ROTDEF", "ROTSET", "SAVE", "TRANS",
        ],
    )
}

fn is_measuring(word: &[u8]) -> bool
    ensures { result ≡ is_among word.now measuring }
{
    is_among(
        word,
        &[
            "ALGDEF", "CALIB", "FILDEF", "LITDEF", "PAMEAS", "PATH", "PTBUFF", "RMEAS", "SCAN",
            "SCNMOD", "SCNPLN", "SCNSET", "THLDEF", "WINDEF", "XTRACT",
        ],
    )
}

fn is_deciding(word: &[u8]) -> bool
    ensures { result ≡ is_among word.now deciding }
{
    is_among(
        word,
        &[
            "BADTST", "CASE", "DFTCAS", "DMIS", "DO", "ELSE", "ENDCAS", "ENDDO", "ENDIF", "ENDSEL",
            "IF", "JUMPTO", "RESUME", "SELECT", "ASSIGN", "CALL", "DECL", "DMISMD", "ENDMAC",
            "ENDXTN", "ERROR", "EXTFIL", "INCLUD", "MACRO", "OBTAIN", "PROMPT", "READ", "VALUE",
            "XTERN",
        ],
    )
}

fn is_moving(word: &[u8]) -> bool
    ensures { result ≡ is_among word.now moving }
{
    is_among(
        word,
        &[
            "CLRSRF", "CRMODE", "CROSCL", "CZONE", "CZSLCT", "ENDGO", "FLY", "FROM", "GOHOME",
            "GOTARG", "RAPID", "WRIST",
        ],
    )
}

fn is_compensating(word: &[u8]) -> bool
    ensures { result ≡ is_among word.now compensating }
{
    is_among(word, &["GECOMP", "TECOMP"])
}

fn is_jump_label(word: &[u8]) -> bool
    ensures { result ≡ is_jump_label word.now }
{
    match word.split_first() {
        Some((first, _)) => *first == b'(',
        None => false,
    }
}

#[tactic(auto, unfolding(crate::specs::Groups::word_group))]
fn word_group(word: &[u8]) -> Group
    ensures { result ≡ word_group word.now }
{
    if is_bookkeeping(word) {
        Group::Bookkeeping
    } else if is_of_coordinates(word) {
        Group::Coordinates
    } else if is_measuring(word) {
        Group::Measuring
    } else if is_deciding(word) || is_jump_label(word) {
        Group::Flow
    } else if is_moving(word) {
        Group::Motion
    } else if is_compensating(word) {
        Group::Lengths
    } else {
        Group::Other
    }
}

fn unsupported_group(keyword: Keyword, word: &[u8]) -> Group
    ensures { result ≡ unsupported_group keyword word.now }
{
    match keyword {
        Keyword::Goto => Group::Motion,
        Keyword::Ptmeas => Group::Measuring,
        Keyword::Recall => Group::Coordinates,
        Keyword::Dmismn => Group::Flow,
        Keyword::Unknown => word_group(word),
        _ => Group::Mistake,
    }
}

fn mistaken_group(keyword: Keyword) -> Group
    ensures { result ≡ mistaken_group keyword }
{
    match keyword {
        Keyword::Recall => Group::Coordinates,
        Keyword::Mode => Group::ByHand,
        _ => Group::Mistake,
    }
}

/// What a statement of this word is for that is refused so. Does not allocate.
pub fn group_of(refusal: Refusal, word: &[u8]) -> Group
    ensures { result ≡ group_of refusal word.now }
{
    match refusal {
        Refusal::Unsupported => unsupported_group(keyword_of_word(word), word),
        Refusal::BadArguments => mistaken_group(keyword_of_word(word)),
        Refusal::UnknownFrame => Group::Coordinates,
        Refusal::TooFewPoints => Group::Measuring,
        Refusal::NoProgMode => Group::ByHand,
        Refusal::NotMillimetres => Group::Lengths,
        _ => Group::Mistake,
    }
}
