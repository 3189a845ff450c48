// Why a text is refused, and how it is said. Contracts say which cause it is and which word is at fault. The words of the sentences are only
// tested.

ghost use Rattle.std.specs.Prelude.{◌≡◌, IfOk};
ghost use Rattle.program_review.specs.Words.{caused_by, seen};

use crate::numerals::Measure;
use crate::programs::Passage;
use crate::statements::Found;
use crate::words::{Fault, Reason, Word};
use dmis_program::Keyword;
use dmis_text::Text;
use session_telling::visible;
use std::alloc::{AllocError, Global};

/// Why a text is refused, with the values that the sentence on it names.
#[derive(Clone, Copy)]
pub(crate) enum Cause {
    NotFirst,
    NoStatement,
    /// The text ends after the statement that begins on this line.
    Ended(u64),
    /// The line has this many bytes.
    LongLine(usize),
    /// This byte is not allowed where it is.
    BadByte(u8),
    OtherCoordinates,
    OtherRecall,
    SecondStart,
    NotCarriedOut,
    OutsideBlock,
    /// A block is open that begins on this line.
    InsideBlock(u64),
    /// The block that begins on this line has that many touches.
    FewTouches(u64, u64),
    NoFrame,
    OtherUnit,
    OtherMode,
    /// The direction is zero, of which this is the first component.
    ZeroDirection,
    NoTool,
    TooLarge,
    Label,
    OpenText,
    /// After this many parameters it has that many others.
    Count(usize, usize),
    NoKind,
    NoCount,
    NotCart,
    NoParentheses,
    NoName,
    /// The name has this many bytes.
    LongName(usize),
    /// This byte is not allowed in a name.
    NameByte(u8),
    NotName,
    /// The parameter of this number, counted from 1, is empty.
    NoNumeral(usize),
    NotNumeral,
    /// The numeral has this many digits.
    ManyDigits(usize),
    /// The numeral is beyond the limit of what it is to be.
    BeyondLimit(Measure),
    /// What is wrong with a text other than a program: no contract says which cause it is.
    Other,
}

type Sentence = Result<String, AllocError>;

/// What a statement takes, and the form of the parameter that has none.
fn form_of(found: Found) -> (&'static str, &'static str) {
    match found.keyword() {
        Keyword::Goto => ("3", ""),
        Keyword::Endmes | Keyword::Endfil => ("none", ""),
        Keyword::Units => ("1 or more, MM first", ""),
        Keyword::Mode => ("1 or more, PROG among them", ""),
        Keyword::Meas => ("3, a kind, F(name) and a count of touches", "F(name)"),
        Keyword::Ptmeas if found.statement.params.is_empty() => ("CART and 3 or 6 numerals", ""),
        Keyword::Ptmeas => ("3, or 6 with a direction", ""),
        Keyword::Snslct => ("1, S(name) or SA(name)", "S(name) or SA(name)"),
        _ => ("1, D(name), or more after S( and SA(", "D(name)"),
    }
}

/// The text besides the word at fault that the sentence on a refused line names.
pub(crate) fn other_text(alloc: Global, fault: Fault, p: Passage) -> Sentence {
    if let Cause::BadByte(_) = fault.cause {
        let column = fault.word.at.unwrap_or(0).saturating_add(1);
        return format!(in alloc; "{column}");
    }
    let Some(statement) = p.statement else {
        return Ok(String::new(alloc));
    };
    let found = Found {
        rest: p.rest,
        statement,
    };
    let params: &[Text] = &statement.params;
    match (fault.cause, p.block, params) {
        (Cause::OtherCoordinates | Cause::OtherRecall | Cause::Label | Cause::NoNumeral(_), _, _) =>
            { found.word().shown(alloc) }
        (Cause::FewTouches(_, _), Some(block), _) => Word::of_bytes(block.wanted).shown(alloc),
        (Cause::Count(_, _), _, _) => String::from_str(alloc, form_of(found).0),
        (Cause::NoParentheses, _, _) => String::from_str(alloc, form_of(found).1),
        (Cause::ZeroDirection, _, [.., j, k]) => {
            let j = found.in_param(5, j).shown(alloc)?;
            let k = found.in_param(6, k).shown(alloc)?;
            format!(in alloc; "{j},{k}")
        }
        _ => Ok(String::new(alloc)),
    }
}

/// A fault with its sentence, which names this other text too.
pub(crate) fn worded(alloc: Global, fault: Fault, other: &str) -> Result<Reason, AllocError>
    ensures { IfOk result (λ reason. caused_by reason ≡ seen fault.entry) }
{
    let word = fault.word.shown(alloc)?;
    let said = sentence_of(alloc, fault.cause, &word, other)?;
    Ok(Reason::of_word(fault.cause, said, fault.word))
}

/// The sentence on a cause, with the word that is at fault and another text that some of them name.
fn sentence_of(alloc: Global, cause: Cause, word: &str, other: &str) -> Sentence {
    match cause {
        Cause::NotFirst => format!(in alloc;
            "The first statement is {word}, and a program begins with DMISMN."
        ),
        Cause::NoStatement => String::from_str(
            alloc,
            "The file has no statement, and a program begins with DMISMN.",
        ),
        Cause::Ended(line) => format!(in alloc;
            "The file ends after this line without ENDFIL: its last statement is {word} at line {line}."
        ),
        Cause::LongLine(count) => format!(in alloc;
            "The line has {count} bytes before its end, and at most 4096 are allowed."
        ),
        Cause::BadByte(byte) => {
            let why = if byte >= 128 {
                "is allowed only in texts and in comments."
            } else {
                "is a control character, and only tabs are allowed."
            };
            format!(in alloc; "The byte {word} in column {other} {why}")
        }
        Cause::OtherCoordinates => format!(in alloc;
            "{other}/{word} is not carried out: only CART coordinates are."
        ),
        Cause::OtherRecall => format!(in alloc;
            "{other}/{word} is not carried out: RECALL/D(name) selects a stored frame."
        ),
        Cause::SecondStart => format!(in alloc;
            "This is a second {word}, and a program has one, its first statement."
        ),
        Cause::NotCarriedOut => format!(in alloc; "{word} is not carried out."),
        _ => place_sentence(alloc, cause, word, other),
    }
}

/// The sentence on a statement that is not allowed where it is.
fn place_sentence(alloc: Global, cause: Cause, word: &str, other: &str) -> Sentence {
    match cause {
        Cause::OutsideBlock => format!(in alloc;
            "{word} is outside a measurement block: no MEAS above it is open."
        ),
        Cause::InsideBlock(line) => format!(in alloc;
            "{word} is inside the measurement block that begins at line {line}: it has no ENDMES yet."
        ),
        Cause::FewTouches(line, 0) => {
            let plural = if other == "1" { "" } else { "es" };
            format!(in alloc;
                "The program asks for automatic measuring: MEAS at line {line} names {other} touch{plural} and its block has none, and only programmed touches are measured. Write a PTMEAS for each, or delete the MEAS at line {line} and this ENDMES together."
            )
        }
        Cause::FewTouches(line, touches) => format!(in alloc;
            "MEAS at line {line} names {other} touches, and its block has {touches}."
        ),
        Cause::NoTool => format!(in alloc;
            "This {word} is a touch before any SNSLCT: no tool is selected."
        ),
        Cause::TooLarge => format!(in alloc;
            "This {word} is statement 10001, and a program has at most 10000."
        ),
        Cause::NoFrame => format!(in alloc;
            "No frame {word} is stored: --setup is missing, or its file has no line FRAME {word}."
        ),
        Cause::OtherUnit => format!(in alloc; "The unit {word} is not read: lengths are in MM."),
        Cause::OtherMode => format!(in alloc;
            "The mode {word} is not carried out, and PROG is not among the words of MODE: without this line, or with PROG, the machine drives by itself to the touches below, which MAN leaves to the operator, since the place of the part is not known."
        ),
        _ => argument_sentence(alloc, cause, word, other),
    }
}

/// The sentence on a parameter, a label or a text.
fn argument_sentence(alloc: Global, cause: Cause, word: &str, other: &str) -> Sentence {
    match cause {
        Cause::Label => format!(in alloc;
            "The label {word} comes before {other}: of the statements that are read, only FEAT, TOL and SNSDEF have labels."
        ),
        Cause::OpenText => format!(in alloc; "The text {word} is not closed by an apostrophe."),
        Cause::Count(before, count) => {
            let plural = if count == 1 { "" } else { "s" };
            let cart = if before > 0 { " after CART" } else { "" };
            format!(in alloc; "{word} has {count} parameter{plural}{cart}, and takes {other}.")
        }
        Cause::NoKind => format!(in alloc; "{word} is not a kind: a kind is a word of letters."),
        Cause::NoCount => format!(in alloc; "{word} is not a count of touches from 1 to 10000."),
        Cause::NotCart => format!(in alloc; "{word} is not CART, which comes first in PTMEAS."),
        Cause::NoParentheses => format!(in alloc; "{word} is not {other}."),
        Cause::ZeroDirection => format!(in alloc;
            "The direction {word},{other} is zero in all components, rounded to millionths."
        ),
        Cause::NoName => String::from_str(alloc, "There is no name between the parentheses."),
        Cause::LongName(count) => format!(in alloc;
            "{word} is not a name: it has {count} bytes, and a name has at most 64."
        ),
        Cause::NameByte(b' ') => format!(in alloc;
            "{word} is not a name: a space is not allowed in one."
        ),
        Cause::NameByte(byte) => {
            let byte = visible(alloc, &[byte])?;
            format!(in alloc; "{word} is not a name: {byte} is not allowed in one.")
        }
        Cause::NotName => format!(in alloc; "{word} is not a name."),
        _ => numeral_sentence(alloc, cause, word, other),
    }
}

/// The sentence on a numeral; the other text for another cause.
fn numeral_sentence(alloc: Global, cause: Cause, word: &str, other: &str) -> Sentence {
    match cause {
        Cause::NoNumeral(number) => format!(in alloc;
            "Parameter {number} of {other} is empty, and a numeral is expected."
        ),
        Cause::NotNumeral => format!(in alloc;
            "{word} is not a numeral: a numeral has digits with at most one point, and optionally a sign and an exponent of one to three digits."
        ),
        Cause::ManyDigits(count) => format!(in alloc;
            "The numeral {word} has {count} digits before its exponent, and at most 30 are read."
        ),
        Cause::BeyondLimit(Measure::Length) => format!(in alloc;
            "The numeral {word}, rounded to micrometres, is beyond the limit of 1000000 millimetres."
        ),
        Cause::BeyondLimit(Measure::Component) => format!(in alloc;
            "The numeral {word}, rounded to millionths, is beyond the limit of 1000 for a component of a direction."
        ),
        _ => String::from_str(alloc, other),
    }
}
