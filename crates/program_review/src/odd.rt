// Statements that are probably not meant as they are written. No clause says which they are.

use crate::remarks::{Remark, What, push_remark};
use crate::said::Said;
use dmis_program::{Keyword, StatementMeaning};
use dmis_text::{Statement, Text};
use fixed_um::Dir;
use std::alloc::{AllocError, Global};
use std::collections::{BTreeMap, BTreeSet};

/// Why a statement is odd.
#[derive(Clone, Copy, Debug, PartialEq, Eq)]
pub enum Odd {
    /// The length of a touch's direction is not 1 within a tenth of a per cent.
    Direction,
    /// The first move of the program comes before any tool is selected.
    MoveBeforeTool,
    /// A block ends with more touches than its `MEAS` names.
    MoreTouches,
    /// The word is not known, and one letter away from one that is (`near_word`).
    NearWord,
    /// The text begins with a byte order mark.
    Mark,
    /// No `FEAT` above defines the feature that a `MEAS` measures.
    NoDefinition,
    /// A `MEAS` is of another kind than the last `FEAT` above of its label.
    OtherKind,
    /// A `MEAS` above measures a feature of the same label.
    MeasuredTwice,
    /// A `FEAT` above defines a feature of the same label.
    DefinedTwice,
}

/// The words that a program may have.
const WORDS: [&str; 23] = [
    "DMISMN", "GOTO", "MEAS", "PTMEAS", "ENDMES", "SNSLCT", "RECALL", "ENDFIL", "UNITS", "MODE",
    "FEAT", "TOL", "SNSDEF", "FILNAM", "FEDRAT", "ACLRAT", "SNSET", "FINPOS", "PRCOMP", "WKPLAN",
    "TEXT", "DISPLY", "OUTPUT",
];

/// Whether two different words differ in one letter, which is another, lacking or added, or in two next to each other that are exchanged.
fn is_near(word: &[u8], other: &[u8]) -> bool {
    let same = word
        .iter()
        .zip(other)
        .take_while(|(a, b)| **a == **b)
        .count();
    let (_, word) = word.split_at(same.min(word.len()));
    let (_, other) = other.split_at(same.min(other.len()));
    match (word, other) {
        ([a, b, rest @ ..], [c, d, others @ ..]) if *a == *d && *b == *c && rest == others => true,
        ([_, rest @ ..], [_, others @ ..]) => rest == others || rest == other || word == others,
        _ => word.len().saturating_add(other.len()) == 1,
    }
}

/// The first word of those that a program may have that is one letter away from this one; none if there is none, and for a word of less than
/// four letters.
pub(crate) fn near_word(word: &[u8]) -> Option<&'static str> {
    if word.len() < 4 {
        return None;
    }
    WORDS
        .iter()
        .find(|other| is_near(word, other.as_bytes()))
        .copied()
}

fn square(component: i64) -> u64 {
    let size = component.unsigned_abs();
    size.saturating_mul(size)
}

/// Whether the length of a direction is 1 within a tenth of a per cent; its components are millionths.
fn is_of_length_one(direction: Dir) -> bool {
    let whole = square(i64::from(direction.i))
        .saturating_add(square(i64::from(direction.j)))
        .saturating_add(square(i64::from(direction.k)));
    998_001_000_000 <= whole && whole <= 1_002_001_000_000
}

/// How far a program has come.
#[derive(Drop)]
struct Course {
    alloc: Global,
    has_tool: bool,
    has_moved: bool,
    wanted: u64,
    touches: u64,
    /// The kind of each defined feature, by its label.
    kinds: BTreeMap<Vec<u8>, Vec<u8>>,
    /// The labels of the measured ones.
    measured: BTreeSet<Vec<u8>>,
}

impl Course {
    fn start(alloc: Global) -> Course {
        Course {
            alloc,
            has_tool: false,
            has_moved: false,
            wanted: 0,
            touches: 0,
            kinds: BTreeMap::new(alloc),
            measured: BTreeSet::new(alloc),
        }
    }

    /// After a definition; why it is odd, if it is.
    fn define(&mut self, statement: &Statement) -> Result<Option<Odd>, AllocError> {
        let word: &[u8] = &statement.word;
        if let (Some(label), [kind, ..]) = (&statement.label, &*statement.params)
            && word == "FEAT".as_bytes()
        {
            let label = Vec::from_slice(self.alloc, label)?;
            let kind = Vec::from_slice(self.alloc, kind)?;
            let before = self.kinds.insert(label, kind)?;
            return Ok(before.map(|_| Odd::DefinedTwice));
        }
        Ok(None)
    }

    /// After a `MEAS` with these parameters; why it is odd, if it is.
    fn measure(&mut self, params: &[Text]) -> Result<Option<Odd>, AllocError> {
        let [kind, label, ..] = params else {
            return Ok(None);
        };
        let label = Vec::from_slice(self.alloc, label)?;
        let kind: &[u8] = kind;
        let odd = match self.kinds.get(&label) {
            Some(defined) if defined.as_slice() == kind => None,
            Some(_) => Some(Odd::OtherKind),
            None => Some(Odd::NoDefinition),
        };
        if self.measured.insert(label)? {
            Ok(odd)
        } else {
            Ok(Some(Odd::MeasuredTwice))
        }
    }

    /// After a statement of this word that is refused for itself.
    fn pass_refused(&mut self, keyword: Keyword) {
        match keyword {
            Keyword::Goto => self.has_moved = true,
            Keyword::Meas | Keyword::Endmes => self.wanted = 0,
            Keyword::Ptmeas => self.touches = self.touches.saturating_add(1),
            Keyword::Snslct => self.has_tool = true,
            _ => {}
        }
    }

    /// After a statement that says this; why it is odd, if it is.
    fn pass_said(&mut self, meaning: &StatementMeaning) -> Option<Odd> {
        let mut odd = None;
        match meaning {
            StatementMeaning::Goes(_) => {
                if !self.has_moved && !self.has_tool {
                    odd = Some(Odd::MoveBeforeTool);
                }
                self.has_moved = true;
            }
            StatementMeaning::Begins(_, count) => {
                self.wanted = *count;
                self.touches = 0;
            }
            StatementMeaning::Touches(_, direction) => {
                self.touches = self.touches.saturating_add(1);
                if direction.is_some_and(|direction| !is_of_length_one(direction)) {
                    odd = Some(Odd::Direction);
                }
            }
            StatementMeaning::Ends => {
                if self.wanted > 0 && self.touches > self.wanted {
                    odd = Some(Odd::MoreTouches);
                }
                self.wanted = 0;
            }
            StatementMeaning::Selects(_) => self.has_tool = true,
            _ => {}
        }
        odd
    }

    /// After a statement; why it is odd, if it is.
    fn pass(&mut self, said: &Said) -> Result<Option<Odd>, AllocError> {
        let keyword = said.keyword();
        if keyword == Keyword::Unknown {
            return Ok(near_word(&said.statement.word).map(|_| Odd::NearWord));
        }
        let Some(meaning) = said.meaning() else {
            self.pass_refused(keyword);
            return Ok(None);
        };
        let odd = self.pass_said(meaning);
        match keyword {
            Keyword::Definition => self.define(said.statement),
            Keyword::Meas => self.measure(&said.statement.params),
            _ => Ok(odd),
        }
    }
}

/// Each of these statements of a text that is probably not meant as it is written, up to `ENDFIL`, one remark a statement. Statements that are
/// refused for themselves are not odd, but for words that are not known. Fails only if out of memory.
pub(crate) fn odd_statements(
    alloc: Global,
    text: &[u8],
    statements: &[Said],
) -> Result<Vec<Remark>, AllocError> {
    let mut course = Course::start(alloc);
    let mut remarks = Vec::new(alloc);
    if text.starts_with(b"\xEF\xBB\xBF") {
        push_remark(&mut remarks, Some(What::Odd(Odd::Mark)), 1)?;
    }
    for said in statements {
        if said.is_end() {
            break;
        }
        let odd = course.pass(said)?;
        push_remark(&mut remarks, odd.map(|odd| What::Odd(odd)), said.line())?;
    }
    Ok(remarks)
}
