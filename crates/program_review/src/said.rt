// What statements say by themselves.

ghost use Rattle.std.specs.Prelude.{◌≡◌, IfOk};
ghost use Rattle.dmis_program.specs.Keywords.{keyword_of};
ghost use Rattle.program_review.specs.UnderSetup.{recalls_other, meaning_with, meaning_of, is_end};

use dmis_program::{
    Keyword, StatementFault, StatementMeaning, keyword_of_word, said_of, word_refusal,
};
use dmis_text::{Statement, Text};
use std::alloc::{AllocError, Global};
use std::marker::Model;

/// A statement, which contracts see alone, its keyword, and what it says by itself: nothing if it is refused for itself, its word is unknown,
/// or it recalls what is not read, as a `DA(..)`.
#[derive(Drop)]
pub(crate) struct Said<'s, 'a> {
    pub(crate) statement: &'s Statement<'a>,
    pub(crate) keyword: Keyword,
    pub(crate) meaning: Option<StatementMeaning>,
}

impl<'s, 'a> Model for Said<'s, 'a> {
    ghost use Rattle.std.specs.Prelude.{◌≡◌};
    ghost use Rattle.dmis_text.specs.declared.elements.Statement.{Statement};
    ghost use Rattle.dmis_program.specs.Keywords.{keyword_of};
    ghost use Rattle.program_review.specs.UnderSetup.{meaning_with};

    ghost Value = { Statement };

    ghost view = { λ s. s.statement.now };

    ghost invariant = { λ s. (s.keyword ≡ keyword_of s.statement.now.word)
        × (s.meaning ≡ meaning_with s.keyword s.statement.now) };
}

fn is_other_recall(keyword: Keyword, params: &[Text]) -> bool
    ensures { result ≡ recalls_other keyword params.now }
{
    keyword == Keyword::Recall && word_refusal(1, None, keyword, params).is_some()
}

fn meaning_of(
    alloc: Global,
    keyword: Keyword,
    statement: &Statement,
) -> Result<Option<StatementMeaning>, AllocError>
    ensures { IfOk result (λ meaning. meaning ≡ meaning_with keyword statement.now) }
{
    if keyword == Keyword::Unknown || is_other_recall(keyword, &statement.params) {
        return Ok(None);
    }
    match said_of(alloc, keyword, statement) {
        Ok(meaning) => Ok(Some(meaning)),
        Err(StatementFault::Refused(_)) => Ok(None),
        Err(StatementFault::Memory) => Err(AllocError),
    }
}

/// What each of these statements says. Fails only if out of memory.
pub(crate) fn said_in<'s, 'a>(
    alloc: Global,
    statements: &'s [Statement<'a>],
) -> Result<Vec<Said<'s, 'a>>, AllocError>
    ensures { IfOk result (λ all. all.items ≡ statements.now) }
{
    let mut all = Vec::new(alloc);
    for statement in statements {
        let keyword = keyword_of_word(&statement.word);
        let meaning = meaning_of(alloc, keyword, statement)?;
        all.push(Said {
            statement,
            keyword,
            meaning,
        })?;
    }
    Ok(all)
}

impl<'s, 'a> Said<'s, 'a> {
    pub(crate) fn line(&self) -> u64
        ensures { result ≡ self.now.line }
    {
        self.statement.line
    }

    pub(crate) fn keyword(&self) -> Keyword
        ensures { result ≡ keyword_of self.now.word }
    {
        self.keyword
    }

    pub(crate) fn meaning(&self) -> &Option<StatementMeaning>
        ensures { result.now ≡ meaning_of self.now }
    {
        &self.meaning
    }

    /// Whether the program ends with it, refused or not.
    pub(crate) fn is_end(&self) -> bool
        ensures { result ≡ is_end (keyword_of self.now.word) }
    {
        self.keyword == Keyword::Endfil
    }
}
