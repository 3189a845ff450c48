// The statement that is refused, and where its words are.

ghost use Rattle.std.specs.Prelude.{◌≡◌};
ghost use Rattle.dmis_program.specs.Keywords.{keyword_of};
ghost use Rattle.program_review.specs.Words.{named_by, given};
ghost use Rattle.program_review.specs.Spots.{after_word, after_label, after_params, word_from, part_spot, word_spot, param_spot, at_word, at_param, site_of};

use crate::causes::Cause;
use crate::words::{Fault, Word, place_from};
use dmis_program::{Keyword, keyword_of_word};
use dmis_text::{Statement, Text};

/// A statement, and the text from the line on which it begins.
#[derive(Clone, Copy)]
pub(crate) struct Found<'s, 'a> {
    pub(crate) rest: &'a [u8],
    pub(crate) statement: &'s Statement<'a>,
}

fn behind(text: &[u8], from: Option<usize>, wanted: &[u8]) -> Option<usize>
    ensures { result ≡ after_word text.now from wanted.now }
{
    let at = place_from(text, from?, wanted)?;
    Some(at + wanted.len())
}

impl<'s, 'a> Found<'s, 'a> {
    pub(crate) fn keyword(&self) -> Keyword
        ensures { result ≡ keyword_of self.now.statement.now.word }
    {
        keyword_of_word(&self.statement.word)
    }

    fn behind_label(&self) -> Option<usize>
        ensures { result ≡ after_label self.now.rest.now self.now.statement.now.label }
    {
        match &self.statement.label {
            Some(label) => behind(self.rest, Some(0), label),
            None => Some(0),
        }
    }

    fn behind_params(&self, count: usize) -> Option<usize>
        ensures { result ≡ after_params self.now.rest.now self.now.statement.now count }
    {
        let mut place = behind(self.rest, self.behind_label(), &self.statement.word);
        let params: &[Text] = &self.statement.params;
        let (front, _) = params.split_at(count.min(params.len()));
        for param in front {
            place = behind(self.rest, place, param);
        }
        place
    }

    fn word_from(&self, place: Option<usize>, wanted: &'s [u8]) -> Word<'s>
        ensures { named_by result ≡ word_from self.now.rest.now place wanted.now }
    {
        match place {
            Some(place) => Word::found(self.rest, place, wanted),
            None => Word::of_bytes(wanted),
        }
    }

    pub(crate) fn word(&self) -> Word<'s>
        ensures { named_by result ≡ word_spot self.now.rest.now self.now.statement.now }
    {
        self.in_word(&self.statement.word)
    }

    pub(crate) fn in_word(&self, part: &'s [u8]) -> Word<'s>
        ensures { named_by result ≡ part_spot self.now.rest.now self.now.statement.now part.now }
    {
        self.word_from(self.behind_label(), part)
    }

    /// A part of the parameter of this number, counted from 0.
    pub(crate) fn in_param(&self, index: usize, part: &'s [u8]) -> Word<'s>
        ensures { named_by result
            ≡ param_spot self.now.rest.now self.now.statement.now index part.now }
    {
        self.word_from(self.behind_params(index), part)
    }

    /// That the word is at fault.
    pub(crate) fn at_word(&self, cause: Cause) -> Option<Fault<'s>>
        ensures { given result ≡ at_word (site_of self.now) cause }
    {
        let word = self.word();
        Some(Fault { cause, word })
    }

    /// That a part of the parameter of this number is at fault.
    pub(crate) fn at_param(&self, index: usize, part: &'s [u8], cause: Cause) -> Option<Fault<'s>>
        ensures { given result ≡ at_param (site_of self.now) index part.now cause }
    {
        let word = self.in_param(index, part);
        Some(Fault { cause, word })
    }
}
