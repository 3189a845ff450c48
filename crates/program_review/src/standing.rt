// What is carried from statement to statement, past those that are refused.

ghost use Rattle.std.specs.Prelude.{◌≡◌, ◌≢◌, ◌≤◌};
ghost use Rattle.dmis_program.specs.Outcomes.{Gives};
ghost use Rattle.dmis_program.specs.Judging.{is_start, settled, judged};
ghost use Rattle.dmis_program.specs.Keywords.{keyword_of};
ghost use Rattle.program_review.specs.Refusals.{at_start, number_at, some_tool, due, one_more, one_less, lacking_said, is_selection, after_said, lacking_passed, is_tool_word, is_not_dmis, is_no_tool, number_passed, after_refused};

use dmis_program::{
    Frames, Keyword, Refusal, StatementFault, StatementMeaning, said_of, word_refusal,
};
use dmis_text::Statement;
use std::alloc::Global;

/// The most statements that a program may have (this profile).
const MOST_STATEMENTS: u64 = 10_000;

/// What the statements above leave for the one that is judged.
#[derive(Clone, Copy)]
pub(crate) struct Standing {
    /// How many statements count, at most one more than a program may have.
    pub(crate) number: u64,
    /// The first statement was no `DMISMN`, and none has come since.
    pub(crate) lacks_start: bool,
    /// A tool is selected, or it was said that none is.
    pub(crate) has_tool: bool,
    /// How many touches the open block still lacks; none if no block is open.
    pub(crate) lacking: Option<u64>,
}

fn one_more(number: u64) -> u64
    ensures { result ≡ one_more number }
{
    if number > MOST_STATEMENTS {
        number
    } else {
        number + 1
    }
}

fn one_less(lacking: Option<u64>) -> Option<u64>
    ensures { result ≡ one_less lacking }
{
    lacking.map(|count| count.saturating_sub(1))
}

fn lacking_said(meaning: &StatementMeaning, lacking: Option<u64>) -> Option<u64>
    ensures { result ≡ lacking_said meaning.now lacking }
{
    match meaning {
        StatementMeaning::Begins(_, count) => Some(*count),
        StatementMeaning::Touches(_, _) => one_less(lacking),
        StatementMeaning::Ends => None,
        _ => lacking,
    }
}

fn lacking_passed(keyword: Keyword, lacking: Option<u64>) -> Option<u64>
    ensures { result ≡ lacking_passed keyword lacking }
{
    match keyword {
        Keyword::Meas => Some(0),
        Keyword::Ptmeas => one_less(lacking),
        Keyword::Endmes => None,
        _ => lacking,
    }
}

fn number_passed(refusal: Refusal, number: u64) -> u64
    ensures { result ≡ number_passed refusal number }
{
    match refusal {
        Refusal::NotDmis | Refusal::TooLarge => one_more(number),
        _ => number.max(1),
    }
}

impl Standing {
    pub(crate) fn start() -> Standing
        ensures { result ≡ at_start }
    {
        Standing {
            number: 0,
            lacks_start: false,
            has_tool: false,
            lacking: None,
        }
    }

    fn number_at(self, keyword: Keyword) -> u64
        ensures { result ≡ number_at self keyword }
    {
        if self.lacks_start && matches!(keyword, Keyword::Dmismn) {
            return 0;
        }
        if self.number > MOST_STATEMENTS {
            return 1;
        }
        self.number
    }

    fn settled(
        self,
        frames: &Frames,
        meaning: StatementMeaning,
    ) -> Result<StatementMeaning, Refusal>
        ensures { result ≡ settled frames.now (some_tool self.has_tool) self.lacking 0 meaning }
    {
        match meaning {
            StatementMeaning::Touches(_, _) if !self.has_tool => Err(Refusal::NoTool),
            StatementMeaning::Ends if self.lacking.is_some_and(|count| count > 0) => {
                Err(Refusal::TooFewPoints)
            }
            StatementMeaning::Recalls(ref name) if frames.get(name).is_none() => {
                Err(Refusal::UnknownFrame)
            }
            _ => Ok(meaning),
        }
    }

    #[tactic(auto, unfolding(dmis_program::specs::Judging::judged))]
    pub(crate) fn judge(
        self,
        alloc: Global,
        frames: &Frames,
        keyword: Keyword,
        statement: &Statement,
    ) -> Result<StatementMeaning, StatementFault>
        requires { keyword ≡ keyword_of statement.now.word }
        ensures { Gives result (due frames.now self statement.now) }
    {
        let number = self.number_at(keyword);
        if number >= MOST_STATEMENTS {
            return Err(StatementFault::Refused(Refusal::TooLarge));
        }
        if let Some(refusal) = word_refusal(number, self.lacking, keyword, &statement.params) {
            return Err(StatementFault::Refused(refusal));
        }
        let meaning = said_of(alloc, keyword, statement)?;
        Ok(self.settled(frames, meaning)?)
    }

    pub(crate) fn after_said(self, keyword: Keyword, meaning: &StatementMeaning) -> Standing
        ensures { result ≡ after_said self keyword meaning.now }
    {
        Standing {
            number: one_more(self.number),
            lacks_start: self.lacks_start && !matches!(keyword, Keyword::Dmismn),
            has_tool: self.has_tool || matches!(meaning, StatementMeaning::Selects(_)),
            lacking: lacking_said(meaning, self.lacking),
        }
    }

    pub(crate) fn after_refused(self, keyword: Keyword, refusal: Refusal) -> Standing
        ensures { result ≡ after_refused self keyword refusal }
    {
        Standing {
            number: number_passed(refusal, self.number),
            lacks_start: matches!(refusal, Refusal::NotDmis)
                || (self.lacks_start && !matches!(keyword, Keyword::Dmismn)),
            has_tool: self.has_tool
                || matches!(keyword, Keyword::Snslct)
                || matches!(refusal, Refusal::NoTool),
            lacking: lacking_passed(keyword, self.lacking),
        }
    }
}
