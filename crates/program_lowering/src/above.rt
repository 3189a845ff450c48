// What the statements above leave for the one that is judged.

ghost use Rattle.std.specs.Prelude.{◌≡◌, ◌≤◌, ◌<◌, ◌+◌, IfOk};
ghost use Rattle.dmis_program.specs.Judging.{is_too_few, settled, judged};
ghost use Rattle.dmis_program.specs.Keywords.{keyword_of};
ghost use Rattle.dmis_program.specs.Outcomes.{Gives};
ghost use Rattle.dmis_program.specs.declared.sayings.StatementMeaning.TheVariants.{Recalls};
ghost use Rattle.program_lowering.specs.Carried.{none_above, some_tool, due, after_said, frame_due};

use crate::inches::said_in;
use dmis_program::{Frames, Keyword, Refusal, StatementFault, StatementMeaning, word_refusal};
use dmis_text::Statement;
use fixed_um::Name;
use std::alloc::Global;

/// The most statements that a program may have (this profile).
const MOST_STATEMENTS: u64 = 10_000;

/// What the statements above leave for the one that is judged.
#[derive(Clone, Copy)]
pub(crate) struct Above {
    /// How many they are, without those that are left out.
    pub(crate) number: u64,
    /// Whether a tool is selected.
    pub(crate) has_tool: bool,
    /// How many touches the open block asks for; none if no block is open.
    pub(crate) wanted: Option<u64>,
    /// How many touches there are since a block began or ended.
    pub(crate) touched: u64,
}

impl Above {
    /// Before any statement.
    pub(crate) fn none() -> Above
        ensures { result ≡ none_above }
    {
        Above {
            number: 0,
            has_tool: false,
            wanted: None,
            touched: 0,
        }
    }

    /// Whether the open block has fewer touches than it asks for.
    fn is_too_few(self) -> bool
        ensures { result ≡ is_too_few self.wanted self.touched }
    {
        match self.wanted {
            Some(count) => self.touched < count,
            None => false,
        }
    }

    /// What the selections and the count of touches above refuse.
    fn settled(
        self,
        frames: &Frames,
        meaning: StatementMeaning,
    ) -> Result<StatementMeaning, Refusal>
        ensures { result ≡ settled frames.now (some_tool self.has_tool) self.wanted self.touched
            meaning }
    {
        match meaning {
            StatementMeaning::Touches(target, dir) => {
                if self.has_tool {
                    Ok(StatementMeaning::Touches(target, dir))
                } else {
                    Err(Refusal::NoTool)
                }
            }
            StatementMeaning::Ends => {
                if self.is_too_few() {
                    Err(Refusal::TooFewPoints)
                } else {
                    Ok(StatementMeaning::Ends)
                }
            }
            StatementMeaning::Recalls(name) => {
                if frames.get(&name).is_none() {
                    return Err(Refusal::UnknownFrame);
                }
                Ok(StatementMeaning::Recalls(name))
            }
            other => Ok(other),
        }
    }

    /// What a statement with this keyword says here, where the unit is the inch or not, or the refusal that is due.
    #[tactic(auto, unfolding(crate::specs::Carried::judged_in))]
    pub(crate) fn judge(
        self,
        alloc: Global,
        frames: &Frames,
        inches: bool,
        keyword: Keyword,
        statement: &Statement,
    ) -> Result<StatementMeaning, StatementFault>
        requires { keyword ≡ keyword_of statement.now.word }
        ensures due { Gives result (due frames.now self inches statement.now) }
        ensures few { IfOk result (λ _. self.number < 10000) }
    {
        if self.number >= MOST_STATEMENTS {
            return Err(StatementFault::Refused(Refusal::TooLarge));
        }
        if let Some(refusal) = word_refusal(self.number, self.wanted, keyword, &statement.params) {
            return Err(StatementFault::Refused(refusal));
        }
        let meaning = said_in(alloc, inches, keyword, statement)?;
        Ok(self.settled(frames, meaning)?)
    }

    /// What a statement that selects a stored frame says here, or the refusal that is due.
    pub(crate) fn judge_frame(
        self,
        frames: &Frames,
        name: Name,
    ) -> Result<StatementMeaning, StatementFault>
        ensures due { Gives result (frame_due frames.now self name) }
        ensures says { IfOk result (λ m. m ≡ Recalls name) }
        ensures few { IfOk result (λ _. self.number < 10000) }
    {
        if self.number >= MOST_STATEMENTS {
            return Err(StatementFault::Refused(Refusal::TooLarge));
        }
        if self.number == 0 {
            return Err(StatementFault::Refused(Refusal::NotDmis));
        }
        Ok(self.settled(frames, StatementMeaning::Recalls(name))?)
    }

    /// After a statement that says this.
    pub(crate) fn after(self, meaning: &StatementMeaning) -> Above
        requires { (self.number < 10000) × (self.touched ≤ self.number) }
        ensures above { result ≡ after_said self meaning.now }
        ensures few { (result.number ≤ 10000) × (result.touched ≤ result.number) }
    {
        let next = Above {
            number: self.number + 1,
            ..self
        };
        match meaning {
            StatementMeaning::Begins(_, count) => Above {
                wanted: Some(*count),
                touched: 0,
                ..next
            },
            StatementMeaning::Touches(_, _) => Above {
                touched: self.touched + 1,
                ..next
            },
            StatementMeaning::Ends => Above {
                wanted: None,
                touched: 0,
                ..next
            },
            StatementMeaning::Selects(_) => Above {
                has_tool: true,
                ..next
            },
            _ => next,
        }
    }
}
