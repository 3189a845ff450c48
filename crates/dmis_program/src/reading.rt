ghost use Rattle.std.specs.Prelude.{false, Ok, ◌≡◌, ◌<◌, ◌≤◌, [], ◌∷◌, ◌++◌, OnOk, Option, Some, None};
ghost use Rattle.dmis_program.specs.Names.{keyword_of, word_refusal, settled, misplaced, is_start, is_unsupported, closes, no_statement, context_of, with_step, changed, recalled_at, follows, next, GivesNext};

use crate::faults::{ProgramFault, Refusal, StatementFault};
use crate::features::{Touch, Touches, Wanted};
use crate::keywords::{Keyword, read_keyword};
use crate::offsets::Frames;
use crate::parameters::{is_other_coordinates, is_other_recall};
use crate::programs::Program;
use crate::sayings::{StatementMeaning, is_block_end, moved, said_of, touched};
use crate::steps::Step;
use dmis_text::{Statement, Text};
use fixed_um::{Dir, Frame, Name, Point};
use std::alloc::{AllocError, Global};
use std::marker::Model;

/// The most statements that a program may have (this profile).
const MOST_STATEMENTS: u64 = 10_000;

/// The most touches of a block for which room is made at once.
const USUAL_TOUCHES: u64 = 64;

/// The open block: its feature's label, and how many touches it asks for.
#[derive(Drop)]
pub(crate) struct Block {
    pub(crate) label: Name,
    pub(crate) wanted: u64,
}

/// What is carried from statement to statement.
#[derive(Drop)]
pub(crate) struct Reader {
    alloc: Global,
    count: u64,
    tool: Option<Name>,
    frame: Frame,
    block: Option<Block>,
    touches: Vec<Touch>,
    features: Vec<Wanted>,
    steps: Vec<Step>,
}

impl Model for Reader {
    ghost use Rattle.dmis_program.specs.Carrying.{ReaderState};

    ghost Value = { ReaderState };

    ghost view = { λ r. record { number = r.count; tool = r.tool; frame = r.frame; open_block = r.block; touches = r.touches.items; done = r.features.items; steps = r.steps.items } };
}

fn is_start(keyword: Keyword) -> bool
    ensures { result ≡ is_start keyword }
{
    match keyword {
        Keyword::Dmismn => true,
        _ => false,
    }
}

/// Whether this profile does not read a statement.
fn is_unsupported(first: bool, keyword: Keyword, params: &[Text]) -> bool
    ensures { result ≡ is_unsupported first keyword params.now }
{
    match keyword {
        Keyword::Dmismn => !first,
        Keyword::Goto => is_other_coordinates(params),
        Keyword::Ptmeas => is_other_coordinates(params),
        Keyword::Recall => is_other_recall(params),
        Keyword::Unknown => true,
        _ => false,
    }
}

/// The refusal of a statement that is in the wrong place.
fn misplaced(keyword: Keyword, wanted: Option<u64>) -> Option<Refusal>
    ensures { result ≡ misplaced keyword wanted }
{
    match (keyword, wanted) {
        (Keyword::Ptmeas, None) => Some(Refusal::OutsideBlock),
        (Keyword::Endmes, None) => Some(Refusal::OutsideBlock),
        (Keyword::Meas, Some(_)) => Some(Refusal::InsideBlock),
        (Keyword::Endfil, Some(_)) => Some(Refusal::InsideBlock),
        _ => None,
    }
}

/// What the word of a statement and its place alone refuse: after this many statements, in a block that asks for this many touches, or in
/// none.
pub fn word_refusal(
    count: u64,
    wanted: Option<u64>,
    keyword: Keyword,
    params: &[Text],
) -> Option<Refusal>
    ensures { result ≡ word_refusal count wanted keyword params.now }
{
    let first = count == 0;
    if first && !is_start(keyword) {
        return Some(Refusal::NotDmis);
    }
    if is_unsupported(first, keyword, params) {
        return Some(Refusal::Unsupported);
    }
    misplaced(keyword, wanted)
}

impl Reader {
    ghost use Rattle.dmis_program.specs.Carrying.{no_statement, context_of, with_step, changed, recalled_at, follows, next, GivesNext};
    ghost use Rattle.dmis_program.specs.Meaning.{closes, without_end};
    ghost use Rattle.dmis_program.specs.Outcomes.{refused_at};
    ghost use Rattle.dmis_program.specs.Programs.{IsProgram};

    /// Before any statement.
    pub(crate) fn new(alloc: Global) -> Reader
        ensures { result ≡ no_statement }
    {
        Reader {
            alloc,
            count: 0,
            tool: None,
            frame: Frame::Machine,
            block: None,
            touches: Vec::new(alloc),
            features: Vec::new(alloc),
            steps: Vec::new(alloc),
        }
    }

    /// How many touches the open block asks for.
    fn wanted(&self) -> Option<u64>
        ensures { result ≡ (context_of self.now).wanted }
    {
        match &self.block {
            Some(block) => Some(block.wanted),
            None => None,
        }
    }

    #[inline(always)]
    fn step(&mut self, step: Step) -> Result<(), AllocError>
        ensures { OnOk result (self.new ≡ with_step self.old step) }
    {
        self.steps.push(step)?;
        Ok(())
    }

    /// `MEAS`: a block begins. Stored frames play no part.
    fn begin(&mut self, label: Name, wanted: u64) -> Result<bool, StatementFault>
        ensures { GivesNext result self.new (Ok (
          false,
          changed [] self.old (StatementMeaning.Begins label wanted),
        )) }
    {
        self.step(Step::Begin(label.copy(self.alloc)?))?;
        self.touches
            .reserve_exact(wanted.min(USUAL_TOUCHES) as usize)?;
        self.block = Some(Block { label, wanted });
        Ok(false)
    }

    /// `PTMEAS`: a touch with the selected tool and frame. It is in the steps and in the block.
    fn touch(&mut self, target: Point, dir: Option<Dir>) -> Result<bool, StatementFault>
        ensures { GivesNext result self.new (follows [] self.old (StatementMeaning.Touches target dir)) }
    {
        let Some(tool) = &self.tool else {
            return Err(StatementFault::Refused(Refusal::NoTool));
        };
        let tool = tool.copy(self.alloc)?;
        let touch = Touch {
            target,
            dir,
            tool,
            frame: self.frame,
        };
        let copy = touch.copy(self.alloc)?;
        self.touches.push(touch)?;
        self.step(Step::Touch(copy))?;
        Ok(false)
    }

    /// `ENDMES`: the block is a feature.
    fn end(&mut self) -> Result<bool, StatementFault>
        ensures { GivesNext result self.new (follows [] self.old StatementMeaning.Ends) }
    {
        if let Some(Block { label, wanted }) = self.block.take() {
            if (self.touches.len() as u64) < wanted {
                return Err(StatementFault::Refused(Refusal::TooFewPoints));
            }
            let touches = Touches::new(std::mem::replace(&mut self.touches, Vec::new(self.alloc)));
            self.features.push(Wanted { label, touches })?;
        }
        self.step(Step::End)?;
        Ok(false)
    }

    /// `SNSLCT`: a tool is selected.
    fn select(&mut self, tool: Name) -> Result<bool, StatementFault>
        ensures { GivesNext result self.new (Ok (false, changed [] self.old (StatementMeaning.Selects tool))) }
    {
        self.step(Step::Tool(tool.copy(self.alloc)?))?;
        self.tool = Some(tool);
        Ok(false)
    }

    /// `RECALL/D`: a stored frame is selected.
    fn recall(&mut self, frames: &Frames, name: Name) -> Result<bool, StatementFault>
        ensures { GivesNext result self.new (follows frames.now self.old (StatementMeaning.Recalls name)) }
    {
        let Some(offset) = frames.get(&name) else {
            return Err(StatementFault::Refused(Refusal::UnknownFrame));
        };
        let zero_point = offset;
        self.step(Step::Recall(offset))?;
        self.frame = Frame::Part(zero_point);
        Ok(false)
    }

    /// Continues with what a statement says. True at the end of the program.
    fn follow(&mut self, frames: &Frames, said: StatementMeaning) -> Result<bool, StatementFault>
        ensures { GivesNext result self.new (follows frames.now self.old said) }
    {
        match said {
            StatementMeaning::Goes(target) => {
                self.step(Step::Goto(target))?;
                Ok(false)
            }
            StatementMeaning::Begins(label, wanted) => self.begin(label, wanted),
            StatementMeaning::Touches(target, dir) => self.touch(target, dir),
            StatementMeaning::Ends => self.end(),
            StatementMeaning::Selects(tool) => self.select(tool),
            StatementMeaning::Recalls(name) => self.recall(frames, name),
            StatementMeaning::Closes => Ok(true),
            StatementMeaning::Passes => Ok(false),
        }
    }

    /// Takes one more statement. True at the end of the program. After an `Err` the reader is of no further use.
    #[tactic(auto, unfolding(crate::specs::Judging::judged))]
    pub(crate) fn read(
        &mut self,
        frames: &Frames,
        statement: &Statement,
    ) -> Result<bool, StatementFault>
        ensures { GivesNext result self.new (next frames.now self.old statement.now) }
    {
        if self.count >= MOST_STATEMENTS {
            return Err(StatementFault::Refused(Refusal::TooLarge));
        }
        let keyword = read_keyword(&statement.word);
        let params = &statement.params;
        if let Some(refusal) = word_refusal(self.count, self.wanted(), keyword, params) {
            return Err(StatementFault::Refused(refusal));
        }
        match keyword {
            Keyword::Goto => {
                if let Some(target) = moved(statement) {
                    self.count += 1;
                    self.step(Step::Goto(target))?;
                    return Ok(false);
                }
            }
            Keyword::Ptmeas => {
                if let Some((target, direction)) = touched(statement) {
                    self.count += 1;
                    return self.touch(target, Some(direction));
                }
            }
            Keyword::Endmes => {
                if is_block_end(statement) {
                    self.count += 1;
                    return self.end();
                }
            }
            _ => {}
        }
        self.read_any(frames, keyword, statement)
    }

    /// Takes a statement of any kind, which is accepted for its word and its place.
    #[inline(never)]
    #[tactic(auto, unfolding(crate::specs::Judging::judged))]
    fn read_any(
        &mut self,
        frames: &Frames,
        keyword: Keyword,
        statement: &Statement,
    ) -> Result<bool, StatementFault>
        requires count { self.old.number < 10000 }
        requires keyword { keyword ≡ keyword_of statement.now.word }
        requires known { word_refusal self.old.number (context_of self.old).wanted keyword
            statement.now.params ≡ None }
        ensures { GivesNext result self.new (next frames.now self.old statement.now) }
    {
        let said = said_of(self.alloc, keyword, statement)?;
        self.count += 1;
        self.follow(frames, said)
    }

    /// The refusal of a text that ends here, without an `ENDFIL`, and has that many lines.
    pub(crate) fn missing_end(&self, lines: u64) -> ProgramFault
        ensures { result ≡ refused_at (without_end self.now.number lines) }
    {
        if self.count == 0 {
            ProgramFault::Refused(Refusal::NotDmis, 1)
        } else {
            ProgramFault::Refused(Refusal::Truncated, lines)
        }
    }

    pub(crate) fn finish(self) -> Program
        requires { IsProgram (record { features = self.done; steps = self.steps }) }
        ensures { result ≡ record { features = self.done; steps = self.steps } }
    {
        let Reader {
            alloc: _,
            count: _,
            tool: _,
            frame: _,
            block: _,
            touches: _,
            features,
            steps,
        } = self;
        Program::new(features, steps)
    }
}
