// The statements of a text in the order in which they are carried out.

ghost use Rattle.std.specs.Prelude.{◌≡◌, ◌<◌, ◌∷◌, ◌++◌, [], List, IfOk, IfSome, OnOk, map};
ghost use Rattle.dmis_text.specs.declared.elements.Statement.{Statement};
ghost use Rattle.program_flow.specs.LookBack.{Holds};
ghost use Rattle.program_flow.specs.Variables.{entry_value};
ghost use Rattle.std.specs.Option.{option_map};
ghost use Rattle.program_flow.specs.Calls.{Frame, Step, carried_out, decides, decision, decision_at, given_up_in, is_lead, is_of_flow, lead_text, line_digits, next_of, step, told, told_step};
ghost use Rattle.program_flow.specs.Macros.{said_by};
ghost use Rattle.program_flow.specs.Flow.{given_up};
ghost use Rattle.program_flow.specs.Left.{GivesNext, IsGiven, frames_of, left_of, size};
ghost use Rattle.program_flow.specs.Named.{IsNext, seen_call, top_to};
ghost use Rattle.program_flow.specs.Stepped.{HasEnded, Leads, Steps, ended_on};

use crate::blocks::{Move, Part, from, part_of};
use crate::calls::{Call, Outcome, outcome_at, outcome_in};
use crate::lines::Line;
use crate::macros::{begins_macro, ends_macro, is_call, is_macro_name, split};
use crate::positions::Position;
use crate::variables::Variables;
use dmis_text::Statement;
use itoa::Buffer;
use std::alloc::{AllocError, Global};
use std::marker::Model;

/// How many turns a text has at most.
const MOST: u64 = 1_000_000;

/// A statement that comes out.
#[derive(Drop)]
pub enum Given {
    /// That in this place of the text outside macros.
    Stated(usize),
    /// The one that this text says, as if it were on this line.
    Made(u64, Vec<u8>),
}

/// What one turn gives.
#[derive(Drop)]
pub enum Stepped {
    Ends,
    Passes,
    Gives(Given),
    /// What cannot be followed, the last.
    Stops(Given),
}

/// The statements of a text in the order in which they are carried out.
#[derive(Drop)]
pub struct Flow<'a> {
    macros: Vec<Statement<'a>>,
    calls: Vec<Call>,
    outside: Vec<Statement<'a>>,
    position: Position,
    turns: u64,
}

impl<'a> Model for Flow<'a> {
    ghost use Rattle.std.specs.Prelude.{map};
    ghost use Rattle.program_flow.specs.Left.{Left};
    ghost use Rattle.program_flow.specs.Named.{seen_call, seen_position};

    ghost Value = { Left };

    ghost view = { λ f. record { macros = f.macros.items; calls = map seen_call f.calls.items; outside = f.outside.items; control = seen_position f.position; turns = f.turns } };
}

/// Appends the digits of a line's number.
#[tactic(auto, using(crate::proofs::Steps::line_digits_are))]
fn push_digits(out: &mut Vec<u8>, line: u64) -> Result<(), AllocError>
    ensures { OnOk result (out.new.items ≡ out.old.items ++ line_digits line) }
{
    let mut digits = Buffer::new();
    out.extend_from_slice(digits.format(line).as_bytes())
}

/// Whether a part decides what follows.
fn decides(part: Part) -> bool
    ensures { result ≡ decides part }
{
    matches!(part, Part::If | Part::Select | Part::Jump)
}

/// The line and the word of a statement, if it decides what follows.
fn decision_of(alloc: Global, statement: &Statement) -> Result<Option<(u64, Vec<u8>)>, AllocError>
    ensures { IfOk result (λ made. option_map (λ d. (d.0, d.1.items)) made
        ≡ decision statement.now) }
{
    if !is_call(statement) && !decides(part_of(statement)) {
        return Ok(None);
    }
    Ok(Some((statement.line, Vec::from_slice(alloc, &statement.word)?)))
}

/// Whether a statement that comes out says only what was decided: an `IF`, a `SELECT`, a `JUMPTO` or a `CALL` with a parameter, the line of the next
/// statement.
pub fn is_lead(statement: &Statement) -> bool
    ensures { result ≡ is_lead statement.now }
{
    (is_call(statement) || decides(part_of(statement))) && !statement.params.is_empty()
}

/// Whether a statement decides which statements are carried out, or says where they are: one of a block, a label, a macro or the call of one.
pub fn is_of_flow(statement: &Statement) -> bool
    ensures { result ≡ is_of_flow statement.now }
{
    if is_call(statement) {
        let name = statement.params.first();
        return name.is_some_and(|name| is_macro_name(name));
    }
    begins_macro(statement) || ends_macro(statement) || !matches!(part_of(statement), Part::Other)
}

impl<'a> Flow<'a> {
    /// At the first statement of a text.
    pub fn new(alloc: Global, text: Vec<Statement<'a>>) -> Result<Flow<'a>, AllocError>
        ensures { IfOk result (λ flow. left_of flow [] ≡ carried_out text.entry.items) }
    {
        let (outside, macros) = split(alloc, text)?;
        Ok(Flow {
            macros,
            calls: Vec::new(alloc),
            outside,
            position: Position::new(alloc),
            turns: MOST,
        })
    }

    /// The statements of the text outside macros.
    pub fn outside(&self) -> &[Statement<'a>]
        ensures { result.now ≡ self.now.outside }
    {
        self.outside.as_slice()
    }

    /// What follows at the next statement.
    fn outcome(&self, alloc: Global, variables: &Variables) -> Result<Outcome, AllocError>
        ensures { IfOk result (λ led. Leads (frames_of self.now) led
            (step self.now.macros (entry_value variables.now) (frames_of self.now))) }
    {
        if let [call, ..] = self.calls.as_slice() {
            return outcome_in(alloc, &self.macros, &self.calls, call, variables);
        }
        outcome_at(
            alloc,
            &self.macros,
            &self.calls,
            &self.outside,
            &self.position,
            variables,
        )
    }

    /// Goes where a move leads.
    fn go(&mut self, target: Move) -> Result<(), AllocError>
        ensures frames { OnOk result (frames_of self.new ≡ top_to target (frames_of self.old)) }
        ensures outside { self.new.outside ≡ self.old.outside }
        ensures macros { self.new.macros ≡ self.old.macros }
        ensures turns { self.new.turns ≡ self.old.turns }
    {
        if self.calls.is_empty() {
            return self.position.go(target);
        }
        let mut call = self.calls.remove(0);
        call.position.go(target)?;
        Ok(self.calls.insert(0, call)?)
    }

    /// The next statement, as it is given.
    fn here(&self, alloc: Global) -> Result<Given, AllocError>
        requires { (s : Statement) × IsNext (frames_of self.now) s }
        ensures { (s : Statement) → IsNext (frames_of self.now) s
            → IfOk result (λ given. IsGiven self.now.outside given s) }
    {
        let Some(call) = self.calls.first() else {
            return Ok(Given::Stated(self.position.place));
        };
        call.lines[call.position.place].given(alloc)
    }

    /// Comes to the end.
    fn end(&mut self)
        ensures ended { HasEnded self.new }
        ensures outside { self.new.outside ≡ self.old.outside }
        ensures macros { self.new.macros ≡ self.old.macros }
        ensures turns { self.new.turns ≡ self.old.turns }
    {
        self.calls.clear();
        self.position.place = self.outside.len();
    }

    /// Leaves the macro that was called last.
    fn leave(&mut self)
        ensures frames { (f g : Frame) (outer : List Frame)
            → frames_of self.old ≡ f ∷ (g ∷ outer) → frames_of self.new ≡ g ∷ outer }
        ensures outside { self.new.outside ≡ self.old.outside }
        ensures macros { self.new.macros ≡ self.old.macros }
        ensures turns { self.new.turns ≡ self.old.turns }
    {
        if !self.calls.is_empty() {
            self.calls.remove(0);
        }
    }

    /// Does what follows.
    fn follow(&mut self, alloc: Global, outcome: Outcome) -> Result<Stepped, AllocError>
        requires { (due : Step) × Leads (frames_of self.old) outcome due }
        ensures step { (due : Step) → Leads (frames_of self.old) outcome due
            → IfOk result (λ stepped. Steps stepped self.new due) }
        ensures outside { self.new.outside ≡ self.old.outside }
        ensures macros { self.new.macros ≡ self.old.macros }
        ensures turns { self.new.turns ≡ self.old.turns }
    {
        match outcome {
            Outcome::Ends => Ok(Stepped::Ends),
            Outcome::Leaves => {
                self.leave();
                Ok(Stepped::Passes)
            }
            Outcome::Stops => {
                let given = self.here(alloc)?;
                self.end();
                Ok(Stepped::Stops(given))
            }
            Outcome::Passes(target) => {
                self.go(target)?;
                Ok(Stepped::Passes)
            }
            Outcome::Gives(target) => {
                let given = self.here(alloc)?;
                self.go(target)?;
                Ok(Stepped::Gives(given))
            }
            Outcome::Assigns(line, text, target) => {
                self.go(target)?;
                Ok(Stepped::Gives(Given::Made(line, text)))
            }
            Outcome::Enters(call, target) => {
                self.go(target)?;
                self.calls.insert(0, call)?;
                Ok(Stepped::Passes)
            }
        }
    }

    /// The line and the word of the next statement, if it decides what follows.
    fn decision(&self, alloc: Global) -> Result<Option<(u64, Vec<u8>)>, AllocError>
        ensures { IfOk result (λ made. option_map (λ d. (d.0, d.1.items)) made
            ≡ decision_at (next_of (frames_of self.now))) }
    {
        let Some(call) = self.calls.first() else {
            return match from(self.position.place, &self.outside) {
                [statement, ..] => decision_of(alloc, statement),
                [] => Ok(None),
            };
        };
        if call.position.place >= call.lines.len() {
            return Ok(None);
        }
        let statement = call.lines[call.position.place].read(alloc)?;
        decision_of(alloc, &statement)
    }

    /// What a statement on this line, with this word, has decided: the line of the next statement.
    fn lead(&self, alloc: Global, line: u64, mut text: Vec<u8>) -> Result<Option<Line>, AllocError>
        ensures { IfOk result (λ lead. lead
            ≡ said_by line (lead_text text.items (given_up_in (frames_of self.now)))) }
    {
        let Some(target) = self.next_line() else {
            return Line::new(alloc, line, Vec::new(alloc));
        };
        text.push(b'/')?;
        push_digits(&mut text, target)?;
        Line::new(alloc, line, text)
    }

    /// What a turn gives at a statement that decides, on this line and with this word.
    fn tell(
        &self,
        alloc: Global,
        line: u64,
        word: Vec<u8>,
        stepped: Stepped,
    ) -> Result<Stepped, AllocError>
        ensures { (due : Step) → Steps stepped self.now due
            → IfOk result (λ it. Steps it self.now (told line word.items due)) }
    {
        match stepped {
            Stepped::Passes => match self.lead(alloc, line, word)? {
                Some(lead) => Ok(Stepped::Gives(lead.given(alloc)?)),
                None => Ok(Stepped::Passes),
            },
            Stepped::Stops(given) => match Line::new(alloc, line, word)? {
                Some(bare) => Ok(Stepped::Stops(bare.given(alloc)?)),
                None => Ok(Stepped::Stops(given)),
            },
            stepped => Ok(stepped),
        }
    }

    /// One turn.
    fn take_turn(&mut self, alloc: Global, variables: &Variables) -> Result<Stepped, AllocError>
        ensures step { IfOk result (λ stepped. Steps stepped self.new
            (told_step self.old.macros (entry_value variables.now) (frames_of self.old))) }
        ensures outside { self.new.outside ≡ self.old.outside }
        ensures macros { self.new.macros ≡ self.old.macros }
        ensures turns { self.new.turns ≡ self.old.turns }
    {
        let outcome = self.outcome(alloc, variables)?;
        if let Outcome::Gives(_) | Outcome::Assigns(_, _, _) | Outcome::Ends = outcome {
            return self.follow(alloc, outcome);
        }
        let decision = self.decision(alloc)?;
        let stepped = self.follow(alloc, outcome)?;
        match decision {
            Some((line, word)) => self.tell(alloc, line, word, stepped),
            None => Ok(stepped),
        }
    }

    /// The line of the next statement, here or below a CALL.
    fn next_line(&self) -> Option<u64>
        ensures { ended_on result ≡ given_up_in (frames_of self.now) }
    {
        let mut left = self.calls.as_slice();
        while let [call, outer @ ..] = left {
            if call.position.place < call.lines.len() {
                return Some(call.lines[call.position.place].line());
            }
            left = outer;
        }
        match from(self.position.place, &self.outside) {
            [statement, ..] => Some(statement.line),
            [] => None,
        }
    }

    /// What comes out where no turn is left: a statement that no flat program has.
    fn give_up(&mut self, alloc: Global) -> Result<Option<Given>, AllocError>
        requires { self.old.turns ≡ 0 }
        ensures given { (above : List Statement) → IfOk result (GivesNext self.old self.new above) }
        ensures outside { self.new.outside ≡ self.old.outside }
        ensures fewer { IfOk result (λ given. IfSome given (λ _. size self.new < size self.old)) }
    {
        let Some(line) = self.next_line() else {
            return Ok(None);
        };
        let text = Vec::from_slice(alloc, b"ENDDO")?;
        self.end();
        Ok(Some(Given::Made(line, text)))
    }

    /// The next statement that comes out, by the variables as those before leave them; none at the end.
    pub fn next(
        &mut self,
        alloc: Global,
        variables: &Variables,
    ) -> Result<Option<Given>, AllocError>
        ensures given { (above : List Statement) → Holds above variables.now
            → IfOk result (GivesNext self.old self.new above) }
        ensures outside { self.new.outside ≡ self.old.outside }
        ensures fewer { IfOk result (λ given. IfSome given (λ _. size self.new < size self.old)) }
    {
        while self.turns > 0 {
            self.turns -= 1;
            match self.take_turn(alloc, variables)? {
                Stepped::Ends => return Ok(None),
                Stepped::Passes => {}
                Stepped::Gives(given) => return Ok(Some(given)),
                Stepped::Stops(given) => return Ok(Some(given)),
            }
        }
        self.give_up(alloc)
    }
}
