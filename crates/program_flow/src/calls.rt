// What follows at a statement where macros are called.

ghost use Rattle.std.specs.Prelude.{◌≡◌, ◌∷◌, ◌||◌, ◌+◌, ℕ, List, IfOk, IsTrue, Some, bytes_eq, drop, is_some, length, map, [], true};
ghost use Rattle.std.specs.List.{list_all};
ghost use Rattle.dmis_text.specs.declared.elements.Statement.{Statement};
ghost use Rattle.program_flow.specs.Variables.{entry_value};
ghost use Rattle.program_flow.specs.Values.{is_variable};
ghost use Rattle.program_flow.specs.Blocks.{part_of};
ghost use Rattle.program_flow.specs.declared.blocks.Part.TheVariants.{Other};
ghost use Rattle.program_flow.specs.Calls as spec;
ghost use Rattle.program_flow.specs.Calls.{Frame};
ghost use Rattle.program_flow.specs.Flow.{assignment};
ghost use Rattle.program_flow.specs.Named.{frame_at, seen_call, seen_macro};
ghost use Rattle.program_flow.specs.Stepped.{Leads};
ghost use Rattle.program_flow.specs.Turns.{turned};

use crate::arguments::{lines_with_arguments, pairs_of};
use crate::blocks::{Move, Part, from, part_of};
use crate::lines::{Line, read_lines};
use crate::macros::{Macro, begins_macro, ends_macro, is_call, macro_named};
use crate::positions::Position;
use crate::turns::{Header, Turned, assigned_text, turn};
use crate::values::is_variable;
use crate::variables::Variables;
use dmis_text::{Statement, Statements, Text, TextFault};
use std::alloc::{AllocError, Global};

/// A macro that is open: its statements with the arguments in the places of the parameters, and where the flow is there.
#[derive(Drop)]
pub struct Call {
    pub(crate) name: Vec<u8>,
    pub(crate) lines: Vec<Line>,
    pub(crate) position: Position,
}

/// What follows at the next statement.
#[derive(Drop)]
pub enum Outcome {
    /// No statement is left.
    Ends,
    /// None is left in the macro.
    Leaves,
    /// It cannot be followed.
    Stops,
    /// Nothing comes out.
    Passes(Move),
    /// It comes out.
    Gives(Move),
    /// The one that this text says comes out, as if it were on this line.
    Assigns(u64, Vec<u8>, Move),
    /// A macro is called.
    Enters(Call, Move),
}

/// Whether a text says one assignment and nothing else.
#[tactic(auto, unfolding(crate::specs::Flow::assignment))]
fn is_assignment(alloc: Global, text: &[u8]) -> Result<bool, AllocError>
    ensures { IfOk result (λ yes. yes ≡ is_some (assignment 1 text.now)) }
{
    let mut statements = Statements::new(alloc, text);
    let first = match statements.next() {
        Ok(Some(first)) => first,
        Err(TextFault::Memory) => return Err(AllocError),
        Ok(None) | Err(TextFault::LineTooLong(_) | TextFault::BadByte(_)) => return Ok(false),
    };
    let word: &[u8] = &first.word;
    let assigns = word == b"ASSIGN".as_slice();
    match statements.next() {
        Ok(None) => Ok(assigns),
        Err(TextFault::Memory) => Err(AllocError),
        Ok(Some(_)) | Err(TextFault::LineTooLong(_) | TextFault::BadByte(_)) => Ok(false),
    }
}

/// The assignment of a loop, if its text says one.
fn assigned(
    alloc: Global,
    line: u64,
    header: Header,
    again: bool,
    target: Move,
) -> Result<Outcome, AllocError>
    ensures { (f : Frame) (outer : List Frame) (s : Statement) (below : List Statement)
        → drop f.control.place f.statements ≡ s ∷ below → line ≡ s.line
        → IfOk result (λ led. Leads (f ∷ outer) led (spec.lifted f outer
        (turned f.control.blocks s (Some (Turned.Assigns header.entry again target))))) }
{
    let text = assigned_text(alloc, header, again)?;
    if !is_assignment(alloc, &text)? {
        return Ok(Outcome::Stops);
    }
    Ok(Outcome::Assigns(line, text, target))
}

/// What a turn gives at a statement that calls no macro, on this line.
fn followed(alloc: Global, line: u64, given: Option<Turned>) -> Result<Outcome, AllocError>
    ensures { (f : Frame) (outer : List Frame) (s : Statement) (below : List Statement)
        → drop f.control.place f.statements ≡ s ∷ below → line ≡ s.line
        → IfOk result (λ led. Leads (f ∷ outer) led (spec.lifted f outer
        (turned f.control.blocks s given.entry))) }
{
    let Some(turned) = given else {
        return Ok(Outcome::Stops);
    };
    match turned {
        Turned::Passes(target) => Ok(Outcome::Passes(target)),
        Turned::Gives(target) => Ok(Outcome::Gives(target)),
        Turned::Assigns(header, again, target) => assigned(alloc, line, header, again, target),
    }
}

/// Whether each of these texts is an identifier.
fn are_identifiers(texts: &[Text]) -> bool
    ensures { result ≡ list_all is_variable texts.now }
{
    texts.iter().all(|text| is_variable(text))
}

/// Whether a macro has that many parameters, and each is an identifier.
fn fits(it: Macro, arguments: &[Text]) -> bool
    ensures { result ≡ spec.fits (seen_macro it.entry) arguments.now }
{
    it.params.len() == arguments.len() && are_identifiers(it.params)
}

/// Whether a macro of this name is open.
fn is_open(name: &[u8], calls: &[Call]) -> bool
    ensures { result ≡ spec.is_open name.now (map seen_call calls.now) }
{
    let mut left = calls;
    while let [first, outer @ ..] = left {
        if first.name.as_slice() == name {
            return true;
        }
        left = outer;
    }
    false
}

/// What follows at a CALL: the next place is the one below it.
fn called(
    alloc: Global,
    macros: &[Statement],
    calls: &[Call],
    next: usize,
    params: &[Text],
) -> Result<Outcome, AllocError>
    ensures { (f : Frame) (outer : List Frame) (s : Statement) (below : List Statement)
        → drop f.control.place f.statements ≡ s ∷ below → next ≡ f.control.place + 1
        → ((name : List ℕ) → spec.is_open name (f ∷ outer)
        ≡ (spec.is_open name (map seen_call calls.now) || bytes_eq [] name))
        → IfOk result (λ led. Leads (f ∷ outer) led
        (spec.call_of macros.now f outer s params.now)) }
{
    let [name, arguments @ ..] = params else {
        return Ok(Outcome::Stops);
    };
    let Some(found) = macro_named(name, macros) else {
        return Ok(Outcome::Stops);
    };
    if is_open(name, calls) || name.is_empty() || !fits(found, arguments) {
        return Ok(Outcome::Stops);
    }
    let pairs = pairs_of(alloc, found.params, arguments)?;
    let Some(lines) = lines_with_arguments(alloc, &pairs, found.body)? else {
        return Ok(Outcome::Stops);
    };
    let call = Call {
        name: Vec::from_slice(alloc, name)?,
        lines,
        position: Position::new(alloc),
    };
    Ok(Outcome::Enters(call, Move::Stay(next)))
}

/// Whether a statement comes out and nothing else happens, so that the others need not be read.
fn is_straight(statement: &Statement) -> bool
    ensures plain { IsTrue result → spec.is_plain statement.now ≡ true }
    ensures other { IsTrue result → part_of statement.now ≡ Other }
{
    if is_call(statement) || begins_macro(statement) || ends_macro(statement) {
        return false;
    }
    matches!(part_of(statement), Part::Other)
}

/// What follows at the statement in a place, where these macros are open.
pub(crate) fn outcome_at(
    alloc: Global,
    macros: &[Statement],
    calls: &[Call],
    statements: &[Statement],
    position: &Position,
    variables: &Variables,
) -> Result<Outcome, AllocError>
    ensures none { drop position.now.place statements.now ≡ []
        → IfOk result (λ led. led ≡ Outcome.Ends) }
    ensures one { (name : List ℕ) (outer : List Frame) (s : Statement) (below : List Statement)
        → drop position.now.place statements.now ≡ s ∷ below
        → ((other : List ℕ) → spec.is_open other
        (frame_at name statements.now position.now ∷ outer)
        ≡ (spec.is_open other (map seen_call calls.now) || bytes_eq [] other))
        → IfOk result (λ led. Leads (frame_at name statements.now position.now ∷ outer) led
        (spec.step_of macros.now (entry_value variables.now)
        (frame_at name statements.now position.now) outer s)) }
{
    let place = position.place;
    if place >= statements.len() {
        return Ok(Outcome::Ends);
    }
    let [statement, ..] = from(place, statements) else {
        return Ok(Outcome::Ends);
    };
    if is_call(statement) {
        return called(alloc, macros, calls, place + 1, &statement.params);
    }
    if begins_macro(statement) || ends_macro(statement) {
        return Ok(Outcome::Stops);
    }
    let given = turn(statements, place, &position.blocks, variables);
    followed(alloc, statement.line, given)
}

/// What follows in a macro that is called, where the others are open, too.
pub(crate) fn outcome_in(
    alloc: Global,
    macros: &[Statement],
    calls: &[Call],
    call: &Call,
    variables: &Variables,
) -> Result<Outcome, AllocError>
    ensures { (next : Frame) (others : List Frame)
        → ((name : List ℕ) → spec.is_open name (seen_call call.now ∷ (next ∷ others))
        ≡ (spec.is_open name (map seen_call calls.now) || bytes_eq [] name))
        → IfOk result (λ led. Leads (seen_call call.now ∷ (next ∷ others)) led
        (spec.step macros.now (entry_value variables.now)
        (seen_call call.now ∷ (next ∷ others)))) }
{
    let place = call.position.place;
    if place >= call.lines.len() {
        return Ok(Outcome::Leaves);
    }
    let statement = call.lines[place].read(alloc)?;
    if is_straight(&statement) {
        return Ok(Outcome::Gives(Move::Stay(place + 1)));
    }
    let statements = read_lines(alloc, &call.lines)?;
    outcome_at(alloc, macros, calls, &statements, &call.position, variables)
}
