// What follows at a statement.

ghost use Rattle.std.specs.Prelude.{◌≡◌, ◌<◌, ◌≤◌, ◌+◌, ◌^◌, ◌∷◌, ◌+ℤ◌, ℕ, List, IfOk, Some, drop, length};
ghost use Rattle.std.specs.Option.{option_map};
ghost use Rattle.dmis_text.specs.declared.elements.Statement.{Statement};
ghost use Rattle.program_flow.specs.Variables.{entry_value};
ghost use Rattle.program_flow.specs.Flow as spec;
ghost use Rattle.program_flow.specs.Selections as selections;
ghost use Rattle.program_flow.specs.Flow.{Control, to};
ghost use Rattle.program_flow.specs.declared.blocks.Block.{Block};
ghost use Rattle.program_flow.specs.Turns.{assigned_text, moved, passed, seen_header, turned};

use crate::blocks::{
    Block, Move, Part, Rounds, around, end_of, first_of, from, is_level, label_place, part_of,
    start_of,
};
use crate::conditions::holds;
use crate::pieces::any_value;
use crate::selections::{Choice, chosen};
use crate::values::value_of;
use crate::variables::Variables;
use dmis_text::{Statement, Text};
use std::alloc::{AllocError, Global};

/// What follows at a statement that can be followed: nothing comes out, it comes out, or an assignment to the index of a loop does, the
/// first or that of a further round.
#[derive(Clone, Copy)]
pub enum Turned<'a> {
    Passes(Move),
    Gives(Move),
    Assigns(Header<'a>, bool, Move),
}

/// The index of a DO, its first value, its limit and its increment.
#[derive(Clone, Copy)]
pub struct Header<'a> {
    name: &'a [u8],
    first: &'a [u8],
    limit: &'a [u8],
    step: &'a [u8],
}

/// Into a branch of an IF.
fn branch(start: usize, end: usize) -> Move
    ensures { (blocks : List Block) → moved blocks result
        ≡ to start (spec.branch start end ∷ blocks) }
{
    Move::Enter(Block {
        start,
        end,
        rounds: None,
    })
}

fn condition_of(params: &[Text], variables: &Variables) -> Option<bool>
    ensures { result ≡ spec.condition_of (entry_value variables.now) params.now }
{
    match params {
        [only] => holds(only, variables).ok(),
        _ => None,
    }
}

/// Past an IF that does not hold.
fn past_branch(statements: &[Statement], middle: usize) -> Option<Move>
    requires { middle < length statements.now }
    ensures { (c : Control) (s : Statement) → passed c.blocks s result
        ≡ spec.past_branch c s middle (drop middle statements.now) }
{
    let [first, below @ ..] = from(middle, statements) else {
        return None;
    };
    let next = middle + 1;
    match part_of(first) {
        Part::Else => Some(branch(next, end_of(Part::Else, 0, next, below)?)),
        _ => Some(Move::Stay(next)),
    }
}

fn if_turn(statements: &[Statement], place: usize, condition: bool, middle: usize) -> Option<Move>
    requires place { place < length statements.now }
    requires middle { middle < length statements.now }
    ensures { (blocks : List Block) (s : Statement) → passed blocks s result
        ≡ spec.if_by statements.now (to place blocks) s (Some condition) (Some middle) }
{
    if condition {
        Some(branch(place + 1, middle))
    } else {
        past_branch(statements, middle)
    }
}

/// Out of the branch that ends in a place, where its IF ends in the other.
fn leave(place: usize, blocks: &[Block], end: usize) -> Option<Move>
    requires { end + 1 < 2 ^ 64 }
    ensures { (s : Statement) → passed blocks.now s result
        ≡ spec.leave_by (to place blocks.now) s blocks.now (Some end) }
{
    match blocks {
        [inner, ..] if inner.end == place => Some(Move::Leave(end + 1)),
        _ => None,
    }
}

fn is_select_end(part: Part) -> bool
    ensures { result ≡ spec.is_select_end part }
{
    matches!(part, Part::EndSelect)
}

fn is_last(below: &[Statement]) -> bool
    ensures { result ≡ spec.is_last below.now }
{
    match below {
        [first, ..] => is_select_end(part_of(first)),
        [] => false,
    }
}

fn is_default(part: Part) -> bool
    ensures { result ≡ spec.is_default part }
{
    matches!(part, Part::DefaultCase)
}

/// Into the branch of a SELECT that begins in a place.
fn enter(statements: &[Statement], place: usize) -> Option<Move>
    requires { place < length statements.now }
    ensures { (c : Control) (s : Statement) → passed c.blocks s result
        ≡ spec.enter_at statements.now c s place (drop place statements.now) }
{
    let [first, below @ ..] = from(place, statements) else {
        return None;
    };
    let part = part_of(first);
    let start = place + 1;
    let end = end_of(part, 0, start, below)?;
    if is_default(part) && !is_last(from(end + 1, statements)) {
        return None;
    }
    Some(branch(start, end))
}

/// Into the branch of a SELECT that is chosen, or past the end.
fn select_turn(
    statements: &[Statement],
    place: usize,
    below: &[Statement],
    params: &[Text],
    end: usize,
    variables: &Variables,
) -> Option<Move>
    requires below { place + 1 + length below.now ≤ length statements.now }
    requires end { end + 1 < 2 ^ 64 }
    ensures { (blocks : List Block) (s : Statement) → passed blocks s result
        ≡ spec.select_by statements.now (entry_value variables.now) (to place blocks) s below.now
        (selections.selected (entry_value variables.now) params.now) (Some end) }
{
    let [only] = params else {
        return None;
    };
    let number = any_value(only, variables).ok()?;
    match chosen(only, &number, place + 1, below, variables)? {
        Choice::Branch(at) => enter(statements, at),
        Choice::NoBranch => Some(Move::Stay(end + 1)),
    }
}

fn header_of<'a>(params: &'a [Text]) -> Option<Header<'a>>
    ensures { option_map seen_header result ≡ spec.header_of params.now }
{
    let [name, first, limit, others @ ..] = params else {
        return None;
    };
    let step: &[u8] = match others {
        [] => b"1",
        [step] => step,
        _ => return None,
    };
    Some(Header {
        name,
        first,
        limit,
        step,
    })
}

fn whole_value(text: &[u8], variables: &Variables) -> Option<i64>
    ensures { result ≡ spec.whole_value (entry_value variables.now) text.now }
{
    match value_of(text, variables) {
        Ok(number) => number.get_whole().ok(),
        Err(_) => None,
    }
}

fn is_within(value: i128, limit: i64, step: i64) -> bool
    ensures { result ≡ spec.is_within value limit step }
{
    if step < 0 {
        i128::from(limit) <= value
    } else {
        value <= i128::from(limit)
    }
}

/// The text of the first assignment of a loop, or of that at the end of a round.
pub(crate) fn assigned_text(
    alloc: Global,
    header: Header,
    again: bool,
) -> Result<Vec<u8>, AllocError>
    ensures { IfOk result (λ text. text.items ≡ assigned_text header.entry again) }
{
    let mut text = Vec::from_slice(alloc, header.name)?;
    text.extend_from_slice(b"=ASSIGN/")?;
    if !again {
        text.extend_from_slice(header.first)?;
        return Ok(text);
    }
    text.extend_from_slice(header.name)?;
    text.extend_from_slice(b"+(")?;
    text.extend_from_slice(header.step)?;
    text.extend_from_slice(b")")?;
    Ok(text)
}

/// Into the first round of a loop, or past it.
fn do_turn<'a>(
    place: usize,
    header: Header<'a>,
    end: usize,
    variables: &Variables,
) -> Option<Turned<'a>>
    requires place { place + 1 < 2 ^ 64 }
    requires end { end + 1 < 2 ^ 64 }
    ensures { (blocks : List Block) (s : Statement) → turned blocks s result
        ≡ spec.do_by (entry_value variables.now) (to place blocks) s
        (Some (seen_header header.entry)) (Some end) }
{
    let first = whole_value(header.first, variables)?;
    let limit = whole_value(header.limit, variables)?;
    let step = whole_value(header.step, variables)?;
    if step.unsigned_abs() == 0 {
        return None;
    }
    if !is_within(i128::from(first), limit, step) {
        return Some(Turned::Assigns(header, false, Move::Stay(end + 1)));
    }
    let rounds = Some(Rounds {
        header: place,
        limit,
        step,
    });
    let start = place + 1;
    let target = Move::Enter(Block { start, end, rounds });
    Some(Turned::Assigns(header, false, target))
}

/// Whether a loop's limit and increment are those at its DO.
#[tactic(auto, unfolding(crate::specs::Flow::is_kept))]
fn is_kept(limit: i64, step: i64, rounds: Rounds) -> bool
    ensures { result ≡ spec.is_kept limit step rounds }
{
    limit == rounds.limit && step == rounds.step
}

fn next_value(value: i64, step: i64) -> i128
    ensures { result ≡ value +ℤ step }
{
    i128::from(value) + i128::from(step)
}

/// Into another round of a loop, or past it.
fn round_turn<'a>(
    place: usize,
    block: Block,
    rounds: Rounds,
    header: Header<'a>,
    variables: &Variables,
) -> Option<Turned<'a>>
    requires { place + 1 < 2 ^ 64 }
    ensures { (outer : List Block) (s : Statement) → turned (block ∷ outer) s result
        ≡ spec.round_by (entry_value variables.now) (to place (block ∷ outer)) s block outer rounds
        (Some (seen_header header.entry)) }
{
    let value = whole_value(header.name, variables)?;
    let limit = whole_value(header.limit, variables)?;
    let step = whole_value(header.step, variables)?;
    if !is_kept(limit, step, rounds) {
        return None;
    }
    if is_within(next_value(value, step), rounds.limit, rounds.step) {
        return Some(Turned::Assigns(header, true, Move::Stay(block.start)));
    }
    Some(Turned::Assigns(header, true, Move::Leave(place + 1)))
}

fn enddo_turn<'a>(
    statements: &'a [Statement],
    place: usize,
    blocks: &[Block],
    variables: &Variables,
) -> Option<Turned<'a>>
    requires { place + 1 < 2 ^ 64 }
    ensures { (s : Statement) → turned blocks.now s result ≡ spec.enddo_by statements.now
        (entry_value variables.now) (to place blocks.now) s blocks.now }
{
    let [block, ..] = blocks else {
        return None;
    };
    if block.end != place {
        return None;
    }
    let rounds = block.rounds?;
    let [first, ..] = from(rounds.header, statements) else {
        return None;
    };
    let header = header_of(&first.params)?;
    round_turn(place, *block, rounds, header, variables)
}

fn jump_turn(statements: &[Statement], params: &[Text], blocks: &[Block]) -> Option<Move>
    ensures { (place : ℕ) (s : Statement) → passed blocks.now s result
        ≡ spec.jump_of statements.now (to place blocks.now) s params.now }
{
    let [only] = params else {
        return None;
    };
    let target = label_place(only, 0, statements)?;
    let start = start_of(around(target, blocks));
    let between = first_of(target.saturating_sub(start), from(start, statements));
    if is_level(0, between) {
        Some(Move::Jump(target))
    } else {
        None
    }
}

/// What follows at the statement in a place, where these blocks are open; none, if it cannot be followed.
#[tactic(auto, unfolding(crate::specs::Flow::turn))]
pub(crate) fn turn<'a>(
    statements: &'a [Statement],
    place: usize,
    blocks: &[Block],
    variables: &Variables,
) -> Option<Turned<'a>>
    ensures { (s : Statement) (below : List Statement) → drop place statements.now ≡ s ∷ below
        → turned blocks.now s result
        ≡ spec.turn statements.now (entry_value variables.now) (to place blocks.now) }
{
    if place >= statements.len() {
        return None;
    }
    let [statement, below @ ..] = from(place, statements) else {
        return None;
    };
    let next = place + 1;
    Some(match part_of(statement) {
        Part::If => {
            let condition = condition_of(&statement.params, variables)?;
            let middle = end_of(Part::If, 0, next, below)?;
            Turned::Passes(if_turn(statements, place, condition, middle)?)
        }
        Part::Else => Turned::Passes(leave(place, blocks, end_of(Part::Else, 0, next, below)?)?),
        Part::EndIf => Turned::Passes(leave(place, blocks, place)?),
        Part::Do => {
            let header = header_of(&statement.params)?;
            let end = end_of(Part::Do, 0, next, below)?;
            do_turn(place, header, end, variables)?
        }
        Part::EndDo => enddo_turn(statements, place, blocks, variables)?,
        Part::Select => {
            let end = end_of(Part::Select, 0, next, below)?;
            let params = &statement.params;
            Turned::Passes(select_turn(statements, place, below, params, end, variables)?)
        }
        Part::EndCase => {
            Turned::Passes(leave(place, blocks, end_of(Part::Select, 0, next, below)?)?)
        }
        Part::Case | Part::DefaultCase | Part::EndSelect => return None,
        Part::Jump => Turned::Passes(jump_turn(statements, &statement.params, blocks)?),
        Part::Label => Turned::Passes(Move::Stay(next)),
        Part::Other => Turned::Gives(Move::Stay(next)),
    })
}
