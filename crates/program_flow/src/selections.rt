// Which branch of a SELECT is carried out.

ghost use Rattle.std.specs.Prelude.{◌≡◌, ◌<◌, ◌≤◌, ◌+◌, ◌^◌, IfSome, length};
ghost use Rattle.dmis_text.specs.declared.elements.Statement.{Statement};
ghost use Rattle.program_flow.specs.Variables.{entry_value};
ghost use Rattle.program_flow.specs.Selections as spec;
ghost use Rattle.program_flow.specs.Blocks.{part_of};
ghost use Rattle.program_flow.specs.Cuts.{IsWithin};
ghost use Rattle.program_flow.specs.Held.{value_at};

use crate::blocks::{Part, depth_after, is_end, matches_end, part_of};
use crate::conditions::{Comparison, values_compared};
use crate::numbers::Number;
use crate::pieces::any_value;
use crate::variables::Variables;
use dmis_text::{Statement, Text};

/// What a SELECT chooses: the branch whose CASE or DFTCAS is in a place, or none of its branches.
#[derive(Clone, Copy)]
pub enum Choice {
    Branch(usize),
    NoBranch,
}

/// What a statement means to the search for a branch.
#[derive(Clone, Copy)]
pub enum Search {
    Found(Choice),
    Fails,
    Continues,
}

/// Whether a text has the value of another, of which this is the number, or which has letters.
fn equals(text: &[u8], number: &Option<Number>, other: &[u8], variables: &Variables) -> Option<bool>
    ensures { result ≡ spec.equals (entry_value variables.now)
        (value_at (entry_value variables.now) text.now number.now) other.now }
{
    let Ok(found) = any_value(other, variables) else {
        return None;
    };
    values_compared(Comparison::Equal, text, *number, other, found, variables).ok()
}

/// Whether one of these texts has this value; none, if one before it has no value.
#[tactic(auto, unfolding(crate::specs::Selections::one_equals))]
fn one_equals(
    text: &[u8],
    number: &Option<Number>,
    texts: &[Text],
    variables: &Variables,
) -> Option<bool>
    ensures { result ≡ spec.one_equals (entry_value variables.now)
        (value_at (entry_value variables.now) text.now number.now) texts.now }
{
    let mut left = texts;
    while let [first, others @ ..] = left {
        if equals(text, number, first, variables)? {
            return Some(true);
        }
        left = others;
    }
    Some(false)
}

fn case_seen(place: usize, equal: Option<bool>) -> Search
    ensures { result ≡ spec.case_seen place equal }
{
    match equal {
        None => Search::Fails,
        Some(true) => Search::Found(Choice::Branch(place)),
        Some(false) => Search::Continues,
    }
}

fn between_seen(
    place: usize,
    part: Part,
    text: &[u8],
    number: &Option<Number>,
    params: &[Text],
    variables: &Variables,
) -> Search
    ensures { result ≡ spec.between_seen place part
        (spec.one_equals (entry_value variables.now)
        (value_at (entry_value variables.now) text.now number.now) params.now) }
{
    match part {
        Part::Case => case_seen(place, one_equals(text, number, params, variables)),
        Part::DefaultCase => Search::Found(Choice::Branch(place)),
        Part::EndSelect => Search::Found(Choice::NoBranch),
        _ => Search::Fails,
    }
}

fn passed_seen(depth: usize, part: Part) -> Search
    ensures { result ≡ spec.passed_seen depth part }
{
    if is_end(depth, part) && !matches_end(Part::Case, part) {
        Search::Fails
    } else {
        Search::Continues
    }
}

/// What a statement means to the search, where that many blocks are open below the SELECT.
fn seen_at(
    depth: usize,
    place: usize,
    statement: &Statement,
    text: &[u8],
    number: &Option<Number>,
    variables: &Variables,
) -> Search
    ensures { result ≡ spec.seen_at depth place (part_of statement.now)
        (spec.one_equals (entry_value variables.now)
        (value_at (entry_value variables.now) text.now number.now) statement.now.params) }
{
    let part = part_of(statement);
    if depth == 0 {
        between_seen(place, part, text, number, &statement.params, variables)
    } else {
        passed_seen(depth - 1, part)
    }
}

/// The branch of a SELECT of this value, in statements of which the first is in this place; none, if it cannot be found.
#[tactic(auto, unfolding(crate::specs::Selections::chosen))]
pub(crate) fn chosen(
    text: &[u8],
    number: &Option<Number>,
    place: usize,
    statements: &[Statement],
    variables: &Variables,
) -> Option<Choice>
    requires { place + length statements.now < 2 ^ 64 }
    ensures value { result ≡ spec.chosen (entry_value variables.now)
        (value_at (entry_value variables.now) text.now number.now) 0 place statements.now }
    ensures within { IfSome result (IsWithin (place + length statements.now)) }
{
    let mut left = statements;
    let mut at = place;
    let mut open = 0;
    while let [first, below @ ..] = left {
        match seen_at(open, at, first, text, number, variables) {
            Search::Found(choice) => return Some(choice),
            Search::Fails => return None,
            Search::Continues => {}
        }
        open = depth_after(open, part_of(first));
        at += 1;
        left = below;
    }
    None
}
