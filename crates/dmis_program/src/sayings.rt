ghost use Rattle.std.specs.Prelude.{◌≡◌, ◌≢◌, ◌∷◌, [], Option, Some, None, Ok, IfSome, IsTrue, codes};
ghost use Rattle.dmis_program.specs.Names.{Gives, goes, begins_block, touches_at, touches, without_parameters, selects, recalls_frame, recalls, units, mode, said_by, said_of, is_badly_formed};

use crate::faults::{Refusal, StatementFault};
use crate::keywords::{Keyword, is_text};
use crate::parameters::{
    begins, count_of, has_word, is_cart, is_letters, name_within, without_cart,
};
use crate::positions::{direction, position};
use dmis_text::{Statement, Text};
use fixed_um::{Dir, Name, Point};
use std::alloc::Global;

/// What one statement says by itself.
#[derive(Drop)]
pub enum StatementMeaning {
    /// A move.
    Goes(Point),
    /// A block begins for a feature, which asks for that many touches.
    Begins(Name, u64),
    /// A touch at a target, with a direction or none.
    Touches(Point, Option<Dir>),
    /// The block ends.
    Ends,
    /// A tool is selected.
    Selects(Name),
    /// A stored frame is selected.
    Recalls(Name),
    /// The program ends.
    Closes,
    /// Nothing is commanded.
    Passes,
}

/// `GOTO/x,y,z`, where a first `CART` is taken away.
fn goes(params: &[Text]) -> Result<StatementMeaning, Refusal>
    ensures { result ≡ goes params.now }
{
    match params {
        [x, y, z] => Ok(StatementMeaning::Goes(position(x, y, z)?)),
        _ => Err(Refusal::BadArguments),
    }
}

/// `MEAS/kind,F(name),n`.
fn begins_block(alloc: Global, params: &[Text]) -> Result<StatementMeaning, StatementFault>
    ensures { Gives result (begins_block params.now) }
{
    let [kind, feature, count] = params else {
        return Err(StatementFault::Refused(Refusal::BadArguments));
    };
    let name = name_within(alloc, b"F(", feature)?;
    match (name, count_of(count)) {
        (Some(name), Some(count)) if is_letters(kind) => Ok(StatementMeaning::Begins(name, count)),
        _ => Err(StatementFault::Refused(Refusal::BadArguments)),
    }
}

/// `PTMEAS/CART` after its first parameter.
fn touches_at(params: &[Text]) -> Result<StatementMeaning, Refusal>
    ensures { result ≡ touches_at params.now }
{
    match params {
        [x, y, z] => {
            let target = position(x, y, z)?;
            Ok(StatementMeaning::Touches(target, None))
        }
        [x, y, z, i, j, k] => {
            let target = position(x, y, z)?;
            let direction = direction(i, j, k)?;
            Ok(StatementMeaning::Touches(target, Some(direction)))
        }
        _ => Err(Refusal::BadArguments),
    }
}

/// `PTMEAS/CART,x,y,z` with or without a direction.
fn touches(params: &[Text]) -> Result<StatementMeaning, Refusal>
    ensures { result ≡ touches params.now }
{
    match params.split_first() {
        Some((first, rest)) if is_cart(first) => touches_at(rest),
        _ => Err(Refusal::BadArguments),
    }
}

/// `ENDMES` and `ENDFIL`.
fn without_parameters(said: StatementMeaning, params: &[Text]) -> Result<StatementMeaning, Refusal>
    ensures { result ≡ without_parameters said params.now }
{
    if params.is_empty() {
        Ok(said)
    } else {
        Err(Refusal::BadArguments)
    }
}

/// `SNSLCT/S(name)` and `SNSLCT/SA(name)`.
fn selects(alloc: Global, params: &[Text]) -> Result<StatementMeaning, StatementFault>
    ensures { Gives result (selects params.now) }
{
    let [first] = params else {
        return Err(StatementFault::Refused(Refusal::BadArguments));
    };
    if let Some(name) = name_within(alloc, b"S(", first)? {
        return Ok(StatementMeaning::Selects(name));
    }
    match name_within(alloc, b"SA(", first)? {
        Some(name) => Ok(StatementMeaning::Selects(name)),
        None => Err(StatementFault::Refused(Refusal::BadArguments)),
    }
}

/// `RECALL/D(name)`.
fn recalls_frame(alloc: Global, params: &[Text]) -> Result<StatementMeaning, StatementFault>
    ensures { Gives result (recalls_frame params.now) }
{
    let [first] = params else {
        return Err(StatementFault::Refused(Refusal::BadArguments));
    };
    match name_within(alloc, b"D(", first)? {
        Some(name) => Ok(StatementMeaning::Recalls(name)),
        None => Err(StatementFault::Refused(Refusal::BadArguments)),
    }
}

/// `RECALL`, which selects a frame or commands nothing.
fn recalls(alloc: Global, params: &[Text]) -> Result<StatementMeaning, StatementFault>
    ensures { Gives result (recalls params.now) }
{
    match params.split_first() {
        Some((first, _)) if begins(first, b"D(") => recalls_frame(alloc, params),
        Some(_) => Ok(StatementMeaning::Passes),
        None => Err(StatementFault::Refused(Refusal::BadArguments)),
    }
}

/// `UNITS/MM,..`.
fn units(params: &[Text]) -> Result<StatementMeaning, Refusal>
    ensures { result ≡ units params.now }
{
    match params.split_first() {
        Some((first, _)) if is_text(first, "MM") => Ok(StatementMeaning::Passes),
        Some(_) => Err(Refusal::NotMillimetres),
        None => Err(Refusal::BadArguments),
    }
}

/// `MODE/..` with `PROG` among the words.
fn mode(params: &[Text]) -> Result<StatementMeaning, Refusal>
    ensures { result ≡ mode params.now }
{
    if params.is_empty() {
        return Err(Refusal::BadArguments);
    }
    if has_word(params, "PROG") {
        Ok(StatementMeaning::Passes)
    } else {
        Err(Refusal::NoProgMode)
    }
}

/// By keyword. The caller must give a word that this profile reads.
#[tactic(auto, unfolding(crate::specs::Sayings::said_by))]
#[inline(always)]
fn said_by(
    alloc: Global,
    keyword: Keyword,
    params: &[Text],
) -> Result<StatementMeaning, StatementFault>
    requires { keyword ≢ Keyword.Unknown }
    ensures { Gives result (said_by keyword params.now) }
{
    match keyword {
        Keyword::Goto => Ok(goes(without_cart(params))?),
        Keyword::Meas => begins_block(alloc, params),
        Keyword::Ptmeas => Ok(touches(params)?),
        Keyword::Endmes => Ok(without_parameters(StatementMeaning::Ends, params)?),
        Keyword::Snslct => selects(alloc, params),
        Keyword::Recall => recalls(alloc, params),
        Keyword::Endfil => Ok(without_parameters(StatementMeaning::Closes, params)?),
        Keyword::Units => Ok(units(params)?),
        Keyword::Mode => Ok(mode(params)?),
        Keyword::Dmismn | Keyword::Definition | Keyword::Passed => Ok(StatementMeaning::Passes),
        Keyword::Unknown => unreachable!(),
    }
}

/// Whether a statement has a label that its word may not have, or a text that is not closed.
#[inline(always)]
fn is_badly_formed(keyword: Keyword, statement: &Statement) -> bool
    ensures { result ≡ is_badly_formed keyword statement.now }
{
    (statement.label.is_some() && keyword != Keyword::Definition) || statement.is_open()
}

/// What a statement with this keyword says by itself, or why it is refused for itself. The caller must give a word that this profile reads.
#[tactic(auto, unfolding(crate::specs::Sayings::said_of))]
pub fn said_of(
    alloc: Global,
    keyword: Keyword,
    statement: &Statement,
) -> Result<StatementMeaning, StatementFault>
    requires { keyword ≢ Keyword.Unknown }
    ensures { Gives result (said_of keyword statement.now) }
{
    if is_badly_formed(keyword, statement) {
        return Err(StatementFault::Refused(Refusal::BadArguments));
    }
    said_by(alloc, keyword, &statement.params)
}

/// The target of a `GOTO` that is accepted for itself; none if the statement is refused. Most are read here and by the two calls after this.
#[tactic(auto, unfolding(crate::specs::Sayings::said_of, crate::specs::Sayings::said_by))]
#[inline(always)]
pub(crate) fn moved(statement: &Statement) -> Option<Point>
    ensures { IfSome result (λ target. said_of Keyword.Goto statement.now
        ≡ Ok (StatementMeaning.Goes target)) }
{
    if is_badly_formed(Keyword::Goto, statement) {
        return None;
    }
    match without_cart(&statement.params) {
        [x, y, z] => position(x, y, z).ok(),
        _ => None,
    }
}

/// Likewise the target and the direction of a `PTMEAS` with a direction.
#[tactic(auto, unfolding(crate::specs::Sayings::said_of, crate::specs::Sayings::said_by))]
#[inline(always)]
pub(crate) fn touched(statement: &Statement) -> Option<(Point, Dir)>
    ensures { IfSome result (λ t. said_of Keyword.Ptmeas statement.now
        ≡ Ok (StatementMeaning.Touches t.0 (Some t.1))) }
{
    if is_badly_formed(Keyword::Ptmeas, statement) {
        return None;
    }
    let params: &[Text] = &statement.params;
    match params {
        [first, x, y, z, i, j, k] if is_cart(first) => {
            let target = position(x, y, z).ok()?;
            let direction = direction(i, j, k).ok()?;
            Some((target, direction))
        }
        _ => None,
    }
}

/// Whether it is an `ENDMES` that is accepted for itself.
#[tactic(auto, unfolding(crate::specs::Sayings::said_of, crate::specs::Sayings::said_by))]
#[inline(always)]
pub(crate) fn is_block_end(statement: &Statement) -> bool
    ensures { IsTrue result → said_of Keyword.Endmes statement.now ≡ Ok StatementMeaning.Ends }
{
    !is_badly_formed(Keyword::Endmes, statement) && statement.params.is_empty()
}
