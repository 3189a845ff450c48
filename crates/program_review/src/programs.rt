// Why a program is refused, and which word is at fault.

ghost use Rattle.std.specs.Prelude.{◌≡◌, ◌==◌, find, option_and_then, Some, IfOk, OnErr};
ghost use Rattle.std.specs.Option.{option_map};
ghost use Rattle.program_review.specs.Blocks.{opened_by};
ghost use Rattle.program_review.specs.Causes as why;
ghost use Rattle.program_review.specs.Reasons.{spot_at, spot_of, cause_with, lonely, statement_cause, IsOfPlace, IsProgramReason};
ghost use Rattle.program_review.specs.Spots.{site_of};
ghost use Rattle.program_review.specs.Words.{caused_by, given, of_line, Gives};

use crate::arguments::{argument_fault, within};
use crate::bad_bytes::byte_fault;
use crate::blocks::{Block, open_block};
use crate::causes::{Cause, other_text, worded};
use crate::lines::{first_line, from_line};
use crate::numerals::bad_numeral;
use crate::readings::read;
use crate::statements::Found;
use crate::words::{Fault, Given, Reason, Word};
use dmis_program::{Keyword, Refusal};
use dmis_text::{Statement, Text};
use std::alloc::{AllocError, Global};

/// A refused line of a program.
#[derive(Clone, Copy)]
pub struct Passage<'s, 'a> {
    /// The text of the program, and its bytes from the line on.
    pub text: &'a [u8],
    pub rest: &'a [u8],
    /// The statement that begins on the line, if one does that can be read, and the last one of the text.
    pub statement: Option<&'s Statement<'a>>,
    pub last: Option<&'s Statement<'a>>,
    /// The block that is open above the line.
    pub block: Option<Block<'s>>,
}

fn major_of(keyword: Keyword) -> Cause
    ensures { result ≡ why.major_of keyword }
{
    match keyword {
        Keyword::Dmismn => Cause::SecondStart,
        _ => Cause::NotCarriedOut,
    }
}

fn unsupported<'s>(found: Found<'s, '_>) -> Option<Fault<'s>>
    ensures { given result ≡ why.unsupported (site_of found.entry) }
{
    let Some((first, _)) = found.statement.params.split_first() else {
        return found.at_word(major_of(found.keyword()));
    };
    match found.keyword() {
        Keyword::Goto | Keyword::Ptmeas => found.at_param(0, first, Cause::OtherCoordinates),
        Keyword::Recall => found.at_param(0, first, Cause::OtherRecall),
        keyword => found.at_word(major_of(keyword)),
    }
}

fn zero_direction<'s>(found: Found<'s, '_>) -> Option<Fault<'s>>
    ensures { given result ≡ why.zero_direction (site_of found.entry) }
{
    let params: &[Text] = &found.statement.params;
    match params {
        [_, _, _, _, i, _, _] => found.at_param(4, i, Cause::ZeroDirection),
        _ => None,
    }
}

fn unknown_frame<'s>(found: Found<'s, '_>) -> Option<Fault<'s>>
    ensures { given result ≡ why.unknown_frame (site_of found.entry) }
{
    let name = within(b"D(", found.statement.params.first()?)?;
    found.at_param(0, name, Cause::NoFrame)
}

fn first_at_fault<'s>(found: Found<'s, '_>, cause: Cause) -> Option<Fault<'s>>
    ensures { given result ≡ why.first_at_fault (site_of found.entry) cause }
{
    let first = found.statement.params.first()?;
    found.at_param(0, first, cause)
}

fn inside<'s>(found: Found<'s, '_>, block: Option<Block<'s>>) -> Option<Fault<'s>>
    ensures { given result ≡ option_and_then (why.inside (site_of found.entry))
        (option_map opened_by block.entry) }
{
    found.at_word(Cause::InsideBlock(block?.line))
}

fn few_touches<'s>(found: Found<'s, '_>, block: Option<Block<'s>>) -> Option<Fault<'s>>
    ensures { given result ≡ option_and_then (why.few_touches (site_of found.entry))
        (option_map opened_by block.entry) }
{
    let block = block?;
    found.at_word(Cause::FewTouches(block.line, block.touches))
}

/// Why a statement is refused; none if no statement in this place is refused for this.
fn statement_fault<'s>(
    alloc: Global,
    refusal: Refusal,
    block: Option<Block<'s>>,
    found: Found<'s, '_>,
) -> Given<'s>
    ensures { Gives result (statement_cause refusal (option_map opened_by block.entry)
        (site_of found.entry)) }
{
    match refusal {
        Refusal::NotDmis => Ok(found.at_word(Cause::NotFirst)),
        Refusal::Unsupported => Ok(unsupported(found)),
        Refusal::BadArguments => argument_fault(alloc, found),
        Refusal::BadNumeral(_) => Ok(bad_numeral(found)),
        Refusal::OutsideBlock => Ok(found.at_word(Cause::OutsideBlock)),
        Refusal::InsideBlock => Ok(inside(found, block)),
        Refusal::TooFewPoints => Ok(few_touches(found, block)),
        Refusal::UnknownFrame => Ok(unknown_frame(found)),
        Refusal::NotMillimetres => Ok(first_at_fault(found, Cause::OtherUnit)),
        Refusal::NoProgMode => Ok(first_at_fault(found, Cause::OtherMode)),
        Refusal::ZeroVector => Ok(zero_direction(found)),
        Refusal::NoTool => Ok(found.at_word(Cause::NoTool)),
        Refusal::TooLarge => Ok(found.at_word(Cause::TooLarge)),
        Refusal::Truncated | Refusal::LineTooLong | Refusal::BadByte => Ok(None),
    }
}

fn line_fault<'s>(cause: Cause, bytes: &'s [u8]) -> Option<Fault<'s>>
    ensures { given result ≡ Some (of_line cause) }
{
    let word = Word::of_bytes(bytes);
    Some(Fault { cause, word })
}

fn truncated<'s>(last: Option<&'s Statement<'_>>) -> Option<Fault<'s>>
    ensures { given result ≡ option_map why.ended (option_map (λ s. s.now) last.entry) }
{
    let last = last?;
    line_fault(Cause::Ended(last.line), &last.word)
}

fn without_statement(refusal: Refusal) -> Option<Fault<'static>>
    ensures { given result ≡ lonely refusal }
{
    match refusal {
        Refusal::NotDmis => line_fault(Cause::NoStatement, b""),
        _ => None,
    }
}

fn fault_with<'s>(alloc: Global, refusal: Refusal, p: Passage<'s, '_>) -> Given<'s>
    ensures { Gives result (cause_with (spot_at p.entry).statement refusal (spot_at p.entry)) }
{
    let Some(statement) = p.statement else {
        return Ok(without_statement(refusal));
    };
    let rest = p.rest;
    let found = Found { rest, statement };
    statement_fault(alloc, refusal, p.block, found)
}

fn place_fault<'s>(alloc: Global, refusal: Refusal, p: Passage<'s, '_>) -> Given<'s>
    ensures { IfOk result (λ fault. IsOfPlace refusal (spot_at p.entry) (given fault)) }
{
    match refusal {
        Refusal::Truncated => Ok(truncated(p.last)),
        Refusal::LineTooLong => {
            let count = first_line(p.rest).len();
            Ok(line_fault(Cause::LongLine(count), b""))
        }
        Refusal::BadByte => byte_fault(alloc, p.text, p.rest),
        _ => fault_with(alloc, refusal, p),
    }
}

/// Why a program is refused on a line. If its text is not one that is refused for this, what the refusal means.
#[tactic(auto, using(crate::proofs::ReasonLemmas::reasoned, crate::proofs::ReasonLemmas::unreasoned))]
fn reason_on(alloc: Global, refusal: Refusal, p: Passage) -> Result<Reason, AllocError>
    ensures { IfOk result (λ reason. IsProgramReason refusal (spot_at p.entry) (caused_by reason)) }
{
    match place_fault(alloc, refusal, p)? {
        Some(fault) => {
            let other = other_text(alloc, fault, p)?;
            worded(alloc, fault, &other)
        }
        None => {
            let name = format!(in alloc; "{refusal}")?;
            let (code, _) = name.split_once(' ').unwrap_or((&name, ""));
            Reason::meaning(alloc, code)
        }
    }
}

fn statement_on<'s, 'a>(statements: &'s [Statement<'a>], line: u64) -> Option<&'s Statement<'a>>
    ensures { option_map (λ s. s.now) result ≡ find (λ s. s.line == line) statements.now }
{
    statements.iter().find(|statement| statement.line == line)
}

/// Likewise on the line of this number of a text.
pub(crate) fn program_reason(
    alloc: Global,
    refusal: Refusal,
    text: &[u8],
    number: u64,
) -> Result<Reason, AllocError>
    ensures { IfOk result (λ reason. IsProgramReason refusal (spot_of text.now number)
        (caused_by reason)) }
{
    let reading = read(alloc, text)?;
    let statements = reading.statements.as_slice();
    let passage = Passage {
        text,
        rest: from_line(text, number),
        statement: statement_on(statements, number),
        last: statements.last(),
        block: open_block(statements, number),
    };
    reason_on(alloc, refusal, passage)
}

/// Appends the sentence on a refusal of a program that `write_place` has below the line. Fails only if out of memory, and then nothing is
/// appended.
pub fn write_sentence(
    out: &mut Vec<u8>,
    refusal: Refusal,
    passage: Passage,
) -> Result<(), AllocError>
    ensures { OnErr result (out.new.items ≡ out.old.items) }
{
    let reason = reason_on(*out.allocator(), refusal, passage)?;
    out.extend_from_slice(reason.said.as_bytes())
}
