// Every refusal of a text.

ghost use Rattle.std.specs.Prelude.{◌≡◌, ◌++◌, [], IfOk, OnOk};
ghost use Rattle.dmis_program.specs.Keywords.{keyword_of};
ghost use Rattle.dmis_program.specs.Meaning.{ended};
ghost use Rattle.program_review.specs.Refusals.{refusals_from, at_start, listed, due, after};
ghost use Rattle.program_review.specs.Taken.{nothing_around};

use crate::Reading;
use crate::groups::{Group, group_of};
use crate::remarks::{Remark, What, push_remark};
use crate::standing::Standing;
use crate::taking::{Around, Taken, taken_by};
use crate::variables::{is_computed_move, push_declared};
use dmis_program::{Frames, Keyword, Refusal, StatementFault, keyword_of_word};
use dmis_text::{Statement, TextFault};
use fixed_um::Name;
use std::alloc::{AllocError, Global};

fn pass(
    remarks: &mut Vec<Remark>,
    names: &[Name],
    around: Around,
    standing: Standing,
    frames: &Frames,
    keyword: Keyword,
    statement: &Statement,
) -> Result<Standing, AllocError>
    requires { keyword ≡ keyword_of statement.now.word }
    ensures listed { OnOk result (remarks.new.items
        ≡ remarks.old.items ++ listed names.now around statement.now
        (due frames.now standing statement.now)) }
    ensures standing { IfOk result (λ next.
        next ≡ after standing keyword (due frames.now standing statement.now)) }
{
    match standing.judge(*remarks.allocator(), frames, keyword, statement) {
        Ok(meaning) => Ok(standing.after_said(keyword, &meaning)),
        Err(StatementFault::Refused(refusal)) => {
            let alloc = *remarks.allocator();
            let computed = is_computed_move(names, refusal, keyword, statement);
            let taken = taken_by(alloc, around, computed, refusal, keyword, statement)?;
            let group = if computed {
                Group::Flow
            } else {
                group_of(refusal, &statement.word)
            };
            let what = What::Refused(refusal, group, taken);
            push_remark(remarks, Some(what), statement.line)?;
            Ok(standing.after_refused(keyword, refusal))
        }
        Err(StatementFault::Memory) => Err(AllocError),
    }
}

fn ended(fault: Option<TextFault>, number: u64, lines: u64) -> (Refusal, u64)
    ensures { result ≡ ended fault number lines }
{
    match fault {
        Some(TextFault::LineTooLong(line)) => (Refusal::LineTooLong, line),
        Some(TextFault::BadByte(line)) => (Refusal::BadByte, line),
        Some(TextFault::Memory) | None if number == 0 => (Refusal::NotDmis, 1),
        Some(TextFault::Memory) | None => (Refusal::Truncated, lines),
    }
}

/// Every refusal of a text with this reading, in the order of its statements; `frames` are those that it may recall. What follows a line that
/// cannot be read is not reviewed. Fails only if out of memory.
pub(crate) fn refusals(
    alloc: Global,
    reading: &Reading,
    frames: &Frames,
) -> Result<Vec<Remark>, AllocError>
    ensures { IfOk result (λ found. found.items ≡ refusals_from frames.now reading.now.fault
        reading.now.lines [] nothing_around at_start reading.now.statements.items) }
{
    let mut standing = Standing::start();
    let mut around = Around::start();
    let mut names: Vec<Name> = Vec::new(alloc);
    let mut remarks = Vec::new(alloc);
    let mut left = reading.statements.as_slice();
    while let [statement, rest @ ..] = left {
        let keyword = keyword_of_word(&statement.word);
        standing = pass(
            &mut remarks,
            names.as_slice(),
            around,
            standing,
            frames,
            keyword,
            statement,
        )?;
        if keyword == Keyword::Endfil {
            return Ok(remarks);
        }
        push_declared(&mut names, statement)?;
        around = around.after(keyword, statement);
        left = rest;
    }
    let (refusal, line) = ended(reading.fault, standing.number, reading.lines);
    let what = What::Refused(refusal, Group::Mistake, Taken::No);
    push_remark(&mut remarks, Some(what), line)?;
    Ok(remarks)
}
