// The findings in a program, with their sentences.

ghost use Rattle.std.specs.Prelude.{◌≡◌, IfOk};
ghost use Rattle.program_review.specs.Findings.{remarks_in};
ghost use Rattle.program_review.specs.Remarks.{with_counts};

use crate::blocks::{Block, block_after};
use crate::odd::Odd;
use crate::programs::{Passage, write_sentence};
use crate::remarks::{Finding, Remark, What, counted};
use crate::sentences::{statement_sentence, taken_end, travel_sentence};
use dmis_program::Refusal;
use dmis_text::{Statement, cut_line};
use std::alloc::{AllocError, Global};

/// The most bytes of a program, from a refused line on, that the words of its statement are looked for in.
const MOST_OF_STATEMENT: usize = 65_536;

/// What sentences are about, up to the remark whose sentence is written: the line that was reached and the text from it on, the statements that
/// are left, and the block that is open above them.
#[derive(Drop)]
struct Walk<'s, 'a> {
    text: &'a [u8],
    rest: &'a [u8],
    number: u64,
    left: &'s [Statement<'a>],
    last: Option<&'s Statement<'a>>,
    block: Option<Block<'s>>,
}

impl<'s, 'a> Walk<'s, 'a> {
    fn reach(&mut self, line: u64) {
        let mut left = self.left;
        while let [statement, later @ ..] = left {
            if statement.line >= line {
                break;
            }
            self.block = block_after(self.block, statement);
            left = later;
        }
        self.left = left;
        for number in self.number..line {
            let Some((_, rest)) = cut_line(self.rest) else {
                break;
            };
            self.rest = rest;
            self.number = number + 1;
        }
    }

    fn passage(&self, refusal: Refusal, line: u64) -> Passage<'s, 'a> {
        let most = match refusal {
            Refusal::LineTooLong | Refusal::BadByte => self.rest.len(),
            _ => self.rest.len().min(MOST_OF_STATEMENT),
        };
        let (rest, _) = self.rest.split_at(most);
        Passage {
            text: self.text,
            rest,
            statement: self.left.first().filter(|first| first.line == line),
            last: self.last,
            block: self.block,
        }
    }

    /// The sentence of a remark. Remarks come in the order of their lines.
    fn sentence(&mut self, alloc: Global, remark: Remark) -> Result<String, AllocError> {
        self.reach(remark.line);
        match (remark.what, self.left) {
            (What::Refused(refusal, _, taken), _) => {
                let mut said = Vec::new(alloc);
                write_sentence(&mut said, refusal, self.passage(refusal, remark.line))?;
                said.extend_from_slice(taken_end(taken).as_bytes())?;
                String::from_utf8_lossy(alloc, said.as_slice())
            }
            (What::Straight(travel), _) => travel_sentence(alloc, travel),
            (What::Odd(Odd::Mark), _) => String::from_str(
                alloc,
                "The text begins with a byte order mark: save it without one.",
            ),
            (_, [statement, ..]) => statement_sentence(alloc, statement, remark),
            _ => Ok(String::new(alloc)),
        }
    }
}

/// The findings of remarks on a program's text with these statements, in their order, each with its sentence; those on clearing are counted.
pub(crate) fn findings_in<'a>(
    alloc: Global,
    text: &'a [u8],
    statements: &[Statement<'a>],
    remarks: &[Remark],
) -> Result<Vec<Finding>, AllocError>
    ensures { IfOk result (λ findings. remarks_in findings.items ≡ with_counts remarks.now) }
{
    let mut walk = Walk {
        text,
        rest: text,
        number: 1,
        left: statements,
        last: statements.last(),
        block: None,
    };
    let mut findings = Vec::new(alloc);
    let mut left = remarks;
    while let [remark, later @ ..] = left {
        let what = counted(remark.what, later);
        let line = remark.line;
        let counted = Remark { what, line };
        let remark = &counted;
        let said = walk.sentence(alloc, *remark)?;
        let remark = *remark;
        findings.push(Finding { remark, said })?;
        left = later;
    }
    Ok(findings)
}
