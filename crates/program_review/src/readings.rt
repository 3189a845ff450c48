// A program's text, read once.

ghost use Rattle.std.specs.Prelude.{IfOk};
ghost use Rattle.program_review.specs.Readings.{IsReadingOf};

use dmis_text::{Statement, Statements, TextFault};
use std::alloc::{AllocError, Global};

/// What a text says: its statements up to a line that cannot be read.
#[derive(Drop)]
pub struct Reading<'a> {
    pub statements: Vec<Statement<'a>>,
    /// Why the line after them cannot be read, if there is one; never because memory ran out.
    pub fault: Option<TextFault>,
    /// How many lines the whole text has.
    pub lines: u64,
}

/// Reads a program's text. Fails only if out of memory.
pub fn read(alloc: Global, text: &[u8]) -> Result<Reading<'_>, AllocError>
    ensures { IfOk result (λ r. IsReadingOf text.now r) }
{
    let mut left = Statements::new(alloc, text);
    let lines = left.lines();
    let mut statements = Vec::new(alloc);
    loop {
        let fault = match left.next() {
            Ok(Some(statement)) => {
                statements.push(statement)?;
                continue;
            }
            Ok(None) => None,
            Err(TextFault::LineTooLong(line)) => Some(TextFault::LineTooLong(line)),
            Err(TextFault::BadByte(line)) => Some(TextFault::BadByte(line)),
            Err(TextFault::Memory) => return Err(AllocError),
        };
        return Ok(Reading {
            statements,
            fault,
            lines,
        });
    }
}
