// Statements that are held as texts.

ghost use Rattle.std.specs.Prelude.{◌≡◌, ◌++◌, List, IfOk, is_some};
ghost use Rattle.program_flow.specs.Left.{IsGiven};
ghost use Rattle.program_flow.specs.Macros.{said_by};
ghost use Rattle.program_flow.specs.SaidLines.{Says};
ghost use Rattle.dmis_text.specs.declared.elements.Statement.{Statement};

use crate::flow::Given;
use dmis_text::{Statement, Statements, TextFault};
use std::alloc::{AllocError, Global};
use std::marker::Model;

/// A text that says one statement, as if it were on this line. Contracts see the statement.
#[derive(Drop)]
pub struct Line {
    line: u64,
    text: Vec<u8>,
}

impl Model for Line {
    ghost use Rattle.std.specs.Prelude.{◌≡◌, is_some, true};
    ghost use Rattle.dmis_text.specs.declared.elements.Statement.{Statement};
    ghost use Rattle.program_flow.specs.Macros.{said_by};
    ghost use Rattle.program_flow.specs.SaidLines.{the_said};

    ghost Value = { Statement };

    ghost view = { λ l. the_said (said_by l.line l.text.items) };

    ghost invariant = { λ l. is_some (said_by l.line l.text.items) ≡ true };
}

/// Whether a text says one statement and nothing else.
#[tactic(auto, unfolding(crate::specs::Macros::said_by))]
fn says_one(alloc: Global, text: &[u8]) -> Result<bool, AllocError>
    ensures { IfOk result (λ yes. yes ≡ is_some (said_by 1 text.now)) }
{
    let mut statements = Statements::new(alloc, text);
    match statements.next() {
        Ok(Some(_)) => {}
        Err(TextFault::Memory) => return Err(AllocError),
        Ok(None) | Err(TextFault::LineTooLong(_) | TextFault::BadByte(_)) => return Ok(false),
    }
    match statements.next() {
        Ok(None) => Ok(true),
        Err(TextFault::Memory) => Err(AllocError),
        Ok(Some(_)) | Err(TextFault::LineTooLong(_) | TextFault::BadByte(_)) => Ok(false),
    }
}

/// The statement that a text says, as if it were on this line.
fn read_one(alloc: Global, line: u64, text: &[u8]) -> Result<Statement<'_>, AllocError>
    requires { (s : Statement) × Says text.now s }
    ensures { (s : Statement) → Says text.now s
        → IfOk result (λ given. given ≡ record s { line = line }) }
{
    let mut statements = Statements::new(alloc, text);
    match statements.next() {
        Ok(Some(statement)) => Ok(Statement { line, ..statement }),
        Err(TextFault::Memory) => Err(AllocError),
        Ok(None) | Err(TextFault::LineTooLong(_) | TextFault::BadByte(_)) => unreachable!(),
    }
}

impl Line {
    /// The statement that a text says; none, if it says none or several.
    pub(crate) fn new(alloc: Global, line: u64, text: Vec<u8>) -> Result<Option<Line>, AllocError>
        ensures { IfOk result (λ made. made ≡ said_by line text.items) }
    {
        if !says_one(alloc, &text)? {
            return Ok(None);
        }
        Ok(Some(Line { line, text }))
    }

    /// The line of the statement.
    pub(crate) fn line(&self) -> u64
        ensures { result ≡ self.now.line }
    {
        self.line
    }

    /// The statement, read again.
    pub(crate) fn read(&self, alloc: Global) -> Result<Statement<'_>, AllocError>
        ensures { IfOk result (λ statement. statement ≡ self.now) }
    {
        read_one(alloc, self.line, &self.text)
    }

    /// The statement, with a text of its own.
    pub(crate) fn given(&self, alloc: Global) -> Result<Given, AllocError>
        ensures { IfOk result (λ given. (others : List Statement) → IsGiven others given self.now) }
    {
        let text = Vec::from_slice(alloc, &self.text)?;
        Ok(Given::Made(self.line, text))
    }
}

/// All statements, read again.
pub(crate) fn read_lines(alloc: Global, lines: &[Line]) -> Result<Vec<Statement<'_>>, AllocError>
    ensures { IfOk result (λ statements. statements.items ≡ lines.now) }
{
    let mut statements = Vec::new(alloc);
    let mut left = lines;
    while let [first, others @ ..] = left {
        statements.push(first.read(alloc)?)?;
        left = others;
    }
    Ok(statements)
}
