// Answers to what a program asks for.

ghost use Rattle.std.specs.Prelude.{◌≡◌, ◌++◌, IfOk, List, bytes_eq};
ghost use Rattle.std.specs.Option.{option_map};
ghost use Rattle.program_flow.specs.Macros.{said_by};
ghost use Rattle.program_lowering.specs.Prompts.{answer_of, answer_to, answered, asked, assigning, first_answer};

use crate::flats::push_capitals;
use dmis_text::{Statement, Statements, TextFault};
use program_flow::is_text;
use std::alloc::{AllocError, Global};
use std::marker::Model;

/// An answer to `NAME=PROMPT/..` (ISO 22093): the name of the variable, and the text of its value.
#[derive(Debug, Drop)]
pub struct Answer {
    name: Vec<u8>,
    /// The line that assigns the text.
    line: Vec<u8>,
}

impl Model for Answer {
    ghost use Rattle.std.specs.Prelude.{◌≡◌, drop};
    ghost use Rattle.program_lowering.specs.Prompts.{Answer, assigning};

    ghost Value = { Answer };

    ghost view = { λ a. record { name = a.name.items; text = drop 7 a.line.items } };

    ghost invariant = { λ a. a.line.items ≡ assigning (drop 7 a.line.items) };
}

/// The statement that a text says which says one, as if it were on this line.
#[tactic(auto, unfolding(program_flow::specs::Macros::said_by))]
fn said<'a>(alloc: Global, line: u64, text: &'a [u8]) -> Result<Option<Statement<'a>>, AllocError>
    ensures { IfOk result (λ said. said ≡ said_by line text.now) }
{
    let mut statements = Statements::new(alloc, text);
    let first = match statements.next() {
        Ok(Some(first)) => first,
        Err(TextFault::Memory) => return Err(AllocError),
        Ok(None) | Err(TextFault::LineTooLong(_) | TextFault::BadByte(_)) => return Ok(None),
    };
    match statements.next() {
        Ok(None) => Ok(Some(Statement { line, ..first })),
        Err(TextFault::Memory) => Err(AllocError),
        Ok(Some(_)) | Err(TextFault::LineTooLong(_) | TextFault::BadByte(_)) => Ok(None),
    }
}

impl Answer {
    /// An answer for the variable of this name, whose small letters count as capitals, as in the labels of a program.
    pub fn new(alloc: Global, name: &[u8], text: &[u8]) -> Result<Answer, AllocError>
        ensures { IfOk result (λ answer. answer ≡ answer_of name.now text.now) }
    {
        let mut capitals = Vec::new(alloc);
        push_capitals(&mut capitals, name)?;
        let mut line = Vec::from_slice(alloc, b"ASSIGN/")?;
        line.extend_from_slice(text)?;
        Ok(Answer {
            name: capitals,
            line,
        })
    }

    /// The name of the variable.
    pub(crate) fn name(&self) -> &[u8]
        ensures { result.now ≡ self.now.name }
    {
        self.name.as_slice()
    }

    /// The line that assigns the text.
    fn line(&self) -> &[u8]
        ensures { result.now ≡ assigning self.now.text }
    {
        self.line.as_slice()
    }

    /// The text.
    pub(crate) fn text(&self) -> &[u8]
        ensures { result.now ≡ self.now.text }
    {
        let (_, text) = self.line.as_slice().split_at(7);
        text
    }
}

/// The line that assigns the first answer of a name.
fn first_line<'a>(answers: &'a [Answer], name: &[u8]) -> Option<&'a [u8]>
    ensures { option_map (λ line. line.now) result
        ≡ option_map assigning (first_answer answers.now name.now) }
{
    let [first, others @ ..] = answers else {
        return None;
    };
    if first.name() == name {
        return Some(first.line());
    }
    first_line(others, name)
}

/// The name that a statement asks a value for.
pub fn asked<'s>(statement: &'s Statement<'_>) -> Option<&'s [u8]>
    ensures { option_map (λ name. name.now) result ≡ asked statement.now }
{
    if !is_text(&statement.word, "PROMPT") {
        return None;
    }
    match &statement.label {
        Some(name) => Some(name),
        None => None,
    }
}

/// Likewise for a statement, if it asks for a value.
fn line_for<'a>(answers: &'a [Answer], statement: &Statement) -> Option<&'a [u8]>
    ensures { option_map (λ line. line.now) result
        ≡ option_map assigning (answer_to answers.now (asked statement.now)) }
{
    let name = asked(statement)?;
    first_line(answers, name)
}

/// A statement with the answer to it, if it asks for a value that has one.
pub(crate) fn answered<'a>(
    alloc: Global,
    answers: &'a [Answer],
    statement: Statement<'a>,
) -> Result<Statement<'a>, AllocError>
    ensures { IfOk result (λ given. given ≡ answered answers.now statement.entry) }
{
    let Some(line) = line_for(answers, &statement) else {
        return Ok(statement);
    };
    match said(alloc, statement.line, line)? {
        Some(said) => Ok(Statement {
            label: statement.label,
            ..said
        }),
        None => Ok(statement),
    }
}
