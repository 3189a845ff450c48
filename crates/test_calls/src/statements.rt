// Statements of DMIS texts.

use crate::shown::push_visible;
use crate::stop::{Pushed, Stop};
use crate::tried::push_refused;
use dmis_text::{Statement, Statements, TextFault};
use std::io::Write;

/// Appends `line:[label]word|p1|p2;`, with a `?` if a text was left open.
fn push_statement(out: &mut Vec<u8>, statement: &Statement) -> Pushed {
    write!(out, "{}:", statement.line)?;
    if let Some(label) = &statement.label {
        out.push(b'[')?;
        push_visible(out, label)?;
        out.push(b']')?;
    }
    push_visible(out, &statement.word)?;
    for param in statement.params.iter() {
        out.push(b'|')?;
        push_visible(out, param)?;
    }
    let open = if statement.is_open() { "?" } else { "" };
    Ok(write!(out, "{open};")?)
}

/// The next statement of a text; it is read once more if memory is short for it.
fn next<'a>(
    out: &mut Vec<u8>,
    statements: &mut Statements<'a>,
) -> Result<Result<Option<Statement<'a>>, TextFault>, Stop> {
    let before = statements.lines();
    match statements.next() {
        Err(TextFault::Memory) if statements.lines() == before => {
            push_refused(out, b"", b"")?;
            Ok(statements.next())
        }
        Err(TextFault::Memory) => Err(Stop::Changed),
        answer => Ok(answer),
    }
}

/// The next statement; at the end the count of lines, and after a refusal why. Answers whether it is over.
fn push_next(out: &mut Vec<u8>, statements: &mut Statements) -> Result<bool, Stop> {
    match next(out, statements)? {
        Ok(Some(statement)) => {
            push_statement(out, &statement)?;
            return Ok(false);
        }
        Ok(None) => write!(out, "end {}", statements.lines())?,
        Err(TextFault::LineTooLong(line)) => write!(out, "too long {line}")?,
        Err(TextFault::BadByte(line)) => write!(out, "bad byte {line}")?,
        Err(TextFault::Memory) => return Err(Stop::ForEver),
    }
    Ok(true)
}

/// The statements of a text, at most twenty, and what follows them, which is answered twice.
pub(crate) fn push_statements(out: &mut Vec<u8>, text: &[u8]) -> Pushed {
    let mut statements = Statements::new(*out.allocator(), text);
    for _ in 0..20u32 {
        if push_next(out, &mut statements)? {
            write!(out, ", ")?;
            let _over = push_next(out, &mut statements)?;
            return Ok(());
        }
    }
    Ok(write!(out, "more than twenty")?)
}
