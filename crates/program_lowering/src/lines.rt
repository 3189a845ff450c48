// The line that is written of a statement. Texts for the operator are written as they are read.

ghost use Rattle.std.specs.Prelude.{◌≡◌, ◌++◌, codes, decimal, false, is_some, true, OnOk, IfOk};
ghost use Rattle.std.specs.List.{list_all};
ghost use Rattle.dmis_text.specs.Texts.{may_stand};
ghost use Rattle.dmis_program.specs.Keywords.{keyword_of};
ghost use Rattle.program_lowering.specs.Flats.{flat_text, text_for, with_pass};
ghost use Rattle.program_lowering.specs.Lowering.{ended_lines, line_for};
ghost use Rattle.program_lowering.specs.OperatorTexts as spec;

use crate::flats::{is_written, push_number, push_text};
use crate::texts::is_operator_text;
use dmis_program::{Keyword, Refusal, StatementMeaning};
use dmis_text::{Statement, Text};
use std::alloc::{AllocError, Global};

/// The most bytes of a line without its end (this profile).
const LONGEST_LINE: usize = 4096;

/// Whether a byte outside texts may be in a parameter.
fn is_outer(byte: u8) -> bool
    ensures { result ≡ spec.is_outer byte }
{
    byte >= 33 && byte <= 126 && byte != b'$' && byte != b',' && byte.to_ascii_uppercase() == byte
}

/// Whether a byte in a text may be there.
fn is_inner(byte: u8) -> bool
    ensures { result ≡ may_stand true byte }
{
    byte == 9 || (byte >= 32 && byte <= 126) || byte >= 128
}

/// Whether a parameter is read back as it is written.
pub(crate) fn is_plain(param: &[u8]) -> bool
    ensures { result ≡ spec.is_plain false param.now }
{
    let mut inside = false;
    for byte in param {
        if !(if inside {
            is_inner(*byte)
        } else {
            is_outer(*byte)
        }) {
            return false;
        }
        if *byte == b'\'' {
            inside = !inside;
        }
    }
    !inside
}

/// Appends parameters, each after its mark: the first after this one, the others after a comma.
pub(crate) fn push_params(
    out: &mut Vec<u8>,
    first_mark: u8,
    params: &[Text],
) -> Result<(), AllocError>
    ensures { OnOk result (out.new.items ≡ out.old.items ++ spec.marked first_mark params.now) }
{
    let mut mark = first_mark;
    for param in params {
        out.push(mark)?;
        out.extend_from_slice(param)?;
        mark = b',';
    }
    Ok(())
}

/// Appends the text of a statement as it is read.
#[tactic(auto, using(crate::proofs::LineParts::marks))]
fn push_as_read(out: &mut Vec<u8>, statement: &Statement) -> Result<(), AllocError>
    ensures { OnOk result (out.new.items
        ≡ out.old.items ++ flat_text (spec.as_read statement.now)) }
{
    out.extend_from_slice(&statement.word)?;
    push_params(out, b'/', &statement.params)
}

/// Whether each of these parameters is read back as it is written.
pub(crate) fn are_plain(params: &[Text]) -> bool
    ensures { result ≡ list_all (spec.is_plain false) params.now }
{
    params.iter().all(|param| is_plain(param))
}

/// Appends the comment that names a line of the source.
pub(crate) fn push_comment(out: &mut Vec<u8>, line: u64) -> Result<(), AllocError>
    ensures { OnOk result (out.new.items ≡ out.old.items ++ (codes " $$ line " ++ decimal line)) }
{
    out.extend_from_slice(b" $$ line ")?;
    push_number(out, line)
}

/// Why no line can hold a statement that is a text for the operator; none for other statements.
pub(crate) fn text_refusal(
    alloc: Global,
    statement: &Statement,
) -> Result<Option<Refusal>, AllocError>
    ensures { IfOk result (λ refusal. refusal ≡ spec.text_refusal statement.now) }
{
    if !is_operator_text(statement) {
        return Ok(None);
    }
    if !are_plain(&statement.params) {
        return Ok(Some(Refusal::BadByte));
    }
    let mut line = Vec::new(alloc);
    push_as_read(&mut line, statement)?;
    push_comment(&mut line, statement.line)?;
    if line.len() > LONGEST_LINE {
        return Ok(Some(Refusal::LineTooLong));
    }
    Ok(None)
}

/// Appends the text that is written of a statement with this keyword that says this. Whether one is.
fn push_meant(
    out: &mut Vec<u8>,
    keyword: Keyword,
    statement: &Statement,
    meaning: &StatementMeaning,
) -> Result<bool, AllocError>
    requires { keyword ≡ keyword_of statement.now.word }
    ensures text { OnOk result (out.new.items
        ≡ out.old.items ++ text_for (spec.flat_meant statement.now meaning.now)) }
    ensures written { IfOk result (λ written. written
        ≡ is_some (spec.flat_meant statement.now meaning.now)) }
{
    if is_operator_text(statement) {
        push_as_read(out, statement)?;
        return Ok(true);
    }
    push_text(out, keyword, &statement.params, meaning)?;
    Ok(is_written(keyword, meaning))
}

/// A line with the pass over its line of the source, from the second one on, if there is room for it.
fn with_pass(line: Vec<u8>, pass: u64) -> Result<Vec<u8>, AllocError>
    ensures { IfOk result (λ made. made.items ≡ with_pass line.items pass) }
{
    if pass <= 1 {
        return Ok(line);
    }
    let mut longer = Vec::from_slice(*line.allocator(), &line)?;
    longer.extend_from_slice(b", pass ")?;
    push_number(&mut longer, pass)?;
    if longer.len() <= LONGEST_LINE {
        Ok(longer)
    } else {
        Ok(line)
    }
}

/// Appends the line that is written of a statement with this keyword that says this, in this pass; nothing, if nothing is.
#[tactic(auto, using(crate::proofs::LineParts::lines))]
pub(crate) fn push_line(
    out: &mut Vec<u8>,
    keyword: Keyword,
    statement: &Statement,
    pass: u64,
    meaning: &StatementMeaning,
) -> Result<(), AllocError>
    requires { keyword ≡ keyword_of statement.now.word }
    ensures { OnOk result (out.new.items ≡ out.old.items ++ ended_lines
        (line_for statement.now.line pass (spec.flat_meant statement.now meaning.now))) }
{
    let mut line = Vec::new(*out.allocator());
    if !push_meant(&mut line, keyword, statement, meaning)? {
        return Ok(());
    }
    push_comment(&mut line, statement.line)?;
    let line = with_pass(line, pass)?;
    out.extend_from_slice(&line)?;
    Ok(out.push(b'\n')?)
}
