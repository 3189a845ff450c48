// Findings in the form in which they are printed.

ghost use Rattle.std.specs.Prelude.{◌≡◌, ◌++◌, ◌∷◌, [], codes, string_bytes, IfOk, not, ◌==◌};
ghost use Rattle.std.specs.List.{take_while};
ghost use Rattle.json.specs.Token.{key, string};
ghost use Rattle.deviations.specs.Json.{Puts};
ghost use Rattle.program_review.specs.Printed.{file_of, line_of, kind_text, title_of, title_text, number_text, finding_line, finding_tokens, line_member, code_member, printed, names_of};

use crate::remarks::{Finding, What};
use json::Writer;
use std::alloc::{AllocError, Global};

/// A form in which findings are printed.
#[derive(Clone, Copy, Debug, PartialEq, Eq)]
pub enum FindingForm {
    /// A line for each, for people and editors.
    Lines,
    /// An array with an object for each (RFC 8259), for other programs.
    Json,
}

/// How the findings of a review are printed.
#[derive(Clone, Copy)]
pub struct FindingStyle<'a> {
    /// In which form.
    pub form: FindingForm,
    /// The name of the DMIS program.
    pub program: &'a str,
    /// The name of the machine's setup, if one is named.
    pub setup: &'a str,
}

fn file_of<'a>(style: FindingStyle<'a>, what: What) -> &'a str
    ensures { result.now ≡ file_of (names_of style.entry.program.now style.entry.setup.now) what }
{
    match what {
        What::Unused => style.setup,
        _ => style.program,
    }
}

fn kind_text(what: What) -> &'static str
    ensures { result.now ≡ kind_text what }
{
    match what {
        What::Refused(_, _, _) => "refused",
        What::Passed(_) | What::Clearing(_) => "passed over",
        What::Lack(_) | What::Unused => "setup",
        What::Straight(_) | What::Odd(_) => "odd",
        What::Lowered(_, _) | What::Sum(_) => "summary",
    }
}

fn number_text(alloc: Global, what: What, line: u64) -> Result<String, AllocError>
    ensures { IfOk result (λ text. string_bytes text ≡ number_text (line_of what line)) }
{
    match what {
        What::Lowered(_, _) | What::Sum(_) => Ok(String::new(alloc)),
        _ => format!(in alloc; ":{line}"),
    }
}

fn title_text(alloc: Global, what: What) -> Result<String, AllocError>
    ensures { IfOk result (λ text. string_bytes text ≡ title_text (title_of what)) }
{
    match what {
        What::Refused(refusal, _, _) => format!(in alloc; "{refusal}: "),
        _ => Ok(String::new(alloc)),
    }
}

#[tactic(auto, unfolding(crate::specs::Printed::finding_line))]
fn finding_line(
    alloc: Global,
    style: FindingStyle<'_>,
    finding: &Finding,
) -> Result<String, AllocError>
    ensures { IfOk result (λ text. string_bytes text ≡ finding_line
        (names_of style.entry.program.now style.entry.setup.now) finding.now) }
{
    let remark = finding.remark;
    let file = file_of(style, remark.what);
    let number = number_text(alloc, remark.what, remark.line)?;
    let kind = kind_text(remark.what);
    let title = title_text(alloc, remark.what)?;
    let said = &finding.said;
    format!(in alloc; "{file}{number}: {kind}: {title}{said}\n")
}

fn put_text(json: &mut Writer, name: &str, text: &str) -> Result<(), AllocError>
    ensures { Puts result json.old json.new (key name.now ∷ string text.now ∷ []) }
{
    json.key(name)?;
    json.string(text)
}

fn put_line(json: &mut Writer, what: What, line: u64) -> Result<(), AllocError>
    ensures { Puts result json.old json.new (line_member (line_of what line)) }
{
    json.key("line")?;
    match what {
        What::Lowered(_, _) | What::Sum(_) => json.null(),
        _ => json.u64(line),
    }
}

fn first_word(text: &str) -> &str
    ensures { result.now ≡ take_while (λ c. not (c == 32)) text.now }
{
    match text.split_once(' ') {
        Some((word, _)) => word,
        None => text,
    }
}

fn put_code(alloc: Global, json: &mut Writer, what: What) -> Result<(), AllocError>
    ensures { Puts result json.old json.new (code_member (title_of what)) }
{
    json.key("code")?;
    match what {
        What::Refused(refusal, _, _) => {
            let title = format!(in alloc; "{refusal}")?;
            json.string(first_word(title.as_str()))
        }
        _ => json.null(),
    }
}

#[tactic(auto, unfolding(crate::specs::Printed::finding_tokens))]
fn put_finding(
    alloc: Global,
    json: &mut Writer,
    style: FindingStyle<'_>,
    finding: &Finding,
) -> Result<(), AllocError>
    ensures { Puts result json.old json.new (finding_tokens
        (names_of style.entry.program.now style.entry.setup.now) finding.now) }
{
    let remark = finding.remark;
    json.begin_object()?;
    put_text(json, "file", file_of(style, remark.what))?;
    put_line(json, remark.what, remark.line)?;
    put_text(json, "kind", kind_text(remark.what))?;
    put_code(alloc, json, remark.what)?;
    put_text(json, "text", finding.said.as_str())?;
    json.end_object()
}

pub(crate) fn printed(
    alloc: Global,
    style: FindingStyle<'_>,
    findings: &[Finding],
) -> Result<Vec<u8>, AllocError>
    ensures { IfOk result (λ text. text.items ≡ printed style.entry.form
        (names_of style.entry.program.now style.entry.setup.now) findings.now) }
{
    match style.form {
        FindingForm::Lines => {
            let mut text = Vec::new(alloc);
            for finding in findings {
                let line = finding_line(alloc, style, finding)?;
                text.extend_from_slice(line.as_bytes())?;
            }
            Ok(text)
        }
        FindingForm::Json => {
            let mut json = Writer::new(Vec::new(alloc));
            json.begin_array()?;
            for one in findings {
                put_finding(alloc, &mut json, style, one)?;
            }
            json.end_array()?;
            let mut text = json.into_inner();
            text.extend_from_slice(b"\n")?;
            Ok(text)
        }
    }
}
