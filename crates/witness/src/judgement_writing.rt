// What is printed of a judgement.

ghost use Rattle.std.specs.Prelude.{◌≡◌, ◌++◌, ◌<◌, length, slice_get, OnOk, IfOk, string_bytes};
ghost use Rattle.witness.specs.JudgementNames.{Writes, kind_name, kinds};
ghost use Rattle.witness.specs.JudgementTexts as spec;

use crate::counts::KINDS;
use crate::judgement::{Break, Judgement};
use crate::rules::Rule;
use dme_line::Kind;
use session_telling::visible;
use std::alloc::{AllocError, Global};

fn rule_name(rule: Rule) -> &'static str
    ensures { result.now ≡ spec.rule_name rule }
{
    match rule {
        Rule::NoTag => "NoTag",
        Rule::TagInUse => "TagInUse",
        Rule::UnknownCommand => "UnknownCommand",
        Rule::WrongTag => "WrongTag",
        Rule::BadArguments => "BadArguments",
        Rule::NoSession => "NoSession",
        Rule::SessionOpen => "SessionOpen",
        Rule::QueueFull => "QueueFull",
        Rule::NotResponse => "NotResponse",
        Rule::UnknownTag => "UnknownTag",
        Rule::NotSent => "NotSent",
        Rule::OutOfOrder => "OutOfOrder",
        Rule::NoData => "NoData",
        Rule::SecondData => "SecondData",
        Rule::OtherData => "OtherData",
        Rule::NotInTurn => "NotInTurn",
        Rule::NotCleared => "NotCleared",
        Rule::NoEnd => "NoEnd",
        Rule::LineTooLong => "LineTooLong",
        Rule::BadByte => "BadByte",
    }
}

fn kind_word(kind: Kind) -> &'static str
    ensures { result.now ≡ kind_name kind }
{
    match kind {
        Kind::StartSession => "StartSession",
        Kind::EndSession => "EndSession",
        Kind::ClearAllErrors => "ClearAllErrors",
        Kind::IsHomed => "IsHomed",
        Kind::Home => "Home",
        Kind::OnPtMeasReport => "OnPtMeasReport",
        Kind::GoTo => "GoTo",
        Kind::PtMeas => "PtMeas",
        Kind::ChangeTool => "ChangeTool",
        Kind::SetCsyTransformation => "SetCsyTransformation",
        Kind::SetCoordSystem => "SetCoordSystem",
        Kind::AbortE => "AbortE",
    }
}

fn push_break(text: &mut String, side: &str, broken: &Option<Break>) -> Result<(), AllocError>
    ensures { OnOk result (string_bytes text.new ≡ string_bytes text.old
        ++ spec.end_text side.now broken.now) }
{
    let Some(broken) = broken else {
        return Ok(());
    };
    let number = broken.number;
    let name = rule_name(broken.rule);
    let line = broken.line.as_slice();
    let space = if line.is_empty() { "" } else { " " };
    let line = visible(*text.allocator(), line)?;
    writeln!(text, "{side} LINE {number} {name}{space}{line}")
}

fn push_count(text: &mut String, word: &str, count: usize) -> Result<(), AllocError>
    ensures { OnOk result (string_bytes text.new ≡ string_bytes text.old
        ++ spec.count_text word.now count) }
{
    if count == 0 {
        return Ok(());
    }
    writeln!(text, "{word} {count}")
}

fn push_commands(text: &mut String, counts: &[usize]) -> Result<(), AllocError>
    ensures { OnOk result (string_bytes text.new ≡ string_bytes text.old
        ++ spec.commands_text 0 counts.now) }
{
    for at in 0..counts.len() {
        let word = KINDS.get(at).map_or("other", |kind| kind_word(*kind));
        push_count(text, word, counts[at])?;
    }
    Ok(())
}

fn push_marks(text: &mut String, counts: &[usize]) -> Result<(), AllocError>
    ensures { OnOk result (string_bytes text.new ≡ string_bytes text.old
        ++ spec.marks_text counts.now) }
{
    let [received, given, complete, errors] = counts else {
        return Ok(());
    };
    push_count(text, "&", *received)?;
    push_count(text, "#", *given)?;
    push_count(text, "%", *complete)?;
    push_count(text, "!", *errors)
}

fn text_of(alloc: Global, judgement: &Judgement) -> Result<String, AllocError>
    ensures { IfOk result (λ text. string_bytes text ≡ spec.judgement_text judgement.now) }
{
    let mut text = String::new(alloc);
    if judgement.client.is_none() && judgement.server.is_none() {
        text.push_str("dme: no line breaks the rules\n")?;
        push_commands(&mut text, judgement.commands.as_slice())?;
        push_marks(&mut text, judgement.marks.as_slice())?;
    } else {
        push_break(&mut text, "CLIENT", &judgement.client)?;
        push_break(&mut text, "SERVER", &judgement.server)?;
    }
    Ok(text)
}

/// Appends what is printed of a judgement, and answers the exit status: the first line of either end that breaks a rule, the client's first, 3;
/// or that no line does, and the counts that are not 0, 0 (this profile). Fails only if out of memory, and then appends nothing.
#[tactic(auto, using(crate::proofs::TextLemmas::some_text))]
pub fn write_judgement(out: &mut Vec<u8>, judgement: &Judgement) -> Result<u8, AllocError>
    ensures text { Writes result out.old out.new (spec.judgement_text judgement.now) }
    ensures some { 0 < length (spec.judgement_text judgement.now) }
    ensures status { IfOk result (λ status. status ≡ spec.judgement_status judgement.now) }
{
    let text = text_of(*out.allocator(), judgement)?;
    out.extend_from_slice(text.as_bytes())?;
    if judgement.client.is_none() && judgement.server.is_none() {
        return Ok(0);
    }
    Ok(3)
}
