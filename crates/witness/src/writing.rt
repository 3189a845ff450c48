// The text of what was reported (this profile).

ghost use Rattle.std.specs.Prelude.{◌≡◌, ◌++◌, ◌∷◌, [], OnOk};
ghost use Rattle.witness.specs.Names.{written_tag, last_digit, text_of, spaced, tool_field, known_frame, rule_name, told_fields, told_line, told_lines};

use crate::lines::{Reported, Rule, Side};
use contact_ledger::fields::{add_direction, add_frame, add_name, add_point};
use contact_ledger::{Act, add_entry};
use dme_line::Tag;
use fixed_um::{Frame, Name};
use itoa::Buffer;
use std::alloc::AllocError;

/// The first line of the text, with its LF.
pub const HEADER: &[u8] = b"DME-TOLD 1\n";

fn add_tool(text: &mut Vec<u8>, tool: &Option<Name>) -> Result<(), AllocError>
    ensures { OnOk result (text.new.items
        ≡ text.old.items ++ spaced (tool_field tool.now ∷ [])) }
{
    match tool {
        Some(tool) => add_name(text, tool),
        None => text.extend_from_slice(b" ?"),
    }
}

fn add_known_frame(text: &mut Vec<u8>, frame: Option<Frame>) -> Result<(), AllocError>
    ensures { OnOk result (text.new.items ≡ text.old.items ++ spaced (known_frame frame)) }
{
    match frame {
        Some(frame) => add_frame(text, frame),
        None => text.extend_from_slice(b" ?"),
    }
}

fn rule_name(rule: Rule) -> &'static [u8]
    ensures { result.now ≡ rule_name rule }
{
    match rule {
        Rule::OutOfOrder => b"OutOfOrder",
        Rule::NoData => b"NoData",
        Rule::SecondData => b"SecondData",
        Rule::OtherData => b"OtherData",
        Rule::NotInTurn => b"NotInTurn",
        Rule::TooMany => b"TooMany",
        Rule::UnknownTag => b"UnknownTag",
        Rule::TagInUse => b"TagInUse",
    }
}

#[tactic(auto, using(crate::proofs::TextPieces::pieces))]
fn add_word(text: &mut Vec<u8>, word: &[u8], field: &[u8]) -> Result<(), AllocError>
    ensures { OnOk result (text.new.items
        ≡ text.old.items ++ (word.now ++ spaced (field.now ∷ []))) }
{
    text.extend_from_slice(word)?;
    text.push(b' ')?;
    text.extend_from_slice(field)
}

fn last_digit(value: u32) -> u8
    ensures { result ≡ last_digit value }
{
    b'0' + (value % 10) as u8
}

fn add_tag(text: &mut Vec<u8>, tag: Tag) -> Result<(), AllocError>
    ensures { OnOk result (text.new.items ≡ text.old.items ++ spaced (written_tag tag ∷ [])) }
{
    let (first, number) = match tag {
        Tag::Std(number) => (last_digit(number / 10_000), number),
        Tag::Event(number) => (b'E', u32::from(number)),
    };
    text.push(b' ')?;
    text.push(first)?;
    text.push(last_digit(number / 1000))?;
    text.push(last_digit(number / 100))?;
    text.push(last_digit(number / 10))?;
    text.push(last_digit(number))?;
    Ok(())
}

#[tactic(auto, using(crate::proofs::TextPieces::pieces))]
fn add_fields(text: &mut Vec<u8>, report: &Reported) -> Result<(), AllocError>
    requires { (act : Act) → report.now ≡ Reported.Did act → ⊥ }
    ensures { OnOk result (text.new.items
        ≡ text.old.items ++ spaced (told_fields report.now)) }
{
    match report {
        Reported::Did(_) => unreachable!(),
        Reported::MovedSomewhere(target) => {
            text.extend_from_slice(b" MOVED")?;
            add_point(text, *target)?;
            text.extend_from_slice(b" ?")
        }
        Reported::FramedSomehow => text.extend_from_slice(b" FRAMED ?"),
        Reported::Touched {
            target,
            dir,
            tool,
            frame,
            point,
        } => {
            text.extend_from_slice(b" CONTACT")?;
            add_point(text, *target)?;
            add_direction(text, *dir)?;
            add_tool(text, tool)?;
            add_known_frame(text, *frame)?;
            add_point(text, *point)
        }
        Reported::Other(Side::Client, line) => add_word(text, b" OTHER >", line.as_slice()),
        Reported::Other(Side::Server, line) => add_word(text, b" OTHER <", line.as_slice()),
        Reported::Unasked(line) => add_word(text, b" UNASKED", line.as_slice()),
        Reported::Broken(rule, tag) => {
            add_word(text, b" BROKEN", rule_name(*rule))?;
            add_tag(text, *tag)
        }
        Reported::Opened => text.extend_from_slice(b" OPENED"),
        Reported::Left => text.extend_from_slice(b" LEFT"),
    }
}

/// Adds the line of what was reported on a connection, and its LF. Fails only if out of memory, and then a prefix of the line may be added.
pub fn add_told(text: &mut Vec<u8>, connection: u64, report: &Reported) -> Result<(), AllocError>
    ensures { OnOk result (text.new.items
        ≡ text.old.items ++ text_of (told_line (connection, report.now) ∷ [])) }
{
    if let Reported::Did(act) = report {
        return add_entry(text, connection, act);
    }
    let mut buffer = Buffer::new();
    text.extend_from_slice(buffer.format(connection).as_bytes())?;
    add_fields(text, report)?;
    text.push(b'\n')?;
    Ok(())
}

/// Adds the lines of what was reported on a connection. An `Err` discards the text.
pub fn add_all(text: &mut Vec<u8>, connection: u64, reported: &[Reported]) -> Result<(), AllocError>
    ensures { OnOk result (text.new.items ≡ text.old.items
        ++ told_lines connection reported.now) }
{
    for one in reported {
        add_told(text, connection, one)?;
    }
    Ok(())
}
