// What a line of a client asks for.

ghost use Rattle.std.specs.Prelude.{◌≡◌, ◌≤◌, length, drop, IfOk};
ghost use Rattle.witness.specs.Names.{prefix_len, is_name_part, command_of};
ghost use Rattle.witness.specs.Asking as spec;

use crate::lines::SentCommand;
use dme_line::{LineFault, Tag, Text, read_command};
use std::alloc::{AllocError, Global};

fn is_name_part(byte: u8) -> bool
    ensures { result ≡ is_name_part byte }
{
    byte != b' ' && byte != b'('
}

fn name_len(text: &[u8]) -> usize
    ensures count { result ≡ prefix_len is_name_part text.now }
    ensures within { result ≤ length text.now }
{
    text.iter().take_while(|byte| is_name_part(**byte)).count()
}

fn opens(text: &[u8]) -> bool
    ensures { result ≡ spec.opens text.now }
{
    let mut rest = text;
    while let [b' ', more @ ..] = rest {
        rest = more;
    }
    rest.first() == Some(&b'(')
}

fn asks_value(name: &[u8]) -> bool
    ensures { result ≡ spec.asks_value name.now }
{
    name.eq_ignore_ascii_case(b"Get")
        || name.eq_ignore_ascii_case(b"GetProp")
        || name.eq_ignore_ascii_case(b"GetPropE")
        || name.eq_ignore_ascii_case(b"EnumProp")
        || name.eq_ignore_ascii_case(b"EnumAllProp")
        || name.eq_ignore_ascii_case(b"OnMoveReportE")
}

fn asks_state(name: &[u8]) -> bool
    ensures { result ≡ spec.asks_state name.now }
{
    name.eq_ignore_ascii_case(b"GetErrStatusE")
        || name.eq_ignore_ascii_case(b"GetXtdErrStatus")
        || name.eq_ignore_ascii_case(b"GetErrorInfo")
        || name.eq_ignore_ascii_case(b"GetDMEVersion")
        || name.eq_ignore_ascii_case(b"GetMachineClass")
        || name.eq_ignore_ascii_case(b"IsUserEnabled")
}

fn asks_setting(name: &[u8]) -> bool
    ensures { result ≡ spec.asks_setting name.now }
{
    name.eq_ignore_ascii_case(b"EnumTools")
        || name.eq_ignore_ascii_case(b"FoundTool")
        || name.eq_ignore_ascii_case(b"GetChangeToolAction")
        || name.eq_ignore_ascii_case(b"GetCsyTransformation")
        || name.eq_ignore_ascii_case(b"GetCoordSystem")
        || name.eq_ignore_ascii_case(b"EnumCoordSystem")
}

/// Whether a line is, after its tag and a space, a command that changes neither tool nor frame (this profile's list): its name in any case, and an
/// opening parenthesis, with any number of spaces between the two. Does not allocate.
pub fn only_asks(line: &[u8]) -> bool
    ensures { result ≡ spec.is_asking (drop 6 line.now) }
{
    let (_, text) = line.split_at(line.len().min(6));
    let (name, rest) = text.split_at(name_len(text));
    (asks_value(name) || asks_state(name) || asks_setting(name)) && opens(rest)
}

/// What a line asks for, with its tag; nothing if it has no valid tag. Fails only if out of memory.
#[tactic(auto, using(crate::proofs::Readings::one_command))]
pub fn sent(alloc: Global, line: &[u8]) -> Result<Option<(Tag, SentCommand)>, AllocError>
    ensures { IfOk result (λ found. found ≡ spec.sent line.now (command_of line.now)) }
{
    match read_command(alloc, line)? {
        Ok((tag, command)) => Ok(Some((tag, SentCommand::Known(command)))),
        Err(LineFault::NoTag) => Ok(None),
        Err(LineFault::UnknownCommand(tag)) if only_asks(line) => {
            Ok(Some((tag, SentCommand::Asking)))
        }
        Err(LineFault::UnknownCommand(tag) | LineFault::BadArguments(tag, _)) => {
            Ok(Some((tag, SentCommand::Foreign(Text::new(alloc, line)?))))
        }
    }
}
