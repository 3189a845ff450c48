// Error lines.

ghost use Rattle.std.specs.Prelude.{◌≡◌, ◌≤◌, ◌<◌, ◌⊎◌, ◌+◌, ◌++◌, length, codes, MatchOption};
ghost use Rattle.fixed_um.specs.Calls.{Grows, HasRoom, Writes};
ghost use Rattle.dme_line.specs.Limits.{error_most};
ghost use Rattle.dme_line.specs.Tags.{HasRoomUnder, IsTag};
ghost use Rattle.dme_line.specs.Words.{quoted};
ghost use Rattle.dme_line.specs.Errors.{number_of, text_of, numbered, error_name, error_report, written_error};

use crate::appending::{append_quoted_reserved, append_reserved};
use crate::commands::Kind;
use crate::tags::{Tag, write_four_digits_reserved, write_tag_reserved};
use std::alloc::AllocError;

/// The most bytes that a written error line has, without its end.
pub const ERROR_MAX: usize = 68;

/// An error that a server answers, by its number and its text (this profile).
#[derive(Clone, Copy, Debug, PartialEq, Eq)]
pub enum ErrorNumber {
    /// A line without a tag.
    NoTag,
    /// A tag under which a command runs or waits.
    TagInUse,
    /// A name that is not a command's.
    UnknownCommand,
    /// Arguments that do not read, or a tag that is not of the command's kind.
    BadArguments,
    /// No session is open.
    NoSession,
    /// A session is open already.
    SessionOpen,
    /// The command was aborted.
    Aborted,
    /// The server is in the error state.
    ErrorState,
    /// As many commands wait as can.
    QueueFull,
    /// The machine is not homed.
    NotHomed,
    /// No tool is in the probe head.
    NoTool,
    /// The rack lacks the tool.
    UnknownTool,
    /// The target is outside the machine's volume.
    OutOfVolume,
    /// A touch met no surface.
    NoSurface,
    /// The machine failed.
    MachineFault,
}

impl ErrorNumber {
    /// The number, from 9001 to 9015.
    pub fn number(self) -> u16
        ensures number { result ≡ number_of self }
        ensures within { (9001 ≤ result) × (result ≤ 9015) }
    {
        match self {
            ErrorNumber::NoTag => 9001,
            ErrorNumber::TagInUse => 9002,
            ErrorNumber::UnknownCommand => 9003,
            ErrorNumber::BadArguments => 9004,
            ErrorNumber::NoSession => 9005,
            ErrorNumber::SessionOpen => 9006,
            ErrorNumber::Aborted => 9007,
            ErrorNumber::ErrorState => 9008,
            ErrorNumber::QueueFull => 9009,
            ErrorNumber::NotHomed => 9010,
            ErrorNumber::NoTool => 9011,
            ErrorNumber::UnknownTool => 9012,
            ErrorNumber::OutOfVolume => 9013,
            ErrorNumber::NoSurface => 9014,
            ErrorNumber::MachineFault => 9015,
        }
    }

    /// What it says.
    pub fn text(self) -> &'static [u8]
        ensures text { result.now ≡ text_of self }
        ensures short { length result.now ≤ 15 }
    {
        match self {
            ErrorNumber::NoTag => b"No tag",
            ErrorNumber::TagInUse => b"Tag in use",
            ErrorNumber::UnknownCommand => b"Unknown command",
            ErrorNumber::BadArguments => b"Bad arguments",
            ErrorNumber::NoSession => b"No session",
            ErrorNumber::SessionOpen => b"Session open",
            ErrorNumber::Aborted => b"Aborted",
            ErrorNumber::ErrorState => b"Error state",
            ErrorNumber::QueueFull => b"Queue full",
            ErrorNumber::NotHomed => b"Not homed",
            ErrorNumber::NoTool => b"No tool",
            ErrorNumber::UnknownTool => b"Unknown tool",
            ErrorNumber::OutOfVolume => b"Out of volume",
            ErrorNumber::NoSurface => b"No surface",
            ErrorNumber::MachineFault => b"Machine fault",
        }
    }

    /// The error of a number; `None` for each number that is not from 9001 to 9015.
    #[tactic(auto, unfolding(crate::specs::Errors::numbered))]
    pub fn numbered(code: u16) -> Option<ErrorNumber>
        ensures error { result ≡ numbered code }
        ensures number { MatchOption result
            ((code < 9001) ⊎ (9015 < code))
            (λ error. number_of error ≡ code) }
    {
        match code {
            9001 => Some(ErrorNumber::NoTag),
            9002 => Some(ErrorNumber::TagInUse),
            9003 => Some(ErrorNumber::UnknownCommand),
            9004 => Some(ErrorNumber::BadArguments),
            9005 => Some(ErrorNumber::NoSession),
            9006 => Some(ErrorNumber::SessionOpen),
            9007 => Some(ErrorNumber::Aborted),
            9008 => Some(ErrorNumber::ErrorState),
            9009 => Some(ErrorNumber::QueueFull),
            9010 => Some(ErrorNumber::NotHomed),
            9011 => Some(ErrorNumber::NoTool),
            9012 => Some(ErrorNumber::UnknownTool),
            9013 => Some(ErrorNumber::OutOfVolume),
            9014 => Some(ErrorNumber::NoSurface),
            9015 => Some(ErrorNumber::MachineFault),
            _ => None,
        }
    }
}

/// The name of the command that failed.
fn error_name(kind: Option<Kind>) -> &'static [u8]
    ensures name { result.now ≡ error_name kind }
    ensures short { length result.now ≤ 20 }
{
    kind.map_or(b"", Kind::name)
}

fn write_quoted_next_reserved(out: &mut Vec<u8>, text: &[u8])
    requires { HasRoom out.old (4 + length text.now) }
    ensures text { out.new.items ≡ out.old.items ++ (codes ", " ++ quoted text.now) }
    ensures grows { Grows out.old out.new (4 + length text.now) }
{
    append_reserved(out, b", ");
    append_quoted_reserved(out, text);
}

fn write_report_reserved(out: &mut Vec<u8>, error: ErrorNumber, kind: Option<Kind>)
    requires { HasRoom out.old 60 }
    ensures text { out.new.items ≡ out.old.items ++ error_report (number_of error) kind }
    ensures grows { Grows out.old out.new 60 }
{
    append_reserved(out, b"Error(3, ");
    write_four_digits_reserved(out, u32::from(error.number()));
    write_quoted_next_reserved(out, error_name(kind));
    write_quoted_next_reserved(out, error.text());
    out.push_reserved(b')');
}

/// Appends the line of an error without its end, as `00005 ! Error(3, 9010, "GoTo", "Not homed")`, at most 68 bytes,
/// and the caller must have made room for them. The command's name is empty if there is no kind.
///
/// Requires a tag whose number has room in its digits.
#[tactic(auto, unfolding(crate::specs::Errors::written_error))]
pub fn write_error_reserved(out: &mut Vec<u8>, tag: Tag, error: ErrorNumber, kind: Option<Kind>)
    requires { HasRoomUnder tag out.old error_most }
    ensures text { out.new.items ≡ out.old.items ++ written_error tag (number_of error) kind }
    ensures grows { Grows out.old out.new error_most }
{
    write_tag_reserved(out, tag);
    append_reserved(out, b" ! ");
    write_report_reserved(out, error, kind);
}

/// Appends the line of an error without its end, as `00005 ! Error(3, 9010, "GoTo", "Not homed")`.
/// Fails only if out of memory, and then appends nothing.
///
/// Requires a tag whose number has room in its digits, and a code from 9001 to 9015.
pub fn write_error(
    out: &mut Vec<u8>,
    tag: Tag,
    code: u16,
    kind: Option<Kind>,
) -> Result<(), AllocError>
    requires tag { IsTag tag }
    requires low { 9001 ≤ code }
    requires high { code ≤ 9015 }
    ensures writes { Writes result out.old out.new (written_error tag code kind) }
{
    let Some(error) = ErrorNumber::numbered(code) else {
        unreachable!();
    };
    out.reserve(ERROR_MAX)?;
    write_error_reserved(out, tag, error, kind);
    Ok(())
}
