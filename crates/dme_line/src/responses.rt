// Responses, and the lines that carry them.

ghost use Rattle.std.specs.Prelude.{◌≡◌, ◌+◌, ◌++◌, [], codes, OnOk, OnErr, IfOk, MatchOption, Option};
ghost use Rattle.fixed_um.specs.Calls.{Grows, HasRoom, Writes};
ghost use Rattle.dme_line.specs.Limits.{bare_most, data_most, homed_data_most, response_most, text_most};
ghost use Rattle.dme_line.specs.Tags.{written_tag, HasRoomUnder, IsTag};
ghost use Rattle.dme_line.specs.declared.responses.Mark.TheVariants as mark;
ghost use Rattle.dme_line.specs.Responses.{written_mark, written_response, IsWritableResponse, HasText, are_spaces, IsMarkText, HoldsText, HoldsResponseText, ReadsResponse, data_response, homed_response, the_mark, the_response, the_reading};
ghost use Rattle.dme_line.specs.Points.{IsOnWire};

use crate::appending::append_reserved;
use crate::homed::write_homed_reserved;
use crate::points::write_point_reserved;
use crate::tags::{Tag, cut_tag, write_tag_reserved};
use crate::text::Text;
use fixed_um::Point;
use std::alloc::{AllocError, Global};

/// The most bytes that a written response line has, without its end.
pub const RESPONSE_MAX: usize = 200;

/// The most bytes that the line of a data response has, without its end.
pub const DATA_MAX: usize = 57;

/// The most bytes that the line of the answer to `IsHomed` has, without its end.
pub const HOMED_DATA_MAX: usize = 18;

/// What a response reports about its command (I++ DME Interface version 1).
#[derive(Debug, Drop)]
pub enum Mark {
    /// `&`: the command was received.
    Ack,
    /// `#`: data. To be written, a text must have at most 192 bytes and no CR or LF.
    Given(Text),
    /// `%`: the command is complete.
    Done,
    /// `!`: an error. The text has the same limits as that of `Given`.
    Error(Text),
}

/// A response: the tag of its command and a mark.
#[derive(Debug, Drop)]
pub struct Response {
    pub tag: Tag,
    pub mark: Mark,
}

/// A line that is no response: it is not a tag, one space and one of the four marks with what it may hold.
#[derive(Clone, Copy, Debug, PartialEq, Eq)]
pub struct NotResponse;

fn write_mark_reserved(out: &mut Vec<u8>, mark: &Mark)
    requires text { HasText mark.now }
    requires room { HasRoom out.old (2 + text_most) }
    ensures text { out.new.items ≡ out.old.items ++ written_mark mark.now }
    ensures grows { Grows out.old out.new (2 + text_most) }
{
    match mark {
        Mark::Ack => out.push_reserved(b'&'),
        Mark::Given(text) => {
            append_reserved(out, b"# ");
            append_reserved(out, text.as_slice());
        }
        Mark::Done => out.push_reserved(b'%'),
        Mark::Error(text) => {
            append_reserved(out, b"! ");
            append_reserved(out, text.as_slice());
        }
    }
}

/// Appends the line of a response without its end, as `00008 %`, at most 200 bytes; the caller must have made room for them.
///
/// Requires a tag whose number has room in its digits, and a text of at most 192 bytes without CR and LF.
pub fn write_response_reserved(out: &mut Vec<u8>, response: &Response)
    requires response { IsWritableResponse response.now }
    requires room { HasRoom out.old response_most }
    ensures text { out.new.items ≡ out.old.items ++ written_response response.now }
    ensures grows { Grows out.old out.new response_most }
{
    write_tag_reserved(out, response.tag);
    out.push_reserved(b' ');
    write_mark_reserved(out, &response.mark);
}

/// Appends the line of a response without its end, as `00008 %`. Fails only if out of memory, and then appends nothing.
///
/// The caller must ensure what `write_response_reserved` requires, except the room.
pub fn write_response(out: &mut Vec<u8>, response: &Response) -> Result<(), AllocError>
    requires { IsWritableResponse response.now }
    ensures writes { Writes result out.old out.new (written_response response.now) }
{
    out.reserve(RESPONSE_MAX)?;
    write_response_reserved(out, response);
    Ok(())
}

/// Appends the line that a command was received without its end, as `00008 &`, of seven bytes; the caller must have made room for them.
/// It is what `write_response_reserved` appends of `Mark::Ack`.
///
/// Requires a tag whose number has room in its digits.
pub fn write_received_reserved(out: &mut Vec<u8>, tag: Tag)
    requires { HasRoomUnder tag out.old bare_most }
    ensures text { out.new.items ≡ out.old.items
        ++ written_response (record { tag = tag; mark = mark.Ack }) }
    ensures grows { Grows out.old out.new bare_most }
{
    write_tag_reserved(out, tag);
    append_reserved(out, b" &");
}

/// Appends the line that a command is complete without its end, as `00008 %`, of seven bytes; the caller must have made room for them.
/// It is what `write_response_reserved` appends of `Mark::Done`.
///
/// Requires a tag whose number has room in its digits.
pub fn write_complete_reserved(out: &mut Vec<u8>, tag: Tag)
    requires { HasRoomUnder tag out.old bare_most }
    ensures text { out.new.items ≡ out.old.items
        ++ written_response (record { tag = tag; mark = mark.Done }) }
    ensures grows { Grows out.old out.new bare_most }
{
    write_tag_reserved(out, tag);
    append_reserved(out, b" %");
}

/// Appends the start of a data line, its tag and mark; the caller must have made room for its eight bytes.
fn write_data_front_reserved(out: &mut Vec<u8>, tag: Tag)
    requires { HasRoomUnder tag out.old 8 }
    ensures text { out.new.items ≡ out.old.items ++ (written_tag tag ++ codes " # ") }
    ensures grows { Grows out.old out.new 8 }
{
    write_tag_reserved(out, tag);
    append_reserved(out, b" # ");
}

/// Appends the line of a data response without its end, as `00008 # X(1.000), Y(2.000), Z(3.000)`, at most 57 bytes,
/// and the caller must have made room for them. It is what `write_response_reserved` appends of `Mark::Given` with the text of the point.
///
/// Requires a tag whose number has room in its digits.
pub fn write_data_reserved(out: &mut Vec<u8>, tag: Tag, point: Point)
    requires { HasRoomUnder tag out.old data_most }
    ensures text { out.new.items ≡ out.old.items ++ written_response (data_response tag point) }
    ensures grows { Grows out.old out.new data_most }
    ensures on_wire { IsOnWire point }
{
    write_data_front_reserved(out, tag);
    write_point_reserved(out, point);
}

/// Appends the line of a data response without its end, as `00008 # X(1.000), Y(2.000), Z(3.000)`.
/// Fails only if out of memory, and then appends nothing.
///
/// The caller must ensure what `write_data_reserved` requires, except the room.
pub fn write_data(out: &mut Vec<u8>, tag: Tag, point: Point) -> Result<(), AllocError>
    requires { IsTag tag }
    ensures writes { Writes result out.old out.new (written_response (data_response tag point)) }
    ensures on_wire { OnOk result (IsOnWire point) }
{
    out.reserve(DATA_MAX)?;
    write_data_reserved(out, tag, point);
    Ok(())
}

/// Appends the line of the answer to `IsHomed` without its end, as `00003 # IsHomed(1)` if the machine is homed and
/// `00003 # IsHomed(0)` if it is not, of 18 bytes; the caller must have made room for them.
/// It is what `write_response_reserved` appends of `Mark::Given` with the text of the answer.
///
/// Requires a tag whose number has room in its digits.
pub fn write_homed_data_reserved(out: &mut Vec<u8>, tag: Tag, homed: bool)
    requires { HasRoomUnder tag out.old homed_data_most }
    ensures text { out.new.items ≡ out.old.items ++ written_response (homed_response tag homed) }
    ensures grows { Grows out.old out.new homed_data_most }
{
    write_data_front_reserved(out, tag);
    write_homed_reserved(out, homed);
}

/// Appends the line of the answer to `IsHomed` without its end, as `00003 # IsHomed(1)` if the machine is homed and
/// `00003 # IsHomed(0)` if it is not. Fails only if out of memory, and then appends nothing.
///
/// The caller must ensure what `write_homed_data_reserved` requires, except the room.
pub fn write_homed_data(out: &mut Vec<u8>, tag: Tag, homed: bool) -> Result<(), AllocError>
    requires { IsTag tag }
    ensures { Writes result out.old out.new (written_response (homed_response tag homed)) }
{
    out.reserve(HOMED_DATA_MAX)?;
    write_homed_data_reserved(out, tag, homed);
    Ok(())
}

fn are_spaces(text: &[u8]) -> bool
    ensures { result ≡ are_spaces text.now }
{
    text.iter().all(|byte| *byte == b' ')
}

/// A mark whose text is in the line that it was read from.
#[derive(Clone, Copy, Debug)]
pub enum MarkSlice<'a> {
    /// `&`: the command was received.
    Ack,
    /// `#`: data.
    Given(&'a [u8]),
    /// `%`: the command is complete.
    Done,
    /// `!`: an error.
    Error(&'a [u8]),
}

/// A response whose text is in the line that it was read from.
#[derive(Clone, Copy, Debug)]
pub struct ResponseSlice<'a> {
    pub tag: Tag,
    pub mark: MarkSlice<'a>,
}

/// The mark that follows a response's tag and space.
#[inline(always)]
fn cut_mark(text: &[u8]) -> Option<MarkSlice<'_>>
    ensures { MatchOption result
        ((mark : Mark) → IsMarkText text.now mark → ⊥)
        (λ mark. IsMarkText text.now (the_mark mark)) }
{
    match text {
        [b'&', spaces @ ..] => are_spaces(spaces).then_some(MarkSlice::Ack),
        [b'%', spaces @ ..] => are_spaces(spaces).then_some(MarkSlice::Done),
        [b'#', b' ', given @ ..] => Some(MarkSlice::Given(given)),
        [b'!', b' ', given @ ..] => Some(MarkSlice::Error(given)),
        [b'!'] => Some(MarkSlice::Error(&[])),
        _ => None,
    }
}

/// The response that a line without its end stands for, its text left in its place in the line. Does not allocate.
///
/// Spaces after `&` and `%` are accepted; a `!` with nothing after it has an empty text.
#[inline(always)]
pub fn cut_response(line: &[u8]) -> Result<ResponseSlice<'_>, NotResponse>
    ensures { ReadsResponse line.now (the_reading result) }
{
    let (tag, text) = cut_tag(line).ok_or(NotResponse)?;
    let mark = cut_mark(text).ok_or(NotResponse)?;
    Ok(ResponseSlice { tag, mark })
}

/// A mark with a text of its own. Fails only if out of memory.
fn copied(alloc: Global, mark: MarkSlice<'_>) -> Result<Mark, AllocError>
    ensures read { IfOk result (λ m. m ≡ the_mark mark.entry) }
    ensures err { OnErr result (HoldsText (the_mark mark.entry)) }
{
    match mark {
        MarkSlice::Ack => Ok(Mark::Ack),
        MarkSlice::Given(text) => Ok(Mark::Given(Text::new(alloc, text)?)),
        MarkSlice::Done => Ok(Mark::Done),
        MarkSlice::Error(text) => Ok(Mark::Error(Text::new(alloc, text)?)),
    }
}

/// The response that a line without its end stands for, with a text of its own.
///
/// It is that of `cut_response`. The outer `Err` means out of memory, and comes only for the text of a response; the same line may be
/// read again.
pub fn read_response(
    alloc: Global,
    line: &[u8],
) -> Result<Result<Response, NotResponse>, AllocError>
    ensures reads { IfOk result (λ reading. ReadsResponse line.now reading) }
    ensures memory { OnErr result (HoldsResponseText line.now) }
{
    match cut_response(line) {
        Ok(cut) => {
            let mark = copied(alloc, cut.mark)?;
            Ok(Ok(Response { tag: cut.tag, mark }))
        }
        Err(NotResponse) => Ok(Err(NotResponse)),
    }
}
