// What no clause says about framing, in addition to the rows of test_calls: the longest line; and a line outlives its buffer.

use line_framing::{FramingFault, Line, Lines, LinesFault};
use std::alloc::Global;
use std::test::Fail;

/// Feeds a piece and asks for a line.
fn fed(lines: &mut Lines, piece: &[u8]) -> Result<Option<Line>, LinesFault> {
    lines.feed(piece)?;
    lines.next_line()
}

fn is_line(line: &Option<Line>, bytes: &[u8]) -> bool {
    matches!(line, Some(line) if line.as_slice() == bytes)
}

/// Whether a piece gives this line.
fn gives(lines: &mut Lines, piece: &[u8], line: &[u8]) -> bool {
    matches!(&fed(lines, piece), Ok(found) if is_line(found, line))
}

/// Whether a piece gives no line.
fn gives_none(lines: &mut Lines, piece: &[u8]) -> bool {
    matches!(fed(lines, piece), Ok(None))
}

fn is_too_long(lines: &mut Lines, piece: &[u8]) -> bool {
    let fault = fed(lines, piece).err();
    fault == Some(LinesFault::Framing(FramingFault::LineTooLong))
}

/// Whether these letters A, one by one or as a whole, are a line once its LF comes, and with a byte more are refused.
fn is_longest(lines: &mut Lines, longest: &[u8]) -> bool {
    for _ in longest {
        if !gives_none(lines, b"A") {
            return false;
        }
    }
    gives_none(lines, b"\r")
        && gives(lines, b"\n", longest)
        && gives_none(lines, longest)
        && gives(lines, b"\r\n", longest)
        && gives_none(lines, longest)
        && is_too_long(lines, b"A\n")
}

#[test]
fn the_longest_line_has_65536_bytes(rt: HostRuntime) -> Result<(), Fail> {
    let longest = vec![in rt.alloc(); b'A'; 65_536]?;
    let mut lines = Lines::new(rt.alloc());
    assert!(rt; is_longest(&mut lines, longest.as_slice()));
    assert_eq!(rt; lines.rest().len(), 65_538);
    Ok(())
}

/// Two lines, if they have come.
type Two = (Option<Line>, Option<Line>);

/// The two lines of two replies, from a buffer that is then filled, cleared, fed another line and dropped; none if that line does not come.
fn outlived(alloc: Global, piece: &[u8]) -> Result<Two, LinesFault> {
    let mut lines = Lines::new(alloc);
    let replies = b"00008 # X(10.002), Y(20.000), Z(25.000)\r\n00008 %\r\n";
    let two = (fed(&mut lines, replies)?, lines.next_line()?);
    for _ in 0..3u32 {
        lines.feed(piece)?;
    }
    lines.clear();
    let is_other = gives(&mut lines, b"B\r\n", b"B");
    drop(lines);
    Ok(if is_other { two } else { (None, None) })
}

fn are_replies(two: &Two) -> bool {
    is_line(&two.0, b"00008 # X(10.002), Y(20.000), Z(25.000)") && is_line(&two.1, b"00008 %")
}

#[test]
fn a_line_outlives_its_buffer(rt: HostRuntime) -> Result<(), Fail> {
    let piece = vec![in rt.alloc(); b'A'; 65_536]?;
    let two = outlived(rt.alloc(), piece.as_slice())?;
    assert!(rt; are_replies(&two));
    Ok(())
}
