ghost use Rattle.std.specs.Prelude.{◌≡◌, ℕ, ◌+◌, ◌≤◌, ◌==◌, if◌then◌else◌, List, length, take, drop};
ghost use Rattle.line_framing.specs.Names.{w64, trailing_zeros, content_len, HasVerdict, HasFront};

use crate::faults::FramingFault;
use memchr::memchr2;
use std::simd::prelude::*;

/// Stands before LF at a line's end.
const CR: u8 = 13;
/// Follows CR at a line's end.
const LF: u8 = 10;
/// The greatest length of a line without its end, in bytes (this profile).
const LONGEST_LINE: usize = 65_536;

/// How many bytes are examined together.
const LANES: usize = 16;

/// After that many bytes they are searched in larger blocks, which costs more to begin.
const SHORT: usize = 64;

/// How many bytes stand before the first CR or LF, or before the end, by large blocks.
#[inline(never)]
#[tactic(auto, using(crate::proofs::Blocks::first_ends_content, crate::proofs::Blocks::none_ends_content))]
fn count_in_blocks(bytes: &[u8]) -> usize
    ensures count { result ≡ content_len bytes.now }
    ensures within { result ≤ length bytes.now }
{
    match memchr2(CR, LF, bytes) {
        Some(count) => count,
        None => bytes.len(),
    }
}

/// Where the lowest bit is set, or the count of lanes if no bit is.
#[inline(always)]
fn lowest_set(mask: u64) -> usize
    ensures { result ≡ (if mask == 0 then 16 else trailing_zeros w64 mask) }
{
    if mask == 0 {
        LANES
    } else {
        mask.trailing_zeros() as usize
    }
}

/// How many of the sixteen bytes from this place on stand before the first CR or LF among them.
#[inline(always)]
fn count_in_lanes(bytes: &[u8], at: usize) -> usize
    requires { at + 16 ≤ length bytes.now }
    ensures { result ≡ content_len (take 16 (drop at bytes.now)) }
{
    let block = u8x16::from_slice(&bytes[at..]);
    let ends = block.simd_eq(u8x16::splat(CR)) | block.simd_eq(u8x16::splat(LF));
    lowest_set(ends.to_bitmask())
}

/// How many bytes stand before the first CR or LF, or before the end, one byte at a time.
#[inline(always)]
fn count_by_one(bytes: &[u8]) -> usize
    ensures count { result ≡ content_len bytes.now }
    ensures within { result ≤ length bytes.now }
{
    bytes
        .iter()
        .take_while(|byte| **byte != CR && **byte != LF)
        .count()
}

/// Likewise, many bytes at a time.
#[inline(never)]
fn count_content(bytes: &[u8]) -> usize
    ensures count { result ≡ content_len bytes.now }
    ensures within { result ≤ length bytes.now }
{
    let mut at = 0;
    while bytes.len() - at >= LANES && at < SHORT {
        let count = count_in_lanes(bytes, at);
        at += count;
        if count < LANES {
            return at;
        }
    }
    let (_, behind) = bytes.split_at(at);
    if at < SHORT {
        at + count_by_one(behind)
    } else {
        at + count_in_blocks(behind)
    }
}

/// Where the content ends, searched from `searched` on. The bytes before are not examined again.
#[tactic(auto, using(crate::proofs::Buffers::search_goes_on, crate::proofs::Buffers::content_fits))]
#[inline(always)]
pub(crate) fn content_end(bytes: &[u8], searched: usize) -> usize
    requires { searched ≤ content_len bytes.now }
    ensures { result ≡ content_len bytes.now }
{
    let (_, unsearched) = bytes.split_at(searched);
    match unsearched {
        // Lines may come byte by byte.
        [_] => searched + count_by_one(unsearched),
        _ if unsearched.len() < LANES => searched + count_by_one(unsearched),
        _ => searched + count_content(unsearched),
    }
}

/// Whether CR LF follows a content of `count` bytes; false if it may still come.
#[inline(always)]
fn ends_line(count: usize, behind: &[u8]) -> Result<bool, FramingFault>
    ensures { (content : List ℕ) → length content ≡ count → HasVerdict content behind.now result }
{
    if count > LONGEST_LINE {
        return Err(FramingFault::LineTooLong);
    }
    match behind {
        [] | [CR] => Ok(false),
        [CR, LF, ..] => Ok(true),
        _ => Err(FramingFault::BadByte),
    }
}

/// Whether a line is at the front, where the content there ends at `end`.
#[tactic(auto, using(crate::proofs::Buffers::content_fits, crate::proofs::Buffers::has_front))]
#[inline(always)]
pub(crate) fn has_line(bytes: &[u8], end: usize) -> Result<bool, FramingFault>
    requires { end ≡ content_len bytes.now }
    ensures { HasFront bytes.now end result }
{
    let (content, behind) = bytes.split_at(end);
    ends_line(content.len(), behind)
}
