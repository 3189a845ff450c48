// In which order the lines of both ends came.

ghost use Rattle.std.specs.Prelude.{◌≡◌, ◌≤◌, ◌+◌, ◌<◌, ◌^◌, ◌++◌, None, take, IfOk, IfSome, IfNone, OnOk};
ghost use Rattle.witness.specs.Orders as spec;

use crate::lines::Side;
use line_framing::Line;
use std::alloc::{AllocError, Global};

fn count_of(side: Side, piece: (Side, u64)) -> u64
    ensures { result ≡ spec.count_of side piece }
{
    if piece.0 == side { piece.1 } else { 0 }
}

/// How many bytes of an end pieces have; nothing if they are more than `most`.
fn bytes_of(side: Side, pieces: &[(Side, u64)], most: usize) -> Option<usize>
    ensures count { IfSome result (λ n. n ≡ spec.bytes_of side pieces.now) }
    ensures within { IfSome result (λ n. n ≤ most) }
    ensures more { result ≡ None → most < spec.bytes_of side pieces.now }
{
    let mut left = most;
    for piece in pieces {
        let count = count_of(side, *piece);
        if (left as u64) < count {
            return None;
        }
        left -= count as usize;
    }
    Some(most - left)
}

/// The first bytes of two recordings, which are those that the pieces have, and whether these are all; nothing if an end has fewer.
pub fn first_bytes<'a>(
    up: &'a [u8],
    down: &'a [u8],
    pieces: &[(Side, u64)],
) -> Option<(&'a [u8], &'a [u8], bool)>
    ensures others { IfNone result (spec.AreOthers up.now down.now pieces.now) }
    ensures up { IfSome result (λ r. r.0.now ≡ take (spec.bytes_of Side.Client pieces.now) up.now) }
    ensures down { IfSome result (λ r. r.1.now
        ≡ take (spec.bytes_of Side.Server pieces.now) down.now) }
    ensures first { IfSome result (λ r. spec.HasFirst up.now down.now pieces.now r.2) }
{
    let up_count = bytes_of(Side::Client, pieces, up.len())?;
    let down_count = bytes_of(Side::Server, pieces, down.len())?;
    let (first_up, _) = up.split_at(up_count);
    let (first_down, _) = down.split_at(down_count);
    let is_whole = up_count == up.len() && down_count == down.len();
    Some((first_up, first_down, is_whole))
}

/// How far the bytes of an end have come.
#[derive(Clone, Copy, Default)]
pub struct Place {
    /// How many bytes came.
    pub bytes: usize,
    /// How many lines are whole in them.
    pub at: usize,
    /// How many bytes follow these.
    pub left: usize,
}

fn advance(lines: &[Line], place: Place, count: usize) -> Place
    requires at { spec.IsAt lines.now place }
    requires room { place.bytes + count < 2 ^ 63 }
    ensures at { spec.IsAt lines.now result }
    ensures bytes { result.bytes ≡ place.bytes + count }
    ensures later { place.at ≤ result.at }
{
    let bytes = place.bytes + count;
    let mut left = place.left + count;
    for at in place.at..lines.len() {
        let line = lines[at].as_slice();
        if left < line.len() + 2 {
            return Place { bytes, at, left };
        }
        left -= line.len() + 2;
    }
    let at = lines.len();
    Place { bytes, at, left }
}

/// For each line of the server, how many lines of the client were whole when it was. Fails only if out of memory.
#[tactic(auto, using(crate::proofs::OrderLemmas::at_start))]
pub(crate) fn seen_lines(
    alloc: Global,
    pieces: &[(Side, u64)],
    up: &[Line],
    down: &[Line],
) -> Result<Vec<usize>, AllocError>
    requires client { spec.bytes_of Side.Client pieces.now < 2 ^ 63 }
    requires server { spec.bytes_of Side.Server pieces.now < 2 ^ 63 }
    ensures { IfOk result (λ seen. seen.items ≡ spec.seen_lines pieces.now up.now down.now) }
{
    let mut seen = Vec::new(alloc);
    let mut client = Place::default();
    let mut server = client;
    for piece in pieces {
        client = advance(up, client, count_of(Side::Client, *piece) as usize);
        let before = server.at;
        server = advance(down, server, count_of(Side::Server, *piece) as usize);
        seen.resize(seen.len() + (server.at - before), client.at)?;
    }
    Ok(seen)
}
