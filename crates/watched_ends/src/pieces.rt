// The order in which the bytes of both ends of a connection came, as a text.

ghost use Rattle.std.specs.Prelude.{◌≡◌, ◌≤◌, ◌++◌, ◌∷◌, [], IfOk, MatchOption, OnOk};
ghost use Rattle.watched_ends.specs.Names.{Finds, side_field};
ghost use Rattle.watched_ends.specs.Pieces as spec;

use contact_ledger::fields::add_number;
use contact_ledger::forms::read_number;
use contact_ledger::lines::cut_line;
use std::alloc::{AllocError, Global};
use witness::Side;

/// The first line of the text, with its LF.
pub const ORDER_HEADER: &[u8] = b"DME-ORDER 1\n";

fn mark_of(side: Side) -> &'static [u8]
    ensures { result.now ≡ side_field side }
{
    match side {
        Side::Client => b">",
        Side::Server => b"<",
    }
}

/// Adds that `count` bytes of an end have come at once. An `Err` discards the text.
pub fn add_piece(text: &mut Vec<u8>, side: Side, count: u64) -> Result<(), AllocError>
    ensures { OnOk result (text.new.items
        ≡ text.old.items ++ (spec.piece_line (side, count) ++ 10 ∷ [])) }
{
    text.extend_from_slice(mark_of(side))?;
    add_number(text, count)?;
    text.push(b'\n')?;
    Ok(())
}

/// The end and the count of a line.
fn read_piece(line: &[u8]) -> Option<(Side, u64)>
    ensures { Finds result (λ p. spec.IsPiece p × (line.now ≡ spec.piece_line p)) }
{
    let (side, count) = match line {
        [b'>', b' ', count @ ..] => (Side::Client, count),
        [b'<', b' ', count @ ..] => (Side::Server, count),
        _ => return None,
    };
    Some((side, read_number(count, u64::MAX)?))
}

/// The pieces of a text, in order; nothing if it is no such text. What follows the last LF is not examined. Fails only if out of memory.
pub fn read_order(alloc: Global, bytes: &[u8]) -> Result<Option<Vec<(Side, u64)>>, AllocError>
    ensures { IfOk result (λ found. MatchOption found (spec.IsNoOrder bytes.now)
        (λ pieces. spec.IsOrder bytes.now pieces.items)) }
{
    let Some((header, after)) = cut_line(bytes) else {
        return Ok(None);
    };
    if header != b"DME-ORDER 1".as_slice() {
        return Ok(None);
    }
    let mut pieces = Vec::new(alloc);
    let mut rest = after;
    while let Some((line, after)) = cut_line(rest) {
        let Some(piece) = read_piece(line) else {
            return Ok(None);
        };
        pieces.push(piece)?;
        rest = after;
    }
    Ok(Some(pieces))
}
