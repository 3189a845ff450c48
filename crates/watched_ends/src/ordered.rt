// The text of what two recordings report, if the order between the two ends is known.

ghost use Rattle.std.specs.Prelude.{◌≡◌, length, IfOk, MatchOption};
ghost use Rattle.watched_ends.specs.Names.{bytes_of};
ghost use Rattle.watched_ends.specs.Pieces as spec;

use crate::limits::LimitedRelay;
use crate::pieces::read_order;
use std::alloc::{AllocError, Global};
use witness::{HEADER, Side, first_bytes};

fn came_text(
    alloc: Global,
    relay: &mut LimitedRelay,
    up: &[u8],
    down: &[u8],
    pieces: &[(Side, u64)],
) -> Result<Vec<u8>, AllocError>
    requires up { bytes_of Side.Client pieces.now ≡ length up.now }
    requires down { bytes_of Side.Server pieces.now ≡ length down.now }
    ensures { IfOk result (λ text. spec.AreReported relay.old up.now down.now pieces.now
        text.items) }
{
    let mut up_left = up;
    let mut down_left = down;
    for (side, count) in pieces {
        match side {
            Side::Client => {
                let (piece, left) = up_left.split_at(*count as usize);
                relay.from_client(piece)?;
                relay.read()?;
                up_left = left;
            }
            Side::Server => {
                let (piece, left) = down_left.split_at(*count as usize);
                relay.from_server(piece)?;
                relay.read()?;
                down_left = left;
            }
        }
    }
    let mut text = Vec::from_slice(alloc, HEADER)?;
    text.extend_from_slice(relay.due())?;
    Ok(text)
}

/// What a server reported on a connection, by bytes that came from both ends in this order: the text, and whether all bytes came; nothing if that
/// is not the text of an order, or has more bytes than there are. Fails only if out of memory.
pub fn ordered_ledger_text(
    alloc: Global,
    connection: u64,
    up: &[u8],
    down: &[u8],
    order: &[u8],
) -> Result<Option<(Vec<u8>, bool)>, AllocError>
    ensures { IfOk result (λ found. MatchOption found (spec.IsUnfit up.now down.now order.now)
        (λ l. spec.IsReportedIn connection up.now down.now order.now l.0.items l.1)) }
{
    let Some(pieces) = read_order(alloc, order)? else {
        return Ok(None);
    };
    let Some((up, down, is_whole)) = first_bytes(up, down, pieces.as_slice()) else {
        return Ok(None);
    };
    let mut relay = LimitedRelay::new(alloc, connection);
    let text = came_text(alloc, &mut relay, up, down, pieces.as_slice());
    drop(relay);
    Ok(Some((text?, is_whole)))
}
