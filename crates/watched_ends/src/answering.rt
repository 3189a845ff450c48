// What is printed of two recordings.

ghost use Rattle.std.specs.Prelude.{◌≡◌, ◌≢◌, [], IfOk};
ghost use Rattle.witness.specs.JudgementTexts.{judgement_text, judgement_status};
ghost use Rattle.watched_ends.specs.Jobs as spec;

use crate::{Job, Order, read_order, recorded_text};
use std::alloc::{AllocError, Global};
use witness::{Judgement, first_bytes, judge, write_judgement};

/// The text of a judgement, and its status. Fails only if out of memory.
fn text_of(alloc: Global, judgement: &Judgement) -> Result<(Vec<u8>, u8), AllocError>
    ensures text { IfOk result (λ r. r.0.items ≡ judgement_text judgement.now) }
    ensures status { IfOk result (λ r. r.1 ≡ judgement_status judgement.now) }
{
    let mut text = Vec::new(alloc);
    let status = write_judgement(&mut text, judgement)?;
    Ok((text, status))
}

/// Likewise of recordings and the text of their order, which is not empty; and what is known of the order. Fails only if out of memory.
fn ordered_judgement(
    alloc: Global,
    up: &[u8],
    down: &[u8],
    order: &[u8],
) -> Result<(Vec<u8>, Order, u8), AllocError>
    requires { order.now ≢ [] }
    ensures { IfOk result (λ r. spec.IsJudgement up.now down.now order.now r.0.items r.1 r.2) }
{
    let Some(pieces) = read_order(alloc, order)? else {
        return Ok((Vec::new(alloc), Order::NotTheirs, 0));
    };
    let Some((up, down, is_whole)) = first_bytes(up, down, pieces.as_slice()) else {
        return Ok((Vec::new(alloc), Order::NotTheirs, 0));
    };
    let judgement = judge(alloc, up, down, pieces.as_slice())?;
    let (text, status) = text_of(alloc, &judgement)?;
    if is_whole {
        return Ok((text, Order::Whole, status));
    }
    Ok((text, Order::Part, status))
}

/// Likewise; the text of the order is empty if none is known.
fn judgement(
    alloc: Global,
    up: &[u8],
    down: &[u8],
    order: &[u8],
) -> Result<(Vec<u8>, Order, u8), AllocError>
    ensures { IfOk result (λ r. spec.IsJudgement up.now down.now order.now r.0.items r.1 r.2) }
{
    if !order.is_empty() {
        return ordered_judgement(alloc, up, down, order);
    }
    let judgement = judge(alloc, up, down, &[])?;
    let (text, status) = text_of(alloc, &judgement)?;
    Ok((text, Order::Unknown, status))
}

/// What is printed of two recordings, what is known of the order between the two ends, and the status. Fails only if out of memory.
pub(crate) fn answer(
    alloc: Global,
    job: Job,
    up: &[u8],
    down: &[u8],
    order: &[u8],
) -> Result<(Vec<u8>, Order, u8), AllocError>
    ensures { IfOk result (λ r.
        spec.IsAnswer job up.now down.now order.now r.0.items r.1 r.2) }
{
    match job {
        Job::Ledger(connection) => {
            let (text, known) = recorded_text(alloc, connection, up, down, order)?;
            Ok((text, known, 0))
        }
        Job::Judge => judgement(alloc, up, down, order),
    }
}
