// What a refusal means is printed.

ghost use Rattle.std.specs.Prelude.{[], ◌<◌, length, IfOk};
ghost use Rattle.program_review.specs.Codes.{WritesPage};
ghost use Rattle.dme_orders.specs.Orders.{went, Prints};

use crate::simulating::write_text;
use byte_ports::Sink;
use order_parts::FilesFault;
use program_review::{Topic, write_page};
use std::alloc::{AllocError, Global};

fn text_of(alloc: Global, topic: Topic) -> Result<Vec<u8>, AllocError>
    ensures page { IfOk result (λ text. WritesPage topic [] text.items) }
    ensures some { IfOk result (λ text. 0 < length text.items) }
{
    let mut text = Vec::new(alloc);
    write_page(&mut text, topic)?;
    Ok(text)
}

/// Writes the page of a refusal: its title, what it means, what to do about it, and a line as it should be. It writes only once the whole
/// page is there.
pub fn explain<W: Sink>(alloc: Global, topic: Topic, sink: &mut W) -> Result<(), FilesFault>
    ensures { Prints (λ done text. WritesPage topic [] text)
        (went W.taken W.has_failed sink.old sink.new) result }
{
    let text = text_of(alloc, topic)?;
    Ok(write_text(sink, text.as_slice())?)
}
