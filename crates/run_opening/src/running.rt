// An opening with hands that carry its effects out, and then the run itself.

use crate::openings::Opening;
use effects::{Effect, Hands};

/// Opens a run: its exit status, if nothing is begun.
fn open<H: Hands>(opening: &mut Opening, hands: &mut H) -> Option<u8> {
    for _turn in 0..u64::MAX {
        if opening.is_ready() {
            return None;
        }
        let effect = opening.asks();
        if let Effect::Exit(status) = effect {
            return Some(status);
        }
        hands.carry_out(effect);
        opening.take(hands.answer());
    }
    None
}

/// Runs an opening to its end, and then the run that it begins: the exit status.
pub fn run<H: Hands>(opening: &mut Opening, hands: &mut H) -> Option<u8> {
    if let Some(status) = open(opening, hands) {
        return Some(status);
    }
    let mut session = opening.session()?;
    run_session::run(&mut session, hands)
}
