// A session with hands that carry its effects out.

use crate::Session;
use effects::{Effect, Hands};

/// Runs a session to its end: its exit status.
pub fn run<H: Hands>(session: &mut Session, hands: &mut H) -> Option<u8> {
    for _turn in 0..u64::MAX {
        let effect = session.asks();
        if let Effect::Exit(status) = effect {
            return Some(status);
        }
        hands.carry_out(effect);
        session.take(hands.answer());
    }
    None
}
