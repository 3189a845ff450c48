// A session with hands that carry its effects out.

ghost use Rattle.std.specs.Prelude.{◌≡◌, IfSome, Some, []};
ghost use Rattle.services.specs.Sessions as spec;

use crate::{RelaySession, Session, Stage};
use effects::{Effect, Hands};

/// Runs a session to its end: its exit status. If the hands report what they did, that has led to the exit, and none of it was one.
pub fn run<H: Hands>(session: &mut Session, hands: &mut H) -> Option<u8>
    ensures { H.told hands.old ≡ Some [] → IfSome result (λ status.
        IfSome (H.told hands.new) (λ past. spec.IsRun session.old past status)) }
{
    for _turn in 0..u64::MAX {
        if let Stage::Exiting = session.stage {
            return Some(session.status);
        }
        hands.carry_out(session.asks());
        session.take(hands.answer());
    }
    None
}

/// Runs a relay to its end: its exit status.
pub fn run_relay<H: Hands>(session: &mut RelaySession, hands: &mut H) -> Option<u8> {
    for _turn in 0..u64::MAX {
        let effect = session.asks();
        if let Effect::Exit(status) = effect {
            return Some(status);
        }
        hands.carry_out(effect);
        session.take(hands.answer());
    }
    None
}
