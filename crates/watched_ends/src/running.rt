// A session with hands that carry its effects out.

ghost use Rattle.std.specs.Prelude.{◌≡◌, IfSome, Some, []};
ghost use Rattle.watched_ends.specs.Sessions.{Called, IsExit, start};

use crate::Session;
use effects::{Effect, Hands};

/// Runs a session to its end: its exit status. If the hands report what they did, that has led to the exit; so what `laws` promises of every
/// list of answers holds of it.
pub fn run<H: Hands>(session: &mut Session, hands: &mut H) -> Option<u8>
    ensures { (c : Called) → session.old ≡ start c → H.told hands.old ≡ Some []
        → IfSome result (λ status. IfSome (H.told hands.new) (λ past. IsExit c past status)) }
{
    for _turn in 0..u64::MAX {
        let effect = session.asks();
        if let Effect::Exit(status) = effect {
            return Some(status);
        }
        hands.carry_out(effect);
        session.take(hands.answer());
    }
    None
}
