// What carries effects out.

ghost use Rattle.std.specs.Prelude.{◌≡◌};
ghost use Rattle.effects.specs.Effects.{Carries, the_ask, the_reply};

use crate::{Answer, Effect};

/// Carries effects out, one after another. What a contract sees of them is what came of the last one, and all that was asked and answered, if
/// they report it.
pub trait Hands {
    ghost use Rattle.std.specs.Prelude.{List, Option};
    ghost use Rattle.effects.specs.Effects.{Did, Reply};

    /// What was asked and answered, the last first, if that is reported.
    ghost told: { Self → Option (List Did) };

    /// What came of the last effect.
    ghost came: { Self → Reply };

    /// Carries an effect out. `Exit` needs nothing.
    fn carry_out(&mut self, effect: Effect<'_>)
        ensures { Carries (told self.old) (told self.new) (the_ask effect.entry) (came self.new) };

    fn answer(&self) -> Answer<'_>
        ensures { the_reply result ≡ came self.now };
}
