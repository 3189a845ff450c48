// What follows from the definitions alone.

ghost use Rattle.std.specs.Prelude.{ℕ, List, []};
ghost use Rattle.witness.specs.JudgementNames.{client_rule, server_rule, IsFirst, first_break, Heard, Sent};

/// Of either end: the line that is found breaks the rule that is named, no line before it breaks any, and if none is found no line does.
pub fn the_break_is_the_first()
    ensures client { (seen : List ℕ) (up : List Sent) (down : List Heard)
        → IsFirst (client_rule seen up down) up (first_break (client_rule seen up down) [] up) }
    ensures server { (seen : List ℕ) (up : List Sent) (down : List Heard)
        → IsFirst (server_rule seen up) down (first_break (server_rule seen up) [] down) }
{}
