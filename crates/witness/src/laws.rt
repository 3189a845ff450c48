// What follows from the definitions. Each function has a law for its contract and does nothing.

ghost use Rattle.std.specs.Prelude.{◌≡◌, ◌↔◌, ℕ, Bool, true, List, ◌++◌};
ghost use Rattle.protocol_model.specs.Claims.{AreRuns};
ghost use Rattle.witness.specs.ToldNames.{Act, AreRunContacts, AreToldRuns, Feature, Reported, Sound, SoundByTold, Wanted, contacts};
ghost use Rattle.witness.specs.Names.{Line, after_all, Relaying, Course, Relays, IsAllTold, IsToldOf, all_reported, witnessed, told_lines, Watching, AreAllRead};

/// After any lines of both ends, given with the newest first, a witness keeps and reports just what the rules say, which look back over all
/// these lines: whether the order between the two ends is known or not.
pub fn witnesses_keep_the_rules()
    ensures all { (ordered : Bool) (lines : List Line)
        → after_all ordered lines ≡ witnessed ordered lines }
    ensures reported { (ordered : Bool) (lines : List Line)
        → (after_all ordered lines).reported ≡ all_reported ordered lines }
{}

/// What is sent on to either end is at every moment a prefix of what came from the other, and the rest of it waits.
pub fn what_is_sent_on_came()
    ensures up { (n : ℕ) (c : Course) (r : Relaying) → Relays n c r
        → c.came_up ≡ c.sent_up ++ r.up }
    ensures down { (n : ℕ) (c : Course) (r : Relaying) → Relays n c r
        → c.came_down ≡ c.sent_down ++ r.down }
{}

/// What is written, with what is due, is at every moment the lines of what was reported.
pub fn what_is_written_was_reported()
    ensures { (n : ℕ) (c : Course) (r : Relaying) → Relays n c r
        → c.written ++ r.due ≡ told_lines n c.reported }
{}

/// When bytes may be sent to the client, all that the lines of both ends report, as far as they came, is written, and nothing else is.
pub fn what_the_client_knows_is_written()
    ensures { (n : ℕ) (c : Course) (r : Relaying) → Relays n c r → IsAllTold r
        → IsToldOf true n c.came_up c.came_down c.written }
{}

/// The text of two recordings is one of those that their bytes report.
pub fn recordings_are_heard()
    ensures { (ordered : Bool) (n : ℕ) (up down : List ℕ) (w : Watching)
        → AreAllRead ordered up down w
        → IsToldOf ordered n up down (told_lines n w.dialogue.reported) }
{}

/// Features are true of the contacts that `run_contacts` finds in what a server reported exactly if they are true of what was reported, and so
/// is each choice of their runs: an audit of these contacts is one of what was reported.
pub fn audits_are_of_what_was_reported()
    ensures sound { (entries : List (ℕ × Reported)) (ledger : List (ℕ × Act))
        (wanted : List Wanted) (features : List Feature) → AreRunContacts entries ledger
        → (Sound wanted features ledger ↔ SoundByTold wanted features entries) }
    ensures runs { (entries : List (ℕ × Reported)) (ledger : List (ℕ × Act))
        (wanted : List Wanted) (features : List Feature) (starts : List ℕ)
        → AreRunContacts entries ledger → (AreRuns wanted features starts 0 (contacts ledger)
        ↔ AreToldRuns wanted features starts 0 entries) }
{}
