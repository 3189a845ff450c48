// Examples: what lines report in orders that are written out.

ghost use Rattle.std.specs.Prelude.{◌≡◌, true, false, [], ◌∷◌, ◌++◌, Some, None};
ghost use Rattle.witness_laws.specs.Names.{list_any, Machine, Std, silence, frame_of, IsClientRead, ledger, client_read, Did, MovedSomewhere, FramedSomehow, Other, Unasked, Broken, OutOfOrder, Client, in_turn, ClaimNoMore, lines_of, lines_came, AreLinesOf, home, received, refused, ended, home_2, ended_2, untagged, selecting, early, failed_before, crossing, with_end, asked_too, read_both, asked_course, course, Up, Down, said_all, ups, downs, answers, some_at_once, refuses, IsCausal, IsClear, AreFresh, IsPrefix};
ghost use Rattle.witness_laws.specs.OrderExamples.{origin, answered, homing};
ghost use Rattle.contact_ledger.specs.declared.acts.Act.TheVariants as act;

/// A reply that is read before its command reports something else. One to no command at all may be read at any time.
pub fn replies_come_after_commands()
    ensures stray { IsCausal (silence true) (answered ++ Down ended ∷ []) }
    ensures early { IsCausal (silence true) early → ⊥ }
    ensures early_told { (said_all (silence true) early).reported
        ≡ Unasked received ∷ Broken OutOfOrder (Std 1) ∷ [] }
    ensures early_ledger { (ledger (ups early) (downs early)).reported ≡ Did act.Homed ∷ [] }
{}

/// With the client's lines read first, the error of a command may be that of a later one under its tag, so that nothing is known of this one.
pub fn tags_are_used_again_after_an_error()
    ensures causal { IsCausal (silence false) failed_before }
    ensures in_doubt { IsClear (silence false) failed_before → ⊥ }
    ensures order { frame_of (said_all (silence false) failed_before).known ≡ Some Machine }
    ensures ledger { frame_of (ledger (ups failed_before) (downs failed_before)).known ≡ None }
    ensures not_failed { IsClear (silence false) (answered ++ selecting) }
    ensures errors { list_any refuses (ended ∷ refused ∷ []) ≡ true }
    ensures other { list_any refuses (ended ∷ received ∷ []) ≡ false }
{}

/// A line that may be carried out at once is reported when it is read: by recordings before all else.
pub fn lines_at_once_are_reported_first()
    ensures at_once { some_at_once (home ∷ untagged ∷ []) ≡ true }
    ensures order { (said_all (silence false) (answered ++ Up untagged ∷ [])).reported
        ≡ Did act.Homed ∷ Other Client untagged ∷ [] }
    ensures ledger { (ledger (ups (answered ++ Up untagged ∷ [])) (downs answered)).reported
        ≡ Other Client untagged ∷ Did act.Homed ∷ [] }
    ensures in_doubt { IsClear (silence false) (answered ++ Up untagged ∷ []) → ⊥ }
    ensures before { IsClear (silence false) (Up untagged ∷ answered) }
    ensures in_turn { in_turn (Other Client untagged ∷ Did act.Homed ∷ []) ≡ Did act.Homed ∷ [] }
{}

/// A witness that takes the order for known does not trust it once a tag was used while in use. Two recordings cannot see that.
pub fn tags_in_use_are_noted()
    ensures causal { IsCausal (silence true) crossing }
    ensures order { (said_all (silence true) crossing).reported
        ≡ Did (act.Framed Machine) ∷ MovedSomewhere origin ∷ [] }
    ensures ledger { (ledger (ups crossing) (downs crossing)).reported
        ≡ Did (act.Framed Machine) ∷ Did (act.Moved origin Machine) ∷ [] }
    ensures more { ClaimNoMore (Did (act.Moved origin Machine) ∷ []) (MovedSomewhere origin ∷ [])
        → ⊥ }
    ensures less { ClaimNoMore (MovedSomewhere origin ∷ []) (Did (act.Moved origin Machine) ∷ []) }
{}

/// A command is fresh under a tag under which none is open; an answer is under its tag.
pub fn commands_are_fresh()
    ensures fresh { AreFresh homing (home_2 ∷ []) }
    ensures in_use { AreFresh homing (home ∷ []) → ⊥ }
    ensures again { AreFresh (silence true) (home ∷ home ∷ []) → ⊥ }
    ensures at_once { AreFresh homing (untagged ∷ []) → ⊥ }
    ensures under { list_any (answers (Std 1)) (ended_2 ∷ ended ∷ []) ≡ true }
    ensures other { list_any (answers (Std 1)) (ended_2 ∷ ended_2 ∷ []) ≡ false }
{}

/// A relay reads the lines of the client first, also if one of the server came before them.
pub fn lines_of_the_client_are_read_first()
    ensures read { (read : IsClientRead (client_read asked_too.watching))
        → lines_of 1 asked_course read_both (course read) ≡ Up home ∷ Down received ∷ [] }
    ensures came { (read : IsClientRead (client_read asked_too.watching))
        → lines_came 1 asked_course read_both (course read) ≡ Down received ∷ Up home ∷ [] }
    ensures whole { AreLinesOf (with_end home) (with_end received) (Up home ∷ Down received ∷ []) }
    ensures either { AreLinesOf (with_end home) (with_end received) (Down received ∷ Up home ∷ []) }
    ensures missed { AreLinesOf (with_end home) (with_end received) (Up home ∷ []) → ⊥ }
    ensures torn { AreLinesOf home [] [] }
{}

/// A list begins with itself and with its first, and with nothing else.
pub fn prefixes_come_first()
    ensures first { IsPrefix (Did act.Homed ∷ []) (Did act.Homed ∷ FramedSomehow ∷ []) }
    ensures other { IsPrefix (Did act.Homed ∷ []) (FramedSomehow ∷ Did act.Homed ∷ []) → ⊥ }
{}
