// Examples: what a witness reports of clients that are written out.

ghost use Rattle.std.specs.Prelude.{◌≡◌, [], ◌∷◌, codes, false, true, Some, None};
ghost use Rattle.witness_laws.specs.Names.{list_all, list_any, Machine, Std, Event, Connected, Send, Feed, ReadOne, Abort, Resume, Leave, Restart, Sent, behind_calls, silence, Did, FramedSomehow, Touched, Unasked, Left, completed, changing, BeginsWith, Claims, BeginsToClaim, Calls, Comes, after_turns, AreCausal, AreUnanswered, unasked_turns, witnessed, unasked, stays, behind_visits, told_of_all, some_unasked, BeginSo, written_of, sent, watching, sending, fresh, unread_on, two, relayed, homing, zero, stray, origin, touch, zero_read};
ghost use Rattle.contact_ledger.specs.declared.acts.Act.TheVariants as act;
ghost use Rattle.dme_line.specs.declared.commands.Command.TheVariants as command;

/// A witness reads the lines that the client writes, in their order, and the line that it reads. It begins anew with a connection and with a
/// restart, but not where the connection is left, and not by a call that is not possible.
pub fn witnessed_rows()
    ensures read { (witnessed (ReadOne ∷ []) (changing 3 (act.Homed ∷ [])) watching).reported
        ≡ Did act.Homed ∷ Did (act.Changed (codes "P1")) ∷ [] }
    ensures sent { (witnessed (Send ∷ Abort ∷ []) sending (silence true)).uses
        ≡ sent 0 (Std 1) command.Home ∷ sent 1 (Event 1) command.AbortE ∷ [] }
    ensures begun { witnessed (Leave ∷ Connected 4 ∷ []) (changing 3 []) watching ≡ silence true }
    ensures restarted { witnessed (Restart 0 ∷ []) (changing 3 []) watching ≡ silence true }
    ensures not_now { witnessed (Connected 4 ∷ Resume ∷ []) (changing 3 []) watching ≡ watching }
    ensures other { witnessed (Feed [] ∷ Sent 0 ∷ Leave ∷ []) (changing 3 []) watching ≡ watching }
{}

/// A line under the event tag of number 0 is reported, and a client passes over it: then more is reported than the client counted. It counts on
/// the connection that it came on alone.
pub fn unasked_rows()
    ensures reported { (witnessed (ReadOne ∷ []) stray (silence true)).reported ≡ Unasked zero ∷ [] }
    ensures passed { (behind_calls (ReadOne ∷ []) stray).client ≡ stray.client }
    ensures read { unasked (ReadOne ∷ []) stray false ≡ true }
    ensures before { unasked (Feed [] ∷ []) stray true ≡ true }
    ensures anew { unasked (Leave ∷ Connected 4 ∷ []) stray true ≡ false }
    ensures restarted { unasked (Restart 0 ∷ []) stray true ≡ false }
    ensures answer { unasked (ReadOne ∷ []) (changing 3 []) false ≡ false }
{}

/// Lines that belong to no command aside, each act has its report, in which a tool or a frame may not be known; another may not be there.
pub fn claim_rows()
    ensures no_tool { Claims (touch ∷ [])
        (Unasked zero ∷ Touched origin None None (Some Machine) origin ∷ []) }
    ensures missing { Claims (touch ∷ []) (Unasked zero ∷ []) → ⊥ }
    ensures more { Claims [] (Left ∷ []) → ⊥ }
    ensures begins { BeginsToClaim (act.Framed Machine ∷ []) (FramedSomehow ∷ Left ∷ []) }
{}

/// What was reported begins with the acts that were counted, in their order.
pub fn begin_rows()
    ensures begins { BeginsWith (act.Homed ∷ []) (Did act.Homed ∷ Unasked zero ∷ []) }
    ensures no_more { BeginsWith (act.Homed ∷ []) [] → ⊥ }
    ensures not_first { BeginsWith (act.Homed ∷ []) (Unasked zero ∷ Did act.Homed ∷ []) → ⊥ }
{}

/// A line that the witness reads ahead is ahead until the client reads it, and is not read again. It must be read ahead, and no command is
/// written that it answers; calls that are not on the connection are not causal. What counts is what the client reads.
pub fn ahead_rows()
    ensures read { (after_turns (Comes completed ∷ Calls ReadOne ∷ []) relayed).ahead ≡ [] }
    ensures told { (after_turns (Comes completed ∷ Calls ReadOne ∷ []) relayed).dialogue.reported
        ≡ Did act.Homed ∷ Did (act.Changed (codes "P1")) ∷ [] }
    ensures not_now { after_turns (Calls (Connected 4) ∷ []) relayed ≡ relayed }
    ensures causal { AreCausal (Comes completed ∷ Calls ReadOne ∷ []) relayed }
    ensures unread { AreCausal (Calls ReadOne ∷ []) relayed → ⊥ }
    ensures leaves { AreCausal (Calls Leave ∷ []) relayed → ⊥ }
    ensures answered { AreUnanswered (homing (Std 7)) (completed ∷ []) → ⊥ }
    ensures unanswered { AreUnanswered (homing (Std 8)) (completed ∷ []) }
    ensures unasked { unasked_turns (Comes zero ∷ []) relayed false ≡ false }
    ensures unasked_read { unasked_turns (Calls ReadOne ∷ [])
        (record { client = stray; dialogue = watching; ahead = zero ∷ [] }) false ≡ true }
{}

/// A connection is begun when the one before is left. What the witness reports of each stands under the number that it gives it, one after
/// another, with what it reads there that the client does not; and what it writes of other clients comes before it.
pub fn visit_rows()
    ensures told { told_of_all true two fresh
        ≡ (6, Left) ∷ (7, Unasked completed) ∷ (6, Left) ∷ (8, Unasked completed) ∷ [] }
    ensures last { (behind_visits two fresh).client.last ≡ 5 }
    ensures quiet { some_unasked two fresh ≡ false }
    ensures unasked { some_unasked (unread_on 3 6 ∷ zero_read ∷ []) fresh ≡ true }
    ensures on_it { list_all stays (Send ∷ Feed [] ∷ ReadOne ∷ Abort ∷ Resume ∷ Sent 0 ∷ [])
        ≡ true }
    ensures off_it { list_any stays (Connected 4 ∷ Leave ∷ Restart 0 ∷ []) ≡ false }
    ensures written { written_of two ((Did act.Homed ∷ []) ∷ [] ∷ [])
        ≡ (6, Left) ∷ (7, Did act.Homed) ∷ (6, Left) ∷ [] }
    ensures begins { BeginSo two ((Did act.Homed ∷ []) ∷ [] ∷ []) fresh }
    ensures too_few { BeginSo two ([] ∷ []) fresh → ⊥ }
    ensures not_so { BeginSo (unread_on 0 7 ∷ []) ([] ∷ []) (changing 3 (act.Homed ∷ [])) → ⊥ }
{}
