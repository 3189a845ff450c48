// What follows from the definitions. Each function has laws for its contract and does nothing.

ghost use Rattle.std.specs.Prelude.{◌≡◌, ℕ, Bool, List, ◌++◌, false, true};
ghost use Rattle.witness_laws.specs.Names.{list_all, Meaning, ClientEnd, Call, behind_calls, may_read, silence, Reported, Line, said_all, all_done, BeginsWith, Claims, BeginsToClaim, IsNewClient, IsOurClient, counted_by, Turn, Watched, after_turns, IsBegun, AreCausal, unasked_turns, witnessed, unasked, Visit, is_visit, behind_visits, told_of_all, some_unasked, HoldsTrue, BeginSo, written_of};

/// After every list of calls of a client with any program and kept features that are its own, whatever bytes are fed: a witness of its
/// connection, which reads the lines that the client writes and those that it reads, and to which the order between the two ends is known or
/// not,
///
/// - `told`: has reported exactly the acts that the client counted on the connection, each with its tool and frame, as long as the client is
/// not Faulted and has read no line that belongs to no command;
/// - `claims`: in any case has reported these acts one for one, as long as the client is not Faulted, next to the lines that belong to no
/// command: a tool or a frame may not be known then, but never another is reported;
/// - `begins`, `begins_to_claim`: has at any time reported these acts first, likewise, whatever lines it reads after them.
///
/// The server is not ours. No other fault of a server is passed over: at any other the client is Faulted.
pub fn what_the_client_counts_is_reported()
    ensures told { (ordered : Bool) (e : ClientEnd) (calls : List Call) → IsOurClient e
        → may_read (behind_calls calls e).client ≡ true → unasked calls e false ≡ false
        → (witnessed calls e (silence ordered)).reported
        ≡ all_done (counted_by (behind_calls calls e)) }
    ensures claims { (ordered : Bool) (e : ClientEnd) (calls : List Call) → IsOurClient e
        → may_read (behind_calls calls e).client ≡ true
        → Claims (counted_by (behind_calls calls e))
        (witnessed calls e (silence ordered)).reported }
    ensures begins { (ordered : Bool) (e : ClientEnd) (calls : List Call) (unread : List Line)
        → IsOurClient e → unasked calls e false ≡ false
        → BeginsWith (counted_by (behind_calls calls e))
        (said_all (witnessed calls e (silence ordered)) unread).reported }
    ensures begins_to_claim { (ordered : Bool) (e : ClientEnd) (calls : List Call)
        (unread : List Line) → IsOurClient e → BeginsToClaim (counted_by (behind_calls calls e))
        (said_all (witnessed calls e (silence ordered)) unread).reported }
{}

/// A witness may read lines of the server before the client does, as a relay does, while the client writes. On each connection, after any calls
/// and such lines, whatever bytes are fed, what it has reported begins with what the client counted on the connection, if
///
/// - the client reads the lines that the witness has read, in their order;
/// - no line that the witness has read ahead is under the tag of a command that the client writes then: the server answers no command before it
/// was sent.
///
/// So it is with each tool and frame if the client has read no line that belongs to no command (`exactly`), and else with some that are not
/// known (`claims`).
pub fn what_the_client_counts_was_reported_before()
    ensures exactly { (w : Watched) (turns : List Turn) → IsBegun w → AreCausal turns w
        → unasked_turns turns w false ≡ false
        → BeginsWith (counted_by (after_turns turns w).client)
        (after_turns turns w).dialogue.reported }
    ensures claims { (w : Watched) (turns : List Turn) → IsBegun w → AreCausal turns w
        → BeginsToClaim (counted_by (after_turns turns w).client)
        (after_turns turns w).dialogue.reported }
{}

/// A client with any program goes through connections one after another, whatever bytes are fed on each, and leaves each before the next. A
/// witness writes what is reported on each, under a number of its own, and what others do in between. If the kept features are true of what
/// was written earlier, the features that the client holds are true of all that is written:
///
/// - `with`: by a witness that reads with the client, and then lines that the client did not read, if the client read no line that belongs to
/// no command;
/// - `any`: by any other of which what it reports of each connection begins with the acts that the client counted there.
///
/// The server is not ours.
pub fn held_features_are_true_of_what_was_reported()
    ensures with { (ordered : Bool) (program : Meaning) (e : ClientEnd) (visits : List Visit)
        (earlier : List (ℕ × Reported)) → IsNewClient program e
        → list_all is_visit visits ≡ true → some_unasked visits e ≡ false
        → HoldsTrue program e earlier
        → HoldsTrue program (behind_visits visits e) (earlier ++ told_of_all ordered visits e) }
    ensures any { (program : Meaning) (e : ClientEnd) (visits : List Visit)
        (reports : List (List Reported)) (earlier : List (ℕ × Reported)) → IsNewClient program e
        → list_all is_visit visits ≡ true → BeginSo visits reports e → HoldsTrue program e earlier
        → HoldsTrue program (behind_visits visits e) (earlier ++ written_of visits reports) }
{}
