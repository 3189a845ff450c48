// What follows from the definitions. Each function has laws for its contract and does nothing.

ghost use Rattle.std.specs.Prelude.{◌≡◌, ℕ, Bool, List, ◌++◌, false, true, Some, slice_get};
ghost use Rattle.witness_laws.specs.Names.{list_all, Act as OneAct, ServerEnd, reply_bytes, behind_call, Watching, AreAllRead, ledger, Reported as OneReport, ups, downs, all_read, answered, keeps_out, reported, acts_after, TakesCourse, some_foreign, breaks_only, act_reports, AreReportsOf, NamesThoseOf, lines_seen, all_fed, all_written, AreReportsOfFirst};
ghost use Rattle.server_core.specs.Calls.{Call};

use crate::order_laws::{more_lines_report_more, recordings_claim_no_more};

/// A server, after any calls, takes a connection, and after any calls on it that do not leave it a witness has read each line of it as soon
/// as the server had read or answered it. Whatever bytes were fed, provided that no line came under a tag under which a command ran or
/// waited at that moment, and whether or not the witness takes the order between the two ends for known:
///
/// - `acts`: the acts that the witness reported are those of the server on this connection, one for one and in order. Each is reported as it was
/// done, but for a tool or a frame that is not known;
/// - `turns`: no line that breaks a rule is reported but an error before its turn, under the tag of a line that this profile does not know. The
/// server refuses such a line as soon as it has read it, under an event tag, or while it is in its error state or full.
pub fn reports_are_what_was_done()
    ensures acts { (ordered : Bool) (n : ℕ) (e : ServerEnd) (calls : List Call)
        → TakesCourse n e calls
        → AreReportsOf (act_reports (reported ordered calls e)) (acts_after n calls e) }
    ensures turns { (ordered : Bool) (n : ℕ) (e : ServerEnd) (calls : List Call)
        → TakesCourse n e calls → list_all (breaks_only (some_foreign (all_read calls e)))
        (reported ordered calls e) ≡ true }
{}

/// Where reports are those of acts, one that names a tool or a frame names that of the act in its place.
#[tactic(auto, using(crate::proofs::server::Courses::named))]
pub fn known_tools_are_right()
    ensures { (reports : List OneReport) (acts : List OneAct) → AreReportsOf reports acts
        → (i : ℕ) (x : OneReport) (a : OneAct) → slice_get reports i ≡ Some x
        → slice_get acts i ≡ Some a → NamesThoseOf x a }
{}

/// A witness that has read the lines of such a course in another order, all of the client's before the server's, as from two recordings, still
/// reports its acts; so it does with more lines of the client, which are still on their way to the server, and with the first lines of the server
/// alone, while the others are on their way to it. It may leave a tool or a frame unknown that a witness in lockstep knows: a line that may be
/// carried out at once, or one under a tag that was used before, comes too early for it.
///
/// - `all`: with all lines of the server, the reports are the acts on the connection;
/// - `first`: with the first of them, they are the first of those acts.
/// - `recordings`: so it is of two recordings: the bytes that the server was fed, and any more, and a prefix of those that it has written.
pub fn lines_on_their_way_change_nothing()
    ensures all { (n : ℕ) (e : ServerEnd) (calls : List Call) (later : List (List ℕ))
        → TakesCourse n e calls
        → AreReportsOf (act_reports (ledger (ups (lines_seen calls e) ++ later)
        (downs (lines_seen calls e))).reported) (acts_after n calls e) }
    ensures first { (n : ℕ) (e : ServerEnd) (calls : List Call)
        (later read unread : List (List ℕ)) → TakesCourse n e calls
        → downs (lines_seen calls e) ≡ read ++ unread
        → AreReportsOfFirst (act_reports (ledger (ups (lines_seen calls e) ++ later)
        read).reported) (acts_after n calls e) }
    ensures recordings { (n : ℕ) (e : ServerEnd) (calls : List Call) (up down : List ℕ)
        (more unsent : List ℕ) (w : Watching) → TakesCourse n e calls
        → up ≡ all_fed calls e ++ more → down ++ unsent ≡ all_written calls e
        → AreAllRead false up down w
        → AreReportsOfFirst (act_reports w.dialogue.reported) (acts_after n calls e) }
{
    more_lines_report_more();
    recordings_claim_no_more();
}

/// The lines that the witness reads of the server are those that the call writes.
#[tactic(auto, using(crate::proofs::server::Courses::answered_is_put))]
pub fn what_is_answered_is_read()
    ensures { (call : Call) (e : ServerEnd) → keeps_out call ≡ true
        → (behind_call call e).out ≡ e.out ++ reply_bytes (answered call e) }
{}
