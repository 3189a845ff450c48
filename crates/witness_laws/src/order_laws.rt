// What follows for each order of lines. Each function has laws for its contract and does nothing.

ghost use Rattle.std.specs.Prelude.{◌≡◌, ◌⊎◌, ℕ, Bool, true, false, List, ◌∷◌, ◌++◌, map, Some};
ghost use Rattle.witness_laws.specs.Names.{list_any, Tag, Sends, Dialogue, silence, after, foreign_event, Relaying, Course, Relays, IsAllTold, told_lines, Watching, AreAllRead, client_lines, server_lines, ledger, SentCommand, reported_first, in_turn, ClaimNoMore, lines_of, lines_came, AreLinesOf, Line, Up, Down, said, said_all, ups, downs, two_send, answers, some_at_once, refuses, is_open, IsCausal, IsClear, IsCausalAndClear, IsCounted, AreFresh, IsPrefix, Same};

use witness::laws::what_is_written_was_reported;

/// The open commands are on lines of the client that were read, in their order: after any lines; and after one more line.
pub fn open_commands_are_in_order()
    ensures all { (ordered : Bool) (lines : List Line)
        → IsCounted (said_all (silence ordered) lines) }
    ensures line { (d : Dialogue) (line : Line) → IsCounted d → IsCounted (said d line) }
{}

/// A command that is not carried out at once may be read before lines of the server that came before it, with the same result to the last flag,
/// if none is open under its tag:
///
/// - `all`: lines of each end, where each response that is read has its command open, or the client sends none under its tag later;
/// - `command`: a command, and lines that are no responses under its tag.
pub fn commands_may_be_read_before_earlier_replies()
    ensures all { (d : Dialogue) (up down : List (List ℕ)) → IsCounted d → AreFresh d up
        → IsCausal d (map Down down ++ map Up up)
        → client_lines (server_lines d down) up ≡ server_lines (client_lines d up) down }
    ensures command { (d : Dialogue) (line : List ℕ) (tag : Tag) (what : SentCommand)
        (down : List (List ℕ)) → IsCounted d → is_open tag d.uses ≡ false
        → foreign_event tag what ≡ false → list_any (answers tag) down ≡ false
        → after (server_lines d down) (Sends line (Some (tag, what)))
        ≡ server_lines (after d (Sends line (Some (tag, what)))) down }
{}

/// What lines report, and which tool and frame are known after them, does not depend on the order in which those of the two ends are read: it
/// is what they report with those of the client read first, if
///
/// - each response is read after its command: where none is open under its tag, the client sends none under it later;
/// - under the tag of a command that has failed and ended the client sends none later, and no line of the client that may be carried out at
/// once comes after one of the server.
///
/// Neither reading takes the order for known: one that does knows nothing once a tag was used while in use.
pub fn reports_need_no_order()
    ensures { (lines : List Line) → IsCausalAndClear false lines
        → Same (said_all (silence false) lines) (ledger (ups lines) (downs lines)) }
{}

/// Whatever the lines are, two recordings claim no more than a witness that read them in any order in which each response comes after its command:
/// they report the same, one for one and in order, but that a tool or a frame may be unknown. The lines of the client that may be carried out at
/// once are left out: recordings report them first (`first`).
///
/// - `ordered`: of a witness that takes the order for known, where no tag was used while in use. Later lines of the client may be recorded too;
/// - `any`: of a witness that does not;
/// - `all`: with all reports, where no line may be carried out at once.
pub fn recordings_claim_no_more()
    ensures ordered { (lines : List Line) (later : List (List ℕ))
        → IsCausal (silence true) (lines ++ map Up later)
        → (said_all (silence true) lines).crossed ≡ false
        → ClaimNoMore (in_turn (ledger (ups lines ++ later) (downs lines)).reported)
        (in_turn (said_all (silence true) lines).reported) }
    ensures any { (lines : List Line) (later : List (List ℕ))
        → IsCausal (silence false) (lines ++ map Up later)
        → ClaimNoMore (in_turn (ledger (ups lines ++ later) (downs lines)).reported)
        (in_turn (said_all (silence false) lines).reported) }
    ensures all { (lines : List Line) (later : List (List ℕ))
        → IsCausal (silence true) (lines ++ map Up later)
        → (said_all (silence true) lines).crossed ≡ false
        → some_at_once (ups lines ++ later) ≡ false
        → ClaimNoMore (ledger (ups lines ++ later) (downs lines)).reported
        (said_all (silence true) lines).reported }
    ensures first { (up down : List (List ℕ))
        → IsPrefix (reported_first up) (ledger up down).reported }
{}

/// Two cases in which an order is clear, where no line of the client may be carried out at once: no two of them use one tag, or the server refuses
/// nothing.
pub fn orders_are_clear()
    ensures tags { (ordered : Bool) (lines : List Line) → some_at_once (ups lines) ≡ false
        → ((tag : Tag) → two_send tag (ups lines) ≡ false) → IsClear (silence ordered) lines }
    ensures refusals { (ordered : Bool) (lines : List Line) → some_at_once (ups lines) ≡ false
        → list_any refuses (downs lines) ≡ false → IsClear (silence ordered) lines }
{}

/// Lines of the client at the end report nothing, in any order, but those that may be carried out at once; and with all lines of the client read
/// first, nothing of what the others report changes by lines that no response is for.
pub fn unanswered_lines_report_nothing()
    ensures order { (d : Dialogue) (lines : List Line) (up : List (List ℕ))
        → (said_all d (lines ++ map Up up)).reported
        ≡ (said_all d lines).reported ++ reported_first up }
    ensures ledger { (up later down : List (List ℕ)) → some_at_once later ≡ false
        → IsCausal (client_lines (silence false) up) (map Down down ++ map Up later)
        → (ledger (up ++ later) down).reported ≡ (ledger up down).reported }
{}

/// What the first lines report is a prefix of what all report: in any order; with all lines of the client read first, if no response of the first is
/// for a later one, and no later one may be carried out at once; and of an order that is causal and clear, against all of it with the lines of
/// the client read first.
pub fn more_lines_report_more()
    ensures order { (d : Dialogue) (lines more : List Line)
        → IsPrefix (said_all d lines).reported (said_all d (lines ++ more)).reported }
    ensures ledger { (up later down more : List (List ℕ)) → some_at_once later ≡ false
        → IsCausal (client_lines (silence false) up) (map Down down ++ map Up later)
        → IsPrefix (ledger up down).reported (ledger (up ++ later) (down ++ more)).reported }
    ensures either { (lines more : List Line) → IsCausalAndClear false (lines ++ more)
        → IsPrefix (said_all (silence false) lines).reported
        (ledger (ups (lines ++ more)) (downs (lines ++ more))).reported }
{}

/// A relay that has told all has read the whole lines of both ends, in some order, and what it has told is what they report in that order.
pub fn relays_read_all_lines()
    ensures lines { (n : ℕ) (c : Course) (r : Relaying) (course : Relays n c r) → IsAllTold r
        → AreLinesOf c.came_up c.came_down (lines_of n c r course) }
    ensures told { (n : ℕ) (c : Course) (r : Relaying) (course : Relays n c r)
        → c.reported ++ r.watching.dialogue.reported
        ≡ (said_all (silence true) (lines_of n c r course)).reported }
{}

/// If a line of the client is read before one of the server that came just before it, a causal order stays so, and so does one that is clear too.
pub fn earlier_commands_keep_an_order()
    ensures causal { (d : Dialogue) (before after : List Line) (up down : List ℕ) → IsCounted d
        → IsCausal d (before ++ Down down ∷ Up up ∷ after)
        → IsCausal d (before ++ Up up ∷ Down down ∷ after) }
    ensures clear { (d : Dialogue) (before after : List Line) (up down : List ℕ) → IsCounted d
        → IsCausal d (before ++ Down down ∷ Up up ∷ after)
        → IsClear d (before ++ Down down ∷ Up up ∷ after)
        → IsClear d (before ++ Up up ∷ Down down ∷ after) }
{}

/// What a relay has written when it has told all is the text of two recordings of the same bytes, without its first line, if each response was read
/// after its command, nothing was in doubt, and no line was read under a tag in use. So it is if the lines came to the relay in such an order,
/// since it reads those of the client first. In any case the recordings claim no more than it reported (`no_more`).
pub fn relays_write_what_recordings_report()
    ensures same { (n : ℕ) (c : Course) (r : Relaying) (course : Relays n c r) (w : Watching)
        → IsAllTold r → IsCausalAndClear true (lines_of n c r course)
        ⊎ IsCausalAndClear true (lines_came n c r course)
        → (said_all (silence true) (lines_of n c r course)).crossed ≡ false
        → AreAllRead false c.came_up c.came_down w
        → c.written ≡ told_lines n w.dialogue.reported }
    ensures no_more { (n : ℕ) (c : Course) (r : Relaying) (course : Relays n c r) (w : Watching)
        → IsAllTold r → IsCausal (silence true) (lines_of n c r course)
        → (said_all (silence true) (lines_of n c r course)).crossed ≡ false
        → AreAllRead false c.came_up c.came_down w
        → ClaimNoMore (in_turn w.dialogue.reported) (in_turn c.reported) }
{
    what_is_written_was_reported();
}
