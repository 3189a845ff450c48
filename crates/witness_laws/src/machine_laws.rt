// What follows from the premises. Each function has laws for its contract and does nothing.

ghost use Rattle.std.specs.Prelude.{◌≡◌, ℕ, true, List, [], ◌∷◌, Option, Some, slice_get};
ghost use Rattle.witness_laws.specs.Names.{Tag, Answers, Signal, silence, reported_of, Reported, in_turn, ClaimNoMore, Line, said_all, HadKnown, Entry, Message, lines, KeepsUnlessCrossed, IsRelayed, onto, KnowsSo};

/// Where a contact is reported with a tool or a frame that is known, the machine had it at the contact: in each history that keeps the premises,
/// up to a line of the server and with it, and for each report that this line brings. It is the end of a touch then, whose contact was made.
pub fn known_tools_and_frames_are_so()
    ensures { (line : List ℕ) (what : Option (Tag × Signal)) (h : List Entry)
        → KeepsUnlessCrossed (Message (Answers line what) ∷ h) → (i : ℕ) (r : Reported)
        → slice_get (reported_of true line what (lines h)) i ≡ Some r → HadKnown what h r }
{}

/// A witness that reads replies later than they were sent, after more lines of the client, reports the same, one for one and in order, but that a
/// tool or a frame may be unknown: if the server answers only lines that it has read, and no tag is used while in use, in either order. Lines that
/// may be carried out at once are left out: they are reported as they are read.
///
/// - `less`: what it reports;
/// - `known`: if these lines are those of a history that keeps the premises, what it knows is so. `IsSoOf` has the report in the same place
/// of a witness that reads each line as it is sent, and the line of the server that brings it.
pub fn relays_know_no_more()
    ensures less { (sent read : List Line) → IsRelayed sent read
        → ClaimNoMore (in_turn (said_all (silence true) read).reported)
        (in_turn (said_all (silence true) sent).reported) }
    ensures known { (sent read : List Line) (h : List Entry) → lines h ≡ onto sent []
        → IsRelayed sent read → KeepsUnlessCrossed h → (i : ℕ) (r : Reported)
        → slice_get (in_turn (said_all (silence true) read).reported) i ≡ Some r
        → KnowsSo sent h i r }
{}
