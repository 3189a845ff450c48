// What follows from the definitions alone. Each function has laws for its contract and does nothing.
ghost use Rattle.std.specs.Prelude.{◌≡◌, ℕ, ◌+◌, ◌<◌, false, List, [], ◌∷◌, ◌++◌, length, Ok, Err};
ghost use Rattle.tool_rack.specs.Names.{entry_on, judged, entries_from, fields_of, has_outer_space, IsSpaced, Entry, SetupFault};

/// The first line that is refused decides, whatever follows it. A line that is not refused says its entry below those of the
/// lines above it.
pub fn first_refused_line_decides()
    ensures refused { (front : List (List ℕ)) (line : List ℕ) (behind : List (List ℕ))
        (above : List Entry) (fault : SetupFault)
        → entries_from [] front ≡ Ok above → judged (length front + 1) above
        (entry_on (length front + 1) line) ≡ Err fault
        → entries_from [] (front ++ line ∷ behind) ≡ Err fault }
    ensures accepted { (front : List (List ℕ)) (line : List ℕ) (above : List Entry) (entry : Entry)
        → entries_from [] front ≡ Ok above → judged (length front + 1) above
        (entry_on (length front + 1) line) ≡ Ok entry
        → entries_from [] (front ++ line ∷ []) ≡ Ok (above ++ entry ∷ []) }
{}

/// Fields with spaces between them are the fields of their line, and a line without a space at its ends is just its fields and spaces.
pub fn spaces_separate_fields()
    ensures read { (line : List ℕ) (fields : List (List ℕ)) → IsSpaced line fields
        → fields_of line ≡ fields }
    ensures whole { (line : List ℕ) → 0 < length line → has_outer_space line ≡ false
        → IsSpaced line (fields_of line) }
{}
