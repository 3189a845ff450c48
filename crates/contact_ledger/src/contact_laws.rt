// What follows from the definitions for the text of acts. Each function has laws for its contract and does nothing.

ghost use Rattle.std.specs.Prelude.{◌≡◌, ◌≤◌, ◌<◌, ◌+◌, ℕ, List, [], length, take};
ghost use Rattle.contact_ledger.specs.Names.{AreEntries, contacts_text, IsContacts, IsDamagedContacts, Act};

/// A written text of acts is read as these acts (this profile).
#[tactic(auto, using(crate::proofs::ContactLaws::written_read))]
pub fn written_acts_are_read()
    ensures { (entries : List (ℕ × Act)) → AreEntries entries
        → IsContacts (contacts_text entries) entries }
{}

/// A text is read as at most one list of acts, and no text that is read has a damaged line (this profile).
pub fn acts_are_read_in_one_way()
    ensures one { (bytes : List ℕ) (first second : List (ℕ × Act)) → IsContacts bytes first
        → IsContacts bytes second → first ≡ second }
    ensures whole { (bytes : List ℕ) (entries : List (ℕ × Act)) (n : ℕ) → IsContacts bytes entries
        → IsDamagedContacts bytes n → ⊥ }
{}

/// Each prefix of a written text is read as the acts whose lines have their LF in it (this profile): none if the first line is torn.
pub fn fronts_are_read()
    ensures header { (entries : List (ℕ × Act)) (count : ℕ) → AreEntries entries
        → count < length (contacts_text [])
        → IsContacts (take count (contacts_text entries)) [] }
    ensures acts { (entries : List (ℕ × Act)) (n count : ℕ) → AreEntries entries
        → n < length entries → length (contacts_text (take n entries)) ≤ count
        → count < length (contacts_text (take (n + 1) entries))
        → IsContacts (take count (contacts_text entries)) (take n entries) }
{}
