// What follows from the definitions. Each function has laws for its contract and does nothing.

ghost use Rattle.std.specs.Prelude.{◌≡◌, ◌≤◌, ◌<◌, ◌+◌, ◌↔◌, ℕ, List, [], ◌∷◌, length, map, take};
ghost use Rattle.witness.specs.ToldNames.{IsContacts, Act, Feature, Wanted, contacts, IsRun, Sound, told_text, Reported, Opened, Left, AreAudited, AreRunContacts, IsToldRun, SoundByTold, AreWrittenEntries, AreToldEntries, NeverFall, IsToldText, IsDamagedTold, entry_back};

/// Numbers may stay and be left out, as in 1, 1, 3; in 1, 2, 1 one falls (this profile).
pub fn falling_rows()
    ensures up { NeverFall ((1, Opened) ∷ (1, Left) ∷ (3, Opened) ∷ []) }
    ensures down { NeverFall ((1, Opened) ∷ (2, Left) ∷ (1, Opened) ∷ []) → ⊥ }
{}

/// What is written is read back, with a `?` for a tool of that name; and what can be read, as it is (this profile). A witness numbers its
/// connections one after another, so the numbers that it writes never fall.
pub fn written_is_read()
    ensures written { (entries : List (ℕ × Reported)) → AreWrittenEntries entries → NeverFall entries
        → IsToldText (told_text entries) (map entry_back entries) }
    ensures same { (entries : List (ℕ × Reported)) → AreToldEntries entries → NeverFall entries
        → IsToldText (told_text entries) entries }
{}

/// A text is read in at most one way, and no text that is read has a damaged line (this profile).
pub fn texts_are_read_in_one_way()
    ensures one { (bytes : List ℕ) (first second : List (ℕ × Reported)) → IsToldText bytes first
        → IsToldText bytes second → first ≡ second }
    ensures whole { (bytes : List ℕ) (entries : List (ℕ × Reported)) (n : ℕ) → IsToldText bytes entries
        → IsDamagedTold bytes n → ⊥ }
{}

/// Each prefix of a written text is read as what its lines say that have their LF in it (this profile): nothing if the first line is torn.
pub fn fronts_are_read()
    ensures header { (entries : List (ℕ × Reported)) (count : ℕ) → AreWrittenEntries entries
        → count < length (told_text []) → IsToldText (take count (told_text entries)) [] }
    ensures lines { (entries : List (ℕ × Reported)) (n count : ℕ) → AreWrittenEntries entries
        → NeverFall entries → n < length entries → length (told_text (take n entries)) ≤ count
        → count < length (told_text (take (n + 1) entries))
        → IsToldText (take count (told_text entries)) (map entry_back (take n entries)) }
{}

/// A run in the ledger of the contacts of runs is a run of known contacts of one connection, between which lie no other contact and nothing
/// of that connection that ends runs; and features are true of that ledger exactly if they are true of what was reported (this profile).
pub fn runs_are_those_of_what_was_reported()
    ensures run { (entries : List (ℕ × Reported)) (ledger : List (ℕ × Act)) (wanted : Wanted)
        (feature : Feature) (start : ℕ) → AreRunContacts entries ledger
        → IsRun wanted feature start (contacts ledger) ↔ IsToldRun wanted feature start entries }
    ensures sound { (entries : List (ℕ × Reported)) (ledger : List (ℕ × Act))
        (wanted : List Wanted) (features : List Feature) → AreRunContacts entries ledger
        → Sound wanted features ledger ↔ SoundByTold wanted features entries }
{}

/// The text of a server's acts is audited as these acts (this profile).
#[tactic(auto, using(crate::proofs::EitherText::contacts_audited))]
pub fn contacts_are_audited()
    ensures { (bytes : List ℕ) (entries : List (ℕ × Act)) → IsContacts bytes entries
        → AreAudited bytes entries }
{}
