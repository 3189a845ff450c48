// What follows from the definitions alone. Each function has laws for its contract and does nothing.

ghost use Rattle.std.specs.Prelude.{◌≡◌, ◌<◌, ◌++◌, ◌∷◌, [], ℕ, List, Option, None, codes, length, take, true, false};
ghost use Rattle.record_text.specs.declared.notes.Note.{Note};
ghost use Rattle.record_text.specs.declared.notes.Note.TheVariants.{Refused, Operator, Program, Setup, Opened, Dated, Left, Sealed};
ghost use Rattle.record_text.specs.Names.{text_of, Act, Wanted, Point, IsFitting, fitting, kept_error, IsPartGiven, AreAsked, IsRecord, IsUnbegun, IsDamagedRecord, Recorded, IsRecorded, recorded, Kept, nothing_kept, errors_during, with_told, with_completed, Follow, record_lines, ReadsCut, Entry, head_lines, Version, Second, has_form, is_time, with_noted, word_of};

/// A text is read in one way: it is one record, or not a record yet, or a line of it is the first that is damaged.
pub fn records_are_read_in_one_way()
    ensures one { (bytes : List ℕ) (r s : Recorded) → IsRecord bytes r → IsRecord bytes s → r ≡ s }
    ensures begun { (bytes : List ℕ) (r : Recorded) → IsRecord bytes r → IsUnbegun bytes → ⊥ }
    ensures whole { (bytes : List ℕ) (r : Recorded) (n : ℕ) → IsRecord bytes r
        → IsDamagedRecord bytes n → ⊥ }
    ensures torn { (bytes : List ℕ) (n : ℕ) → IsUnbegun bytes → IsDamagedRecord bytes n → ⊥ }
{}

/// Whoever wrote a record, what it says holds together: its features are sound for its acts, they can be written to a features file, and
/// no act is on a connection after the last.
pub fn each_record_is_sound()
    ensures { (bytes : List ℕ) (r : Recorded) → IsRecord bytes r → IsRecorded r }
{}

/// The text of a record of either version reads as that record. Cut anywhere, as when a run is killed, it is not a record yet, or it is the
/// record of its first entries, those whose lines are whole: no completed feature whose line is whole is lost.
pub fn cut_records_are_read()
    ensures whole { (version : Version) (part : Option (List ℕ)) (asked : List Wanted)
        (entries : List Entry) (kept : Kept) → IsPartGiven part → AreAsked asked
        → Follow asked nothing_kept entries kept
        → IsRecord (text_of (record_lines version part asked entries))
        (recorded part asked kept) }
    ensures cut { (version : Version) (part : Option (List ℕ)) (asked : List Wanted)
        (entries : List Entry) (kept : Kept) (count : ℕ) → IsPartGiven part → AreAsked asked
        → Follow asked nothing_kept entries kept
        → count < length (text_of (record_lines version part asked entries))
        → ReadsCut part asked entries
        (take count (text_of (record_lines version part asked entries))) }
{}

/// Records of both versions without any feature or entry say the same. What is cut within the first line is not a record yet; another
/// first line is damaged.
pub fn either_version_is_read()
    ensures first { IsRecord (codes "DME-RECORD 1\nEND\n") (recorded None [] nothing_kept) }
    ensures second { IsRecord (codes "DME-RECORD 2\nEND\n") (recorded None [] nothing_kept) }
    ensures written { text_of (head_lines Second None []) ≡ codes "DME-RECORD 2\nEND\n" }
    ensures cut { IsUnbegun (codes "DME-RECORD ") }
    ensures cut_first { IsUnbegun (codes "DME-RECORD 1") }
    ensures cut_second { IsUnbegun (codes "DME-RECORD 2") }
    ensures third { IsDamagedRecord (codes "DME-RECORD 3\n") 1 }
    ensures cut_third { IsDamagedRecord (codes "DME-RECORD 3") 1 }
{}

/// What is kept of an error are its first bytes, each whole, as many as fit into 400 bytes: a byte that would be cut is left out.
pub fn errors_are_kept_in_whole_bytes()
    ensures whole { (text : List ℕ) → IsFitting 400 text (kept_error text) }
    ensures fits { fitting 5 (codes "A" ++ 27 ∷ codes "B") ≡ codes "A\\x1B" }
    ensures cut { fitting 4 (codes "A" ++ 27 ∷ codes "B") ≡ codes "A" }
{}

/// An error is in the run of a feature if it was reported after the run's first contact and before `COMPLETED`. Here two contacts precede
/// the run: an error before them, and one between them and the run, belong to an attempt that was broken off, or to what came before it.
pub fn errors_of_a_run_are_named()
    ensures during { errors_during (codes "B") 2 (record { contacts = 1; text = codes "a" }
        ∷ record { contacts = 2; text = codes "b" } ∷ record { contacts = 3; text = codes "c" }
        ∷ record { contacts = 4; text = codes "d" } ∷ [])
        ≡ record { label = codes "B"; text = codes "c" }
        ∷ record { label = codes "B"; text = codes "d" } ∷ [] }
    ensures alone { (old : Kept) (n : ℕ) (wanted : Wanted) (points : List Point)
        → (with_completed old n wanted points).waiting ≡ [] }
    ensures kept { (old : Kept) (n : ℕ) (act : Act)
        → (with_told old n act).errors ≡ old.errors }
{}

/// What notes say has the form of their word: a time is in UTC with milliseconds, a digest has 64 digits to the base of sixteen, and a
/// connection is made with a server and ends in some way.
pub fn notes_have_their_forms()
    ensures time { is_time (codes "2026-11-30T02:28:49.123Z") ≡ true }
    ensures local { is_time (codes "2026-11-30T02:28:49.123+01:00") ≡ false }
    ensures short { is_time (codes "2026-11-30T02:28:49Z") ≡ false }
    ensures dated { has_form Dated (codes "2026-11-30T02:28:49.123Z ") ≡ false }
    ensures opened { has_form Opened (codes "2026-11-30T02:28:49.123Z cmm1 1294") ≡ true }
    ensures left { has_form Left (codes "2026-11-30T02:28:49.123Z ") ≡ false }
    ensures program { has_form Program (codes
        "a b.dmis 0123456789abcdef0123456789abcdef0123456789abcdef0123456789abcdef") ≡ true }
    ensures unnamed { has_form Setup (codes
        " 0123456789abcdef0123456789abcdef0123456789abcdef0123456789abcdef") ≡ false }
    ensures upper { has_form Setup (codes
        "a 0123456789abcdef0123456789abcdef0123456789abcdef0123456789abcdeF") ≡ false }
    ensures sealed { has_form Sealed (codes
        "0123456789abcdef0123456789abcdef0123456789abcdef0123456789abcdef") ≡ true }
    ensures no_name { has_form Sealed (codes
        "a 0123456789abcdef0123456789abcdef0123456789abcdef0123456789abcdef") ≡ false }
    ensures seal { word_of Sealed ≡ codes "SEAL" }
{}

/// A note measures nothing. One of an error waits for the next `COMPLETED`; another is kept, with how many features are complete above it.
pub fn notes_measure_nothing()
    ensures features { (old : Kept) (n : ℕ) (note : Note) (text : List ℕ)
        → (with_noted old n note text).features ≡ old.features }
    ensures acts { (old : Kept) (n : ℕ) (note : Note) (text : List ℕ)
        → (with_noted old n note text).told ≡ old.told }
    ensures error { (with_noted nothing_kept 3 Refused (codes "00009 !")).waiting
        ≡ record { contacts = 0; text = codes "00009 !" } ∷ [] }
    ensures no_note { (with_noted nothing_kept 3 Refused (codes "00009 !")).notes ≡ [] }
    ensures note { (with_noted nothing_kept 3 Operator (codes "A. B.")).notes
        ≡ record { connection = 3; features = 0; note = Operator; text = codes "A. B." } ∷ [] }
    ensures no_error { (with_noted nothing_kept 3 Operator (codes "A. B.")).waiting ≡ [] }
    ensures seal { (with_noted nothing_kept 3 Sealed (codes "01")).waiting ≡ [] }
{}
