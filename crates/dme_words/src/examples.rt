// Examples: which words are refused before all else, and the files of parts in a folder. Each function has laws for its contract and does nothing.

ghost use Rattle.std.specs.Prelude.{◌≡◌, ℕ, List, [], ◌∷◌, true, false, Some, None, Ok, Err, codes};
ghost use Rattle.program_lowering.specs.Prompts.{answer_of};
ghost use Rattle.record_text.specs.Heads.{IsPart};
ghost use Rattle.dme_words.specs.Answers.{answer_in, answers_in};
ghost use Rattle.dme_words.specs.Folders.{part_record, record_in};
ghost use Rattle.dme_words.specs.Ordered.{controlled, is_plain};

/// A byte below the blank and DEL are control characters; those of letters beyond ASCII are not. The first word that has one is refused.
pub fn control_rows()
    ensures plain { is_plain (codes "part 7~.dmis") ≡ true }
    ensures letter { is_plain (195 ∷ 164 ∷ []) ≡ true }
    ensures below { is_plain (97 ∷ 31 ∷ []) ≡ false }
    ensures delete { is_plain (127 ∷ []) ≡ false }
    ensures first { controlled (codes "dme" ∷ (97 ∷ 10 ∷ []) ∷ (9 ∷ []) ∷ []) ≡ Some (97 ∷ 10 ∷ []) }
    ensures none { controlled (codes "dme" ∷ codes "check" ∷ []) ≡ None }
{}

/// An answer is cut at its first `=`, and has a name; the first word that is not an answer is refused.
pub fn answer_rows()
    ensures cut { answer_in (codes "n=a=B") ≡ Some (answer_of (codes "N") (codes "a=B")) }
    ensures empty { answer_in (codes "N=") ≡ Some (answer_of (codes "N") []) }
    ensures nameless { answer_in (codes "=3") ≡ None }
    ensures textless { answer_in (codes "N3") ≡ None }
    ensures all { answers_in (codes "N=1" ∷ codes "N=2" ∷ [])
        ≡ Ok (answer_of (codes "N") (codes "1") ∷ answer_of (codes "N") (codes "2") ∷ []) }
    ensures first { answers_in (codes "N=1" ∷ codes "M" ∷ codes "=" ∷ []) ≡ Err (codes "M") }
{}

/// Letters, digits, `-`, `_` and `.` stay; each file ends in `.record`. Without a folder or a part there is none.
#[tactic(auto, unfolding(percent_encoding::specs::Percent::percent_encode_byte))]
pub fn folder_rows()
    ensures part { record_in (codes "parts") (codes "0042/7") ≡ codes "parts/0042%2F7.record" }
    ensures kept { record_in (codes "a") (codes "x-1_2.B z") ≡ codes "a/x-1_2.B%20z.record" }
    ensures dots { record_in (codes ".") (codes "..") ≡ codes "./...record" }
    ensures alone { part_record (Some (codes "parts")) None ≡ None }
    ensures nowhere { part_record None (Some (codes "7")) ≡ None }
{}

/// Two parts have two files.
#[tactic(auto, using(crate::proofs::FolderLemmas::files_differ))]
pub fn parts_have_their_files()
    ensures { (folder p q : List ℕ) → IsPart p → IsPart q → record_in folder p ≡ record_in folder q
        → p ≡ q }
{}
