// Examples of what a verdict says. Feature A is wanted, with two touches, and the two contacts that it wants were made twice.

ghost use Rattle.std.specs.Prelude.{◌≡◌, ℕ, List, [], ◌∷◌};
ghost use Rattle.ledger_audit.specs.Names.{contacts, AreRuns, one_wanted, AreAtMost, AreLeast, AreFewestUnsound, IfStarts, IfNoRun, TellsStarts, TellsNoRun, made_twice, once, once_more};
ghost use Rattle.ledger_audit.specs.declared.verdicts.Verdict.TheVariants as verdict;

/// Choices of starts.
pub fn start_rows()
    ensures at_most { AreAtMost (0 ∷ 2 ∷ []) (0 ∷ 3 ∷ []) }
    ensures one_above { AreAtMost (0 ∷ 4 ∷ []) (0 ∷ 3 ∷ []) → ⊥ }
    ensures fewer { AreAtMost (0 ∷ []) (0 ∷ 3 ∷ []) → ⊥ }
    ensures more { AreAtMost (0 ∷ 3 ∷ []) (0 ∷ []) → ⊥ }
    ensures first { AreRuns one_wanted once (0 ∷ []) 0 (contacts made_twice) }
    ensures second { AreRuns one_wanted once (2 ∷ []) 0 (contacts made_twice) }
    ensures least { AreLeast one_wanted once (contacts made_twice) (0 ∷ []) }
    ensures not_least { AreLeast one_wanted once (contacts made_twice) (2 ∷ []) → ⊥ }
    ensures no_start { AreLeast one_wanted once (contacts made_twice) [] → ⊥ }
{}

/// Counts of features that have no runs. The program has one feature.
pub fn count_rows()
    ensures behind_the_program { AreFewestUnsound one_wanted once_more made_twice 2 }
    ensures one_fewer { AreFewestUnsound one_wanted once_more made_twice 1 → ⊥ }
    ensures nothing_done { AreFewestUnsound one_wanted once_more [] 1 }
    ensures one_more { AreFewestUnsound one_wanted once_more [] 2 → ⊥ }
{}

/// What a verdict reports.
pub fn verdict_rows()
    ensures starts { TellsStarts (verdict.Starts (1 ∷ [])) }
    ensures starts_are_no_refusal { TellsNoRun (verdict.Starts (1 ∷ [])) → ⊥ }
    ensures no_run { TellsNoRun (verdict.NoRun 1) }
    ensures no_run_is_no_start { TellsStarts (verdict.NoRun 1) → ⊥ }
    ensures these_starts { IfStarts (verdict.Starts (1 ∷ [])) (λ s. s ≡ 2 ∷ []) → ⊥ }
    ensures this_count { IfNoRun (verdict.NoRun 1) (λ k. k ≡ 2) → ⊥ }
{}
