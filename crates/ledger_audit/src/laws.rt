// What follows from the definitions alone. The contract of each function states laws; its body does nothing.
ghost use Rattle.std.specs.Prelude.{◌≡◌, ℕ, List};
ghost use Rattle.ledger_audit.specs.Names.{Act, Feature, Wanted, MadeContact, AreRuns, AreLeast, AreFewestUnsound};

/// There is one verdict: starts none of which can be less are unique, and so is the least count of features that have no runs.
pub fn there_is_one_verdict()
    ensures starts { (wanted : List Wanted) (features : List Feature) (made : List MadeContact)
        (some others : List ℕ) → AreRuns wanted features some 0 made
        → AreLeast wanted features made some → AreRuns wanted features others 0 made
        → AreLeast wanted features made others → some ≡ others }
    ensures counts { (wanted : List Wanted) (features : List Feature) (ledger : List (ℕ × Act))
        (count other : ℕ) → AreFewestUnsound wanted features ledger count
        → AreFewestUnsound wanted features ledger other → count ≡ other }
{}
