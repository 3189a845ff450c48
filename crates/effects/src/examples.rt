// Examples. Each function has laws for its contract and does nothing.

ghost use Rattle.std.specs.Prelude.{◌≡◌, ℕ, [], ◌∷◌, true, false, Some, None, codes};
ghost use Rattle.effects.specs.Naming.{Disturbs, IsFirstMet, AreApart};
ghost use Rattle.effects.specs.Comparing.{Answered, Covers, KnownAt, State, numbered, placed};
ghost use Rattle.effects.specs.declared.comparisons.Stage.TheVariants as stage;

/// Two files disturb one another, if either is written, that have one place or one number on their device, or of which one is the other's next
/// text or, where that is kept, what was in it before.
pub fn meeting_rows()
    ensures place { Disturbs true (false ∷ true ∷ []) (record { at = 0; place = codes "r"; node = None })
        (record { at = 1; place = codes "r"; node = None }) }
    ensures number { Disturbs true (true ∷ false ∷ []) (record { at = 0; place = codes "s"; node = Some (1 ∷ []) })
        (record { at = 1; place = codes "f"; node = Some (1 ∷ []) }) }
    ensures next { Disturbs false (true ∷ false ∷ []) (record { at = 0; place = codes "f"; node = None })
        (record { at = 1; place = codes "f.new"; node = None }) }
    ensures old { Disturbs true (true ∷ false ∷ []) (record { at = 0; place = codes "f.old"; node = None })
        (record { at = 1; place = codes "f"; node = None }) }
    ensures unkept { Disturbs false (true ∷ false ∷ []) (record { at = 0; place = codes "f.old"; node = None })
        (record { at = 1; place = codes "f"; node = None }) → ⊥ }
    ensures unwritten { Disturbs true (false ∷ false ∷ []) (record { at = 0; place = codes "s"; node = None })
        (record { at = 1; place = codes "s"; node = None }) → ⊥ }
    ensures unknown { Disturbs true [] (record { at = 0; place = codes "s"; node = None })
        (record { at = 1; place = codes "s"; node = None }) → ⊥ }
    ensures other { Disturbs true (true ∷ true ∷ []) (record { at = 0; place = codes "r"; node = None })
        (record { at = 1; place = codes "l"; node = None }) → ⊥ }
    ensures first { IsFirstMet true (true ∷ true ∷ true ∷ []) (record { at = 0; place = codes "r"; node = None }
        ∷ record { at = 1; place = codes "l"; node = None } ∷ []) 1 (record { at = 2; place = codes "l"; node = None }) }
    ensures later { IsFirstMet true (true ∷ true ∷ true ∷ []) (record { at = 0; place = codes "l"; node = None }
        ∷ record { at = 1; place = codes "l"; node = None } ∷ []) 1 (record { at = 2; place = codes "l"; node = None })
        → ⊥ }
    ensures met { AreApart true (true ∷ true ∷ []) (record { at = 0; place = codes "r"; node = None }
        ∷ record { at = 1; place = codes "r"; node = None } ∷ []) → ⊥ }
{}

/// A file has the place and the number that were answered, or no place; none are apart before each was looked for; and a call
/// is refused with status 2 only if two of its files are one, otherwise with 4.
pub fn answer_rows()
    ensures placeless { (a : Answered) → (placed 3 None a).placeless ≡ 3 ∷ a.placeless }
    ensures placed { (a : Answered) → (placed 3 (Some (7 ∷ [])) a).place ≡ 7 ∷ [] }
    ensures numbered { (a : Answered) → a.place ≡ 7 ∷ [] → a.seen ≡ [] → (numbered 3 (Some (1 ∷ [])) a).seen
        ≡ record { at = 3; place = 7 ∷ []; node = Some (1 ∷ []) } ∷ [] }
    ensures unseen { Covers 1 [] [] → ⊥ }
    ensures compared { (s : State) (a : Answered) → s.files.names ≡ (7 ∷ []) ∷ [] → a.placeless ≡ []
        → a.seen ≡ [] → KnownAt stage.Apart s a → ⊥ }
    ensures meeting { (s : State) (a : Answered) → s.files.written ≡ true ∷ true ∷ []
        → a.seen ≡ record { at = 0; place = codes "r"; node = None }
        ∷ record { at = 1; place = codes "r"; node = None } ∷ [] → KnownAt stage.Apart s a → ⊥ }
    ensures single { (s : State) (a : Answered) → a.seen ≡ record { at = 0; place = codes "r"; node = None } ∷ []
        → KnownAt stage.Exiting s a → s.status ≡ 4 }
    ensures status { (s : State) (a : Answered) → KnownAt stage.Exiting s a → s.status ≡ 0 → ⊥ }
{}
