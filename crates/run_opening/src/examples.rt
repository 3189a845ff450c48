// Examples: what comes of an answer, and what is known. Each function has laws for its contract and does nothing.

ghost use Rattle.std.specs.Prelude.{◌≡◌, [], ◌∷◌, true, false, List, Option, Some, None, is_some, codes, pos};
ghost use Rattle.run_opening.specs.Names.{Run, Answered, Beginning, Feature, AreFeaturesRead, AreFirstFeatures, KeepsFile, Bytes, End, Missing, Done, Found, State, Outside, Known, outcome, read, is_there, untouched, Disturbs, AreApart, Covers, given, is_written, name_at, written};
ghost use Rattle.run_opening.specs.declared.stages.Stage.TheVariants as stage;
ghost use Rattle.run_opening.specs.declared.stages.Text.TheVariants as text;

/// Features, record, contacts and log are written, the program and the stop file are not; standard input is no file. Two files disturb one
/// another, if either is written, that have one place or one number on their device, or of which one is made next to the other.
pub fn meeting_rows()
    ensures program { is_written written 1 ≡ false }
    ensures features { is_written written 2 ≡ true }
    ensures log { is_written written 5 ≡ true }
    ensures stop { is_written written 6 ≡ false }
    ensures key { is_written written 7 ≡ false }
    ensures input { given (codes "-") ≡ None }
    ensures file { given (codes "a") ≡ Some (codes "a") }
    ensures place { Disturbs (record { at = 3; place = codes "r"; node = None })
        (record { at = 5; place = codes "r"; node = None }) }
    ensures number { Disturbs (record { at = 0; place = codes "s"; node = Some (1 ∷ []) })
        (record { at = 2; place = codes "f"; node = Some (1 ∷ []) }) }
    ensures next { Disturbs (record { at = 2; place = codes "f"; node = None })
        (record { at = 6; place = codes "f.new"; node = None }) }
    ensures before { Disturbs (record { at = 1; place = codes "f.new"; node = None })
        (record { at = 2; place = codes "f"; node = None }) }
    ensures unwritten { Disturbs (record { at = 0; place = codes "s"; node = None })
        (record { at = 1; place = codes "s"; node = None }) → ⊥ }
    ensures other { Disturbs (record { at = 3; place = codes "r"; node = None })
        (record { at = 5; place = codes "l"; node = None }) → ⊥ }
    ensures met { AreApart (record { at = 3; place = codes "r"; node = None }
        ∷ record { at = 5; place = codes "r"; node = None } ∷ []) → ⊥ }
    ensures unseen { (run : Run) → is_some (name_at 3 run) ≡ true → Covers run 8 [] [] → ⊥ }
{}

/// Bytes of a text are added to those before; the text is read once its end was answered, and not before; a record that is not there is one
/// without bytes; and the stop file is there only if it was found.
pub fn answer_rows()
    ensures added { (o : Outside) → o.text ≡ 7 ∷ []
        → (read text.Setup (Bytes (8 ∷ [])) o).text ≡ 7 ∷ 8 ∷ [] }
    ensures unread { (o : Outside) → (read text.Setup (Bytes (8 ∷ [])) o).answered ≡ o.answered }
    ensures whole { (o : Outside) → o.text ≡ 7 ∷ []
        → (read text.Setup End o).answered.setup ≡ Some (7 ∷ []) }
    ensures lacking { (outcome (stage.Opening text.Record) Missing untouched).answered.recorded
        ≡ Some [] }
    ensures locked { (outcome stage.HoldingRecord Done untouched).answered.has_record ≡ true }
    ensures placeless { (outcome (stage.Placing 3) Missing untouched).answered.placeless ≡ 3 ∷ [] }
    ensures placed { (o : Outside) → (outcome (stage.Placing 3) (Bytes (7 ∷ [])) o).answered.place
        ≡ 7 ∷ [] }
    ensures numbered { (outcome (stage.Numbering 3) (Bytes (1 ∷ [])) untouched).answered.seen
        ≡ record { at = 3; place = []; node = Some (1 ∷ []) } ∷ [] }
    ensures new { (outcome (stage.Numbering 3) Missing untouched).answered.seen
        ≡ record { at = 3; place = []; node = None } ∷ [] }
    ensures there { is_there Found ≡ true }
    ensures absent { is_there Done ≡ false }
{}

/// No run is ready whose files meet, or were not looked for; whose record is not locked, or lacks its text; whose stop file was there, or
/// was not looked for; or whose question was answered by another line.
#[tactic(auto, using(crate::proofs::Comparing::uncompared))]
pub fn ready_rows()
    ensures unlocked { (run : Run) (s : State) (o : Outside) → Known stage.Ready run s o
        → is_some run.record ≡ true → o.answered.has_record ≡ false → ⊥ }
    ensures uncompared { (run : Run) (s : State) (o : Outside) → Known stage.Ready run s o
        → is_some run.record ≡ true → o.answered.placeless ≡ [] → o.answered.seen ≡ [] → ⊥ }
    ensures meeting { (run : Run) (s : State) (o : Outside) → Known stage.Ready run s o
        → o.answered.seen ≡ record { at = 3; place = codes "r"; node = None }
        ∷ record { at = 5; place = codes "r"; node = None } ∷ [] → ⊥ }
    ensures unfilled { (run : Run) (s : State) (o : Outside) → Known stage.Ready run s o
        → is_some run.record ≡ true → o.answered.is_filled ≡ false → ⊥ }
    ensures stopped { (run : Run) (s : State) (o : Outside) → Known stage.Ready run s o
        → is_some run.stop ≡ true → o.answered.stop ≡ Some true → ⊥ }
    ensures unconfirmed { (run : Run) (s : State) (o : Outside) → Known stage.Ready run s o
        → run.confirm ≡ true → o.typed ≡ 121 ∷ [] → ⊥ }
{}

/// Features are the first of themselves and more, wherever they come from, but not in another order, nor if there are fewer, if a label
/// differs, or a point, or the number of points. No run keeps a file with a feature whose record gives none back.
pub fn first_rows()
    ensures none { (f : Feature) → AreFirstFeatures [] (f ∷ []) }
    ensures one { (f g : Feature) → AreFirstFeatures (f ∷ []) (f ∷ g ∷ []) }
    ensures origin { (f g : Feature) → f.label ≡ g.label → f.points ≡ g.points
        → f.origin ≡ None → AreFirstFeatures (f ∷ []) (g ∷ []) }
    ensures order { (f g : Feature) → f.label ≡ codes "A" → g.label ≡ codes "B"
        → AreFirstFeatures (f ∷ g ∷ []) (g ∷ f ∷ []) → ⊥ }
    ensures fewer { (f g : Feature) → AreFirstFeatures (f ∷ g ∷ []) (f ∷ []) → ⊥ }
    ensures label { (f g h : Feature) → g.label ≡ codes "A" → h.label ≡ codes "B"
        → AreFirstFeatures (f ∷ g ∷ []) (f ∷ h ∷ []) → ⊥ }
    ensures point { (f g : Feature) → f.points ≡ record { x = pos 1; y = pos 0; z = pos 0 } ∷ []
        → g.points ≡ record { x = pos 2; y = pos 0; z = pos 0 } ∷ []
        → AreFirstFeatures (f ∷ []) (g ∷ []) → ⊥ }
    ensures points { (f g : Feature) → f.points ≡ []
        → g.points ≡ record { x = pos 1; y = pos 0; z = pos 0 } ∷ []
        → AreFirstFeatures (f ∷ []) (g ∷ []) → ⊥ }
    ensures replaced { (run : Run) (a : Answered) (b : Beginning) (f : Feature) → KeepsFile run a b
        → is_some run.features ≡ true → b.features ≡ []
        → ((held : Option (List Feature)) → AreFeaturesRead held a.features
        → held ≡ Some (f ∷ [])) → ⊥ }
{}

/// No run exits with status 0, or before each of its files was let go.
pub fn exit_rows()
    ensures status { (run : Run) (s : State) (o : Outside) → Known stage.Exiting run s o
        → s.status ≡ 0 → ⊥ }
    ensures features { (run : Run) (s : State) (o : Outside) → Known stage.Exiting run s o
        → o.left_features ≡ false → ⊥ }
    ensures contacts { (run : Run) (s : State) (o : Outside) → Known stage.Exiting run s o
        → o.left_contacts ≡ false → ⊥ }
    ensures recorded { (run : Run) (s : State) (o : Outside) → Known stage.Exiting run s o
        → o.left_record ≡ false → ⊥ }
{}
