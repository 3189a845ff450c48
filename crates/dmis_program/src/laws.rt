// What follows from the definitions alone. Each function has laws for its contract and does nothing.
ghost use Rattle.std.specs.Prelude.{◌≡◌, ◌≢◌, ◌↔◌, ℕ, true, false, List, [], ◌∷◌, ◌++◌, length, map, codes, Option, Some, None, Result, Ok, Err};
ghost use Rattle.dmis_program.specs.Names.{AllByRecursion, is_name_text, folded, Machine, Part, Point, Statement, TextFault, name_within, AreNamedOnce, AreInVolume, offset_of, context_at, judged, Meaning, closes, ended, steps_from, features_of, program_of, AreRead, above_behind, steps_along, IsProgram, AreBlocks, SelectNoTool, SelectNoFrame, StayInside, StepIsStored, touches_of, Refusal, StatementMeaning, Step, Touch};
ghost use Rattle.dmis_program.specs.declared.steps.Step.TheVariants as step;

/// Of a program's refusals that of the first statement that is refused decides, with its line. If none is refused and none
/// is the end, the refusal of the text's end does. After the end nothing is read.
pub fn first_refusal_decides()
    ensures refused { (frames : List (List ℕ × Point)) (fault : Option TextFault) (lines : ℕ)
        (above front : List Statement) (s : Statement) (behind : List Statement) (refusal : Refusal)
        → AreRead frames above front → judged frames (context_at frames (above_behind above front))
        s ≡ Err refusal
        → steps_from frames fault lines above (front ++ s ∷ behind) ≡ Err (refusal, s.line) }
    ensures endless { (frames : List (List ℕ × Point)) (fault : Option TextFault) (lines : ℕ)
        (above statements : List Statement)
        → AreRead frames above statements
        → steps_from frames fault lines above statements
        ≡ Err (ended fault (length (above_behind above statements)) lines) }
    ensures accepted { (frames : List (List ℕ × Point)) (fault : Option TextFault) (lines : ℕ)
        (above front : List Statement) (s : Statement) (behind : List Statement) (said : StatementMeaning)
        → AreRead frames above front → judged frames (context_at frames (above_behind above front))
        s ≡ Ok said → closes said ≡ true
        → steps_from frames fault lines above (front ++ s ∷ behind)
        ≡ Ok (steps_along frames above front) }
{}

/// An accepted program keeps its shape, and recalls stored frames alone.
pub fn accepted_programs_keep_their_shape()
    ensures program { (frames : List (List ℕ × Point)) (text : List ℕ) (m : Meaning)
        → AreInVolume frames → program_of frames text ≡ Ok m → IsProgram m }
    ensures stored { (frames : List (List ℕ × Point)) (text : List ℕ) (m : Meaning)
        → program_of frames text ≡ Ok m → AllByRecursion (StepIsStored frames) m.steps }
{}

/// A touch has the tool and the frame that were selected last above it, wherever blocks begin and end between.
pub fn touches_have_the_nearest_selections()
    ensures tool { (m : Meaning) (before between behind : List Step) (name : List ℕ) (t : Touch)
        → IsProgram m → m.steps ≡ before ++ (step.Tool name ∷ (between ++ (step.Touch t ∷ behind)))
        → SelectNoTool between → t.tool ≡ name }
    ensures frame { (m : Meaning) (before between behind : List Step) (offset : Point) (t : Touch)
        → IsProgram m → m.steps ≡ before ++ (step.Recall offset
        ∷ (between ++ (step.Touch t ∷ behind))) → SelectNoFrame between → t.frame ≡ Part offset }
    ensures machine { (m : Meaning) (before behind : List Step) (t : Touch)
        → IsProgram m → m.steps ≡ before ++ (step.Touch t ∷ behind) → SelectNoFrame before
        → t.frame ≡ Machine }
{}

/// A block is a feature: its label, and its touches in order. After complete blocks it follows their features.
pub fn blocks_are_features()
    ensures { (before inner behind : List Step) (label : List ℕ) → AreBlocks None before
        → StayInside inner
        → features_of (before ++ (step.Begin label ∷ (inner ++ (step.End ∷ behind))))
        ≡ features_of before ++ (record { label = label; touches = touches_of inner }
        ∷ features_of behind) }
{}

/// A stored frame is found under its name, and one more changes no other.
pub fn stored_frames_are_found()
    ensures found { (frames more : List (List ℕ × Point)) (name : List ℕ) (offset : Point)
        → AreNamedOnce (frames ++ ((name, offset) ∷ more))
        → offset_of (frames ++ ((name, offset) ∷ more)) name ≡ Some offset }
    ensures others { (frames : List (List ℕ × Point)) (name other : List ℕ) (offset : Point)
        → name ≢ other → offset_of (frames ++ (name, offset) ∷ []) other ≡ offset_of frames other }
{}

/// A name is between its mark and a `)` and nowhere else.
pub fn names_stand_in_parentheses()
    ensures written { (front inner : List ℕ) → is_name_text inner ≡ true
        → name_within front (front ++ (inner ++ codes ")")) ≡ Some (folded inner) }
    ensures only { (front text name : List ℕ) → name_within front text ≡ Some name
        → (inner : List ℕ) × (text ≡ front ++ (inner ++ codes ")")) × (is_name_text inner ≡ true)
        × (name ≡ folded inner) }
{}
