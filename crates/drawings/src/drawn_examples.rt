// Examples of drawings: titles, scales, colours, leaders and bars that are written out.

ghost use Rattle.std.specs.Prelude.{◌≡◌, ◌≤◌, ◌*◌, ◌++◌, ◌∷◌, [], codes, decimal, pos, negsuc, Some, None, true, false};
ghost use Rattle.drawings.specs.DrawnExamples.{lean, mark, move_at, to_touch, measured_at};
ghost use Rattle.drawings.specs.Footer.{ratio_text};
ghost use Rattle.drawings.specs.Labels.{DoNotCross, leader_text};
ghost use Rattle.drawings.specs.Marks.{colour_of, is_sideways, thinned};
ghost use Rattle.drawings.specs.Numbers.{is_near, number_if};
ghost use Rattle.drawings.specs.Peaks.{along_text, farther_out, greatest_peak, left_end, peak_length, peak_text, right_end};
ghost use Rattle.drawings.specs.Pictures.{spot};
ghost use Rattle.drawings.specs.Scales.{denominator, numerator, on_paper};
ghost use Rattle.drawings.specs.Stops.{shown_stops};
ghost use Rattle.drawings.specs.Texts.{line_text};
ghost use Rattle.drawings.specs.Title.{title_words, untitled};
ghost use Rattle.drawings.specs.Whiskers.{whisker_room};

/// A title has the texts that are given.
pub fn titles_have_what_is_given()
    ensures all { title_words (record { part = codes "<A"; program = codes "b"; time = codes "c" })
        ≡ codes " Part &lt;A Program b c" }
    ensures part { title_words (record { part = codes "A"; program = []; time = [] })
        ≡ codes " Part A" }
    ensures program { title_words (record { part = []; program = codes "b"; time = [] })
        ≡ codes " Program b" }
    ensures time { title_words (record { part = []; program = []; time = codes "c" })
        ≡ codes " c" }
    ensures none { title_words untitled ≡ codes "Measured points and their deviations" }
{}

/// The numbers of scales in tenths, in their order, and the longest whisker, which is a twentieth of a frame's width of 207 mm.
pub fn scales_are_round()
    ensures largest { numerator 0 ≡ 100000 }
    ensures larger { numerator 22 ≡ 25 }
    ensures double { numerator 23 ≡ 20 }
    ensures full { numerator 24 ≡ 10 }
    ensures whole { denominator 24 ≡ 10 }
    ensures half { denominator 25 ≡ 20 }
    ensures smaller { denominator 26 ≡ 25 }
    ensures third { denominator 27 ≡ 30 }
    ensures quarter { denominator 28 ≡ 40 }
    ensures fifth { denominator 29 ≡ 50 }
    ensures tenth { denominator 30 ≡ 100 }
    ensures smallest { denominator 61 ≡ 20000000 }
    ensures ratio { ratio_text 26 ≡ (decimal 1 ++ []) ++ (codes ":" ++ (decimal 2 ++ codes ".5")) }
    ensures paper { on_paper 26 1001 ≡ 400 }
    ensures whisker { whisker_room.across * 20 ≤ 207000 }
{}

/// The views show the touches, and the moves only if there is no touch.
pub fn views_show_touches()
    ensures touches { shown_stops (move_at 9 ∷ to_touch 1 ∷ measured_at 2 ∷ move_at 9 ∷ [])
        ≡ to_touch 1 ∷ measured_at 2 ∷ [] }
    ensures moves { shown_stops (move_at 9 ∷ []) ≡ move_at 9 ∷ [] }
{}

/// The colour of a whisker is its side of the surface; it is thin if it leans more than half a right angle.
pub fn whiskers_have_colours()
    ensures red { colour_of (Some (pos 1)) ≡ codes "#d00000" }
    ensures blue { colour_of (Some (negsuc 0)) ≡ codes "#0050d0" }
    ensures grey { colour_of (Some (pos 0)) ≡ codes "#555" }
    ensures none { colour_of None ≡ codes "#555" }
    ensures along { is_sideways (lean 1 1 0) (Some (pos 1)) ≡ false }
    ensures x { is_sideways (lean 2 0 0) (Some (pos 1)) ≡ true }
    ensures y { is_sideways (lean 0 2 0) (Some (negsuc 0)) ≡ true }
    ensures z { is_sideways (lean 0 0 2) (Some (pos 1)) ≡ true }
    ensures without { is_sideways (lean 2 2 2) None ≡ false }
    ensures thin { thinned 500 true ≡ 250 }
    ensures thick { thinned 500 false ≡ 500 }
{}

/// A leader is level as far as the frame's edge. Leaders that cross are refused.
pub fn leaders_are_level_at_first()
    ensures level { leader_text (spot 30000 50000) 60000
        ≡ line_text (spot 30000 50000) (spot 217000 50000)
        ++ line_text (spot 217000 50000) (spot 222500 60000) }
    ensures edge { DoNotCross 5 0 ((4, 0, 0) ∷ []) (1 ∷ []) → ⊥ }
    ensures label { DoNotCross 0 5 ((0, 0, 0) ∷ []) (5 ∷ []) → ⊥ }
    ensures count { DoNotCross 0 0 ((0, 0, 0) ∷ []) [] → ⊥ }
{}

/// The peak of a feature is its first deviation of the greatest magnitude; its bar is to the left of its axis if it is below zero.
pub fn peaks_have_bars()
    ensures later { farther_out (Some (pos 3)) (Some (negsuc 3)) ≡ Some (negsuc 3) }
    ensures first { farther_out (Some (pos 3)) (Some (negsuc 2)) ≡ Some (pos 3) }
    ensures before { farther_out (Some (pos 0)) None ≡ Some (pos 0) }
    ensures after { farther_out None (Some (pos 0)) ≡ Some (pos 0) }
    ensures greatest { greatest_peak (mark (Some (pos 6)) ∷ mark (Some (negsuc 6)) ∷ mark None ∷ [])
        ≡ 7 }
    ensures least { greatest_peak (mark (Some (pos 0)) ∷ []) ≡ 1 }
    ensures longest { peak_length 7 7 ≡ 8000 }
    ensures down { peak_length 7 6 ≡ 6857 }
    ensures right { right_end (pos 1) 9 ≡ 274509 }
    ensures right_start { left_end (pos 1) 9 ≡ 274500 }
    ensures left { left_end (negsuc 0) 9 ≡ 274491 }
    ensures left_start { right_end (negsuc 0) 9 ≡ 274500 }
    ensures none { peak_text 9 None 30000 ≡ [] }
{}

/// A number needs 9 mm across and 3.5 mm down, and is to the right above its point.
pub fn numbers_keep_their_room()
    ensures corner { is_near (spot 0 0) (spot 9000 3500) ≡ true }
    ensures right { is_near (spot 0 0) (spot 9001 0) ≡ false }
    ensures left { is_near (spot 9001 0) (spot 0 0) ≡ false }
    ensures below { is_near (spot 0 0) (spot 0 3501) ≡ false }
    ensures above { is_near (spot 0 3501) (spot 0 0) ≡ false }
    ensures alone { number_if true (spot 30000 40000) (Some (negsuc 1))
        ≡ along_text (spot 31000 39300) (negsuc 1) }
    ensures crowded { number_if false (spot 30000 40000) (Some (negsuc 1)) ≡ [] }
    ensures none { number_if true (spot 30000 40000) None ≡ [] }
{}
