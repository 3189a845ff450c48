// Examples: deviations, batches and lines that are written out. The functions have laws for their contracts and do nothing.

ghost use Rattle.std.specs.Prelude.{◌≡◌, ◌++◌, ◌∷◌, [], ℕ, List, Option, codes, decimal, true, false, ℤ, pos, negsuc, Some, None};
ghost use Rattle.std.specs.List.{AllByRecursion};
ghost use Rattle.fixed_um.specs.Written.{written};
ghost use Rattle.deviations.specs.Rows.{Place};
ghost use Rattle.order_parts.specs.declared.faults.FilesFault.TheVariants as files;
ghost use Rattle.part_summary.specs.Batches.{BatchPart, Summed, deviations_over, summary_status, unfinished_in, with_fault};
ghost use Rattle.deviations.specs.Rows.{Row};
ghost use Rattle.dmis_program.specs.declared.features.Touch.{Touch};
ghost use Rattle.drawings.specs.Pages.{within_line};
ghost use Rattle.record_text.specs.declared.notes.Note.TheVariants.{By, Opened};
ghost use Rattle.part_summary.specs.Batches.{in_order};
ghost use Rattle.part_summary.specs.Charts.{IsWithin, chart_start, height, limit_levels, margin, reach_after, reach_of, span_at, stroke, strokes};
ghost use Rattle.part_summary.specs.Examples.{begun, part_with, plot_with, row, small, span};
ghost use Rattle.part_summary.specs.Pages.{all_compared, all_out, counts_start, is_complete, lacking_lines, limits_line, out_class, part_row, seals_line};
ghost use Rattle.part_summary.specs.Spans.{Span, span_after, spans_of};
ghost use Rattle.part_summary.specs.Sums.{tally_of};
ghost use Rattle.part_summary.specs.Times.{Plot, is_after, is_earlier, time_in};
ghost use Rattle.part_summary.specs.Sums.{greatest, least, mean, outside, sums_of, total};
ghost use Rattle.part_summary.specs.Tables.{touch_fields};
ghost use Rattle.part_summary.specs.Texts.{sums_words, tally_words};

/// A mean is rounded once: a half goes away from zero.
pub fn means_are_rounded()
    ensures half { mean (pos 1) 2 ≡ pos 1 }
    ensures half_below { mean (negsuc 0) 2 ≡ negsuc 0 }
    ensures third { mean (pos 4) 3 ≡ pos 1 }
    ensures third_below { mean (negsuc 3) 3 ≡ negsuc 0 }
    ensures two_thirds { mean (negsuc 4) 3 ≡ negsuc 1 }
    ensures exact { mean (negsuc 5) 3 ≡ negsuc 1 }
    ensures nothing { mean (pos 0) 7 ≡ pos 0 }
{}

/// The least and the greatest are among the deviations: zero is not, unless it was measured.
pub fn sums_are_of_what_was_measured()
    ensures least { least (pos 5) (pos 3 ∷ pos 8 ∷ []) ≡ pos 3 }
    ensures greatest { greatest (negsuc 4) (negsuc 2 ∷ negsuc 7 ∷ []) ≡ negsuc 2 }
    ensures total { total (negsuc 4) (pos 3 ∷ negsuc 0 ∷ []) ≡ negsuc 2 }
    ensures alone { sums_of None (pos 7 ∷ []) ≡ Some (record {
      count = 1;
      total = pos 7;
      least = pos 7;
      greatest = pos 7;
      out = 0;
    }) }
    ensures none { sums_of small [] ≡ None }
{}

/// A deviation on a limit is not out.
pub fn limits_belong_to_their_range()
    ensures out { outside small (pos 3 ∷ pos 0 ∷ pos 4 ∷ negsuc 0 ∷ []) ≡ 2 }
    ensures free { outside None (pos 4 ∷ negsuc 0 ∷ []) ≡ 0 }
{}

/// Three parts, of which the last, first in the list, lacks the second feature: it has no deviation there, and is named.
pub fn a_missing_feature_has_no_deviation()
    ensures lists { (p q : Place) → deviations_over (p ∷ q ∷ [])
        (part_with (codes "C") 1 (Some (pos 0) ∷ None ∷ [])
        ∷ part_with (codes "B") 2 (Some (pos 3) ∷ Some (pos 1) ∷ [])
        ∷ part_with (codes "A") 2 (Some (pos 9) ∷ Some (negsuc 1) ∷ []) ∷ [])
        ≡ (pos 0 ∷ pos 3 ∷ pos 9 ∷ []) ∷ (pos 1 ∷ negsuc 1 ∷ []) ∷ [] }
    ensures named { unfinished_in 2 (part_with (codes "C") 1 []
        ∷ part_with (codes "B") 2 [] ∷ part_with (codes "A") 0 [] ∷ [])
        ≡ record { name = codes "A"; measured = 0 } ∷ record { name = codes "C"; measured = 1 }
        ∷ [] }
{}

/// The line and the fields of a touch.
#[tactic(auto, unfolding(crate::specs::Texts::low_words, crate::specs::Texts::high_words))]
pub fn touches_are_said()
    ensures sums { tally_words small (sums_of small (pos 1 ∷ negsuc 1 ∷ []))
        ≡ (codes "count " ++ (decimal 2 ++ (codes ", least " ++ (written (negsuc 1)
        ++ (codes ", mean " ++ written (negsuc 0))))))
        ++ ((codes ", greatest " ++ (written (pos 1) ++ (codes ", range " ++ written (pos 3))))
        ++ (codes ", out " ++ decimal 1)) }
    ensures none { tally_words small (sums_of small []) ≡ codes "no value" }
    ensures fields { touch_fields (codes "A") 1 None (sums_of None (pos 1 ∷ negsuc 1 ∷ []))
        ≡ codes "A" ∷ decimal 1 ∷ decimal 2 ∷ written (negsuc 1) ∷ written (negsuc 0)
        ∷ written (pos 1) ∷ written (pos 3) ∷ [] ∷ [] }
    ensures no_fields { touch_fields (codes "A") 1 small (sums_of small [])
        ≡ codes "A" ∷ decimal 1 ∷ codes "0" ∷ [] ∷ [] ∷ [] ∷ [] ∷ decimal 0 ∷ [] }
{}

/// The greatest status of what was refused goes before that of an unfinished part.
pub fn statuses_have_their_order()
    ensures none { (s : Summed)
        → summary_status (record s { worst = 0; unfinished = [] }) ≡ 0 }
    ensures lacking { (s : Summed) → summary_status (record s {
      worst = 0;
      unfinished =
          record { name = codes "C"; measured = 1 } ∷ [];
    }) ≡ 3 }
    ensures refused { (s : Summed) → summary_status (with_fault (record s {
      worst = 0;
      unfinished =
          record { name = codes "C"; measured = 1 } ∷ [];
    }) (files.BadSeal 4)) ≡ 1 }
    ensures full { (s : Summed) → summary_status (with_fault (with_fault (record s { worst = 0 })
        files.Memory) files.NotOurs) ≡ 4 }
{}

/// A part has the time of its first connection, whatever else is noted before it.
pub fn times_are_those_of_first_connections()
    ensures first { time_in (record { connection = 1; features = 0; note = By; text = codes "dme 1" }
        ∷ record {
          connection = 1;
          features = 0;
          note = Opened;
          text =
              codes "2026-11-25T23:59:59.999Z 10.0.0.1:1294";
        }
        ∷ record {
          connection = 2;
          features = 0;
          note = Opened;
          text =
              codes "2026-11-26T00:00:00.000Z 10.0.0.1:1294";
        } ∷ [])
        ≡ Some (codes "2026-11-25T23:59:59.999Z") }
    ensures none { time_in (record { connection = 1; features = 0; note = By; text = codes "dme 1" }
        ∷ []) ≡ None }
    ensures earlier { is_earlier (codes "2026-11-25T23:59:59.999Z")
        (codes "2026-11-26T00:00:00.000Z") ≡ true }
    ensures later { is_earlier (codes "2026-11-26T00:00:00.000Z")
        (codes "2026-11-25T23:59:59.999Z") ≡ false }
    ensures same { is_earlier (codes "2026-11-26T00:00:00.000Z")
        (codes "2026-11-26T00:00:00.000Z") ≡ false }
{}

/// Parts read as D, C, B and A: C was begun first, B has no time, and D was read before A, which was begun with it.
pub fn parts_are_in_the_order_of_their_times()
    ensures { in_order (begun (codes "A") (Some (codes "2")) ∷ begun (codes "B") None ∷ begun (codes "C") (Some (codes "1"))
        ∷ begun (codes "D") (Some (codes "2")) ∷ [])
        ≡ plot_with (codes "C") 1 (Some (codes "1")) [] ∷ plot_with (codes "D") 1 (Some (codes "2")) []
        ∷ plot_with (codes "A") 1 (Some (codes "2")) [] ∷ plot_with (codes "B") 1 None [] ∷ [] }
{}

/// The first feature has one touch and the second two; a point that was not measured widens nothing.
pub fn spans_are_of_features()
    ensures two { (t : Touch) → spans_of (record { label = codes "A"; touches = t ∷ [] }
        ∷ record { label = codes "B"; touches = t ∷ t ∷ [] } ∷ [])
        (row (Some (pos 5)) ∷ row (Some (pos 2)) ∷ row (Some (negsuc 0)) ∷ [])
        ≡ Some (span (pos 5) (pos 5)) ∷ Some (span (negsuc 0) (pos 2)) ∷ [] }
    ensures holes { span_after None (row None ∷ row (Some (pos 2)) ∷ row None ∷ [])
        ≡ Some (span (pos 2) (pos 2)) }
    ensures none { span_after None (row None ∷ row None ∷ []) ≡ None }
{}

/// Part 1 lacks the second feature, and has no stroke in its chart; part 2 keeps its place, and its name is escaped.
pub fn charts_have_strokes()
    ensures strokes { strokes 1 1 (plot_with (codes "A") 1 None (Some (span (pos 9) (pos 9)) ∷ None ∷ [])
        ∷ plot_with (codes "<") 2 None (None ∷ Some (span (negsuc 1) (pos 3)) ∷ []) ∷ [])
        ≡ codes "<path d=\"M2 -0.002V0.003\"><title>&lt;</title></path>\n" }
    ensures reach { reach_after 1 (reach_of small)
        (plot_with (codes "A") 1 None (Some (span (pos 9) (pos 9)) ∷ None ∷ [])
        ∷ plot_with (codes "B") 2 None (None ∷ Some (span (negsuc 1) (pos 2)) ∷ []) ∷ [])
        ≡ span (negsuc 1) (pos 3) }
    ensures nothing { reach_after 0 (reach_of None) [] ≡ span (pos 0) (pos 0) }
    ensures limits { limit_levels small 3
        ≡ codes "<path class=\"limit\" d=\"M0 0.000H4\"/>\n<path class=\"limit\" d=\"M0 0.003H4\"/>\n" }
    ensures start { chart_start (span (negsuc 0) (pos 38)) 3
        ≡ codes "<svg class=\"run\" preserveAspectRatio=\"none\" viewBox=\"0 -0.040 4 0.043\"><g transform=\"scale(1 -1)\">\n" }
{}

/// Each part of a chart, and what it has besides, is within its reach.
#[tactic(auto, using(crate::proofs::Reaches::held))]
pub fn charts_hold_their_parts()
    ensures parts { (feature : ℕ) (reach : Span) (parts : List Plot) → AllByRecursion
        (λ p. IsWithin (reach_after feature reach parts) (span_at feature p)) parts }
    ensures others { (feature : ℕ) (reach : Span) (parts : List Plot)
        → IsWithin (reach_after feature reach parts) (Some reach) }
{}

/// What is not good news is not called so, and a deviation on a limit is not out.
#[tactic(auto, unfolding(crate::specs::Pages::lacking_lines, crate::specs::Pages::limits_line))]
pub fn pages_say_what_counts()
    ensures all { counts_start 3 3 ≡ codes "<p class=\"yes\"><b>All records count:</b> " }
    ensures some { counts_start 2 3 ≡ codes "<p class=\"no\"><b>Not all records count:</b> " }
    ensures nothing { counts_start 0 0 ≡ codes "<p class=\"no\"><b>Nothing counts:</b> " }
    ensures complete { lacking_lines 0 2 [] ≡ [] }
    ensures points { (s : Summed) → limits_line 3 (record s {
      counted = 3;
      unfinished = [];
      tallies =
          tally_of small (pos 3 ∷ pos 0 ∷ pos 4 ∷ []) ∷ tally_of None (pos 9 ∷ pos 9 ∷ pos 9 ∷ []) ∷ [];
    })
        (Some []) ≡ within_line 1 3 true 3 }
    ensures few { (s : Summed) → limits_line 3 (record s {
      counted = 2;
      unfinished = [];
      tallies =
          tally_of small (pos 3 ∷ pos 0 ∷ []) ∷ [];
    }) (Some []) ≡ within_line 0 2 false 0 }
    ensures lacking { is_complete 3 3 (record { name = codes "C"; measured = 1 } ∷ []) ≡ false }
    ensures out { out_class (sums_of small (pos 4 ∷ [])) ≡ codes "out" }
    ensures inside { out_class (sums_of small (pos 3 ∷ pos 0 ∷ [])) ≡ [] }
{}
