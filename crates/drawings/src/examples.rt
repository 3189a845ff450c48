// Examples: texts, bars, verdicts and rows that are written out.

ghost use Rattle.std.specs.Prelude.{◌≡◌, ◌++◌, ◌∷◌, [], codes, decimal, pos, negsuc, Some, None, true, false};
ghost use Rattle.drawings.specs.Names.{point_words, written, bar_cell, bar_length, greatest, turn, limits, on_x, open_row, range, row, wanted, worst, between, cell, cells, escaped, markup, audit_start, complete_start, complete_text, errors_text, notes_text, limits_text, within_start, within_text, heading_end, limit_text, row_text, section_text, sections_text};

/// Texts in markup.
pub fn texts_are_escaped()
    ensures entities { escaped (codes "<A&\"B\">") ≡ codes "&lt;A&amp;&quot;B&quot;&gt;" }
    ensures again { escaped (codes "&lt;") ≡ codes "&amp;lt;" }
    ensures cells { cells (codes "<" ∷ [] ∷ []) ≡ codes "<td>&lt;</td><td></td>" }
{}

/// The longest bar fills its half of the cell, and a bar below zero is turned to the left.
pub fn bars_have_sides_and_lengths()
    ensures right { turn (pos 0) ≡ codes "1" }
    ensures left { turn (negsuc 0) ≡ codes "-1" }
    ensures longest { bar_length 7 7 ≡ 50 }
    ensures down { bar_length 20 15 ≡ 37 }
    ensures within { bar_length 7 8 ≡ 50 }
    ensures greatest { greatest (row (pos 3) ∷ row (negsuc 6) ∷ open_row ∷ []) ≡ 7 }
    ensures least { greatest (row (pos 0) ∷ []) ≡ 1 }
    ensures cell { bar_cell 8 (Some (negsuc 3))
        ≡ codes "<td><svg class=\"bar\" viewBox=\"-51 -5 102 10\"><path d=\"M0-5V5\"/>"
        ++ (codes "<g transform=\"scale(-1 1)\"><rect y=\"-3\" height=\"6\" width=\""
        ++ (decimal 25 ++ codes "\"/></g></svg></td>")) }
    ensures none { bar_cell 8 None ≡ codes "<td></td>" }
{}

/// Whether a part is complete: each feature that is missing is named.
pub fn missing_features_are_named()
    ensures all { complete_start 8 8 ≡ codes "<p class=\"yes\"><b>Complete:</b> " }
    ensures some { complete_start 7 8 ≡ codes "<p class=\"no\"><b>Not complete:</b> " }
    ensures names { complete_text 1
        (wanted (codes "A") ∷ wanted (codes "<B") ∷ wanted (codes "C") ∷ [])
        ≡ codes "<p class=\"no\"><b>Not complete:</b> " ++ (decimal 1 ++ (codes " of "
        ++ (decimal 3 ++ (codes " features were measured."
        ++ codes " <b>&lt;B</b> is missing. <b>C</b> is missing.</p>\n")))) }
    ensures heading { heading_end true ≡ codes ": not measured</h2>\n" }
    ensures plain { heading_end false ≡ codes "</h2>\n" }
{}

/// Whether a part is within its limits: neither a part that is not complete, nor one with a point that is not compared.
pub fn good_news_of_limits_is_rare()
    ensures inside { within_start 0 2 true 0 ≡ codes "<p class=\"yes\"><b>Within limits:</b> " }
    ensures open { within_start 0 2 false 0
        ≡ codes "<p class=\"open\"><b>Within limits as far as compared:</b> " }
    ensures none { within_start 0 0 true 0
        ≡ codes "<p class=\"open\"><b>Not compared with limits:</b> " }
    ensures outside { within_start 1 2 true 0 ≡ codes "<p class=\"no\"><b>Out of limits:</b> " }
    ensures counts { within_text limits true (row (pos 20) ∷ row (pos 21) ∷ open_row ∷ [])
        ≡ codes "<p class=\"no\"><b>Out of limits:</b> " ++ (decimal 1 ++ (codes " of "
        ++ (decimal 2 ++ (codes " compared points are out, " ++ (decimal 1
        ++ codes " not compared. No fit and no other tolerance was evaluated.</p>\n"))))) }
    ensures others { within_start 0 2 true 1
        ≡ codes "<p class=\"open\"><b>Within limits as far as compared:</b> " }
    ensures missing { within_text limits false (row (pos 20) ∷ [])
        ≡ codes "<p class=\"open\"><b>Within limits as far as compared:</b> " ++ (decimal 0
        ++ (codes " of " ++ (decimal 1 ++ (codes " compared points are out, " ++ (decimal 0
        ++ codes " not compared. No fit and no other tolerance was evaluated.</p>\n"))))) }
    ensures unnamed { limits_text None true (row (pos 0) ∷ [])
        ≡ codes "<p class=\"open\"><b>Not compared with limits:</b> none were named.</p>\n" }
{}

/// What an audit found, the errors of the server, and what the record notes.
pub fn audits_are_said()
    ensures passed { audit_start 1 true
        ≡ codes "<p class=\"yes\"><b>Audit passed:</b> each measured feature has its run of "
        ++ codes "reported contacts. <code>" }
    ensures failed { audit_start 1 false
        ≡ codes "<p class=\"no\"><b>Audit failed:</b> a measured feature has no run of "
        ++ codes "reported contacts. <code>" }
    ensures nothing { audit_start 0 true
        ≡ codes "<p class=\"open\"><b>Nothing to audit:</b> no feature was measured. <code>" }
    ensures none { errors_text [] ≡ [] }
    ensures unnoted { notes_text [] ≡ [] }
    ensures noted { notes_text (codes "&\n") ≡ codes "<pre>&amp;\n</pre>\n" }
    ensures errors { errors_text (codes "<\n")
        ≡ codes "<p class=\"open\"><b>The server reported errors:</b></p>\n<pre>&lt;\n</pre>\n" }
{}

/// A row has its number, its nominal and its measured point, its deviation, its bar, and whether it is in or out.
pub fn rows_are_written()
    ensures out { row_text 42 (Some limits) (row (pos 21))
        ≡ between (codes "<tr class=\"") (codes "out") (codes "\">") ++ ((cell (decimal 1)
        ++ (on_x (pos 1000) ++ (on_x (pos 1021) ++ (on_x (pos 21)
        ++ cells (written (pos 21) ∷ []))))) ++ (bar_cell 42 (Some (pos 21))
        ++ (cells (codes "out" ∷ []) ++ markup (codes "</tr>\n")))) }
    ensures unlimited { row_text 42 None (row (negsuc 0))
        ≡ between (codes "<tr class=\"") [] (codes "\">") ++ ((cell (decimal 1)
        ++ (on_x (pos 1000) ++ (on_x (pos 999) ++ (on_x (negsuc 0)
        ++ cells (written (negsuc 0) ∷ []))))) ++ (bar_cell 42 (Some (negsuc 0))
        ++ ([] ++ markup (codes "</tr>\n")))) }
    ensures open { row_text 42 (Some limits) open_row
        ≡ between (codes "<tr class=\"") [] (codes "\">") ++ ((cell (decimal 1)
        ++ (on_x (pos 1000) ++ (cells ([] ∷ [] ∷ [] ∷ []) ++ (cells ([] ∷ [] ∷ [] ∷ [])
        ++ cells ([] ∷ []))))) ++ (markup (codes "<td></td>") ++ (cells ([] ∷ [])
        ++ markup (codes "</tr>\n")))) }
{}

/// A feature has its range and its worst point.
pub fn ranges_are_written()
    ensures worst { limit_text (Some limits) (codes "A") (row (pos 20) ∷ row (negsuc 10) ∷ [])
        ≡ markup (codes "<p>Limits ") ++ (written (negsuc 9) ++ (markup (codes " to ")
        ++ (written (pos 20) ++ between (codes ". <b>") (point_words range (worst (negsuc 10)))
        (codes "</b></p>\n")))) }
    ensures open { limit_text (Some limits) (codes "A") (open_row ∷ [])
        ≡ markup (codes "<p>Limits ") ++ (written (negsuc 9) ++ (markup (codes " to ")
        ++ (written (pos 20) ++ between (codes ". <b>") [] (codes "</b></p>\n")))) }
    ensures other { limit_text (Some limits) (codes "B") []
        ≡ markup (codes "<p>No limit is for it.</p>\n") }
    ensures unnamed { limit_text None (codes "A") [] ≡ [] }
{}

/// Each feature of a program has as many rows as it has touches, and those after the measured ones are missing.
pub fn features_have_their_rows()
    ensures { sections_text 9 None 1 (wanted (codes "A") ∷ wanted (codes "B") ∷ [])
        (row (pos 9) ∷ open_row ∷ [])
        ≡ section_text 9 None false (codes "A") (row (pos 9) ∷ [])
        ++ (section_text 9 None true (codes "B") (open_row ∷ []) ++ []) }
{}
