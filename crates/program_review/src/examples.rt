// Examples: where words are, how lines are shown, and what is at fault.

ghost use Rattle.std.specs.Prelude.{◌≡◌, [], ◌∷◌, ◌++◌, codes, decimal, replicate, Some, None, true, false};
ghost use Rattle.program_review.specs.Lines.{bytes_from, line_of, shown_from};
ghost use Rattle.program_review.specs.Windows.{shown_start};
ghost use Rattle.program_review.specs.Words.{first_place, word_in, caused};
ghost use Rattle.program_review.specs.Spots.{word_spot, param_spot};
ghost use Rattle.program_review.specs.Blocks.{open_block};
ghost use Rattle.program_review.specs.BadBytes.{has_bad_byte, near, line_bytes};
ghost use Rattle.program_review.specs.Causes as why;
ghost use Rattle.program_review.specs.Places.{place_text};
ghost use Rattle.program_review.specs.BadNames.{name_cause, name_fault};
ghost use Rattle.program_review.specs.Numerals.{digits_before, numeral_cause, leftmost, bad_numeral};
ghost use Rattle.program_review.specs.Arguments.{count_cause, last_text, argument_cause};
ghost use Rattle.program_review.specs.declared.causes.Cause.TheVariants as cause;
ghost use Rattle.program_review.specs.declared.numerals.Measure.TheVariants.{Length, Component};
ghost use Rattle.fixed_um.specs.declared.numerals.NumeralFault.TheVariants.{TooManyDigits, TooLarge};
ghost use Rattle.dmis_program.specs.declared.faults.Refusal.TheVariants.{NotDmis, NotMillimetres, NoProgMode, TooFewPoints, Unsupported};
ghost use Rattle.program_review.specs.Examples.{alone, at, at_fault, beginning, said, going, labelled, ending, named, one_of_two, moving, gap, measuring, taking, takes, touching, unlabelled};
ghost use Rattle.program_review.specs.Taken.{around_after, nothing_around, taken_by};
ghost use Rattle.program_review.specs.declared.taking.Choice.TheVariants.{NoClearing, Compensated, SkipManual, StoredFrames, EvenTouches, Value};
ghost use Rattle.program_review.specs.declared.taking.Taken.TheVariants as taken;

/// A text is shown from the line of a number on, from its last line on if it has fewer.
pub fn lines_are_counted_from_one()
    ensures first { bytes_from 1 (codes "a\nb\nc") ≡ codes "a\nb\nc" }
    ensures second { bytes_from 2 (codes "a\nb\nc") ≡ codes "b\nc" }
    ensures past_the_end { bytes_from 9 (codes "a\nb\nc") ≡ codes "c" }
    ensures after_the_last_end { bytes_from 9 (codes "a\nb\n") ≡ codes "b\n" }
    ensures without_its_end { line_of 2 (codes "a\nb\r\nc") ≡ codes "b" }
{}

/// At most 200 bytes of a line are shown, those around its word, and each cut is marked.
pub fn long_lines_are_shown_around_their_word()
    ensures short { shown_start 200 190 30 ≡ 0 }
    ensures in_front { shown_start 500 150 50 ≡ 0 }
    ensures past_the_front { shown_start 500 150 51 ≡ 76 }
    ensures nothing_past_the_front { shown_start 500 200 0 ≡ 100 }
    ensures at_the_end { shown_start 500 490 10 ≡ 300 }
    ensures wide { shown_start 1000 400 300 ≡ 400 }
    ensures visible { shown_from 0 (9 ∷ 65 ∷ 7 ∷ []) ≡ 9 ∷ codes "A\\x07" }
    ensures cut_behind { shown_from 0 (replicate 201 65) ≡ replicate 200 65 ++ codes " .." }
    ensures cut_before { shown_from 1 (replicate 201 65) ≡ codes ".. " ++ replicate 200 65 }
{}

/// A word is the first that is there from a place on, in any case, as it is written.
pub fn words_are_the_first_from_a_place_on()
    ensures first { first_place (codes "a,b,A,B") 0 (codes "A") ≡ Some 0 }
    ensures later { first_place (codes "a,b,A,B") 1 (codes "A") ≡ Some 4 }
    ensures last { first_place (codes "a,b") 0 (codes "B") ≡ Some 2 }
    ensures none { first_place (codes "a,b") 0 (codes "C") ≡ None }
    ensures longer { first_place (codes "a") 0 (codes "AB") ≡ None }
    ensures nothing { first_place (codes "a") 1 [] ≡ Some 1 }
    ensures written { word_in (codes "1,goto") 0 (codes "GOTO")
        ≡ record { bytes = codes "goto"; at = Some 2 } }
    ensures not_there { word_in (codes "go$to") 0 (codes "GOTO")
        ≡ record { bytes = codes "GOTO"; at = None } }
{}

/// A cause is that of a word at its place, or of the line.
pub fn causes_have_their_word()
    ensures found { caused cause.NotCart (record { bytes = codes "ab"; at = Some 3 })
        ≡ at_fault cause.NotCart 3 2 }
    ensures not_found { caused cause.NotCart (record { bytes = codes "ab"; at = None })
        ≡ at_fault cause.NotCart 0 0 }
{}

/// Each word of a statement is searched for after the one before it.
pub fn words_follow_one_another()
    ensures word { word_spot (codes "goto/1,1,1") going
        ≡ record { bytes = codes "goto"; at = Some 0 } }
    ensures third { param_spot (codes "goto/1,1,1") going 2 (codes "1")
        ≡ record { bytes = codes "1"; at = Some 9 } }
    ensures label { word_spot (codes "FEAT=FEAT/1") labelled
        ≡ record { bytes = codes "FEAT"; at = Some 5 } }
{}

/// A block is open from its `MEAS` to its `ENDMES`.
pub fn blocks_are_open_up_to_their_end()
    ensures open { open_block (beginning 1 ∷ touching 2 ∷ beginning 3 ∷ []) 3 ≡ Some one_of_two }
    ensures above { open_block (beginning 1 ∷ (touching 2 ∷ [])) 2
        ≡ Some (record { line = 1; wanted = codes "2"; touches = 0 }) }
    ensures again { open_block (beginning 1 ∷ (touching 2 ∷ (beginning 3 ∷ []))) 4
        ≡ Some (record { line = 3; wanted = codes "2"; touches = 0 }) }
    ensures ended { open_block (beginning 1 ∷ (ending ∷ [])) 3 ≡ None }
    ensures none { open_block (ending ∷ (touching 2 ∷ [])) 3 ≡ None }
{}

/// Each refusal has its cause.
#[tactic(auto, unfolding(crate::specs::Causes::within_ends, dmis_program::specs::Keywords::keyword_of))]
pub fn refusals_have_their_causes()
    ensures ended { why.ended ending ≡ at_fault (cause.Ended 1) 0 0 }
    ensures coordinates { why.unsupported (at (codes "GOTO/1") going)
        ≡ Some (at_fault cause.OtherCoordinates 5 1) }
    ensures recall { why.unsupported (said (codes "RECALL/1") (codes "RECALL") (codes "1" ∷ []))
        ≡ Some (at_fault cause.OtherRecall 7 1) }
    ensures start { why.unsupported (said (codes "DMISMN") (codes "DMISMN") [])
        ≡ Some (at_fault cause.SecondStart 0 6) }
    ensures other { why.unsupported (said (codes "SCAN/1") (codes "SCAN") (codes "1" ∷ []))
        ≡ Some (at_fault cause.NotCarriedOut 0 4) }
    ensures inside { why.inside (at (codes "ENDMES") ending) one_of_two
        ≡ Some (at_fault (cause.InsideBlock 1) 0 6) }
    ensures few { why.few_touches (at (codes "ENDMES") ending) one_of_two
        ≡ Some (at_fault (cause.FewTouches 1 1) 0 6) }
    ensures first { why.first_at_fault (at (codes "GOTO/1") going) cause.OtherUnit
        ≡ Some (at_fault cause.OtherUnit 5 1) }
    ensures frame { why.unknown_frame (said (codes "RECALL/D(L)") (codes "RECALL")
        (codes "D(L)" ∷ [])) ≡ Some (at_fault cause.NoFrame 9 1) }
{}

/// A name has 1 to 64 bytes, each of which can be in one.
pub fn texts_that_are_not_names()
    ensures name { name_fault (codes "A") (record { bytes = codes "a"; at = Some 2 }) ≡ None }
    ensures empty { name_fault [] (record { bytes = []; at = Some 2 })
        ≡ Some (at_fault cause.NoName 2 0) }
    ensures long { name_cause (replicate 65 65) ≡ cause.LongName 65 }
    ensures longest { name_fault (replicate 64 65) (record { bytes = []; at = None }) ≡ None }
    ensures space { name_cause (codes "A B") ≡ cause.NameByte 32 }
    ensures leftmost { name_cause (codes "A)(") ≡ cause.NameByte 41 }
{}

/// Of the numerals of a statement the leftmost that does not read is at fault. The first three are lengths, the others components.
pub fn numerals_that_do_not_read()
    ensures length { leftmost (codes "1" ∷ codes "1001" ∷ codes "x" ∷ codes "y" ∷ [])
        ≡ Some (2, Length) }
    ensures component { leftmost (codes "1" ∷ codes "2" ∷ codes "3" ∷ codes "1" ∷ codes "1001" ∷ [])
        ≡ Some (4, Component) }
    ensures none { leftmost (codes "1" ∷ codes "2" ∷ codes "3" ∷ []) ≡ None }
    ensures after_cart { bad_numeral (at (codes "GOTO/CART,1,x,y") moving)
        ≡ Some (at_fault cause.NotNumeral 12 1) }
    ensures empty { bad_numeral (at (codes "GOTO/1,,3") gap)
        ≡ Some (at_fault (cause.NoNumeral 2) 6 0) }
    ensures digits { digits_before (codes "-12.5E34") ≡ 3 }
    ensures many { numeral_cause TooManyDigits Length (codes "1.5e7") ≡ cause.ManyDigits 2 }
    ensures limit { numeral_cause TooLarge Length (codes "1e9") ≡ cause.BeyondLimit Length }
{}

/// What does not fit in the parameters of a statement.
#[tactic(auto, unfolding(crate::specs::Causes::within_ends, dmis_program::specs::Keywords::keyword_of))]
pub fn parameters_that_do_not_fit()
    ensures counted { argument_cause (at (codes "GOTO/1,1,1") going)
        ≡ Some (at_fault (cause.Count 0 3) 0 4) }
    ensures after_cart { count_cause (at (codes "GOTO/CART,1,x,y") moving)
        ≡ Some (at_fault (cause.Count 1 3) 0 4) }
    ensures feature { argument_cause (at (codes "MEAS/POINT,F(A B),x") measuring)
        ≡ Some (at_fault (cause.NameByte 32) 13 3) }
    ensures form { argument_cause (said (codes "MEAS/P,A,x") (codes "MEAS")
        (codes "P" ∷ codes "A" ∷ codes "x" ∷ [])) ≡ Some (at_fault cause.NoParentheses 7 1) }
    ensures kind { argument_cause (said (codes "MEAS/1,A,x") (codes "MEAS")
        (codes "1" ∷ codes "A" ∷ codes "x" ∷ [])) ≡ Some (at_fault cause.NoKind 5 1) }
    ensures touches { argument_cause (said (codes "MEAS/P,F(A),x") (codes "MEAS")
        (codes "P" ∷ codes "F(A)" ∷ codes "x" ∷ [])) ≡ Some (at_fault cause.NoCount 12 1) }
    ensures cart { argument_cause (said (codes "PTMEAS/1") (codes "PTMEAS") (codes "1" ∷ []))
        ≡ Some (at_fault cause.NotCart 7 1) }
    ensures tool { argument_cause (said (codes "SNSLCT/A") (codes "SNSLCT") (codes "A" ∷ []))
        ≡ Some (at_fault cause.NoParentheses 7 1) }
    ensures frame { argument_cause (said (codes "RECALL/D(A") (codes "RECALL") (codes "D(A" ∷ []))
        ≡ Some (at_fault cause.NoParentheses 7 3) }
    ensures open { argument_cause (said (codes "TEXT/B,'A") (codes "TEXT")
        (codes "B" ∷ codes "'A" ∷ [])) ≡ Some (at_fault cause.OpenText 7 2) }
    ensures last { last_text (codes "'a''b") ≡ codes "'b" }
    ensures label { argument_cause (at (codes "A=GOTO/1") (record {
      line = 1;
      label = Some (codes "A");
      word = codes "GOTO";
      params = codes "1" ∷ [];
    })) ≡ Some (at_fault cause.Label 0 1) }
    ensures any { argument_cause (at (codes "FEAT=FEAT/1") labelled) ≡ None }
{}

/// What decides or assigns, and places in other coordinates and units, `dme lower` writes out.
#[tactic(auto, unfolding(dmis_program::specs::Keywords::keyword_of, program_flow::specs::Blocks::part_of))]
pub fn refused_statements_that_are_written_out()
    ensures branch { takes Unsupported (codes "IF") (codes "X") ≡ taken.Written }
    ensures call { takes Unsupported (codes "CALL") (codes "M(A)") ≡ taken.Written }
    ensures declaration { taking Unsupported (unlabelled (codes "DECL")
        (codes "LOCAL" ∷ codes "REAL" ∷ codes "X" ∷ [])) ≡ taken.Written }
    ensures value { taking Unsupported (named (codes "X") (codes "ASSIGN")) ≡ taken.Written }
    ensures polar { takes Unsupported (codes "GOTO") (codes "POL") ≡ taken.Written }
    ensures distance { takes Unsupported (codes "GOTO") (codes "INCR") ≡ taken.Written }
    ensures touch { takes Unsupported (codes "PTMEAS") (codes "POL") ≡ taken.Written }
    ensures inches { takes NotMillimetres (codes "UNITS") (codes "INCH") ≡ taken.Written }
    ensures computed { taken_by nothing_around true NotMillimetres moving ≡ taken.Written }
    ensures not_computed { taking NotMillimetres moving ≡ taken.No }
    ensures other_unit { takes NotMillimetres (codes "UNITS") (codes "CM") ≡ taken.No }
    ensures other_call { takes Unsupported (codes "CALL") (codes "EXTERN") ≡ taken.No }
    ensures other_touch { takes Unsupported (codes "PTMEAS") (codes "INCR") ≡ taken.No }
    ensures misplaced { takes NotDmis (codes "IF") (codes "X") ≡ taken.No }
    ensures unnamed { taking Unsupported (unlabelled (codes "ASSIGN") (codes "X" ∷ codes "1" ∷ []))
        ≡ taken.No }
    ensures other { takes Unsupported (codes "SCAN") (codes "X") ≡ taken.No }
{}

/// Others it leaves out, or takes with an option.
#[tactic(auto, unfolding(dmis_program::specs::Keywords::keyword_of, dmis_program::specs::Parameters::name_within, program_flow::specs::Blocks::part_of))]
pub fn refused_statements_that_options_take()
    ensures printing { takes Unsupported (codes "VFORM") (codes "X") ≡ taken.LeftOut }
    ensures off { takes Unsupported (codes "TECOMP") (codes "OFF") ≡ taken.LeftOut }
    ensures on { takes Unsupported (codes "TECOMP") (codes "ON") ≡ taken.With Compensated }
    ensures clearing { takes Unsupported (codes "CZONE") (codes "X") ≡ taken.With NoClearing }
    ensures datum { takes Unsupported (codes "DATDEF") (codes "X") ≡ taken.With StoredFrames }
    ensures alignment { taking Unsupported (named (codes "D(A)") (codes "DATSET"))
        ≡ taken.With StoredFrames }
    ensures recall { takes Unsupported (codes "RECALL") (codes "DA(A)") ≡ taken.With StoredFrames }
    ensures question { taking Unsupported (named (codes "X") (codes "PROMPT"))
        ≡ taken.With Value }
    ensures nameless { takes Unsupported (codes "PROMPT") (codes "'X'") ≡ taken.No }
    ensures mode { takes NoProgMode (codes "MODE") (codes "MAN") ≡ taken.With SkipManual }
    ensures other_mode { takes NoProgMode (codes "MODE") (codes "AUTO") ≡ taken.No }
    ensures manual { taken_by (around_after nothing_around (alone (codes "MODE") (codes "MAN")))
        false Unsupported (unlabelled (codes "GOHOME") []) ≡ taken.With SkipManual }
    ensures circle { taken_by (around_after nothing_around (alone (codes "MEAS") (codes "CIRCLE")))
        false TooFewPoints ending ≡ taken.With EvenTouches }
    ensures cylinder { taken_by (around_after nothing_around (alone (codes "MEAS") (codes "CYLNDR")))
        false TooFewPoints ending ≡ taken.With EvenTouches }
    ensures other_block { taken_by (around_after nothing_around (beginning 1))
        false TooFewPoints ending ≡ taken.No }
    ensures touched { around_after (record { manual = false; bore = true }) (touching 1)
        ≡ nothing_around }
    ensures ended { around_after (record { manual = false; bore = true }) ending
        ≡ nothing_around }
{}

/// A byte is not allowed if the text up to it is not read.
pub fn bytes_that_are_not_allowed()
    ensures control { has_bad_byte (65 ∷ 7 ∷ []) ≡ true }
    ensures tab { has_bad_byte (65 ∷ 9 ∷ []) ≡ false }
    ensures near_the_last { near (codes "A\nB\nC") ≡ codes "C" }
    ensures line { line_bytes (codes "AB\r\nC") ≡ codes "AB" }
{}

/// A place is the file's name with the number, the line, and the sentence.
pub fn places_have_two_lines()
    ensures whole { place_text (codes "a.dmis") 3 (codes "GOTO") (codes "No.")
        ≡ codes "a.dmis:" ++ (decimal 3 ++ codes ": GOTO\nNo.\n") }
{}
