// What follows from the definitions alone. Each function has laws for its contract and does nothing.
ghost use Rattle.std.specs.Prelude.{◌≡◌, ◌<◌, ◌^◌, ◌++◌, ◌∷◌, ◌*◌, ◌+◌, ◌==◌, [], ℕ, ℤ, pos, neg_ℤ, int_lt, unsigned_abs, Bool, Err, List, filter, length, map, codes, decimal, drop, false, true, take, Some, None, Ok, negsuc};
ghost use Rattle.std.specs.List.{AllByRecursion};
ghost use Rattle.std.specs.Option.{option_map};
ghost use Rattle.dmis_program.specs.Keywords.{keyword_of};
ghost use Rattle.dmis_program.specs.LookBack.{frame_said, nearest, saying};
ghost use Rattle.dmis_program.specs.Meaning.{Meaning, program_of, steps_from};
ghost use Rattle.dmis_program.specs.Positions.{length_of};
ghost use Rattle.dmis_program.specs.declared.faults.Refusal.TheVariants.{BadByte, Unsupported};
ghost use Rattle.dmis_program.specs.declared.keywords.Keyword.TheVariants.{Meas, Ptmeas};
ghost use Rattle.dmis_program.specs.declared.sayings.StatementMeaning.TheVariants.{Passes, Recalls};
ghost use Rattle.dmis_text.specs.Reading.{text_reading};
ghost use Rattle.dmis_text.specs.Statements.{has_open_text};
ghost use Rattle.dmis_text.specs.declared.elements.Statement.{Statement};
ghost use Rattle.fixed_um.specs.Limits.{component_limit};
ghost use Rattle.fixed_um.specs.Numerals.{IsRounded, signed};
ghost use Rattle.fixed_um.specs.declared.lengths.Point.{Point};
ghost use Rattle.program_lowering.specs.Texts.{is_operator_text};
ghost use Rattle.dmis_program.specs.Parameters.{is_other_coordinates};
ghost use Rattle.program_flow.specs.Numbers.{whole_number};
ghost use Rattle.program_lowering.specs.Cartesian.{angle_in, cartesian, made_cartesian, no_reference, plane_named, unit_named};
ghost use Rattle.program_lowering.specs.declared.cartesian.AngleUnit.TheVariants.{Degrees, Radians, Sexagesimal};
ghost use Rattle.program_lowering.specs.declared.cartesian.Plane.TheVariants.{Xy, Yz, Zx};
ghost use Rattle.program_lowering.specs.declared.cartesian.Reference.{Reference};
ghost use Rattle.program_lowering.specs.Acts.{acts_of};
ghost use Rattle.program_lowering.specs.Examples.{all_choices, assign, bare, declare_x, first_by_hand, manual_front, measured, mode_man, mode_prog, plain_choices, start, to_operator, a_touch, make_a, make_a_on_7, make_b, recall_a, naming_a, naming_none, of_setup, saving, two_frames, labelled, x_is_five, a_move, around, below, by_ten, placed, bore_a, block_a, end_of_block, given_below, minus, moves_on, no_blocks, no_bores, on_line, three_of_a, told_of, two_rounds, upright, from_five, answers_n, ask_n, only_m, deep, four_at, no_cylinders, six_of_a, three_at, to_depth, to_place, told_of_circle, two_ways, feature_a, feature_by_x, feature_named, without_values, declare_t, t_is_bore, declare_ij, eleven_one, feature_ij, of_ij, one_eleven, p111, point_of, to_ij, with_ij, with_t};
ghost use Rattle.program_lowering.specs.EvenTouches.{EachBelow, all_touched, bore_named, is_touch, last_of, to_centre, touches_before, waiting, end_of, level_at};
ghost use Rattle.program_lowering.specs.declared.even.Bore.{Bore};
ghost use Rattle.program_lowering.specs.declared.even.Wanted.{Wanted};
ghost use Rattle.program_lowering.specs.Flats.{flat, flat_text, with_pass};
ghost use Rattle.program_lowering.specs.Heads.{IsComment, Names, head_lines, value_line};
ghost use Rattle.program_lowering.specs.Inches.{all_stated, in_inches, in_millimetres, inch_length, stated};
ghost use Rattle.program_lowering.specs.Lowering.{are_apart, counted_at, ended_lines, flat_program, is_on, kept, kept_passes, left_out_at, lowered_meaning, passed_over, passes_over, prepared, valued_statements};
ghost use Rattle.program_lowering.specs.Manual.{in_manual, is_skipped};
ghost use Rattle.program_lowering.specs.OperatorTexts.{TextsFit, flat_meant, text_refusal};
ghost use Rattle.program_lowering.specs.Prompts.{Answer, answer_of, answered, asked};
ghost use Rattle.program_lowering.specs.StoredFrames.{by_frame, frame_note, frame_notes, is_used, stored_frame};
ghost use Rattle.program_lowering.specs.Reasons.{detail, start_text};
ghost use Rattle.program_flow.specs.Flow.{carried};
ghost use Rattle.program_flow.specs.LookBack.{value_said};
ghost use Rattle.program_lowering.specs.Labels.{collides, composed};
ghost use Rattle.program_lowering.specs.Valued.{held, new_params, valued};
ghost use Rattle.program_lowering.specs.Words.{left_out};
ghost use Rattle.program_lowering.specs.declared.words.Choices.{Choices};
ghost use Rattle.fixed_um.specs.Numerals.{Reads};
ghost use Rattle.program_lowering.specs.declared.words.Reason.TheVariants as reason;

/// A flat program is accepted as it is written, and has the features and steps of the program that it was written of, whatever comments
/// are before it.
pub fn flat_programs_read_back()
    ensures { (frames : List (List ℕ × Point)) (choices : Choices) (answers : List Answer)
        (text : List ℕ) (heads : List (List ℕ)) (m : Meaning) → length text < 2 ^ 64
        → AllByRecursion IsComment heads → lowered_meaning frames choices answers text ≡ Ok m
        → program_of frames (ended_lines heads ++ flat_program choices answers text) ≡ Ok m }
{}

/// A flat program shows the texts for the operator of its source, unchanged and in their places between the steps.
pub fn texts_stay_in_their_places()
    ensures { (frames : List (List ℕ × Point)) (choices : Choices) (answers : List Answer)
        (text : List ℕ) (heads : List (List ℕ)) (m : Meaning) → length text < 2 ^ 64
        → AllByRecursion IsComment heads → lowered_meaning frames choices answers text ≡ Ok m
        → acts_of frames
        (text_reading (ended_lines heads ++ flat_program choices answers text)).statements
        ≡ acts_of frames (all_stated [] (kept choices (prepared choices answers text))) }
{}

/// An inch is exactly 25.4 millimetres: a length in inches, read to a millionth, is written as the whole micrometre nearest to it.
pub fn inches_are_exact()
    ensures nearest { (z : ℤ) → IsRounded (signed (int_lt z (pos 0)) (254 * unsigned_abs z)) 10000
        (inch_length z) }
    ensures written { (text : List ℕ) (z : ℤ) → Reads 6 component_limit text (Ok z)
        → length_of (in_millimetres text) ≡ Ok (inch_length z) }
    ensures one_inch { inch_length (pos 1000000) ≡ pos 25400 }
    ensures ten_thousandth { inch_length (neg_ℤ (pos 100)) ≡ neg_ℤ (pos 3) }
{}

/// Examples: a unit is the inch from its `UNITS` on, and is written as the millimetre.
pub fn examples_of_units()
    ensures inch { (stated false (bare (codes "UNITS") (codes "INCH" ∷ (codes "ANGDEC" ∷ [])))).params
        ≡ codes "MM" ∷ (codes "ANGDEC" ∷ []) }
    ensures other { (stated false (bare (codes "UNITS") (codes "FEET" ∷ []))).params
        ≡ codes "FEET" ∷ [] }
    ensures on { in_inches (bare (codes "ENDMES") [] ∷ (bare (codes "UNITS") (codes "INCH" ∷ []) ∷ []))
        ≡ true }
    ensures off { in_inches (bare (codes "UNITS") (codes "MM" ∷ [])
        ∷ (bare (codes "UNITS") (codes "INCH" ∷ []) ∷ [])) ≡ false }
    ensures polar { (stated true (bare (codes "GOTO") (codes "POL" ∷ (codes "1" ∷ [])))).params
        ≡ codes "POL" ∷ (codes "1" ∷ []) }
{}

/// Examples: expressions and names with values; what has none stays, or leaves its statement without parameters.
#[tactic(auto, unfolding(program_flow::specs::Values::value_within, program_flow::specs::Values::numeral_value, program_flow::specs::Parts::parts_of, program_flow::specs::Numbers::reduced, program_flow::specs::Numbers::gcd_within, program_flow::specs::Numbers::multiplied, program_flow::specs::Texts::expanded_within, program_flow::specs::Blocks::part_of, dmis_program::specs::Keywords::keyword_of))]
pub fn examples_of_values()
    ensures moved { new_params x_is_five
        (bare (codes "GOTO") (codes "X+10" ∷ (codes "1E1" ∷ (codes "Y" ∷ []))))
        ≡ Some (Ok (decimal 15 ∷ (codes "1E1" ∷ (codes "Y" ∷ [])))) }
    ensures undeclared { new_params [] (bare (codes "GOTO") (codes "1+1" ∷ [])) ≡ None }
    ensures unknown { (valued x_is_five (bare (codes "SNSLCT") (codes "S(T@Y)" ∷ []))).params
        ≡ [] }
    ensures feature { new_params x_is_five (bare (codes "FEAT") (codes "X+1" ∷ [])) ≡ None }
    ensures labelled { new_params x_is_five (labelled (codes "A") (codes "GOTO")) ≡ None }
    ensures named { valued x_is_five feature_by_x ≡ feature_named
        (codes "F(B" ++ (decimal 5 ++ codes ")")) (codes "CIRCLE" ∷ (decimal 6 ∷ [])) }
    ensures faulty_feature { map (λ p. valued x_is_five (feature_a (p ∷ []))) (codes "@Y"
        ∷ (codes "A B" ∷ [])) ≡ feature_a [] ∷ (feature_a [] ∷ []) }
    ensures no_values { map (valued x_is_five) without_values ≡ without_values }
    ensures no_variables { valued [] feature_by_x ≡ feature_by_x }
    ensures assigned { new_params (declare_x ∷ []) (assign (codes "X") (codes "2+3"))
        ≡ Some (Ok (codes "X" ∷ (decimal 5 ∷ []))) }
    ensures assigned_letters { new_params (declare_t ∷ [])
        (assign (codes "T") (codes "'O''K'"))
        ≡ Some (Ok (codes "T" ∷ (codes "'O''K'" ∷ []))) }
    ensures named_letters { new_params t_is_bore
        (bare (codes "MEAS") (codes "F(@T)" ∷ (codes "T" ∷ [])))
        ≡ Some (Ok (codes "F(BORE)" ∷ (codes "T" ∷ []))) }
    ensures faulty { (valued x_is_five (assign (codes "Y") (codes "5"))).params ≡ [] }
    ensures not_carried { carried x_is_five (assign (codes "Y") (codes "5")) ≡ x_is_five }
    ensures carried { carried (declare_x ∷ []) (assign (codes "X") (codes "5")) ≡ x_is_five }
    ensures unlabelled { (valued x_is_five
        (bare (codes "ASSIGN") (codes "X" ∷ (codes "5" ∷ [])))).params ≡ [] }
    ensures blank { held (codes "SNSLCT") (codes "S(A B)" ∷ []) ≡ [] }
    ensures plain { held (codes "SNSLCT") (codes "S(A)" ∷ []) ≡ codes "S(A)" ∷ [] }
    ensures declares { left_out plain_choices declare_x ≡ Some reason.Declared }
    ensures declares_letters { left_out plain_choices declare_t ≡ Some reason.Declared }
    ensures texts { left_out plain_choices
        (bare (codes "DECL") (codes "GLOBAL" ∷ (codes "CHAR" ∷ []))) ≡ None }
    ensures assigns { left_out plain_choices (bare (codes "ASSIGN") (codes "X" ∷ (codes "5" ∷ [])))
        ≡ Some reason.Assigned }
    ensures refused { left_out plain_choices (bare (codes "ASSIGN") []) ≡ None }
    ensures noted { detail reason.Assigned (codes "X" ∷ (codes "5" ∷ [])) ≡ codes "X is 5" }
    ensures leads { left_out plain_choices (bare (codes "IF") (codes "9" ∷ []))
        ≡ Some reason.Leads }
    ensures not_followed { left_out plain_choices (bare (codes "IF") []) ≡ None }
    ensures leads_there { detail reason.Leads (codes "9" ∷ []) ≡ codes "9" }
{}

/// Labels with values that compose one name, and of which none is refused, compose it of the same parts, wherever they are in a program.
pub fn one_name_is_one_feature()
    ensures { (above more : List Statement) (s t : Statement) (name parts others : List ℕ)
        → composed (value_said above) s ≡ Some (name, parts) → collides above s ≡ false
        → composed (value_said (more ++ (s ∷ above))) t ≡ Some (name, others)
        → collides (more ++ (s ∷ above)) t ≡ false → others ≡ parts }
{}

/// Examples: a label with the name of another feature leaves its statement without parameters; the same parts once more, a label that is written
/// out, and other words do not.
#[tactic(auto, unfolding(program_flow::specs::Values::value_within, program_flow::specs::Values::numeral_value, program_flow::specs::Parts::parts_of, program_flow::specs::Numbers::reduced, program_flow::specs::Numbers::gcd_within, program_flow::specs::Numbers::multiplied, program_flow::specs::Texts::expanded_within))]
pub fn examples_of_labels()
    ensures same { map (λ above. valued above of_ij) (one_eleven ∷ ((of_ij ∷ one_eleven)
        ∷ (eleven_one (p111 ∷ []) ∷ (with_ij (codes "1") (codes "11") (eleven_one (of_ij ∷ []))
        ∷ [])))) ≡ p111 ∷ (p111 ∷ (p111 ∷ (p111 ∷ []))) }
    ensures other { map (valued (eleven_one (of_ij ∷ []))) (of_ij ∷ (feature_ij ∷ (p111 ∷ (to_ij ∷ []))))
        ≡ bare (codes "MEAS") [] ∷ (feature_named (codes "F(P111)") [] ∷ (p111
        ∷ (bare (codes "GOTO") (codes "111" ∷ (codes "F(P111)" ∷ [])) ∷ []))) }
    ensures of_feature { valued (eleven_one (feature_ij ∷ [])) of_ij ≡ bare (codes "MEAS") [] }
    ensures same_value { valued (with_ij (codes "5") (codes "5")
        (point_of (codes "F(P@I)") ∷ (declare_ij ∷ []))) (point_of (codes "F(P@J)"))
        ≡ point_of (codes "F(P5)") }
    ensures other_name { collides (with_t (codes "'A-B'") (point_of (codes "F(@T)")
        ∷ with_t (codes "'A'") (declare_t ∷ []))) (point_of (codes "F(@T)")) ≡ false }
    ensures piece { collides (with_t (codes "'A'") (point_of (codes "F(@T)")
        ∷ with_t (codes "'A-B'") (declare_t ∷ []))) (point_of (codes "F(@T-B)")) ≡ true }
    ensures first_piece { collides (point_of (codes "F@T@T")
        ∷ with_t (codes "'(A'") (declare_t ∷ [])) (point_of (codes "F(A@T")) ≡ true }
{}

/// A statement without polar or incremental coordinates stays as it is.
pub fn cartesian_statements_stay()
    ensures { (ref : Reference) (s : Statement) → is_other_coordinates s.params ≡ false
        → cartesian ref s ≡ s }
{}

/// Examples: polar coordinates, by plane and unit.
#[tactic(auto, unfolding(program_flow::specs::Values::value_within, program_flow::specs::Values::numeral_value, program_flow::specs::Parts::parts_of, program_flow::specs::Numbers::reduced, program_flow::specs::Numbers::gcd_within, program_flow::specs::Numbers::nearest_millionth, program_flow::specs::Angles::cosine, program_flow::specs::Angles::sine, program_flow::specs::Angles::in_radians, program_flow::specs::Angles::series, fixed_um::specs::Written::written_component))]
pub fn examples_of_polar_coordinates()
    ensures zero { made_cartesian no_reference (around (codes "10") (codes "0") (codes "5"))
        ≡ placed (decimal 10) (decimal 0) (decimal 5) }
    ensures thirty { made_cartesian no_reference (around (codes "10") (codes "30") (codes "-5"))
        ≡ placed (decimal 8 ++ codes ".660254") (decimal 5) (codes "-" ++ decimal 5) }
    ensures negative { made_cartesian no_reference (around (codes "12.345") (codes "-90") (codes "5"))
        ≡ placed (decimal 0) (codes "-" ++ (decimal 12 ++ codes ".345000")) (decimal 5) }
    ensures second_plane { made_cartesian (record no_reference { plane = Some Yz })
        (around (codes "10") (codes "30") (codes "7"))
        ≡ placed (decimal 7) (decimal 8 ++ codes ".660254") (decimal 5) }
    ensures third_plane { made_cartesian (record no_reference { plane = Some Zx })
        (around (codes "10") (codes "30") (codes "7"))
        ≡ placed (decimal 5) (decimal 7) (decimal 8 ++ codes ".660254") }
    ensures radians { made_cartesian (record no_reference { unit = Radians })
        (around (codes "10") (codes ".5") (codes "0"))
        ≡ placed (decimal 8 ++ codes ".775826") (decimal 4 ++ codes ".794255") (decimal 0) }
    ensures minutes { made_cartesian (record no_reference { unit = Sexagesimal })
        (around (codes "10") (codes "-12:30") (codes "5"))
        ≡ placed (decimal 9 ++ codes ".762960") (codes "-" ++ (decimal 2 ++ codes ".164396")) (decimal 5) }
    ensures degrees { made_cartesian (record no_reference { unit = Sexagesimal })
        (around (codes "10") (codes "30") (codes "5"))
        ≡ placed (decimal 8 ++ codes ".660254") (decimal 5) (decimal 5) }
    ensures no_minutes { made_cartesian no_reference (around (codes "10") (codes "12:30") (codes "5"))
        ≡ None }
    ensures no_plane { made_cartesian (record no_reference { plane = None })
        (around (codes "10") (codes "0") (codes "5")) ≡ None }
    ensures touch { made_cartesian no_reference (bare (codes "PTMEAS") (codes "POL" ∷ (codes "10"
        ∷ (codes "90" ∷ (codes "5" ∷ (codes "0" ∷ (codes "-1" ∷ (codes "0" ∷ []))))))))
        ≡ Some (Ok (codes "CART" ∷ (decimal 0 ∷ (decimal 10 ∷ (decimal 5 ∷ (codes "0"
        ∷ (codes "-1" ∷ (codes "0" ∷ [])))))))) }
    ensures labelled { made_cartesian no_reference (record (around (codes "10") (codes "0")
        (codes "5")) { label = Some (codes "A") }) ≡ None }
    ensures feature { made_cartesian no_reference (record (around (codes "10") (codes "0")
        (codes "5")) { word = codes "MEAS" }) ≡ None }
{}

/// Examples: angles in degrees, minutes and seconds.
#[tactic(auto, unfolding(program_flow::specs::Values::value_within, program_flow::specs::Values::numeral_value, program_flow::specs::Parts::parts_of, program_flow::specs::Numbers::reduced, program_flow::specs::Numbers::gcd_within))]
pub fn examples_of_angles()
    ensures seconds { angle_in Sexagesimal (codes "12:30:45")
        ≡ Some (record { over = pos 1001; under = 80 }) }
    ensures decimals { angle_in Sexagesimal (codes "0:00:00.9")
        ≡ Some (record { over = pos 1; under = 4000 }) }
    ensures negative { angle_in Sexagesimal (codes "-1:30")
        ≡ Some (record { over = negsuc 2; under = 2 }) }
    ensures expression { angle_in Sexagesimal (codes "-1+3") ≡ Some (whole_number (pos 2)) }
    ensures most { angle_in Sexagesimal (codes "1:59:59")
        ≡ Some (record { over = pos 7199; under = 3600 }) }
    ensures others { map (angle_in Sexagesimal) (codes "1:60" ∷ (codes "1:0:60"
        ∷ (codes "1:000" ∷ (codes "1:-3" ∷ (codes "+1:30" ∷ (codes "1:30.5" ∷ (codes "1:" ∷ (codes ":3"
        ∷ (codes "1:2:3:4" ∷ []))))))))) ≡ None ∷ (None ∷ (None ∷ (None ∷ (None ∷ (None ∷ (None ∷ (None
        ∷ (None ∷ [])))))))) }
    ensures units { map (λ unit. angle_in unit (codes "1:30")) (Degrees ∷ (Radians ∷ []))
        ≡ None ∷ (None ∷ []) }
{}

/// Examples: a move by a distance, from where a `GOTO` ends.
#[tactic(auto, unfolding(program_flow::specs::Values::value_within, program_flow::specs::Values::numeral_value, program_flow::specs::Parts::parts_of, program_flow::specs::Numbers::reduced, program_flow::specs::Numbers::gcd_within, program_flow::specs::Numbers::nearest_millionth, dmis_program::specs::Positions::direction_of, dmis_program::specs::Positions::component_of, fixed_um::specs::Scan::exponent_of, fixed_um::specs::Scan::numeral_of, fixed_um::specs::Written::written_component))]
pub fn examples_of_moves_by_distances()
    ensures along { made_cartesian (below (a_move ∷ [])) (by_ten (codes "0") (codes "-1") (codes "0"))
        ≡ placed (decimal 1) (codes "-" ++ (decimal 7 ++ codes ".500000")) (decimal 3) }
    ensures across { made_cartesian (below (a_move ∷ [])) (by_ten (codes ".6") (codes "0") (codes ".8"))
        ≡ placed (decimal 7) (decimal 2 ++ codes ".500000") (decimal 11) }
    ensures four_places { made_cartesian (below (a_move ∷ []))
        (by_ten (codes ".7071") (codes ".7071") (codes "0"))
        ≡ placed (decimal 8 ++ codes ".071000") (decimal 9 ++ codes ".571000") (decimal 3) }
    ensures short { made_cartesian (below (a_move ∷ []))
        (by_ten (codes ".707") (codes ".707") (codes "0")) ≡ None }
    ensures long { made_cartesian (below (a_move ∷ []))
        (by_ten (codes "0") (codes "1.0001") (codes "0")) ≡ None }
    ensures touch { made_cartesian (below (a_move ∷ []))
        (record (by_ten (codes "0") (codes "1") (codes "0")) { word = codes "PTMEAS" }) ≡ None }
    ensures touched { made_cartesian (below (a_touch ∷ (a_move ∷ [])))
        (by_ten (codes "0") (codes "1") (codes "0")) ≡ None }
{}

/// Examples: what coordinates refer to, by the statements above, the nearest first.
#[tactic(auto, unfolding(program_flow::specs::Values::value_within, program_flow::specs::Values::numeral_value, program_flow::specs::Parts::parts_of, program_flow::specs::Numbers::reduced, program_flow::specs::Numbers::gcd_within))]
pub fn examples_of_references()
    ensures bare_move { (below (bare (codes "GOTO") (codes "1" ∷ (codes "2.5" ∷ (codes "3" ∷ [])))
        ∷ [])).place ≡ (below (a_move ∷ [])).place }
    ensures still { (below (bare (codes "FEDRAT") [] ∷ (bare (codes "MEAS") []
        ∷ (bare (codes "ENDMES") [] ∷ (declare_x ∷ (bare (codes "FLY") [] ∷ (a_move ∷ []))))))).place
        ≡ (below (a_move ∷ [])).place }
    ensures moved { map (λ s. (below (s ∷ (a_move ∷ []))).place) (a_touch ∷ (recall_a ∷ (make_a
        ∷ (mode_man ∷ (bare (codes "SNSLCT") [] ∷ (bare (codes "UNITS") []
        ∷ (bare (codes "GOHOME") [] ∷ (bare (codes "GOTO") (codes "X" ∷ []) ∷ []))))))))
        ≡ None ∷ (None ∷ (None ∷ (None ∷ (None ∷ (None ∷ (None ∷ (None ∷ []))))))) }
    ensures touched { (below (bare (codes "ENDMES") [] ∷ (a_move ∷ (a_touch
        ∷ (bare (codes "MEAS") [] ∷ []))))).place ≡ (below (a_move ∷ [])).place }
    ensures untouched { (below (bare (codes "ENDMES") [] ∷ (a_move
        ∷ (bare (codes "MEAS") [] ∷ [])))).place ≡ None }
    ensures plane { (below (a_move ∷ (bare (codes "WKPLAN") (codes "ZXPLAN" ∷ [])
        ∷ (bare (codes "WKPLAN") (codes "YZPLAN" ∷ []) ∷ [])))).plane ≡ Some Zx }
    ensures planes { map plane_named ((codes "XYPLAN" ∷ []) ∷ ((codes "YZPLAN" ∷ [])
        ∷ ((codes "XZPLAN" ∷ []) ∷ []))) ≡ Some Xy ∷ (Some Yz ∷ (None ∷ [])) }
    ensures unit { (below (a_move ∷ (bare (codes "UNITS") (codes "MM" ∷ (codes "ANGRAD" ∷ []))
        ∷ []))).unit ≡ Radians }
    ensures units { map unit_named ((codes "MM" ∷ (codes "ANGDMS" ∷ [])) ∷ ((codes "MM"
        ∷ (codes "ANGDEC" ∷ [])) ∷ [])) ≡ Sexagesimal ∷ (Degrees ∷ []) }
{}

/// Unless it is chosen, no block is given touches.
pub fn nothing_is_given_unasked()
    ensures { (choices : Choices) (answers : List Answer) (text : List ℕ)
        → choices.even_touches ≡ false
        → prepared choices answers text ≡ valued_statements answers text }
{}

/// A block with a touch is given nothing.
pub fn blocks_with_touches_stay()
    ensures { (above since : List Statement) (touch s : Statement) → keyword_of touch.word ≡ Ptmeas
        → AllByRecursion (λ o. keyword_of o.word ≡ Meas → ⊥) since
        → touches_before (since ++ touch ∷ above) s ≡ [] }
{}

/// A block that is given something is given the touches that it asks for, each directly between moves to the centre of its level.
pub fn blocks_are_given_what_they_ask_for()
    ensures count { (above : List Statement) (s : Statement) (w : Wanted) → waiting above ≡ Some w
        → (touches_before above s ≡ [] → ⊥)
        → length (filter is_touch (touches_before above s)) ≡ w.count }
    ensures from_centre { (above : List Statement) (s : Statement) (w : Wanted) (bore : Bore)
        → waiting above ≡ Some w → bore_named above w.name ≡ Some bore
        → EachBelow (λ t. to_centre s.line (level_at bore w.count t).centre) 0 s
        (touches_before above s) }
    ensures back { (above : List Statement) (s : Statement) (w : Wanted) (bore : Bore)
        → waiting above ≡ Some w → bore_named above w.name ≡ Some bore
        → (touches_before above s ≡ [] → ⊥)
        → last_of s (touches_before above s) ≡ to_centre s.line (end_of bore) }
    ensures others { (above : List Statement) (s : Statement) → waiting above ≡ None
        → touches_before above s ≡ [] }
{}

/// Examples: the touches that a block is given, each from the centre.
#[tactic(auto, unfolding(program_flow::specs::Values::value_within, program_flow::specs::Values::numeral_value, program_flow::specs::Parts::parts_of, program_flow::specs::Numbers::reduced, program_flow::specs::Numbers::gcd_within, program_flow::specs::Numbers::nearest_millionth, program_flow::specs::Angles::cosine, program_flow::specs::Angles::sine, program_flow::specs::Angles::in_radians, program_flow::specs::Angles::series, program_flow::specs::Calls::line_digits, dmis_program::specs::Keywords::keyword_of, dmis_program::specs::Parameters::name_within, dmis_program::specs::Parameters::count_of, dmis_program::specs::Sayings::said_of, dmis_program::specs::Sayings::said_by, fixed_um::specs::Written::written_component, crate::specs::EvenTouches::angle_text, crate::specs::Reasons::touches_text))]
pub fn examples_of_even_touches()
    ensures four { given_below (block_a (codes "CIRCLE") (codes "4") ∷ (upright ∷ []))
        ≡ told_of_circle 4 ∷ (four_at 5 ++ to_depth 5) }
    ensures three { given_below (three_of_a ∷ (upright ∷ []))
        ≡ told_of_circle 3 ∷ (three_at 5 ++ to_depth 5) }
    ensures second_plane { take 3 (given_below (three_of_a
        ∷ (bore_a (codes "1") (codes "0") (codes "0") ∷ [])))
        ≡ told_of_circle 3 ∷ from_five (decimal 0 ∷ (decimal 25 ∷ (minus 5
        ∷ (decimal 0 ∷ (minus 1 ∷ (decimal 0 ∷ [])))))) }
    ensures third_plane { take 3 (given_below (three_of_a
        ∷ (bore_a (codes "0") (codes "-1") (codes "0") ∷ [])))
        ≡ told_of_circle 3 ∷ from_five (decimal 0 ∷ (decimal 0 ∷ (decimal 20
        ∷ (decimal 0 ∷ (decimal 0 ∷ (minus 1 ∷ [])))))) }
    ensures nearest { length (given_below (three_of_a ∷ (upright ∷ no_bores))) ≡ 8 }
    ensures noted { map (detail reason.Touched) ((codes "4" ∷ (codes "A"
        ∷ (start_text false ∷ []))) ∷ ((codes "6" ∷ (codes "A" ∷ (start_text true ∷ []))) ∷ []))
        ≡ codes "4 touches of F(A), each from its centre: see that the way there is free"
        ∷ (codes "6 touches of F(A), each from its axis, on two levels: see that the way there is free"
        ∷ []) }
{}

/// Examples: the touches of a cylinder, on two levels; an even number of them, and its axis in both directions.
#[tactic(auto, unfolding(program_flow::specs::Values::value_within, program_flow::specs::Values::numeral_value, program_flow::specs::Parts::parts_of, program_flow::specs::Numbers::reduced, program_flow::specs::Numbers::gcd_within, program_flow::specs::Numbers::nearest_millionth, program_flow::specs::Angles::cosine, program_flow::specs::Angles::sine, program_flow::specs::Angles::in_radians, program_flow::specs::Angles::series, program_flow::specs::Calls::line_digits, dmis_program::specs::Keywords::keyword_of, dmis_program::specs::Parameters::name_within, dmis_program::specs::Parameters::count_of, dmis_program::specs::Sayings::said_of, dmis_program::specs::Sayings::said_by, fixed_um::specs::Written::written_component, crate::specs::EvenTouches::angle_text, crate::specs::Reasons::touches_text))]
pub fn examples_of_levels()
    ensures seven { given_below (block_a (codes "CYLNDR") (codes "7") ∷ (deep ∷ []))
        ≡ told_of 7 (codes "its axis, on two levels") ∷ (four_at 15 ++ (three_at 35 ++ to_depth 35)) }
    ensures six { given_below (six_of_a ∷ (deep ∷ []))
        ≡ told_of 6 (codes "its axis, on two levels") ∷ (three_at 15 ++ (three_at 35 ++ to_depth 35)) }
    ensures first_way { map (λ s. take 1 (drop 1 (given_below (six_of_a ∷ (s ∷ []))))) two_ways
        ≡ to_place (decimal 10 ∷ (decimal 0 ∷ (minus 5 ∷ []))) ∷ (to_place (minus 10
        ∷ (decimal 0 ∷ (minus 5 ∷ []))) ∷ []) }
    ensures last_way { map (λ s. drop 13 (given_below (six_of_a ∷ (s ∷ [])))) two_ways
        ≡ to_place (decimal 30 ∷ (decimal 0 ∷ (minus 5 ∷ []))) ∷ (to_place (minus 30
        ∷ (decimal 0 ∷ (minus 5 ∷ []))) ∷ []) }
{}

/// Statements on one line that follow one another are of one pass, as what a block is given and its end. Where none follows another on its line,
/// there are as many passes over a line as statements on it.
pub fn passes_begin_below_other_lines()
    ensures one { (line : ℕ) (given above : List Statement)
        → AllByRecursion (λ s. s.line ≡ line) given → (given ≡ [] → ⊥) → is_on line above ≡ false
        → passes_over line (given ++ above) ≡ passes_over line above + 1 }
    ensures each { (line : ℕ) (all : List Statement) → are_apart all ≡ true
        → passes_over line all ≡ length (filter (λ s. line == s.line) all) }
{}

/// Examples: the pass of each statement that counts, and how it is written.
pub fn examples_of_passes()
    ensures rounds { kept_passes plain_choices (moves_on (1 ∷ (3 ∷ (4 ∷ (5 ∷ (4 ∷ (5 ∷ (6 ∷ []))))))))
        ≡ 1 ∷ (1 ∷ (1 ∷ (1 ∷ (2 ∷ (2 ∷ (1 ∷ [])))))) }
    ensures calls { kept_passes plain_choices (moves_on (8 ∷ (2 ∷ (9 ∷ (2 ∷ (10 ∷ (2 ∷ [])))))))
        ≡ 1 ∷ (1 ∷ (1 ∷ (2 ∷ (1 ∷ (3 ∷ []))))) }
    ensures filled { kept_passes plain_choices (all_touched [] two_rounds)
        ≡ 1 ∷ (1 ∷ (1 ∷ (1 ∷ (1 ∷ (1 ∷ (1 ∷ (1 ∷ (1 ∷ (1 ∷ (1
        ∷ (2 ∷ (2 ∷ (2 ∷ (2 ∷ (2 ∷ (2 ∷ (2 ∷ (2 ∷ (2 ∷ []))))))))))))))))))) }
    ensures left_out { kept_passes all_choices (start ∷ (on_line 2 mode_man ∷ (on_line 3 a_move
        ∷ (on_line 4 mode_prog ∷ (on_line 3 a_move ∷ []))))) ≡ 1 ∷ (1 ∷ (2 ∷ [])) }
    ensures first { (line : List ℕ) → with_pass line 1 ≡ line }
    ensures second { with_pass (codes "ENDMES $$ line 7") 2
        ≡ codes "ENDMES $$ line 7, pass " ++ decimal 2 }
    ensures no_room { (line : List ℕ) (pass : ℕ) → length line ≡ 4096 → with_pass line pass ≡ line }
{}

/// Examples: blocks that are given nothing.
#[tactic(auto, unfolding(program_flow::specs::Values::value_within, program_flow::specs::Values::numeral_value, program_flow::specs::Parts::parts_of, program_flow::specs::Numbers::reduced, program_flow::specs::Numbers::gcd_within, dmis_program::specs::Keywords::keyword_of, dmis_program::specs::Parameters::name_within, dmis_program::specs::Parameters::count_of, dmis_program::specs::Sayings::said_of, dmis_program::specs::Sayings::said_by))]
pub fn examples_of_blocks_that_stay()
    ensures empty { given_below (three_of_a ∷ (feature_a [] ∷ (upright ∷ []))) ≡ [] }
    ensures features { map (λ f. given_below (three_of_a ∷ (f ∷ (upright ∷ [])))) no_bores
        ≡ [] ∷ ([] ∷ ([] ∷ ([] ∷ ([] ∷ ([] ∷ ([] ∷ (given_below (three_of_a ∷ (upright ∷ []))
        ∷ ([] ∷ [])))))))) }
    ensures unknown { given_below (three_of_a ∷ []) ≡ [] }
    ensures blocks { map (λ b. given_below (b ++ upright ∷ [])) no_blocks
        ≡ [] ∷ ([] ∷ ([] ∷ ([] ∷ ([] ∷ ([] ∷ ([] ∷ ([] ∷ ([] ∷ ([] ∷ ([] ∷ [])))))))))) }
    ensures cylinders { map (λ f. given_below (six_of_a ∷ (f ∷ []))) no_cylinders
        ≡ [] ∷ ([] ∷ ([] ∷ ([] ∷ ([] ∷ ([] ∷ ([] ∷ ([] ∷ []))))))) }
    ensures of_cylinders { map (λ b. given_below (b ∷ (deep ∷ []))) (three_of_a
        ∷ (block_a (codes "CIRCLE") (codes "6") ∷ (block_a (codes "CYLNDR") (codes "5") ∷ [])))
        ≡ [] ∷ ([] ∷ ([] ∷ [])) }
    ensures sensor { given_below (three_of_a ∷ (bare (codes "RECALL") (codes "SA(T)" ∷ [])
        ∷ (upright ∷ []))) ≡ given_below (three_of_a ∷ (upright ∷ [])) }
    ensures others { map (touches_before (three_of_a ∷ (upright ∷ [])))
        (bare (codes "ENDMES") (codes "1" ∷ []) ∷ (record end_of_block { label = Some [] }
        ∷ (a_touch ∷ []))) ≡ [] ∷ ([] ∷ ([] ∷ [])) }
{}

/// Where the operator would measure, no touch stays, if it is asked for; elsewhere a statement is left out for itself alone.
pub fn manual_blocks_alone_are_skipped()
    ensures touches { (choices : Choices) (t s : Statement) (above : List Statement)
        → choices.skip_manual ≡ true → in_manual (s ∷ (t ∷ above)) ≡ true
        → keyword_of s.word ≡ Ptmeas → s.label ≡ None → has_open_text s ≡ false
        → left_out_at choices (t ∷ above) s ≡ Some reason.Manual }
    ensures others { (choices : Choices) (t s : Statement) (above : List Statement)
        → in_manual (s ∷ (t ∷ above)) ≡ false
        → left_out_at choices (t ∷ above) s ≡ left_out choices s }
{}

/// Examples: a manual block, what stays of it, and what is below it.
pub fn examples_of_manual_blocks()
    ensures skipped { kept all_choices first_by_hand
        ≡ start ∷ (manual_front ++ (mode_prog ∷ measured)) }
    ensures unasked { kept plain_choices first_by_hand ≡ first_by_hand }
    ensures again { in_manual (bare (codes "ENDMES") [] ∷ (mode_man ∷ (mode_prog ∷ []))) ≡ true }
    ensures ended { in_manual (bare (codes "GOTO") [] ∷ (mode_prog ∷ (mode_man ∷ []))) ≡ false }
    ensures automatic { in_manual (bare (codes "MODE") (codes "AUTO" ∷ (codes "MAN" ∷ [])) ∷ [])
        ≡ false }
    ensures scanned { is_skipped true (bare (codes "SCAN") []) ≡ true }
    ensures looped { is_skipped true (bare (codes "DO") []) ≡ false }
    ensures open { is_skipped true (bare (codes "GOTO") (codes "'A" ∷ [])) ≡ false }
{}

/// What makes or recalls a coordinate system by name selects the stored frame of this name, and no other statement changes.
pub fn frames_are_selected_by_name()
    ensures selects { (choices : Choices) (used : List ℕ → Bool) (s : Statement) (name : List ℕ)
        → stored_frame choices used s ≡ Some name
        → saying (by_frame choices used s) ≡ Ok (Recalls name) }
    ensures others { (choices : Choices) (used : List ℕ → Bool) (s : Statement)
        → stored_frame choices used s ≡ None → by_frame choices used s ≡ s }
{}

/// Examples: a system that touches refer to is not made again; others are, and each may be recalled.
pub fn examples_of_systems_made_again()
    ensures in_a_row { kept all_choices (start ∷ (make_a ∷ (make_a ∷ (a_touch ∷ []))))
        ≡ start ∷ (recall_a ∷ (recall_a ∷ (a_touch ∷ []))) }
    ensures touched { kept all_choices (start ∷ (make_a ∷ (a_touch ∷ (make_a ∷ []))))
        ≡ start ∷ (recall_a ∷ (a_touch ∷ (make_a ∷ []))) }
    ensures recalled_before { counted_at all_choices (a_touch ∷ (recall_a ∷ (start ∷ []))) make_a
        ≡ make_a }
    ensures long_before { counted_at all_choices
        (recall_a ∷ (make_b ∷ (a_touch ∷ (recall_a ∷ (start ∷ []))))) make_a ≡ make_a }
    ensures another { counted_at all_choices
        (a_touch ∷ (make_b ∷ (recall_a ∷ (start ∷ [])))) make_a ≡ recall_a }
    ensures recalled { counted_at all_choices (a_touch ∷ (recall_a ∷ (start ∷ [])))
        (bare (codes "RECALL") (codes "DA(A)" ∷ [])) ≡ recall_a }
    ensures manual { counted_at all_choices (a_touch ∷ (mode_man ∷ (recall_a ∷ (start ∷ []))))
        make_a ≡ recall_a }
    ensures refused { steps_from [] None 9 (a_touch ∷ (recall_a ∷ (start ∷ [])))
        (make_a_on_7 ∷ []) ≡ Err (Unsupported, 7) }
{}

/// Examples: alignments by name, what the setup's frames take the place of, the frame of a touch, and the notes.
pub fn examples_of_frames()
    ensures selecting { map (by_frame all_choices (is_used [])) naming_a
        ≡ recall_a ∷ (recall_a ∷ (recall_a ∷ (recall_a ∷ []))) }
    ensures unasked { map (by_frame plain_choices (is_used [])) naming_a ≡ naming_a }
    ensures others { map (by_frame all_choices (is_used [])) naming_none ≡ naming_none }
    ensures setup { map (left_out all_choices) of_setup
        ≡ Some reason.Stored ∷ (Some reason.Stored ∷ (Some reason.Stored ∷ [])) }
    ensures setup_unasked { map (left_out plain_choices) of_setup ≡ None ∷ (None ∷ (None ∷ [])) }
    ensures saved { map (left_out all_choices) saving ≡ None ∷ (None ∷ []) }
    ensures nearest { nearest frame_said (make_b ∷ (recall_a ∷ [])) ≡ Some (codes "B") }
    ensures before { nearest frame_said (recall_a ∷ (make_b ∷ (recall_a ∷ [])))
        ≡ Some (codes "A") }
    ensures listed { frame_notes two_frames ≡ frame_note 1 (Ok (Recalls (codes "A"))) 2
        ++ (frame_note 1 (Ok (Recalls (codes "B"))) 1 ++ []) }
{}

/// A statement that asks for no value stays, whatever is answered; and without answers each stays.
pub fn what_is_not_answered_stays()
    ensures others { (answers : List Answer) (s : Statement) → asked s ≡ None
        → answered answers s ≡ s }
    ensures unanswered { (statements : List Statement) → map (answered []) statements ≡ statements }
{}

/// Examples: a question is answered by the first answer of its name, which is read as `ASSIGN` would be on its line; and what is not answered.
#[tactic(auto, unfolding(program_flow::specs::Macros::said_by))]
pub fn examples_of_answers()
    ensures first { answered answers_n ask_n ≡ on_line 7 (assign (codes "N") (codes "X+2")) }
    ensures text { (answered (answer_of (codes "N") (codes "'a, b'") ∷ []) ask_n).params
        ≡ codes "'a, b'" ∷ [] }
    ensures another { answered only_m ask_n ≡ ask_n }
    ensures several { answered (answer_of (codes "N") (49 ∷ (10 ∷ (50 ∷ []))) ∷ []) ask_n ≡ ask_n }
    ensures damaged { answered (answer_of (codes "N") (49 ∷ (7 ∷ [])) ∷ []) ask_n ≡ ask_n }
    ensures assigned { answered answers_n (assign (codes "N") (codes "5"))
        ≡ assign (codes "N") (codes "5") }
    ensures unlabelled { answered answers_n (record ask_n { label = None })
        ≡ record ask_n { label = None } }
    ensures shown { map value_line answers_n ≡ codes "$$ value: M=1"
        ∷ (codes "$$ value: N=x+2" ∷ (codes "$$ value: N=4" ∷ [])) }
{}

/// The head of a flat program is comments alone.
pub fn heads_are_comments()
    ensures { (names : Names) (choices : Choices) (answers : List Answer) (text : List ℕ)
        → AllByRecursion IsComment (head_lines names choices answers text) }
{}

/// A program that is flat already keeps its features and steps, whatever is chosen and answered, if one line can hold each of its texts for the operator.
pub fn flat_sources_keep_their_meaning()
    ensures { (frames : List (List ℕ × Point)) (choices : Choices) (answers : List Answer)
        (text : List ℕ) (m : Meaning) → TextsFit text → program_of frames text ≡ Ok m
        → lowered_meaning frames choices answers text ≡ Ok m }
{}

/// Examples: a text for the operator is written as it is read, and refused if it has a mark outside its texts; other texts are not written.
pub fn examples_of_texts()
    ensures oper { option_map flat_text (flat_meant to_operator Passes)
        ≡ Some (codes "TEXT/OPER,'Turn, then /go'") }
    ensures man { is_operator_text (bare (codes "TEXT") (codes "MAN" ∷ [])) ≡ true }
    ensures outfil { flat_meant (bare (codes "TEXT") (codes "OUTFIL" ∷ (codes "'A'" ∷ []))) Passes
        ≡ None }
    ensures display { is_operator_text (bare (codes "DISPLY") (codes "OPER" ∷ [])) ≡ false }
    ensures noted { passed_over to_operator (Ok Passes) ≡ None }
    ensures fits { text_refusal to_operator ≡ None }
    ensures dollar { text_refusal (bare (codes "TEXT") (codes "OPER" ∷ (codes "A$B" ∷ [])))
        ≡ Some BadByte }
    ensures blank { text_refusal (bare (codes "TEXT") (codes "MAN" ∷ (codes "'A' 'B'" ∷ [])))
        ≡ Some BadByte }
    ensures others { text_refusal (bare (codes "TEXT") (codes "OUTFIL" ∷ (codes "A$B" ∷ [])))
        ≡ None }
{}

/// Examples: what is left out, and how a statement is written.
pub fn examples()
    ensures printing { left_out plain_choices (bare (codes "VFORM") (codes "ALL" ∷ []))
        ≡ Some reason.Printing }
    ensures naming { left_out plain_choices (bare (codes "LOTID") []) ≡ Some reason.Naming }
    ensures evaluating { left_out plain_choices (bare (codes "EVAL") []) ≡ Some reason.Evaluating }
    ensures motion { left_out plain_choices (bare (codes "RAPID") []) ≡ Some reason.Motion }
    ensures clearing { left_out plain_choices (bare (codes "CLRSRF") (codes "20" ∷ [])) ≡ None }
    ensures no_clearing { left_out all_choices (bare (codes "CLRSRF") (codes "20" ∷ []))
        ≡ Some reason.Clearing }
    ensures uncompensated { left_out plain_choices (bare (codes "TECOMP") (codes "OFF" ∷ []))
        ≡ Some reason.Uncompensated }
    ensures compensated { left_out plain_choices (bare (codes "TECOMP") (codes "ON" ∷ [])) ≡ None }
    ensures loop_stays { left_out all_choices (bare (codes "DO") (codes "I" ∷ [])) ≡ None }
    ensures open_text { left_out all_choices (bare (codes "PARTID") (codes "'A" ∷ [])) ≡ None }
    ensures written { flat_text (flat (codes "PTMEAS") (codes "CART" ∷ (codes "1.000" ∷ [])))
        ≡ codes "PTMEAS/CART,1.000" }
{}
