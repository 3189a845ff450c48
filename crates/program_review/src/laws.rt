// What follows from the definitions alone. Each function has laws for its contract and does nothing.

ghost use Rattle.std.specs.Prelude.{◌≡◌, ◌≤◌, ◌∷◌, [], ℕ, List, None, Some, Ok, length, take, codes, true, false};
ghost use Rattle.dmis_text.specs.Reading.{text_reading};
ghost use Rattle.fixed_um.specs.declared.lengths.Point.{Point};
ghost use Rattle.dmis_program.specs.Offsets.{AreInVolume};
ghost use Rattle.dmis_program.specs.Meaning.{Meaning, program_of};
ghost use Rattle.dmis_program.specs.Programs.{feature_touches};
ghost use Rattle.protocol_model.specs.Plan.{plan};
ghost use Rattle.protocol_model.specs.declared.plans.Start.{Start};
ghost use Rattle.program_review.specs.TaskLines.{task_lines_of, command_lines_of};
ghost use Rattle.program_review.specs.PlanLines.{HaveLines, statement_commands, recalling};
ghost use Rattle.program_review.specs.Travels.{travels_of, meas_on, ptmeas_on, endmes_on, goto_on, feature_on, travel_on};
ghost use Rattle.dmis_program.specs.declared.sayings.StatementMeaning.TheVariants.{Begins, Ends};
ghost use Rattle.program_review.specs.Texts.{all_commands, held_at, is_open_after, is_waited, shown, tasks_on, text_on_line, texts_of, waited};
ghost use Rattle.order_parts.specs.Pauses.{pauses_of};

/// The lines of `command_lines` are those of the commands of a client's plan that carry out statements, one for one, after any number of
/// completed features: each is the line of a statement that its command carries out. A command that selects the machine's own frame has none.
pub fn commands_have_the_lines_of_their_statements()
    ensures { (frames : List (List ℕ × Point)) (text : List ℕ) (m : Meaning) (completed : ℕ)
        (start : Start) → AreInVolume frames → program_of frames text ≡ Ok m
        → completed ≤ length m.features
        → HaveLines frames (text_reading text).statements
        (statement_commands (plan m completed start))
        (command_lines_of (length (feature_touches (take completed m.features)))
        (task_lines_of (text_reading text).statements)) }
{}

/// A `RECALL` becomes two commands if it is of a stored frame, and none otherwise.
pub fn recalls_of_frames_become_commands()
    ensures frame { command_lines_of 0 (task_lines_of (recalling (codes "D(A)")))
        ≡ None ∷ (Some 1 ∷ (Some 1 ∷ (Some 2 ∷ (Some 3 ∷ [])))) }
    ensures sensor { command_lines_of 0 (task_lines_of (recalling (codes "S(A)")))
        ≡ None ∷ (Some 2 ∷ (Some 3 ∷ [])) }
    ensures sensors { command_lines_of 0 (task_lines_of (recalling (codes "SA(A)")))
        ≡ None ∷ (Some 2 ∷ (Some 3 ∷ [])) }
    ensures alignment { command_lines_of 0 (task_lines_of (recalling (codes "DA(A)")))
        ≡ None ∷ (Some 2 ∷ (Some 3 ∷ [])) }
    ensures again { command_lines_of 1 (task_lines_of (recalling (codes "SA(A)")))
        ≡ Some 2 ∷ (None ∷ []) }
{}

/// A text for the operator holds back the commands below its line and the end of the session, or all if nothing stands above. A run waits at it
/// outside of blocks, if something is done below, and not at one above all if the run is confirmed; at two with no command between once.
pub fn texts_hold_back_what_is_below()
    ensures texts { texts_of (text_on_line 2 (codes "MAN") ∷ (text_on_line 4 (codes "OPER")
        ∷ (text_on_line 5 (codes "OUTFIL") ∷ []))) ≡ (2, false) ∷ ((4, false) ∷ []) }
    ensures opens { (name : List ℕ) (count : ℕ)
        → is_open_after false (Some (Begins name count)) ≡ true }
    ensures ends { is_open_after true (Some Ends) ≡ false }
    ensures between { held_at (Some 3 ∷ (Some 5 ∷ (Some 5 ∷ (Some 8 ∷ [])))) tasks_on 4 ≡ 4 }
    ensures above { held_at (Some 3 ∷ (Some 5 ∷ (Some 5 ∷ (Some 8 ∷ [])))) tasks_on 2
        ≡ all_commands }
    ensures below { held_at (Some 3 ∷ (Some 5 ∷ (Some 5 ∷ (Some 8 ∷ [])))) tasks_on 9 ≡ 1 }
    ensures waited { is_waited true false 4 ≡ true }
    ensures inside { is_waited false true 4 ≡ false }
    ensures end { is_waited false false 1 ≡ false }
    ensures unconfirmed { is_waited false false all_commands ≡ true }
    ensures confirmed { is_waited true false all_commands ≡ false }
    ensures together { pauses_of (waited 4 ∷ (shown 3 ∷ (waited 4 ∷ (waited 2 ∷ []))))
        ≡ 4 ∷ (2 ∷ []) }
{}

/// A travel between two features is straight exactly if no `GOTO` comes between their touches: not after the last one of the first feature, nor
/// directly before the `MEAS` of the next, nor in its block before its first touch.
pub fn travels_without_a_move_are_straight()
    ensures two { travels_of [] (feature_on 1 (codes "1") (feature_on 4 (codes "2") []))
        ≡ travel_on 2 1000 5 2000 ∷ [] }
    ensures three { travels_of [] (feature_on 1 (codes "1")
        (feature_on 4 (codes "2") (feature_on 7 (codes "3") [])))
        ≡ travel_on 2 1000 5 2000 ∷ (travel_on 5 2000 8 3000 ∷ []) }
    ensures after_a_touch { travels_of [] (meas_on 1 ∷ (ptmeas_on 2 (codes "1") ∷ (goto_on 3 ∷ (endmes_on 4
        ∷ feature_on 5 (codes "2") (feature_on 8 (codes "3") [])))))
        ≡ travel_on 6 2000 9 3000 ∷ [] }
    ensures before_a_block { travels_of [] (feature_on 1 (codes "1") (goto_on 4
        ∷ feature_on 5 (codes "2") (feature_on 8 (codes "3") [])))
        ≡ travel_on 6 2000 9 3000 ∷ [] }
    ensures in_a_block { travels_of [] (feature_on 1 (codes "1") (meas_on 4 ∷ (goto_on 5
        ∷ (ptmeas_on 6 (codes "2") ∷ (endmes_on 7 ∷ feature_on 8 (codes "3") [])))))
        ≡ travel_on 6 2000 9 3000 ∷ [] }
    ensures in_one_feature { travels_of [] (meas_on 1 ∷ (ptmeas_on 2 (codes "1")
        ∷ (ptmeas_on 3 (codes "2") ∷ (endmes_on 4 ∷ [])))) ≡ [] }
{}
