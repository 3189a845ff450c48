// Examples: which statements of a text come out.

ghost use Rattle.std.specs.Prelude.{◌≡◌, ◌<◌, ◌∷◌, ◌++◌, [], Err, List, Ok, Some, codes, false, length, true};
ghost use Rattle.std.specs.List.{AllByRecursion};
ghost use Rattle.dmis_text.specs.declared.elements.Statement.{Statement};
ghost use Rattle.program_flow.specs.Conditions.{holds};
ghost use Rattle.program_flow.specs.Blocks.{part_of};
ghost use Rattle.program_flow.specs.Examples.{alone, assigned, branching, case_of, case_on, changing, declared, default_on, jumping, jumping_in_select, leads_of, lines_of, looping, nested, on, select_around, select_in_case, select_of, selecting, with_one};
ghost use Rattle.program_flow.specs.Calls.{begun, carried_out, is_plain, trace};
ghost use Rattle.program_flow.specs.Flow.{assignment};
ghost use Rattle.program_flow.specs.declared.blocks.Part.TheVariants.{Other};
ghost use Rattle.program_flow.specs.ValueExamples.{a_is_seven};
ghost use Rattle.program_flow.specs.declared.faults.ValueFault.TheVariants as fault;

/// Comparisons are exact; `.NOT.` applies first, then `.AND.`, then `.OR.`.
#[tactic(auto, unfolding(crate::specs::Conditions::holds_within, crate::specs::Conditions::parts_of, crate::specs::Values::value_within, crate::specs::Values::numeral_value, crate::specs::Parts::parts_of, crate::specs::Numbers::reduced, crate::specs::Numbers::gcd_within))]
pub fn conditions_hold_or_not()
    ensures below { holds a_is_seven (codes "(A .LT. 8)") ≡ Ok true }
    ensures not_below { holds a_is_seven (codes "A.LT.7") ≡ Ok false }
    ensures at_most { holds a_is_seven (codes "A .LE. 7.") ≡ Ok true }
    ensures equal { holds a_is_seven (codes "A/3 .EQ. 2+1/3") ≡ Ok true }
    ensures unequal { holds a_is_seven (codes "A .NE. 7") ≡ Ok false }
    ensures at_least { holds a_is_seven (codes "A .GE. 8") ≡ Ok false }
    ensures above { holds a_is_seven (codes "A .GT. 7") ≡ Ok false }
    ensures far { holds a_is_seven (codes "A .GT. -1") ≡ Ok true }
    ensures either { holds a_is_seven (codes "A .EQ. 7 .OR. A .EQ. 8 .AND. A .EQ. 9") ≡ Ok true }
    ensures inside { holds a_is_seven (codes "(A .EQ. 7 .OR. A .EQ. 8) .AND. A .EQ. 9")
        ≡ Ok false }
    ensures negation { holds a_is_seven (codes ".NOT. (A .EQ. 8) .AND. A .EQ. 7") ≡ Ok true }
    ensures number { holds a_is_seven (codes "(A)") ≡ Err fault.NotExpression }
    ensures half { holds a_is_seven (codes "A .LT.") ≡ Err fault.NotExpression }
    ensures unknown { holds a_is_seven (codes "C .LT. 1") ≡ Err fault.UnknownName }
    ensures texts { holds a_is_seven (codes "(T .EQ. 'it''s')") ≡ Ok true }
    ensures longer { holds a_is_seven (codes "'it''s.' .EQ. T") ≡ Ok false }
    ensures letters { holds a_is_seven (codes "'ab' .NE. 'aB'") ≡ Ok true }
    ensures same_letters { holds a_is_seven (codes "T .NE. T") ≡ Ok false }
    ensures before { holds a_is_seven (codes "'a' .LT. 'b'") ≡ Err fault.NotNumber }
    ensures text_and_number { holds a_is_seven (codes "T .EQ. 7") ≡ Err fault.NotNumber }
    ensures number_and_text { holds a_is_seven (codes "A .NE. '7'") ≡ Err fault.NotNumber }
{}

/// A text without the words of control flow, macros and calls comes out as it is.
pub fn straight_texts_come_out()
    ensures { (statements : List Statement)
        → AllByRecursion (λ (s : Statement). (is_plain s ≡ true) × (part_of s ≡ Other)) statements
        → length statements < 1000000 → carried_out statements ≡ statements }
{}

/// An IF has one branch or the other, and says the line where it leads.
#[tactic(auto, unfolding(crate::specs::Calls::line_digits, crate::specs::Calls::trace, crate::specs::Calls::step, crate::specs::Macros::outside_after, crate::specs::Macros::said_by, crate::specs::Flow::turn, crate::specs::Flow::assignment, crate::specs::Blocks::part_of, crate::specs::Blocks::end_of, crate::specs::Conditions::holds_within, crate::specs::Conditions::parts_of, crate::specs::Values::value_within, crate::specs::Values::numeral_value, crate::specs::Parts::parts_of, crate::specs::Numbers::reduced, crate::specs::Numbers::gcd_within))]
pub fn branches_are_carried_out()
    ensures first { lines_of (branching (codes "(I .LT. 6)")) ≡ 1 ∷ (2 ∷ (4 ∷ (8 ∷ []))) }
    ensures second { lines_of (branching (codes "(I .LT. 5)")) ≡ 1 ∷ (2 ∷ (6 ∷ (8 ∷ []))) }
    ensures unassigned { lines_of (branching (codes "(J .LT. 5)")) ≡ 1 ∷ (2 ∷ (3 ∷ [])) }
    ensures number { lines_of (branching (codes "(I)")) ≡ 1 ∷ (2 ∷ (3 ∷ [])) }
    ensures to_first { leads_of (branching (codes "(I .LT. 6)"))
        ≡ with_one 3 (codes "IF") (codes "4") ∷ [] }
    ensures to_second { leads_of (branching (codes "(I .LT. 5)"))
        ≡ with_one 3 (codes "IF") (codes "6") ∷ [] }
    ensures not_followed { carried_out (branching (codes "(J .LT. 5)"))
        ≡ declared ∷ (assigned 2 (codes "I") (codes "5") ∷ (alone 3 (codes "IF") ∷ [])) }
    ensures to_the_end { carried_out (with_one 1 (codes "IF") (codes "(1 .LT. 0)")
        ∷ (alone 2 (codes "ENDIF") ∷ [])) ≡ [] }
{}

/// A DO has its rounds: up or down, with a step, in another DO, or none.
#[tactic(auto, unfolding(crate::specs::Calls::line_digits, crate::specs::Calls::trace, crate::specs::Calls::step, crate::specs::Macros::outside_after, crate::specs::Macros::said_by, crate::specs::Flow::turn, crate::specs::Flow::is_kept, crate::specs::Flow::assignment, crate::specs::Blocks::part_of, crate::specs::Blocks::end_of, crate::specs::Values::value_within, crate::specs::Values::numeral_value, crate::specs::Parts::parts_of, crate::specs::Numbers::reduced, crate::specs::Numbers::gcd_within))]
pub fn loops_have_their_rounds()
    ensures three { lines_of (looping (codes "I" ∷ (codes "1" ∷ (codes "3" ∷ []))))
        ≡ 1 ∷ (2 ∷ (3 ∷ (4 ∷ (3 ∷ (4 ∷ (3 ∷ (4 ∷ (5 ∷ [])))))))) }
    ensures down { lines_of (looping (codes "I" ∷ (codes "3" ∷ (codes "2" ∷ (codes "-1" ∷ [])))))
        ≡ 1 ∷ (2 ∷ (3 ∷ (4 ∷ (3 ∷ (4 ∷ (5 ∷ [])))))) }
    ensures step { lines_of (looping (codes "I" ∷ (codes "1" ∷ (codes "4" ∷ (codes "2" ∷ [])))))
        ≡ 1 ∷ (2 ∷ (3 ∷ (4 ∷ (3 ∷ (4 ∷ (5 ∷ [])))))) }
    ensures none { lines_of (looping (codes "I" ∷ (codes "1" ∷ (codes "0" ∷ []))))
        ≡ 1 ∷ (2 ∷ (5 ∷ [])) }
    ensures zero { lines_of (looping (codes "I" ∷ (codes "1" ∷ (codes "3" ∷ (codes "0" ∷ [])))))
        ≡ 1 ∷ (2 ∷ []) }
    ensures fraction { lines_of (looping (codes "I" ∷ (codes ".5" ∷ (codes "3" ∷ []))))
        ≡ 1 ∷ (2 ∷ []) }
    ensures nested { lines_of nested
        ≡ 1 ∷ (2 ∷ (3 ∷ (4 ∷ (5 ∷ (4 ∷ (5 ∷ (6 ∷ (3 ∷ (4 ∷ (5 ∷ (6 ∷ (3 ∷ (6 ∷ []))))))))))))) }
    ensures changed { lines_of changing ≡ 1 ∷ (2 ∷ (3 ∷ (4 ∷ (5 ∷ [])))) }
    ensures assigns { assignment 4 (codes "I=ASSIGN/I+(1)")
        ≡ Some (assigned 4 (codes "I") (codes "I+(1)")) }
{}

/// A jump leaves a loop and enters none; what has no beginning or no end comes out as it is.
#[tactic(auto, unfolding(crate::specs::Calls::line_digits, crate::specs::Calls::trace, crate::specs::Calls::step, crate::specs::Macros::outside_after, crate::specs::Macros::said_by, crate::specs::Flow::turn, crate::specs::Flow::assignment, crate::specs::Blocks::part_of, crate::specs::Blocks::end_of, crate::specs::Blocks::is_level, crate::specs::Blocks::label_place, crate::specs::Conditions::holds_within, crate::specs::Conditions::parts_of, crate::specs::Values::value_within, crate::specs::Values::numeral_value, crate::specs::Parts::parts_of, crate::specs::Numbers::reduced, crate::specs::Numbers::gcd_within))]
pub fn jumps_enter_no_block()
    ensures out { lines_of (jumping (codes "(OUT)")) ≡ 1 ∷ (2 ∷ (9 ∷ [])) }
    ensures lead { leads_of (jumping (codes "(OUT)"))
        ≡ with_one 3 (codes "JUMPTO") (codes "8") ∷ [] }
    ensures into { lines_of (jumping (codes "(IN)")) ≡ 1 ∷ (2 ∷ (3 ∷ [])) }
    ensures unknown { lines_of (jumping (codes "(X)")) ≡ 1 ∷ (2 ∷ (3 ∷ [])) }
    ensures no_end { lines_of (with_one 1 (codes "IF") (codes "(1 .LT. 2)")
        ∷ (alone 2 (codes "A") ∷ [])) ≡ 1 ∷ [] }
    ensures crossed { lines_of (with_one 1 (codes "IF") (codes "(1 .LT. 2)")
        ∷ (alone 2 (codes "ENDDO") ∷ [])) ≡ 1 ∷ [] }
    ensures no_beginning { lines_of (alone 1 (codes "A")
        ∷ (alone 2 (codes "ENDIF") ∷ (alone 3 (codes "B") ∷ []))) ≡ 1 ∷ (2 ∷ []) }
    ensures no_if { lines_of (alone 1 (codes "ELSE") ∷ (alone 2 (codes "ENDIF") ∷ [])) ≡ 1 ∷ [] }
    ensures no_do { lines_of (alone 1 (codes "ENDDO") ∷ []) ≡ 1 ∷ [] }
    ensures given_up { trace 0 [] (begun (alone 7 (codes "A") ∷ [])) []
        ≡ alone 7 (codes "ENDDO") ∷ [] }
{}

/// A SELECT has the first CASE of its value, or else its DFTCAS, and says the line where it leads.
#[tactic(auto, unfolding(crate::specs::Calls::line_digits, crate::specs::Calls::trace, crate::specs::Calls::step, crate::specs::Macros::outside_after, crate::specs::Macros::said_by, crate::specs::Flow::turn, crate::specs::Flow::assignment, crate::specs::Selections::chosen, crate::specs::Selections::one_equals, crate::specs::Blocks::part_of, crate::specs::Blocks::end_of, crate::specs::Values::value_within, crate::specs::Values::numeral_value, crate::specs::Parts::parts_of, crate::specs::Numbers::reduced, crate::specs::Numbers::gcd_within))]
pub fn one_branch_of_a_select_is_carried_out()
    ensures first { lines_of (selecting (codes "1")) ≡ 1 ∷ (2 ∷ (5 ∷ (14 ∷ []))) }
    ensures one_of_two { lines_of (selecting (codes "3")) ≡ 1 ∷ (2 ∷ (8 ∷ (14 ∷ []))) }
    ensures other_of_two { lines_of (selecting (codes "10/2")) ≡ 1 ∷ (2 ∷ (8 ∷ (14 ∷ []))) }
    ensures default { lines_of (selecting (codes "2")) ≡ 1 ∷ (2 ∷ (11 ∷ (14 ∷ []))) }
    ensures lead { leads_of (selecting (codes "3"))
        ≡ with_one 3 (codes "SELECT") (codes "8") ∷ [] }
    ensures unassigned { lines_of (selecting (codes "J")) ≡ 1 ∷ (2 ∷ (3 ∷ [])) }
    ensures two_values { lines_of (on 1 (codes "SELECT") (codes "2"
        ∷ (codes "2" ∷ [])) ∷ (case_of 2 (codes "2") ++ (alone 5 (codes "ENDSEL") ∷ []))) ≡ 1 ∷ [] }
    ensures none { lines_of (select_around (case_of 2 (codes "1"))) ≡ 21 ∷ [] }
    ensures first_of_two { lines_of (select_around (case_of 2 (codes "2") ++ case_of 5 (codes "2")))
        ≡ 3 ∷ (21 ∷ []) }
    ensures text { lines_of (select_of (codes "'B'") (case_of 2 (codes "'b'")
        ++ case_of 5 (codes "'B'"))) ≡ 6 ∷ (21 ∷ []) }
    ensures number_of_text { lines_of (select_of (codes "'2'") (case_of 2 (codes "2"))) ≡ 1 ∷ [] }
    ensures text_of_number { lines_of (select_around (case_of 2 (codes "'2'"))) ≡ 1 ∷ [] }
{}

/// What stands below the branch that is chosen, or to the right of its value, is not judged; what stands above, is.
#[tactic(auto, unfolding(crate::specs::Calls::line_digits, crate::specs::Calls::trace, crate::specs::Calls::step, crate::specs::Macros::outside_after, crate::specs::Macros::said_by, crate::specs::Flow::turn, crate::specs::Flow::assignment, crate::specs::Selections::chosen, crate::specs::Selections::one_equals, crate::specs::Blocks::part_of, crate::specs::Blocks::end_of, crate::specs::Values::value_within, crate::specs::Values::numeral_value, crate::specs::Parts::parts_of, crate::specs::Numbers::reduced, crate::specs::Numbers::gcd_within))]
pub fn branches_are_looked_at_in_their_order()
    ensures value_after { lines_of (select_around (case_on 2 (codes "2" ∷ (codes "X" ∷ []))))
        ≡ 3 ∷ (21 ∷ []) }
    ensures value_before { lines_of (select_around (case_on 2 (codes "X" ∷ (codes "2" ∷ []))))
        ≡ 1 ∷ [] }
    ensures case_after { lines_of (select_around (case_of 2 (codes "2") ++ case_of 5 (codes "X")))
        ≡ 3 ∷ (21 ∷ []) }
    ensures case_before { lines_of (select_around (case_of 2 (codes "X") ++ case_of 5 (codes "2")))
        ≡ 1 ∷ [] }
    ensures case_without_values { lines_of (select_around (case_on 2 [] ++ case_of 5 (codes "2")))
        ≡ 1 ∷ [] }
    ensures default_first { lines_of (select_around (default_on 2 ++ case_of 5 (codes "2")))
        ≡ 1 ∷ [] }
    ensures default_after { lines_of (select_around (case_of 2 (codes "2")
        ++ (default_on 5 ++ case_of 8 (codes "1")))) ≡ 3 ∷ (21 ∷ []) }
    ensures statement_after { lines_of (select_around (case_of 2 (codes "2")
        ++ (alone 5 (codes "B") ∷ []))) ≡ 3 ∷ (21 ∷ []) }
    ensures statement_before { lines_of (select_around (case_of 2 (codes "1")
        ++ ((alone 5 (codes "B") ∷ []) ++ case_of 6 (codes "2")))) ≡ 1 ∷ [] }
{}

/// A branch has its own blocks; what has no beginning or no end comes out as it is.
#[tactic(auto, unfolding(crate::specs::Calls::line_digits, crate::specs::Calls::trace, crate::specs::Calls::step, crate::specs::Macros::outside_after, crate::specs::Macros::said_by, crate::specs::Flow::turn, crate::specs::Flow::assignment, crate::specs::Selections::chosen, crate::specs::Selections::one_equals, crate::specs::Blocks::part_of, crate::specs::Blocks::end_of, crate::specs::Conditions::holds_within, crate::specs::Conditions::parts_of, crate::specs::Values::value_within, crate::specs::Values::numeral_value, crate::specs::Parts::parts_of, crate::specs::Numbers::reduced, crate::specs::Numbers::gcd_within))]
pub fn branches_end_with_their_own_ends()
    ensures select_in_it { lines_of (select_around (select_in_case (codes "2")))
        ≡ 5 ∷ (11 ∷ (21 ∷ [])) }
    ensures select_passed_over { lines_of (select_around (select_in_case (codes "1")
        ++ case_of 13 (codes "2"))) ≡ 14 ∷ (21 ∷ []) }
    ensures no_end_of_select { lines_of (with_one 1 (codes "SELECT") (codes "2")
        ∷ case_of 2 (codes "2")) ≡ 1 ∷ [] }
    ensures no_end_of_branch { lines_of (select_around (with_one 2 (codes "CASE") (codes "2")
        ∷ (alone 3 (codes "ENDSEL") ∷ []))) ≡ 1 ∷ [] }
    ensures no_end_of_default { lines_of (select_around (alone 2 (codes "DFTCAS")
        ∷ (alone 3 (codes "ENDSEL") ∷ []))) ≡ 1 ∷ [] }
    ensures no_end_of_branch_above { lines_of (select_around (with_one 2 (codes "CASE") (codes "1")
        ∷ (alone 3 (codes "ENDSEL") ∷ []))) ≡ 1 ∷ [] }
    ensures else_in_a_branch_above { lines_of (select_around (with_one 2 (codes "CASE") (codes "1")
        ∷ (alone 3 (codes "ELSE") ∷ (alone 4 (codes "ENDCAS") ∷ [])))) ≡ 1 ∷ [] }
    ensures if_around_it { lines_of (with_one 31 (codes "IF") (codes "(1 .LT. 2)")
        ∷ (select_around (case_of 2 (codes "2")) ++ (alone 32 (codes "ENDIF") ∷ [])))
        ≡ 3 ∷ (21 ∷ []) }
    ensures only_a_case { lines_of (case_of 1 (codes "1")) ≡ 1 ∷ [] }
    ensures only_a_default { lines_of (default_on 1) ≡ 1 ∷ [] }
    ensures only_an_end_of_branch { lines_of (alone 1 (codes "ENDCAS")
        ∷ (alone 2 (codes "ENDSEL") ∷ [])) ≡ 1 ∷ [] }
    ensures only_an_end_of_select { lines_of (alone 1 (codes "A")
        ∷ (alone 2 (codes "ENDSEL") ∷ (alone 3 (codes "B") ∷ []))) ≡ 1 ∷ (2 ∷ []) }
{}

/// A jump leaves a branch, and enters none, nor the space between two.
#[tactic(auto, unfolding(crate::specs::Calls::line_digits, crate::specs::Calls::trace, crate::specs::Calls::step, crate::specs::Macros::outside_after, crate::specs::Macros::said_by, crate::specs::Flow::turn, crate::specs::Flow::assignment, crate::specs::Selections::chosen, crate::specs::Selections::one_equals, crate::specs::Blocks::part_of, crate::specs::Blocks::end_of, crate::specs::Blocks::is_level, crate::specs::Blocks::label_place, crate::specs::Values::value_within, crate::specs::Values::numeral_value, crate::specs::Parts::parts_of, crate::specs::Numbers::reduced, crate::specs::Numbers::gcd_within))]
pub fn jumps_enter_no_select()
    ensures within { lines_of (jumping_in_select (codes "(IN)")) ≡ 6 ∷ (13 ∷ (15 ∷ [])) }
    ensures out { lines_of (jumping_in_select (codes "(OUT)")) ≡ 15 ∷ [] }
    ensures between { lines_of (jumping_in_select (codes "(BETWEEN)")) ≡ 3 ∷ [] }
    ensures into { lines_of (jumping_in_select (codes "(OTHER)")) ≡ 3 ∷ [] }
{}
