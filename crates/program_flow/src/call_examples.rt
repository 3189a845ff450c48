// Examples: which statements of a text with macros come out.

ghost use Rattle.std.specs.Prelude.{◌≡◌, ◌∷◌, ◌++◌, [], codes};
ghost use Rattle.program_flow.specs.CallExamples.{call_on, called, calling, calling_twice, calling_with, jumping_in_macro, macro_head, macro_on};
ghost use Rattle.program_flow.specs.Calls.{carried_out};
ghost use Rattle.program_flow.specs.Examples.{alone, declared, lines_of, on, with_one};

/// The statements of a macro come out at its CALL, with the arguments in the places of its parameters.
#[tactic(auto, unfolding(crate::specs::Calls::line_digits, crate::specs::Calls::trace, crate::specs::Calls::step, crate::specs::Macros::outside_after, crate::specs::Macros::macro_after, crate::specs::Macros::replaced_after, crate::specs::Macros::said_by, crate::specs::Flow::turn, crate::specs::Blocks::part_of))]
pub fn macros_are_called()
    ensures arguments { carried_out (calling (codes "7" ∷ (codes "I" ∷ []))) ≡ called }
    ensures too_few { lines_of (calling (codes "7" ∷ [])) ≡ 5 ∷ (6 ∷ []) }
    ensures too_many { lines_of (calling (codes "7" ∷ (codes "I" ∷ (codes "I" ∷ []))))
        ≡ 5 ∷ (6 ∷ []) }
    ensures in_turn { carried_out calling_twice ≡ with_one 1 (codes "CALL") (codes "3")
        ∷ (with_one 3 (codes "CALL") (codes "6") ∷ (with_one 6 (codes "B") (codes "3+1") ∷ [])) }
    ensures empty { carried_out (calling_with [])
        ≡ with_one 20 (codes "CALL") (codes "21") ∷ (alone 21 (codes "B") ∷ []) }
    ensures again { lines_of (calling_with (alone 2 (codes "A") ∷ [])
        ++ (call_on 22 (codes "M(A)") [] ∷ [])) ≡ 2 ∷ (21 ∷ (2 ∷ [])) }
{}

/// Blocks may be around a call, and in a macro.
#[tactic(auto, unfolding(crate::specs::Calls::line_digits, crate::specs::Calls::trace, crate::specs::Calls::step, crate::specs::Macros::outside_after, crate::specs::Macros::macro_after, crate::specs::Macros::replaced_after, crate::specs::Macros::said_by, crate::specs::Flow::turn, crate::specs::Blocks::part_of, crate::specs::Flow::assignment, crate::specs::Flow::is_kept, crate::specs::Blocks::end_of, crate::specs::Conditions::holds_within, crate::specs::Conditions::parts_of, crate::specs::Values::value_within, crate::specs::Values::numeral_value, crate::specs::Parts::parts_of, crate::specs::Numbers::reduced, crate::specs::Numbers::gcd_within))]
pub fn calls_and_blocks_nest()
    ensures in_a_loop { lines_of (declared
        ∷ (on 2 (codes "DO") (codes "I" ∷ (codes "1" ∷ (codes "2" ∷ [])))
        ∷ (call_on 3 (codes "M(A)") [] ∷ (alone 4 (codes "ENDDO")
        ∷ macro_on 5 7 (codes "M(A)") [] (alone 6 (codes "A") ∷ [])))))
        ≡ 1 ∷ (2 ∷ (6 ∷ (4 ∷ (6 ∷ (4 ∷ []))))) }
    ensures around_a_branch { lines_of (macro_on 1 5 (codes "M(A)") (codes "N" ∷ [])
        (with_one 2 (codes "IF") (codes "(N .LT. 5)") ∷ (alone 3 (codes "A")
        ∷ (alone 4 (codes "ENDIF") ∷ []))) ++ (call_on 6 (codes "M(A)") (codes "4" ∷ [])
        ∷ (alone 7 (codes "B") ∷ (call_on 8 (codes "M(A)") (codes "5" ∷ []) ∷ []))))
        ≡ 3 ∷ (7 ∷ []) }
{}

/// A macro that is open is not called, nor one that does not exist.
#[tactic(auto, unfolding(crate::specs::Calls::line_digits, crate::specs::Calls::trace, crate::specs::Calls::step, crate::specs::Macros::outside_after, crate::specs::Macros::macro_after, crate::specs::Macros::replaced_after, crate::specs::Macros::said_by, crate::specs::Flow::turn, crate::specs::Blocks::part_of))]
pub fn calls_that_cannot_be_followed()
    ensures itself { carried_out (calling_with (call_on 2 (codes "M(A)") [] ∷ []))
        ≡ with_one 20 (codes "CALL") (codes "2") ∷ (alone 2 (codes "CALL") ∷ []) }
    ensures by_another { lines_of (calling_with (call_on 2 (codes "M(B)") [] ∷ [])
        ++ macro_on 30 32 (codes "M(B)") [] (call_on 31 (codes "M(A)") [] ∷ [])) ≡ 31 ∷ [] }
    ensures none { lines_of (calling_with [] ++ (call_on 22 (codes "M(B)") [] ∷ []))
        ≡ 21 ∷ (22 ∷ []) }
    ensures no_identifier { lines_of (macro_on 1 2 (codes "M(A)") (codes "2" ∷ []) []
        ++ (call_on 3 (codes "M(A)") (codes "5" ∷ []) ∷ [])) ≡ 3 ∷ [] }
    ensures other_label { lines_of (macro_on 1 2 (codes "F(A)") [] []) ≡ 1 ∷ (2 ∷ []) }
    ensures no_end { lines_of (macro_head 1 (codes "M(A)") []
        ∷ (alone 2 (codes "A") ∷ [])) ≡ 1 ∷ [] }
    ensures no_beginning { lines_of (alone 1 (codes "A") ∷ (alone 2 (codes "ENDMAC")
        ∷ (alone 3 (codes "B") ∷ []))) ≡ 1 ∷ (2 ∷ []) }
    ensures macro_in_macro { lines_of (calling_with (macro_head 2 (codes "M(B)") [] ∷ []))
        ≡ 2 ∷ [] }
    ensures ended_twice { lines_of (calling_with (macro_on 2 4 (codes "M(B)") [] [])) ≡ 19 ∷ [] }
    ensures inner_by_name { lines_of (call_on 30 (codes "M(B)") [] ∷ calling_with
        (macro_head 2 (codes "M(B)") [] ∷ [])) ≡ 30 ∷ [] }
    ensures blanks { lines_of (alone 1 (codes "M(A) = MACRO") ∷ (alone 2 (codes "ENDMAC")
        ∷ (alone 3 (codes "A") ∷ []))) ≡ 3 ∷ [] }
{}

/// Labels are looked for where the jump is: in the macro, or outside.
#[tactic(auto, unfolding(crate::specs::Calls::line_digits, crate::specs::Calls::trace, crate::specs::Calls::step, crate::specs::Macros::outside_after, crate::specs::Macros::macro_after, crate::specs::Macros::replaced_after, crate::specs::Macros::said_by, crate::specs::Flow::turn, crate::specs::Blocks::part_of, crate::specs::Blocks::is_level, crate::specs::Blocks::label_place))]
pub fn jumps_stay_in_their_macro()
    ensures within { lines_of (jumping_in_macro (codes "(SAME)")) ≡ 2 ∷ (10 ∷ (12 ∷ (5 ∷ []))) }
    ensures parameter { lines_of (jumping_in_macro (codes "(P)")) ≡ 2 ∷ (12 ∷ (5 ∷ [])) }
    ensures argument { lines_of (jumping_in_macro (codes "(ARG)")) ≡ 2 ∷ (12 ∷ (5 ∷ [])) }
    ensures out { lines_of (jumping_in_macro (codes "(OUT)")) ≡ 2 ∷ (7 ∷ []) }
    ensures into { lines_of (with_one 30 (codes "JUMPTO") (codes "(IN)")
        ∷ calling_with (alone 2 (codes "(IN)") ∷ [])) ≡ 30 ∷ [] }
{}
