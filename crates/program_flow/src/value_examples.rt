// Examples: expressions and their values.

ghost use Rattle.std.specs.Prelude.{◌≡◌, ◌≤◌, ◌*◌, ◌/◌, ◌^◌, ◌∷◌, ◌++◌, ℕ, Err, IsOk, List, None, Ok, Some, [], codes, decimal, false, int_lt, true, pos, negsuc, unsigned_abs};
ghost use Rattle.std.specs.Int.{IsGcd};
ghost use Rattle.program_flow.specs.Numbers.{Fraction, IsBounded, gcd, numeral, rounded_product};
ghost use Rattle.program_flow.specs.ValueExamples.{Fails, Gives, Refuses, Says, a_is_seven, assigning, declaring, declaring_letters, lettered, refusal, start};
ghost use Rattle.program_flow.specs.LookBack.{Holds, is_declaration, value_said};
ghost use Rattle.program_flow.specs.Nearness.{IsCosine, IsInDegrees, IsInRadians, IsSine, IsTangent};
ghost use Rattle.program_flow.specs.Texts.{expanded};
ghost use Rattle.program_flow.specs.Values.{computed, function_of, literal_of, value_of, written};
ghost use Rattle.program_flow.specs.Pieces.{literal};
ghost use Rattle.program_flow.specs.Values.Value.{Number, Letters};
ghost use Rattle.program_flow.specs.Roots.{IsRoot};
ghost use Rattle.program_flow.specs.Variables.{Entry, entry_value};
ghost use Rattle.dmis_text.specs.declared.elements.Statement.{Statement};
ghost use Rattle.program_flow.specs.Numbers.{whole_number};
ghost use Rattle.program_flow.specs.declared.faults.ValueFault.TheVariants as fault;

/// Numbers are in lowest terms: numerator and denominator are divided by their greatest common divisor, and the fraction is the same.
pub fn the_divisor_is_the_greatest()
    ensures greatest { (a b : ℕ) → IsGcd a b (gcd a b) }
    ensures same { (a b : ℕ) → a / gcd a b * b ≡ a * (b / gcd a b) }
{}

/// A table that agrees with looking back gives the values of expressions and texts that looking back gives.
pub fn tables_stand_for_looking_back()
    ensures values { (above : List Statement) (entries : List Entry) (text : List ℕ)
        → Holds above entries → value_of (entry_value entries) text ≡ value_of (value_said above) text }
    ensures texts { (above : List Statement) (entries : List Entry) (text : List ℕ)
        → Holds above entries → expanded (entry_value entries) text ≡ expanded (value_said above) text }
{}

/// A root is not past the true one, and less than 10^-12 below it.
pub fn roots_are_near()
    ensures { (f d : Fraction) → IsBounded f → function_of (codes "SQRT") f ≡ Ok d → IsRoot f d }
{}

/// A function of a number up to its limit has a value.
pub fn functions_have_values()
    ensures roots { (f : Fraction) → IsBounded f → int_lt f.over (pos 0) ≡ false
        → unsigned_abs f.over ≤ f.under * 10 ^ 12 → IsOk (function_of (codes "SQRT") f) }
    ensures sines { (f : Fraction) → IsBounded f → unsigned_abs f.over ≤ f.under * 7
        → IsOk (function_of (codes "SIN") f) }
    ensures cosines { (f : Fraction) → IsBounded f → unsigned_abs f.over ≤ f.under * 7
        → IsOk (function_of (codes "COS") f) }
    ensures radians { (f : Fraction) → unsigned_abs f.over ≤ f.under * 10 ^ 6
        → IsOk (function_of (codes "DTOR") f) }
{}

/// A sine, a cosine and a tangent are within 10^-12 of the true ones.
pub fn sines_and_cosines_are_near()
    ensures sines { (f d : Fraction) → IsBounded f → function_of (codes "SIN") f ≡ Ok d → IsSine f d }
    ensures cosines { (f d : Fraction) → IsBounded f → function_of (codes "COS") f ≡ Ok d → IsCosine f d }
    ensures tangents { (f d : Fraction) → IsBounded f → function_of (codes "TAN") f ≡ Ok d → IsTangent f d }
{}

/// Angles in other units are within 10^-12 of the true ones.
pub fn angles_in_other_units_are_near()
    ensures radians { (f d : Fraction) → IsBounded f → function_of (codes "DTOR") f ≡ Ok d → IsInRadians f d }
    ensures degrees { (f d : Fraction) → IsBounded f → function_of (codes "RTOD") f ≡ Ok d → IsInDegrees f d }
{}

/// Numerals are exact.
#[tactic(auto, unfolding(crate::specs::Values::value_within, crate::specs::Values::numeral_value, crate::specs::Parts::parts_of, crate::specs::Numbers::reduced, crate::specs::Numbers::gcd_within, crate::specs::Numbers::multiplied))]
pub fn numerals_are_exact()
    ensures decimals { Gives (codes "2.50") (pos 5) 2 }
    ensures lowered { Gives (codes "1.5E-3") (pos 3) 2000 }
    ensures raised { Gives (codes ".5E+1") (pos 5) 1 }
    ensures blanks { Gives (codes " 12. ") (pos 12) 1 }
    ensures two { Fails (codes "1 2") fault.NotExpression }
    ensures point { Fails (codes ".") fault.NotExpression }
    ensures mark { Fails (codes "1E") fault.NotExpression }
{}

/// Products before sums, a sign before both, powers first, and each from left to right; names and functions.
#[tactic(auto, unfolding(crate::specs::Values::value_within, crate::specs::Values::numeral_value, crate::specs::Parts::parts_of, crate::specs::Numbers::reduced, crate::specs::Numbers::gcd_within, crate::specs::Numbers::multiplied))]
pub fn expressions_have_values()
    ensures products { Gives (codes "1+2*3") (pos 7) 1 }
    ensures sums { Gives (codes "10-3-2") (pos 5) 1 }
    ensures quotients { Gives (codes "2/4/5") (pos 1) 10 }
    ensures powers { Gives (codes "2**3**2") (pos 64) 1 }
    ensures before { Gives (codes "2*3**2") (pos 18) 1 }
    ensures inverse { Gives (codes "2**-1") (pos 1) 2 }
    ensures parentheses { Gives (codes "(1+2)*3") (pos 9) 1 }
    ensures thirds { Gives (codes "1/3+1/6") (pos 1) 2 }
    ensures after_operator { Gives (codes "2*-3") (negsuc 5) 1 }
    ensures twice { Gives (codes "2--3") (pos 5) 1 }
    ensures opposite { Gives (codes "-2**2") (negsuc 3) 1 }
    ensures plus { Gives (codes "+A") (pos 7) 1 }
    ensures numeral { Gives (codes "1E1-3") (pos 7) 1 }
    ensures name { Gives (codes "A+1") (pos 8) 1 }
    ensures unknown { Fails (codes "C+1") fault.UnknownName }
    ensures unassigned { Fails (codes "B") fault.NotAssigned }
    ensures magnitude { Gives (codes "ABS(2-A)") (pos 5) 1 }
    ensures towards_zero { Gives (codes "INT(2.7)") (pos 2) 1 }
    ensures from_below { Gives (codes "INT(-2.7)") (negsuc 1) 1 }
    ensures no_function { Fails (codes "LOG(A)") fault.UnknownFunction }
{}

/// Roots are decimals of twelve places, not past the true root.
#[tactic(auto, unfolding(crate::specs::Values::value_within, crate::specs::Values::numeral_value, crate::specs::Parts::parts_of, crate::specs::Numbers::reduced, crate::specs::Numbers::gcd_within, crate::specs::Numbers::multiplied, crate::specs::Roots::root, crate::specs::Roots::root_within))]
pub fn roots_are_decimals()
    ensures two { Gives (codes "SQRT(2)") (pos 1414213562373) 1000000000000 }
    ensures exact { Gives (codes "SQRT(2.25)") (pos 3) 2 }
    ensures zero { Gives (codes "SQRT(A-7)") (pos 0) 1 }
    ensures third { Gives (codes "SQRT(1/3)") (pos 577350269189) 1000000000000 }
    ensures greatest { Gives (codes "SQRT(1E12)") (pos 1000000) 1 }
    ensures past { Fails (codes "SQRT(1E12+1)") fault.PastBound }
    ensures below_zero { Fails (codes "SQRT(-A)") fault.NegativeRoot }
    ensures lower_case { Fails (codes "sqrt(A)") fault.UnknownFunction }
{}

/// Sines, cosines and tangents are of radians; these, and angles in other units, are decimals of twelve places.
#[tactic(auto, unfolding(crate::specs::Values::value_within, crate::specs::Values::numeral_value, crate::specs::Parts::parts_of, crate::specs::Numbers::reduced, crate::specs::Numbers::gcd_within, crate::specs::Numbers::multiplied, crate::specs::Angles::sine, crate::specs::Angles::cosine, crate::specs::Angles::tangent, crate::specs::Angles::in_radians, crate::specs::Angles::in_degrees, crate::specs::Angles::series))]
pub fn angles_are_decimals()
    ensures zero_sine { Gives (codes "SIN(0)") (pos 0) 1 }
    ensures sine { Gives (codes "SIN(1)") (pos 105183873101) 125000000000 }
    ensures opposite_sine { Gives (codes "SIN(-1)") (negsuc 105183873100) 125000000000 }
    ensures turned_sine { Gives (codes "SIN(-4)") (pos 189200623827) 250000000000 }
    ensures greatest { Gives (codes "SIN(A)") (pos 656986598719) 1000000000000 }
    ensures zero_cosine { Gives (codes "COS(0)") (pos 1) 1 }
    ensures cosine { Gives (codes "COS(1)") (pos 135075576467) 250000000000 }
    ensures even { Gives (codes "COS(-1)") (pos 135075576467) 250000000000 }
    ensures below_zero { Gives (codes "COS(2)") (negsuc 416146836546) 1000000000000 }
    ensures third { Gives (codes "COS(1/3)") (pos 188991389263) 200000000000 }
    ensures radians { Gives (codes "DTOR(30)") (pos 261799387799) 500000000000 }
    ensures opposite_radians { Gives (codes "DTOR(-90)") (negsuc 314159265358) 200000000000 }
    ensures turn { Gives (codes "DTOR(360)") (pos 314159265359) 50000000000 }
    ensures most_radians { Gives (codes "DTOR(1E6)") (pos 136353847812057) 7812500000 }
    ensures degrees { Gives (codes "RTOD(1)") (pos 28647889756541) 500000000000 }
    ensures opposite_degrees { Gives (codes "RTOD(-1/3)") (negsuc 19098593171026) 1000000000000 }
    ensures half { Gives (codes "SIN(DTOR(30))") (pos 1) 2 }
    ensures minus_half { Gives (codes "SIN(-DTOR(30))") (negsuc 0) 2 }
    ensures right { Gives (codes "COS(DTOR(90))") (pos 0) 1 }
    ensures straight { Gives (codes "COS(DTOR(180))") (negsuc 0) 1 }
    ensures whole_turn { Gives (codes "SIN(DTOR(360))") (pos 0) 1 }
    ensures eighth { Gives (codes "COS(DTOR(45))") (pos 707106781187) 1000000000000 }
    ensures zero_tangent { Gives (codes "TAN(0)") (pos 0) 1 }
    ensures tangent { Gives (codes "TAN(1)") (pos 311481544931) 200000000000 }
    ensures opposite_tangent { Gives (codes "TAN(-1)") (negsuc 311481544930) 200000000000 }
    ensures second_quarter { Gives (codes "TAN(2)") (negsuc 1092519931630) 500000000000 }
    ensures third_quarter { Gives (codes "TAN(4)") (pos 23156425647) 20000000000 }
    ensures opposite_quarter { Gives (codes "TAN(-4)") (negsuc 23156425646) 20000000000 }
    ensures greatest_tangent { Gives (codes "TAN(A)") (pos 217861995681) 250000000000 }
    ensures thirty { Gives (codes "TAN(DTOR(30))") (pos 577350269189) 1000000000000 }
    ensures steepest { Gives (codes "TAN(1.4192)") (pos 3272928099699) 500000000000 }
    ensures too_steep { Fails (codes "TAN(1.4193)") fault.PastBound }
    ensures right_tangent { Fails (codes "TAN(DTOR(90))") fault.PastBound }
    ensures past_tangent { Fails (codes "TAN(-7.001)") fault.PastBound }
    ensures past_sine { Fails (codes "SIN(-7.001)") fault.PastBound }
    ensures past_cosine { Fails (codes "COS(A+.001)") fault.PastBound }
    ensures past_radians { Fails (codes "DTOR(1E6+1)") fault.PastBound }
    ensures past_degrees { Fails (codes "RTOD(-1E6-1)") fault.PastBound }
    ensures past_places { Fails (codes "RTOD(1E6)") fault.PastBound }
{}

/// Products are rounded to the nearest millionth, also where the exact one is past the bound.
#[tactic(auto, unfolding(crate::specs::Numbers::reduced, crate::specs::Numbers::gcd_within, crate::specs::Numbers::nearest_millionth))]
pub fn products_are_rounded()
    ensures third { rounded_product (record { over = negsuc 0; under = 3 }) (whole_number (pos 2))
        ≡ Ok (record { over = negsuc 666666; under = 1000000 }) }
    ensures half { rounded_product (record { over = negsuc 0; under = 2000000 })
        (whole_number (negsuc 0)) ≡ Ok (record { over = pos 1; under = 1000000 }) }
    ensures wide { rounded_product (record { over = pos 123456789; under = 1000 })
        (record { over = pos 707106781187; under = 1000000000000 })
        ≡ Ok (record { over = pos 17459426537; under = 200000 }) }
    ensures most { rounded_product (whole_number (pos 10000000000000000))
        (record { over = pos 10000000000000000; under = 1000000000000000000 })
        ≡ Ok (whole_number (pos 100000000000000)) }
    ensures past { rounded_product (whole_number (pos 10000000000000000))
        (record { over = pos 10000000000000001; under = 1000000000000000000 })
        ≡ Err fault.PastBound }
{}

/// What has no value, and why.
#[tactic(auto, unfolding(crate::specs::Values::value_within, crate::specs::Values::numeral_value, crate::specs::Parts::parts_of, crate::specs::Numbers::reduced, crate::specs::Numbers::gcd_within, crate::specs::Numbers::multiplied))]
pub fn faults_are_named()
    ensures empty { Fails (codes "") fault.NotExpression }
    ensures operand { Fails (codes "2*") fault.NotExpression }
    ensures open { Fails (codes "(1+2") fault.NotExpression }
    ensures twice { Fails (codes "(1)(2)") fault.NotExpression }
    ensures zero { Fails (codes "1/(A-7)") fault.DivisionByZero }
    ensures first { Fails (codes "1/0+C") fault.DivisionByZero }
    ensures past { Fails (codes "10**19") fault.PastBound }
    ensures within { Gives (codes "10**18") (pos 1000000000000000000) 1 }
    ensures small { Fails (codes ".1E-18") fault.PastBound }
    ensures exponent { Fails (codes "4**.5") fault.BadExponent }
    ensures great { Fails (codes "1**65") fault.BadExponent }
    ensures letters { Fails (codes "T+1") fault.NotNumber }
    ensures literal { Fails (codes "'1'") fault.NotExpression }
{}

/// Variables have the value of the last assignment before; one of whole numbers drops the decimals.
#[tactic(auto, unfolding(crate::specs::Values::value_within, crate::specs::Values::numeral_value, crate::specs::Parts::parts_of, crate::specs::Numbers::reduced, crate::specs::Numbers::gcd_within, crate::specs::Numbers::multiplied))]
pub fn assignments_are_looked_back_for()
    ensures cut { value_said (assigning (codes "N") (codes "2.7") ∷ start) (codes "N")
        ≡ Ok (Number (whole_number (pos 2))) }
    ensures from_below { value_said (assigning (codes "N") (codes "-2.7") ∷ start) (codes "N")
        ≡ Ok (Number (whole_number (negsuc 1))) }
    ensures kept { value_said (assigning (codes "X") (codes "2.5") ∷ start) (codes "X")
        ≡ Ok (Number (record { over = pos 5; under = 2 })) }
    ensures others { value_said (assigning (codes "X") (codes "1") ∷ start) (codes "N")
        ≡ Err fault.NotAssigned }
    ensures before { value_said (assigning (codes "N") (codes "N*2")
        ∷ (assigning (codes "N") (codes "4") ∷ start)) (codes "N") ≡ Ok (Number (whole_number (pos 8))) }
    ensures anew { value_said (declaring (codes "INTGR") (codes "N")
        ∷ (assigning (codes "N") (codes "4") ∷ start)) (codes "N") ≡ Err fault.NotAssigned }
    ensures unknown { value_said start (codes "Y") ≡ Err fault.UnknownName }
    ensures texts { value_said (declaring (codes "CHAR") (codes "Y") ∷ start) (codes "Y")
        ≡ Err fault.UnknownName }
    ensures undeclared { refusal start (assigning (codes "Y") (codes "1")) ≡ Some fault.UnknownName }
    ensures unassigned { refusal start (assigning (codes "N") (codes "X"))
        ≡ Some fault.NotAssigned }
    ensures zero { refusal start (assigning (codes "N") (codes "1/0"))
        ≡ Some fault.DivisionByZero }
    ensures fine { refusal start (assigning (codes "N") (codes "1")) ≡ None }
{}

/// Variables of letters take literals, others, and `CONCAT(` of both; one of numbers takes neither.
#[tactic(auto, unfolding(crate::specs::Values::value_within, crate::specs::Values::numeral_value, crate::specs::Parts::parts_of, crate::specs::Numbers::reduced, crate::specs::Numbers::gcd_within, crate::specs::Numbers::multiplied))]
pub fn letters_are_assigned()
    ensures literal { Says (codes "'a ''b'" ∷ []) (codes "a 'b") }
    ensures empty { Says (codes "''" ∷ []) [] }
    ensures apostrophes { Says (codes "''''''" ∷ []) (codes "''") }
    ensures variable { Says (codes " S " ∷ []) (codes "b'c") }
    ensures joined { Says (codes "CONCAT('a'" ∷ (codes "S" ∷ (codes "'' )" ∷ [])))
        (codes "ab'c") }
    ensures one { Says (codes "CONCAT(S)" ∷ []) (codes "b'c") }
    ensures most { Says (codes "'abcde'" ∷ []) (codes "abcde") }
    ensures past { Refuses (codes "'abcdef'" ∷ []) fault.PastBound }
    ensures joined_past { Refuses (codes "CONCAT(S" ∷ (codes "S)" ∷ [])) fault.PastBound }
    ensures open { Refuses (codes "'a" ∷ []) fault.NotLetters }
    ensures closed { Refuses (codes "a'" ∷ []) fault.NotLetters }
    ensures apostrophe { Refuses (codes "'" ∷ []) fault.NotLetters }
    ensures single { Refuses (codes "'a'b'" ∷ []) fault.NotLetters }
    ensures last { Refuses (codes "'a''" ∷ []) fault.NotLetters }
    ensures number { Refuses (codes "1" ∷ []) fault.NotLetters }
    ensures none { Refuses [] fault.NotLetters }
    ensures two { Refuses (codes "'a'" ∷ (codes "'b'" ∷ [])) fault.NotLetters }
    ensures unclosed { Refuses (codes "CONCAT('a'" ∷ (codes "S" ∷ [])) fault.NotLetters }
    ensures nothing { Refuses (codes "CONCAT()" ∷ []) fault.NotLetters }
    ensures within { Refuses (codes "CONCAT(S)" ∷ (codes "S)" ∷ [])) fault.NotLetters }
    ensures unknown { Refuses (codes "Y" ∷ []) fault.UnknownName }
    ensures unassigned { Refuses (codes "CONCAT(S" ∷ (codes "T)" ∷ [])) fault.NotAssigned }
    ensures first { Refuses (codes "CONCAT(T" ∷ (codes "Y)" ∷ [])) fault.NotAssigned }
    ensures of_a_number { refusal (assigning (codes "X") (codes "1") ∷ lettered)
        (assigning (codes "T") (codes "X")) ≡ Some fault.NotLetters }
    ensures to_a_number { refusal lettered (assigning (codes "X") (codes "S"))
        ≡ Some fault.NotNumber }
    ensures literal_to_a_number { refusal lettered (assigning (codes "X") (codes "'1'"))
        ≡ Some fault.NotExpression }
    ensures anew { value_said (declaring (codes "REAL") (codes "S") ∷ lettered) (codes "S")
        ≡ Err fault.NotAssigned }
    ensures not_anew { value_said (declaring_letters (codes "0") (codes "S") ∷ lettered)
        (codes "S") ≡ Ok (Letters (codes "b'c")) }
    ensures long { value_said (assigning (codes "L") (codes "2.7")
        ∷ (declaring (codes "LONG") (codes "L") ∷ [])) (codes "L")
        ≡ Ok (Number (whole_number (pos 2))) }
    ensures double { value_said (assigning (codes "L") (codes "2.5")
        ∷ (declaring (codes "DOUBL") (codes "L") ∷ [])) (codes "L")
        ≡ Ok (Number (record { over = pos 5; under = 2 })) }
{}

/// Letters that are written as a literal are read back.
pub fn literals_read_back()
    ensures { (text : List ℕ) → literal (literal_of text) ≡ Ok text }
{}

/// Values are written as numerals: whole ones without a point, others to the nearest millionth; letters as literals.
#[tactic(auto, unfolding(fixed_um::specs::Written::written_component))]
pub fn values_are_written()
    ensures whole { numeral (whole_number (negsuc 4)) ≡ codes "-" ++ decimal 5 }
    ensures half { numeral (record { over = pos 5; under = 2 }) ≡ decimal 2 ++ codes ".500000" }
    ensures third { numeral (record { over = negsuc 1; under = 3 })
        ≡ codes "-" ++ (decimal 0 ++ codes ".666667") }
    ensures away { numeral (record { over = negsuc 0; under = 2000000 })
        ≡ codes "-" ++ (decimal 0 ++ codes ".000001") }
    ensures zero { numeral (record { over = negsuc 0; under = 3000000 })
        ≡ decimal 0 ++ codes ".000000" }
    ensures number { written (Number (whole_number (pos 4))) ≡ decimal 4 }
    ensures letters { written (Letters (codes "it's")) ≡ codes "'it''s'" }
{}

/// A value takes the place of an expression; a numeral stays as it is, and what has no value.
#[tactic(auto, unfolding(crate::specs::Values::value_within, crate::specs::Values::numeral_value, crate::specs::Parts::parts_of, crate::specs::Numbers::reduced, crate::specs::Numbers::gcd_within, crate::specs::Numbers::multiplied))]
pub fn values_take_the_place_of_expressions()
    ensures sum { computed a_is_seven (codes "A+1") ≡ decimal 8 }
    ensures name { computed a_is_seven (codes "A") ≡ decimal 7 }
    ensures opposite { computed a_is_seven (codes "-A") ≡ codes "-" ++ decimal 7 }
    ensures twice { computed a_is_seven (codes "--5") ≡ decimal 5 }
    ensures numeral { computed a_is_seven (codes "1E1") ≡ codes "1E1" }
    ensures signed { computed a_is_seven (codes "-5") ≡ codes "-5" }
    ensures plus { computed a_is_seven (codes "+5") ≡ codes "+5" }
    ensures label { computed a_is_seven (codes "F(A)") ≡ codes "F(A)" }
    ensures unassigned { computed a_is_seven (codes "B") ≡ codes "B" }
    ensures name_of_letters { computed a_is_seven (codes "T") ≡ codes "T" }
    ensures real { is_declaration (declaring (codes "REAL") (codes "X")) ≡ true }
    ensures whole { is_declaration (declaring (codes "INTGR") (codes "X")) ≡ true }
    ensures long { is_declaration (declaring (codes "LONG") (codes "X")) ≡ true }
    ensures double { is_declaration (declaring (codes "DOUBL") (codes "X")) ≡ true }
    ensures other { is_declaration (declaring (codes "BOOL") (codes "X")) ≡ false }
    ensures letters { is_declaration (declaring_letters (codes "1") (codes "X")) ≡ true }
    ensures most { is_declaration (declaring_letters (codes "4000") (codes "X")) ≡ true }
    ensures past { is_declaration (declaring_letters (codes "4001") (codes "X")) ≡ false }
    ensures no_letters { is_declaration (declaring_letters (codes "0") (codes "X")) ≡ false }
    ensures no_count { is_declaration (declaring (codes "CHAR") (codes "X")) ≡ false }
    ensures labelled { is_declaration (record (declaring (codes "REAL") (codes "X"))
        { label = Some (codes "X") }) ≡ false }
{}

/// A name after an `@` stands for its value.
#[tactic(auto, unfolding(crate::specs::Texts::expanded_within, crate::specs::Values::value_within, crate::specs::Values::numeral_value, crate::specs::Parts::parts_of, crate::specs::Numbers::reduced, crate::specs::Numbers::gcd_within, crate::specs::Numbers::multiplied))]
pub fn names_in_texts_have_values()
    ensures name { expanded a_is_seven (codes "F(P@A)")
        ≡ Ok (codes "F(P" ++ (decimal 7 ++ codes ")")) }
    ensures twice { expanded a_is_seven (codes "@A,@A.5")
        ≡ Ok (decimal 7 ++ (codes "," ++ (decimal 7 ++ codes ".5"))) }
    ensures none { expanded a_is_seven (codes "F(A)") ≡ Ok (codes "F(A)") }
    ensures unknown { expanded a_is_seven (codes "P@AB") ≡ Err fault.UnknownName }
    ensures unassigned { expanded a_is_seven (codes "P@B") ≡ Err fault.NotAssigned }
    ensures empty { expanded a_is_seven (codes "P@") ≡ Err fault.UnknownName }
    ensures fraction { expanded (λ name. Ok (Number (record { over = pos 5; under = 2 }))) (codes "@A")
        ≡ Err fault.NotWhole }
    ensures negative { expanded (λ name. Ok (Number (whole_number (negsuc 4)))) (codes "@A")
        ≡ Ok (codes "-" ++ decimal 5) }
    ensures letters { expanded a_is_seven (codes "P@T.") ≡ Ok (codes "Pit's.") }
    ensures once { expanded (λ name. Ok (Letters (codes "@A"))) (codes "@B-@C")
        ≡ Ok (codes "@A-@A") }
{}
