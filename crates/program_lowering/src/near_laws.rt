// How near the Cartesian place of a polar point is to the true one. Each function has laws for its contract and does nothing.

ghost use Rattle.std.specs.Prelude.{◌≡◌, ◌≤◌, ◌+◌, ◌*◌, ◌^◌, ◌∷◌, [], ℕ, List, None, Some, neg_ℤ, pos, unsigned_abs};
ghost use Rattle.program_flow.specs.Numbers.{Fraction, whole_number};
ghost use Rattle.program_lowering.specs.Cartesian.{Triple, no_reference, polar, polar_in};
ghost use Rattle.program_lowering.specs.PolarNearness.{IsNearPolar, by_radians, placed_at, turned_by};
ghost use Rattle.program_lowering.specs.declared.cartesian.AngleUnit.TheVariants.{Sexagesimal};
ghost use Rattle.program_lowering.specs.declared.cartesian.Reference.{Reference};

/// The place of a polar point is near to the true one. The height is exact. Each of the other coordinates is within half a millionth, and
/// 10^-12 of the radius, of the radius times the true cosine or sine of a turn: so within 0.6 millionths up to a radius of 100,000, in
/// millimetres a hundred metres. The turn is within 10^-12 of an angle in degrees, with minutes or without, which is 0.1 millionths at that radius,
/// and is an angle in radians itself. The place is then read to the nearest micrometre.
pub fn polar_points_are_near()
    ensures any { (ref : Reference) (r a h : List ℕ) (rest : List (List ℕ)) (t place : Triple)
        → polar_in ref.unit r a h ≡ Some t
        → polar ref (r ∷ (a ∷ (h ∷ rest))) ≡ Some place → IsNearPolar
        (500000 * t.0.under + unsigned_abs t.0.over) (10 ^ 12 * t.0.under) ref t place }
    ensures hundred_metres { (ref : Reference) (r a h : List ℕ) (rest : List (List ℕ))
        (t place : Triple) → polar_in ref.unit r a h ≡ Some t
        → polar ref (r ∷ (a ∷ (h ∷ rest))) ≡ Some place
        → unsigned_abs t.0.over ≤ t.0.under * 10 ^ 5 → IsNearPolar 6 (10 ^ 7) ref t place }
{}

/// Examples: a millionth too far, too near, or aside; with its axes swapped; at another height; with a wrong sign; by radians for degrees.
pub fn other_places_are_not_near()
    ensures past { IsNearPolar 6 (10 ^ 7) by_radians (turned_by 0)
        (placed_at (pos 10000001) (pos 0)) → ⊥ }
    ensures short { IsNearPolar 6 (10 ^ 7) by_radians (turned_by 0)
        (placed_at (pos 9999999) (pos 0)) → ⊥ }
    ensures aside { IsNearPolar 6 (10 ^ 7) by_radians (turned_by 0)
        (placed_at (pos 10000000) (pos 1)) → ⊥ }
    ensures swapped { IsNearPolar 6 (10 ^ 7) by_radians (turned_by 0)
        (placed_at (pos 0) (pos 10000000)) → ⊥ }
    ensures height { IsNearPolar 6 (10 ^ 7) by_radians (turned_by 0)
        (whole_number (pos 10), whole_number (pos 0), whole_number (pos 6)) → ⊥ }
    ensures wrong_sign { IsNearPolar 6 (10 ^ 7) by_radians (turned_by 1)
        (placed_at (pos 5403023) (neg_ℤ (pos 8414710))) → ⊥ }
    ensures degrees { IsNearPolar 6 (10 ^ 7) no_reference (turned_by 1)
        (placed_at (pos 5403023) (pos 8414710)) → ⊥ }
    ensures no_number { (y : Fraction) → IsNearPolar 6 (10 ^ 7) by_radians (turned_by 0)
        (record { over = pos 0; under = 0 }, y, whole_number (pos 5)) → ⊥ }
    ensures no_plane { (place : Triple)
        → IsNearPolar 6 (10 ^ 7) (record by_radians { plane = None }) (turned_by 0) place → ⊥ }
    ensures sexagesimal { IsNearPolar 6 (10 ^ 7) (record no_reference { unit = Sexagesimal })
        (turned_by 1) (placed_at (pos 5403023) (pos 8414710)) → ⊥ }
{}
