//! Literal rows: how tables are written besides their rows. Each function has rows for its contract and does nothing.
ghost use Rattle.std.specs.Prelude.{◌≡◌, ◌∷◌, [], codes, Some, None};
ghost use Rattle.fixed_um.specs.Points.{zero_point};
ghost use Rattle.deviations.specs.Styles.{of_fields, of_header, separator_byte, styled};
ghost use Rattle.deviations.specs.declared.styles.DecimalSign.TheVariants as sign;
ghost use Rattle.deviations.specs.declared.styles.Separator.TheVariants.{Comma, Semicolon, Tab};

/// What stands between fields, and before decimals.
pub fn sign_rows()
    ensures comma { separator_byte Comma ≡ 44 }
    ensures semicolon { separator_byte Semicolon ≡ 59 }
    ensures tab { separator_byte Tab ≡ 9 }
    ensures changed { styled sign.Comma (codes "-0.021" ∷ codes "1.000" ∷ [])
        ≡ codes "-0,021" ∷ codes "1,000" ∷ [] }
    ensures kept { styled sign.Point (codes "-0.021" ∷ []) ≡ codes "-0.021" ∷ [] }
{}

/// What a row says first: its part, its program, and whether its point is missing.
pub fn first_rows()
    ensures missing { of_fields (Some (record { part = codes "7"; program = codes "p.dmis" })) None
        ≡ codes "7" ∷ codes "p.dmis" ∷ codes "yes" ∷ [] }
    ensures measured { of_fields (Some (record { part = codes "7"; program = codes "p.dmis" }))
        (Some zero_point) ≡ codes "7" ∷ codes "p.dmis" ∷ codes "no" ∷ [] }
    ensures nothing { of_fields None None ≡ [] }
    ensures named { of_header (Some (record { part = []; program = [] }))
        ≡ codes "part" ∷ codes "program" ∷ codes "missing" ∷ [] }
    ensures unnamed { of_header None ≡ [] }
{}
