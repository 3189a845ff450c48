// Lines of fields, as the texts of a setup and of a schedule have them.

ghost use Rattle.std.specs.Prelude.{◌≡◌, ◌≢◌, ℕ, ◌∷◌, [], ◌≤◌, ◌==◌, not, List, length, None, MatchOption, IfSome};
ghost use Rattle.tool_rack.specs.Names.{prefix_len, fields_of, is_dropped, has_outer_space, is_word};

/// Whether a line says nothing: it is empty, or begins with `#`. Does not allocate.
pub fn is_dropped(line: &[u8]) -> bool
    ensures { result ≡ is_dropped line.now }
{
    match line {
        [] => true,
        [first, ..] => *first == b'#',
    }
}

/// Whether a space is at the start of a line or at its end; such a line is refused by every text of lines with fields. Does
/// not allocate.
pub fn has_outer_space(line: &[u8]) -> bool
    ensures { result ≡ has_outer_space line.now }
{
    match line {
        [b' ', ..] => true,
        [.., b' '] => true,
        _ => false,
    }
}

/// Whether a field is this word, its letters in any case. Does not allocate.
pub fn is_word(name: &[u8], field: &[u8]) -> bool
    ensures { result ≡ is_word name.now field.now }
{
    field.eq_ignore_ascii_case(name)
}

#[tactic(auto, using(crate::proofs::FieldCuts::passes))]
fn skip_spaces(bytes: &[u8]) -> &[u8]
    ensures same { fields_of result.now ≡ fields_of bytes.now }
    ensures front { (c : ℕ) (more : List ℕ) → result.now ≡ c ∷ more → c ≢ 32 }
{
    let mut left = bytes;
    while let Some((first, rest)) = left.split_first() {
        if *first != b' ' {
            return left;
        }
        left = rest;
    }
    left
}

/// How many bytes precede the first space.
fn field_len(bytes: &[u8]) -> usize
    ensures { (result ≡ prefix_len (λ b. not (b == 32)) bytes.now) × (result ≤ length bytes.now) }
{
    bytes.iter().take_while(|byte| **byte != b' ').count()
}

/// The first field, and the bytes after it; `None` if there is no field. Fields are separated by one or more spaces. Does not allocate.
#[tactic(auto, using(crate::proofs::FieldCuts::cuts))]
pub fn cut_field(bytes: &[u8]) -> Option<(&[u8], &[u8])>
    ensures { MatchOption result (fields_of bytes.now ≡ [])
        (λ p. fields_of bytes.now ≡ p.0.now ∷ fields_of p.1.now) }
{
    let text = skip_spaces(bytes);
    if text.is_empty() {
        return None;
    }
    Some(text.split_at(field_len(text)))
}

/// The one field; `None` if there are more, or none at all. Does not allocate.
pub fn one_field(bytes: &[u8]) -> Option<&[u8]>
    ensures one { IfSome result (λ x. fields_of bytes.now ≡ x.now ∷ []) }
    ensures other { result ≡ None → (x : List ℕ) → fields_of bytes.now ≢ x ∷ [] }
{
    let (field, rest) = cut_field(bytes)?;
    match cut_field(rest) {
        Some(_) => None,
        None => Some(field),
    }
}

/// The three fields; `None` if there are more or fewer. Does not allocate.
pub fn three_fields(bytes: &[u8]) -> Option<(&[u8], &[u8], &[u8])>
    ensures three { IfSome result (λ p. fields_of bytes.now ≡ p.0.now ∷ p.1.now ∷ p.2.now ∷ []) }
    ensures other { result ≡ None → (x y z : List ℕ) → fields_of bytes.now ≢ x ∷ y ∷ z ∷ [] }
{
    let (first, rest) = cut_field(bytes)?;
    let (second, rest) = cut_field(rest)?;
    let third = one_field(rest)?;
    Some((first, second, third))
}
