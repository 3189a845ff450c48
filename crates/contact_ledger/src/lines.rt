// The lines of a text and the fields of a line.

ghost use Rattle.std.specs.Prelude.{◌≡◌, ◌<◌, ◌∷◌, ◌==◌, [], length, MatchOption, IfSome};
ghost use Rattle.contact_ledger.specs.Names.{position, whole_lines, fields_of, fields_behind};

fn place_of(bytes: &[u8], mark: u8) -> Option<usize>
    ensures place { result ≡ position (λ b. b == mark) bytes.now }
    ensures within { IfSome result (λ at. at < length bytes.now) }
{
    bytes.iter().position(|byte| *byte == mark)
}

/// The first line without its LF, and the bytes after that LF; `None` if there is no LF.
#[tactic(auto, using(crate::proofs::LineCuts::line_cuts))]
pub fn cut_line(bytes: &[u8]) -> Option<(&[u8], &[u8])>
    ensures cut { MatchOption result (whole_lines bytes.now ≡ [])
        (λ p. whole_lines bytes.now ≡ p.0.now ∷ whole_lines p.1.now) }
    ensures shorter { IfSome result (λ p. length p.1.now < length bytes.now) }
{
    let at = place_of(bytes, b'\n')?;
    let (line, _) = bytes.split_at(at);
    let (_, after) = bytes.split_at(at + 1);
    Some((line, after))
}

/// The first field, and what follows it: nothing, or a space and the other fields.
#[tactic(auto, using(crate::proofs::LineCuts::field_cuts))]
pub fn first_field(bytes: &[u8]) -> (&[u8], &[u8])
    ensures { fields_of bytes.now ≡ result.0.now ∷ fields_behind result.1.now }
{
    match place_of(bytes, b' ') {
        Some(at) => bytes.split_at(at),
        None => bytes.split_at(bytes.len()),
    }
}

/// The field after the first space, and what follows it; `None` if there is no space.
#[tactic(auto, using(crate::proofs::LineCuts::field_cuts))]
pub fn next_field(rest: &[u8]) -> Option<(&[u8], &[u8])>
    ensures { MatchOption result (fields_behind rest.now ≡ [])
        (λ p. fields_behind rest.now ≡ p.0.now ∷ fields_behind p.1.now) }
{
    let at = place_of(rest, b' ')?;
    let (_, after) = rest.split_at(at + 1);
    Some(first_field(after))
}
