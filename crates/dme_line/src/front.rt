// A few bytes at the start of a text.

ghost use Rattle.std.specs.Prelude.{◌≡◌, ◌++◌, ◌∷◌, IfSome};

/// What follows five bytes at the start of a text; `None` if the text begins otherwise.
#[inline(always)]
pub(crate) fn cut_five(text: &[u8], four: [u8; 4], fifth: u8) -> Option<&[u8]>
    ensures { IfSome result (λ rest. text.now ≡ four ++ (fifth ∷ rest.now)) }
{
    let [a, b, c, d, e, rest @ ..] = text else {
        return None;
    };
    let [first, second, third, fourth] = four;
    if *a == first && *b == second && *c == third && *d == fourth && *e == fifth {
        return Some(rest);
    }
    None
}
