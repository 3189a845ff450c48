// What the words and parameters of a statement are.

ghost use Rattle.std.specs.Prelude.{◌≡◌, bytes_eq};
ghost use Rattle.std.specs.List.{list_any};
ghost use Rattle.dmis_program.specs.Parameters.{without_cart};
ghost use Rattle.program_lowering.specs.Texts as spec;

use dmis_text::{Statement, Text};
use program_flow::is_text;

/// Whether a text is one of these.
pub fn is_among(text: &[u8], others: &[&str]) -> bool
    ensures { result ≡ list_any (λ other. bytes_eq text.now other.now) others.now }
{
    others.iter().any(|other| is_text(text, other))
}

/// Whether the first of these is this text.
pub fn begins_with(other: &str, params: &[Text]) -> bool
    ensures { result ≡ spec.begins_with other.now params.now }
{
    params.first().is_some_and(|first| is_text(first, other))
}

/// The parameters after a first `CART`.
pub fn without_cart<'p, 'a>(params: &'p [Text<'a>]) -> &'p [Text<'a>]
    ensures { result.now ≡ without_cart params.now }
{
    match params {
        [first, rest @ ..] if is_text(first, "CART") => rest,
        _ => params,
    }
}

/// Whether a statement is a text for the operator.
pub fn is_operator_text(statement: &Statement) -> bool
    ensures { result ≡ spec.is_operator_text statement.now }
{
    statement.label.is_none()
        && !statement.is_open()
        && is_text(&statement.word, "TEXT")
        && (begins_with("OPER", &statement.params) || begins_with("MAN", &statement.params))
}
