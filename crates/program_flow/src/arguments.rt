// The statements of a macro with arguments in the places of its parameters.

ghost use Rattle.std.specs.Prelude.{◌≡◌, ◌++◌, IfOk, OnOk, map};
ghost use Rattle.std.specs.Option.{option_map};
ghost use Rattle.program_flow.specs.Macros as spec;
ghost use Rattle.program_flow.specs.Named.{seen_pair};

use crate::blocks::is_label;
use crate::lines::Line;
use crate::macros::{Pair, replaced};
use dmis_text::{Statement, Text};
use std::alloc::{AllocError, Global};

/// Each parameter with its argument.
pub(crate) fn pairs_of<'b>(
    alloc: Global,
    params: &'b [Text],
    arguments: &'b [Text],
) -> Result<Vec<Pair<'b>>, AllocError>
    ensures { IfOk result (λ pairs. map seen_pair pairs.items
        ≡ spec.pairs_of params.now arguments.now) }
{
    let mut pairs = Vec::new(alloc);
    let mut left = params;
    let mut given = arguments;
    while let [parameter, params @ ..] = left
        && let [argument, arguments @ ..] = given
    {
        pairs.push(Pair {
            parameter,
            argument,
        })?;
        left = params;
        given = arguments;
    }
    Ok(pairs)
}

fn push_label(
    alloc: Global,
    made: &mut Vec<u8>,
    pairs: &[Pair],
    statement: &Statement,
) -> Result<(), AllocError>
    ensures { OnOk result (made.new.items ≡ made.old.items
        ++ spec.label_text (spec.replaced_statement (map seen_pair pairs.now) statement.now).label) }
{
    let Some(label) = &statement.label else {
        return Ok(());
    };
    let text = replaced(alloc, pairs, label)?;
    made.extend_from_slice(&text)?;
    made.extend_from_slice(b"=")
}

fn push_word(
    alloc: Global,
    made: &mut Vec<u8>,
    pairs: &[Pair],
    word: &[u8],
) -> Result<(), AllocError>
    ensures { OnOk result (made.new.items ≡ made.old.items
        ++ spec.replaced_word (map seen_pair pairs.now) word.now) }
{
    if !is_label(word) {
        return made.extend_from_slice(word);
    }
    let text = replaced(alloc, pairs, word)?;
    made.extend_from_slice(&text)
}

fn push_params(
    alloc: Global,
    made: &mut Vec<u8>,
    pairs: &[Pair],
    params: &[Text],
) -> Result<(), AllocError>
    ensures { OnOk result (made.new.items ≡ made.old.items
        ++ spec.params_text (map (spec.replaced (map seen_pair pairs.now)) params.now)) }
{
    let mut mark = b'/';
    let mut left = params;
    while let [first, others @ ..] = left {
        made.push(mark)?;
        let text = replaced(alloc, pairs, first)?;
        made.extend_from_slice(&text)?;
        mark = b',';
        left = others;
    }
    Ok(())
}

/// The text of a statement, with arguments in the places of parameters.
pub(crate) fn text_with_arguments(
    alloc: Global,
    pairs: &[Pair],
    statement: &Statement,
) -> Result<Vec<u8>, AllocError>
    ensures { IfOk result (λ text. text.items
        ≡ spec.statement_text (spec.replaced_statement (map seen_pair pairs.now) statement.now)) }
{
    let mut made = Vec::new(alloc);
    push_label(alloc, &mut made, pairs, statement)?;
    push_word(alloc, &mut made, pairs, &statement.word)?;
    push_params(alloc, &mut made, pairs, &statement.params)?;
    Ok(made)
}

/// The statements of a macro with arguments in the places of its parameters; none, if one is no statement then.
pub(crate) fn lines_with_arguments(
    alloc: Global,
    pairs: &[Pair],
    body: &[Statement],
) -> Result<Option<Vec<Line>>, AllocError>
    ensures { IfOk result (λ lines. option_map (λ ls. ls.items) lines
        ≡ spec.all_with_arguments (map seen_pair pairs.now) body.now) }
{
    let mut lines = Vec::new(alloc);
    let mut left = body;
    while let [first, others @ ..] = left {
        let text = text_with_arguments(alloc, pairs, first)?;
        let Some(line) = Line::new(alloc, first.line, text)? else {
            return Ok(None);
        };
        lines.push(line)?;
        left = others;
    }
    Ok(Some(lines))
}
