// Texts of HTML (WHATWG HTML).

ghost use Rattle.std.specs.Prelude.{◌≡◌, ◌++◌, ℕ, List, decimal, true, OnOk};
ghost use Rattle.drawings.specs.Names.{list_all, between, cell, escaped, is_plain};

use crate::texts::{put_escaped, put_markup, put_number};
use std::alloc::AllocError;

/// Appends a text between two pieces of markup.
#[tactic(auto, unfolding(crate::specs::Markup::between))]
pub fn put_between(
    out: &mut Vec<u8>,
    before: &[u8],
    text: &[u8],
    after: &[u8],
) -> Result<(), AllocError>
    ensures { OnOk result (out.new.items ≡ out.old.items ++ between before.now text.now after.now) }
{
    put_markup(out, before)?;
    put_escaped(out, text)?;
    put_markup(out, after)
}

/// Appends a count.
pub fn put_count(out: &mut Vec<u8>, count: usize) -> Result<(), AllocError>
    ensures { OnOk result (out.new.items ≡ out.old.items ++ decimal count) }
{
    put_number(out, count as u64)
}

/// Appends a cell of a table.
pub fn put_cell(out: &mut Vec<u8>, text: &[u8]) -> Result<(), AllocError>
    ensures { OnOk result (out.new.items ≡ out.old.items ++ cell text.now) }
{
    put_between(out, b"<td>", text, b"</td>")
}

/// No text that is escaped begins or ends a tag or an attribute.
pub fn escaped_texts_are_plain()
    ensures { (text : List ℕ) → list_all is_plain (escaped text) ≡ true }
{}
