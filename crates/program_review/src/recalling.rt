// The stored frames of a setup that a program does not recall.

ghost use Rattle.std.specs.Prelude.{◌≡◌, ◌++◌, IfOk, OnOk};
ghost use Rattle.std.specs.Str.Lines.{lines};
ghost use Rattle.program_review.specs.Findings.{remarks_in};
ghost use Rattle.program_review.specs.UnusedFrames.{names_recalled, stored_on, unused_on, unused_from};

use crate::remarks::{Finding, Remark, What};
use crate::said::Said;
use crate::variables::has_name;
use dmis_program::StatementMeaning;
use dmis_text::cut_line;
use fixed_um::Name;
use std::alloc::{AllocError, Global};
use tool_rack::fields::{cut_field, is_dropped, is_word};

fn recalled_names(alloc: Global, statements: &[Said]) -> Result<Vec<Name>, AllocError>
    ensures { IfOk result (λ names. names.items ≡ names_recalled statements.now) }
{
    let mut names = Vec::new(alloc);
    let mut left = statements;
    while let [said, rest @ ..] = left {
        if said.is_end() {
            break;
        }
        if let Some(StatementMeaning::Recalls(name)) = said.meaning() {
            names.push(name.copy(alloc)?)?;
        }
        left = rest;
    }
    Ok(names)
}

fn stored_frame(alloc: Global, line: &[u8]) -> Result<Option<Name>, AllocError>
    ensures { IfOk result (λ name. name ≡ stored_on line.now) }
{
    if !is_dropped(line)
        && let Some((word, values)) = cut_field(line)
        && let Some((name, _)) = cut_field(values)
        && is_word(b"FRAME", word)
    {
        return Name::new(alloc, name);
    }
    Ok(None)
}

fn push_unused(
    findings: &mut Vec<Finding>,
    names: &[Name],
    line: u64,
    stored: Option<Name>,
) -> Result<(), AllocError>
    ensures { OnOk result (remarks_in findings.new.items
        ≡ remarks_in findings.old.items ++ unused_on names.now line stored) }
{
    if let Some(name) = stored
        && !has_name(names, name.as_bytes())
    {
        let alloc = *findings.allocator();
        let said = format!(in alloc;
            "FRAME {name} is stored, and no RECALL of the program selects it."
        )?;
        let what = What::Unused;
        let remark = Remark { what, line };
        findings.push(Finding { remark, said })?;
    }
    Ok(())
}

/// Adds each line of a setup's text on which a frame is stored that none of these statements recalls, up to `ENDFIL`.
pub(crate) fn add_unused_frames(
    findings: &mut Vec<Finding>,
    setup: &[u8],
    statements: &[Said],
) -> Result<(), AllocError>
    ensures { OnOk result (remarks_in findings.new.items ≡ remarks_in findings.old.items
        ++ unused_from (names_recalled statements.now) 0 (lines setup.now)) }
{
    let alloc = *findings.allocator();
    let names = recalled_names(alloc, statements)?;
    let mut number = 0;
    let mut rest = setup;
    while let Some((line, after)) = cut_line(rest) {
        number += 1;
        let stored = stored_frame(alloc, line)?;
        push_unused(findings, names.as_slice(), number, stored)?;
        rest = after;
    }
    Ok(())
}
