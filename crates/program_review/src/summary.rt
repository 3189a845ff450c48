// What the refused statements of a program are for, in groups, and what deleting them would change.

ghost use Rattle.std.specs.Prelude.{◌≡◌, ◌++◌, ◌∷◌, [], OnOk};
ghost use Rattle.program_review.specs.Findings.{remarks_in, summed};
ghost use Rattle.program_review.specs.Summary.{number_of, is_of, is_taken, count_taken, has_lines, lowered_in, summary_of};

use crate::groups::Group;
use crate::remarks::{Finding, Remark, What};
use crate::taking::{Choice, Taken};
use crate::travels::Stray;
use dmis_program::Refusal;
use std::alloc::{AllocError, Global};

/// The most numbers of lines that a group shows.
const MOST_LINES: u64 = 20;

fn touches_text(alloc: Global, count: usize) -> Result<String, AllocError> {
    if count == 1 {
        String::from_str(alloc, "1 touch")
    } else {
        format!(in alloc; "{count} touches")
    }
}

/// How many touches would be measured there.
fn strays_in(strays: &[Stray], place: Stray) -> usize {
    strays.iter().filter(|stray| **stray == place).count()
}

/// What deleting the lines that set coordinates would change.
fn strays_text(alloc: Global, strays: &[Stray]) -> Result<String, AllocError> {
    let machine = strays_in(strays, Stray::Machine);
    let stored = strays_in(strays, Stray::Stored);
    let in_machine = touches_text(alloc, machine)?;
    let in_stored = touches_text(alloc, stored)?;
    match (machine > 0, stored > 0) {
        (true, true) => format!(in alloc;
            "if deleted, {in_machine} would be measured in machine coordinates, and {in_stored} in those of the frame that is recalled above."
        ),
        (true, false) => {
            format!(in alloc; "if deleted, {in_machine} would be measured in machine coordinates.")
        }
        (false, true) => format!(in alloc;
            "if deleted, {in_stored} would be measured in the coordinates of the frame that is recalled above."
        ),
        (false, false) => format!(in alloc; "if deleted, what is measured stays the same."),
    }
}

/// What deleting the lines that leave touches to the operator would change.
fn hand_text(alloc: Global, strays: &[Stray]) -> Result<String, AllocError> {
    let mut lines = Vec::new(alloc);
    for stray in strays {
        if let Stray::ByHand(line) = stray {
            lines.push(*line)?;
        }
    }
    let touches = touches_text(alloc, lines.len())?;
    let lines = match lines.as_slice() {
        [] => touches,
        [line] => format!(in alloc; "{touches}, at line {line}")?,
        [first, .., last] => format!(in alloc; "{touches}, from line {first} to line {last}")?,
    };
    format!(in alloc;
        "if deleted, or with PROG, the machine drives by itself to {lines}: MAN leaves this to the operator, since the place of the part is not known."
    )
}

fn group_name(group: Group) -> &'static str {
    match group {
        Group::Bookkeeping => "bookkeeping",
        Group::Coordinates => "coordinate systems and alignment",
        Group::ByHand => "manual touches",
        Group::Measuring => "measuring that is not carried out",
        Group::Flow => "control flow",
        Group::Motion => "motion",
        Group::Lengths => "what lengths mean",
        Group::Mistake => "mistakes",
        Group::Other => "other statements",
    }
}

/// Whether only the `ENDMES` of a block whose touches are too few is refused.
fn lacks_points(found: &[Remark]) -> bool {
    found.iter().any(|one| matches!(one.what, What::Refused(Refusal::TooFewPoints, _, _)))
}

/// What deleting the lines of a group would change.
fn consequence(
    alloc: Global,
    group: Group,
    found: &[Remark],
    strays: &[Stray],
) -> Result<String, AllocError> {
    let text = match group {
        Group::Coordinates => return strays_text(alloc, strays),
        Group::ByHand => return hand_text(alloc, strays),
        Group::Measuring if lacks_points(found) => {
            "if deleted, what they ask for is not measured; delete an ENDMES together with its MEAS and the touches between."
        }
        Group::Measuring => "if deleted, what they ask for is not measured.",
        Group::Bookkeeping => "if deleted, what is measured stays the same.",
        Group::Flow => {
            "if deleted, each statement is carried out once, in order: what is measured may change, and in which coordinates."
        }
        Group::Motion => {
            "if deleted, what is measured stays the same, but the machine moves otherwise and may collide."
        }
        Group::Lengths => "if deleted, all lengths are taken as millimetres, without compensation.",
        Group::Mistake => "correct them; if deleted, touches or selections may be missing.",
        Group::Other => {
            "find out what they do before you delete them: they may also set a coordinate system."
        }
    };
    String::from_str(alloc, text)
}

fn number_of(group: Group) -> u8
    ensures { result ≡ number_of group }
{
    match group {
        Group::Coordinates => 0,
        Group::Lengths => 1,
        Group::Measuring => 2,
        Group::Flow => 3,
        Group::Motion => 4,
        Group::Mistake => 5,
        Group::Other => 6,
        Group::Bookkeeping => 7,
        Group::ByHand => 8,
    }
}

fn is_of(group: Group, what: What) -> bool
    ensures { result ≡ is_of group what }
{
    matches!(what, What::Refused(_, own, _) if number_of(own) == number_of(group))
}

fn has_lines(found: &[Remark], group: Group) -> bool
    ensures { result ≡ has_lines found.now group }
{
    found.iter().any(|one| is_of(group, one.what))
}

/// How many lines a group has, and their numbers; `..` in place of the first that is too many.
fn lines_text(alloc: Global, found: &[Remark], group: Group) -> Result<String, AllocError> {
    let mut numbers = String::new(alloc);
    let mut count: u64 = 0;
    for one in found {
        if is_of(group, one.what) {
            count = count.saturating_add(1);
            let line = one.line;
            let mark = if count == 1 { "" } else { ", " };
            if count <= MOST_LINES {
                write!(numbers, "{mark}{line}")?;
            }
        }
    }
    let lines = if count == 1 { "line" } else { "lines" };
    let more = if count > MOST_LINES { ", .." } else { "" };
    format!(in alloc; "{count} {lines} ({numbers}{more})")
}

fn add_group(
    findings: &mut Vec<Finding>,
    found: &[Remark],
    group: Group,
    strays: &[Stray],
) -> Result<(), AllocError>
    ensures { OnOk result (remarks_in findings.new.items
        ≡ remarks_in findings.old.items ++ summed group ∷ []) }
{
    let alloc = *findings.allocator();
    let name = group_name(group);
    let lines = lines_text(alloc, found, group)?;
    let change = consequence(alloc, group, found, strays)?;
    let said = format!(in alloc; "{name}: {lines}: {change}")?;
    let what = What::Sum(group);
    let remark = Remark { what, line: 0 };
    findings.push(Finding { remark, said })?;
    Ok(())
}

fn is_taken(what: What) -> bool
    ensures { result ≡ is_taken what }
{
    match what {
        What::Refused(_, _, Taken::No) => false,
        What::Refused(_, _, _) => true,
        _ => false,
    }
}

fn asks_for(what: What, choice: Choice) -> bool {
    matches!(what, What::Refused(_, _, Taken::With(own)) if own == choice)
}

fn count_taken(found: &[Remark]) -> usize
    ensures { result ≡ count_taken found.now }
{
    found.iter().filter(|one| is_taken(one.what)).count()
}

/// The call of `dme lower` with each option that some line asks for.
fn call_text(alloc: Global, found: &[Remark]) -> Result<String, AllocError> {
    let options = [
        (Choice::NoClearing, " --no-clearing"),
        (Choice::Compensated, " --compensated"),
        (Choice::SkipManual, " --skip-manual"),
        (Choice::StoredFrames, " --stored-frames"),
        (Choice::EvenTouches, " --even-touches"),
        (Choice::Value, " --value NAME=TEXT"),
    ];
    let mut call = String::from_str(alloc, "dme lower")?;
    for option in options.as_slice() {
        if found.iter().any(|one| asks_for(one.what, option.0)) {
            call.push_str(option.1)?;
        }
    }
    Ok(call)
}

/// Adds how many of the refused lines `dme lower` takes, if it takes some.
fn add_lowered(findings: &mut Vec<Finding>, found: &[Remark]) -> Result<(), AllocError>
    ensures { OnOk result (remarks_in findings.new.items
        ≡ remarks_in findings.old.items ++ lowered_in found.now) }
{
    let (taken, count) = (count_taken(found), found.len());
    if taken == 0 {
        return Ok(());
    }
    let alloc = *findings.allocator();
    let call = call_text(alloc, found)?;
    let lines = if count == 1 { "line" } else { "lines" };
    let said = format!(in alloc; "{call} takes {taken} of {count} refused {lines}.")?;
    let what = What::Lowered(taken, count);
    let remark = Remark { what, line: 0 };
    findings.push(Finding { remark, said })?;
    Ok(())
}

/// Adds the summary of a program's refusals: how many `dme lower` takes, and a finding for each group that has some.
pub(crate) fn add_summary(
    findings: &mut Vec<Finding>,
    found: &[Remark],
    strays: &[Stray],
) -> Result<(), AllocError>
    ensures { OnOk result (remarks_in findings.new.items
        ≡ remarks_in findings.old.items ++ summary_of found.now) }
{
    add_lowered(findings, found)?;
    let groups = [
        Group::Coordinates,
        Group::ByHand,
        Group::Lengths,
        Group::Measuring,
        Group::Flow,
        Group::Motion,
        Group::Mistake,
        Group::Other,
        Group::Bookkeeping,
    ];
    let mut left = groups.as_slice();
    while let [group, others @ ..] = left {
        if has_lines(found, *group) {
            add_group(findings, found, *group, strays)?;
        }
        left = others;
    }
    Ok(())
}
