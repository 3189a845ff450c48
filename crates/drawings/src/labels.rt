// The column of the features' names.

ghost use Rattle.std.specs.Prelude.{ℕ, List, ◌≡◌, ◌≤◌, ◌<◌, ◌+◌, ◌-◌, ◌*◌, ◌++◌, length, take, slice_get, IfOk, OnOk};
ghost use Rattle.drawings.specs.Names.{shown_name, Adds, bullet_start, bullet_text, name_text, leader_text, label_text, most_labels, line_for, anchors_from, AreOrdered, AreOnLines, AreHighest, Anchor, DoNotCross, label_at, more_if_any, AreLabels};
ghost use Rattle.drawings.specs.declared.marks.Mark.{Mark};
ghost use Rattle.drawings.specs.declared.views.View.{View};

use crate::marks::Mark;
use crate::peaks::{greatest_peak, put_peak};
use crate::sheet::Position;
use crate::texts::{begin_text, end_text, put_disc, put_escaped, put_line, put_markup, put_number};
use crate::views::{FRAME_RIGHT, View};
use dmis_program::Wanted;
use std::alloc::{AllocError, Global};

/// The lines of names: where the first is, the distance from each to the next, and how many there are at most.
const FIRST_LINE: u64 = 26_000;

const PITCH: u64 = 4_800;

const MOST: usize = 33;

/// How far above its line the middle of a name is.
const HALF_LETTER: u64 = 900;

/// The lowest line of the last label.
const LAST_LINE: u64 = 186_000;

/// The most bytes of a name that are shown.
const NAME_BYTES: usize = 26;

/// The line of a name: as near to what it names as the lines above it, and those that must fit below it, allow.
fn line_at(highest: u64, wanted: u64, later: u64) -> u64
    requires later { later ≤ 32 }
    requires room { highest + later * 4800 ≤ 186000 }
    ensures value { result ≡ line_for highest wanted later }
    ensures below { highest ≤ result }
    ensures room { result + later * 4800 ≤ 186000 }
{
    wanted.min(LAST_LINE - later * PITCH).max(highest)
}

fn labelled(marks: &[Mark]) -> &[Mark]
    ensures first { result.now ≡ take most_labels marks.now }
    ensures few { length result.now ≤ 33 }
{
    if marks.len() <= MOST {
        marks
    } else {
        &marks[..MOST]
    }
}

/// The desired positions of labels: for each mark its line, how far across it is, and its number.
fn anchors(alloc: Global, marks: &[Mark], plan: &View) -> Result<Vec<(u64, u64, usize)>, AllocError>
    requires { length marks.now ≤ 33 }
    ensures { IfOk result (λ anchors. anchors.items ≡ anchors_from plan.now 0 marks.now) }
{
    let mut anchors = Vec::new(alloc);
    let mut number = 0;
    let mut left = marks;
    while let [mark, later @ ..] = left {
        let position = plan.position(mark.place);
        anchors.push((position.down() + HALF_LETTER, position.across(), number))?;
        number += 1;
        left = later;
    }
    Ok(anchors)
}

/// The labels' desired positions, from top to bottom.
fn ordered(alloc: Global, marks: &[Mark], plan: &View) -> Result<Vec<(u64, u64, usize)>, AllocError>
    ensures ordered { IfOk result (λ order. AreOrdered plan.now marks.now order.items) }
    ensures few { IfOk result (λ order. length order.items ≤ 33) }
{
    let mut order = anchors(alloc, labelled(marks), plan)?;
    order.sort()?;
    Ok(order)
}

fn put_name(out: &mut Vec<u8>, name: &[u8]) -> Result<(), AllocError>
    ensures { OnOk result (out.new.items ≡ out.old.items ++ shown_name name.now) }
{
    if name.len() <= NAME_BYTES {
        return put_escaped(out, name);
    }
    put_escaped(out, &name[..NAME_BYTES - 2])?;
    out.extend_from_slice(b"..")
}

fn put_bullet_start(out: &mut Vec<u8>, is_measured: bool) -> Result<(), AllocError>
    ensures { OnOk result (out.new.items ≡ out.old.items ++ bullet_start is_measured) }
{
    if is_measured {
        put_markup(out, b"<g fill=\"#000\">")
    } else {
        put_markup(
            out,
            b"<g fill=\"#fff\" stroke=\"#000\" stroke-width=\"0.25\" stroke-dasharray=\"none\">",
        )
    }
}

#[tactic(auto, unfolding(crate::specs::Labels::bullet_text))]
fn put_bullet(out: &mut Vec<u8>, is_measured: bool, down: u64) -> Result<(), AllocError>
    requires { down ≤ 200000 }
    ensures { OnOk result (out.new.items ≡ out.old.items ++ bullet_text is_measured down) }
{
    put_bullet_start(out, is_measured)?;
    put_disc(out, Position::new(224_500, down), 800)?;
    put_markup(out, b"</g>\n")
}

#[tactic(auto, unfolding(crate::specs::Labels::name_text))]
fn put_name_at(out: &mut Vec<u8>, name: &[u8], line: u64) -> Result<(), AllocError>
    requires { line ≤ 186000 }
    ensures { OnOk result (out.new.items ≡ out.old.items ++ name_text name.now line) }
{
    put_markup(out, b"<g stroke=\"none\" font-family=\"monospace\">")?;
    begin_text(out, Position::new(227_000, line))?;
    put_name(out, name)?;
    end_text(out)?;
    put_markup(out, b"</g>\n")
}

/// The leader of a label: level to the frame's edge, and from there straight to the label.
#[tactic(auto, unfolding(crate::specs::Labels::leader_text))]
fn put_leader(out: &mut Vec<u8>, from: Position, middle: u64) -> Result<(), AllocError>
    requires { middle ≤ 200000 }
    ensures { OnOk result (out.new.items ≡ out.old.items ++ leader_text from middle) }
{
    let edge = Position::new(FRAME_RIGHT, from.down());
    put_line(out, from, edge)?;
    put_line(out, edge, Position::new(222_500, middle))
}

#[tactic(auto, unfolding(crate::specs::Labels::label_text))]
fn put_label(
    out: &mut Vec<u8>,
    mark: &Mark,
    name: &[u8],
    plan: &View,
    most: u128,
    line: u64,
) -> Result<(), AllocError>
    requires some { 0 < most }
    requires low { 26000 ≤ line }
    requires high { line ≤ 186000 }
    ensures { OnOk result (out.new.items
        ≡ out.old.items ++ label_text plan.now most mark.now name.now line) }
{
    let middle = line - HALF_LETTER;
    put_leader(out, plan.position(mark.place), middle)?;
    put_bullet(out, mark.is_measured, middle)?;
    put_name_at(out, name, line)?;
    put_peak(out, most, &mark.peak, line)
}

/// The label of the feature of a number.
fn put_label_at(
    out: &mut Vec<u8>,
    marks: &[Mark],
    wanted: &[Wanted],
    number: usize,
    plan: &View,
    most: u128,
    line: u64,
) -> Result<(), AllocError>
    requires some { 0 < most }
    requires low { 26000 ≤ line }
    requires high { line ≤ 186000 }
    ensures { OnOk result (out.new.items ≡ out.old.items
        ++ label_at plan.now most (slice_get marks.now number) (slice_get wanted.now number) line) }
{
    if let Some(mark) = marks.get(number)
        && let Some(feature) = wanted.get(number)
    {
        return put_label(out, mark, feature.label.as_bytes(), plan, most, line);
    }
    Ok(())
}

/// The labels from top to bottom, each on a line of its own.
fn put_each_label(
    out: &mut Vec<u8>,
    marks: &[Mark],
    wanted: &[Wanted],
    plan: &View,
    order: &[(u64, u64, usize)],
) -> Result<(), AllocError>
    requires { length order.now ≤ 33 }
    ensures { OnOk result (Adds (AreOnLines plan.now marks.now wanted.now order.now)
        out.old.items out.new.items) }
{
    let most = greatest_peak(marks);
    let mut highest = FIRST_LINE;
    let mut left = order;
    while let [anchor, below @ ..] = left {
        let line = line_at(highest, anchor.0, below.len() as u64);
        put_label_at(out, marks, wanted, anchor.2, plan, most, line)?;
        highest = line + PITCH;
        left = below;
    }
    Ok(())
}

/// Writes how many features have no line, if there are any.
#[tactic(auto, unfolding(crate::specs::Labels::more_text))]
fn put_more_if_any(out: &mut Vec<u8>, more: usize) -> Result<(), AllocError>
    ensures { OnOk result (out.new.items ≡ out.old.items ++ more_if_any more) }
{
    if more == 0 {
        return Ok(());
    }
    begin_text(out, Position::new(227_000, 190_800))?;
    out.extend_from_slice(b"and ")?;
    put_number(out, more as u64)?;
    out.extend_from_slice(b" more")?;
    end_text(out)
}

/// Appends the names of the first features, each on a line of its own, in the order of their marks from top to bottom, and how many more
/// there are.
#[tactic(auto, unfolding(crate::specs::Labels::labels_text))]
pub(crate) fn put_labels(
    alloc: Global,
    out: &mut Vec<u8>,
    marks: &[Mark],
    wanted: &[Wanted],
    plan: &View,
) -> Result<(), AllocError>
    ensures { OnOk result (Adds (AreLabels plan.now marks.now wanted.now)
        out.old.items out.new.items) }
{
    let order = ordered(alloc, marks, plan)?;
    put_markup(
        out,
        b"<g font-size=\"2.5\" stroke=\"#999\" stroke-width=\"0.15\" stroke-dasharray=\"1 0.7\">\n",
    )?;
    put_each_label(out, marks, wanted, plan, order.as_slice())?;
    put_markup(out, b"</g>\n")?;
    put_more_if_any(out, marks.len().saturating_sub(MOST))
}

/// No leader of a label crosses another.
pub fn leaders_do_not_cross()
    ensures { (plan : View) (marks : List Mark) (order : List Anchor) (lines : List ℕ)
        → AreOrdered plan marks order → AreHighest order lines → DoNotCross 0 0 order lines }
{}
