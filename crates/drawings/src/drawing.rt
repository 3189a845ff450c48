// The whole drawing.

ghost use Rattle.std.specs.Prelude.{◌≡◌, ◌++◌, OnOk, OnErr};
ghost use Rattle.drawings.specs.Names.{head_text, IsDrawingOf, IsDrawing, Adds};

use crate::extents::Extents;
use crate::footer::put_footer;
use crate::labels::put_labels;
use crate::magnifying::whiskers_of;
use crate::marks::{Mark, marks_of};
use crate::pictures::put_picture;
use crate::placing::Views;
use crate::seen::{Seen, seen_of};
use crate::sheet::Position;
use crate::texts::{begin_text, end_text, put_markup};
use crate::title::{Title, put_title_words};
use crate::walk::{Stop, stops_of};
use contact_ledger::Feature;
use dmis_program::{Program, Wanted};
use std::alloc::{AllocError, Global};

/// The sheet and its title.
#[tactic(auto, unfolding(crate::specs::Drawing::head_text))]
fn put_head(out: &mut Vec<u8>, title: &Title<'_>) -> Result<(), AllocError>
    ensures { OnOk result (out.new.items ≡ out.old.items ++ head_text title.now) }
{
    put_markup(
        out,
        b"<svg xmlns=\"http://www.w3.org/2000/svg\" width=\"297mm\" height=\"210mm\"",
    )?;
    put_markup(
        out,
        b" viewBox=\"0 0 297 210\" font-family=\"sans-serif\" font-size=\"3.5\">\n",
    )?;
    put_markup(
        out,
        b"<rect width=\"297\" height=\"210\" fill=\"#fff\"/>\n<g font-size=\"5\">\n",
    )?;
    begin_text(out, Position::new(10_000, 12_000))?;
    put_title_words(out, title)?;
    end_text(out)?;
    put_markup(out, b"</g>\n")
}

/// A drawing of stops, with labels of marks, which have the names of features.
fn put_parts(
    alloc: Global,
    out: &mut Vec<u8>,
    title: &Title<'_>,
    stops: &[Stop],
    seen: &[Seen],
    marks: &[Mark],
    wanted: &[Wanted],
) -> Result<(), AllocError>
    ensures { OnOk result (Adds (IsDrawingOf title.now stops.now seen.now marks.now wanted.now)
        out.old.items out.new.items) }
{
    let extents = Extents::shown(alloc, stops)?;
    let views = Views::of(&extents);
    let whiskers = whiskers_of(stops);
    put_head(out, title)?;
    put_labels(alloc, out, marks, wanted, &views.plan)?;
    put_picture(alloc, out, &views.plan, stops, seen, &whiskers)?;
    put_picture(alloc, out, &views.front, stops, seen, &whiskers)?;
    put_footer(out, views.plan.scale, stops, &whiskers)?;
    put_markup(out, b"</svg>\n")
}

fn put_drawing(
    alloc: Global,
    out: &mut Vec<u8>,
    title: &Title<'_>,
    program: &Program,
    features: &[Feature],
) -> Result<(), AllocError>
    ensures { OnOk result (Adds (IsDrawing title.now program.now features.now)
        out.old.items out.new.items) }
{
    let stops = stops_of(alloc, program.statements(), features)?;
    let seen = seen_of(alloc, stops.as_slice())?;
    let marks = marks_of(alloc, program, features)?;
    put_parts(
        alloc,
        out,
        title,
        stops.as_slice(),
        seen.as_slice(),
        marks.as_slice(),
        program.features(),
    )
}

/// Appends a drawing (SVG 1.1) of a program and of the features that were measured first, in their order, on one sheet A4, under a title: plan and front
/// view of the touches in machine axes at one round scale, the way of the machine, the nominal points, hollow where they are not measured yet, and from
/// each measured one a line that shows how far the measured point lies from it, at a round scale of its own. If the features are not those
/// of the program, points are taken in order as long as there are touches.
///
/// Fails only if out of memory, and then appends nothing.
pub fn write_drawing(
    alloc: Global,
    out: &mut Vec<u8>,
    title: &Title<'_>,
    program: &Program,
    features: &[Feature],
) -> Result<(), AllocError>
    ensures ok { OnOk result (Adds (IsDrawing title.now program.now features.now)
        out.old.items out.new.items) }
    ensures err { OnErr result (out.new.items ≡ out.old.items) }
{
    let mut text = Vec::new(alloc);
    put_drawing(alloc, &mut text, title, program, features)?;
    out.extend_from_slice(text.as_slice())
}
