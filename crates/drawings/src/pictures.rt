// What is drawn in a view.

ghost use Rattle.std.specs.Prelude.{◌≡◌, ◌≤◌, ◌+◌, ◌++◌, OnOk};
ghost use Rattle.deviations.specs.Along.{IsDeviation};
ghost use Rattle.drawings.specs.Names.{flat_map, open_dot, done_dot, spot_of, colour_of, is_sideways, thinned, line_start, gap_text, whisker, thickness_for, way_spot, way_text, dots_text, whiskers_text, span_text, title_text, arrow_text, arrows_text, letters_text, axes_text, picture_text};

use crate::away::Along;
use crate::magnifying::squared;
use crate::numbers::put_numbers;
use crate::places::Place;
use crate::seen::Seen;
use crate::sheet::Position;
use crate::sides::Side;
use crate::spans::Span;
use crate::texts::{
    begin_text, end_text, put_attribute, put_coordinate, put_disc, put_frame, put_line, put_markup,
    put_spot, put_text,
};
use crate::views::{FRAME_LEFT, FRAME_RIGHT, View};
use crate::walk::{Act, Stop};
use crate::whiskers::Whiskers;
use deviations::Deviation;
use std::alloc::{AllocError, Global};

/// The most stops for which dots are large.
const FEW: usize = 400;

#[tactic(auto, unfolding(crate::specs::Pictures::span_text))]
fn put_span(out: &mut Vec<u8>, name: &[u8], span: Span) -> Result<(), AllocError>
    ensures { OnOk result (out.new.items ≡ out.old.items ++ span_text name.now span) }
{
    out.extend_from_slice(name)?;
    put_coordinate(out, i128::from(span.low))?;
    out.extend_from_slice(b" to ")?;
    put_coordinate(out, i128::from(span.high))
}

/// The title above the frame: the view's name, and the ranges that it shows.
#[tactic(auto, unfolding(crate::specs::Pictures::title_text))]
fn put_title(out: &mut Vec<u8>, view: &View) -> Result<(), AllocError>
    ensures { OnOk result (out.new.items ≡ out.old.items ++ title_text view.now) }
{
    begin_text(out, Position::new(10_000, view.top - 1_500))?;
    match view.side {
        Side::Plan => out.extend_from_slice(b"Plan: ")?,
        Side::Front => out.extend_from_slice(b"Front: ")?,
    }
    put_span(out, b"x ", view.across)?;
    match view.side {
        Side::Plan => put_span(out, b", y ", view.upright)?,
        Side::Front => put_span(out, b", z ", view.upright)?,
    }
    end_text(out)
}

/// An arrow: its shaft, and both strokes of its head.
#[tactic(auto, unfolding(crate::specs::Pictures::arrow_text))]
fn put_arrow(
    out: &mut Vec<u8>,
    from: Position,
    to: Position,
    one: Position,
    other: Position,
) -> Result<(), AllocError>
    ensures { OnOk result (out.new.items ≡ out.old.items ++ arrow_text from to one other) }
{
    put_line(out, from, to)?;
    put_line(out, to, one)?;
    put_line(out, to, other)
}

/// The arrows of both axes, in the frame's left lower corner.
#[tactic(auto, unfolding(crate::specs::Pictures::arrows_text))]
fn put_arrows(out: &mut Vec<u8>, view: &View) -> Result<(), AllocError>
    ensures { OnOk result (out.new.items ≡ out.old.items ++ arrows_text view.now) }
{
    let zero = Position::new(13_000, view.bottom - 3_000);
    let right = Position::new(20_000, view.bottom - 3_000);
    let up = Position::new(13_000, view.bottom - 10_000);
    put_arrow(
        out,
        zero,
        right,
        Position::new(19_000, view.bottom - 3_500),
        Position::new(19_000, view.bottom - 2_500),
    )?;
    put_arrow(
        out,
        zero,
        up,
        Position::new(12_500, view.bottom - 9_000),
        Position::new(13_500, view.bottom - 9_000),
    )
}

#[tactic(auto, unfolding(crate::specs::Pictures::letters_text))]
fn put_letters(out: &mut Vec<u8>, view: &View) -> Result<(), AllocError>
    ensures { OnOk result (out.new.items ≡ out.old.items ++ letters_text view.now) }
{
    put_text(out, Position::new(20_700, view.bottom - 2_000), b"x")?;
    let name: &[u8] = match view.side {
        Side::Plan => b"y",
        Side::Front => b"z",
    };
    put_text(out, Position::new(12_200, view.bottom - 11_000), name)
}

#[tactic(auto, unfolding(crate::specs::Pictures::axes_text))]
fn put_axes(out: &mut Vec<u8>, view: &View) -> Result<(), AllocError>
    ensures { OnOk result (out.new.items ≡ out.old.items ++ axes_text view.now) }
{
    put_markup(
        out,
        b"<g fill=\"none\" stroke=\"#000\" stroke-width=\"0.2\">\n",
    )?;
    let corner = Position::new(FRAME_LEFT, view.top);
    put_frame(out, corner, Position::new(FRAME_RIGHT, view.bottom))?;
    put_arrows(out, view)?;
    put_markup(out, b"</g>\n")?;
    put_letters(out, view)
}

#[tactic(auto, unfolding(crate::specs::Marks::way_spot))]
fn put_way_spots(out: &mut Vec<u8>, view: &View, stops: &[Stop]) -> Result<(), AllocError>
    ensures { OnOk result (out.new.items ≡ out.old.items ++ flat_map (way_spot view.now) stops.now) }
{
    for stop in stops {
        put_spot(out, view.position(stop.place))?;
        out.push(b'\n')?;
    }
    Ok(())
}

#[tactic(auto, unfolding(crate::specs::Marks::way_text))]
fn put_way(out: &mut Vec<u8>, view: &View, stops: &[Stop]) -> Result<(), AllocError>
    ensures { OnOk result (out.new.items ≡ out.old.items ++ way_text view.now stops.now) }
{
    put_markup(
        out,
        b"<polyline fill=\"none\" stroke=\"#777\" stroke-width=\"0.15\" points=\"",
    )?;
    put_way_spots(out, view, stops)?;
    put_markup(out, b"\"/>\n")
}

#[tactic(auto, unfolding(crate::specs::Marks::open_dot))]
fn put_open_dots(
    out: &mut Vec<u8>,
    view: &View,
    stops: &[Stop],
    radius: u64,
) -> Result<(), AllocError>
    requires { radius ≤ 5000 }
    ensures { OnOk result (out.new.items
        ≡ out.old.items ++ flat_map (open_dot view.now radius) stops.now) }
{
    for open in stops {
        if let Act::Touch = open.act {
            put_disc(out, view.position(open.place), radius)?;
        }
    }
    Ok(())
}

#[tactic(auto, unfolding(crate::specs::Marks::done_dot))]
fn put_done_dots(
    out: &mut Vec<u8>,
    view: &View,
    stops: &[Stop],
    radius: u64,
) -> Result<(), AllocError>
    requires { radius ≤ 5000 }
    ensures { OnOk result (out.new.items
        ≡ out.old.items ++ flat_map (done_dot view.now radius) stops.now) }
{
    for done in stops {
        if let Act::Measured(_) = done.act {
            put_disc(out, view.position(done.place), radius)?;
        }
    }
    Ok(())
}

/// The points that are measured, and those that are not measured yet.
#[tactic(auto, unfolding(crate::specs::Marks::dots_text))]
fn put_dots(out: &mut Vec<u8>, view: &View, stops: &[Stop]) -> Result<(), AllocError>
    ensures { OnOk result (out.new.items ≡ out.old.items ++ dots_text view.now stops.now) }
{
    let radius = if stops.len() <= FEW { 800 } else { 400 };
    put_markup(
        out,
        b"<g fill=\"#fff\" stroke=\"#000\" stroke-width=\"0.25\">\n",
    )?;
    put_open_dots(out, view, stops, radius)?;
    put_markup(out, b"</g>\n<g fill=\"#000\">\n")?;
    put_done_dots(out, view, stops, radius)?;
    put_markup(out, b"</g>\n")
}

pub(crate) fn colour_of(along: &Option<Along>) -> &'static [u8]
    ensures { result.now ≡ colour_of along.now }
{
    let Some(along) = along else {
        return b"#555";
    };
    let along = along.get();
    if along == 0 {
        b"#555"
    } else if along < 0 {
        b"#0050d0"
    } else {
        b"#d00000"
    }
}

/// Whether the part of a deviation across its normal is longer than that along it.
#[tactic(auto, using(crate::proofs::Paper::far_along))]
fn is_sideways(deviation: Deviation, along: &Option<Along>) -> bool
    requires { IsDeviation deviation }
    ensures { result ≡ is_sideways deviation along.now }
{
    let Some(along) = along else {
        return false;
    };
    let along = along.get().unsigned_abs();
    let square = squared(deviation.x) + squared(deviation.y) + squared(deviation.z);
    along < 10_000_000_000 && 2 * (along * along) < square
}

fn thinned(thickness: u64, is_sideways: bool) -> u64
    ensures value { result ≡ thinned thickness is_sideways }
    ensures within { result ≤ thickness }
{
    if is_sideways {
        thickness / 2
    } else {
        thickness
    }
}

#[tactic(auto, unfolding(crate::specs::Marks::line_start))]
fn put_line_start(out: &mut Vec<u8>, colour: &[u8], thickness: u64) -> Result<(), AllocError>
    requires { thickness ≤ 500 }
    ensures { OnOk result (out.new.items ≡ out.old.items ++ line_start colour.now thickness) }
{
    put_markup(out, b"<g stroke=\"")?;
    put_markup(out, colour)?;
    put_attribute(out, b"\" stroke-width=\"", thickness)?;
    put_markup(out, b">")
}

/// A whisker: its colour is that of the side to which the point lies, and it is thin if the point lies more across the normal.
#[tactic(auto, unfolding(crate::specs::Marks::gap_text))]
fn put_gap(
    out: &mut Vec<u8>,
    view: &View,
    whiskers: &Whiskers,
    thickness: u64,
    place: Place,
    along: &Option<Along>,
    deviation: Deviation,
) -> Result<(), AllocError>
    requires thickness { thickness ≤ 500 }
    requires deviation { IsDeviation deviation }
    ensures { OnOk result (out.new.items ≡ out.old.items
        ++ gap_text view.now whiskers.now thickness (spot_of view.now place) along.now deviation) }
{
    let from = view.position(place);
    let thickness = thinned(thickness, is_sideways(deviation, along));
    put_line_start(out, colour_of(along), thickness)?;
    put_line(out, from, view.tip(from, deviation, whiskers))?;
    put_markup(out, b"</g>\n")
}

#[tactic(auto, unfolding(crate::specs::Marks::whisker))]
fn put_each_whisker(
    out: &mut Vec<u8>,
    view: &View,
    seen: &[Seen],
    whiskers: &Whiskers,
    thickness: u64,
) -> Result<(), AllocError>
    requires { thickness ≤ 500 }
    ensures { OnOk result (out.new.items
        ≡ out.old.items ++ flat_map (whisker view.now whiskers.now thickness) seen.now) }
{
    for one in seen {
        if let Act::Measured(away) = one.stop.act {
            put_gap(
                out,
                view,
                whiskers,
                thickness,
                one.stop.place,
                &one.along,
                away.deviation(),
            )?;
        }
    }
    Ok(())
}

/// How thick whiskers are.
fn thickness_for(count: usize) -> u64
    ensures value { result ≡ thickness_for count }
    ensures within { result ≤ 500 }
{
    if count <= FEW { 500 } else { 250 }
}

#[tactic(auto, unfolding(crate::specs::Marks::whiskers_text))]
fn put_whiskers(
    out: &mut Vec<u8>,
    view: &View,
    seen: &[Seen],
    whiskers: &Whiskers,
) -> Result<(), AllocError>
    ensures { OnOk result (out.new.items
        ≡ out.old.items ++ whiskers_text view.now whiskers.now seen.now) }
{
    put_markup(out, b"<g stroke-linecap=\"round\">\n")?;
    put_each_whisker(out, view, seen, whiskers, thickness_for(seen.len()))?;
    put_markup(out, b"</g>\n")
}

/// Appends a view.
#[tactic(auto, unfolding(crate::specs::Pictures::picture_text))]
pub(crate) fn put_picture(
    alloc: Global,
    out: &mut Vec<u8>,
    view: &View,
    stops: &[Stop],
    seen: &[Seen],
    whiskers: &Whiskers,
) -> Result<(), AllocError>
    ensures { OnOk result (out.new.items
        ≡ out.old.items ++ picture_text view.now whiskers.now stops.now seen.now) }
{
    put_title(out, view)?;
    put_axes(out, view)?;
    put_way(out, view, stops)?;
    put_dots(out, view, stops)?;
    put_whiskers(out, view, seen, whiskers)?;
    put_numbers(alloc, out, view, stops, seen)
}
