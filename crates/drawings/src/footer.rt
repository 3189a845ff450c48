// What is below the views: the scales, the legend, and how much was measured.

ghost use Rattle.std.specs.Prelude.{◌≡◌, ◌≤◌, ◌+◌, ◌++◌, OnOk};
ghost use Rattle.drawings.specs.Names.{bar_text, IsBar, AreBars, Adds, ratio_text, legend_marks, legend_words, measured_count, asked_count, is_measured, counts_text, magnified_words, caption_text, IsFooter};

use crate::scales::{Scale, round};
use crate::sheet::Position;
use crate::texts::{
    begin_text, end_text, put_disc, put_line, put_markup, put_millimetres, put_number, put_text,
};
use crate::walk::{Act, Stop, is_asked};
use crate::whiskers::Whiskers;
use std::alloc::AllocError;

/// The line of the bars, and that of the texts next to them.
const BAR_DOWN: u64 = 195_300;

const TEXT_DOWN: u64 = 196_500;

/// What the colours and the thickness of whiskers mean.
const COLOURS: &[u8] =
    b"Along the normal: red too much material, blue too little, grey as wanted or no normal; thin: more across than along. Bars: the greatest of each feature.";

#[tactic(auto, unfolding(crate::specs::Footer::ratio_text))]
fn put_ratio(out: &mut Vec<u8>, scale: Scale) -> Result<(), AllocError>
    ensures { OnOk result (out.new.items ≡ out.old.items ++ ratio_text scale) }
{
    put_millimetres(out, scale.numerator() * 100)?;
    out.push(b':')?;
    put_millimetres(out, scale.denominator() * 100)
}

/// A bar from left to right, and the length that it represents.
#[tactic(auto, unfolding(crate::specs::Bars::bar_text))]
fn put_bar_from(
    out: &mut Vec<u8>,
    left: u64,
    right: u64,
    length: u64,
    unit: &[u8],
) -> Result<(), AllocError>
    requires left { left ≤ 200000 }
    requires right { right ≤ 200000 }
    ensures { OnOk result (out.new.items
        ≡ out.old.items ++ bar_text left right length unit.now) }
{
    put_line(
        out,
        Position::new(left, BAR_DOWN),
        Position::new(right, BAR_DOWN),
    )?;
    put_markup(out, b"<g stroke=\"none\">")?;
    begin_text(out, Position::new(right + 2_000, TEXT_DOWN))?;
    put_millimetres(out, length)?;
    out.extend_from_slice(unit)?;
    end_text(out)?;
    put_markup(out, b"</g>\n")
}

/// A bar, and its length.
fn put_bar(
    out: &mut Vec<u8>,
    scale: Scale,
    left: u64,
    room: u64,
    unit: &[u8],
) -> Result<(), AllocError>
    requires left { left ≤ 100000 }
    requires room { room ≤ 60000 }
    ensures { 10000 ≤ room
        → OnOk result (Adds (IsBar scale room left unit.now) out.old.items out.new.items) }
{
    let length = round(scale.bar(room));
    let right = left + scale.on_paper(length).min(room);
    put_bar_from(out, left, right, length, unit)
}

fn put_bars(out: &mut Vec<u8>, scale: Scale, whiskers: &Whiskers) -> Result<(), AllocError>
    ensures { OnOk result (Adds (AreBars scale whiskers.now.scale) out.old.items out.new.items) }
{
    put_markup(out, b"<g stroke=\"#000\" stroke-width=\"0.8\">\n")?;
    put_bar(out, scale, 10_000, 50_000, b" mm")?;
    put_markup(out, b"</g>\n<g stroke=\"#555\" stroke-width=\"0.5\">\n")?;
    put_bar(out, whiskers.scale, 85_000, 15_000, b" mm of deviation")?;
    put_markup(out, b"</g>\n")
}

#[tactic(auto, unfolding(crate::specs::Footer::legend_marks))]
fn put_legend_marks(out: &mut Vec<u8>) -> Result<(), AllocError>
    ensures { OnOk result (out.new.items ≡ out.old.items ++ legend_marks) }
{
    put_markup(out, b"<g fill=\"#000\">\n")?;
    put_disc(out, Position::new(160_000, BAR_DOWN), 800)?;
    put_markup(
        out,
        b"</g>\n<g fill=\"#fff\" stroke=\"#000\" stroke-width=\"0.25\">\n",
    )?;
    put_disc(out, Position::new(186_000, BAR_DOWN), 800)?;
    put_markup(out, b"</g>\n<g stroke=\"#777\" stroke-width=\"0.15\">\n")?;
    put_line(
        out,
        Position::new(224_500, BAR_DOWN),
        Position::new(234_500, BAR_DOWN),
    )?;
    put_markup(out, b"</g>\n")
}

#[tactic(auto, unfolding(crate::specs::Footer::legend_words))]
fn put_legend_words(out: &mut Vec<u8>) -> Result<(), AllocError>
    ensures { OnOk result (out.new.items ≡ out.old.items ++ legend_words) }
{
    put_text(out, Position::new(162_500, TEXT_DOWN), b"measured")?;
    put_text(out, Position::new(188_500, TEXT_DOWN), b"not measured yet")?;
    put_text(
        out,
        Position::new(236_500, TEXT_DOWN),
        b"way of the machine",
    )?;
    put_text(out, Position::new(10_000, 200_300), COLOURS)
}

fn is_measured(stop: &Stop) -> bool
    ensures { result ≡ is_measured stop.now.act }
{
    matches!(stop.act, Act::Measured(_))
}

#[tactic(auto, unfolding(crate::specs::Footer::counts_text))]
fn put_two_counts(out: &mut Vec<u8>, measured: u64, asked: u64) -> Result<(), AllocError>
    ensures { OnOk result (out.new.items ≡ out.old.items ++ counts_text measured asked) }
{
    put_number(out, measured)?;
    put_markup(out, b" of ")?;
    put_number(out, asked)?;
    put_markup(out, b" points measured.")
}

fn measured_count(stops: &[Stop]) -> u64
    ensures { result ≡ measured_count stops.now }
{
    stops.iter().filter(|stop| is_measured(*stop)).count() as u64
}

fn asked_count(stops: &[Stop]) -> u64
    ensures { result ≡ asked_count stops.now }
{
    stops.iter().filter(|stop| is_asked(*stop)).count() as u64
}

/// How many of the requested points were measured.
fn put_counts(out: &mut Vec<u8>, stops: &[Stop]) -> Result<(), AllocError>
    ensures { OnOk result (out.new.items
        ≡ out.old.items ++ counts_text (measured_count stops.now) (asked_count stops.now)) }
{
    put_two_counts(out, measured_count(stops), asked_count(stops))
}

fn put_magnified(out: &mut Vec<u8>, longest: u64) -> Result<(), AllocError>
    ensures { OnOk result (out.new.items ≡ out.old.items ++ magnified_words longest) }
{
    if longest == 0 {
        put_markup(out, b". No deviation, magnification ")
    } else {
        put_markup(out, b". Deviations magnified ")
    }
}

/// The scales in words, and how much was measured.
#[tactic(auto, unfolding(crate::specs::Footer::caption_text))]
fn put_caption(
    out: &mut Vec<u8>,
    scale: Scale,
    stops: &[Stop],
    whiskers: &Whiskers,
) -> Result<(), AllocError>
    ensures { OnOk result (out.new.items ≡ out.old.items
        ++ caption_text scale whiskers.now (measured_count stops.now) (asked_count stops.now)) }
{
    begin_text(out, Position::new(10_000, 204_000))?;
    put_markup(out, b"Lengths in mm, machine axes. Scale ")?;
    put_ratio(out, scale)?;
    put_magnified(out, whiskers.longest)?;
    put_ratio(out, whiskers.scale)?;
    put_markup(out, b". ")?;
    put_counts(out, stops)?;
    end_text(out)
}

/// Appends what is below the views.
pub(crate) fn put_footer(
    out: &mut Vec<u8>,
    scale: Scale,
    stops: &[Stop],
    whiskers: &Whiskers,
) -> Result<(), AllocError>
    ensures { OnOk result (Adds (IsFooter scale whiskers.now stops.now)
        out.old.items out.new.items) }
{
    put_bars(out, scale, whiskers)?;
    put_legend_marks(out)?;
    put_legend_words(out)?;
    put_caption(out, scale, stops, whiskers)
}
