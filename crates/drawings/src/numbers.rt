// The numbers at points.

ghost use Rattle.std.specs.Prelude.{◌≡◌, ◌≤◌, ◌++◌, length, OnOk};
ghost use Rattle.std.specs.List.{flat_map};
ghost use Rattle.drawings.specs.Marks.{spot_of};
ghost use Rattle.drawings.specs.Numbers.{is_near, near_count, number_text, number_if, number_of, numbers_of, numbers_text};
ghost use Rattle.drawings.specs.Views.{IsInView};

use crate::away::Along;
use crate::peaks::put_along_text;
use crate::seen::Seen;
use crate::sheet::Position;
use crate::texts::put_markup;
use crate::views::View;
use crate::walk::{Stop, touches_among};
use std::alloc::{AllocError, Global};

/// How near another touch may not be, across and down.
const WIDTH: u64 = 9_000;

const HEIGHT: u64 = 3_500;

/// The most touches for which there are numbers.
const MOST: usize = 1_000;

fn is_near(a: Position, b: Position) -> bool
    ensures { result ≡ is_near a b }
{
    a.across() <= b.across() + WIDTH
        && b.across() <= a.across() + WIDTH
        && a.down() <= b.down() + HEIGHT
        && b.down() <= a.down() + HEIGHT
}

/// How many touches are near to a position.
fn near_count(view: &View, at: Position, touches: &[Stop]) -> usize
    ensures { result ≡ near_count view.now at touches.now }
{
    let mut count = 0;
    for touch in touches {
        if is_near(at, view.position(touch.place)) {
            count += 1;
        }
    }
    count
}

fn put_number_text(out: &mut Vec<u8>, at: Position, along: Along) -> Result<(), AllocError>
    requires { IsInView at }
    ensures { OnOk result (out.new.items ≡ out.old.items ++ number_text at along) }
{
    put_along_text(
        out,
        Position::new(at.across() + 1_000, at.down() - 700),
        along,
    )
}

fn put_number_if(
    out: &mut Vec<u8>,
    is_alone: bool,
    at: Position,
    along: &Option<Along>,
) -> Result<(), AllocError>
    requires { IsInView at }
    ensures { OnOk result (out.new.items ≡ out.old.items ++ number_if is_alone at along.now) }
{
    if !is_alone {
        return Ok(());
    }
    match along {
        Some(along) => put_number_text(out, at, *along),
        None => Ok(()),
    }
}

#[tactic(auto, unfolding(crate::specs::Numbers::number_of))]
fn put_each_number(
    out: &mut Vec<u8>,
    view: &View,
    touches: &[Stop],
    seen: &[Seen],
) -> Result<(), AllocError>
    ensures { OnOk result (out.new.items
        ≡ out.old.items ++ flat_map (number_of view.now touches.now) seen.now) }
{
    for one in seen {
        let at = view.position(one.stop.place);
        put_number_if(out, near_count(view, at, touches) == 1, at, &one.along)?;
    }
    Ok(())
}

fn put_numbers_of(
    out: &mut Vec<u8>,
    view: &View,
    touches: &[Stop],
    seen: &[Seen],
) -> Result<(), AllocError>
    ensures { OnOk result (out.new.items
        ≡ out.old.items ++ numbers_of view.now touches.now seen.now) }
{
    if touches.len() <= MOST {
        put_each_number(out, view, touches, seen)
    } else {
        Ok(())
    }
}

/// Appends the number of each measured point of a view that has room for it.
#[tactic(auto, unfolding(crate::specs::Numbers::numbers_text))]
pub(crate) fn put_numbers(
    alloc: Global,
    out: &mut Vec<u8>,
    view: &View,
    stops: &[Stop],
    seen: &[Seen],
) -> Result<(), AllocError>
    ensures { OnOk result (out.new.items
        ≡ out.old.items ++ numbers_text view.now stops.now seen.now) }
{
    let touches = touches_among(alloc, stops)?;
    put_markup(out, b"<g font-size=\"2.2\">\n")?;
    put_numbers_of(out, view, touches.as_slice(), seen)?;
    put_markup(out, b"</g>\n")
}
