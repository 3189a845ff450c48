// Bars for deviations.

ghost use Rattle.std.specs.Prelude.{◌≡◌, ◌≤◌, ◌<◌, ◌^◌, ◌++◌, unsigned_abs, OnOk};
ghost use Rattle.drawings.specs.BarCells.{magnitude, greatest, bar_length, turn, bar_of, along_bar, bar_cell};

use crate::texts::{put_markup, put_number};
use deviations::Row;
use std::alloc::AllocError;

fn magnitude(row: &Row<'_>) -> u128
    ensures value { result ≡ magnitude row.now.along }
    ensures within { result ≤ 2 ^ 64 }
{
    match row.along() {
        Some(along) => along.unsigned_abs(),
        None => 0,
    }
}

/// The greatest magnitude of the deviations of rows, at least one micrometre.
pub(crate) fn greatest(rows: &[Row<'_>]) -> u128
    ensures value { result ≡ greatest rows.now }
    ensures some { 0 < result }
    ensures within { result ≤ 2 ^ 64 }
{
    let mut most = 1;
    for row in rows {
        most = most.max(magnitude(row));
    }
    most
}

fn bar_length(most: u128, magnitude: u128) -> u128
    requires some { 0 < most }
    requires magnitude { magnitude ≤ 2 ^ 64 }
    ensures value { result ≡ bar_length most magnitude }
    ensures within { result ≤ 50 }
{
    (magnitude * 50 / most).min(50)
}

fn turn(along: i128) -> &'static [u8]
    ensures { result.now ≡ turn along }
{
    if along < 0 { b"-1" } else { b"1" }
}

#[tactic(auto, unfolding(crate::specs::BarCells::bar_of))]
fn put_bar_of(out: &mut Vec<u8>, turned: &[u8], length: u64) -> Result<(), AllocError>
    ensures { OnOk result (out.new.items ≡ out.old.items ++ bar_of turned.now length) }
{
    put_markup(
        out,
        b"<td><svg class=\"bar\" viewBox=\"-51 -5 102 10\"><path d=\"M0-5V5\"/><g transform=\"scale(",
    )?;
    out.extend_from_slice(turned)?;
    put_markup(out, b" 1)\"><rect y=\"-3\" height=\"6\" width=\"")?;
    put_number(out, length)?;
    put_markup(out, b"\"/></g></svg></td>")
}

fn put_bar(out: &mut Vec<u8>, most: u128, along: i128) -> Result<(), AllocError>
    requires some { 0 < most }
    requires within { unsigned_abs along ≤ 2 ^ 64 }
    ensures { OnOk result (out.new.items ≡ out.old.items ++ along_bar most along) }
{
    let length = bar_length(most, along.unsigned_abs());
    put_bar_of(out, turn(along), length as u64)
}

/// Appends the bar of a row in a cell of its own, of a part whose greatest deviation is this.
pub(crate) fn put_bar_cell(out: &mut Vec<u8>, most: u128, row: &Row<'_>) -> Result<(), AllocError>
    requires { 0 < most }
    ensures { OnOk result (out.new.items ≡ out.old.items ++ bar_cell most row.now.along) }
{
    match row.along() {
        Some(along) => put_bar(out, most, along),
        None => put_markup(out, b"<td></td>"),
    }
}
