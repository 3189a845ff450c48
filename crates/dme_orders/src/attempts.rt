// The contacts of discarded attempts.

ghost use Rattle.std.specs.Prelude.{◌≡◌, ◌++◌, drop, length, IfOk, OnOk, string_bytes};
ghost use Rattle.dme_orders.specs.Attempts as spec;

use contact_ledger::Feature;
use dmis_program::Wanted;
use fixed_um::Name;
use ledger_audit::Verdict;
use std::alloc::{AllocError, Global};

fn push_attempt(text: &mut String, count: u128, label: &Name) -> Result<(), AllocError>
    ensures { OnOk result (string_bytes text.new
        ≡ string_bytes text.old ++ spec.attempt_line count label.now) }
{
    if count == 0 {
        return Ok(());
    }
    writeln!(
        text,
        "{label}: contacts of attempts that were discarded: {count}"
    )
}

#[tactic(auto, unfolding(crate::specs::Attempts::after_last))]
fn after_last() -> &'static str
    ensures { result.now ≡ spec.after_last }
{
    "after the last feature"
}

fn push_others(text: &mut String, count: u128, place: &str) -> Result<(), AllocError>
    ensures { OnOk result (string_bytes text.new
        ≡ string_bytes text.old ++ spec.attempt_line count place.now) }
{
    if count == 0 {
        return Ok(());
    }
    writeln!(
        text,
        "{place}: contacts of attempts that were discarded: {count}"
    )
}

fn push_last(text: &mut String, count: u128, missing: &[Wanted]) -> Result<(), AllocError>
    ensures { OnOk result (string_bytes text.new
        ≡ string_bytes text.old ++ spec.last_line count missing.now) }
{
    match missing {
        [first, ..] => push_attempt(text, count, &first.label),
        [] => push_others(text, count, after_last()),
    }
}

/// Those of each feature, and those after the last run.
#[tactic(auto, unfolding(crate::specs::Attempts::lines_from))]
fn push_attempts(
    text: &mut String,
    total: u64,
    missing: &[Wanted],
    features: &[Feature],
    starts: &[u64],
) -> Result<(), AllocError>
    ensures { OnOk result (string_bytes text.new
        ≡ string_bytes text.old ++ spec.lines_from total 0 missing.now features.now starts.now) }
{
    let mut at: u128 = 0;
    let mut left = features;
    let mut begins = starts;
    while let [feature, others @ ..] = left {
        let [start, later @ ..] = begins else {
            return Ok(());
        };
        let start = u128::from(*start);
        push_attempt(text, start.saturating_sub(at), &feature.label)?;
        at = start + feature.points.len() as u128;
        left = others;
        begins = later;
    }
    push_last(text, u128::from(total).saturating_sub(at), missing)
}

/// The features after the first ones.
#[tactic(auto, using(std::proofs::lemmas::List::drop_all))]
fn missing(wanted: &[Wanted], measured: usize) -> &[Wanted]
    ensures { result.now ≡ drop measured wanted.now }
{
    match wanted.split_at_checked(measured) {
        Some((_, missing)) => missing,
        None => &[],
    }
}

/// A line for each feature of which an attempt was discarded: how many contacts were reported that are in no run that an audit found. Fails
/// only if out of memory.
pub(crate) fn attempts_of(
    alloc: Global,
    total: u64,
    wanted: &[Wanted],
    features: &[Feature],
    verdict: &Verdict,
) -> Result<String, AllocError>
    ensures { IfOk result (λ text. string_bytes text
        ≡ spec.attempt_lines total wanted.now features.now verdict.now) }
{
    let mut text = String::new(alloc);
    if let Verdict::Starts(starts) = verdict {
        let missing = missing(wanted, features.len());
        push_attempts(&mut text, total, missing, features, starts.as_slice())?;
    }
    Ok(text)
}
