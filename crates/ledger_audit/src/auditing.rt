// The audit.

ghost use Rattle.std.specs.Prelude.{◌≡◌, ◌↔◌, IfOk};
ghost use Rattle.ledger_audit.specs.Names.{contacts, AreRuns, Sound, AreLeast, AreFewestUnsound, IfStarts, IfNoRun, TellsStarts, TellsNoRun};

use crate::contacts::contacts_of;
use crate::runs::first_run;
use crate::verdicts::{Starts, Verdict};
use contact_ledger::{Feature, ServerLedger};
use dmis_program::Program;
use std::alloc::{AllocError, Global};

/// Whether features are the first ones of a program, each measured by an unbroken run of a server's contacts on one connection. No run
/// begins before the previous one has ended. A run's contacts have the targets, directions, tools and frames of the feature's touches in
/// the program, and reported its points. The origin of a feature is not considered.
///
/// If every feature has its run, reports the starts of the runs, each the least possible. Otherwise reports the least count of first
/// features that have no runs together; a feature that the program does not have has no run. The time is linear in the sum of contacts and
/// touches. Fails only if out of memory.
pub fn audit(
    alloc: Global,
    program: &Program,
    features: &[Feature],
    ledger: &ServerLedger,
) -> Result<Verdict, AllocError>
    ensures runs { IfOk result (λ v. IfStarts v
        (λ s. AreRuns program.now.features features.now s 0 (contacts ledger.now))) }
    ensures least { IfOk result (λ v. IfStarts v
        (AreLeast program.now.features features.now (contacts ledger.now))) }
    ensures no_run { IfOk result (λ v. IfNoRun v
        (AreFewestUnsound program.now.features features.now ledger.now)) }
    ensures sound { IfOk result (λ v. TellsStarts v
        ↔ Sound program.now.features features.now ledger.now) }
    ensures unsound { IfOk result (λ v. TellsNoRun v
        ↔ (Sound program.now.features features.now ledger.now → ⊥)) }
{
    let contacts = contacts_of(alloc, ledger.acts())?;
    let wanted = program.features();
    let mut starts = Starts::new(alloc);
    let mut least = 0;
    for (index, feature) in features.iter().enumerate() {
        if index >= wanted.len() {
            return Ok(Verdict::NoRun(index + 1));
        }
        let Some(start) = first_run(alloc, &wanted[index], feature, &contacts, least)? else {
            return Ok(Verdict::NoRun(index + 1));
        };
        starts.push(start as u64)?;
        least = start + feature.points.len();
    }
    Ok(Verdict::Starts(starts))
}
