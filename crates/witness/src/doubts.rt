// What was reported that no feature can have: contacts whose tool or frame is not known, and lines that end runs.

ghost use Rattle.std.specs.Prelude.{◌≡◌, count_by, map, IfOk};
ghost use Rattle.witness.specs.ToldNames.{position, part_of, parts_of, known_contacts, is_touch, is_doubtful, is_end};

use crate::Reported;
use crate::told_ledger::ToldLedger;
use contact_ledger::Act;
use std::alloc::{AllocError, Global};

/// The contacts that were reported, and those of them whose tool or frame is not known.
#[derive(Clone, Copy, Debug, PartialEq, Eq)]
pub struct Doubts {
    /// How many contacts were reported.
    pub contacts: usize,
    /// How many of them have a tool or a frame that is not known.
    pub doubtful: usize,
    /// The place of the first of these among what was reported, from 0 on: its line is two more.
    pub first: Option<usize>,
}

fn is_touch(told: &Reported) -> bool
    ensures { result ≡ is_touch (part_of told.now) }
{
    matches!(
        told,
        Reported::Did(Act::Contact { .. }) | Reported::Touched { .. }
    )
}

fn is_doubtful(told: &Reported) -> bool
    ensures { result ≡ is_doubtful (part_of told.now) }
{
    matches!(told, Reported::Touched { .. })
}

/// Whether this line, which is no contact, ends the runs of its connection.
pub fn ends_runs(told: &Reported) -> bool
    ensures { result ≡ is_end (part_of told.now) }
{
    matches!(
        told,
        Reported::Other(_, _)
            | Reported::Unasked(_)
            | Reported::Broken(_, _)
            | Reported::Opened
            | Reported::Left
    )
}

/// The connections of the contacts whose tool and frame are known, in order. Fails only if out of memory.
#[tactic(auto, using(crate::proofs::Connections::connections))]
pub fn contact_connections(alloc: Global, told: &ToldLedger) -> Result<Vec<u64>, AllocError>
    ensures { IfOk result (λ all. all.items
        ≡ map (λ m. m.connection) (known_contacts (parts_of told.now))) }
{
    let mut all = Vec::new(alloc);
    let entries = told.entries();
    for (connection, one) in entries {
        if let Reported::Did(Act::Contact { .. }) = one {
            all.push(*connection)?;
        }
    }
    Ok(all)
}

/// How many contacts were reported, how many of them have a tool or a frame that is not known, and the place of the first of these.
pub fn doubts_of(told: &ToldLedger) -> Doubts
    ensures contacts { result.contacts ≡ count_by (λ e. is_touch (part_of e.1)) told.now }
    ensures doubtful { result.doubtful ≡ count_by (λ e. is_doubtful (part_of e.1)) told.now }
    ensures first { result.first ≡ position (λ e. is_doubtful (part_of e.1)) told.now }
{
    let entries = told.entries();
    let contacts = entries.iter().filter(|entry| is_touch(&entry.1)).count();
    let doubtful = entries.iter().filter(|entry| is_doubtful(&entry.1)).count();
    let first = entries.iter().position(|entry| is_doubtful(&entry.1));
    Doubts {
        contacts,
        doubtful,
        first,
    }
}
