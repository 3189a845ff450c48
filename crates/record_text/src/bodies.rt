// What the entries of a record leave.

ghost use Rattle.std.specs.Prelude.{◌≡◌, ◌++◌, ℕ, Err, IfOk, OnOk, MatchOption};
ghost use Rattle.record_text.specs.Names.{Finds, IsConnection, Wanted, IsWrittenEntry, nothing_kept, last_frame, errors_during, with_told, with_noted, IsLastRun, Completes, Follows, CanComplete, Damaged};
ghost use Rattle.record_text.specs.Records.{Kept};

use crate::asked::Asked;
use crate::comparing::same_name;
use crate::entries::{Entry, Printed};
use crate::faults::RecordFault;
use crate::notes::{Note, is_error};
use crate::run_errors::{Remark, Reported, RunError};
use crate::runs::{behind_contacts, last_frame, served_points};
use contact_ledger::{Act, Feature, FeatureLedger, Origin, Points, ServerLedger};
use fixed_um::{Frame, Name};
use std::alloc::{AllocError, Global};
use std::marker::Model;

/// What the entries that were read leave. The contacts from the act numbered `from` on are not used up, so no act is considered for two
/// features. Contracts see it as a `Kept`.
#[derive(Drop)]
pub(crate) struct Body {
    pub(crate) features: FeatureLedger,
    pub(crate) told: ServerLedger,
    pub(crate) last: u64,
    pub(crate) errors: Vec<RunError>,
    pub(crate) notes: Vec<Remark>,
    waiting: Vec<Reported>,
    used: u64,
    from: usize,
}

impl Model for Body {
    ghost use Rattle.std.specs.Prelude.{◌≡◌, ◌≤◌, length, drop};
    ghost use Rattle.protocol_model.specs.Claims.{contacts};
    ghost use Rattle.record_text.specs.Records.{Kept};

    ghost Value = { Kept };

    ghost view = { λ b. record {
      features = b.features;
      told = b.told;
      used = b.used;
      last = b.last;
      waiting = b.waiting.items;
      errors = b.errors.items;
      notes = b.notes.items;
    } };

    ghost invariant = { λ b. (b.used ≤ length (contacts b.told)) × (b.from ≤ length b.told)
        × (contacts (drop b.from b.told) ≡ drop b.used (contacts b.told)) };
}

/// Appends, of these errors, those that were reported when more contacts had been reported than these. Fails only if out of memory.
fn push_during(
    alloc: Global,
    errors: &mut Vec<RunError>,
    label: &Name,
    before: u64,
    waiting: &[Reported],
) -> Result<(), AllocError>
    ensures { OnOk result (errors.new.items
        ≡ errors.old.items ++ errors_during label.now before waiting.now) }
{
    let mut left = waiting;
    while let [first, others @ ..] = left {
        if before < first.contacts {
            let label = label.copy(alloc)?;
            let text = Printed::new(alloc, first.text.as_bytes())?;
            errors.push(RunError { label, text })?;
        }
        left = others;
    }
    Ok(())
}

impl Body {
    /// No entry was read.
    pub(crate) fn new(alloc: Global) -> Body
        ensures { result ≡ nothing_kept }
    {
        Body {
            features: FeatureLedger::new(alloc),
            told: ServerLedger::new(alloc),
            last: 0,
            errors: Vec::new(alloc),
            notes: Vec::new(alloc),
            waiting: Vec::new(alloc),
            used: 0,
            from: 0,
        }
    }

    /// The points of the last contacts, if they complete this feature on this connection. Fails only if out of memory.
    fn last_points(
        &self,
        alloc: Global,
        wanted: &Asked,
        connection: u64,
    ) -> Result<Option<Points>, AllocError>
        ensures { IfOk result (λ found. Finds found (λ points.
            IsLastRun self.now wanted.now connection points)) }
    {
        let count = wanted.touches().len() as u64;
        let unused = self.told.contacts().saturating_sub(self.used);
        if unused < count {
            return Ok(None);
        }
        let (_, acts) = self.told.acts().split_at(self.from);
        let acts = behind_contacts(acts, unused - count);
        served_points(alloc, connection, wanted.touches(), acts)
    }

    /// The points of the next wanted feature and the frame of its last touch, if this label and the last contacts complete it. Fails only
    /// if out of memory.
    fn next_points(
        &self,
        alloc: Global,
        asked: &[Asked],
        connection: u64,
        label: &Name,
    ) -> Result<Option<(Frame, Points)>, AllocError>
        ensures { IfOk result (λ found. MatchOption found
            ((new : Kept) → Completes asked.now self.now connection label.now new → ⊥)
            (λ f. (wanted : Wanted) × (f.0 ≡ last_frame wanted.touches)
            × CanComplete asked.now self.now connection label.now wanted f.1)) }
    {
        let Some(wanted) = asked.get(self.features.list().len()) else {
            return Ok(None);
        };
        if !same_name(label, wanted.label()) || connection != self.last {
            return Ok(None);
        }
        let Some(points) = self.last_points(alloc, wanted, connection)? else {
            return Ok(None);
        };
        Ok(Some((last_frame(wanted.touches()), points)))
    }

    fn tell(&mut self, connection: u64, act: Act) -> Result<(), AllocError>
        requires { IsConnection connection }
        ensures { OnOk result (self.new ≡ with_told self.old connection act) }
    {
        self.told.push(connection, act)?;
        self.last = connection;
        Ok(())
    }

    fn note(&mut self, connection: u64, note: Note, text: Printed) -> Result<(), AllocError>
        requires { IsConnection connection }
        ensures { OnOk result (self.new ≡ with_noted self.old connection note text) }
    {
        self.last = connection;
        if is_error(note) {
            let contacts = self.told.contacts();
            self.waiting.push(Reported { contacts, text })?;
            return Ok(());
        }
        self.notes.push(Remark {
            connection,
            features: self.features.list().len() as u64,
            note,
            text,
        })?;
        Ok(())
    }

    /// Appends the next wanted feature, if the last contacts complete it.
    fn complete(
        &mut self,
        alloc: Global,
        asked: &[Asked],
        connection: u64,
        label: Name,
        number: u64,
    ) -> Result<(), RecordFault>
        requires { IsConnection connection }
        ensures completes { OnOk result
            (Completes asked.now self.old connection label self.new) }
        ensures damaged { (n : ℕ) → result ≡ Err (Damaged n) → (n ≡ number)
            × ((new : Kept) → Completes asked.now self.old connection label new → ⊥) }
    {
        let Some((frame, points)) = self.next_points(alloc, asked, connection, &label)? else {
            return Err(RecordFault::Damaged(number));
        };
        let before = self.told.contacts().saturating_sub(points.len() as u64);
        push_during(alloc, &mut self.errors, &label, before, &self.waiting)?;
        self.waiting.clear();
        self.features.push(Feature {
            label,
            points,
            origin: Some(Origin { connection, frame }),
        })?;
        self.used = self.told.contacts();
        self.from = self.told.acts().len();
        Ok(())
    }

    /// Reads the entry of the line of this number. An `Err` discards the text.
    pub(crate) fn follow(
        &mut self,
        alloc: Global,
        asked: &[Asked],
        entry: Entry,
        number: u64,
    ) -> Result<(), RecordFault>
        requires { IsWrittenEntry entry }
        ensures follows { OnOk result (Follows asked.now self.old entry self.new) }
        ensures damaged { (n : ℕ) → result ≡ Err (Damaged n) → (n ≡ number)
            × ((new : Kept) → Follows asked.now self.old entry new → ⊥) }
    {
        match entry {
            Entry::Told(connection, act) => {
                if connection < self.last {
                    return Err(RecordFault::Damaged(number));
                }
                self.tell(connection, act)?;
                Ok(())
            }
            Entry::Noted(connection, note, text) => {
                if connection < self.last {
                    return Err(RecordFault::Damaged(number));
                }
                self.note(connection, note, text)?;
                Ok(())
            }
            Entry::Completed(connection, label) => {
                self.complete(alloc, asked, connection, label, number)
            }
        }
    }
}
