// Records.

ghost use Rattle.std.specs.Prelude.{◌≡◌, option_map};
ghost use Rattle.record_text.specs.Records.{recorded};

use crate::asked::Asked;
use crate::bodies::Body;
use crate::heads::Head;
use crate::parts::Part;
use crate::run_errors::{Remark, RunError};
use contact_ledger::{FeatureLedger, ServerLedger};
use std::marker::Model;

/// A record of a run (this profile): the part, what was asked, the features completed, the acts reported, the greatest connection of a
/// line, the errors reported during the run of a feature, and the other notes. Contracts see it as a `Recorded`.
#[derive(Debug, Drop)]
pub struct Record {
    part: Option<Part>,
    asked: Vec<Asked>,
    features: FeatureLedger,
    told: ServerLedger,
    last: u64,
    errors: Vec<RunError>,
    notes: Vec<Remark>,
}

impl Model for Record {
    ghost use Rattle.record_text.specs.Records.{Recorded};

    ghost Value = { Recorded };

    ghost view = { λ r. record {
      part = r.part;
      asked = r.asked.items;
      features = r.features;
      told = r.told;
      last = r.last;
      errors = r.errors.items;
      notes = r.notes.items;
    } };
}

impl Record {
    pub(crate) fn new(head: Head, body: Body) -> Record
        ensures { result ≡ recorded head.part head.asked body }
    {
        Record {
            part: head.part,
            asked: head.asked,
            features: body.features,
            told: body.told,
            last: body.last,
            errors: body.errors,
            notes: body.notes,
        }
    }

    /// The name of the part, if one was given.
    pub fn part(&self) -> Option<&[u8]>
        ensures { option_map (λ p. p.now) result ≡ self.now.part }
    {
        match &self.part {
            Some(part) => Some(part.as_bytes()),
            None => None,
        }
    }

    /// The wanted features of the program for which it was written, in order.
    pub fn asked(&self) -> &[Asked]
        ensures asked { result.now ≡ self.now.asked }
    {
        self.asked.as_slice()
    }

    /// The features completed, in order: the first ones of those asked.
    pub fn features(&self) -> &[contact_ledger::Feature]
        ensures features { result.now ≡ self.now.features }
    {
        self.features.list()
    }

    /// The acts reported, in order, each with the number of its connection.
    pub fn told(&self) -> &ServerLedger
        ensures told { result.now ≡ self.now.told }
    {
        &self.told
    }

    /// The connection of the last line, which is the greatest; 0 if there is no line.
    pub fn last(&self) -> u64
        ensures last { result ≡ self.now.last }
    {
        self.last
    }

    /// The errors that the server reported during the run of a completed feature, in order: those after the first contact of the run.
    pub fn errors(&self) -> &[RunError]
        ensures errors { result.now ≡ self.now.errors }
    {
        self.errors.as_slice()
    }

    /// What else is noted, in order.
    pub fn notes(&self) -> &[Remark]
        ensures notes { result.now ≡ self.now.notes }
    {
        self.notes.as_slice()
    }

    /// The features and the acts.
    pub fn into_parts(self) -> (FeatureLedger, ServerLedger)
        ensures features { result.0 ≡ self.features }
        ensures told { result.1 ≡ self.told }
    {
        (self.features, self.told)
    }
}
