// What a record's text gives a run to continue from.

ghost use Rattle.std.specs.Prelude.{◌≡◌, ◌≤◌, ℕ, List, length, take, option_map, Err, IfOk, OnOk, IfErr};
ghost use Rattle.record_text.specs.Names.{connection_most, Sound, Recorded, AreWhole, IsNew, Continues, IsSame, RefusesSame, BeginsRun};

use crate::faults::RecordFault;
use crate::head_writing::write_head;
use crate::record_reading::read_record;
use crate::records::Record;
use crate::strangers::{is_of_part, other_feature};
use contact_ledger::{FeatureLedger, ServerLedger};
use dmis_program::Program;
use fixed_um::Name;
use std::alloc::{AllocError, Global};
use thiserror::Error;

/// Why a run may not continue a record.
#[derive(Debug, Drop, Error)]
pub enum RecordRefusal {
    /// The line of this number, counted from 1, cannot be where it is.
    #[error("J1 Damaged at line {0}")]
    Damaged(u64),
    /// The record is of another part.
    #[error("J2 OtherPart")]
    OtherPart,
    /// The record is of another program: this feature of it differs.
    #[error("J3 OtherProgram (feature {0})")]
    OtherProgram(Name),
    /// Out of memory.
    #[error("out of memory")]
    Memory,
}

impl From<AllocError> for RecordRefusal {
    ghost use Rattle.std.specs.Prelude.{◌≡◌};
    ghost use Rattle.record_text.specs.declared.opening.RecordRefusal.TheVariants.{Memory};

    ghost from_gives = { λ _ e. e ≡ Memory };

    fn from(_error: AllocError) -> RecordRefusal {
        RecordRefusal::Memory
    }
}

/// What a run continues from: the features that are completed, the number of its connection, and the whole lines of the record.
#[derive(Drop)]
pub struct Beginning {
    /// The features that the record completes.
    pub features: FeatureLedger,
    /// The acts that it says a server reported.
    pub told: ServerLedger,
    /// The number of the run's connection: one above the greatest in the record.
    pub connection: u64,
    /// The record as the run finds it: its whole lines, or the head of a new one.
    pub text: Vec<u8>,
    /// How many bytes of the text the file holds. What follows them in the file is torn.
    pub held: usize,
}

/// The number of bytes up to and including the last line feed.
fn whole_length(bytes: &[u8]) -> usize
    ensures within { result ≤ length bytes.now }
    ensures whole { AreWhole bytes.now (take result bytes.now) }
{
    let mut held = bytes.len();
    while held > 0 {
        if bytes[held - 1] == b'\n' {
            return held;
        }
        held -= 1;
    }
    0
}

fn is_same(
    alloc: Global,
    found: &Record,
    program: &Program,
    part: Option<&[u8]>,
) -> Result<(), RecordRefusal>
    ensures same { OnOk result (IsSame (option_map (λ p. p.now) part.entry) program.now.features
        found.now) }
    ensures refused { IfErr result (RefusesSame (option_map (λ p. p.now) part.entry)
        program.now.features found.now) }
{
    if !is_of_part(found, part) {
        return Err(RecordRefusal::OtherPart);
    }
    match other_feature(found, program) {
        None => Ok(()),
        Some(label) => Err(RecordRefusal::OtherProgram(label.copy(alloc)?)),
    }
}

/// What a run begins with if the file holds no record yet. Fails only if out of memory.
fn begin_new(alloc: Global, program: &Program, part: Option<&[u8]>) -> Result<Beginning, AllocError>
    ensures { IfOk result (IsNew (option_map (λ p. p.now) part.entry) program.now.features) }
{
    let mut text = Vec::new(alloc);
    write_head(&mut text, part, program)?;
    Ok(Beginning {
        features: FeatureLedger::new(alloc),
        told: ServerLedger::new(alloc),
        connection: 1,
        text,
        held: 0,
    })
}

/// What a run continues from a record: the whole lines of its text. Fails only if out of memory.
fn continued(alloc: Global, bytes: &[u8], found: Record) -> Result<Beginning, AllocError>
    requires { found.last ≤ connection_most }
    ensures { IfOk result (Continues bytes.now found) }
{
    let connection = found.last() + 1;
    let held = whole_length(bytes);
    let (whole, _) = bytes.split_at(held);
    let mut text = Vec::new(alloc);
    text.extend_from_slice(whole)?;
    let (features, told) = found.into_parts();
    Ok(Beginning {
        features,
        told,
        connection,
        text,
        held,
    })
}

/// What a run of a program on a part continues from, if its record's file holds these bytes: a new record if they hold none yet. The
/// features are sound for the reported acts, whatever the bytes are: each record is.
///
/// `Damaged`, `OtherPart`, `OtherProgram`: the file must then be left as it is. A part that is given must be one (`is_part`).
pub fn begin_record(
    alloc: Global,
    bytes: &[u8],
    program: &Program,
    part: Option<&[u8]>,
) -> Result<Beginning, RecordRefusal>
    ensures begins { BeginsRun (option_map (λ p. p.now) part.entry) program.now.features bytes.now
        result }
    ensures sound { IfOk result (λ b. Sound program.now.features b.features b.told) }
{
    match read_record(alloc, bytes) {
        Ok(Some(found)) => {
            is_same(alloc, &found, program, part)?;
            let begun = continued(alloc, bytes, found)?;
            Ok(begun)
        }
        Ok(None) => Ok(begin_new(alloc, program, part)?),
        Err(RecordFault::Damaged(line)) => Err(RecordRefusal::Damaged(line)),
        Err(RecordFault::Memory) => Err(RecordRefusal::Memory),
    }
}
