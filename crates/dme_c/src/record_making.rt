// A client from the texts and the record that a caller has.

ghost use Rattle.std.specs.Prelude.{ℕ, List, ◌≡◌, ◌≢◌, ◌↔◌, ◌≤◌, ◌<◌, [], IfOk, OnOk, IfErr, IsSome, IfSome, IsTrue, None, option_map, length, take, drop, true};
ghost use Rattle.fixed_um.specs.Names.{IsName};
ghost use Rattle.contact_ledger.specs.Lines.{text_of};
ghost use Rattle.record_text.specs.Heads.{IsPartGiven, head_lines};
ghost use Rattle.protocol_model.specs.Claims.{Sound};
ghost use Rattle.protocol_model.specs.Ends.{new_client_end};
ghost use Rattle.client_core.specs.Clients.{is_window};
ghost use Rattle.dme_c.specs.Beginning.{Asks, IsBadPart, IsBegun, IsLabel, IsNoWindow, IsNumberOf, IsOfRecord, IsWhyNot};
ghost use Rattle.dme_c.specs.Beginning.{RefusesRecord, label_in, line_in, not_begun_number, part_of};
ghost use Rattle.dme_c.specs.Continuing.{ContinuesBytes, IsDue, IsDueFor, IsOfTexts, RefusesBytes};
ghost use Rattle.dme_c.specs.Making.{AnswersJust, IsBadSetup, IsBadProgram};
ghost use Rattle.dme_c.specs.Recordings.{next_number};
ghost use Rattle.record_text.specs.Beginnings.{BeginsWith};
ghost use Rattle.record_text.specs.declared.opening.RecordRefusal.TheVariants as refusal;
ghost use Rattle.record_text.specs.declared.versions.Version.TheVariants.{Second};

use crate::codes::NotMade;
use crate::handles::{ClientHandle, RecordHandle};
use crate::recordings::Recording;
use crate::room::copy_whole;
use crate::texts::{program_read, setup_read};
use client_core::Client;
use contact_ledger::{FeatureLedger, ServerLedger};
use dmis_program::Program;
use fixed_um::Name;
use line_framing::ByteQueue;
use record_text::{Beginning, RecordRefusal, begin_record, is_part, write_head};
use std::alloc::{AllocError, Global};

/// Why no client is made of a record.
#[derive(Drop)]
pub(crate) enum NotBegun {
    Memory,
    BadSetup,
    BadProgram,
    BadPart,
    BadWindow,
    Damaged(u64),
    OtherPart,
    OtherProgram(Name),
}

impl From<AllocError> for NotBegun {
    ghost use Rattle.std.specs.Prelude.{◌≡◌};
    ghost use Rattle.dme_c.specs.declared.record_making.NotBegun.TheVariants.{Memory};

    ghost from_gives = { λ _ e. e ≡ Memory };

    fn from(_error: AllocError) -> NotBegun {
        NotBegun::Memory
    }
}

/// A client with its record, and how many bytes of the record the caller's file has.
#[derive(Drop)]
pub(crate) struct Begun {
    pub client: Box<Client>,
    pub recording: Box<Recording>,
    pub held: usize,
}

/// The part that a text names; none if it is empty.
fn part_in(text: &[u8]) -> Option<&[u8]>
    ensures { option_map (λ p. p.now) result ≡ part_of text.now }
{
    if text.is_empty() { None } else { Some(text) }
}

/// The program of the texts, if nothing but the record may be refused.
fn asked(
    alloc: Global,
    setup: &[u8],
    program: &[u8],
    part: &[u8],
    window: u8,
) -> Result<Program, NotBegun>
    ensures asks { IfOk result (Asks setup.now program.now part.now) }
    ensures window { OnOk result (is_window window ≡ true) }
    ensures refused { IfErr result (IsWhyNot setup.now program.now part.now window) }
    ensures texts { IfErr result IsOfTexts }
{
    let setup = match setup_read(alloc, setup) {
        Ok(setup) => setup,
        Err(NotMade::Memory) => return Err(NotBegun::Memory),
        Err(_) => return Err(NotBegun::BadSetup),
    };
    let program = match program_read(alloc, setup.frames(), program) {
        Ok(program) => program,
        Err(NotMade::Memory) => return Err(NotBegun::Memory),
        Err(_) => return Err(NotBegun::BadProgram),
    };
    if !part.is_empty() && !is_part(part) {
        return Err(NotBegun::BadPart);
    }
    if window < 1 || window > 16 {
        return Err(NotBegun::BadWindow);
    }
    Ok(program)
}

fn beginning_of(
    alloc: Global,
    bytes: &[u8],
    program: &Program,
    part: &[u8],
) -> Result<Beginning, NotBegun>
    ensures begun { IfOk result (λ begun. Sound program.now.features begun.features begun.told) }
    ensures continues { IfOk result (BeginsWith (part_of part.now) program.now.features bytes.now) }
    ensures refused { IfErr result IsOfRecord }
    ensures due { IfErr result (IsDueFor (part_of part.now) program.now.features bytes.now) }
{
    match begin_record(alloc, bytes, program, part_in(part)) {
        Ok(begun) => Ok(begun),
        Err(RecordRefusal::Damaged(line)) => Err(NotBegun::Damaged(line)),
        Err(RecordRefusal::OtherPart) => Err(NotBegun::OtherPart),
        Err(RecordRefusal::OtherProgram(label)) => Err(NotBegun::OtherProgram(label)),
        Err(RecordRefusal::Memory) => Err(NotBegun::Memory),
    }
}

/// The bytes that are to be taken at first: the head, if the caller's file has no byte of the record.
fn first_bytes(
    alloc: Global,
    program: &Program,
    part: &[u8],
    held: usize,
) -> Result<ByteQueue, AllocError>
    ensures new { IfOk result (λ waiting. held ≡ 0
        → waiting.waiting
        ≡ text_of (head_lines Second (part_of part.now) program.now.features)) }
    ensures old { IfOk result (λ waiting. held ≢ 0 → waiting.waiting ≡ []) }
{
    let mut waiting = ByteQueue::new(alloc);
    if held == 0 {
        write_head(waiting.as_mut_vec(), part_in(part), program)?;
    }
    Ok(waiting)
}

fn continued(
    alloc: Global,
    program: Program,
    features: FeatureLedger,
    told: &ServerLedger,
    window: u8,
) -> Client
    requires sound { Sound program.features features told.now }
    requires window { is_window window ≡ true }
    ensures { result ≡ new_client_end program features window }
{
    let _of = told;
    match Client::new(alloc, program, features, window) {
        Ok(client) => client,
        Err(_) => unreachable!(),
    }
}

/// A client of a program and its record, of what is kept of the record.
fn begun_of(
    alloc: Global,
    program: Program,
    part: &[u8],
    bytes: &[u8],
    window: u8,
) -> Result<Begun, NotBegun>
    requires window { is_window window ≡ true }
    ensures begun { (setup text : List ℕ) → Asks setup text part.now program → IfOk result (λ b.
        IsBegun setup text part.now window b.held b.client.value b.recording.value) }
    ensures continues { (setup text : List ℕ) → Asks setup text part.now program
        → IfOk result (λ b. ContinuesBytes setup text part.now bytes.now window b.held b.client.value
        b.recording.value) }
    ensures refused { IfErr result IsOfRecord }
    ensures due { IfErr result (IsDueFor (part_of part.now) program.features bytes.now) }
{
    let begun = match beginning_of(alloc, bytes, &program, part) {
        Ok(begun) => begun,
        Err(why) => return Err(why),
    };
    let Ok(waiting) = first_bytes(alloc, &program, part, begun.held) else {
        return Err(NotBegun::Memory);
    };
    let last = begun.connection.saturating_sub(1);
    let recording = Recording::new(last, begun.features.list().len(), waiting);
    let client = continued(alloc, program, begun.features, &begun.told, window);
    let Ok(client) = Box::new(alloc, client) else {
        return Err(NotBegun::Memory);
    };
    let Ok(recording) = Box::new(alloc, recording) else {
        return Err(NotBegun::Memory);
    };
    Ok(Begun {
        client,
        recording,
        held: begun.held,
    })
}

/// A client and its record, of the texts and what is kept of the record.
#[tactic(auto, using(crate::proofs::Beginning::all_due, crate::proofs::Beginning::all_of_record, crate::proofs::Beginning::texts_due))]
fn begun_read(
    alloc: Global,
    setup: &[u8],
    program: &[u8],
    part: &[u8],
    bytes: &[u8],
    window: u8,
) -> Result<Begun, NotBegun>
    ensures begun { IfOk result (λ b.
        IsBegun setup.now program.now part.now window b.held b.client.value b.recording.value) }
    ensures continues { IfOk result (λ b. ContinuesBytes setup.now program.now part.now bytes.now
        window b.held b.client.value b.recording.value) }
    ensures refused { IfErr result (IsWhyNot setup.now program.now part.now window) }
    ensures due { IfErr result (IsDue setup.now program.now part.now bytes.now) }
{
    match asked(alloc, setup, program, part, window) {
        Ok(meant) => begun_of(alloc, meant, part, bytes, window),
        Err(why) => Err(why),
    }
}

/// What a caller learns of a record: the number of the answer, the line that is damaged, the number of the next connection, how many of
/// its bytes are whole lines, and how many bytes the label of the feature has that differs.
#[repr(C)]
#[derive(Drop)]
pub struct Started {
    pub number: u32,
    pub line: u64,
    pub connection: u64,
    pub held: usize,
    pub label: usize,
}

fn not_begun_number(why: &NotBegun) -> u32
    ensures { result ≡ not_begun_number why.now }
{
    match why {
        NotBegun::Memory => 3,
        NotBegun::BadSetup => 4,
        NotBegun::BadProgram => 5,
        NotBegun::BadPart => 12,
        NotBegun::BadWindow => 7,
        NotBegun::Damaged(_) => 9,
        NotBegun::OtherPart => 10,
        NotBegun::OtherProgram(_) => 11,
    }
}

fn line_in(why: &NotBegun) -> u64
    ensures { result ≡ line_in why.now }
{
    match why {
        NotBegun::Damaged(line) => *line,
        _ => 0,
    }
}

/// The label of the feature that differs.
fn label_in(why: &NotBegun) -> &[u8]
    ensures label { result.now ≡ label_in why.now }
    ensures named { IsLabel why.now }
{
    match why {
        NotBegun::OtherProgram(label) => label.as_bytes(),
        _ => &[],
    }
}

/// Why nothing is made; the label is copied into the room if it fits.
fn refused(why: NotBegun, room: &mut [u8]) -> Started
    ensures number { result.number ≡ not_begun_number why }
    ensures line { result.line ≡ line_in why }
    ensures label { result.label ≡ length (label_in why) }
    ensures named { IsLabel why }
    ensures front { result.label ≤ length room.old
        → take result.label room.new ≡ label_in why }
    ensures beside { result.label ≤ length room.old
        → drop result.label room.new ≡ drop result.label room.old }
    ensures long { length room.old < result.label → room.new ≡ room.old }
    ensures others { (result.connection ≡ 0) × (result.held ≡ 0) }
{
    Started {
        number: not_begun_number(&why),
        line: line_in(&why),
        connection: 0,
        held: 0,
        label: copy_whole(label_in(&why), room),
    }
}

/// Makes a client that continues the record of a run, and its record, of the texts of a setup and a program, the name of the part (none if
/// it is empty) and the bytes of the record. If it answers a number other than 0, neither is held.
#[unsafe(no_mangle)]
pub extern "C" fn dme_record_begin(
    kept: &mut RecordHandle,
    client: &mut ClientHandle,
    alloc: Global,
    setup: &[u8],
    program: &[u8],
    part: &[u8],
    bytes: &[u8],
    window: u8,
    room: &mut [u8],
) -> Started
    requires kept { kept.old.held ≡ None }
    requires client { client.old.held ≡ None }
    ensures made { result.number ≡ 0 → IsSome client.new.held × IsSome kept.new.held }
    ensures refused { result.number ≢ 0
        → (client.new.held ≡ None) × (kept.new.held ≡ None) }
    ensures begun { IfSome client.new.held (λ e. IfSome kept.new.held (λ r.
        IsBegun setup.now program.now part.now window result.held e r
        × (result.connection ≡ next_number r))) }
    // What is made continues the record that the bytes are, or begins one if they hold no record yet.
    ensures continues { IfSome client.new.held (λ e. IfSome kept.new.held (λ r.
        ContinuesBytes setup.now program.now part.now bytes.now window result.held e r)) }
    // The bytes are refused only for what they are.
    ensures damaged { result.number ≡ 9
        → RefusesBytes setup.now program.now part.now bytes.now (refusal.Damaged result.line) }
    ensures other_part { result.number ≡ 10
        → RefusesBytes setup.now program.now part.now bytes.now refusal.OtherPart }
    ensures other_program { result.number ≡ 11 → result.label ≤ length room.old
        → RefusesBytes setup.now program.now part.now bytes.now
        (refusal.OtherProgram (take result.label room.new)) }
    ensures bad_setup { AnswersJust result.number 4 (IsBadSetup setup.now) }
    ensures bad_program { AnswersJust result.number 5 (IsBadProgram setup.now program.now) }
    ensures bad_part { AnswersJust result.number 12
        (IsBadPart setup.now program.now part.now) }
    ensures bad_window { AnswersJust result.number 7
        (IsNoWindow setup.now program.now part.now window) }
    ensures of_record { RefusesRecord setup.now program.now part.now window result.number }
    ensures line { result.number ≢ 9 → result.line ≡ 0 }
    ensures label { result.number ≢ 11 → (result.label ≡ 0) × (room.new ≡ room.old) }
    ensures named { result.number ≡ 11 → result.label ≤ length room.old
        → IsName (take result.label room.new) }
    ensures beside { result.label ≤ length room.old
        → drop result.label room.new ≡ drop result.label room.old }
    ensures long { length room.old < result.label → room.new ≡ room.old }
    ensures number { IsNumberOf result.number }
{
    match begun_read(alloc, setup, program, part, bytes, window) {
        Ok(begun) => {
            let connection = begun.recording.next_connection();
            client.put(begun.client);
            kept.put(begun.recording);
            Started {
                number: 0,
                line: 0,
                connection,
                held: begun.held,
                label: 0,
            }
        }
        Err(why) => refused(why, room),
    }
}
