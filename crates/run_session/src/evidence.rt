// What the record notes of the run: who ran it, with what, and when; and its seal.

ghost use Rattle.std.specs.Prelude.{◌≡◌, ◌∷◌, ◌++◌, [], true, false, IfOk, OnOk, map, option_map, string_bytes};
ghost use Rattle.effects.specs.Effects.{the_reply};
ghost use Rattle.record_text.specs.Notes.{IsNoteText, is_error};
ghost use Rattle.run_session.specs.Ends as ends;
ghost use Rattle.run_session.specs.Evidence as noting;
ghost use Rattle.run_session.specs.Records as spec;

use crate::{Session, Stage};
use client_core::{ClientFault, State};
use effects::Answer;
use link_world::PumpFault;
use record_text::{Growth, Note, can_say, seal_of};
use std::alloc::{AllocError, Global};
use std::marker::Model;

/// Something that a record notes: what it is about, and what it says. Contracts see both.
#[derive(Drop)]
pub struct Noted {
    note: Note,
    text: Vec<u8>,
}

impl Model for Noted {
    ghost use Rattle.record_text.specs.Notes.{Says};

    ghost Value = { Says };

    ghost view = { λ n. (n.note, n.text.items) };
}

impl Noted {
    /// A note that says this. Fails only if out of memory.
    pub fn new(alloc: Global, note: Note, text: &[u8]) -> Result<Noted, AllocError>
        ensures { IfOk result (λ noted. noted ≡ (note, text.now)) }
    {
        let text = Vec::from_slice(alloc, text)?;
        Ok(Noted { note, text })
    }

    /// A note that says a time, and this.
    fn at(alloc: Global, note: Note, time: &[u8], what: &[u8]) -> Result<Noted, AllocError>
        ensures { IfOk result (λ noted. noted ≡ (note, time.now ++ 32 ∷ what.now)) }
    {
        let mut text = Vec::from_slice(alloc, time)?;
        text.push(b' ')?;
        text.extend_from_slice(what)?;
        Ok(Noted { note, text })
    }
}

/// What is to be noted, and what was.
#[derive(Drop)]
pub(crate) struct Noting {
    /// What is noted of the run as its connection is made, if anything is noted.
    given: Option<Vec<Noted>>,
    /// Whether the connection was noted, and its end.
    has_opened: bool,
    has_left: bool,
    /// How many features were noted as complete, or were complete before.
    dated: usize,
}

impl Model for Noting {
    ghost use Rattle.run_session.specs.Evidence.{Notes};
    ghost use Rattle.std.specs.Prelude.{option_map};

    ghost Value = { Notes };

    ghost view = { λ n. record {
      given = option_map (λ notes. notes.items) n.given;
      opened = n.has_opened;
      left = n.has_left;
      dated = n.dated;
    } };
}

impl Noting {
    /// Nothing was noted, with this many features complete; and nothing is, unless there is a record.
    pub(crate) fn new(keeps: bool, given: Option<Vec<Noted>>, complete: usize) -> Noting
        ensures { result ≡ record {
          given = noting.given_notes keeps (option_map (λ notes. notes.items) given);
          opened = false;
          left = false;
          dated = complete;
        } }
    {
        Noting {
            given: if keeps { given } else { None },
            has_opened: false,
            has_left: false,
            dated: complete,
        }
    }

    /// Whether something is to be noted once this many features are complete, and the run on the connection is over or not.
    fn has_due(&self, complete: usize, is_over: bool) -> bool
        ensures { result ≡ noting.has_due self.now complete is_over }
    {
        self.given.is_some()
            && (!self.has_opened || complete > self.dated || (is_over && !self.has_left))
    }

    /// What is given, unless it was noted.
    fn given(&self) -> &[Noted]
        ensures { result.now ≡ noting.given_due self.now }
    {
        match &self.given {
            Some(given) if !self.has_opened => given.as_slice(),
            _ => &[],
        }
    }

    /// What is due at this time besides that, in order; how the run on the connection has ended, if it is over. Fails only if out of memory.
    fn made(
        &self,
        alloc: Global,
        time: &[u8],
        server: &[u8],
        complete: usize,
        end: Option<&[u8]>,
    ) -> Result<Vec<Noted>, AllocError>
        ensures { IfOk result (λ notes. notes.items ≡ noting.made self.now time.now server.now
            complete (option_map (λ how. how.now) end.entry)) }
    {
        let mut notes = Vec::new(alloc);
        if self.given.is_none() {
            return Ok(notes);
        }
        if !self.has_opened {
            notes.push(Noted::at(alloc, Note::Opened, time, server)?)?;
        }
        if complete > self.dated {
            notes.push(Noted::new(alloc, Note::Dated, time)?)?;
        }
        if let Some(how) = end
            && !self.has_left
        {
            notes.push(Noted::at(alloc, Note::Left, time, how)?)?;
        }
        Ok(notes)
    }

    /// It was noted.
    fn pass(&mut self, complete: usize, is_over: bool)
        ensures { self.new ≡ noting.passed self.old complete is_over }
    {
        self.has_opened = true;
        self.has_left = is_over;
        self.dated = complete;
    }
}

/// Whether the record can say this.
fn says(note: Note, text: &[u8]) -> bool
    ensures can { result ≡ noting.can_say (note, text.now) }
    ensures said { result ≡ true → IsNoteText note text.now }
{
    can_say(note, text)
}

/// Whether the record can note this: it is no error of its server, and no seal, and can be said.
fn can_note(note: Note, text: &[u8]) -> bool
    ensures can { result ≡ noting.can_note (note, text.now) }
    ensures said { result ≡ true → IsNoteText note text.now }
    ensures other { result ≡ true → is_error note ≡ false }
{
    !matches!(note, Note::Refused | Note::Sealed) && says(note, text)
}

/// A record gets a note, if it can. Fails only if out of memory.
fn add_note(growth: &mut Growth, note: Note, text: &[u8], can: bool) -> Result<(), AllocError>
    requires said { can ≡ true → IsNoteText note text.now }
    requires other { can ≡ true → is_error note ≡ false }
    ensures exact { OnOk result (growth.new ≡ spec.with_note can (note, text.now) growth.old) }
    ensures adds { spec.AddsNotes growth.old growth.new }
{
    if can {
        growth.tell_note(note, text)
    } else {
        Ok(())
    }
}

/// A record gets those of these notes that it can say. Fails only if out of memory.
fn add_notes(growth: &mut Growth, notes: &[Noted]) -> Result<(), AllocError>
    ensures exact { OnOk result (growth.new ≡ spec.with_said notes.now growth.old) }
    ensures adds { spec.AddsNotes growth.old growth.new }
{
    let mut left = notes;
    while let [noted, others @ ..] = left {
        let text = noted.text.as_slice();
        add_note(growth, noted.note, text, can_note(noted.note, text))?;
        left = others;
    }
    Ok(())
}

/// A record is sealed once its run is over, if it has a key. Fails only if out of memory.
fn add_seal(
    growth: &mut Growth,
    alloc: Global,
    is_over: bool,
    key: &Option<Vec<u8>>,
) -> Result<(), AllocError>
    ensures exact { OnOk result (growth.new ≡ spec.seal_if is_over
        (option_map (λ key. key.items) key.now) growth.old) }
    ensures adds { spec.AddsNotes growth.old growth.new }
{
    let Some(key) = key else {
        return Ok(());
    };
    if !is_over {
        return Ok(());
    }
    let seal = seal_of(alloc, key.as_slice(), growth.text())?;
    let text = seal.as_bytes();
    add_note(growth, Note::Sealed, text, says(Note::Sealed, text))
}

/// How a connection ended: why it was broken off, or in which state its client was.
fn how_left(broken: Option<PumpFault<ClientFault>>, is_stopped: bool, state: State) -> &'static [u8]
    ensures { result.now ≡ noting.how_left broken is_stopped state }
{
    match (broken, state) {
        (Some(PumpFault::Ended), _) => b"closed by the server",
        (Some(_), _) => b"broken off",
        (None, State::Done) => b"done",
        (None, _) if is_stopped => b"stopped",
        (None, _) => b"failed",
    }
}

impl Session {
    /// Whether there is something to note, with its time, if the run on the connection is over or not.
    pub(crate) fn has_to_note(&self, is_over: bool) -> bool
        ensures { result ≡ spec.is_due self.now is_over }
    {
        self.noting.has_due(self.growth.features(), is_over)
    }

    /// How the run on the connection has ended, if it has.
    fn ended(&self) -> Option<&'static [u8]>
        ensures { option_map (λ how. how.now) result
            ≡ noting.ended self.now.course self.now.pair.end.client.state }
    {
        if !self.is_over() {
            return None;
        }
        if self.lapse.is_some() {
            return Some(b"no answer in time");
        }
        let state = self.client.state();
        Some(how_left(self.broken, self.is_stopped, state))
    }

    /// Its server.
    #[tactic(auto, unfolding(crate::specs::Evidence::server_text))]
    fn server(&self) -> Result<String, AllocError>
        ensures { IfOk result (λ server. string_bytes server ≡ self.now.course.server) }
    {
        let (host, port) = (self.run.host.as_str(), self.run.port);
        format!(in self.alloc; "{host} {port}")
    }

    /// What is due at this time besides what is given.
    fn made(&self, time: &[u8]) -> Result<Vec<Noted>, AllocError>
        ensures { IfOk result (λ notes. notes.items ≡ spec.made_at self.now time.now) }
    {
        let server = self.server()?;
        let (complete, end) = (self.growth.features(), self.ended());
        self.noting
            .made(self.alloc, time, server.as_bytes(), complete, end)
    }

    /// All that is due is noted, if the time is known. Fails only if out of memory.
    fn note_due(&mut self, answer: Answer<'_>) -> Result<(), AllocError>
        ensures exact { OnOk result (self.new
            ≡ spec.with_due self.old (spec.time_of (the_reply answer.entry))) }
        ensures ran { spec.KeepsNoting self.old self.new }
        ensures book { self.new.book ≡ self.old.book }
        ensures told { spec.StaysTold self.old self.new }
        ensures still { ends.IsStill self.old self.new }
    {
        let Answer::Bytes(time) = answer else {
            return Ok(());
        };
        let made = self.made(time)?;
        add_notes(&mut self.growth, self.noting.given())?;
        add_notes(&mut self.growth, made.as_slice())
    }

    /// What was due is noted, or could not be. As the connection ends, the record is sealed. Fails only if out of memory.
    fn close_notes(&mut self) -> Result<(), AllocError>
        ensures exact { OnOk result (self.new ≡ spec.closed self.old) }
        ensures ran { spec.KeepsNoting self.old self.new }
        ensures book { self.new.book
            ≡ record (self.old.book) { noted = self.new.book.noted } }
        ensures told { spec.StaysTold self.old self.new }
        ensures still { ends.IsStill self.old self.new }
    {
        let (complete, is_over) = (self.growth.features(), self.is_over());
        add_seal(&mut self.growth, self.alloc, is_over, &self.run.key)?;
        self.noting.pass(complete, is_over);
        Ok(())
    }

    /// The time is known, or not: then it is not noted.
    #[tactic(auto, using(crate::proofs::Steps::still_on))]
    pub(crate) fn noted(&mut self, answer: Answer<'_>) -> Result<(), AllocError>
        requires { self.old.stage ≡ Stage.Noting }
        ensures exact { OnOk result (spec.Keeps (spec.noted_now self.old (the_reply answer.entry))
            self.new) }
        ensures ran { spec.KeepsNoting self.old self.new }
        ensures book { self.new.book
            ≡ record (self.old.book) { noted = self.new.book.noted } }
        ensures passes { OnOk result (self.new.book.noted
            ≡ (spec.noted_now self.old (the_reply answer.entry)).book.noted) }
        ensures due { OnOk result (spec.IsDue self.new) }
        ensures followed { OnOk result (spec.FollowsTold self.old self.new) }
        ensures nears { ends.is_closing self.old ≡ true
            → ends.FollowsOn result self.old self.new }
    {
        if let Answer::Short = answer {
            return Err(AllocError);
        }
        self.note_due(answer)?;
        self.close_notes()?;
        self.record()
    }
}
