// The text of a record that grows during a run.

ghost use Rattle.std.specs.Prelude.{◌≡◌, ◌∷◌, [], ℕ, map, length, OnOk, OnErr};
ghost use Rattle.record_text.specs.Growths.{begun, with_acts, with_notes, AddsErrors};
ghost use Rattle.record_text.specs.Entries.{error_note};
ghost use Rattle.record_text.specs.Notes.{IsNoteText};

use crate::note_writing::{write_note, write_refused};
use crate::notes::Note;
use crate::telling::Telling;
use client_core::Client;
use std::alloc::AllocError;
use std::marker::Model;

/// The record of a run as it grows: its text, what is counted, and how many of the acts of its connection are in the text.
#[derive(Drop)]
pub struct Growth {
    telling: Telling,
    told: usize,
    text: Vec<u8>,
}

impl Model for Growth {
    ghost use Rattle.record_text.specs.Growths.{Growth};

    ghost Value = { Growth };

    ghost view = { λ g. record { telling = g.telling; told = g.told; text = g.text.items } };
}

impl Growth {
    /// The record of a run on the connection of this number, which begins with this many features complete and this text.
    pub fn new(connection: u64, features: usize, text: Vec<u8>) -> Growth
        ensures { result ≡ begun connection 0 features text.items }
    {
        Growth {
            telling: Telling::new(connection, features),
            told: 0,
            text,
        }
    }

    /// The whole record.
    pub fn text(&self) -> &[u8]
        ensures { result.now ≡ self.now.text }
    {
        self.text.as_slice()
    }

    /// How many features of it are complete.
    pub fn features(&self) -> usize
        ensures { result ≡ self.now.telling.counted.features }
    {
        self.telling.features()
    }

    /// Adds the lines of the acts that the client has counted since. Fails only if out of memory, and then nothing is added.
    pub fn tell(&mut self, client: &Client) -> Result<(), AllocError>
        ensures ok { OnOk result (self.new ≡ with_acts client.now.client.program.features
            client.now.client.table.tally.counted self.old) }
        ensures err { OnErr result (self.new ≡ self.old) }
    {
        let acts = client.counted();
        if self.told < acts.len() {
            let (_, since) = acts.split_at(self.told);
            self.telling.tell(&mut self.text, client.program(), since)?;
        }
        self.told = acts.len();
        Ok(())
    }

    /// Adds the lines of errors that the server reported. Fails only if out of memory, and then the first of them are added.
    pub fn tell_errors(&mut self, errors: &[Vec<u8>]) -> Result<(), AllocError>
        ensures ok { OnOk result (self.new
            ≡ with_notes (map error_note (map (λ e. e.items) errors.now)) self.old) }
        ensures err { OnErr result ((n : ℕ) × AddsErrors (map (λ e. e.items) errors.now) self.old
            self.new n) }
    {
        let connection = self.telling.connection();
        for error in errors {
            write_refused(&mut self.text, connection, error.as_slice())?;
        }
        Ok(())
    }

    /// Adds the line of a note that says this. Fails only if out of memory, and then nothing is added.
    ///
    /// The caller must ensure that it can say it (`can_say`).
    pub fn tell_note(&mut self, note: Note, text: &[u8]) -> Result<(), AllocError>
        ensures ok { OnOk result (self.new ≡ with_notes ((note, text.now) ∷ []) self.old) }
        ensures err { OnErr result (self.new ≡ self.old) }
    {
        write_note(&mut self.text, self.telling.connection(), note, text)
    }
}
