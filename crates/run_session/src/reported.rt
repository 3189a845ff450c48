// The file of contacts that a server reports during a run.

ghost use Rattle.std.specs.Prelude.{◌≡◌, ◌++◌, IfOk, OnOk, OnErr, false, length, map, drop};
ghost use Rattle.contact_ledger.specs.ContactTexts.{act_line, contacts_text};
ghost use Rattle.contact_ledger.specs.Lines.{text_of};
ghost use Rattle.record_text.specs.Told.{numbered};

use client_core::Client;
use contact_ledger::{ServerLedger, add_entry, write_contacts};
use std::alloc::{AllocError, Global};

/// The acts that were reported, as a text, of which a file has the first bytes.
#[derive(Drop)]
pub struct Reported {
    /// The whole text.
    pub text: Vec<u8>,
    /// How many of the acts that the client has counted on its connection are in it.
    pub told: usize,
    /// How many of its bytes the file has.
    pub filed: usize,
    /// Whether the file could not be kept.
    pub has_failed: bool,
}

impl Reported {
    /// The text of these acts. Fails only if out of memory.
    pub fn new(alloc: Global, ledger: &ServerLedger) -> Result<Reported, AllocError>
        ensures text { IfOk result (λ r. r.text.items ≡ contacts_text ledger.now) }
        ensures told { IfOk result (λ r. r.told ≡ 0) }
        ensures kept { IfOk result (λ r. r.has_failed ≡ false) }
        ensures filed { IfOk result (λ r. r.filed ≡ length (contacts_text ledger.now)) }
    {
        let mut text = Vec::new(alloc);
        write_contacts(&mut text, ledger)?;
        let filed = text.len();
        Ok(Reported {
            text,
            told: 0,
            filed,
            has_failed: false,
        })
    }

    /// Adds the acts that a client has counted since, on its connection of this number, or nothing. Fails only if out of memory.
    pub fn follow(&mut self, number: u64, client: &Client) -> Result<(), AllocError>
        ensures text { OnOk result (self.new.text.items ≡ self.old.text.items ++ text_of (map
            act_line (numbered number (drop self.old.told client.now.client.table.tally.counted)))) }
        ensures told { OnOk result (self.new.told ≡ length client.now.client.table.tally.counted) }
        ensures untold { OnErr result (self.new.text.items ≡ self.old.text.items)
            × OnErr result (self.new.told ≡ self.old.told) }
        ensures same { self.new
            ≡ record self.old { text = self.new.text; told = self.new.told } }
    {
        let acts = client.counted();
        let mut lines = Vec::new(*self.text.allocator());
        for act in acts.get(self.told..).unwrap_or(&[]) {
            add_entry(&mut lines, number, act)?;
        }
        self.text.extend_from_slice(lines.as_slice())?;
        self.told = acts.len();
        Ok(())
    }

    /// What the file lacks.
    pub fn lacking(&self) -> &[u8]
        ensures { result.now ≡ drop self.now.filed self.now.text.items }
    {
        self.text.as_slice().get(self.filed..).unwrap_or(&[])
    }

    /// The file has it.
    pub fn settle(&mut self)
        ensures { self.new ≡ record self.old { filed = length self.old.text.items } }
    {
        self.filed = self.text.len();
    }
}
