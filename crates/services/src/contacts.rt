// The contacts file of a service, and what it is to have next.

ghost use Rattle.std.specs.Prelude.{◌≡◌, ◌++◌, ◌&&◌, not, false, [], OnOk, IfOk, length, drop, map, is_some, string_bytes};
ghost use Rattle.std.specs.Option.{option_map_or};
ghost use Rattle.services.specs.Files as spec;
ghost use Rattle.contact_ledger.specs.Lines.{text_of};
ghost use Rattle.contact_ledger.specs.ContactTexts.{act_line, contacts_text};

use contact_ledger::{ServerLedger, add_entry, write_contacts};
use std::alloc::{AllocError, Global};

/// The names of a file that grows, and of those next to it for its next text and for what was in it before.
#[derive(Drop)]
pub struct GrowingNames {
    pub name: String,
    pub beside: String,
    pub old: String,
}

impl GrowingNames {
    pub fn new(alloc: Global, name: &str) -> Result<GrowingNames, AllocError>
        ensures { IfOk result (λ names. string_bytes names.name ≡ name.now) }
    {
        Ok(GrowingNames {
            name: String::from_str(alloc, name)?,
            beside: format!(in alloc; "{name}.new")?,
            old: format!(in alloc; "{name}.old")?,
        })
    }
}

/// The contacts file, if one is named.
#[derive(Drop)]
pub struct Contacts {
    alloc: Global,
    names: Option<GrowingNames>,
    /// Whether it grows.
    pub grows: bool,
    /// Whether there was more in it than the first bytes of its first text.
    pub has_more: bool,
    /// How many acts it has, with those in `text`.
    held: usize,
    /// What it is to have next.
    pub text: Vec<u8>,
    /// Whether it could not be kept.
    pub has_failed: bool,
}

impl Contacts {
    pub fn new(alloc: Global, name: Option<&str>) -> Result<Contacts, AllocError>
        ensures name { IfOk result (λ c. spec.name_of c.names
            ≡ option_map_or (λ name. name.now) name.entry []) }
        ensures text { IfOk result (λ c. c.text.items ≡ contacts_text []) }
        ensures held { IfOk result (λ c. c.held ≡ 0) }
        ensures grows { IfOk result (λ c. c.grows ≡ false) }
        ensures lost { IfOk result (λ c. c.has_failed ≡ false) }
    {
        let names = match name {
            Some(name) => Some(GrowingNames::new(alloc, name)?),
            None => None,
        };
        let mut text = Vec::new(alloc);
        write_contacts(&mut text, &ServerLedger::new(alloc))?;
        Ok(Contacts {
            alloc,
            names,
            grows: false,
            has_more: false,
            held: 0,
            text,
            has_failed: false,
        })
    }

    /// Whether one is named.
    pub fn is_named(&self) -> bool
        ensures { result ≡ is_some self.now.names }
    {
        self.names.is_some()
    }

    pub fn name(&self) -> &str
        ensures { result.now ≡ spec.name_of self.now.names }
    {
        self.names.as_ref().map_or("", |names| names.name.as_str())
    }

    pub fn beside(&self) -> &str {
        self.names
            .as_ref()
            .map_or("", |names| names.beside.as_str())
    }

    pub fn old(&self) -> &str {
        self.names.as_ref().map_or("", |names| names.old.as_str())
    }

    /// What was to be written has been.
    pub fn settle(&mut self)
        ensures text { self.new.text.items ≡ [] }
        ensures same { self.new ≡ record self.old { text = self.new.text } }
    {
        self.text.clear();
    }

    /// Whether it grows, and could be kept so far.
    pub fn is_kept(&self) -> bool
        ensures { result ≡ (self.now.grows && not self.now.has_failed) }
    {
        self.grows && !self.has_failed
    }

    /// What a server has done since is to be added. Fails only if out of memory.
    pub fn follow(&mut self, ledger: &ServerLedger) -> Result<(), AllocError>
        ensures text { OnOk result (self.new.text.items ≡ self.old.text.items
            ++ text_of (map act_line (drop self.old.held ledger.now))) }
        ensures held { OnOk result (self.new.held ≡ length ledger.now) }
        ensures same { OnOk result (spec.AreSame self.old self.new) }
    {
        let acts = ledger.acts();
        for (connection, act) in acts.get(self.held..).unwrap_or(&[]) {
            add_entry(&mut self.text, *connection, act)?;
        }
        self.held = acts.len();
        Ok(())
    }

    /// All that a server has done is to be written. Fails only if out of memory.
    pub fn whole(&mut self, ledger: &ServerLedger) -> Result<(), AllocError>
        ensures { OnOk result (self.new.text.items ≡ contacts_text ledger.now) }
    {
        let mut text = Vec::new(self.alloc);
        write_contacts(&mut text, ledger)?;
        self.text = text;
        Ok(())
    }
}
