// The features file, and what it is to have next.

ghost use Rattle.std.specs.Prelude.{◌≡◌, OnOk, IfOk, drop, length};
ghost use Rattle.std.specs.List.{AllByRecursion};
ghost use Rattle.contact_ledger.specs.FeatureTexts.{CanBeWritten};
ghost use Rattle.order_parts.specs.Kept.{IsFeaturesText};
ghost use Rattle.run_session.specs.Records as spec;

use client_core::Client;
use contact_ledger::{Feature, write_features};
use std::alloc::{AllocError, Global};

/// How many bytes the first line of a features file has, with its LF.
const FIRST_LINE: usize = 15;

/// The features file of a run.
#[derive(Drop)]
pub struct Listed {
    /// How many features it has, with those of `text`.
    pub held: usize,
    /// How many of them are on the device.
    pub settled: usize,
    /// What it is to have next.
    pub text: Vec<u8>,
    /// Whether it grows, and could be kept.
    pub is_kept: bool,
}

/// The lines of a features file after its first one.
fn without_first_line(text: &[u8]) -> &[u8]
    ensures { result.now ≡ drop 15 text.now }
{
    text.get(FIRST_LINE..).unwrap_or(&[])
}

/// The lines of these features. Fails only if out of memory.
#[tactic(auto, using(crate::proofs::Growing::headless))]
fn lines_of(alloc: Global, features: &[Feature]) -> Result<Vec<u8>, AllocError>
    requires { AllByRecursion CanBeWritten features.now }
    ensures { IfOk result (λ lines. spec.AreFeaturesLines features.now lines.items) }
{
    let mut whole = Vec::new(alloc);
    write_features(&mut whole, features)?;
    Vec::from_slice(alloc, without_first_line(whole.as_slice()))
}

/// What a features file with the first `count` features of a client gets: the lines of the others. Fails only if out of memory.
#[tactic(auto, using(crate::proofs::Growing::all_drop))]
fn text_after(alloc: Global, client: &Client, count: usize) -> Result<Vec<u8>, AllocError>
    ensures { IfOk result (λ text. spec.AreFeaturesLines
        (drop count client.now.client.table.tally.features) text.items) }
{
    lines_of(alloc, client.features().get(count..).unwrap_or(&[]))
}

impl Listed {
    /// A file that has nothing, and grows or not.
    pub fn new(alloc: Global, grows: bool) -> Listed
        ensures settled { result.settled ≡ 0 }
        ensures kept { result.is_kept ≡ grows }
    {
        Listed {
            held: 0,
            settled: 0,
            text: Vec::new(alloc),
            is_kept: grows,
        }
    }

    /// All features of a client are to be in it. Fails only if out of memory.
    pub fn whole(&mut self, alloc: Global, client: &Client) -> Result<(), AllocError>
        ensures text { OnOk result (IsFeaturesText client.now.client.table.tally.features
            self.new.text.items) }
        ensures held { OnOk result (self.new.held
            ≡ length client.now.client.table.tally.features) }
        ensures same { self.new ≡ record self.old { text = self.new.text; held = self.new.held } }
    {
        let mut text = Vec::new(alloc);
        write_features(&mut text, client.features())?;
        self.text = text;
        self.held = client.features().len();
        Ok(())
    }

    /// What was to be written is on the device.
    pub fn settle(&mut self)
        ensures { self.new ≡ record self.old { text = self.new.text; settled = self.old.held } }
    {
        self.text.clear();
        self.settled = self.held;
    }

    /// What a client has completed since is to be added. Fails only if out of memory.
    pub fn follow(&mut self, alloc: Global, client: &Client) -> Result<(), AllocError>
        ensures text { OnOk result (spec.AreFeaturesLines (drop self.old.settled
            client.now.client.table.tally.features) self.new.text.items) }
        ensures held { OnOk result (self.new.held
            ≡ length client.now.client.table.tally.features) }
        ensures same { self.new ≡ record self.old { text = self.new.text; held = self.new.held } }
    {
        self.text = text_after(alloc, client, self.settled)?;
        self.held = client.features().len();
        Ok(())
    }
}
