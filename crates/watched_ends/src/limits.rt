// A relay that keeps no more than it may.

ghost use Rattle.std.specs.Prelude.{◌≡◌, ◌++◌, ◌≤◌, ◌↔◌, length, true, false, OnOk, OnErr, IfOk, IsTrue};
ghost use Rattle.watched_ends.specs.Names.{Reads, IsClientRead, IsServerRead, KeepsFew};
ghost use Rattle.watched_ends.specs.Limits as spec;

use dme_line::Tag;
use line_framing::ByteQueue;
use std::alloc::{AllocError, Global};
use std::marker::Model;
use witness::{Reported, Rule, SentCommand, Use, Witness, add_all, add_told};

/// The most lines of a client that may be open on a connection (this profile).
pub const MOST_OPEN: usize = 10_000;

/// The most bytes that may be kept of those that are unknown (this profile).
pub const MOST_KEPT: usize = 16_777_216;

/// A relay between the two ends of a connection, which does no reading and writing itself, and keeps no more than it may: if too many lines of the
/// client are open, that is reported, and nothing more of the connection is. Contracts see the relay until then: the number of the connection, its
/// witness, the bytes of each end that were not sent on, and the text that is due; after it the bytes and the text.
///
/// Bytes that came are sent on as they came. Those of the server are held back until their lines were read, what these report is due (`read`), and
/// it was written (`clear_due`): so whatever the client knows was written before.
#[derive(Drop)]
pub struct LimitedRelay {
    alloc: Global,
    connection: u64,
    witness: Option<Witness>,
    up: ByteQueue,
    down: ByteQueue,
    due: Vec<u8>,
}

impl Model for LimitedRelay {
    ghost use Rattle.watched_ends.specs.Limits.{Limited, limited};

    ghost Value = { Limited };

    ghost view = { λ l. limited l.connection l.witness l.up.waiting l.down.waiting l.due.items };
}

fn keep_more(uses: &[Use]) -> bool
    ensures { result ≡ spec.keeps_more 16777216 uses.now }
{
    let mut left = MOST_KEPT;
    for used in uses {
        let count = match &used.command {
            SentCommand::Foreign(line) => line.as_slice().len(),
            SentCommand::Known(_) | SentCommand::Asking => 0,
        };
        if left < count {
            return true;
        }
        left -= count;
    }
    false
}

fn are_too_many(uses: &[Use]) -> bool
    ensures { result ≡ spec.are_too_many uses.now }
{
    uses.len() > MOST_OPEN || keep_more(uses)
}

/// Reads the lines that wait, those of the client first, as long as not too many are open: whether too many are. Fails only if out of memory, and then
/// has read some of them.
#[tactic(auto, using(crate::proofs::LimitLemmas::stop_first, crate::proofs::LimitLemmas::stop_read))]
fn read_most(witness: &mut Witness) -> Result<bool, AllocError>
    ensures reads { Reads witness.old witness.new }
    ensures client { IfOk result (λ over. over ≡ false → IsClientRead witness.new) }
    ensures server { IfOk result (λ over. over ≡ false → IsServerRead witness.new) }
    ensures few { IfOk result (λ over. over ≡ false → KeepsFew witness.new) }
    ensures stop { IfOk result (λ over. over ≡ true → spec.IsStop witness.old witness.new) }
    ensures over { IfOk result (λ over. over ≡ spec.are_too_many witness.new.dialogue.uses) }
{
    if witness.read_within(MOST_OPEN)? {
        return Ok(true);
    }
    Ok(are_too_many(witness.uses()))
}

/// What was reported is due; and last, if so, that too many lines are open, with the tag of the last of them. Fails only if out of memory, and then
/// nothing has changed.
fn make_due(
    alloc: Global,
    due: &mut Vec<u8>,
    connection: u64,
    witness: &Witness,
    is_over: bool,
) -> Result<(), AllocError>
    ensures { OnOk result (due.new.items ≡ due.old.items
        ++ spec.reports is_over connection witness.now.dialogue) }
{
    let mut text = Vec::new(alloc);
    add_all(&mut text, connection, witness.reported())?;
    if is_over {
        let tag = witness.uses().last().map_or(Tag::Event(0), |used| used.tag);
        add_told(&mut text, connection, &Reported::Broken(Rule::TooMany, tag))?;
    }
    due.extend_from_slice(text.as_slice())
}

impl LimitedRelay {
    /// A relay of the connection of this number, without a byte. Does not allocate.
    pub fn new(alloc: Global, connection: u64) -> LimitedRelay
        ensures { result ≡ spec.fresh connection }
    {
        LimitedRelay {
            alloc,
            connection,
            witness: Some(Witness::new(alloc, true)),
            up: ByteQueue::new(alloc),
            down: ByteQueue::new(alloc),
            due: Vec::new(alloc),
        }
    }

    /// Bytes came from the client. Fails only if out of memory, and then nothing has changed.
    pub fn from_client(&mut self, bytes: &[u8]) -> Result<(), AllocError>
        ensures ok { OnOk result (self.new ≡ spec.client_came self.old bytes.now) }
        ensures err { OnErr result (self.new ≡ self.old) }
    {
        self.up.reserve(bytes.len())?;
        if let Some(witness) = &mut self.witness {
            witness.from_client(bytes)?;
        }
        self.up.append(bytes);
        Ok(())
    }

    /// Bytes came from the server. Fails only if out of memory, and then nothing has changed.
    pub fn from_server(&mut self, bytes: &[u8]) -> Result<(), AllocError>
        ensures ok { OnOk result (self.new ≡ spec.server_came self.old bytes.now) }
        ensures err { OnErr result (self.new ≡ self.old) }
    {
        self.down.reserve(bytes.len())?;
        if let Some(witness) = &mut self.witness {
            witness.from_server(bytes)?;
        }
        self.down.append(bytes);
        Ok(())
    }

    /// Reads the lines that wait, those of the client first, and what they report is due. Fails only if out of memory; then some lines were read, and
    /// what they report may be due.
    pub fn read(&mut self) -> Result<(), AllocError>
        ensures { OnOk result (spec.IsRead self.old self.new) }
    {
        let Some(witness) = &mut self.witness else {
            return Ok(());
        };
        let is_over = read_most(witness)?;
        make_due(self.alloc, &mut self.due, self.connection, witness, is_over)?;
        if is_over {
            self.witness = None;
            return Ok(());
        }
        witness.clear_reported();
        Ok(())
    }

    /// The text that is due: it is to be written before anything is sent to the client.
    #[tactic(auto, using(crate::proofs::LimitLemmas::due_there))]
    pub fn due(&self) -> &[u8]
        ensures { result.now ≡ spec.due_of self.now }
    {
        self.due.as_slice()
    }

    /// What was due is written. Does not allocate.
    #[tactic(auto, using(crate::proofs::LimitLemmas::due_written))]
    pub fn clear_due(&mut self)
        ensures { self.new ≡ spec.without_due self.old }
    {
        self.due.clear();
    }

    /// Whether all that is to be written was written: only then may bytes be sent to the client.
    pub fn is_all_told(&self) -> bool
        ensures { IsTrue result ↔ spec.IsTold self.now }
    {
        match &self.witness {
            Some(witness) => {
                !witness.has_client_line()
                    && !witness.has_server_line()
                    && witness.reported().is_empty()
                    && self.due.is_empty()
            }
            None => self.due.is_empty(),
        }
    }

    /// What came from the client and was not sent on.
    #[tactic(auto, using(crate::proofs::LimitLemmas::up_there))]
    pub fn to_server(&self) -> &[u8]
        ensures { result.now ≡ spec.up_of self.now }
    {
        self.up.waiting()
    }

    /// The first `count` bytes were sent on to the server. Does not allocate.
    #[tactic(auto, using(crate::proofs::LimitLemmas::up_there, crate::proofs::LimitLemmas::ups_sent))]
    pub fn sent_to_server(&mut self, count: usize)
        requires { count ≤ length (spec.up_of self.old) }
        ensures { self.new ≡ spec.up_sent count self.old }
    {
        self.up.take(count);
    }

    /// What came from the server and was not sent on. The caller must ensure that all that is to be written was written (`is_all_told`).
    #[tactic(auto, using(crate::proofs::LimitLemmas::down_there))]
    pub fn to_client(&self) -> &[u8]
        requires { spec.IsTold self.now }
        ensures { result.now ≡ spec.down_of self.now }
    {
        self.down.waiting()
    }

    /// The first `count` bytes were sent on to the client. The caller must ensure that all that is to be written was written. Does not allocate.
    #[tactic(auto, using(crate::proofs::LimitLemmas::down_there, crate::proofs::LimitLemmas::downs_sent))]
    pub fn sent_to_client(&mut self, count: usize)
        requires told { spec.IsTold self.old }
        requires within { count ≤ length (spec.down_of self.old) }
        ensures { self.new ≡ spec.down_sent count self.old }
    {
        self.down.take(count);
    }
}
