// The open commands of one sort of tags, in sending order.

ghost use Rattle.std.specs.Prelude.{◌≡◌, ◌<◌, cond, [], ◌∷◌, ◌++◌, length, get_or, slice_set, remove, false, OnOk, OnErr};
ghost use Rattle.dme_tags.specs.Names.{held_now, count_open, is_asking, is_failed};
ghost use Rattle.dme_tags.specs.Kept.{is_open, is_open_question};

use dme_line::{Kind, Tag};
use protocol_model::{OpenCommand, Stage};
use slab::Slab;
use std::alloc::{AllocError, Global};
use std::marker::Model;

/// The open commands of one sort of tags. Contracts see their list, in sending order.
///
/// They are in a slab, and their keys in a list next to it, so that the end of a command moves keys alone. How many have not failed, and
/// how many of those ask whether the machine is homed, is kept: a client asks for it at each reply.
#[derive(Debug, Drop)]
pub(crate) struct Commands {
    slab: Slab<OpenCommand>,
    keys: Vec<usize>,
    unfailed: usize,
    questions: usize,
}

impl Model for Commands {
    ghost use Rattle.std.specs.Prelude.{List};
    ghost use Rattle.protocol_model.specs.declared.held.OpenCommand.{OpenCommand};

    ghost Value = { List OpenCommand };

    ghost use Rattle.std.specs.Prelude.{◌≡◌, length, count_by};
    ghost use Rattle.slab.specs.Slab.{slab_len};
    ghost use Rattle.dme_tags.specs.Kept.{listed, is_open, is_open_question, AreKeys};

    ghost view = { λ c. listed c.slab.slots c.keys.items };

    ghost invariant = { λ c. AreKeys c.slab.slots c.keys.items
        × (slab_len c.slab ≡ length c.keys.items)
        × (c.unfailed ≡ count_by is_open (listed c.slab.slots c.keys.items))
        × (c.questions ≡ count_by is_open_question (listed c.slab.slots c.keys.items)) };
}

fn open_one(held: &OpenCommand) -> usize
    ensures { result ≡ cond (is_open held.now) 1 0 }
{
    if matches!(held.stage, Stage::Failed) {
        0
    } else {
        1
    }
}

/// One for an `IsHomed` that has not failed.
fn question_one(held: &OpenCommand) -> usize
    ensures { result ≡ cond (is_open_question held.now) 1 0 }
{
    if held.kind == Kind::IsHomed {
        open_one(held)
    } else {
        0
    }
}

impl Commands {
    /// No command is open. Does not allocate.
    pub(crate) fn new(alloc: Global) -> Commands
        ensures { result ≡ [] }
    {
        Commands {
            slab: Slab::new(alloc),
            keys: Vec::new(alloc),
            unfailed: 0,
            questions: 0,
        }
    }

    /// Discards all commands. Does not allocate.
    pub(crate) fn clear(&mut self)
        ensures { self.new ≡ [] }
    {
        self.slab.clear();
        self.keys.clear();
        self.unfailed = 0;
        self.questions = 0;
    }

    pub(crate) fn len(&self) -> usize
        ensures { result ≡ length self.now }
    {
        self.keys.len()
    }

    /// The command at a place in sending order.
    pub(crate) fn at(&self, index: usize) -> &OpenCommand
        requires { index < length self.now }
        ensures { get_or self.now index result.now ≡ result.now }
    {
        &self.slab[self.keys[index]]
    }

    /// A command that is sent now, after the others. Room is made for it and for its key before anything changes.
    pub(crate) fn push(&mut self, tag: Tag, kind: Kind) -> Result<(), AllocError>
        ensures ok { OnOk result (self.new ≡ self.old ++ held_now tag kind ∷ []) }
        ensures err { OnErr result (self.new ≡ self.old) }
    {
        self.slab.reserve(1)?;
        self.keys.reserve(1)?;
        let held = OpenCommand {
            tag,
            kind,
            stage: Stage::Sent,
        };
        self.unfailed += 1;
        self.questions += question_one(&held);
        let key = self.slab.insert_reserved(held);
        self.keys.push_reserved(key);
        Ok(())
    }

    /// The command at a place, which has not failed, comes to this stage, which is no failure. Does not allocate.
    pub(crate) fn advance(&mut self, index: usize, stage: Stage)
        requires within { index < length self.old }
        requires stage { is_failed stage ≡ false }
        requires held { (held : OpenCommand) → get_or self.old index held ≡ held
            → is_failed held.stage ≡ false }
        ensures { (held : OpenCommand) → get_or self.old index held ≡ held
            → self.new ≡ slice_set self.old index (record held { stage = stage }) }
    {
        let key = self.keys[index];
        self.slab[key].stage = stage;
    }

    /// The command at a place comes to this stage. Does not allocate.
    pub(crate) fn set_stage(&mut self, index: usize, stage: Stage)
        requires { index < length self.old }
        ensures { (held : OpenCommand) → get_or self.old index held ≡ held
            → self.new ≡ slice_set self.old index (record held { stage = stage }) }
    {
        let key = self.keys[index];
        let held = &self.slab[key];
        let next = OpenCommand { stage, ..*held };
        self.unfailed = self.unfailed + open_one(&next) - open_one(held);
        self.questions = self.questions + question_one(&next) - question_one(held);
        self.slab[key] = next;
    }

    /// The command at a place has ended. Does not allocate.
    pub(crate) fn remove(&mut self, index: usize)
        requires { index < length self.old }
        ensures { self.new ≡ remove self.old index }
    {
        let key = self.keys.remove(index);
        let ended = self.slab.remove(key);
        self.unfailed -= open_one(&ended);
        self.questions -= question_one(&ended);
    }

    #[tactic(auto, using(crate::proofs::Places::count_open_by))]
    pub(crate) fn count_open(&self) -> usize
        ensures { result ≡ count_open self.now }
    {
        self.unfailed
    }

    /// Whether one of them is an `IsHomed` that has not failed.
    #[tactic(auto, using(crate::proofs::Places::is_asking_counted))]
    pub(crate) fn is_asking(&self) -> bool
        ensures { result ≡ is_asking self.now }
    {
        self.questions != 0
    }
}
