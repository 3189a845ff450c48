// The waiting commands.

ghost use Rattle.std.specs.Prelude.{◌≡◌, ◌↔◌, ◌<◌, ◌≤◌, [], ◌∷◌, ◌++◌, length, drop, IsOk, IsTrue, IfOk, IfErr, OnOk, OnErr, MatchOption};
ghost use Rattle.command_queue.specs.Names.{Leads, list_any, tag_is, waits_under};
ghost use Rattle.command_queue.specs.Limits.{places};

use circular_buffer::HeapCircularBuffer;
use dme_line::Tag;
use protocol_model::Waiting;
use std::alloc::{AllocError, Global};
use std::marker::Model;

/// How many commands may wait at a server (this profile).
pub const PLACES: usize = 64;

/// The commands that wait at a server for their turn, at most 64, the one that came first in front (this profile).
/// Contracts see their list. They wait in a ring, so taking one moves no other.
#[derive(Debug, Drop)]
pub struct Queue {
    alloc: Global,
    ring: HeapCircularBuffer<Waiting>,
}

impl Model for Queue {
    ghost use Rattle.std.specs.Prelude.{List};
    ghost use Rattle.protocol_model.specs.declared.lines.Waiting.{Waiting};

    ghost Value = { List Waiting };

    ghost use Rattle.std.specs.Prelude.{◌≡◌};
    ghost use Rattle.command_queue.specs.Limits.{places};

    ghost view = { λ q. q.ring.items };

    ghost invariant = { λ q. q.ring.capacity ≡ places };
}

fn is_any_under(ring: &HeapCircularBuffer<Waiting>, tag: Tag) -> bool
    ensures { result ≡ list_any (λ command. tag_is command.tag tag) ring.now.items }
{
    ring.iter().any(|command| command.tag == tag)
}

impl Queue {
    /// An empty queue, which takes the memory of all its places now. Fails only if out of memory.
    pub fn new(alloc: Global) -> Result<Queue, AllocError>
        ensures none { IfOk result (λ queue. queue ≡ []) }
        ensures places { PLACES ≡ places }
    {
        let ring = HeapCircularBuffer::with_capacity(alloc, PLACES)?;
        Ok(Queue { alloc, ring })
    }

    /// Puts a command after the others. Where 64 wait it hands the command back, and the queue is as before.
    /// Does not allocate.
    #[inline(always)]
    pub fn put(&mut self, command: Waiting) -> Result<(), Waiting>
        ensures room { IsOk result ↔ (length self.old < places) }
        ensures ok { OnOk result (self.new ≡ self.old ++ command ∷ []) }
        ensures err { IfErr result (λ given. (given ≡ command) × (self.new ≡ self.old)) }
    {
        self.ring.try_push_back(command)
    }

    /// The command that came first, which stays; `None` if no command waits. Does not allocate.
    pub fn first(&self) -> Option<&Waiting>
        ensures { MatchOption result (self.now ≡ [])
            (λ command. self.now ≡ command.now ∷ drop 1 self.now) }
    {
        self.ring.front()
    }

    /// Takes the command that came first; `None` if no command waits. Does not allocate.
    #[inline(always)]
    pub fn take(&mut self) -> Option<Waiting>
        ensures { MatchOption result
            ((self.old ≡ []) × (self.new ≡ []))
            (λ command. self.old ≡ command ∷ self.new) }
    {
        self.ring.pop_front()
    }

    /// Takes all commands, in order. Fails only if out of memory, and the queue is then as before.
    pub fn drain_all(&mut self) -> Result<Vec<Waiting>, AllocError>
        ensures all { IfOk result (λ commands. commands.items ≡ self.old) }
        ensures leads { Leads result self.old self.new [] }
    {
        let mut commands = Vec::with_capacity(self.alloc, self.ring.len())?;
        while let Some(command) = self.ring.pop_front() {
            commands.push_reserved(command);
        }
        Ok(commands)
    }

    /// Discards all commands. Does not allocate.
    pub fn clear(&mut self)
        ensures { self.new ≡ [] }
    {
        self.ring.clear();
    }

    /// Whether a command waits under this tag. Does not allocate.
    #[tactic(auto, using(crate::proofs::Queues::waits_under_any))]
    pub fn holds(&self, tag: Tag) -> bool
        ensures { result ≡ waits_under tag self.now }
    {
        is_any_under(&self.ring, tag)
    }

    /// How many commands wait, at most 64.
    pub fn len(&self) -> usize
        ensures count { result ≡ length self.now }
        ensures within { length self.now ≤ places }
    {
        self.ring.len()
    }

    /// Whether no command waits.
    pub fn is_empty(&self) -> bool
        ensures { IsTrue result ↔ (self.now ≡ []) }
    {
        self.ring.is_empty()
    }
}
