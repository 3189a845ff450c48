// Bytes that wait, taken from the front.

ghost use Rattle.std.specs.Prelude.{◌≡◌, ◌≤◌, ◌+◌, ◌++◌, [], length, drop, vec_len, vec_capacity, OnOk};
ghost use Rattle.std.specs.Borrow.{Lends, sem};

use std::alloc::{AllocError, Global};
use std::marker::Model;

/// Bytes that wait: they are appended at the end and taken from the front, in order. Contracts see those that were appended and not taken
/// (`waiting`), and for how many more there is room (`room`).
///
/// Inside, the bytes before `start` were taken.
#[derive(Drop)]
pub struct ByteQueue {
    bytes: Vec<u8>,
    start: usize,
}

impl Model for ByteQueue {
    ghost use Rattle.std.specs.Prelude.{◌-◌, ◌≤◌, length, drop, vec_len, vec_capacity};
    ghost use Rattle.line_framing.specs.Queue.{QueueValue};

    ghost Value = { QueueValue };

    ghost view = { λ q. record { waiting = drop q.start q.bytes.items; room = vec_capacity q.bytes - vec_len q.bytes } };

    ghost invariant = { λ q. q.start ≤ length q.bytes.items };
}

/// Takes the first `count` bytes away; the others move to the front.
fn drop_front(bytes: &mut Vec<u8>, count: usize)
    requires { count ≤ vec_len bytes.old }
    ensures bytes { bytes.new.items ≡ drop count bytes.old.items }
    ensures capacity { vec_capacity bytes.old ≤ vec_capacity bytes.new }
{
    if count == 0 {
        return;
    }
    let length = bytes.len();
    bytes.copy_within(count..length, 0);
    bytes.truncate(length - count);
}

impl ByteQueue {
    ghost use Rattle.line_framing.specs.Lending.{bytes_row, queued_of};
    ghost use Rattle.line_framing.specs.contracts.queue.ByteQueue.{the_row};

    /// No bytes, which have allocated nothing yet.
    pub fn new(alloc: Global) -> ByteQueue
        ensures { result.waiting ≡ [] }
    {
        ByteQueue {
            bytes: Vec::new(alloc),
            start: 0,
        }
    }

    /// The bytes that were appended and not taken.
    pub fn waiting(&self) -> &[u8]
        ensures { result.now ≡ self.now.waiting }
    {
        let (_, waiting) = self.bytes.as_slice().split_at(self.start);
        waiting
    }

    /// Makes room for that many bytes more. What waits moves to the front only if it is no longer than what was taken since the last move,
    /// so all moves together cost no more than the bytes that were appended. Fails only if out of memory.
    pub fn reserve(&mut self, count: usize) -> Result<(), AllocError>
        ensures waiting { self.new.waiting ≡ self.old.waiting }
        ensures room { OnOk result (count ≤ self.new.room) }
    {
        if self.start >= self.bytes.len() - self.start {
            drop_front(&mut self.bytes, self.start);
            self.start = 0;
        }
        self.bytes.reserve(count)
    }

    /// Appends a piece. The caller must ensure that there is room for it. It does not allocate.
    pub fn append(&mut self, piece: &[u8])
        requires { length piece.now ≤ self.old.room }
        ensures { self.new.waiting ≡ self.old.waiting ++ piece.now }
    {
        self.bytes.extend_from_slice(piece).unwrap();
    }

    /// Lends the bytes that wait as a vector, with the room after them: what is appended to it joins them. What was taken makes way first.
    /// It does not allocate.
    pub fn as_mut_vec(&mut self) -> &mut Vec<u8>
        ensures* lends { sem 𝓛 (Lends the_row bytes_row self.entry result queued_of) }
        ensures bytes { result.now.items ≡ self.old.waiting }
        ensures room { vec_len result.now + self.old.room ≤ vec_capacity result.now }
    {
        drop_front(&mut self.bytes, self.start);
        self.start = 0;
        &mut self.bytes
    }

    /// Takes the first `count` bytes. The caller must ensure that at least `count` bytes wait. It does not allocate.
    pub fn take(&mut self, count: usize)
        requires { count ≤ length self.old.waiting }
        ensures { self.new.waiting ≡ drop count self.old.waiting }
    {
        self.start += count;
    }

    /// Gives up all that waits, and keeps the memory that it has.
    pub fn clear(&mut self)
        ensures { self.new.waiting ≡ [] }
    {
        self.bytes.clear();
        self.start = 0;
    }
}
