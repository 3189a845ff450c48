// A sink that takes few bytes at once.
ghost use Rattle.std.specs.Prelude.{◌≡◌, ◌+◌, ◌-◌, ◌^◌, ◌<◌, ◌≤◌, ◌++◌, ◌⊎◌, [], min, length, take, true, false, option_map, IfOk, OnOk, OnErr, IsErr};
ghost use Rattle.std.specs.Io.KnownBytes.{WriteAppends};

use crate::fuse::Fuse;
use crate::ports::{Failed, Sink};
use std::alloc::Global;
use std::marker::Model;

/// A sink that takes at most a set count of bytes a push, into memory of its
/// own, for tests and for programs that simulate a slow device.
///
/// It reports its bytes. It can be made to fail at a set push; it fails too
/// where a growth of its memory is refused.
#[derive(Drop)]
pub struct Takes {
    taken: Vec<u8>,
    most: usize,
    fuse: Fuse,
}

impl Model for Takes {
    ghost use Rattle.std.specs.Prelude.{◌-◌, ◌<◌, vec_len, vec_capacity};
    ghost use Rattle.byte_ports.specs.Takes.{TakesValue};

    ghost Value = { TakesValue };

    ghost view = { λ t. record {
      taken = t.taken.items;
      most = t.most;
      room = vec_capacity t.taken - vec_len t.taken;
      calls_left = t.fuse.0;
      has_failed = t.fuse.1;
      calls = t.fuse.2;
    } };

    ghost invariant = { λ t. 0 < t.most };
}

impl Takes {
    ghost use Rattle.std.specs.Prelude.{None, Some};

    /// A sink with nothing in it that takes at most `most` bytes a push, and
    /// whose pushes work as long as there is memory.
    pub fn new(alloc: Global, most: usize) -> Self
        requires { 0 < most }
        ensures taken { result.taken ≡ [] }
        ensures most { result.most ≡ most }
        ensures calls { result.calls_left ≡ None }
        ensures fresh { result.has_failed ≡ false }
        ensures none { result.calls ≡ 0 }
    {
        Takes {
            taken: Vec::new(alloc),
            most,
            fuse: Fuse::never(),
        }
    }

    /// A sink with nothing in it that takes at most `most` bytes a push, and
    /// whose push number `call`, counted from 1, and all later ones answer
    /// `Failed`.
    pub fn failing_at(alloc: Global, most: usize, call: u64) -> Self
        requires some { 0 < most }
        requires counted { 0 < call }
        ensures taken { result.taken ≡ [] }
        ensures most { result.most ≡ most }
        ensures calls { result.calls_left ≡ Some (call - 1) }
        ensures fresh { result.has_failed ≡ false }
        ensures none { result.calls ≡ 0 }
    {
        Takes {
            taken: Vec::new(alloc),
            most,
            fuse: Fuse::at(call),
        }
    }

    /// The bytes that were taken so far.
    pub fn taken(&self) -> &[u8]
        ensures { result.now ≡ self.now.taken }
    {
        self.taken.as_slice()
    }
}

impl Sink for Takes {
    ghost use Rattle.std.specs.Prelude.{Some};

    ghost taken = { λ t. Some t.taken };

    ghost has_failed = { λ t. t.has_failed };

    ghost calls = { λ t. t.calls };

    fn push(&mut self, bytes: &[u8]) -> Result<usize, Failed>
        ensures within { IfOk result (λ n. n ≤ length bytes.now) }
        ensures some { 0 < length bytes.now → IfOk result (λ n. 0 < n) }
        ensures bytes { WriteAppends (Some self.old.taken) (Some self.new.taken) result bytes.now }
        ensures works { OnOk result (self.new.has_failed ≡ false) }
        ensures fails { OnErr result (self.new.has_failed ≡ true) }
        ensures stays { self.old.has_failed ≡ true → self.new.has_failed ≡ true }
        ensures counts { self.new.calls ≤ self.old.calls + 1 }

        ensures count { IfOk result (λ n. n ≡ min (length bytes.now) self.old.most) }
        ensures due { self.old.calls_left ≡ Some 0 → IsErr result }
        ensures cause { OnErr result ((self.old.calls_left ≡ Some 0)
            ⊎ (self.old.room < min (length bytes.now) self.old.most)) }
        ensures call { OnOk result (self.new.calls_left
            ≡ option_map (λ n. n - 1) self.old.calls_left) }
        ensures spent { OnErr result (self.new.calls_left ≡ Some 0) }
        ensures most { self.new.most ≡ self.old.most }
        ensures called { self.new.calls ≡ min (self.old.calls + 1) (2 ^ 64 - 1) }
    {
        self.fuse.call()?;
        let count = bytes.len().min(self.most);
        let (front, _) = bytes.split_at(count);
        let Ok(()) = self.taken.extend_from_slice(front) else {
            self.fuse.blow();
            return Err(Failed);
        };
        Ok(count)
    }
}
