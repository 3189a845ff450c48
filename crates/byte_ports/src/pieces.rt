// A source of stored pieces.
ghost use Rattle.std.specs.Prelude.{◌≡◌, ◌+◌, ◌-◌, ◌^◌, ◌<◌, ◌≤◌, ◌++◌, ◌↔◌, [], min, length, take, true, false, option_map, IfOk, OnOk, MatchResult, OnErr, IsOk, IsErr};
ghost use Rattle.std.specs.Io.KnownBytes.{ReadConsumes};

use crate::fuse::Fuse;
use crate::ports::{Failed, Source};
use std::alloc::{AllocError, Global};
use std::collections::VecDeque;
use std::marker::Model;

/// A source that gives one stored piece a pull, for tests and for programs
/// that simulate a device which hands its bytes out bit by bit.
///
/// A piece that is longer than the buffer comes in parts, an empty one is
/// skipped. It reports its bytes. It can be made to fail at a set pull.
#[derive(Drop)]
pub struct Pieces {
    alloc: Global,
    pieces: VecDeque<Vec<u8>>,
    given: usize,
    fuse: Fuse,
}

impl Model for Pieces {
    ghost use Rattle.std.specs.Prelude.{map};
    ghost use Rattle.byte_ports.specs.Pieces.{PiecesValue, without_front, HoldMore};

    ghost Value = { PiecesValue };

    ghost view = { λ p. record {
      pieces = without_front p.given (map (λ v. v.items) p.pieces.items);
      calls_left = p.fuse.0;
      has_failed = p.fuse.1;
      calls = p.fuse.2;
    } };

    ghost invariant = { λ p. HoldMore p.given (map (λ v. v.items) p.pieces.items) };
}

impl Pieces {
    ghost use Rattle.std.specs.Prelude.{None, Some};
    ghost use Rattle.std.specs.List.{concat};
    ghost use Rattle.byte_ports.specs.Pieces.{stored_piece, next_piece, pieces_after};

    /// A source with nothing in it, whose pulls all work.
    pub fn new(alloc: Global) -> Self
        ensures { result ≡ record {
          pieces = [];
          calls_left = None;
          has_failed = false;
          calls = 0;
        } }
    {
        Pieces {
            alloc,
            pieces: VecDeque::new(alloc),
            given: 0,
            fuse: Fuse::never(),
        }
    }

    /// A source with nothing in it, whose pull number `call`, counted from 1,
    /// and all later ones answer `Failed`.
    pub fn failing_at(alloc: Global, call: u64) -> Self
        requires { 0 < call }
        ensures { result ≡ record {
          pieces = [];
          calls_left = Some (call - 1);
          has_failed = false;
          calls = 0;
        } }
    {
        Pieces {
            alloc,
            pieces: VecDeque::new(alloc),
            given: 0,
            fuse: Fuse::at(call),
        }
    }

    /// Stores a copy of a piece after the others; if out of memory
    /// nothing has changed.
    pub fn add(&mut self, piece: &[u8]) -> Result<(), AllocError>
        ensures stored { MatchResult result (λ _. self.new
            ≡ record self.old { pieces = self.old.pieces ++ stored_piece piece.now })
            (λ _. self.new ≡ self.old) }
        ensures empty { length piece.now ≡ 0 → IsOk result }
    {
        if piece.is_empty() {
            return Ok(());
        }
        let copy = Vec::from_slice(self.alloc, piece)?;
        self.pieces.push_back(copy)?;
        Ok(())
    }

    // Gives the next piece, or as much of it as fits.
    fn give(&mut self, buf: &mut [u8]) -> usize
        ensures count { result ≡ min (length (next_piece self.old.pieces)) (length buf.old) }
        ensures copied { take result buf.new ≡ take result (next_piece self.old.pieces) }
        ensures end { result ≡ 0 → 0 < length buf.new → concat self.new.pieces ≡ [] }
        ensures after { self.new
            ≡ record self.old { pieces = pieces_after result self.old.pieces } }
    {
        let Some(piece) = self.pieces.front() else {
            return 0;
        };
        let (_, rest) = piece.split_at(self.given);
        let count = copy_front(rest, buf);
        if count < rest.len() {
            self.given += count;
        } else {
            self.pieces.pop_front();
            self.given = 0;
        }
        count
    }
}

// The start of `from`, as much as fits, is copied to the start of `to`.
fn copy_front(from: &[u8], to: &mut [u8]) -> usize
    ensures count { result ≡ min (length from.now) (length to.old) }
    ensures copied { take result to.new ≡ take result from.now }
{
    let count = from.len().min(to.len());
    let (front, _) = from.split_at(count);
    to[..count].copy_from_slice(front);
    count
}

impl Source for Pieces {
    ghost use Rattle.std.specs.Prelude.{Some};
    ghost use Rattle.std.specs.List.{concat};
    ghost use Rattle.byte_ports.specs.Pieces.{next_piece, pieces_after};

    ghost left = { λ p. Some (concat p.pieces) };

    ghost has_failed = { λ p. p.has_failed };

    ghost calls = { λ p. p.calls };

    #[tactic(auto, using(crate::proofs::StoredLemmas::given))]
    fn pull(&mut self, buf: &mut [u8]) -> Result<usize, Failed>
        ensures within { IfOk result (λ n. n ≤ length buf.new) }
        ensures bytes { ReadConsumes (Some (concat self.old.pieces)) (Some (concat self.new.pieces))
            result buf.new }
        ensures works { OnOk result (self.new.has_failed ≡ false) }
        ensures fails { OnErr result (self.new.has_failed ≡ true) }
        ensures stays { self.old.has_failed ≡ true → self.new.has_failed ≡ true }
        ensures counts { self.new.calls ≤ self.old.calls + 1 }

        ensures due { IsErr result ↔ (self.old.calls_left ≡ Some 0) }
        ensures count { IfOk result (λ n. n ≡ min (length (next_piece self.old.pieces))
            (length buf.old)) }
        ensures after { IfOk result (λ n. self.new.pieces ≡ pieces_after n self.old.pieces) }
        ensures kept { OnErr result (self.new.pieces ≡ self.old.pieces) }
        ensures call { self.new.calls_left ≡ option_map (λ n. n - 1) self.old.calls_left }
        ensures called { self.new.calls ≡ min (self.old.calls + 1) (2 ^ 64 - 1) }
    {
        self.fuse.call()?;
        Ok(self.give(buf))
    }
}
