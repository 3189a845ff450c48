// The two traits that all movement of bytes is written against.
ghost use Rattle.std.specs.Prelude.{◌≡◌, ℕ, ◌+◌, ◌<◌, ◌≤◌, List, Option, Bool, true, false, length, IfOk, OnOk, OnErr};
ghost use Rattle.std.specs.Io.KnownBytes.{ReadConsumes, WriteAppends};

/// The device under a port refused a read or a write.
#[derive(Clone, Copy, Debug, PartialEq, Eq)]
pub struct Failed;

/// Where bytes come from.
///
/// `left` is the bytes that are still to come, if the port reports them,
/// `has_failed` whether the device has refused a read so far, and `calls` a
/// count that each pull raises by one at most, and nothing else does: how
/// often the port was called, where it counts that, else 0 throughout. What is
/// proved of any port's `calls` so bounds how often it is called.
pub trait Source {
    ghost left: { Self → Option (List ℕ) };

    ghost has_failed: { Self → Bool };

    ghost calls: { Self → ℕ } = { λ _. 0 };

    /// Takes the next bytes into the start of `buf` and returns how many.
    ///
    /// 0 into a buffer that is not empty is the end of the input. What is
    /// in `buf` after the count means nothing. `Failed` comes if the port
    /// has failed, by this call or before, and from then on always; it takes
    /// nothing.
    fn pull(&mut self, buf: &mut [u8]) -> Result<usize, Failed>
        ensures within { IfOk result (λ n. n ≤ length buf.new) }
        ensures bytes { ReadConsumes (left self.old) (left self.new) result buf.new }
        ensures works { OnOk result (has_failed self.new ≡ false) }
        ensures fails { OnErr result (has_failed self.new ≡ true) }
        ensures stays { has_failed self.old ≡ true → has_failed self.new ≡ true }
        ensures counts { calls self.new ≤ calls self.old + 1 };
}

/// Where bytes go.
///
/// `taken` is the bytes that were taken so far, if the port reports them,
/// `has_failed` whether the device has refused a write so far, and `calls` a
/// count of its pushes, as a source's `calls` is of its pulls.
pub trait Sink {
    ghost taken: { Self → Option (List ℕ) };

    ghost has_failed: { Self → Bool };

    ghost calls: { Self → ℕ } = { λ _. 0 };

    /// Hands over a prefix of `bytes` and returns how many were taken: at
    /// least one, unless there are none.
    ///
    /// `Failed` comes where the port has failed, by this call or before, and
    /// from then on always; it takes nothing.
    fn push(&mut self, bytes: &[u8]) -> Result<usize, Failed>
        ensures within { IfOk result (λ n. n ≤ length bytes.now) }
        ensures some { 0 < length bytes.now → IfOk result (λ n. 0 < n) }
        ensures bytes { WriteAppends (taken self.old) (taken self.new) result bytes.now }
        ensures works { OnOk result (has_failed self.new ≡ false) }
        ensures fails { OnErr result (has_failed self.new ≡ true) }
        ensures stays { has_failed self.old ≡ true → has_failed self.new ≡ true }
        ensures counts { calls self.new ≤ calls self.old + 1 };
}
