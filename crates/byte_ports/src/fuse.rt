// When a port over memory fails.
ghost use Rattle.std.specs.Prelude.{◌≡◌, ◌+◌, ◌-◌, ◌^◌, ◌<◌, ◌↔◌, min, None, Some, true, false, option_map, OnOk, OnErr, IsErr};

use crate::ports::Failed;
use std::marker::Model;

/// What makes a port over memory fail at a set call and ever after. It is
/// seen as the count of calls that work from now on, `None` for all, whether
/// one has failed, and how many there were, as far as 64 bits count them.
#[derive(Drop)]
pub(crate) struct Fuse {
    calls_left: Option<u64>,
    has_failed: bool,
    calls: u64,
}

impl Model for Fuse {
    ghost use Rattle.std.specs.Prelude.{◌≡◌, ℕ, Option, Bool, Some, true};

    ghost Value = { Option ℕ × Bool × ℕ };

    ghost view = { λ f. (f.calls_left, f.has_failed, f.calls) };

    ghost invariant = { λ f. f.has_failed ≡ true → f.calls_left ≡ Some 0 };
}

impl Fuse {
    /// All calls work.
    pub(crate) fn never() -> Self
        ensures { result ≡ (None, false, 0) }
    {
        Fuse {
            calls_left: None,
            has_failed: false,
            calls: 0,
        }
    }

    /// The call with this number, counted from 1, and all later ones fail.
    pub(crate) fn at(call: u64) -> Self
        requires { 0 < call }
        ensures { result ≡ (Some (call - 1), false, 0) }
    {
        Fuse {
            calls_left: Some(call - 1),
            has_failed: false,
            calls: 0,
        }
    }

    /// Counts one call, and answers whether it works.
    pub(crate) fn call(&mut self) -> Result<(), Failed>
        ensures due { IsErr result ↔ (self.old.0 ≡ Some 0) }
        ensures count { self.new.0 ≡ option_map (λ n. n - 1) self.old.0 }
        ensures works { OnOk result (self.new.1 ≡ false) }
        ensures fails { OnErr result (self.new.1 ≡ true) }
        ensures stays { self.old.1 ≡ true → self.new.1 ≡ true }
        ensures called { self.new.2 ≡ min (self.old.2 + 1) (2 ^ 64 - 1) }
    {
        self.calls = self.calls.saturating_add(1);
        match self.calls_left {
            None => Ok(()),
            Some(0) => {
                self.has_failed = true;
                Err(Failed)
            }
            Some(calls) => {
                self.calls_left = Some(calls - 1);
                Ok(())
            }
        }
    }

    /// Fails from now on.
    pub(crate) fn blow(&mut self)
        ensures { self.new ≡ (Some 0, true, self.old.2) }
    {
        self.calls_left = Some(0);
        self.has_failed = true;
    }
}
