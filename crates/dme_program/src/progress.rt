// Lines on standard error that report how far an order is.

ghost use Rattle.std.specs.Prelude.{None};

use client_core::Client;
use contact_ledger::Feature;
use link_world::Watcher;

/// Reports each completed feature by a line on standard error, if asked. A line that cannot be written changes nothing.
#[derive(Drop)]
pub struct Progress {
    rt: HostRuntime,
    is_told: bool,
    total: usize,
}

impl Progress {
    /// For a program with that many features.
    pub fn new(rt: HostRuntime, is_told: bool, total: usize) -> Self {
        Progress { rt, is_told, total }
    }
}

impl Watcher for Progress {
    ghost told = { λ _. None };

    fn completed(&mut self, number: usize, feature: &Feature) {
        if self.is_told {
            let total = self.total;
            let label = &feature.label;
            let _ = eprintln!(self.rt; "feature {number} of {total}: {label}");
        }
    }

    fn turned(&mut self, _client: &Client) {}
}
