// The features that a client holds.
ghost use Rattle.std.specs.Prelude.{◌≡◌, ◌≤◌, [], ◌∷◌, ◌++◌, length, take, IfErr};
ghost use Rattle.contact_ledger.specs.Names.{Leads, Shows, IsOrigin};
ghost use Rattle.contact_ledger.specs.Ledgers.{HaveOrigins};

use crate::features::Feature;
use std::alloc::{AllocFailed, Global};
use std::marker::Model;

/// The completed features of a client, in the order in which they were completed. Contracts see this list.
#[derive(Debug, Drop)]
pub struct FeatureLedger {
    features: Vec<Feature>,
}

impl Model for FeatureLedger {
    ghost use Rattle.std.specs.Prelude.{List};
    ghost use Rattle.contact_ledger.specs.declared.features.Feature.{Feature};

    ghost Value = { List Feature };

    ghost use Rattle.contact_ledger.specs.Ledgers.{HaveOrigins};

    ghost view = { λ l. l.features.items };

    ghost invariant = { λ l. HaveOrigins l.features.items };
}

impl FeatureLedger {
    /// A list of no features, which does not allocate.
    pub fn new(alloc: Global) -> FeatureLedger
        ensures { result ≡ [] }
    {
        FeatureLedger {
            features: Vec::new(alloc),
        }
    }

    /// Appends a feature. Where its origin is known, the caller must give a connection number from 1 to 4,000,000,000. Fails only if out of
    /// memory: it hands the feature back, and the list is as before. The room doubles when it is full.
    pub fn push(&mut self, feature: Feature) -> Result<(), AllocFailed<Feature>>
        requires { IsOrigin feature.origin }
        ensures appended { Leads result self.old self.new (self.old ++ feature ∷ []) }
        ensures given_back { IfErr result (λ failed. failed.value ≡ feature) }
    {
        self.features.push(feature)
    }

    /// The features in order.
    pub fn list(&self) -> &[Feature]
        ensures { Shows result.now self.now HaveOrigins }
    {
        self.features.as_slice()
    }

    /// Keeps the first `count` features and discards the others. The caller must ensure that there are that many.
    pub fn keep(&mut self, count: usize)
        requires { count ≤ length self.old }
        ensures { self.new ≡ take count self.old }
    {
        self.features.truncate(count);
    }
}
