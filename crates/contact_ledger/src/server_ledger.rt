// The acts of a server.
ghost use Rattle.std.specs.Prelude.{◌≡◌, [], ◌∷◌, ◌++◌, IfErr};
ghost use Rattle.contact_ledger.specs.Names.{Leads, Shows, is_contact, IsConnection};
ghost use Rattle.contact_ledger.specs.Ledgers.{contact_count, AreOnConnections};

use crate::acts::Act;
use std::alloc::{AllocFailed, Global};
use std::marker::Model;

/// The largest number of a connection (this profile): `connection_most` of the definitions.
pub const CONNECTION_MAX: u64 = 4_000_000_000;

/// What a server has done, in order: each act next to the number of its connection (this profile). Contracts see
/// this list. An act is appended when it is completed, and no act is ever removed.
#[derive(Debug, Drop)]
pub struct ServerLedger {
    acts: Vec<(u64, Act)>,
    contacts: u64,
}

impl Model for ServerLedger {
    ghost use Rattle.std.specs.Prelude.{◌≡◌, ℕ, List};
    ghost use Rattle.contact_ledger.specs.declared.acts.Act.{Act};

    ghost Value = { List (ℕ × Act) };

    ghost use Rattle.contact_ledger.specs.Ledgers.{contact_count, AreOnConnections};

    ghost view = { λ l. l.acts.items };

    ghost invariant = { λ l. (l.contacts ≡ contact_count l.acts.items) × AreOnConnections l.acts.items };
}

fn is_contact(act: &Act) -> bool
    ensures { result ≡ is_contact act.now }
{
    match act {
        Act::HomedIs(_) | Act::Homed | Act::Moved(_, _) | Act::Changed(_) | Act::Framed(_) => false,
        Act::Contact { .. } => true,
    }
}

impl ServerLedger {
    /// A ledger of no acts, which does not allocate.
    pub fn new(alloc: Global) -> ServerLedger
        ensures { result ≡ [] }
    {
        ServerLedger {
            acts: Vec::new(alloc),
            contacts: 0,
        }
    }

    /// Appends an act that was completed on this connection. The caller must give a number from 1 to `CONNECTION_MAX`.
    ///
    /// Fails only if out of memory: it hands the act back, and the ledger is as before. The room doubles
    /// when it is full, so that all pushes together copy no more than twice what they append.
    #[inline(always)]
    pub fn push(&mut self, connection: u64, act: Act) -> Result<(), AllocFailed<Act>>
        requires { IsConnection connection }
        ensures appended { Leads result self.old self.new (self.old ++ (connection, act) ∷ []) }
        ensures given_back { IfErr result (λ failed. failed.value ≡ act) }
    {
        let _in_memory = self.acts.as_slice();
        if self.acts.reserve(1).is_err() {
            return Err(AllocFailed { value: act });
        }
        if is_contact(&act) {
            self.contacts += 1;
        }
        self.acts.push_reserved((connection, act));
        Ok(())
    }

    /// The acts in order, each next to the number of its connection.
    pub fn acts(&self) -> &[(u64, Act)]
        ensures { Shows result.now self.now AreOnConnections }
    {
        self.acts.as_slice()
    }

    /// How many of the acts are contacts. It is the number of the next contact, since the first has number 0
    /// (this profile). Nothing is counted again.
    pub fn contacts(&self) -> u64
        ensures { result ≡ contact_count self.now }
    {
        self.contacts
    }
}
