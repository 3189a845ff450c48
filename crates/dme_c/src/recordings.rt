// The record of a run, in memory: what of it has its lines, and the lines that a caller has not taken yet.

ghost use Rattle.std.specs.Prelude.{◌≡◌, ◌⊎◌, ◌++◌, true, OnOk, OnErr, IfErr};
ghost use Rattle.fixed_um.specs.Calls.{Leads};
ghost use Rattle.protocol_model.specs.Client.{may_resume};
ghost use Rattle.protocol_model.specs.Ends.{end_connected, end_resumed};
ghost use Rattle.client_core.specs.Clients.{may_connect};
ghost use Rattle.client_core.specs.Refusals.{IsRefused};
ghost use Rattle.dme_c.specs.Recordings.{IsKept, Takes, connected, followed, next_number, resumed};

use crate::room::copy_front;
use client_core::{Client, ClientFault};
use line_framing::ByteQueue;
use record_text::Telling;
use std::marker::Model;

/// What is kept of the record of a run while it follows a client.
#[derive(Drop)]
pub struct Recording {
    /// The number of the last connection.
    on: u64,
    telling: Telling,
    /// How many of the acts that the client has counted on its connection have their lines.
    told: usize,
    waiting: ByteQueue,
}

impl Model for Recording {
    ghost use Rattle.std.specs.Prelude.{◌≡◌};
    ghost use Rattle.dme_c.specs.Recordings.{RecordValue};

    ghost Value = { RecordValue };

    ghost view = { λ r. record {
      on = r.on;
      counted = r.telling.counted;
      told = r.told;
      waiting = r.waiting.waiting;
    } };

    ghost invariant = { λ r. r.telling.connection ≡ r.on };
}

impl Recording {
    /// The record of a run that begins with this many features after the connection of this number, and these bytes to be taken.
    pub(crate) fn new(on: u64, features: usize, waiting: ByteQueue) -> Recording
        ensures { result ≡ record {
          on = on;
          counted = record { features = features; points = 0 };
          told = 0;
          waiting = waiting.waiting;
        } }
    {
        Recording {
            on,
            telling: Telling::new(on, features),
            told: 0,
            waiting,
        }
    }

    pub(crate) fn next_connection(&self) -> u64
        ensures { result ≡ next_number self.now }
    {
        self.on.saturating_add(1)
    }

    /// Adds the lines of what the client has counted since. Fails only if out of memory.
    pub(crate) fn follow(&mut self, client: &Client) -> Result<(), ClientFault>
        ensures leads { Leads result self.old self.new (followed client.now self.old) }
        ensures memory { IfErr result (λ why. why ≡ ClientFault.Memory) }
    {
        let acts = client.counted();
        let from = self.told.min(acts.len());
        let (_, untold) = acts.split_at(from);
        self.telling
            .tell(self.waiting.as_mut_vec(), client.program(), untold)?;
        self.told = acts.len();
        Ok(())
    }

    /// A plan begins on the connection of this number, with this many features.
    fn begin(&mut self, number: u64, features: usize, told: usize)
        ensures { self.new ≡ record {
          on = number;
          counted = record { features = features; points = 0 };
          told = told;
          waiting = self.old.waiting;
        } }
    {
        self.on = number;
        self.telling = Telling::new(number, features);
        self.told = told;
    }

    /// The client comes to the next connection, after the lines that are due on the last one.
    pub(crate) fn connect(&mut self, client: &mut Client) -> Result<(), ClientFault>
        ensures leads { Leads result client.old client.new
            (end_connected (next_number self.old) client.old) }
        ensures can { OnOk result (may_connect (next_number self.old) client.old.client ≡ true) }
        ensures refused { IfErr result (λ why. (why ≡ ClientFault.Memory)
            ⊎ IsRefused (may_connect (next_number self.old) client.old.client) client.old why) }
        ensures begins { OnOk result (self.new ≡ connected client.old client.new self.old) }
        ensures kept { OnErr result (IsKept client.old self.old self.new) }
    {
        self.follow(client)?;
        let number = self.next_connection();
        client.connected(number)?;
        self.begin(number, client.features().len(), 0);
        Ok(())
    }

    /// The client resumes its plan, after the lines that are due.
    pub(crate) fn resume(&mut self, client: &mut Client) -> Result<(), ClientFault>
        ensures leads { Leads result client.old client.new (end_resumed client.old) }
        ensures can { OnOk result (may_resume client.old.client client.old.client.state ≡ true) }
        ensures refused { IfErr result (λ why. (why ≡ ClientFault.Memory)
            ⊎ IsRefused (may_resume client.old.client client.old.client.state) client.old why) }
        ensures begins { OnOk result (self.new ≡ resumed client.old client.new self.old) }
        ensures kept { OnErr result (IsKept client.old self.old self.new) }
    {
        self.follow(client)?;
        client.resume()?;
        self.begin(self.on, client.features().len(), self.told);
        Ok(())
    }

    /// Copies a prefix of the bytes that wait into the room, as much as fits, and answers how many; they then wait no more.
    pub(crate) fn take(&mut self, room: &mut [u8]) -> usize
        ensures { Takes room.old room.new result self.old self.new }
    {
        let count = copy_front(self.waiting.waiting(), room);
        self.waiting.take(count);
        count
    }
}
