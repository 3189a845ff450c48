// What the client does in a world, and the bytes that come to it.

ghost use Rattle.std.specs.Prelude.{◌≡◌, ◌++◌, [], nat_le, ◌&&◌, true, false, is_some, take, drop};
ghost use Rattle.fixed_um.specs.Calls.{Leads, Writes};
ghost use Rattle.contact_ledger.specs.Ledgers.{connection_most};
ghost use Rattle.protocol_model.specs.Client.{due, is_apart, may_abort};
ghost use Rattle.protocol_model.specs.Ends.{end_sent, end_aborted, end_fed, end_read, end_resumed, end_left, end_restarted};
ghost use Rattle.protocol_model.specs.World.{can, has_some, connected, client_writes, moved_down};
ghost use Rattle.protocol_model.specs.declared.events.Event.TheVariants as event;
ghost use Rattle.client_core.specs.Clients.{is_faulted, may_read};
ghost use Rattle.link_world.specs.Events.{HappensIf, HappensIff};
ghost use Rattle.link_world.specs.Links.{link_of_connection, with_up, fewer_down, quiet_client, with_world};

use crate::worlds::connection::Connection;
use crate::worlds::faults::WorldFault;
use crate::worlds::world::World;
use client_core::{Client, State};
use contact_ledger::CONNECTION_MAX;

fn send(
    client: &mut Client,
    connection: &mut Connection,
    written: &mut Vec<u8>,
) -> Result<(), WorldFault>
    requires quiet { client.old.out ≡ [] }
    requires awake { is_faulted client.old.client.state ≡ false }
    requires fine { is_some (due client.old.client) ≡ true
        → is_faulted (end_sent client.old).client.state ≡ false }
    ensures can { HappensIf result (is_some (due client.old.client)) }
    ensures client { Leads result client.old client.new (quiet_client (end_sent client.old)) }
    ensures link { Leads result (link_of_connection connection.old)
        (link_of_connection connection.new)
        (with_up connection.old (end_sent client.old).out) }
    ensures written { Writes result written.old written.new (end_sent client.old).out }
{
    if client.due().is_none() {
        return Err(WorldFault::NotNow);
    }
    connection.reserve_up(written)?;
    client.send()?;
    connection.join_up(client, written);
    Ok(())
}

fn abort(
    client: &mut Client,
    connection: &mut Connection,
    written: &mut Vec<u8>,
) -> Result<(), WorldFault>
    requires quiet { client.old.out ≡ [] }
    requires awake { is_faulted client.old.client.state ≡ false }
    requires fine { may_abort client.old.client.state ≡ true
        → is_faulted (end_aborted client.old).client.state ≡ false }
    ensures can { HappensIf result (may_abort client.old.client.state) }
    ensures client { Leads result client.old client.new (quiet_client (end_aborted client.old)) }
    ensures link { Leads result (link_of_connection connection.old)
        (link_of_connection connection.new)
        (with_up connection.old (end_aborted client.old).out) }
    ensures written { Writes result written.old written.new (end_aborted client.old).out }
{
    if !matches!(client.state(), State::Running | State::Failing) {
        return Err(WorldFault::NotNow);
    }
    connection.reserve_up(written)?;
    client.abort()?;
    connection.join_up(client, written);
    Ok(())
}

/// The first bytes of those down come to the client.
fn bring_down(
    client: &mut Client,
    connection: &mut Connection,
    count: usize,
) -> Result<(), WorldFault>
    requires reads { may_read client.old.client ≡ true }
    ensures can { HappensIf result (has_some count connection.old.down.waiting) }
    ensures client { Leads result client.old client.new
        (end_fed (take count connection.old.down.waiting) client.old) }
    ensures link { Leads result (link_of_connection connection.old)
        (link_of_connection connection.new) (fewer_down count connection.old) }
{
    if count == 0 || count > connection.down.waiting().len() {
        return Err(WorldFault::NotNow);
    }
    client.feed(&connection.down.waiting()[..count])?;
    connection.down.take(count);
    Ok(())
}

fn may_connect(state: State, number: u64) -> bool
    ensures { result ≡ (is_apart state && nat_le number connection_most) }
{
    matches!(state, State::Apart) && number <= CONNECTION_MAX
}

impl World {
    /// The client makes the next connection.
    #[tactic(auto, using(crate::proofs::Reached::made, crate::proofs::ClientSteps::connect_is, crate::proofs::ClientSteps::connect_reached))]
    pub(crate) fn connect(&mut self) -> Result<(), WorldFault>
        ensures can { HappensIf result (can event.Connect self.old.world) }
        ensures world { Leads result self.old self.new
            (with_world self.old (connected self.old.world)) }
    {
        let number = self.connections.len() as u64 + 1;
        if !may_connect(self.client.state(), number) {
            return Err(WorldFault::NotNow);
        }
        self.connections.reserve(1)?;
        self.client.connected(number)?;
        self.connections.push_reserved(Connection::new(self.alloc));
        self.written.clear();
        Ok(())
    }

    pub(crate) fn client_sends(&mut self) -> Result<(), WorldFault>
        ensures can { HappensIf result (can event.ClientSends self.old.world) }
        ensures world { Leads result self.old self.new (with_world self.old
            (client_writes self.old.world (end_sent self.old.world.client))) }
    {
        let Some(connection) = self.connections.last_mut() else {
            return Err(WorldFault::NotNow);
        };
        send(&mut self.client, connection, &mut self.written)
    }

    /// The client sends an abort.
    pub(crate) fn abort(&mut self) -> Result<(), WorldFault>
        ensures can { HappensIf result (can event.Abort self.old.world) }
        ensures world { Leads result self.old self.new (with_world self.old
            (client_writes self.old.world (end_aborted self.old.world.client))) }
    {
        let Some(connection) = self.connections.last_mut() else {
            return Err(WorldFault::NotNow);
        };
        abort(&mut self.client, connection, &mut self.written)
    }

    /// This number of bytes moves down to the client.
    pub(crate) fn down(&mut self, count: usize) -> Result<(), WorldFault>
        ensures can { HappensIf result (can (event.Down count) self.old.world) }
        ensures world { Leads result self.old self.new
            (with_world self.old (moved_down count self.old.world)) }
    {
        if !self.client.is_on() {
            return Err(WorldFault::NotNow);
        }
        let Some(connection) = self.connections.last_mut() else {
            return Err(WorldFault::NotNow);
        };
        bring_down(&mut self.client, connection, count)
    }

    /// The client begins its plan again on its connection.
    #[tactic(auto, using(crate::proofs::ClientSteps::resume_reached))]
    pub(crate) fn resume(&mut self) -> Result<(), WorldFault>
        ensures can { HappensIf result (can event.Resume self.old.world) }
        ensures world { Leads result self.old self.new (with_world self.old
            (record self.old.world { client = end_resumed self.old.world.client })) }
    {
        self.client.resume()?;
        Ok(())
    }

    #[tactic(auto, using(crate::proofs::ClientSteps::left_reached))]
    pub(crate) fn client_leaves(&mut self) -> Result<(), WorldFault>
        ensures can { HappensIff result (can event.ClientLeaves self.old.world) }
        ensures world { Leads result self.old self.new (with_world self.old
            (record self.old.world { client = end_left self.old.world.client })) }
    {
        if !self.client.is_on() {
            return Err(WorldFault::NotNow);
        }
        self.client.leave();
        Ok(())
    }

    /// The client is stopped, and begins again with this number of features.
    #[tactic(auto, using(crate::proofs::ClientSteps::restart_reached, crate::proofs::ClientSteps::restart_can, crate::proofs::ClientSteps::restart_refused))]
    pub(crate) fn client_restart(&mut self, count: usize) -> Result<(), WorldFault>
        ensures can { HappensIff result (can (event.ClientRestart count) self.old.world) }
        ensures world { Leads result self.old self.new (with_world self.old
            (record self.old.world { client = end_restarted count self.old.world.client })) }
    {
        self.client.restart(count)?;
        Ok(())
    }

    pub(crate) fn client_reads(&mut self) -> Result<(), WorldFault>
        ensures can { HappensIf result (can event.ClientReads self.old.world) }
        ensures world { Leads result self.old self.new
            (with_world self.old (record self.old.world
            { client = end_read self.old.world.client })) }
    {
        if !self.client.is_on() {
            return Err(WorldFault::NotNow);
        }
        if !self.client.has_line() {
            return Err(WorldFault::NotNow);
        }
        self.client.read_one()?;
        Ok(())
    }
}
