// The lines that both sides of a world write, as text. No event depends on them, and if memory runs out for them the events happen all
// the same.

ghost use Rattle.std.specs.Prelude.{◌≡◌, ◌++◌, ◌↔◌, ◌-◌, suc, [], ◌∷◌, true, false, length, drop, OnOk, OnErr, IfOk, IfSome, IsOk, ◌<◌, ◌==◌};
ghost use Rattle.std.specs.List.{position};
ghost use Rattle.fixed_um.specs.Calls.{Leads};
ghost use Rattle.protocol_model.specs.World.{happens};
ghost use Rattle.link_world.specs.Claims.{Headline, IsAnswer};
ghost use Rattle.link_world.specs.Finishing.{IsSameKind};
ghost use Rattle.link_world.specs.Links.{with_world};
ghost use Rattle.link_world.specs.Traces.{without_cr, row, rows, client_mark, server_mark, up_on, down_on, standing, is_there, place, client_wrote, server_wrote, lost_up, lost_down, passed_over, shown, taken_after, Traces, Ends, Grows};

use crate::worlds::faults::WorldFault;
use crate::worlds::standing::Standing;
use crate::worlds::world::World;
use protocol_model::Event;
use std::alloc::{AllocError, Global};
use std::marker::Model;

/// The lines that both sides of a world write, as text, in the order in which they were written: the number of the connection, `>` for the
/// client or `<` for the server, and the line. What follows `never delivered: ` did not come to its reader before that reader left the
/// connection. If memory runs out for a line, the text is kept no longer.
#[derive(Drop)]
pub struct Trace {
    alloc: Global,
    text: Vec<u8>,
    taken: u64,
    is_kept: bool,
}

impl Model for Trace {
    ghost use Rattle.link_world.specs.Traces.{TraceValue};

    ghost Value = { TraceValue };

    ghost view = { λ t. record { is_kept = t.is_kept; taken = t.taken; text = t.text.items } };
}

// ---- rows

/// What precedes a line of the client, by whether the server can still take it.
fn client_mark(comes: bool) -> &'static str
    ensures { result.now ≡ client_mark comes }
{
    if comes { " > " } else { " > never delivered: " }
}

/// What precedes a line of the server, by whether the client can still take it.
fn server_mark(comes: bool) -> &'static str
    ensures { result.now ≡ server_mark comes }
{
    if comes { " < " } else { " < never delivered: " }
}

#[tactic(auto, using(crate::proofs::Tracing::cr_gone, crate::proofs::Tracing::cr_none, crate::proofs::Tracing::cr_empty))]
fn without_cr(line: &[u8]) -> &[u8]
    ensures { result.now ≡ without_cr line.now }
{
    let Some((last, front)) = line.split_last() else {
        return line;
    };
    if *last == b'\r' { front } else { line }
}

#[tactic(auto, using(crate::proofs::Tracing::row_none, crate::proofs::Tracing::row_more))]
fn push_row(
    alloc: Global,
    text: &mut Vec<u8>,
    number: u64,
    mark: &str,
    line: &[u8],
) -> Result<(), AllocError>
    ensures { OnOk result (text.new.items ≡ text.old.items ++ row number mark.now line.now) }
{
    if line.is_empty() {
        return Ok(());
    }
    let head = format!(in alloc; "{number}{mark}")?;
    text.extend_from_slice(head.as_bytes())?;
    text.extend_from_slice(line)?;
    text.push(b'\n')?;
    Ok(())
}

/// The index of the first LF.
fn line_end(bytes: &[u8]) -> Option<usize>
    ensures place { result ≡ position (λ b. b == 10) bytes.now }
    ensures within { IfSome result (λ at. at < length bytes.now) }
{
    bytes.iter().position(|byte| *byte == b'\n')
}

/// Appends the rows of bytes, the last line of which may lack its LF. Fails only if out of memory.
fn push_rows(
    alloc: Global,
    text: &mut Vec<u8>,
    number: u64,
    mark: &str,
    bytes: &[u8],
) -> Result<(), AllocError>
    ensures { OnOk result (text.new.items ≡ text.old.items ++ rows number mark.now bytes.now) }
{
    let mut rest = bytes;
    while let Some(at) = line_end(rest) {
        let (line, _) = rest.split_at(at);
        push_row(alloc, text, number, mark, without_cr(line))?;
        let (_, after) = rest.split_at(at + 1);
        rest = after;
    }
    push_row(alloc, text, number, mark, without_cr(rest))
}

fn rest_of(bytes: &[u8], count: usize) -> &[u8]
    ensures { result.now ≡ drop count bytes.now }
{
    if count > bytes.len() {
        return &[];
    }
    &bytes[count..]
}

// ---- both sides before an event

/// The number of the connection that a side is on, if it is on one.
fn place(on: bool, last: u64) -> Option<u64>
    ensures { result ≡ place on last }
{
    if on { Some(last) } else { None }
}

/// Whether a side is on the connection of this number.
fn is_there(place: Option<u64>, number: u64) -> bool
    ensures { result ≡ is_there place number }
{
    place.is_some_and(|at| at == number)
}

impl World {
    /// The bytes of the client that wait on the connection of this number.
    fn up_on(&self, number: u64) -> &[u8]
        ensures { result.now ≡ up_on self.now.world number }
    {
        match self.connections.get(number.saturating_sub(1) as usize) {
            Some(connection) => connection.up.waiting(),
            None => &[],
        }
    }

    /// The bytes of the server that wait on the connection of this number.
    fn down_on(&self, number: u64) -> &[u8]
        ensures { result.now ≡ down_on self.now.world number }
    {
        match self.connections.get(number.saturating_sub(1) as usize) {
            Some(connection) => connection.down.waiting(),
            None => &[],
        }
    }

    fn connections_made(&self) -> u64
        ensures links { result ≡ length self.now.world.links }
        ensures last { result ≡ self.now.world.client.client.last }
    {
        self.connections.len() as u64
    }

    /// The number of the connection that the client is on, if it is on one.
    fn client_place(&self) -> Option<u64>
        ensures { result ≡ place self.now.world.client.client.on
            self.now.world.client.client.last }
    {
        place(self.client.is_on(), self.connections_made())
    }

    /// Both sides, if the server took the connection of this number last.
    fn standing(&self, taken: u64) -> Standing
        ensures { taken ≡ self.now.world.server.server.last → result ≡ standing self.now.world }
    {
        Standing {
            client: self.client_place(),
            server: self.server.view().connection,
            taken,
            up: self.up_on(self.connections_made()).len(),
            down: self.down_on(taken).len(),
        }
    }
}

// ---- a trace

impl Trace {
    /// A trace in which nothing is written yet, of a world in which nothing has happened.
    pub fn new(alloc: Global) -> Trace
        ensures { result ≡ record { is_kept = true; taken = 0; text = [] } }
    {
        Trace {
            alloc,
            text: Vec::new(alloc),
            taken: 0,
            is_kept: true,
        }
    }

    /// A trace that is not kept.
    pub(crate) fn silent(alloc: Global) -> Trace
        ensures { result ≡ record { is_kept = false; taken = 0; text = [] } }
    {
        Trace {
            alloc,
            text: Vec::new(alloc),
            taken: 0,
            is_kept: false,
        }
    }

    /// The text. Fails if memory ran out for one of its lines.
    pub fn text(&self) -> Result<&[u8], AllocError>
        ensures ok { IfOk result (λ text. text.now ≡ self.now.text) }
        ensures kept { IsOk result ↔ (self.now.is_kept ≡ true) }
    {
        if !self.is_kept {
            return Err(AllocError);
        }
        Ok(self.text.as_slice())
    }

    #[tactic(auto, using(crate::proofs::Tracing::grows_kept, crate::proofs::Tracing::grows_lost))]
    fn keep(&mut self, number: u64, mark: &str, bytes: &[u8])
        ensures { Grows self.old self.new (rows number mark.now bytes.now) }
    {
        if !self.is_kept {
            return;
        }
        match push_rows(self.alloc, &mut self.text, number, mark, bytes) {
            Ok(()) => {}
            Err(AllocError) => self.is_kept = false,
        }
    }

    /// What the client wrote in an event.
    #[tactic(auto, using(crate::proofs::Tracing::grows_none, crate::proofs::Tracing::client_kept, crate::proofs::Tracing::client_kept_none))]
    fn keep_client(&mut self, world: &World, before: &Standing)
        ensures { Grows self.old self.new
            (client_wrote before.now world.now.world before.now.client) }
    {
        if let Some(number) = before.client {
            let mark = client_mark(is_there(before.server, number) || before.taken < number);
            self.keep(number, mark, rest_of(world.up_on(number), before.up));
        }
    }

    /// What the server wrote in an event.
    #[tactic(auto, using(crate::proofs::Tracing::grows_none, crate::proofs::Tracing::server_kept, crate::proofs::Tracing::server_kept_none))]
    fn keep_server(&mut self, world: &World, before: &Standing)
        ensures { Grows self.old self.new
            (server_wrote before.now world.now.world before.now.server) }
    {
        if let Some(number) = before.server {
            let mark = server_mark(is_there(before.client, number));
            self.keep(number, mark, rest_of(world.down_on(number), before.down));
        }
    }

    /// What is never delivered of the client, because the server has left the connection.
    #[tactic(auto, using(crate::proofs::Tracing::grows_none, crate::proofs::Tracing::up_kept, crate::proofs::Tracing::up_kept_none))]
    fn keep_lost_up(&mut self, world: &World, place: Option<u64>)
        ensures { Grows self.old self.new (lost_up world.now.world place) }
    {
        if let Some(number) = place {
            self.keep(number, client_mark(false), world.up_on(number));
        }
    }

    /// What is never delivered of the server, because the client has left the connection.
    #[tactic(auto, using(crate::proofs::Tracing::grows_none, crate::proofs::Tracing::down_kept, crate::proofs::Tracing::down_kept_none))]
    fn keep_lost_down(&mut self, world: &World, place: Option<u64>)
        ensures { Grows self.old self.new (lost_down world.now.world place) }
    {
        if let Some(number) = place {
            self.keep(number, server_mark(false), world.down_on(number));
        }
    }

    /// What is never delivered on the connections between two, because the server never takes them.
    fn keep_passed_over(&mut self, world: &World, taken: u64, end: u64)
        ensures { Grows self.old self.new
            (passed_over world.now.world (suc taken) (end - taken)) }
    {
        for before in taken..end {
            let number = before + 1;
            self.keep(number, client_mark(false), world.up_on(number));
        }
    }

    /// What an event that has happened wrote, and what cannot be delivered after it.
    #[tactic(auto, using(crate::proofs::Tracing::grows_none))]
    fn note(&mut self, world: &World, event: &Event, before: &Standing)
        ensures { Grows self.old self.new (shown event.now before.now world.now.world) }
    {
        match event {
            Event::ClientSends | Event::Abort => self.keep_client(world, before),
            Event::ServerReads | Event::ServerTurn | Event::Machine(_) => {
                self.keep_server(world, before)
            }
            Event::ClientLeaves | Event::ClientRestart(_) => {
                self.keep_lost_down(world, before.client)
            }
            Event::ServerLeaves | Event::ServerRestart => self.keep_lost_up(world, before.server),
            Event::Accept(number) => {
                self.keep_passed_over(world, before.taken, number.saturating_sub(1))
            },
            Event::Connect | Event::Up(_) | Event::Down(_) => {}
            Event::ClientReads | Event::Resume => {}
        }
    }

    /// The server may have taken another connection.
    fn take(&mut self, event: &Event)
        ensures { self.new ≡ record self.old { taken = taken_after event.now self.old.taken } }
    {
        if let Event::Accept(number) = event {
            self.taken = *number;
        }
    }

    /// An event happens to a world, if it can, as by `World::step`, and its lines follow the text. If memory runs out for a line, the event
    /// happens all the same, and the text is kept no longer.
    ///
    /// - `always`, `answer`, `leads`, `fixed`: as of `World::step`;
    /// - `traced`: if the event happens, its rows follow the text;
    /// - `untraced`: if it does not, the text stays as it was.
    pub fn step(&mut self, world: &mut World, event: Event) -> Result<(), WorldFault>
        ensures always { Headline world.new.world }
        ensures answer { IsAnswer event world.old.world result }
        ensures leads { Leads result world.old world.new
            (with_world world.old (happens event world.old.world)) }
        ensures fixed { IsSameKind world.old world.new }
        ensures traced { OnOk result (Traces (event ∷ []) world.old.world self.old self.new) }
        ensures untraced { OnErr result (self.new ≡ self.old) }
    {
        if !self.is_kept {
            return world.step(event);
        }
        let before = world.standing(self.taken);
        world.step(event)?;
        self.note(world, &event, &before);
        self.take(&event);
        Ok(())
    }

    /// What has not come to its reader follows the text, when no more events happen.
    pub fn end(&mut self, world: &World)
        ensures { Ends world.now.world self.old self.new }
    {
        if !self.is_kept {
            return;
        }
        let end = world.standing(self.taken);
        let made = world.connections_made();
        self.keep_lost_down(world, end.client);
        self.keep_lost_up(world, end.server);
        self.keep_passed_over(world, end.taken, made);
    }
}
