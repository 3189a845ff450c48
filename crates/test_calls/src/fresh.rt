// What clients, servers and worlds are made of, and what is done with new ones. Each is owned here alone, since a function that owns one
// takes the prover as long as ten others.

use crate::stop::{Pushed, Stop};
use client_core::Client;
use contact_ledger::{FeatureLedger, read_features};
use dmis_program::Program;
use link_world::{NewFault, Schedule, World};
use server_core::Server;
use std::alloc::Global;
use tool_rack::Setup;

/// The texts of which the rows of a part are made, each empty if there is none, and the window.
#[derive(Clone, Copy)]
pub(crate) struct Made<'a> {
    /// The features that the client holds.
    pub(crate) held: &'a str,
    pub(crate) program: &'a str,
    pub(crate) setup: &'a str,
    /// What comes in, one piece a line.
    pub(crate) replies: &'a str,
    pub(crate) commands: &'a str,
    /// Likewise if everything was measured.
    pub(crate) last_replies: &'a str,
    pub(crate) last_commands: &'a str,
    /// The ways in which worlds are stopped, and how each is brought to its end.
    pub(crate) ways: &'a str,
    pub(crate) ending: &'a str,
    pub(crate) window: u8,
}

/// What a new client, server or world is made for.
pub(crate) trait Task<E> {
    /// What it does with it, and shows.
    fn push(&mut self, out: &mut Vec<u8>, end: &mut E) -> Pushed;
}

/// What a new client and a new server are made for.
pub(crate) trait BothTask {
    /// What it does with them, and shows.
    fn push_both(&mut self, out: &mut Vec<u8>, ends: (&mut Client, &mut Server)) -> Pushed;
}

pub(crate) fn read_setup(alloc: Global, made: Made<'_>) -> Result<Setup, Stop> {
    Ok(Setup::read(alloc, made.setup.as_bytes())?)
}

pub(crate) fn read_program(alloc: Global, made: Made<'_>) -> Result<Program, Stop> {
    let setup = read_setup(alloc, made)?;
    Ok(Program::read(alloc, made.program.as_bytes(), setup.frames())?)
}

/// A client, a server or a world.
pub(crate) trait Fresh: Sized + Drop {
    fn fresh(alloc: Global, made: Made<'_>) -> Result<Self, Stop>;
}

impl Fresh for Client {
    fn fresh(alloc: Global, made: Made<'_>) -> Result<Client, Stop> {
        let program = read_program(alloc, made)?;
        let features = if made.held.is_empty() {
            FeatureLedger::new(alloc)
        } else {
            read_features(alloc, made.held.as_bytes())?
        };
        match Client::new(alloc, program, features, made.window) {
            Ok(client) => Ok(client),
            Err(_) => Err(Stop::Row),
        }
    }
}

impl Fresh for Server {
    fn fresh(alloc: Global, made: Made<'_>) -> Result<Server, Stop> {
        Ok(Server::new(alloc, read_setup(alloc, made)?)?)
    }
}

impl Fresh for World {
    fn fresh(alloc: Global, made: Made<'_>) -> Result<World, Stop> {
        let program = read_program(alloc, made)?;
        let setup = read_setup(alloc, made)?;
        match World::new(alloc, program, setup, made.window) {
            Ok(world) => Ok(world),
            Err(NewFault::Memory) => Err(Stop::Refused),
            Err(NewFault::BadWindow(_, _)) => Err(Stop::Row),
        }
    }
}

/// What a task of a new client, server or world shows.
pub(crate) fn push_new<E: Fresh, T: Task<E>>(
    out: &mut Vec<u8>,
    made: Made<'_>,
    task: &mut T,
) -> Pushed {
    let mut end = E::fresh(*out.allocator(), made)?;
    let done = task.push(out, &mut end);
    drop(end);
    done
}

/// A task of a client with a new server.
#[derive(Drop)]
struct WithServer<'a, T> {
    made: Made<'a>,
    task: &'a mut T,
}

impl<T: BothTask> Task<Client> for WithServer<'_, T> {
    fn push(&mut self, out: &mut Vec<u8>, client: &mut Client) -> Pushed {
        let mut server = Server::fresh(*out.allocator(), self.made)?;
        let done = self.task.push_both(out, (client, &mut server));
        drop(server);
        done
    }
}

/// What a task of a new client and a new server shows.
pub(crate) fn push_both<T: BothTask>(out: &mut Vec<u8>, made: Made<'_>, task: &mut T) -> Pushed {
    push_new::<Client, _>(out, made, &mut WithServer { made, task })
}

/// The instructions of a text are played.
pub(crate) fn play(alloc: Global, world: &mut World, text: &[u8]) -> Pushed {
    let schedule = Schedule::read(alloc, text)?;
    Ok(schedule.play(world)?)
}
