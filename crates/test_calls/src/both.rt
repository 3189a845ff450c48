// Both ends, driven command by command on the simulated machine.

use crate::stop::{Pushed, Stop};
use crate::{client, server};
use client_core::{Client, State};
use link_world::{Machine, Simulated};
use server_core::Server;
use std::alloc::Global;

/// Both ends and the machine.
#[derive(Drop)]
pub(crate) struct Both<'c, 's> {
    pub(crate) client: &'c mut Client,
    pub(crate) server: &'s mut Server,
    machine: Simulated,
}

impl<'c, 's> Both<'c, 's> {
    /// A new client and a new server on connection 1, after a count of commands; the server has done one more if the row says `more`.
    pub(crate) fn new(
        alloc: Global,
        (client, server): (&'c mut Client, &'s mut Server),
        row: &str,
    ) -> Result<Both<'c, 's>, Stop> {
        let (count, rest) = row.split_once(" ").unwrap_or((row, ""));
        let count: u32 = count.parse().ok().ok_or(Stop::Row)?;
        client.connected(1)?;
        server.accept(1)?;
        let machine = Simulated::new(alloc, server.setup())?;
        let mut both = Both {
            client,
            server,
            machine,
        };
        for _ in 0..count {
            both.end_next()?;
        }
        if rest == "more" {
            both.serve_next()?;
        }
        Ok(both)
    }

    /// The machine ends what runs. Answers whether anything ran.
    fn end_running(&mut self) -> Result<bool, Stop> {
        let number = self.server.ledger().contacts();
        let Some(job) = self.server.running() else {
            return Ok(false);
        };
        let outcome = self.machine.answer(job, number);
        self.server.machine(outcome)?;
        Ok(true)
    }

    /// The command that is due is sent, and the server and its machine do it.
    fn serve_next(&mut self) -> Pushed {
        self.client.send()?;
        self.server.feed(self.client.out())?;
        client::take_out(self.client);
        self.server.read_one()?;
        self.server.turn()?;
        self.end_running()?;
        Ok(())
    }

    /// Both ends complete the command that is due; the client reads at most ten lines.
    fn end_next(&mut self) -> Pushed {
        self.serve_next()?;
        self.client.feed(self.server.out())?;
        server::take_out(self.server);
        for _ in 0..10u32 {
            self.client.read_one()?;
        }
        Ok(())
    }

    /// The server works until nothing runs and nothing waits: at most 64 turns and as many ends.
    pub(crate) fn work(&mut self) -> Pushed {
        for _ in 0..130u32 {
            if !self.end_running()? && self.server.may_turn() {
                self.server.turn()?;
            }
        }
        Ok(())
    }

    /// Both leave, and are driven on connection 2 until no command is due.
    pub(crate) fn run_on(&mut self) -> Pushed {
        self.client.leave();
        self.server.leave();
        if self.client.state() == State::Done {
            return Ok(());
        }
        self.client.connected(2)?;
        self.server.accept(2)?;
        for _ in 0..100u32 {
            if self.client.due().is_some() {
                self.end_next()?;
            }
        }
        Ok(())
    }
}
