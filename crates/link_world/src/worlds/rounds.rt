// Quiet rounds, in which the client, the server and its machine do all that they can.

ghost use Rattle.std.specs.Prelude.{◌≡◌, true, Some, IfSome};
ghost use Rattle.protocol_model.specs.World.{can};
ghost use Rattle.protocol_model.specs.declared.lines.Line.{Line as OneLine};
ghost use Rattle.server_core.specs.Steady.{IsRunnable};
ghost use Rattle.protocol_model.specs.Rounds.{AreWork, IsRound, ending, working};
ghost use Rattle.link_world.specs.Schedules.{AreCounted, AreQuiet};
ghost use Rattle.link_world.specs.Parts.{Tells, PlaysPart, staged};

use crate::connections::machines::Machine;
use crate::worlds::traces::Trace;
use crate::worlds::world::World;
use protocol_model::Event;
use std::alloc::AllocError;

/// How many quiet rounds a line of a schedule can ask for, and how many are made at most until one does nothing (this profile):
/// `rounds_most` of the definitions.
pub(crate) const ROUNDS_MAX: u32 = 1_000_000;

impl World {
    /// What the server has to do: what runs ends as the machine answers, otherwise the first waiting command is processed.
    fn next_work<M: Machine>(&self, machine: &mut M) -> Option<Event>
        ensures value { result
            ≡ working (ending (M.answers machine.old) self.now.world) self.now.world }
        ensures possible { IfSome result (λ event. can event self.now.world ≡ true) }
        ensures keeps { M.answers machine.new ≡ M.answers machine.old }
        ensures runnable { (line : OneLine) → self.now.world.server.server.running ≡ Some line
            → IsRunnable self.now.world.server.server line }
    {
        let _known = self.server.view();
        if let Some(event) = self.ending(machine) {
            return Some(event);
        }
        self.server.may_turn().then_some(Event::ServerTurn)
    }

    /// The server does all that it has to do: it processes commands and ends jobs while there are any.
    pub(crate) fn work<M: Machine>(
        &mut self,
        machine: &mut M,
        trace: &mut Trace,
    ) -> Result<bool, AllocError>
        ensures made { Tells result (AreWork (M.answers machine.old))
            (staged self.old trace.old) (staged self.new trace.new) }
        ensures keeps { M.answers machine.new ≡ M.answers machine.old }
    {
        let mut busy = false;
        while let Some(event) = self.next_work(machine) {
            self.attempt(event, trace)?;
            busy = true;
        }
        Ok(busy)
    }

    /// A quiet round: the client sends all that is due, all of it comes to the server, which reads it all and does it all, and all answers
    /// come to the client, which reads them all. Returns whether anything was done.
    pub(crate) fn quiet_round<M: Machine>(
        &mut self,
        machine: &mut M,
        trace: &mut Trace,
    ) -> Result<bool, AllocError>
        ensures made { Tells result (IsRound (M.answers machine.old))
            (staged self.old trace.old) (staged self.new trace.new) }
        ensures keeps { M.answers machine.new ≡ M.answers machine.old }
    {
        let sent = self.repeat(Event::ClientSends, trace)?;
        let raised = self.up_all(trace)?;
        let read = self.repeat(Event::ServerReads, trace)?;
        let worked = self.work(machine, trace)?;
        let lowered = self.down_all(trace)?;
        let heard = self.repeat(Event::ClientReads, trace)?;
        Ok(sent | raised | read | worked | lowered | heard)
    }

    /// This number of quiet rounds. Fails only if out of memory.
    pub(crate) fn quiet_rounds<M: Machine>(
        &mut self,
        count: u32,
        machine: &mut M,
        trace: &mut Trace,
    ) -> Result<(), AllocError>
        ensures made { PlaysPart result (AreCounted (M.answers machine.old) count)
            (staged self.old trace.old) (staged self.new trace.new) }
        ensures keeps { M.answers machine.new ≡ M.answers machine.old }
    {
        for _round in 0..count {
            self.quiet_round(machine, trace)?;
        }
        Ok(())
    }

    /// Quiet rounds until one does nothing, at most `ROUNDS_MAX`. Fails only if out of memory.
    pub(crate) fn quiet<M: Machine>(
        &mut self,
        machine: &mut M,
        trace: &mut Trace,
    ) -> Result<(), AllocError>
        ensures made { PlaysPart result (AreQuiet (M.answers machine.old))
            (staged self.old trace.old) (staged self.new trace.new) }
        ensures keeps { M.answers machine.new ≡ M.answers machine.old }
    {
        for _round in 0..ROUNDS_MAX {
            if !self.quiet_round(machine, trace)? {
                return Ok(());
            }
        }
        Ok(())
    }
}
