// Schedules: lists of instructions from which events are made.

use protocol_model::Event;
use std::marker::Model;

/// What one line of a schedule asks for (this profile).
#[derive(Clone, Copy, Debug, PartialEq, Eq)]
pub enum Instruction {
    /// This event, which does nothing if it cannot happen.
    Once(Event),
    /// What runs on the machine ends as a machine answers; nothing if nothing runs.
    Auto,
    /// All bytes that wait for the server on its connection move up to it.
    UpAll,
    /// All bytes that wait for the client on its connection move down to it.
    DownAll,
    /// The server reads while it can.
    ServerReadsAll,
    /// The client reads while it can.
    ClientReadsAll,
    /// This number of quiet rounds.
    Rounds(u32),
    /// Quiet rounds until one does nothing, at most 1,000,000.
    Quiet,
}

/// A schedule: its instructions, in order. Contracts see this list.
#[derive(Debug, Drop)]
pub struct Schedule {
    pub(crate) instructions: Vec<Instruction>,
}

impl Model for Schedule {
    ghost use Rattle.std.specs.Prelude.{List};
    ghost use Rattle.link_world.specs.declared.texts.schedules.Instruction.{Instruction};

    ghost Value = { List Instruction };

    ghost view = { λ s. s.instructions.items };
}
