// What can happen between both ends and the bytes between them.

use crate::machine::Outcome;

/// An event of both ends and of the connections between them (this profile). Connections are numbered from 1 as the client makes them.
#[derive(Clone, Copy, Debug, PartialEq, Eq)]
pub enum Event {
    /// The client makes the next connection.
    Connect,
    /// The server takes the connection of this number.
    Accept(u64),
    /// The client sends the command that is due.
    ClientSends,
    /// That many bytes move up to the server.
    Up(usize),
    /// The server reads a line.
    ServerReads,
    /// The first command that waits at the server is processed.
    ServerTurn,
    /// The machine is done with what runs.
    Machine(Outcome),
    /// That many bytes move down to the client.
    Down(usize),
    /// The client reads a line.
    ClientReads,
    /// The client leaves its connection.
    ClientLeaves,
    /// The server leaves its connection.
    ServerLeaves,
    /// The client sends an abort.
    Abort,
    /// The client begins its plan again on its connection.
    Resume,
    /// The client is stopped, and begins again with that many features.
    ClientRestart(usize),
    /// The server is switched off and on.
    ServerRestart,
}
