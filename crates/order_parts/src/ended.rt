// How an order over a connection has ended, and what is shown of it.

ghost use Rattle.std.specs.Prelude.{◌≡◌, ◌↔◌, IsOk, IfOk, IfErr, IfSome, None};
ghost use Rattle.order_parts.specs.Names.{status_of, status_of_state, unexpected, client_cause, server_cause, cause_of, IsBreakShown, break_status, is_for_a_line, is_open};

use crate::faults::OrderFault;
use client_core::{Cause, ClientFault, State};
use link_world::{LoopFault, PumpFault};
use server_core::ServerFault;

/// How an order over a connection has ended.
#[derive(Clone, Copy, Debug, PartialEq, Eq)]
pub struct ConnectionEnd {
    /// The last state of the client.
    pub state: State,
    /// Why the connection was broken off, if it was.
    pub broken: Option<LoopFault>,
}

/// The exit status of a run that ended with its client in this state: 3 if it was stopped or has met something unexpected, else 0.
pub fn status(state: State) -> u8
    ensures { result ≡ status_of_state state }
{
    match state {
        State::Halted | State::Faulted => 3,
        State::Apart | State::Running | State::Failing | State::Aborting | State::Done => 0,
    }
}

/// What a server has done that its client does not expect, as a line.
fn unexpected(cause: Cause) -> &'static str
    ensures { result.now ≡ unexpected cause }
{
    match cause {
        Cause::NotResponse => {
            "the server sent no response, or data that its command did not ask for\n"
        }
        Cause::LineTooLong => "the server sent a line of more than 65536 bytes\n",
        Cause::BadByte => "the server sent a CR or an LF inside a line\n",
        Cause::UnknownTag => "the server answered under a tag that no command has open\n",
        Cause::OutOfOrder => "the server sent a response that its command cannot have there\n",
        Cause::NoData => "the server ended a command without the data that it asks for\n",
        Cause::SecondData => "the server sent data twice for one command\n",
        Cause::TagsSpent => "the server has ended no command for so long that no tag is free\n",
    }
}

/// What a client's refusal says about its connection, as a line.
fn client_cause(fault: ClientFault) -> &'static str
    ensures { result.now ≡ client_cause fault }
{
    match fault {
        ClientFault::Faulted(cause) => unexpected(cause),
        ClientFault::NotNow | ClientFault::Memory => "the client is on no connection\n",
    }
}

/// What a server's refusal says about its connection, as a line.
fn server_cause(fault: ServerFault) -> &'static str
    ensures { result.now ≡ server_cause fault }
{
    match fault {
        ServerFault::Framing(_) => "the client sent bytes that are no lines\n",
        _ => "the server is on no connection\n",
    }
}

/// Why a connection was broken off, as a line.
fn cause(fault: LoopFault) -> &'static str
    ensures { result.now ≡ cause_of fault }
{
    match fault {
        LoopFault::Client(PumpFault::Core(why)) => client_cause(why),
        LoopFault::Server(PumpFault::Core(why)) => server_cause(why),
        LoopFault::Client(PumpFault::ReadFailed) | LoopFault::Server(PumpFault::ReadFailed) => {
            "the connection could not be read\n"
        }
        LoopFault::Client(PumpFault::WriteFailed) | LoopFault::Server(PumpFault::WriteFailed) => {
            "the connection could not be written\n"
        }
        LoopFault::Client(PumpFault::Ended) => "the server has left the connection\n",
        LoopFault::Server(PumpFault::Ended) => "the client has left the connection\n",
        LoopFault::Client(PumpFault::TurnsSpent) | LoopFault::Server(PumpFault::TurnsSpent) => {
            "too many steps were made\n"
        }
        LoopFault::Client(PumpFault::Memory) | LoopFault::Server(PumpFault::Memory) => "",
    }
}

/// What is shown for a connection that was broken off: running out of memory as such, all else as a connection that failed, with its cause
/// as a second line if more is asked for.
pub fn shown_break(fault: LoopFault, is_told: bool) -> OrderFault
    ensures shown { IsBreakShown fault is_told result }
    ensures status { status_of result ≡ break_status fault }
{
    match fault {
        LoopFault::Client(PumpFault::Memory) | LoopFault::Server(PumpFault::Memory) => {
            OrderFault::Memory
        }
        _ => OrderFault::ConnectionFailed(if is_told { cause(fault) } else { "" }),
    }
}

impl ConnectionEnd {
    /// Whether it was broken off for a line that the client did not expect.
    pub fn is_for_a_line(&self) -> bool
        ensures { result ≡ is_for_a_line self.now.broken }
    {
        matches!(
            self.broken,
            Some(LoopFault::Client(PumpFault::Core(ClientFault::Faulted(_))))
        )
    }

    /// Whether the run was halted, and its connection not broken off: the server may still end the last command.
    pub fn is_open(&self) -> bool
        ensures { result ≡ is_open self.now.state self.now.broken }
    {
        match (self.state, self.broken) {
            (State::Halted, None) => true,
            _ => false,
        }
    }

    /// The exit status of an order whose connection was not broken off, by its client's last state; else what is shown for the break.
    pub fn verdict(self, is_told: bool) -> Result<u8, OrderFault>
        ensures can { IsOk result ↔ (self.broken ≡ None) }
        ensures status { IfOk result (λ status. status ≡ status_of_state self.state) }
        ensures shown { IfErr result (λ shown. IfSome self.broken
            (λ fault. IsBreakShown fault is_told shown)) }
        ensures broken { IfErr result (λ shown. IfSome self.broken
            (λ fault. status_of shown ≡ break_status fault)) }
    {
        match self.broken {
            Some(fault) => Err(shown_break(fault, is_told)),
            None => Ok(status(self.state)),
        }
    }
}
