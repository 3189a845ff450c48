// The numbers of answers.

ghost use Rattle.std.specs.Prelude.{◌≡◌, Some};
ghost use Rattle.dme_c.specs.Codes.{client_fault, call_answer, read_answer, not_made_number, state_number};

use client_core::{Cause, ClientFault, State};

/// Why no client is made of texts.
#[derive(Drop)]
pub(crate) enum NotMade {
    Memory,
    BadSetup,
    BadProgram,
    BadFeatures,
    BadWindow,
    NotOurs,
}

/// The number of the reason why no client is made.
pub(crate) fn refusal_number(why: NotMade) -> u32
    ensures { result ≡ not_made_number why }
{
    match why {
        NotMade::Memory => 3,
        NotMade::BadSetup => 4,
        NotMade::BadProgram => 5,
        NotMade::BadFeatures => 6,
        NotMade::BadWindow => 7,
        NotMade::NotOurs => 8,
    }
}

fn fault_number(fault: ClientFault) -> u32
    ensures { client_fault result ≡ Some fault }
{
    match fault {
        ClientFault::NotNow => 2,
        ClientFault::Memory => 3,
        ClientFault::Faulted(Cause::NotResponse) => 16,
        ClientFault::Faulted(Cause::LineTooLong) => 17,
        ClientFault::Faulted(Cause::BadByte) => 18,
        ClientFault::Faulted(Cause::UnknownTag) => 19,
        ClientFault::Faulted(Cause::OutOfOrder) => 20,
        ClientFault::Faulted(Cause::NoData) => 21,
        ClientFault::Faulted(Cause::SecondData) => 22,
        ClientFault::Faulted(Cause::TagsSpent) => 23,
    }
}

pub(crate) fn call_number(answer: Result<(), ClientFault>) -> u32
    ensures { call_answer result ≡ Some answer }
{
    match answer {
        Ok(()) => 0,
        Err(fault) => fault_number(fault),
    }
}

pub(crate) fn read_number(answer: Result<bool, ClientFault>) -> u32
    ensures { read_answer result ≡ Some answer }
{
    match answer {
        Ok(true) => 0,
        Ok(false) => 1,
        Err(fault) => fault_number(fault),
    }
}

pub(crate) fn number_of_state(state: State) -> u32
    ensures { result ≡ state_number state }
{
    match state {
        State::Apart => 0,
        State::Running => 1,
        State::Failing => 2,
        State::Aborting => 3,
        State::Halted => 4,
        State::Done => 5,
        State::Faulted => 6,
    }
}
