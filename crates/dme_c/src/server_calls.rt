// The calls of a server, for C.

ghost use Rattle.std.specs.Prelude.{◌≡◌, ◌≢◌, ◌⊎◌, ◌≤◌, unsigned_abs, None, Some, Ok, IsOk, IsSome, IfSome, option_map};
ghost use Rattle.fixed_um.specs.Limits.{wire_limit};
ghost use Rattle.protocol_model.specs.Ends.{serving_left};
ghost use Rattle.protocol_model.specs.declared.machine.Outcome.TheVariants as outcome;
ghost use Rattle.server_core.specs.Serving.{new_serving, with_end};
ghost use Rattle.tool_rack.specs.Setups.{setup_of};
ghost use Rattle.dme_c.specs.Calls.{Called};
ghost use Rattle.dme_c.specs.Making.{AnswersJust, IsBadSetup};
ghost use Rattle.dme_c.specs.ServerCalls.{Accepts, Ends, Feeds, Reads, Takes, Turns, line_served, served, server_fault};

use crate::codes::refusal_number;
use crate::handles::ServerHandle;
use crate::room::copy_front;
use crate::texts::setup_read;
use fixed_um::{Point, Um};
use line_framing::FramingFault;
use server_core::{Outcome, Server, ServerFault};
use std::alloc::Global;

fn fault_number(fault: ServerFault) -> u32
    ensures { server_fault result ≡ Some fault }
{
    match fault {
        ServerFault::NotNow => 2,
        ServerFault::Memory => 3,
        ServerFault::Framing(FramingFault::LineTooLong) => 17,
        ServerFault::Framing(FramingFault::BadByte) => 18,
        ServerFault::NothingRuns => 24,
        ServerFault::WrongOutcome => 25,
        ServerFault::OutOfVolume => 26,
    }
}

fn call_number(answer: Result<(), ServerFault>) -> u32
    ensures { served result ≡ Some answer }
{
    match answer {
        Ok(()) => 0,
        Err(fault) => fault_number(fault),
    }
}

fn read_number(answer: Result<bool, ServerFault>) -> u32
    ensures { line_served result ≡ Some answer }
{
    match answer {
        Ok(true) => 0,
        Ok(false) => 1,
        Err(fault) => fault_number(fault),
    }
}

/// Makes a server of the text of a setup. If it answers a number other than 0, none is held.
#[unsafe(no_mangle)]
pub extern "C" fn dme_server_new(server: &mut ServerHandle, alloc: Global, setup: &[u8]) -> u32
    requires { server.old.held ≡ None }
    ensures made { result ≡ 0 → IsSome server.new.held }
    ensures refused { result ≢ 0 → server.new.held ≡ None }
    ensures setup { IfSome server.new.held (λ made. setup_of setup.now ≡ Ok made.setup) }
    ensures fresh { IfSome server.new.held (λ made. made ≡ new_serving made.setup) }
    ensures bad_setup { AnswersJust result 4 (IsBadSetup setup.now) }
    ensures can { AnswersJust result 0 (IsOk (setup_of setup.now)) }
    ensures number { (result ≡ 0) ⊎ ((result ≡ 3) ⊎ (result ≡ 4)) }
{
    let setup = match setup_read(alloc, setup) {
        Ok(setup) => setup,
        Err(why) => return refusal_number(why),
    };
    let Ok(core) = Server::new(alloc, setup) else {
        return 3;
    };
    match Box::new(alloc, core) {
        Ok(core) => server.put(core),
        Err(_) => return 3,
    }
    0
}

/// Drops the server, with all that it holds.
#[unsafe(no_mangle)]
pub extern "C" fn dme_server_free(server: &mut ServerHandle, alloc: Global)
    requires { IsSome server.old.held }
    ensures { server.new.held ≡ None }
{
    let _given_up = server.take(alloc);
}

/// Comes to the connection of this number.
#[tactic(auto, using(crate::proofs::Calls::called_lent))]
#[unsafe(no_mangle)]
pub extern "C" fn dme_server_accept(server: &mut ServerHandle, alloc: Global, number: u64) -> u32
    requires { IsSome server.old.held }
    ensures { Called server.old.held server.new.held (served result) (Accepts number) }
{
    let mut core = server.take(alloc);
    let answer = core.accept(number);
    server.put(core);
    call_number(answer)
}

/// Takes bytes of the connection.
#[tactic(auto, using(crate::proofs::Calls::called_lent))]
#[unsafe(no_mangle)]
pub extern "C" fn dme_server_feed(server: &mut ServerHandle, alloc: Global, piece: &[u8]) -> u32
    requires { IsSome server.old.held }
    ensures { Called server.old.held server.new.held (served result) (Feeds piece.now) }
{
    let mut core = server.take(alloc);
    let answer = core.feed(piece);
    server.put(core);
    call_number(answer)
}

/// Reads the first whole line, if there is one, and answers it.
#[tactic(auto, using(crate::proofs::Calls::called_lent))]
#[unsafe(no_mangle)]
pub extern "C" fn dme_server_read(server: &mut ServerHandle, alloc: Global) -> u32
    requires { IsSome server.old.held }
    ensures { Called server.old.held server.new.held (line_served result) Reads }
{
    let mut core = server.take(alloc);
    let answer = core.read_one();
    server.put(core);
    read_number(answer)
}

/// Processes the first waiting command.
#[tactic(auto, using(crate::proofs::Calls::called_lent))]
#[unsafe(no_mangle)]
pub extern "C" fn dme_server_turn(server: &mut ServerHandle, alloc: Global) -> u32
    requires { IsSome server.old.held }
    ensures { Called server.old.held server.new.held (served result) Turns }
{
    let mut core = server.take(alloc);
    let answer = core.turn();
    server.put(core);
    call_number(answer)
}

#[tactic(auto, using(crate::proofs::Calls::called_lent))]
fn ended(server: &mut ServerHandle, alloc: Global, outcome: Outcome) -> u32
    requires { IsSome server.old.held }
    ensures { Called server.old.held server.new.held (served result) (Ends outcome) }
{
    let mut core = server.take(alloc);
    let answer = core.machine(outcome);
    server.put(core);
    call_number(answer)
}

/// What runs, which is not a touch, is done.
#[unsafe(no_mangle)]
pub extern "C" fn dme_server_done(server: &mut ServerHandle, alloc: Global) -> u32
    requires { IsSome server.old.held }
    ensures { Called server.old.held server.new.held (served result) (Ends outcome.Done) }
{
    ended(server, alloc, Outcome::Done)
}

/// The touch that runs met no surface.
#[unsafe(no_mangle)]
pub extern "C" fn dme_server_missed(server: &mut ServerHandle, alloc: Global) -> u32
    requires { IsSome server.old.held }
    ensures { Called server.old.held server.new.held (served result) (Ends outcome.Missed) }
{
    ended(server, alloc, Outcome::Missed)
}

/// The machine stopped.
#[unsafe(no_mangle)]
pub extern "C" fn dme_server_stopped(server: &mut ServerHandle, alloc: Global) -> u32
    requires { IsSome server.old.held }
    ensures { Called server.old.held server.new.held (served result) (Ends outcome.Fault) }
{
    ended(server, alloc, Outcome::Fault)
}

/// The place of these lengths. Requires that each is within the wire limit.
fn place(x: i64, y: i64, z: i64) -> Point
    requires x { unsigned_abs x ≤ wire_limit }
    requires y { unsigned_abs y ≤ wire_limit }
    requires z { unsigned_abs z ≤ wire_limit }
    ensures x { result.x ≡ x }
    ensures y { result.y ≡ y }
    ensures z { result.z ≡ z }
{
    match (Um::new(x), Um::new(y), Um::new(z)) {
        (Some(x), Some(y), Some(z)) => Point { x, y, z },
        _ => unreachable!(),
    }
}

/// The touch that runs met a surface here, in machine axes and whole micrometres.
#[unsafe(no_mangle)]
pub extern "C" fn dme_server_touched(
    server: &mut ServerHandle,
    alloc: Global,
    x: i64,
    y: i64,
    z: i64,
) -> u32
    requires held { IsSome server.old.held }
    requires x { unsigned_abs x ≤ wire_limit }
    requires y { unsigned_abs y ≤ wire_limit }
    requires z { unsigned_abs z ≤ wire_limit }
    ensures { Called server.old.held server.new.held (served result)
        (Ends (outcome.Touched (record { x = x; y = y; z = z }))) }
{
    ended(server, alloc, Outcome::Touched(place(x, y, z)))
}

/// Copies a prefix of what is to be sent into the room, as much as fits. It then counts as sent. Answers how many bytes.
#[tactic(auto, using(crate::proofs::Calls::called))]
#[unsafe(no_mangle)]
pub extern "C" fn dme_server_take(
    server: &mut ServerHandle,
    alloc: Global,
    room: &mut [u8],
) -> usize
    requires { IsSome server.old.held }
    ensures { Called server.old.held server.new.held (Some result)
        (λ old new count. Takes room.old room.new count old new) }
{
    let mut core = server.take(alloc);
    let count = copy_front(core.out(), room);
    core.sent(count);
    server.put(core);
    count
}

/// Leaves the connection.
#[unsafe(no_mangle)]
pub extern "C" fn dme_server_leave(server: &mut ServerHandle, alloc: Global)
    requires { IsSome server.old.held }
    ensures { server.new.held
        ≡ option_map (λ old. with_end old (serving_left old.end)) server.old.held }
{
    let mut core = server.take(alloc);
    core.leave();
    server.put(core);
}
