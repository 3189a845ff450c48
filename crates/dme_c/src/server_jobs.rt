// What a server asks of its machine, for C.

ghost use Rattle.std.specs.Prelude.{◌≡◌, ◌<◌, ◌≤◌, None, IsSome, IfSome, length, take, drop};
ghost use Rattle.protocol_model.specs.Server.{running_job};
ghost use Rattle.dme_c.specs.ServerCalls.{AreZero, job_number, job_place, job_normal, job_tool};

use crate::handles::ServerHandle;
use crate::next::components;
use crate::room::copy_whole;
use fixed_um::{Dir, Point};
use server_core::{Job, Server};
use std::alloc::Global;

/// What runs on the machine, as a number, with its place in machine axes and whole micrometres and its normal in whole millionths; zeros
/// where it has none.
#[repr(C)]
#[derive(Drop)]
pub struct Running {
    pub number: u32,
    pub x: i64,
    pub y: i64,
    pub z: i64,
    pub i: i64,
    pub j: i64,
    pub k: i64,
}

fn number_of(server: &Server) -> u32
    ensures { result ≡ job_number (running_job server.now.end.server) }
{
    match server.running() {
        None => 0,
        Some(Job::Home) => 1,
        Some(Job::Move(_)) => 2,
        Some(Job::Touch(_, _)) => 3,
        Some(Job::Change(_)) => 4,
    }
}

fn target_of(server: &Server) -> (Option<Point>, Option<Dir>)
    ensures place { result.0 ≡ job_place (running_job server.now.end.server) }
    ensures normal { result.1 ≡ job_normal (running_job server.now.end.server) }
{
    match server.running() {
        Some(Job::Move(place)) => (Some(*place), None),
        Some(Job::Touch(place, normal)) => (Some(*place), *normal),
        _ => (None, None),
    }
}

/// What runs on the machine.
#[unsafe(no_mangle)]
pub extern "C" fn dme_server_job(server: &mut ServerHandle, alloc: Global) -> Running
    requires { IsSome server.old.held }
    ensures same { server.new.held ≡ server.old.held }
    ensures number { IfSome server.old.held (λ s.
        result.number ≡ job_number (running_job s.end.server)) }
    ensures place { IfSome server.old.held (λ s. IfSome (job_place (running_job s.end.server))
        (λ at. (result.x ≡ at.x) × (result.y ≡ at.y) × (result.z ≡ at.z))) }
    ensures normal { IfSome server.old.held (λ s. IfSome (job_normal (running_job s.end.server))
        (λ at. (result.i ≡ at.i) × (result.j ≡ at.j) × (result.k ≡ at.k))) }
    ensures no_place { IfSome server.old.held (λ s.
        job_place (running_job s.end.server) ≡ None → AreZero result.x result.y result.z) }
    ensures no_normal { IfSome server.old.held (λ s.
        job_normal (running_job s.end.server) ≡ None → AreZero result.i result.j result.k) }
{
    let core = server.take(alloc);
    let number = number_of(&core);
    let (place, normal) = target_of(&core);
    let (x, y, z) = match place {
        Some(at) => (at.x.get(), at.y.get(), at.z.get()),
        None => (0, 0, 0),
    };
    let (i, j, k) = match normal {
        Some(at) => components(at),
        None => (0, 0, 0),
    };
    server.put(core);
    Running {
        number,
        x,
        y,
        z,
        i,
        j,
        k,
    }
}

/// The name of the tool that is changed to; empty if no tool change runs.
fn tool_of(server: &Server) -> &[u8]
    ensures { result.now ≡ job_tool (running_job server.now.end.server) }
{
    match server.running() {
        Some(Job::Change(name)) => name.as_bytes(),
        _ => &[],
    }
}

/// Copies the name of the tool that is changed to into the room if it fits, and answers its length.
#[unsafe(no_mangle)]
pub extern "C" fn dme_server_tool(
    server: &mut ServerHandle,
    alloc: Global,
    room: &mut [u8],
) -> usize
    requires { IsSome server.old.held }
    ensures same { server.new.held ≡ server.old.held }
    ensures count { IfSome server.old.held (λ s.
        result ≡ length (job_tool (running_job s.end.server))) }
    ensures tool { result ≤ length room.old → IfSome server.old.held (λ s.
        take result room.new ≡ job_tool (running_job s.end.server)) }
    ensures beside { result ≤ length room.old → drop result room.new ≡ drop result room.old }
    ensures long { length room.old < result → room.new ≡ room.old }
{
    let core = server.take(alloc);
    let count = copy_whole(tool_of(&core), room);
    server.put(core);
    count
}
