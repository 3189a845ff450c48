// What a client sends and measures next, for C.

ghost use Rattle.std.specs.Prelude.{◌≡◌, None, IsSome, IfSome, option_map};
ghost use Rattle.protocol_model.specs.Client.{due};
ghost use Rattle.client_core.specs.Tables.{planned_command};
ghost use Rattle.dme_c.specs.Next.{command_normal, command_number, command_place, kind_number, next_feature};
ghost use Rattle.dme_c.specs.ServerCalls.{AreZero};

use crate::handles::ClientHandle;
use client_core::Client;
use dme_line::{Command, Kind};
use fixed_um::{Dir, Point};
use std::alloc::Global;

/// The command that is due, as the number of its kind, with its place in whole micrometres and its normal in whole millionths, zeros if it
/// has none; and the number, from 1, of the first feature that is not complete, 0 if all are.
#[repr(C)]
#[derive(Drop)]
pub struct Next {
    pub command: u32,
    pub feature: u64,
    pub x: i64,
    pub y: i64,
    pub z: i64,
    pub i: i64,
    pub j: i64,
    pub k: i64,
}

/// The number of a kind of command.
pub(crate) fn kind_number(kind: Kind) -> u32
    ensures { result ≡ kind_number kind }
{
    match kind {
        Kind::StartSession => 1,
        Kind::EndSession => 2,
        Kind::ClearAllErrors => 3,
        Kind::IsHomed => 4,
        Kind::Home => 5,
        Kind::OnPtMeasReport => 6,
        Kind::GoTo => 7,
        Kind::PtMeas => 8,
        Kind::ChangeTool => 9,
        Kind::SetCsyTransformation => 10,
        Kind::SetCoordSystem => 11,
        Kind::AbortE => 12,
    }
}

fn command_of(client: &Client) -> u32
    ensures { result ≡ command_number (planned_command (due client.now.client)) }
{
    match client.due() {
        None => 0,
        Some(command) => kind_number(command.kind()),
    }
}

fn target_of(client: &Client) -> (Option<Point>, Option<Dir>)
    ensures place { result.0 ≡ command_place (planned_command (due client.now.client)) }
    ensures normal { result.1 ≡ command_normal (planned_command (due client.now.client)) }
{
    match client.due() {
        Some(Command::GoTo(place)) => (Some(*place), None),
        Some(Command::PtMeas(place, normal)) => (Some(*place), *normal),
        _ => (None, None),
    }
}

/// The number of the first feature that is not complete.
fn feature_of(client: &Client) -> u64
    ensures { result ≡ next_feature client.now.client }
{
    let held = client.features().len();
    if held < client.program().features().len() {
        held as u64 + 1
    } else {
        0
    }
}

/// The components of a direction, in millionths.
pub(crate) fn components(normal: Dir) -> (i64, i64, i64)
    ensures { (result.0 ≡ normal.i) × (result.1 ≡ normal.j) × (result.2 ≡ normal.k) }
{
    (
        i64::from(normal.i),
        i64::from(normal.j),
        i64::from(normal.k),
    )
}

/// What the client sends and measures next. Nothing changes.
#[unsafe(no_mangle)]
pub extern "C" fn dme_client_next(client: &mut ClientHandle, alloc: Global) -> Next
    requires { IsSome client.old.held }
    ensures same { client.new.held ≡ client.old.held }
    ensures command { IfSome client.old.held (λ e.
        result.command ≡ command_number (planned_command (due e.client))) }
    ensures feature { IfSome client.old.held (λ e. result.feature ≡ next_feature e.client) }
    ensures place { IfSome client.old.held (λ e.
        IfSome (command_place (planned_command (due e.client)))
        (λ at. (result.x ≡ at.x) × (result.y ≡ at.y) × (result.z ≡ at.z))) }
    ensures normal { IfSome client.old.held (λ e.
        IfSome (command_normal (planned_command (due e.client)))
        (λ at. (result.i ≡ at.i) × (result.j ≡ at.j) × (result.k ≡ at.k))) }
    ensures no_place { IfSome client.old.held (λ e.
        command_place (planned_command (due e.client)) ≡ None
        → AreZero result.x result.y result.z) }
    ensures no_normal { IfSome client.old.held (λ e.
        command_normal (planned_command (due e.client)) ≡ None
        → AreZero result.i result.j result.k) }
{
    let core = client.take(alloc);
    let command = command_of(&core);
    let feature = feature_of(&core);
    let (place, normal) = target_of(&core);
    let (x, y, z) = match place {
        Some(at) => (at.x.get(), at.y.get(), at.z.get()),
        None => (0, 0, 0),
    };
    let (i, j, k) = match normal {
        Some(at) => components(at),
        None => (0, 0, 0),
    };
    client.put(core);
    Next {
        command,
        feature,
        x,
        y,
        z,
        i,
        j,
        k,
    }
}
