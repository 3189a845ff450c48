// The orders `ledger`, `judge`, `serve`, `watch` and `run`: their sessions, with hands on files and sockets. Each ends with its exit status,
// or with 70 once no more turns can be counted. A session and its hands are dropped by a call: checked in their place, the drops of all that
// they own would take minutes.

ghost use Rattle.std.specs.Prelude.{◌≡◌, true};
ghost use Rattle.client_core.specs.Clients.{is_window};

use crate::explaining::refused;
use crate::files::Sources;
use dme_hands::RealHands;
use dme_orders::read_setup;
use dme_words::{Run, Service, Watch};
use effects::{Comparison, NamedFiles};
use program_review::InputFiles;
use run_opening::Opening;
use services::{Relay, RelaySession, Service as Values, Session};
use std::alloc::AllocError;
use std::io::IsTerminal;
use tool_rack::Setup;
use watched_ends::{Job, Session as Reading};

/// The status of a session that has not ended.
const ENDLESS: u8 = 70;

/// The order `ledger` or `judge`.
#[inline(never)]
pub fn read_recordings(
    rt: HostRuntime,
    job: Job,
    up: String,
    down: String,
) -> Result<u8, AllocError> {
    let mut session = Reading::new(rt.alloc(), job, up, down)?;
    let mut hands = RealHands::new(rt);
    let status = watched_ends::run(&mut session, &mut hands).unwrap_or(ENDLESS);
    drop(session);
    drop(hands);
    Ok(status)
}

/// The setup of a service; if it is refused, standard error shows why, and this is the exit status.
fn setup_of(rt: HostRuntime, name: String, is_explained: bool) -> Result<Setup, u8> {
    let mut source = Sources::new(rt, is_explained).file(name);
    let read = read_setup(rt.alloc(), &mut source);
    let files = InputFiles {
        setup: source.into_file(),
        ..InputFiles::unnamed(rt.alloc())
    };
    read.map_err(|fault| refused(rt, fault, files, is_explained))
}

/// The exit status, if a file of these that is written is another of them.
fn meeting(rt: HostRuntime, files: NamedFiles) -> Option<u8> {
    let mut comparison = Comparison::new(rt.alloc(), files);
    let mut hands = RealHands::new(rt);
    let compared = effects::comparisons::run(&mut comparison, &mut hands);
    drop(comparison);
    drop(hands);
    compared.err()
}

fn serve_with(rt: HostRuntime, service: Values, setup: Setup) -> Result<u8, AllocError> {
    let mut session = Session::new(rt.alloc(), service, setup)?;
    let mut hands = RealHands::new(rt);
    let status = services::run(&mut session, &mut hands).unwrap_or(ENDLESS);
    drop(session);
    drop(hands);
    Ok(status)
}

/// The order `serve`.
#[inline(never)]
pub fn serve(rt: HostRuntime, order: Service) -> Result<u8, AllocError> {
    let service = Values {
        listen: order.listen,
        port: order.port,
        connections: order.connections,
        contacts: order.contacts,
        progress: order.progress,
        trace: order.trace,
        log: order.log,
        timeout: order.timeout,
        stop: order.stop,
    };
    let files = service.files(rt.alloc(), order.setup.as_str())?;
    if let Some(status) = meeting(rt, files) {
        return Ok(status);
    }
    match setup_of(rt, order.setup, order.explain) {
        Ok(setup) => serve_with(rt, service, setup),
        Err(status) => Ok(status),
    }
}

/// The order `watch`.
#[inline(never)]
pub fn watch(rt: HostRuntime, order: Watch) -> Result<u8, AllocError> {
    let relay = Relay {
        listen: order.listen,
        host: order.host,
        port: order.port,
        told: order.told,
        folder: order.record_bytes,
        connections: order.connections,
        trace: order.trace,
        log: order.log,
        timeout: order.timeout,
    };
    if let Some(status) = meeting(rt, relay.files(rt.alloc())?) {
        return Ok(status);
    }
    let mut session = RelaySession::new(rt.alloc(), relay)?;
    let mut hands = RealHands::new(rt);
    let status = services::run_relay(&mut session, &mut hands).unwrap_or(ENDLESS);
    drop(session);
    drop(hands);
    Ok(status)
}

/// The order `run`.
#[inline(never)]
pub fn run_program(rt: HostRuntime, order: Run) -> u8
    requires { is_window order.window ≡ true }
{
    let on_terminal = rt.stderr().is_terminal();
    let mut opening = Opening::new(rt.alloc(), order, on_terminal);
    let mut hands = RealHands::new(rt);
    let status = run_opening::run(&mut opening, &mut hands).unwrap_or(ENDLESS);
    drop(opening);
    drop(hands);
    status
}
