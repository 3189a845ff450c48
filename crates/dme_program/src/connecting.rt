// The order `loop`, on files, sockets and the standard streams.

ghost use Rattle.std.specs.Prelude.{◌≡◌, true};
ghost use Rattle.client_core.specs.Clients.{is_window};

use crate::explaining::refused;
use crate::faults::Fault;
use crate::files::Sources;
use crate::progress::Progress;
use crate::tracing::TracingPort;
use byte_ports::{Ports, Reading, Writing};
use dme_orders::{LoopTask, loop_over, setup_and_program};
use dme_words::Loop;
use effects::Cause;
use link_world::LoopPorts;
use order_parts::{ConnectionEnd, FilesFault, OrderFault};
use program_review::InputFiles;
use run_opening::lacking_lines;
use session_telling::{Side, why_unconnected};
use std::io::{self, ErrorKind};
use std::net::{TcpListener, TcpStream};

/// A connection of this process to itself, both ends.
fn own_connection(rt: HostRuntime) -> io::Result<(TcpStream, TcpStream)> {
    let listener = TcpListener::bind(&rt, "127.0.0.1:0")?;
    let near = TcpStream::connect(&rt, listener.local_addr()?)?;
    let (far, _) = listener.accept()?;
    Ok((near, far))
}

/// What is shown for a connection that is not made, with its cause if more is asked for.
fn no_connection(error: &io::Error, is_told: bool) -> OrderFault {
    let cause = match error.kind() {
        ErrorKind::AddrInUse => Cause::InUse,
        ErrorKind::PermissionDenied => Cause::Forbidden,
        _ => Cause::Unknown,
    };
    OrderFault::ConnectionFailed(if is_told { why_unconnected(cause) } else { "" })
}

/// Both ends of a program over this connection, and their report on standard output. (The connection is made
/// elsewhere, since the ports of both ends have one lifetime.)
fn loop_ends(
    rt: HostRuntime,
    near: &TcpStream,
    far: &TcpStream,
    task: LoopTask,
    is_told: bool,
    is_traced: bool,
) -> Result<ConnectionEnd, FilesFault>
    requires { is_window task.window ≡ true }
{
    let mut watcher = Progress::new(rt, is_told, task.program.features().len());
    let mut ports = LoopPorts {
        client: Ports {
            source: Reading::new(near),
            sink: TracingPort::new(rt, near, Side::Client, ">", is_traced),
        },
        server: Ports {
            source: Reading::new(far),
            sink: TracingPort::new(rt, far, Side::Server, "<", is_traced),
        },
    };
    let mut sink = Writing::new(io::writer(&rt));
    loop_over(rt.alloc(), task, &mut ports, &mut watcher, &mut sink)
}

/// Both ends of a program over a connection of this process to itself.
fn loop_task(
    rt: HostRuntime,
    task: LoopTask,
    is_told: bool,
    is_traced: bool,
) -> Result<u8, OrderFault>
    requires { is_window task.window ≡ true }
{
    let (near, far) = own_connection(rt).map_err(|error| no_connection(&error, is_told))?;
    match loop_ends(rt, &near, &far, task, is_told, is_traced) {
        Ok(ended) => ended.verdict(is_told),
        Err(fault) => Ok(refused(rt, fault, InputFiles::unnamed(rt.alloc()), false)),
    }
}

/// The order `loop`: its exit status.
#[inline(never)]
pub fn loop_program(rt: HostRuntime, order: Loop) -> Result<u8, Fault>
    requires { is_window order.window ≡ true }
{
    let mut sources = Sources::new(rt, true);
    let mut setup = sources.file(order.setup);
    let mut program = sources.file(order.program);
    let read = setup_and_program(rt.alloc(), &mut setup, &mut program);
    let files = InputFiles {
        setup: setup.into_file(),
        program: program.into_file(),
        ..InputFiles::unnamed(rt.alloc())
    };
    let (setup, program) = match read {
        Ok(read) => read,
        Err(fault) => return Ok(refused(rt, fault, files, order.explain)),
    };
    let statements = program_review::read(rt.alloc(), files.program.text.as_slice())?;
    let lacking = lacking_lines(rt.alloc(), &statements, &setup, files.setup.name.as_str())?;
    let _ = eprint!(rt; "{lacking}");
    let task = LoopTask {
        setup,
        program,
        window: order.window,
    };
    Ok(loop_task(rt, task, order.progress, order.trace)?)
}
