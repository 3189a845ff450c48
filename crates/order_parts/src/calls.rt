// Why a server is not called, or has not answered.

ghost use Rattle.std.specs.Prelude.{◌≡◌, IfOk, string_bytes};
ghost use Rattle.order_parts.specs.Calls.{refused_call_text, unknown_host_text};

use session_telling::visible;
use std::alloc::{AllocError, Global};

/// The line on a connection that was refused, with the host, as it was given, and the port. Fails only if out of memory.
pub fn refused_call(alloc: Global, host: &str, port: u16) -> Result<String, AllocError>
    ensures { IfOk result (λ line. string_bytes line ≡ refused_call_text host.now port) }
{
    let shown = visible(alloc, host.as_bytes())?;
    format!(in alloc; "connection refused by {shown}, port {port}: is the server started?\n")
}

/// The line on a host for which no address is found, with its name as it was given. Fails only if out of memory.
pub fn unknown_host(alloc: Global, host: &str) -> Result<String, AllocError>
    ensures { IfOk result (λ line. string_bytes line ≡ unknown_host_text host.now) }
{
    let shown = visible(alloc, host.as_bytes())?;
    format!(in alloc; "unknown host: {shown}\n")
}
