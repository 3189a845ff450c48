// The undisturbed run of a program of many touches, on the simulated machine.

use crate::client::{new_program, points};
use crate::values::Stop;
use link_world::{NewFault, Quiet, Simulated, quiet_run};
use std::alloc::Global;
use tool_rack::Setup;

const SETUP: &[u8] = b"TOOL P1\nSHIFT 0.002 0 0\nSHIFT 0 0 0.004\n";

fn ran(alloc: Global, touches: u64, window: u8) -> Result<Quiet, Stop> {
    let setup = Setup::read(alloc, SETUP).ok().ok_or(Stop::Refused)?;
    let mut machine = Simulated::new(alloc, &setup)?;
    let program = new_program(alloc, touches)?;
    match quiet_run(alloc, program, setup, window, &mut machine) {
        Ok(quiet) => Ok(quiet),
        Err(NewFault::BadWindow(_program, _setup)) => Err(Stop::Refused),
        Err(NewFault::Memory) => Err(Stop::Memory),
    }
}

/// The count of points, how many turns were made, and the sum over all points.
pub(crate) fn counts(alloc: Global, touches: u64, window: u8) -> Result<(u64, usize, u64), Stop> {
    let quiet = ran(alloc, touches, window)?;
    let (count, sum) = points(quiet.features.list(), 0);
    Ok((count, quiet.turns, sum))
}
