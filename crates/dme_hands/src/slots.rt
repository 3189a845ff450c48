// Files that are read from their beginning, or written.

ghost use Rattle.std.specs.Prelude.{◌≤◌, length, IfOk};

use effects::Place;
use std::fs::{self, File};
use std::io::{self, Read, StdinLock, Write};

/// A file that is read or written, once it is open. Nothing is read from what is not a file, and nothing is written there.
#[derive(Drop)]
pub enum Open {
    Nothing,
    File(File),
    Input(StdinLock<'static>),
}

impl Open {
    /// One that is read.
    pub fn read_from(rt: &HostRuntime, place: Place<'_>) -> io::Result<Open> {
        Ok(match place {
            Place::Named(name) => Open::File(fs::open(rt, name)?),
            Place::Input => Open::Input(rt.reader()),
            Place::Nothing => Open::Nothing,
        })
    }

    pub fn read(&mut self, room: &mut [u8]) -> io::Result<usize>
        ensures { IfOk result (λ count. count ≤ length room.new) }
    {
        match self {
            Open::File(file) => file.read(room),
            Open::Input(input) => input.read(room),
            Open::Nothing => Ok(0),
        }
    }

    pub fn save(&mut self, bytes: &[u8]) -> io::Result<()> {
        match self {
            Open::File(file) => file.write_all(bytes),
            _ => Ok(()),
        }
    }

    /// All of it is forced to the device.
    pub fn settle(&self) -> io::Result<()> {
        match self {
            Open::File(file) => file.sync_data(),
            _ => Ok(()),
        }
    }
}
