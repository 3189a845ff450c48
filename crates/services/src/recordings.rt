// The files that the bytes of a connection are kept in.

ghost use Rattle.std.specs.Prelude.{◌≡◌, ◌-◌, nat_lt};
ghost use Rattle.services.specs.Files as spec;

use effects::Slot;
use std::alloc::{AllocError, Global};

/// Which files of a recording were made, in this order, and not removed; or were forced, once its connection ends.
#[derive(Clone, Copy, Debug, PartialEq, Eq)]
pub enum Made {
    Nothing,
    Up,
    UpAndDown,
    All,
}

impl Made {
    /// One more.
    pub fn more(self) -> Made {
        match self {
            Made::Nothing => Made::Up,
            Made::Up => Made::UpAndDown,
            Made::UpAndDown | Made::All => Made::All,
        }
    }

    /// One less, if there is one.
    pub fn fewer(self) -> Made
        ensures { spec.count_of result ≡ spec.count_of self - 1 }
    {
        match self {
            Made::Nothing | Made::Up => Made::Nothing,
            Made::UpAndDown => Made::Up,
            Made::All => Made::UpAndDown,
        }
    }

    /// Whether there is one.
    pub fn is_any(self) -> bool
        ensures { result ≡ nat_lt 0 (spec.count_of self) }
    {
        self != Made::Nothing
    }
}

/// The files of a recording: their names, and which of them were made.
#[derive(Drop)]
pub struct Recording {
    up: String,
    down: String,
    order: String,
    pub made: Made,
}

impl Recording {
    /// That of the connection of this number in a folder, of which nothing was made. Fails only if out of memory.
    pub fn new(alloc: Global, folder: &str, number: u64) -> Result<Recording, AllocError> {
        Ok(Recording {
            up: format!(in alloc; "{folder}/{number}.up")?,
            down: format!(in alloc; "{folder}/{number}.down")?,
            order: format!(in alloc; "{folder}/{number}.order")?,
            made: Made::Nothing,
        })
    }

    /// The name of a file of it.
    pub fn name(&self, slot: Slot) -> &str {
        match slot {
            Slot::Up => self.up.as_str(),
            Slot::Down => self.down.as_str(),
            Slot::Order => self.order.as_str(),
        }
    }
}

/// That of a connection, if a folder is named.
pub fn recording_in(
    alloc: Global,
    folder: Option<&str>,
    number: u64,
) -> Result<Option<Recording>, AllocError> {
    match folder {
        Some(folder) => Ok(Some(Recording::new(alloc, folder, number)?)),
        None => Ok(None),
    }
}

/// The file that is made after these of a recording.
pub fn slot_after(made: Made) -> Slot {
    match made {
        Made::Nothing => Slot::Up,
        Made::Up => Slot::Down,
        Made::UpAndDown | Made::All => Slot::Order,
    }
}

/// Whether a name is that of a recording: a number, and `.up`, `.down` or `.order`.
fn is_recording(name: &[u8]) -> bool {
    let up_or_down = name.strip_suffix(b".up").or(name.strip_suffix(b".down"));
    match up_or_down.or(name.strip_suffix(b".order")) {
        Some(number) => !number.is_empty() && number.iter().all(|byte| byte.is_ascii_digit()),
        None => false,
    }
}

/// Whether a recording is among these names, each with a `/` after it.
pub fn hold_recording(names: &[u8]) -> bool {
    names.split(|byte| *byte == b'/').any(is_recording)
}
