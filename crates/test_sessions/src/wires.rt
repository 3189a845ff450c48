// A connection in memory, between a client and a server.

use std::alloc::Global;

/// A connection, or the port that is called.
#[derive(Drop)]
pub(crate) struct Wire {
    /// To the server, and to the client.
    pub(crate) up: Pipe,
    pub(crate) down: Pipe,
    pub(crate) is_listened: bool,
    pub(crate) is_called: bool,
    pub(crate) is_taken: bool,
}

/// One direction of it.
#[derive(Drop)]
pub(crate) struct Pipe {
    pub(crate) bytes: Vec<u8>,
    /// Whether nothing more comes, and whether its reader knows.
    pub(crate) is_ended: bool,
    pub(crate) is_told: bool,
    /// Whether nobody reads any more.
    pub(crate) is_deaf: bool,
}

impl Pipe {
    pub(crate) fn new(alloc: Global) -> Pipe {
        Pipe {
            bytes: Vec::new(alloc),
            is_ended: false,
            is_told: false,
            is_deaf: false,
        }
    }

    /// Whether its reader has something to hear.
    pub(crate) fn is_due(&self) -> bool {
        !self.bytes.is_empty() || self.is_ended && !self.is_told
    }
}

impl Wire {
    pub(crate) fn new(alloc: Global) -> Wire {
        Wire {
            up: Pipe::new(alloc),
            down: Pipe::new(alloc),
            is_listened: false,
            is_called: false,
            is_taken: false,
        }
    }

    /// The client leaves it.
    pub(crate) fn leave_client(&mut self) {
        self.up.is_ended = true;
        self.down.is_deaf = true;
    }

    pub(crate) fn leave_server(&mut self) {
        self.down.is_ended = true;
        self.up.is_deaf = true;
        self.is_listened = false;
    }
}
