// The lines of connections as they are shown.

use crate::visible;
use std::alloc::{AllocError, Global};

/// The most bytes of a line that are kept until it ends: no line of the interface has more.
const MOST_KEPT: usize = 65_536;

/// Which side of a connection has written.
#[derive(Clone, Copy, Debug, PartialEq, Eq)]
pub enum Side {
    Client,
    Server,
}

/// What is shown of the lines of connections, one connection after the other.
#[derive(Drop)]
pub struct Lines {
    alloc: Global,
    is_shown: bool,
    number: u64,
    client: Vec<u8>,
    server: Vec<u8>,
    /// The lines that ended and were not taken yet, each with its LF.
    ended: String,
}

impl Lines {
    /// Nothing is kept unless lines are shown.
    pub fn new(alloc: Global, is_shown: bool) -> Lines {
        Lines {
            alloc,
            is_shown,
            number: 0,
            client: Vec::new(alloc),
            server: Vec::new(alloc),
            ended: String::new(alloc),
        }
    }

    /// The connection of this number begins.
    pub fn begin(&mut self, number: u64) {
        self.number = number;
        self.client.clear();
        self.server.clear();
    }

    /// No more lines are shown.
    pub fn stop(&mut self) {
        self.is_shown = false;
    }

    /// The lines that ended since they were taken last, each with its LF.
    pub fn take(&mut self) -> String {
        std::mem::replace(&mut self.ended, String::new(self.alloc))
    }

    /// A line of a side has come to its end.
    fn end(&mut self, side: Side) -> Result<(), AllocError> {
        let alloc = self.alloc;
        let line = match side {
            Side::Client => &mut self.client,
            Side::Server => &mut self.server,
        };
        let text = visible(alloc, line.as_slice())?;
        line.clear();
        let mark = match side {
            Side::Client => ">",
            Side::Server => "<",
        };
        let number = self.number;
        let shown = format!(in self.alloc; "{number} {mark} {text}\n")?;
        self.ended.push_str(shown.as_str())
    }

    /// A byte of a side.
    fn keep(&mut self, side: Side, byte: u8) -> Result<(), AllocError> {
        if byte == b'\n' {
            return self.end(side);
        }
        let line = match side {
            Side::Client => &mut self.client,
            Side::Server => &mut self.server,
        };
        if byte == b'\r' || line.len() >= MOST_KEPT {
            return Ok(());
        }
        match line.push(byte) {
            Ok(()) => Ok(()),
            Err(_) => Err(AllocError),
        }
    }

    /// Bytes that a side has written. Fails only if out of memory.
    pub fn went(&mut self, side: Side, bytes: &[u8]) -> Result<(), AllocError> {
        if !self.is_shown {
            return Ok(());
        }
        for byte in bytes {
            self.keep(side, *byte)?;
        }
        Ok(())
    }
}

/// Lines as a log has them, each after the time. Fails only if out of memory.
pub fn stamped(alloc: Global, time: &[u8], lines: &str) -> Result<Vec<u8>, AllocError> {
    let mut text = Vec::new(alloc);
    for line in lines.as_bytes().split_inclusive(|byte| *byte == b'\n') {
        text.extend_from_slice(time)?;
        text.extend_from_slice(b" ")?;
        text.extend_from_slice(line)?;
    }
    Ok(text)
}
