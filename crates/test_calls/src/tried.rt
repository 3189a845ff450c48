// Calls that are made again if memory is short for them.
//
// If a call answers that it is out of memory, all readers of its value must answer as before: then the words `refused, as before; ` come
// before what the row shows, and the call is made again. A row shows `changed` if a reader answers anything else, and
// `refused for ever` if memory is short again.

use crate::shown::push_lines;
use crate::stop::{Pushed, Stop};
use std::alloc::{AllocError, Global};
use std::io::Write;

/// A call of a client, a server or a framing buffer: bytes come, a line is read, or a word with what follows it.
#[derive(Clone, Copy)]
pub(crate) enum Call<'a> {
    Feed(&'a [u8]),
    Read,
    Word(&'a str, &'a str),
}

/// A value whose calls `C` are made again. `F` is why one is refused.
pub(crate) trait Called<C, F> {
    /// Appends what all readers of the value answer.
    fn push_all(&self, out: &mut Vec<u8>) -> Pushed;

    /// Makes a call; false if there was nothing to do.
    fn make(&mut self, call: &C) -> Result<bool, F>;
}

/// Appends that memory was short for a call, and that all readers answer as before.
pub(crate) fn push_refused(out: &mut Vec<u8>, before: &[u8], now: &[u8]) -> Pushed {
    if before != now {
        return Err(Stop::Changed);
    }
    Ok(write!(out, "refused, as before; ")?)
}

/// What came of the calls of a row for which memory was short.
#[derive(Drop)]
pub(crate) struct Tries {
    pub(crate) alloc: Global,
    /// Whether calls are made again.
    is_on: bool,
    told: Vec<u8>,
    stop: Option<Stop>,
}

impl Tries {
    /// Each call is made once unless calls are made again.
    pub(crate) fn new(alloc: Global, is_on: bool) -> Tries {
        Tries {
            alloc,
            is_on,
            told: Vec::new(alloc),
            stop: None,
        }
    }

    /// Each call is made once from now on.
    pub(crate) fn make_once(&mut self) {
        self.is_on = false;
    }

    /// What the call answers; it is made once more if memory is short for it.
    fn again<C, F: PartialEq + Copy, V: Called<C, F>>(
        &mut self,
        value: &mut V,
        memory: F,
        call: &C,
    ) -> Result<Result<bool, F>, Stop> {
        let mut before = Vec::new(self.alloc);
        value.push_all(&mut before)?;
        match value.make(call) {
            Err(fault) if fault == memory => {}
            answer => return Ok(answer),
        }
        let mut now = Vec::new(self.alloc);
        value.push_all(&mut now)?;
        push_refused(&mut self.told, before.as_slice(), now.as_slice())?;
        match value.make(call) {
            Err(fault) if fault == memory => Err(Stop::ForEver),
            answer => Ok(answer),
        }
    }

    /// What a call of a value answers; `memory` says that memory is short. It is `memory` where the row ends (`push`).
    pub(crate) fn call<C, F: PartialEq + Copy, V: Called<C, F>>(
        &mut self,
        value: &mut V,
        memory: F,
        call: &C,
    ) -> Result<bool, F> {
        if !self.is_on {
            return value.make(call);
        }
        match self.again(value, memory, call) {
            Ok(answer) => answer,
            Err(stop) => {
                self.stop = Some(stop);
                Err(memory)
            }
        }
    }

    /// Appends what was reported; an `Err` if a call did not behave as required.
    pub(crate) fn push(&self, out: &mut Vec<u8>) -> Pushed {
        out.extend_from_slice(self.told.as_slice())?;
        match self.stop {
            Some(stop) => Err(stop),
            None => Ok(()),
        }
    }
}

/// Makes a call of a value that must succeed.
pub(crate) fn push_tried<C, F: PartialEq + Copy, V: Called<C, F>>(
    out: &mut Vec<u8>,
    value: &mut V,
    memory: F,
    call: &C,
) -> Pushed {
    let mut tries = Tries::new(*out.allocator(), true);
    let is_made = tries.call(value, memory, call).is_ok();
    tries.push(out)?;
    if is_made { Ok(()) } else { Err(Stop::Row) }
}

/// The contents of a text that is appended to.
const FRONT: &[u8] = b"at ";

/// Appends the lines that a call appends to a text. If memory was short for the call, the text must be as before.
pub(crate) fn push_written<W: FnOnce(&mut Vec<u8>) -> Result<(), AllocError>>(
    out: &mut Vec<u8>,
    write: W,
) -> Pushed
    requires { W.IsAlwaysCallable write }
{
    let mut text = Vec::from_slice(*out.allocator(), FRONT)?;
    let written = write(&mut text);
    match (text.as_slice().strip_prefix(FRONT), written) {
        (Some(appended), Ok(())) => Ok(push_lines(out, appended)?),
        (Some([]), Err(AllocError)) => Err(Stop::Refused),
        _ => Err(Stop::Changed),
    }
}
