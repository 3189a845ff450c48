// The errors that a server reports on a connection, in memory: what went by on both sides, and the errors that a caller has not taken yet.

ghost use Rattle.std.specs.Prelude.{◌≡◌, ◌≤◌, ◌<◌, [], false, true, drop, take, length, option_map, slice_get, OnOk, IfErr};
ghost use Rattle.dme_c.specs.Hearings.{HearingValue, IsLost, PassesCame, PassesSent, TakesError, joined, kind_about, silence, touch_about};

use crate::next::kind_number;
use crate::room::copy_whole;
use client_core::ClientFault;
use dme_line::Kind;
use session_telling::{Dialogue, Report, Sent};
use std::alloc::Global;
use std::collections::VecDeque;
use std::marker::Model;

/// An error, as a caller takes it: the number of the answer, that of the kind of the command that it is about, how many touches were sent on
/// the connection up to this one, and how many bytes its text has. Zeros for what is not known or there is not.
#[repr(C)]
#[derive(Drop)]
pub struct Heard {
    pub number: u32,
    pub command: u32,
    pub touch: u64,
    pub length: usize,
}

fn kind_about(about: Option<Sent>) -> u32
    ensures { result ≡ kind_about about }
{
    about.map_or(0, |sent| kind_number(sent.kind))
}

fn touch_about(about: Option<Sent>) -> u64
    ensures { result ≡ touch_about about }
{
    about.map_or(0, |sent| match sent.kind {
        Kind::PtMeas => sent.touches,
        _ => 0,
    })
}

/// What follows the connections of a client.
#[derive(Drop)]
pub struct Hearing {
    follows: bool,
    dialogue: Dialogue,
    waiting: VecDeque<Report>,
}

impl Model for Hearing {
    ghost use Rattle.dme_c.specs.Hearings.{HearingValue};

    ghost Value = { HearingValue };

    ghost view = { λ h. record {
      follows = h.follows;
      dialogue = h.dialogue;
      waiting = h.waiting.items;
    } };
}

impl Hearing {
    /// No connection is followed, and no error waits.
    pub(crate) fn new(alloc: Global) -> Hearing
        ensures { result ≡ record { follows = false; dialogue = silence; waiting = [] } }
    {
        Hearing {
            follows: false,
            dialogue: Dialogue::new(alloc),
            waiting: VecDeque::new(alloc),
        }
    }

    /// Follows a new connection.
    pub(crate) fn connect(&mut self, alloc: Global)
        ensures { self.new ≡ joined self.old }
    {
        self.follows = true;
        self.dialogue = Dialogue::new(alloc);
    }

    /// Bytes of the client went by.
    pub(crate) fn send(&mut self, alloc: Global, bytes: &[u8]) -> Result<(), ClientFault>
        ensures ok { OnOk result (PassesSent bytes.now self.old self.new) }
        ensures can { OnOk result (self.old.follows ≡ true) }
        ensures refused { IfErr result (IsLost self.old self.new) }
    {
        if !self.follows {
            return Err(ClientFault::NotNow);
        }
        self.follows = false;
        self.dialogue.send(alloc, bytes)?;
        self.follows = true;
        Ok(())
    }

    /// Bytes of the server went by.
    pub(crate) fn hear(&mut self, alloc: Global, bytes: &[u8]) -> Result<(), ClientFault>
        ensures ok { OnOk result (PassesCame bytes.now self.old self.new) }
        ensures can { OnOk result (self.old.follows ≡ true) }
        ensures refused { IfErr result (IsLost self.old self.new) }
    {
        if !self.follows {
            return Err(ClientFault::NotNow);
        }
        self.follows = false;
        let mut heard = VecDeque::from_vec(self.dialogue.hear(alloc, bytes)?);
        self.waiting.append(&mut heard)?;
        self.follows = true;
        Ok(())
    }

    /// Copies the text of the first error into the room if it fits, and the error then waits no more.
    pub(crate) fn take(&mut self, room: &mut [u8]) -> Heard
        ensures { TakesError room.old room.new self.old self.new result }
    {
        let Some(report) = self.waiting.front() else {
            return Heard {
                number: 1,
                command: 0,
                touch: 0,
                length: 0,
            };
        };
        let about = report.about();
        let length = copy_whole(report.text(), room);
        if length <= room.len() {
            self.waiting.pop_front();
        }
        Heard {
            number: 0,
            command: kind_about(about),
            touch: touch_about(about),
            length,
        }
    }
}
