// How long a session waits for its peer.

ghost use Rattle.std.specs.Prelude.{◌≡◌, ◌-◌, Some, None, false};
ghost use Rattle.session_telling.specs.Waiting as spec;

use crate::arriving::line_came;
use std::alloc::{AllocError, Global};

/// What a peer has not done within the time limit.
#[derive(Clone, Copy, Debug, PartialEq, Eq)]
pub enum Lapse {
    /// It has sent nothing.
    Sent,
    /// It has sent something, and not what was due.
    SentOther,
    /// It has taken nothing.
    Taken,
}

/// The time limit, and how long the present wait has lasted.
#[derive(Clone, Copy, Debug)]
pub struct Wait {
    /// How many seconds the peer may be silent, if that is limited.
    pub limit: Option<u32>,
    /// When the present wait has begun, in milliseconds.
    since: Option<u64>,
    /// Whether anything has come in it.
    has_come: bool,
    /// What has come of a line, as far as it matters to the time.
    seen: u8,
}

impl Wait {
    /// A connection begins.
    pub fn new(limit: Option<u32>) -> Wait
        ensures { result ≡ record { limit = limit; since = None; has_come = false; seen = 0 } }
    {
        Wait {
            limit,
            since: None,
            has_come: false,
            seen: 0,
        }
    }

    /// What the peer has not done, if its time is over at this moment, in milliseconds. The first moment begins the wait.
    pub fn lapse(&mut self, now: u64) -> Option<Lapse>
        ensures lapsed { result ≡ spec.lapsed self.old.limit
            (now - spec.since self.old.since now) self.old.has_come }
        ensures begun { self.new
            ≡ record self.old { since = Some (spec.since self.old.since now) } }
    {
        let since = match self.since {
            Some(since) => since,
            None => now,
        };
        self.since = Some(since);
        let Some(seconds) = self.limit else {
            return None;
        };
        if now.saturating_sub(since) / 1000 < u64::from(seconds) {
            return None;
        }
        Some(if self.has_come {
            Lapse::SentOther
        } else {
            Lapse::Sent
        })
    }

    /// Bytes have come: a line that was waited for, and ends in them, begins the time anew.
    pub fn came(&mut self, bytes: &[u8])
        ensures { self.new ≡ spec.came self.old bytes.now }
    {
        let (seen, is_asked) = line_came(self.seen, bytes);
        self.seen = seen;
        self.has_come = !is_asked;
        if is_asked {
            self.since = None;
        }
    }
}

/// What the peer of this name has not done, as a line. Fails only if out of memory.
pub fn lapse_line(
    alloc: Global,
    lapse: Lapse,
    peer: &str,
    seconds: u32,
) -> Result<String, AllocError> {
    let unit = if seconds == 1 { "second" } else { "seconds" };
    match lapse {
        Lapse::Sent => format!(in alloc; "nothing came from the {peer} for {seconds} {unit}\n"),
        Lapse::SentOther => format!(in alloc;
            "nothing that was due came from the {peer} for {seconds} {unit}\n"
        ),
        Lapse::Taken => format!(in alloc; "the {peer} took nothing for {seconds} {unit}\n"),
    }
}
