// The lines of a connection on standard error, as its sides write them.

ghost use Rattle.std.specs.Prelude.{◌≡◌};

use byte_ports::{Failed, Sink, Writing};
use session_telling::{Lines, Side};
use std::net::TcpStream;

/// A sink of what a side writes on connection 1. If asked, each of its lines is shown on standard error once all of it is written. If memory
/// runs out for a line, that is shown in its place, and no more is shown.
#[derive(Drop)]
pub struct TracingPort<'a> {
    rt: HostRuntime,
    sink: Writing<&'a TcpStream>,
    side: Side,
    mark: &'static str,
    lines: Lines,
}

impl<'a> TracingPort<'a> {
    /// A side's lines are shown after its mark.
    pub fn new(
        rt: HostRuntime,
        stream: &'a TcpStream,
        side: Side,
        mark: &'static str,
        is_on: bool,
    ) -> Self {
        let mut lines = Lines::new(rt.alloc(), is_on);
        lines.begin(1);
        TracingPort {
            rt,
            sink: Writing::new(stream),
            side,
            mark,
            lines,
        }
    }

    /// Shows what has come to its end in these bytes.
    fn show(&mut self, bytes: &[u8])
        ensures { self.new.sink ≡ self.old.sink }
    {
        let went = self.lines.went(self.side, bytes);
        let lines = self.lines.take();
        let _ = eprint!(self.rt; "{lines}");
        if went.is_err() {
            let mark = self.mark;
            let _ = eprintln!(self.rt; "1 {mark} out of memory");
            self.lines.stop();
        }
    }
}

impl<'a> Sink for TracingPort<'a> {
    ghost taken = { λ s. ⟦<Writing<&'a TcpStream> as Sink>⟧.taken s.sink };

    ghost has_failed = { λ s. ⟦<Writing<&'a TcpStream> as Sink>⟧.has_failed s.sink };

    fn push(&mut self, bytes: &[u8]) -> Result<usize, Failed> {
        let count = self.sink.push(bytes)?;
        self.show(&bytes[..count]);
        Ok(count)
    }
}
