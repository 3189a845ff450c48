// The text of a machine's file.

ghost use Rattle.std.specs.Prelude.{◌≡◌, OnOk, IfErr, Ok};
ghost use Rattle.tool_rack.specs.MachineEntries.{given_on};
ghost use Rattle.tool_rack.specs.Machines.{GivesMachine, IsDue, has_option, judged, machine_of};

use crate::machine_entries::{Entry, entry_on};
use crate::machine_faults::MachineFault;
use dmis_text::cut_line;
use std::alloc::Global;
use std::marker::Model;

/// The options of a run that a machine's file gives (this profile). Contracts see the options, each with its word, in the order of the
/// lines.
#[derive(Debug, Drop)]
pub struct Machine {
    entries: Vec<Entry>,
}

impl Model for Machine {
    ghost use Rattle.std.specs.Prelude.{List};
    ghost use Rattle.tool_rack.specs.MachineEntries.{Given};

    ghost Value = { List Given };

    ghost view = { λ m. m.entries.items };
}

fn has_option(entries: &[Entry], option: &str) -> bool
    ensures { result ≡ has_option entries.now option.now }
{
    entries
        .iter()
        .any(|entry| entry.option.as_bytes() == option.as_bytes())
}

impl Machine {
    /// Adds what the line of this number says below those above it.
    fn add_line(&mut self, alloc: Global, number: u64, line: &[u8]) -> Result<(), MachineFault>
        ensures ok { OnOk result (judged number self.old (given_on number line.now) ≡ Ok self.new) }
        ensures refused { IfErr result (IsDue (judged number self.old (given_on number line.now))) }
    {
        let Some(entry) = entry_on(alloc, number, line)? else {
            return Ok(());
        };
        if has_option(self.entries.as_slice(), entry.option) {
            return Err(MachineFault::Twice(number));
        }
        self.entries.push(entry)?;
        Ok(())
    }

    /// Reads the text of a machine's file. Its lines end with LF or CR LF, the last may lack its end. Empty lines and lines that begin
    /// with `#` say nothing; each other is `SETUP file`, `HOST h`, `PORT n`, `TIMEOUT s`, `WAIT s`, `WINDOW w`, `RECORDS folder` or `SEALKEY
    /// file`: its word in any case, then one or more spaces, then the value up to the end of the line, in UTF-8. What a value may be is judged where
    /// the command line is.
    ///
    /// The first line that is refused is answered with its number: `BadLine` if it is not of this form or has a space at its start or
    /// end, `Twice` if a line above has its word.
    #[tactic(auto, unfolding(crate::specs::Machines::machine_of))]
    pub fn read(alloc: Global, bytes: &[u8]) -> Result<Machine, MachineFault>
        ensures { GivesMachine result (machine_of bytes.now) }
    {
        let mut machine = Machine {
            entries: Vec::new(alloc),
        };
        let mut number = 0;
        let mut rest = bytes;
        while let Some((line, after)) = cut_line(rest) {
            number += 1;
            machine.add_line(alloc, number, line)?;
            rest = after;
        }
        Ok(machine)
    }

    /// What it gives, in the order of the lines.
    pub(crate) fn entries(&self) -> &[Entry]
        ensures { result.now ≡ self.now }
    {
        self.entries.as_slice()
    }
}
