// The contacts that runs of features may be made of.

ghost use Rattle.std.specs.Prelude.{◌≡◌, ◌++◌, true, None, OnOk, IfOk};
ghost use Rattle.witness.specs.ToldNames.{is_joined, second_after, open_after, pushed, part_of, AreRunContacts};

use crate::Reported;
use crate::doubts::ends_runs;
use crate::told_ledger::ToldLedger;
use contact_ledger::{Act, ServerLedger};
use std::alloc::{AllocError, Global};

/// Whether a contact on a connection is next to the one before it, by the connection on which the next one would be so.
fn is_joined(open_on: Option<u64>, connection: u64) -> bool
    ensures { result ≡ is_joined open_on connection }
{
    matches!(open_on, Some(open) if connection == open)
}

/// The contacts so far, whether the number of the last one is the second of the two, and the connection on which the next one is next to it.
#[derive(Drop)]
struct Numbering {
    ledger: ServerLedger,
    second: bool,
    open_on: Option<u64>,
}

impl Numbering {
    fn add(&mut self, alloc: Global, connection: u64, told: &Reported) -> Result<(), AllocError>
        ensures ledger { OnOk result (self.new.ledger ≡ self.old.ledger
            ++ pushed self.old.second self.old.open_on connection (part_of told.now)) }
        ensures second { OnOk result (self.new.second
            ≡ second_after self.old.second self.old.open_on connection (part_of told.now)) }
        ensures open { OnOk result (self.new.open_on
            ≡ open_after self.old.open_on connection (part_of told.now)) }
    {
        match told {
            Reported::Did(
                Act::Contact {
                    target,
                    dir,
                    tool,
                    frame,
                    point,
                },
            ) => {
                let joined = is_joined(self.open_on, connection);
                let second = if joined { self.second } else { !self.second };
                let act = Act::Contact {
                    target: *target,
                    dir: *dir,
                    tool: tool.copy(alloc)?,
                    frame: *frame,
                    point: *point,
                };
                self.ledger.push(if second { 2 } else { 1 }, act)?;
                self.second = second;
                self.open_on = Some(connection);
            }
            Reported::Touched { .. } => self.open_on = None,
            told => {
                if ends_runs(told) && is_joined(self.open_on, connection) {
                    self.open_on = None;
                }
            }
        }
        Ok(())
    }
}

/// The contacts whose tool and frame are known, as a ledger in which two that follow one another have one connection exactly if a run may
/// have both: they are on one connection, no contact lies between them, and on their connection nothing that ends runs (this profile). The
/// connection numbers of this ledger mean nothing else. A contact with a tool or a frame that is not known is left out.
///
/// Fails only if out of memory.
pub fn run_contacts(alloc: Global, told: &ToldLedger) -> Result<ServerLedger, AllocError>
    ensures { IfOk result (AreRunContacts told.now) }
{
    let mut numbering = Numbering {
        ledger: ServerLedger::new(alloc),
        second: true,
        open_on: None,
    };
    let entries = told.entries();
    for (connection, one) in entries {
        numbering.add(alloc, *connection, one)?;
    }
    Ok(numbering.ledger)
}
