// The contacts of a ledger.

ghost use Rattle.std.specs.Prelude.{◌≡◌, IfOk};
ghost use Rattle.ledger_audit.specs.Names.{contacts, shown};

use crate::probings::Probing;
use contact_ledger::Act;
use fixed_um::{Dir, Frame, Name, Point};
use std::alloc::{AllocError, Global};
use std::marker::Model;

/// A contact that a server has made: on which connection, what was asked for, the tool and the frame of the touch, and the point that
/// was reported.
#[derive(Drop)]
pub(crate) struct Contact<'l> {
    pub connection: u64,
    pub target: Point,
    pub dir: Option<Dir>,
    pub tool: &'l Name,
    pub frame: Frame,
    pub point: Point,
}

impl<'l> Model for Contact<'l> {
    ghost use Rattle.protocol_model.specs.Claims.{MadeContact};

    ghost Value = { MadeContact };

    ghost view = { λ c. record {
      connection = c.connection;
      target = c.target;
      dir = c.dir;
      tool = c.tool.now;
      frame = c.frame;
      point = c.point;
    } };
}

impl<'l> Contact<'l> {
    /// On which connection it was made.
    pub(crate) fn connection(&self) -> u64
        ensures { result ≡ self.now.connection }
    {
        self.connection
    }

    /// What the contact shows: all but its connection.
    pub(crate) fn probing(&self) -> Probing<'l>
        ensures { result ≡ shown self.now }
    {
        Probing {
            target: self.target,
            dir: self.dir,
            tool: self.tool,
            frame: self.frame,
            point: self.point,
        }
    }
}

/// The contacts of a ledger, in order. Fails only if out of memory.
pub(crate) fn contacts_of<'l>(
    alloc: Global,
    acts: &'l [(u64, Act)],
) -> Result<Vec<Contact<'l>>, AllocError>
    ensures { IfOk result (λ made. made.items ≡ contacts acts.now) }
{
    let mut made = Vec::new(alloc);
    for (connection, act) in acts {
        if let Act::Contact {
            target,
            dir,
            tool,
            frame,
            point,
        } = act
        {
            made.push(Contact {
                connection: *connection,
                target: *target,
                dir: *dir,
                tool,
                frame: *frame,
                point: *point,
            })?;
        }
    }
    Ok(made)
}
