// What is asked for at a touch, in what two touches differ, and the contacts of a ledger.

use contact_ledger::Act;
use contact_ledger::fields::{add_direction, add_frame, add_point};
use dmis_program::Touch;
use fixed_um::{Dir, Frame, Point};
use session_telling::visible;
use std::alloc::{AllocError, Global};
use std::marker::Model;

/// Whether a text was appended: no text if out of memory.
pub(crate) type Appended = Result<(), AllocError>;

/// What a touch asks for; the tool by the bytes of its name.
#[derive(Clone, Copy, PartialEq)]
pub(crate) struct Request<'a> {
    pub(crate) target: Point,
    dir: Option<Dir>,
    tool: &'a [u8],
    frame: Frame,
}

/// Fields as a sentence shows them: without the space before them.
fn shown_fields(alloc: Global, fields: &[u8]) -> Result<String, AllocError> {
    visible(alloc, fields.strip_prefix(b" ").unwrap_or(fields))
}

/// A point in the form of a file.
pub(crate) fn point_text(alloc: Global, point: Point) -> Result<String, AllocError> {
    let mut text = Vec::new(alloc);
    add_point(&mut text, point)?;
    shown_fields(alloc, text.as_slice())
}

impl<'a> Request<'a> {
    /// What a program's touch asks for.
    pub(crate) fn of_touch(touch: &'a Touch) -> Request<'a> {
        Request {
            target: touch.target,
            dir: touch.dir,
            tool: touch.tool.as_bytes(),
            frame: touch.frame,
        }
    }

    /// The first in which two touches differ, of target, direction, tool and frame, and how each has it, in the form of a file; none if they
    /// are the same.
    pub(crate) fn difference(
        &self,
        alloc: Global,
        wanted: &Request,
    ) -> Result<Option<(&'static str, String, String)>, AllocError> {
        let mut one = Vec::new(alloc);
        let mut other = Vec::new(alloc);
        let what = if self.target != wanted.target {
            add_point(&mut one, self.target)?;
            add_point(&mut other, wanted.target)?;
            "target"
        } else if self.dir != wanted.dir {
            add_direction(&mut one, self.dir)?;
            add_direction(&mut other, wanted.dir)?;
            "direction"
        } else if self.tool != wanted.tool {
            one.extend_from_slice(self.tool)?;
            other.extend_from_slice(wanted.tool)?;
            "tool"
        } else if self.frame != wanted.frame {
            add_frame(&mut one, self.frame)?;
            add_frame(&mut other, wanted.frame)?;
            "frame"
        } else {
            return Ok(None);
        };
        let one = shown_fields(alloc, one.as_slice())?;
        Ok(Some((what, one, shown_fields(alloc, other.as_slice())?)))
    }
}

/// A contact of a ledger: its number among the contacts, counted from 0, its connection and the one that it is shown with, what was asked for,
/// and the point reported.
#[derive(Drop)]
pub(crate) struct Contact<'a> {
    pub(crate) number: usize,
    pub(crate) connection: u64,
    pub(crate) shown_on: u64,
    pub(crate) asked: Request<'a>,
    pub(crate) point: Point,
}

impl<'a> Model for Contact<'a> {
    ghost use Rattle.std.specs.Prelude.{ℕ};

    ghost Value = { ℕ };

    ghost view = { λ contact. contact.number };
}

/// The contacts among these acts, in order, shown with these connections, or with those of the acts if there are none.
pub(crate) fn contacts_of<'a>(
    alloc: Global,
    acts: &'a [(u64, Act)],
    connections: &[u64],
) -> Result<Vec<Contact<'a>>, AllocError> {
    let mut contacts = Vec::new(alloc);
    let mut number = 0usize;
    for (connection, act) in acts {
        if let Act::Contact {
            target,
            dir,
            tool,
            frame,
            point,
        } = act
        {
            let shown_on = match connections.get(number) {
                Some(shown) => *shown,
                None => *connection,
            };
            contacts.push(Contact {
                number,
                connection: *connection,
                shown_on,
                asked: Request {
                    target: *target,
                    dir: *dir,
                    tool: tool.as_bytes(),
                    frame: *frame,
                },
                point: *point,
            })?;
            number = number.saturating_add(1);
        }
    }
    Ok(contacts)
}
