// What a reader holds of the head of a record.

ghost use Rattle.std.specs.Prelude.{◌≡◌, ◌↔◌, IsTrue, [], None};

use crate::asked::Asked;
use crate::parts::Part;
use dmis_program::Touch;
use fixed_um::Name;
use std::alloc::Global;
use std::marker::Model;

/// A wanted feature some of whose touches were read.
#[derive(Drop)]
pub(crate) struct Unfinished {
    pub(crate) label: Name,
    pub(crate) count: u64,
    pub(crate) touches: Vec<Touch>,
}

impl Model for Unfinished {
    ghost use Rattle.record_text.specs.Unfinished.{Unfinished};

    ghost Value = { Unfinished };

    ghost view = { λ u. record { label = u.label; count = u.count; touches = u.touches.items } };
}

impl Unfinished {
    /// A feature of `count` touches, none of which was read.
    pub(crate) fn new(alloc: Global, label: Name, count: u64) -> Unfinished
        ensures { result ≡ record { label = label; count = count; touches = [] } }
    {
        Unfinished {
            label,
            count,
            touches: Vec::new(alloc),
        }
    }
}

/// The part and the wanted features that were read.
#[derive(Drop)]
pub(crate) struct Head {
    pub(crate) part: Option<Part>,
    pub(crate) asked: Vec<Asked>,
}

impl Model for Head {
    ghost use Rattle.record_text.specs.Unfinished.{Asking};

    ghost Value = { Asking };

    ghost view = { λ h. record { part = h.part; asked = h.asked.items } };
}

impl Head {
    /// Nothing was read.
    pub(crate) fn new(alloc: Global) -> Head
        ensures { result ≡ record { part = None; asked = [] } }
    {
        Head {
            part: None,
            asked: Vec::new(alloc),
        }
    }

    /// Whether nothing was read.
    pub(crate) fn is_empty(&self) -> bool
        ensures { IsTrue result ↔ ((self.now.part ≡ None) × (self.now.asked ≡ [])) }
    {
        self.part.is_none() && self.asked.is_empty()
    }
}

/// Where a reader is in the head of a record, between two lines.
#[derive(Drop)]
pub(crate) enum Place {
    /// Between wanted features, where the head may end.
    Between,
    /// Within a feature that lacks touches.
    Within(Unfinished),
    /// After the end.
    Done,
}
