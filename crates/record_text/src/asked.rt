// What was asked of a run.

ghost use Rattle.std.specs.Prelude.{◌≡◌};

use dmis_program::Touch;
use fixed_um::Name;
use std::marker::Model;

/// A wanted feature of the program for which a record was written: its label, and its touches in order. Contracts see it as a `Wanted`.
#[derive(Debug, Drop)]
pub struct Asked {
    label: Name,
    touches: Vec<Touch>,
}

impl Model for Asked {
    ghost use Rattle.dmis_program.specs.declared.features.Wanted.{Wanted};

    ghost Value = { Wanted };

    ghost view = { λ a. record { label = a.label; touches = a.touches.items } };
}

impl Asked {
    pub(crate) fn new(label: Name, touches: Vec<Touch>) -> Asked
        ensures { result ≡ record { label = label; touches = touches.items } }
    {
        Asked { label, touches }
    }

    /// Its label.
    pub fn label(&self) -> &Name
        ensures { result.now ≡ self.now.label }
    {
        &self.label
    }

    /// Its touches in order.
    pub fn touches(&self) -> &[Touch]
        ensures { result.now ≡ self.now.touches }
    {
        self.touches.as_slice()
    }
}
