// A summary in a form.

ghost use Rattle.std.specs.Prelude.{◌≡◌, IfOk};
ghost use Rattle.part_summary.specs.Printed.{form_notes, form_text};

use crate::summary::Summary;
use std::alloc::{AllocError, Global};

/// How a summary is printed.
#[derive(Clone, Copy, Debug, PartialEq, Eq)]
pub enum Form {
    /// As text.
    Text,
    /// As comma-separated values.
    Csv,
    /// As a page of HTML.
    Html,
}

/// A summary in a form.
#[derive(Debug, Drop)]
pub struct Printed {
    /// What standard output shows.
    pub text: Vec<u8>,
    /// What standard error shows: the head of the summary if the form has none.
    pub notes: Vec<u8>,
}

impl<'a> Summary<'a> {
    /// The summary in a form, with the name of the program, of records of which this many were named. Fails only if out of memory.
    pub fn printed(
        &self,
        alloc: Global,
        form: Form,
        program: &str,
        named: usize,
    ) -> Result<Printed, AllocError>
        ensures text { IfOk result (λ p. p.text.items ≡ form_text form program.now named self.now) }
        ensures notes { IfOk result (λ p. p.notes.items ≡ form_notes form named self.now) }
    {
        match form {
            Form::Text => Ok(Printed {
                text: self.text(alloc, named)?,
                notes: Vec::new(alloc),
            }),
            Form::Csv => Ok(Printed {
                text: self.table(alloc)?,
                notes: self.head(alloc, "dme: ", named)?,
            }),
            Form::Html => Ok(Printed {
                text: self.page(alloc, program, named)?,
                notes: self.head(alloc, "dme: ", named)?,
            }),
        }
    }
}
