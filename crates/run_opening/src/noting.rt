// What the record notes of a run whose operator is named, or that seals it.

ghost use Rattle.std.specs.Prelude.{◌≡◌, IfOk, OnOk, string_bytes};
ghost use Rattle.run_opening.specs.Openings as spec;
ghost use Rattle.run_opening.specs.Noting.{identified};

use crate::openings::Opening;
use dme_words::{COMMIT, VERSION};
use program_review::InputFile;
use record_text::{Note, digest_of};
use run_session::Noted;
use session_telling::visible;
use std::alloc::{AllocError, Global};

/// The name of a file, as people read it, and the SHA-256 (FIPS 180-4) of its text.
fn identified(alloc: Global, name: &[u8], text: &[u8]) -> Result<String, AllocError>
    ensures { IfOk result (λ both. string_bytes both ≡ identified name.now text.now) }
{
    let name = visible(alloc, name)?;
    let digest = digest_of(alloc, text)?;
    format!(in alloc; "{name} {digest}")
}

impl Opening {
    /// What the record notes of a file that was read.
    fn note_of(&self, note: Note, file: &InputFile) -> Result<Noted, AllocError> {
        let text = identified(self.alloc, file.name.as_bytes(), file.text.as_slice())?;
        Noted::new(self.alloc, note, text.as_bytes())
    }

    /// What the record notes, if the operator is named or it is sealed: the program that runs, the operator, the DMIS program and the setup.
    pub(crate) fn notes(&mut self) -> Result<Option<Vec<Noted>>, AllocError>
        ensures { spec.HasGiven self.old self.new }
    {
        let operator = self.order.operator.take();
        if operator.is_none() && self.key.is_none() {
            return Ok(None);
        }
        let by = format!(in self.alloc; "dme {VERSION} {COMMIT}")?;
        let mut notes = Vec::new(self.alloc);
        notes.push(Noted::new(self.alloc, Note::By, by.as_bytes())?)?;
        if let Some(operator) = operator {
            notes.push(Noted::new(self.alloc, Note::Operator, operator.as_bytes())?)?;
        }
        notes.push(self.note_of(Note::Program, &self.files.program)?)?;
        notes.push(self.note_of(Note::Setup, &self.files.setup)?)?;
        Ok(Some(notes))
    }
}
