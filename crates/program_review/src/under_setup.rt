// What a setup lacks for a program.

ghost use Rattle.std.specs.Prelude.{◌≡◌, ◌++◌, IfOk, OnOk};
ghost use Rattle.dmis_program.specs.Keywords.{keyword_of};
ghost use Rattle.program_review.specs.UnderSetup.{meaning_of, selected_after, is_outside, when, lack_of, lacks_of};

use crate::remarks::{Remark, What, push_remark};
use crate::said::{Said, said_in};
use dmis_program::{Frames, Keyword, StatementMeaning};
use dmis_text::Statement;
use fixed_um::Point;
use std::alloc::{AllocError, Global};
use tool_rack::Rack;

/// What a setup lacks for a statement.
#[derive(Clone, Copy, Debug, PartialEq, Eq)]
pub enum Lack {
    /// The tool that is selected is not in the rack.
    Tool,
    /// The position is out of the machine's volume, in machine axes.
    Volume,
}

/// The frame that is selected.
#[derive(Clone, Copy)]
pub(crate) enum Selected {
    /// The machine's.
    Machine,
    /// A stored one, with the place of its zero point in machine axes.
    Stored(Point),
    /// One that is not known.
    Unknown,
}

impl Selected {
    fn after(&self, frames: &Frames, said: &Said) -> Selected
        ensures { result ≡ selected_after frames.now self.now (meaning_of said.now)
            (keyword_of said.now.word) }
    {
        match said.meaning() {
            Some(StatementMeaning::Recalls(name)) => match frames.get(name) {
                Some(offset) => Selected::Stored(offset),
                None => Selected::Unknown,
            },
            None if said.keyword() == Keyword::Recall => Selected::Unknown,
            _ => *self,
        }
    }

    fn is_outside(&self, target: Point) -> bool
        ensures { result ≡ is_outside self.now target }
    {
        match self {
            Selected::Machine => !target.is_in_volume(),
            Selected::Stored(offset) => target.shifted(*offset).is_none(),
            Selected::Unknown => false,
        }
    }
}

fn when(is_so: bool, lack: Lack) -> Option<What>
    ensures { result ≡ when is_so lack }
{
    if is_so { Some(What::Lack(lack)) } else { None }
}

fn lack_of(rack: &Rack, selected: &Selected, meaning: &Option<StatementMeaning>) -> Option<What>
    ensures { result ≡ lack_of rack.now selected.now meaning.now }
{
    match meaning {
        Some(StatementMeaning::Selects(name)) => when(!rack.has(name), Lack::Tool),
        Some(StatementMeaning::Goes(target) | StatementMeaning::Touches(target, _)) => {
            when(selected.is_outside(*target), Lack::Volume)
        }
        _ => None,
    }
}

/// Adds what a setup with these tools and frames lacks for these statements of a program, up to `ENDFIL`. Where the selected frame is unknown,
/// positions are not judged. Fails only if out of memory.
pub(crate) fn push_lacks(
    remarks: &mut Vec<Remark>,
    statements: &[Said],
    rack: &Rack,
    frames: &Frames,
) -> Result<(), AllocError>
    ensures { OnOk result (remarks.new.items
        ≡ remarks.old.items ++ lacks_of rack.now frames.now statements.now) }
{
    let mut selected = Selected::Machine;
    let mut left = statements;
    while let [said, rest @ ..] = left {
        if said.is_end() {
            break;
        }
        push_remark(
            remarks,
            lack_of(rack, &selected, said.meaning()),
            said.line(),
        )?;
        selected = selected.after(frames, said);
        left = rest;
    }
    Ok(())
}

/// What a setup with these tools and frames lacks for a program's statements, in the order of its lines: each selection of a tool that is not in the
/// rack, and each move and touch out of the machine's volume, in machine axes. Fails only if out of memory.
pub fn lacking_for(
    alloc: Global,
    statements: &[Statement],
    rack: &Rack,
    frames: &Frames,
) -> Result<Vec<Remark>, AllocError>
    ensures { IfOk result (λ remarks. remarks.items ≡ lacks_of rack.now frames.now statements.now) }
{
    let said = said_in(alloc, statements)?;
    let mut remarks = Vec::new(alloc);
    push_lacks(&mut remarks, said.as_slice(), rack, frames)?;
    Ok(remarks)
}
