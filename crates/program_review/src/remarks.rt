// What a review remarks on, in the order of the program's lines.

ghost use Rattle.std.specs.Prelude.{◌≡◌, ◌++◌, OnOk};
ghost use Rattle.program_review.specs.Remarks.{remark_on, AreByLine, is_clearing, straights, counted};

use crate::groups::Group;
use crate::notices::Passed;
use crate::odd::Odd;
use crate::taking::Taken;
use crate::travels::Travel;
use crate::under_setup::Lack;
use dmis_program::Refusal;
use std::alloc::AllocError;

/// What is remarked.
#[derive(Clone, Copy, Debug)]
pub enum What {
    /// A statement is refused, or a line cannot be read. What deleting it would change, and how `dme lower` takes it.
    Refused(Refusal, Group, Taken),
    /// A statement is passed over though it changes something.
    Passed(Passed),
    /// Likewise a statement on clearing. How many straight travels it would have replaced.
    Clearing(usize),
    /// The setup lacks something.
    Lack(Lack),
    /// The setup stores a frame that the program does not recall.
    Unused,
    /// The probe travels straight to a touch.
    Straight(Travel),
    /// A statement is probably not meant as it is written.
    Odd(Odd),
    /// How many of the refused statements `dme lower` takes, and how many there are.
    Lowered(usize, usize),
    /// What some of the refused statements are for.
    Sum(Group),
}

/// A remark, and the line of the program or of the setup on which it is.
#[derive(Clone, Copy, Debug)]
pub struct Remark {
    /// What is remarked.
    pub what: What,
    /// The number of the line, from 1; 0 for a remark on the whole program.
    pub line: u64,
}

/// A remark with its sentence, as it is printed.
#[derive(Drop)]
pub(crate) struct Finding {
    pub(crate) remark: Remark,
    pub(crate) said: String,
}

/// Adds what is remarked on a line, if there is something.
pub(crate) fn push_remark(
    remarks: &mut Vec<Remark>,
    what: Option<What>,
    line: u64,
) -> Result<(), AllocError>
    ensures { OnOk result (remarks.new.items ≡ remarks.old.items ++ remark_on line what) }
{
    if let Some(what) = what {
        remarks.push(Remark { what, line })?;
    }
    Ok(())
}

/// Puts remarks in the order of lines; on one line they stay in their order.
pub(crate) fn sort_by_line(remarks: &mut Vec<Remark>) -> Result<(), AllocError>
    ensures { OnOk result (AreByLine remarks.old.items remarks.new.items) }
{
    remarks.sort_by_key(|remark| remark.line)
}

fn is_clearing(what: What) -> bool
    ensures { result ≡ is_clearing what }
{
    matches!(what, What::Passed(Passed::Clearing | Passed::ClearingOff))
}

fn straights(later: &[Remark]) -> usize
    ensures { result ≡ straights later.now }
{
    let mut count = 0;
    let mut left = later;
    while let [remark, rest @ ..] = left {
        if is_clearing(remark.what) {
            break;
        }
        if let What::Straight(_) = remark.what {
            count += 1;
        }
        left = rest;
    }
    count
}

pub(crate) fn counted(what: What, later: &[Remark]) -> What
    ensures { result ≡ counted what later.now }
{
    match what {
        What::Passed(Passed::Clearing) => What::Clearing(straights(later)),
        _ => what,
    }
}
