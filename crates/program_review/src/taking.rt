// Whether `dme lower` takes a refused statement.

ghost use Rattle.std.specs.Prelude.{◌≡◌, is_some, IfOk};
ghost use Rattle.dmis_program.specs.Keywords.{keyword_of};
ghost use Rattle.program_flow.specs.LookBack.{target};
ghost use Rattle.program_review.specs.Taken as spec;

use dmis_program::{Keyword, Refusal};
use dmis_text::{Statement, Text};
use program_flow::{is_of_flow, is_text};
use program_lowering::{
    Choices, Reason, asked, begins_with, is_skipped, left_out, manual_after, selects_frame,
};
use std::alloc::{AllocError, Global};

/// An option of `dme lower`.
#[derive(Clone, Copy, Debug, PartialEq, Eq)]
pub enum Choice {
    NoClearing,
    Compensated,
    SkipManual,
    StoredFrames,
    EvenTouches,
    /// `--value NAME=TEXT`.
    Value,
}

/// How `dme lower` takes a refused statement, looked at alone.
#[derive(Clone, Copy, Debug, PartialEq, Eq)]
pub enum Taken {
    /// It refuses it, too.
    No,
    /// It writes out what the statement stands for.
    Written,
    /// It leaves it out.
    LeftOut,
    /// It takes it with this option.
    With(Choice),
}

/// What is open around a statement.
#[derive(Clone, Copy)]
pub(crate) struct Around {
    /// The operator measures.
    pub(crate) manual: bool,
    /// A block of a circle or a cylinder without a touch is open.
    pub(crate) bore: bool,
}

impl Around {
    pub(crate) fn start() -> Around
        ensures { result ≡ spec.nothing_around }
    {
        Around {
            manual: false,
            bore: false,
        }
    }

    fn bore_after(self, keyword: Keyword, params: &[Text]) -> bool
        ensures { result ≡ spec.bore_after self.bore keyword params.now }
    {
        match keyword {
            Keyword::Meas => begins_with("CIRCLE", params) || begins_with("CYLNDR", params),
            Keyword::Ptmeas | Keyword::Endmes => false,
            _ => self.bore,
        }
    }

    pub(crate) fn after(self, keyword: Keyword, statement: &Statement) -> Around
        requires { keyword ≡ keyword_of statement.now.word }
        ensures { result ≡ spec.around_after self statement.now }
    {
        Around {
            manual: manual_after(self.manual, keyword, statement),
            bore: self.bore_after(keyword, &statement.params),
        }
    }
}

fn is_other_place(keyword: Keyword, params: &[Text]) -> bool
    ensures { result ≡ spec.is_other_place keyword params.now }
{
    match keyword {
        Keyword::Goto => begins_with("POL", params) || begins_with("INCR", params),
        Keyword::Ptmeas => begins_with("POL", params),
        _ => false,
    }
}

fn is_assignment(statement: &Statement) -> bool
    ensures { result ≡ is_some (target statement.now) }
{
    is_text(&statement.word, "ASSIGN") && statement.label.is_some()
}

fn is_written(keyword: Keyword, statement: &Statement) -> bool
    requires { keyword ≡ keyword_of statement.now.word }
    ensures { result ≡ spec.is_written statement.now }
{
    is_of_flow(statement)
        || is_assignment(statement)
        || (statement.label.is_none() && is_other_place(keyword, &statement.params))
}

fn taken_for(reason: Option<Reason>) -> Taken
    ensures { result ≡ spec.taken_for reason }
{
    match reason {
        Some(Reason::Clearing) => Taken::With(Choice::NoClearing),
        Some(Reason::Compensated) => Taken::With(Choice::Compensated),
        Some(Reason::Stored) => Taken::With(Choice::StoredFrames),
        Some(Reason::Declared) => Taken::Written,
        Some(Reason::Assigned | Reason::Leads | Reason::Touched) | None => Taken::No,
        Some(_) => Taken::LeftOut,
    }
}

fn taken_unread(alloc: Global, keyword: Keyword, statement: &Statement) -> Result<Taken, AllocError>
    requires { keyword ≡ keyword_of statement.now.word }
    ensures { IfOk result (λ taken. taken ≡ spec.taken_unread statement.now) }
{
    if is_written(keyword, statement) {
        Ok(Taken::Written)
    } else if selects_frame(alloc, keyword, statement)? {
        Ok(Taken::With(Choice::StoredFrames))
    } else if asked(statement).is_some() {
        Ok(Taken::With(Choice::Value))
    } else {
        Ok(taken_for(left_out(Choices::every(), keyword, statement)))
    }
}

/// How `dme lower` takes a statement with this keyword that is refused so; `computed`: it is a move to variables. Fails only if out of memory.
pub(crate) fn taken_by(
    alloc: Global,
    around: Around,
    computed: bool,
    refusal: Refusal,
    keyword: Keyword,
    statement: &Statement,
) -> Result<Taken, AllocError>
    requires { keyword ≡ keyword_of statement.now.word }
    ensures { IfOk result (λ taken. taken ≡ spec.taken_by around computed refusal statement.now) }
{
    let manual = manual_after(around.manual, keyword, statement);
    let taken = match refusal {
        Refusal::NotDmis => Taken::No,
        _ if is_skipped(manual, keyword, statement) => Taken::With(Choice::SkipManual),
        _ if computed => Taken::Written,
        Refusal::Unsupported => return taken_unread(alloc, keyword, statement),
        Refusal::NotMillimetres if begins_with("INCH", &statement.params) => Taken::Written,
        Refusal::TooFewPoints if around.bore => Taken::With(Choice::EvenTouches),
        _ => Taken::No,
    };
    Ok(taken)
}
