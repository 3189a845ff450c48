// The tag that is drawn next.

ghost use Rattle.std.specs.Prelude.{◌≡◌, ◌≤◌, ◌+◌, ◌-◌, ◌<◌, ℕ, true, false, IfSome, IfNone, IfOk, IfErr, OnErr};
ghost use Rattle.dme_tags.specs.Names.{is_event_kind, IsNumbered, is_event_tag, is_held, first_free, next_number, last_number, tagged, number_of, numbered, is_event_sort, AreSpent};

use crate::commands::Commands;
use crate::faults::TagFault;
use crate::marks::is_held;
use dme_line::{Kind, Tag};

/// The number of the last tag of each sort that a client draws (this profile).
const LAST_NUMBER: u32 = 9999;

/// The two sorts of tags.
#[derive(Clone, Copy, Debug, PartialEq, Eq)]
pub(crate) enum Sort {
    Standard,
    Event,
}

impl Sort {
    pub(crate) fn of(kind: Kind) -> Sort
        ensures { is_event_sort result ≡ is_event_kind kind }
    {
        match kind {
            Kind::AbortE => Sort::Event,
            Kind::StartSession
            | Kind::EndSession
            | Kind::ClearAllErrors
            | Kind::IsHomed
            | Kind::Home
            | Kind::OnPtMeasReport
            | Kind::GoTo
            | Kind::PtMeas
            | Kind::ChangeTool
            | Kind::SetCsyTransformation
            | Kind::SetCoordSystem => Sort::Standard,
        }
    }

    fn tag(self, number: u32) -> Tag
        requires { number ≤ last_number }
        ensures { result ≡ numbered self number }
    {
        match self {
            Sort::Standard => Tag::Std(number),
            Sort::Event => Tag::Event(number as u16),
        }
    }
}

fn first_free(commands: &Commands, sort: Sort, from: u32) -> Option<u32>
    requires { from ≤ last_number + 1 }
    ensures free { result ≡ first_free (numbered sort) commands.now from (last_number + 1 - from) }
    ensures within { IfSome result (λ n. (from ≤ n) × (n ≤ last_number)) }
    ensures fresh { IfSome result (λ n. is_held (numbered sort n) commands.now ≡ false) }
    ensures spent { IfNone result ((n : ℕ) → from ≤ n → n ≤ last_number
        → is_held (numbered sort n) commands.now ≡ true) }
{
    for number in from..LAST_NUMBER + 1 {
        if !is_held(commands, sort.tag(number)) {
            return Some(number);
        }
    }
    None
}

/// The number that is drawn next after this one: the numbers come one after another, and again from 1 on.
#[tactic(auto, using(crate::proofs::Numbers::next_again))]
fn next_number(commands: &Commands, sort: Sort, drawn: u32) -> Option<u32>
    requires { drawn ≤ last_number }
    ensures next { result ≡ next_number (numbered sort) commands.now drawn }
    ensures within { IfSome result (λ n. (1 ≤ n) × (n ≤ last_number)) }
    ensures fresh { IfSome result (λ n. is_held (numbered sort n) commands.now ≡ false) }
    ensures spent { IfNone result (AreSpent sort commands.now) }
{
    match first_free(commands, sort, drawn + 1) {
        Some(number) => Some(number),
        None => first_free(commands, sort, 1),
    }
}

/// The tag that is drawn next after the one with this number.
pub(crate) fn next_tag(commands: &Commands, sort: Sort, drawn: u32) -> Result<Tag, TagFault>
    requires { drawn ≤ last_number }
    ensures next { IfOk result (λ tag. tagged (numbered sort)
        (next_number (numbered sort) commands.now drawn) ≡ Some tag) }
    ensures within { IfOk result (λ tag. IsNumbered tag × (number_of tag ≤ last_number)) }
    ensures sort { IfOk result (λ tag. is_event_tag tag ≡ is_event_sort sort) }
    ensures spent { OnErr result (tagged (numbered sort)
        (next_number (numbered sort) commands.now drawn) ≡ None) }
    ensures fresh { IfOk result (λ tag. is_held tag commands.now ≡ false) }
    ensures all_held { OnErr result (AreSpent sort commands.now) }
    ensures named { IfErr result (λ fault. fault ≡ TagFault.TagsSpent) }
{
    match next_number(commands, sort, drawn) {
        Some(number) => Ok(sort.tag(number)),
        None => Err(TagFault::TagsSpent),
    }
}
