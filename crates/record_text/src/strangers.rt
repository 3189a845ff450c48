// Whether a record is that of a part and of a program.

ghost use Rattle.std.specs.Prelude.{◌≡◌, ◌↔◌, IsTrue, IsNone, IfSome, MatchOption, option_map};
ghost use Rattle.record_text.specs.Strangers.{IsFirstOther};

use crate::asked::Asked;
use crate::comparing::{same_dir, same_frame, same_name, same_point};
use crate::records::Record;
use dmis_program::{Program, Touch, Wanted};
use fixed_um::Name;

fn same_touch(one: &Touch, other: &Touch) -> bool
    ensures { IsTrue result ↔ (one.now ≡ other.now) }
{
    same_point(one.target, other.target)
        && same_dir(one.dir, other.dir)
        && same_name(&one.tool, &other.tool)
        && same_frame(one.frame, other.frame)
}

fn same_touches(one: &[Touch], other: &[Touch]) -> bool
    ensures { IsTrue result ↔ (one.now ≡ other.now) }
{
    if one.len() != other.len() {
        return false;
    }
    for at in 0..one.len() {
        if !same_touch(&one[at], &other[at]) {
            return false;
        }
    }
    true
}

fn same_feature(one: &Asked, other: &Wanted) -> bool
    ensures { IsTrue result ↔ (one.now ≡ other.now) }
{
    same_name(one.label(), &other.label) && same_touches(one.touches(), other.touches.as_slice())
}

/// The label of the first feature that differs: the program's, or the record's if the program has no feature there. `None` if all are
/// the same.
fn first_other<'a>(asked: &'a [Asked], wanted: &'a [Wanted]) -> Option<&'a Name>
    ensures { MatchOption result (asked.now ≡ wanted.now)
        (λ label. IsFirstOther asked.now wanted.now label.now) }
{
    for index in 0..asked.len() {
        let Some(other) = wanted.get(index) else {
            return Some(asked[index].label());
        };
        if !same_feature(&asked[index], other) {
            return Some(&other.label);
        }
    }
    let next = wanted.get(asked.len())?;
    Some(&next.label)
}

/// Whether a record was written for this part, or for no part if none is given.
pub fn is_of_part(recorded: &Record, part: Option<&[u8]>) -> bool
    ensures { IsTrue result ↔ (recorded.now.part ≡ option_map (λ p. p.now) part.entry) }
{
    match (recorded.part(), part) {
        (None, None) => true,
        (Some(one), Some(other)) => one == other,
        _ => false,
    }
}

/// The label of the first feature in which what a record asked is not what a program wants; `None` if it was written for that program.
/// The label is the program's, or the record's if the program has no feature there.
///
/// Features are the same if their labels are, and their touches in order: target, direction, tool and frame.
pub fn other_feature<'a>(recorded: &'a Record, program: &'a Program) -> Option<&'a Name>
    ensures same { IsNone result ↔ (recorded.now.asked ≡ program.now.features) }
    ensures first { IfSome result (λ label.
        IsFirstOther recorded.now.asked program.now.features label.now) }
{
    first_other(recorded.asked(), program.features())
}
