// Which touch of which feature a touch of a connection is, and on which line of the program a command's statement is.

ghost use Rattle.std.specs.Prelude.{◌≡◌, ◌<◌, MatchOption};
ghost use Rattle.session_telling.specs.Places.{IsPlace, IsBeyond, line_of};

use crate::sessions::{Sent, is_task};

/// Which touch of which feature is the touch of this number, if the features have that many touches each: the feature, counted from 0, and
/// the touch, counted from 1, as the number is. Nothing for number 0 and for one beyond the last.
pub fn place_of(touches: &[usize], number: usize) -> Option<(usize, usize)>
    ensures { MatchOption result (IsBeyond touches.now number)
        (λ place. IsPlace touches.now number place.0 place.1) }
{
    if number == 0 {
        return None;
    }
    let mut left = number;
    for at in 0..touches.len() {
        if left <= touches[at] {
            return Some((at, left));
        }
        left -= touches[at];
    }
    None
}

/// The line of the statement that a command carries out, if `lines` are those of the commands of its connection that carry out statements,
/// in order. Nothing for a command that carries out none (`is_task`), or one that does so without a line. Does not allocate.
pub fn line_of(lines: &[Option<u64>], sent: Sent) -> Option<u64>
    ensures { result ≡ line_of lines.now sent }
{
    if !is_task(sent.kind) || sent.tasks == 0 {
        return None;
    }
    *lines.get((sent.tasks - 1) as usize)?
}
