// Files that a call names, and whether two of them meet.

ghost use Rattle.std.specs.Prelude.{◌≡◌, ◌↔◌, ◌++◌, ◌<◌, true, map, length, IfOk, IsNone, IfSome, option_map};
ghost use Rattle.effects.specs.Naming as spec;

use std::alloc::{AllocError, Global};

/// A file that a call names, with its place and its number on its device, if it exists.
#[derive(Drop)]
pub struct Called {
    /// Its number among those of the call.
    pub at: usize,
    pub place: Vec<u8>,
    pub node: Option<Vec<u8>>,
}

/// Whether the second name is the first with this ending.
fn is_with(name: &[u8], longer: &[u8], ending: &[u8]) -> bool
    ensures { result ≡ true ↔ longer.now ≡ name.now ++ ending.now }
{
    match longer.strip_suffix(ending) {
        Some(front) => front == name,
        None => false,
    }
}

/// Whether the second name is that of a file next to the first: in which its next text is made, or, where that is kept, what was in it before.
pub fn is_beside(is_kept: bool, name: &[u8], beside: &[u8]) -> bool
    ensures { result ≡ true ↔ spec.IsBeside is_kept name.now beside.now }
{
    is_with(name, beside, b".new".as_slice())
        || (is_kept && is_with(name, beside, b".old".as_slice()))
}

/// Whether two files meet: they are one, or one is made next to the other.
fn meet(is_kept: bool, first: &[u8], second: &[u8]) -> bool
    ensures { result ≡ true ↔ spec.Meet is_kept first.now second.now }
{
    first == second || is_beside(is_kept, first, second) || is_beside(is_kept, second, first)
}

/// Whether two numbers are known, and one.
fn are_one(first: &Option<Vec<u8>>, second: &Option<Vec<u8>>) -> bool
    ensures { result ≡ true ↔ spec.AreOne (option_map (λ node. node.items) first.now)
        (option_map (λ node. node.items) second.now) }
{
    match (first, second) {
        (Some(node), Some(number)) => node.as_slice() == number.as_slice(),
        _ => false,
    }
}

/// Whether a file is written, by the list of those that are.
fn is_written(written: &[bool], at: usize) -> bool
    ensures { result ≡ spec.is_written written.now at }
{
    match written.get(at) {
        Some(is_written) => *is_written,
        None => false,
    }
}

impl Called {
    /// Whether two files are one, or one is made next to the other, and either is written.
    fn disturbs(&self, is_kept: bool, written: &[bool], other: &Called) -> bool
        ensures { result ≡ true ↔ spec.Disturbs is_kept written.now
            (spec.seen_of self.now) (spec.seen_of other.now) }
    {
        let is_one = are_one(&self.node, &other.node);
        (is_written(written, self.at) || is_written(written, other.at))
            && (is_one || meet(is_kept, self.place.as_slice(), other.place.as_slice()))
    }
}

/// The first of these files that the other one meets, if either is written.
pub fn met(is_kept: bool, written: &[bool], called: &[Called], other: &Called) -> Option<usize>
    ensures within { IfSome result (λ at. at < length called.now) }
    ensures some { IfSome result (λ at. spec.IsFirstMet is_kept written.now (map spec.seen_of called.now) at
        (spec.seen_of other.now)) }
    ensures none { IsNone result → spec.IsClear is_kept written.now
        (map spec.seen_of called.now) (spec.seen_of other.now) }
{
    for at in 0..called.len() {
        if called[at].disturbs(is_kept, written, other) {
            return Some(at);
        }
    }
    None
}

/// That the files of two options are one. Fails only if out of memory.
pub fn refusal(alloc: Global, first: &str, second: &str, name: &str) -> Result<String, AllocError> {
    format!(in alloc;
        "error: '{first}' and '{second}' name one file, '{name}'\n\nFor more information, try '--help'.\n"
    )
}
