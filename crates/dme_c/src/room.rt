// A caller's room, into which bytes are copied.

ghost use Rattle.std.specs.Prelude.{◌≡◌, ◌<◌, ◌≤◌, ◌++◌, length, take, drop, min};

/// Copies the longest prefix of these bytes that fits into the room, and answers its length.
pub(crate) fn copy_front(from: &[u8], into: &mut [u8]) -> usize
    ensures count { result ≡ min (length from.now) (length into.old) }
    ensures copied { into.new ≡ take result from.now ++ drop result into.old }
{
    let count = from.len().min(into.len());
    into[..count].copy_from_slice(&from[..count]);
    count
}

/// Copies all of these bytes to the start of the room if they fit, and answers how many there are.
pub(crate) fn copy_whole(from: &[u8], into: &mut [u8]) -> usize
    ensures count { result ≡ length from.now }
    ensures front { result ≤ length into.old → take result into.new ≡ from.now }
    ensures beside { result ≤ length into.old → drop result into.new ≡ drop result into.old }
    ensures long { length into.old < result → into.new ≡ into.old }
{
    let count = from.len();
    if count <= into.len() {
        into[..count].copy_from_slice(from);
    }
    count
}
