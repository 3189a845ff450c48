// Whether what comes from a peer ends the time for which it is waited.

ghost use Rattle.std.specs.Prelude.{◌≡◌};
ghost use Rattle.session_telling.specs.Arriving as spec;

/// How many of the first bytes of a line have come that are those of E0000: 5 once all have, 6 if others have come.
fn seen_after(seen: u8, byte: u8) -> u8
    ensures { result ≡ spec.seen_after seen byte }
{
    if byte == b'\n' {
        0
    } else if seen == 5 {
        5
    } else if seen == 0 && byte == b'E' {
        1
    } else if seen >= 1 && seen < 5 && byte == b'0' {
        seen + 1
    } else {
        6
    }
}

/// What has come of a line after these bytes, of which `seen` is known before; and whether a line has ended in them that is not under E0000,
/// the tag of what nobody asked for.
pub fn line_came(seen: u8, bytes: &[u8]) -> (u8, bool)
    ensures seen { result.0 ≡ spec.seen_after_all seen bytes.now }
    ensures asked { result.1 ≡ spec.ends_asked seen bytes.now }
{
    let mut seen = seen;
    let mut is_asked = false;
    for byte in bytes {
        is_asked = is_asked || (*byte == b'\n' && seen != 5);
        seen = seen_after(seen, *byte);
    }
    (seen, is_asked)
}
