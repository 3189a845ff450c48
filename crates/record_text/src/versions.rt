// The versions of a record.

ghost use Rattle.std.specs.Prelude.{◌≡◌, ◌↔◌, ◌++◌, ℕ, List, IsTrue};
ghost use Rattle.record_text.specs.Names.{Finds, BeginsHeader, header};

/// The versions of a record (this profile): the second is written, either is read, and both say the same.
#[derive(Clone, Copy, Debug, PartialEq, Eq)]
pub enum Version {
    /// Its first line is `DME-RECORD 1`.
    First,
    /// Its first line is `DME-RECORD 2`.
    Second,
}

impl Version {
    fn header(self) -> &'static [u8]
        ensures { result.now ≡ header self }
    {
        match self {
            Version::First => b"DME-RECORD 1".as_slice(),
            Version::Second => b"DME-RECORD 2".as_slice(),
        }
    }

    /// Whether a text is a prefix of its first line.
    fn is_begun(self, bytes: &[u8]) -> bool
        ensures { IsTrue result ↔ ((behind : List ℕ) × (header self ≡ bytes.now ++ behind)) }
    {
        self.header().starts_with(bytes)
    }
}

/// The version of a record with this first line.
pub(crate) fn version_of(line: &[u8]) -> Option<Version>
    ensures { Finds result (λ version. line.now ≡ header version) }
{
    if line == Version::First.header() {
        Some(Version::First)
    } else if line == Version::Second.header() {
        Some(Version::Second)
    } else {
        None
    }
}

/// Whether a text is a prefix of the first line of a record.
pub(crate) fn begins_header(bytes: &[u8]) -> bool
    ensures { IsTrue result ↔ BeginsHeader bytes.now }
{
    Version::First.is_begun(bytes) || Version::Second.is_begun(bytes)
}
