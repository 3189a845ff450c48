// By what an auditor knows the files and the part that were judged.

ghost use Rattle.std.specs.Prelude.{◌≡◌, ◌++◌, ◌+◌, ◌≤◌, [], ℕ, List, true, false, length, take, IfOk, OnOk, OnErr, string_bytes};
ghost use Rattle.std.specs.Io.KnownBytes.{ReadConsumes};
ghost use Rattle.sha2.specs.Hashers.{Holds256};
ghost use Rattle.sha2.specs.Sha256.{sha256};
ghost use Rattle.dme_orders.specs.Digests as spec;

use byte_ports::{Failed, Source};
use record_text::Record;
use session_telling::visible;
use sha2::{Digest, Sha256};
use std::alloc::{AllocError, Global};
use std::fmt;

/// A source with the SHA-256 of all that it has given.
#[derive(Drop)]
pub struct Judged<S> {
    pub source: S,
    pub hasher: Sha256,
}

impl<S: Source> Judged<S> {
    /// A source that has given nothing yet.
    pub fn new(source: S) -> Judged<S>
        ensures source { result.source ≡ source }
        ensures given { Holds256 result.hasher [] }
    {
        Judged {
            source,
            hasher: Sha256::new(),
        }
    }

    /// The source, and the SHA-256 (FIPS 180-4) of what it has given.
    pub fn finish(self) -> (S, [u8; 32])
        ensures source { result.0 ≡ self.source }
        ensures digest { (given : List ℕ) → Holds256 self.hasher given → result.1 ≡ sha256 given }
    {
        (self.source, self.hasher.finalize())
    }
}

impl<S: Source> Source for Judged<S> {
    ghost left = { λ j. S.left j.source };

    ghost has_failed = { λ j. S.has_failed j.source };

    ghost calls = { λ j. S.calls j.source };

    fn pull(&mut self, buf: &mut [u8]) -> Result<usize, Failed>
        ensures within { IfOk result (λ n. n ≤ length buf.new) }
        ensures bytes { ReadConsumes (S.left self.old.source) (S.left self.new.source) result buf.new }
        ensures works { OnOk result (S.has_failed self.new.source ≡ false) }
        ensures fails { OnErr result (S.has_failed self.new.source ≡ true) }
        ensures stays { S.has_failed self.old.source ≡ true → S.has_failed self.new.source ≡ true }
        ensures counts { S.calls self.new.source ≤ S.calls self.old.source + 1 }

        ensures given { IfOk result (λ n. (given : List ℕ) → Holds256 self.old.hasher given
            → Holds256 self.new.hasher (given ++ take n buf.new)) }
        ensures same { OnErr result (self.new.hasher ≡ self.old.hasher) }
    {
        let count = self.source.pull(buf)?;
        let (given, _) = buf.split_at(count);
        self.hasher.update(given);
        Ok(count)
    }
}

/// The line that names a file that was judged, and its SHA-256.
#[derive(Clone, Copy)]
pub struct JudgedLine<'a> {
    pub name: &'a str,
    pub digest: [u8; 32],
}

impl<'a> fmt::Display for JudgedLine<'a> {
    fn fmt<W: fmt::Write>(&self, f: &mut fmt::Formatter<W>) -> fmt::Result {
        let name = self.name;
        write!(f, "dme: SHA-256 of {name}: ")?;
        for byte in &self.digest {
            write!(f, "{byte:02x}")?;
        }
        f.write_str("\n")
    }
}

/// The line of the part that a record names; nothing if it names none, or is not begun. Fails only if out of memory.
pub(crate) fn part_line(alloc: Global, held: &Option<Record>) -> Result<String, AllocError>
    ensures { IfOk result (λ line. string_bytes line ≡ spec.part_line held.now) }
{
    let Some(held) = held else {
        return Ok(String::new(alloc));
    };
    let Some(part) = held.part() else {
        return Ok(String::new(alloc));
    };
    let part = visible(alloc, part)?;
    format!(in alloc; "dme: part {part}\n")
}
