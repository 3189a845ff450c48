// The seal of a text, and which lines of a record seals stand for.

ghost use Rattle.std.specs.Prelude.{◌≡◌, ◌≤◌, ◌+◌, length, IfOk, string_bytes, option_map};
ghost use Rattle.std.specs.List.{prefix_len};
ghost use Rattle.std.specs.Char.{is_ascii_digit};
ghost use Rattle.contact_ledger.specs.Lines.{whole_lines};
ghost use Rattle.record_text.specs.Seals as spec;

use crate::macs::hmac;
use contact_ledger::lines::cut_line;
use sha2::{Digest, Sha256};
use std::alloc::{AllocError, Global};

/// The SHA-256 of a text (FIPS 180-4), as 64 digits. Fails only if out of memory.
pub fn digest_of(alloc: Global, text: &[u8]) -> Result<String, AllocError>
    ensures { IfOk result (λ digits. string_bytes digits ≡ spec.digest_of text.now) }
{
    let digest: [u8; 32] = Sha256::digest(text);
    hex::encode(alloc, digest)
}

/// The seal of a text under a key (this profile): its HMAC (RFC 2104) over SHA-256, as 64 digits. Fails only if out of memory.
pub fn seal_of(alloc: Global, key: &[u8], text: &[u8]) -> Result<String, AllocError>
    ensures { IfOk result (λ seal. string_bytes seal ≡ spec.seal_of key.now text.now) }
{
    let mac = hmac(alloc, key, text)?;
    hex::encode(alloc, mac.as_slice())
}

fn digits_len(line: &[u8]) -> usize
    ensures { (result ≡ prefix_len is_ascii_digit line.now) × (result ≤ length line.now) }
{
    line.iter().take_while(|byte| byte.is_ascii_digit()).count()
}

/// The seal that a line says, if it says one.
fn seal_in(line: &[u8]) -> Option<&[u8]>
    ensures { option_map (λ seal. seal.now) result ≡ spec.seal_in line.now }
{
    let (_, behind) = line.split_at(digits_len(line));
    behind.strip_prefix(b" SEAL ".as_slice())
}

/// Whether a line says a seal that is not that of the text above it.
fn is_false(alloc: Global, key: &[u8], above: &[u8], line: &[u8]) -> Result<bool, AllocError>
    ensures { IfOk result (λ is. is ≡ spec.is_false key.now above.now line.now) }
{
    let Some(said) = seal_in(line) else {
        return Ok(false);
    };
    let seal = seal_of(alloc, key, above)?;
    Ok(said != seal.as_bytes())
}

/// The number of the first line of a record whose seal is not that of what is above it under a key, from 1 on; what follows the last line
/// end is no line. Fails only if out of memory.
#[tactic(auto, unfolding(crate::specs::Seals::false_seal))]
pub fn false_seal(alloc: Global, key: &[u8], text: &[u8]) -> Result<Option<u64>, AllocError>
    ensures { IfOk result (λ found. found ≡ spec.false_seal key.now text.now) }
{
    let mut above = Vec::new(alloc);
    let mut number = 0;
    let mut rest = text;
    while let Some((line, after)) = cut_line(rest) {
        number += 1;
        if is_false(alloc, key, above.as_slice(), line)? {
            return Ok(Some(number));
        }
        above.extend_from_slice(line)?;
        above.push(b'\n')?;
        rest = after;
    }
    Ok(None)
}

/// The number of the line below the last seal, and that of the line below the last line.
fn below_seal(text: &[u8]) -> (u64, u64)
    ensures seal { result.0 ≡ spec.below_seal 1 1 (whole_lines text.now) }
    ensures line { result.1 ≡ length (whole_lines text.now) + 1 }
{
    let mut below = 1;
    let mut number = 1;
    let mut rest = text;
    while let Some((line, after)) = cut_line(rest) {
        number += 1;
        if seal_in(line).is_some() {
            below = number;
        }
        rest = after;
    }
    (below, number)
}

/// The number of the first line that is above no seal.
#[tactic(auto, unfolding(crate::specs::Seals::unsealed))]
fn unsealed(text: &[u8]) -> Option<u64>
    ensures { result ≡ spec.unsealed text.now }
{
    let (below, number) = below_seal(text);
    if below == number { None } else { Some(below) }
}

/// The number of the first line of a record that no seal of a key stands for: the first whose seal is not that of what is above it, or else
/// the first that is above no seal. Fails only if out of memory.
pub fn open_line(alloc: Global, key: &[u8], text: &[u8]) -> Result<Option<u64>, AllocError>
    ensures { IfOk result (λ found. found ≡ spec.open_line key.now text.now) }
{
    match false_seal(alloc, key, text)? {
        Some(number) => Ok(Some(number)),
        None => Ok(unsealed(text)),
    }
}

/// What the seals of a text say.
#[derive(Clone, Copy, Debug, PartialEq, Eq)]
pub enum SealVerdict {
    /// The text has no seal.
    Unsealed,
    /// It has seals, and there is no key to judge them by.
    Unjudged,
    /// A true seal stands for each line.
    Sealed,
    /// No true seal stands for this line.
    Open(u64),
}

fn verdict_under(alloc: Global, key: &[u8], text: &[u8]) -> Result<SealVerdict, AllocError>
    ensures { IfOk result (λ verdict. verdict ≡ spec.verdict_under key.now text.now) }
{
    match open_line(alloc, key, text)? {
        Some(line) => Ok(SealVerdict::Open(line)),
        None => Ok(SealVerdict::Sealed),
    }
}

/// What the seals of a text say under a key, if one is given: that no line is a seal, or as `open_line` judges. Fails only if out of memory.
pub fn seal_verdict(
    alloc: Global,
    key: &Option<Vec<u8>>,
    text: &[u8],
) -> Result<SealVerdict, AllocError>
    ensures { IfOk result (λ verdict. verdict
        ≡ spec.seal_verdict (option_map (λ key. key.items) key.now) text.now) }
{
    let (below, _) = below_seal(text);
    if below == 1 {
        return Ok(SealVerdict::Unsealed);
    }
    match key {
        Some(key) => verdict_under(alloc, key.as_slice(), text),
        None => Ok(SealVerdict::Unjudged),
    }
}
