// HMAC (RFC 2104) over SHA-256 (FIPS 180-4).

ghost use Rattle.std.specs.Prelude.{◌≡◌, ◌≤◌, length, IfOk};
ghost use Rattle.record_text.specs.Macs as spec;

use sha2::{Digest, Sha256};
use std::alloc::{AllocError, Global};

/// A key of at most 64 bytes, and the digest of a longer one.
fn short_key(alloc: Global, key: &[u8]) -> Result<Vec<u8>, AllocError>
    ensures { IfOk result (λ short. (short.items ≡ spec.short_key key.now) × (length short.items ≤ 64)) }
{
    if key.len() > 64 {
        let digest: [u8; 32] = Sha256::digest(key);
        return Vec::from_slice(alloc, &digest);
    }
    Vec::from_slice(alloc, key)
}

/// 64 bytes: a key with a byte, and after it the byte.
fn padded(alloc: Global, byte: u8, key: &[u8]) -> Result<Vec<u8>, AllocError>
    requires { length key.now ≤ 64 }
    ensures { IfOk result (λ pad. pad.items ≡ spec.padded byte key.now) }
{
    let mut pad = Vec::new(alloc);
    for of_key in key {
        pad.push(*of_key ^ byte)?;
    }
    let fill = [byte; 64];
    let (_, rest) = fill.as_slice().split_at(key.len());
    pad.extend_from_slice(rest)?;
    Ok(pad)
}

/// The HMAC of a text under a key. Fails only if out of memory.
pub(crate) fn hmac(alloc: Global, key: &[u8], text: &[u8]) -> Result<[u8; 32], AllocError>
    ensures { IfOk result (λ mac. mac ≡ spec.hmac key.now text.now) }
{
    let short = short_key(alloc, key)?;
    let inner = padded(alloc, 54, short.as_slice())?;
    let outer = padded(alloc, 92, short.as_slice())?;
    let mut within = Sha256::new();
    within.update(inner.as_slice());
    within.update(text);
    let digest: [u8; 32] = within.finalize();
    let mut around = Sha256::new();
    around.update(outer.as_slice());
    around.update(digest.as_slice());
    Ok(around.finalize())
}
