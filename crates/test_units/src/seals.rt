// Seals by the vectors of RFC 4231 for HMAC-SHA-256 (the fifth is of a truncated one, which is no seal).

use record_text::seal_of;
use std::alloc::{AllocError, Global};
use std::test::Fail;

/// Whether a text has this seal under a key.
fn is_sealed(alloc: Global, key: &[u8], text: &[u8], seal: &str) -> Result<bool, AllocError> {
    Ok(seal_of(alloc, key, text)?.as_str() == seal)
}

const SHORT: &str = "b0344c61d8db38535ca8afceaf0bf12b881dc200c9833da726e9376c2e32cff7";

const WORDS: &str = "5bdcc146bf60754e6a042426089575c75a003f089d2739839dec58b964ec3843";

const REPEATED: &str = "773ea91e36800e46854db8ebd09181a72959098b3ef8c122d9635514ced565fe";

const COUNTED: &str = "82558a389a443c0ea4cc819899f2083a85f0faa3e578f8077a2e3ff46729665b";

const LONG_KEY: &str = "60e431591ee0b67f0d8a26aacbf5b77f8e0bc6213728c5140546040f0ee37f54";

const LONG_BOTH: &str = "9b09ffa71b942fcb27635fbcd5b0e944bfdc63644f0713938a7f51535c3a35e2";

/// The bytes from 1 to this one.
fn counted(alloc: Global, last: u8) -> Result<Vec<u8>, AllocError> {
    let mut bytes = Vec::new(alloc);
    for byte in 1..=last {
        bytes.push(byte)?;
    }
    Ok(bytes)
}

#[test]
fn seals_are_those_of_rfc_4231(rt: HostRuntime) -> Result<(), Fail> {
    let alloc = rt.alloc();
    let long =
        b"This is a test using a larger than block-size key and a larger than block-size data. The key needs to be hashed before being used by the HMAC algorithm.";
    let key = counted(alloc, 25)?;
    assert!(rt; is_sealed(alloc, &[0x0b; 20], b"Hi There", SHORT)?);
    assert!(rt; is_sealed(alloc, b"Jefe", b"what do ya want for nothing?", WORDS)?);
    assert!(rt; is_sealed(alloc, &[0xaa; 20], &[0xdd; 50], REPEATED)?);
    assert!(rt; is_sealed(alloc, key.as_slice(), &[0xcd; 50], COUNTED)?);
    assert!(rt;
        is_sealed(
            alloc,
            &[0xaa; 131],
            b"Test Using Larger Than Block-Size Key - Hash Key First",
            LONG_KEY
        )?
    );
    assert!(rt; is_sealed(alloc, &[0xaa; 131], long, LONG_BOTH)?);
    Ok(())
}
