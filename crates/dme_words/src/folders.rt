// The file of a part's record in a folder of records.

ghost use Rattle.std.specs.Prelude.{◌≡◌, ◌++◌, OnOk, IfOk, string_bytes, flat_map};
ghost use Rattle.dme_words.specs.Folders as spec;

use percent_encoding::percent_encode_byte;
use std::alloc::{AllocError, Global};

fn is_kept(byte: u8) -> bool
    ensures { result ≡ spec.is_kept byte }
{
    byte.is_ascii_alphanumeric() || byte == b'-' || byte == b'_' || byte == b'.'
}

/// Appends the name that a part has as a file.
fn push_name(out: &mut String, part: &[u8]) -> Result<(), AllocError>
    ensures { OnOk result (string_bytes out.new
        ≡ string_bytes out.old ++ flat_map spec.file_byte part.now) }
{
    for byte in part {
        if is_kept(*byte) {
            out.push(char::from(*byte))?;
        } else {
            out.push_str(percent_encode_byte(*byte))?;
        }
    }
    Ok(())
}

/// The file of a part's record in a folder. Fails only if out of memory.
pub(crate) fn record_in(alloc: Global, folder: &str, part: &str) -> Result<String, AllocError>
    ensures { IfOk result (λ file. string_bytes file ≡ spec.record_in folder.now part.now) }
{
    let mut file = String::from_str(alloc, folder)?;
    file.push_str("/")?;
    push_name(&mut file, part.as_bytes())?;
    file.push_str(".record")?;
    Ok(file)
}
