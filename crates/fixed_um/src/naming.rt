// Names of features, tools and frames.

ghost use Rattle.std.specs.Prelude.{◌≡◌, IfOk, IfSome, IfNone, true, false, if◌then◌else◌};
ghost use Rattle.std.specs.List.{list_all};
ghost use Rattle.std.specs.Rc.{rc_slice_items};
ghost use Rattle.fixed_um.specs.Calls.{Shows};
ghost use Rattle.fixed_um.specs.Names.{folded, is_name_byte, is_name_text, IsName};

use std::alloc::{AllocError, Global};
use std::marker::Model;
use std::rc::RcSlice;

/// A name of 1 to 64 bytes from 33 to 126 except `( ) , ' " / = $`, with a to z as A to Z (this profile).
/// Copies share its bytes: each touch of a program holds the names of its feature and of its tool.
#[derive(Debug, Drop)]
pub struct Name {
    bytes: RcSlice<u8>,
}

impl Model for Name {
    ghost use Rattle.std.specs.Prelude.{ℕ, List};
    ghost use Rattle.std.specs.Rc.{rc_slice_items};
    ghost use Rattle.fixed_um.specs.Names.{IsName};

    ghost Value = { List ℕ };

    ghost view = { λ n. rc_slice_items n.bytes };

    ghost invariant = { λ n. IsName (rc_slice_items n.bytes) };
}

fn is_name_byte(b: u8) -> bool
    ensures { result ≡ is_name_byte b }
{
    b >= 33 && b <= 126 && !matches!(b, b'(' | b')' | b',' | b'\'' | b'"' | b'/' | b'=' | b'$')
}

/// The folded bytes of a text; `None` if one of them cannot be in a name.
fn folded(alloc: Global, text: &[u8]) -> Result<Option<Vec<u8>>, AllocError>
    ensures named { IfOk result (λ found. IfSome found (λ bytes. (bytes.items ≡ folded text.now)
        × (list_all is_name_byte text.now ≡ true))) }
    ensures none { IfOk result (λ found. IfNone found (list_all is_name_byte text.now ≡ false)) }
{
    let mut bytes = Vec::with_capacity(alloc, text.len())?;
    for index in 0..text.len() {
        let byte = text[index];
        if !is_name_byte(byte) {
            return Ok(None);
        }
        bytes.push_reserved(byte.to_ascii_uppercase());
    }
    Ok(Some(bytes))
}

impl Name {
    /// The name that a text writes, folded; `None` if the text is no name. Fails only if out of memory.
    pub fn new(alloc: Global, text: &[u8]) -> Result<Option<Name>, AllocError>
        ensures { IfOk result (λ name. name ≡ (if is_name_text text.now then Some (folded text.now)
            else None)) }
    {
        if text.len() < 1 || text.len() > 64 {
            return Ok(None);
        }
        let Some(bytes) = folded(alloc, text)? else {
            return Ok(None);
        };
        let bytes = RcSlice::from_vec(bytes)?;
        Ok(Some(Name { bytes }))
    }

    /// The folded bytes.
    pub fn as_bytes(&self) -> &[u8]
        ensures { Shows result.now self.now IsName }
    {
        self.bytes.as_slice()
    }

    /// An equal name, which shares the bytes: nothing is copied and no memory taken. More owners than a word counts are the one `Err`.
    pub fn copy(&self, alloc: Global) -> Result<Name, AllocError>
        ensures { IfOk result (λ name. name ≡ self.now) }
    {
        let bytes = self.bytes.clone()?;
        Ok(Name { bytes })
    }
}
