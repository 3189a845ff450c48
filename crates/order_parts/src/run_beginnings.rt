// What a run says before it connects.

ghost use Rattle.std.specs.Prelude.{◌≡◌, IfOk, string_bytes};
ghost use Rattle.order_parts.specs.Kept.{all_kept_text, kept_text};

use std::alloc::{AllocError, Global};

/// The line on a file that gives back all features. Fails only if out of memory.
fn all_kept_text(alloc: Global, count: usize, name: &str) -> Result<String, AllocError>
    ensures { IfOk result (λ line. string_bytes line ≡ all_kept_text count name.now) }
{
    if count == 1 {
        format!(in alloc; "dme: the only feature kept from {name}, nothing is measured\n")
    } else {
        format!(in alloc; "dme: all {count} features kept from {name}, nothing is measured\n")
    }
}

/// The line on a file of this name that gives back features, of those that a program asks for. Fails only if out of memory.
pub fn kept_text(alloc: Global, kept: usize, asked: usize, name: &str) -> Result<String, AllocError>
    ensures { IfOk result (λ line. string_bytes line ≡ kept_text kept asked name.now) }
{
    if kept == asked {
        all_kept_text(alloc, asked, name)
    } else {
        format!(in alloc; "dme: {kept} of {asked} features kept from {name}\n")
    }
}
