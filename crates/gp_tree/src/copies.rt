//! Copies of the parts that later trees keep.

ghost use Rattle.std.specs.Prelude.{◌≡◌, IfOk};

use gp_base::TextBytes;
use std::alloc::{AllocError, Global};

/// The same text once more.
pub fn copy_text(alloc: Global, text: &TextBytes) -> Result<TextBytes, AllocError>
    ensures { IfOk result (λ copy. copy ≡ text.now) }
{
    let mut copy = TextBytes::new(alloc);
    let bytes = text.as_slice();
    for byte in bytes {
        copy.push(*byte)?;
    }
    Ok(copy)
}
