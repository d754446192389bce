//! Tags of reported results.

ghost use Rattle.std.specs.Prelude.{◌≡◌, ◌↔◌, IfOk, IfSome, IsSome, IsTrue};
ghost use Rattle.gp_base.specs.Tag.{IsTag};

use std::alloc::{AllocError, Global};
use std::marker::Model;

/// The most characters that a tag has.
pub const TAG_LIMIT: usize = 255;

/// The tag of a reported result: 1 to 255 characters from the blank to `~`. A contract sees it as its bytes.
#[derive(Debug, Drop)]
pub struct Tag {
    bytes: Vec<u8>,
}

impl Model for Tag {
    ghost use Rattle.std.specs.Prelude.{List, ℕ};
    ghost use Rattle.gp_base.specs.Tag.{IsTag};

    ghost Value = { List ℕ };

    ghost view = { λ tag. tag.bytes.items };

    ghost invariant = { λ tag. IsTag tag.bytes.items };
}

/// Whether the bytes are a tag: 1 to 255 characters from the blank to `~`.
pub fn is_tag(bytes: &[u8]) -> bool
    ensures { IsTrue result ↔ IsTag bytes.now }
{
    !bytes.is_empty() && bytes.len() <= TAG_LIMIT && bytes.iter().all(|b| 32 <= *b && *b <= 126)
}

impl Tag {
    /// The tag with these bytes; `None` exactly where they aren't 1 to 255 characters from the blank to `~`.
    pub fn new(alloc: Global, bytes: &[u8]) -> Result<Option<Tag>, AllocError>
        ensures made { IfOk result (λ tag. IfSome tag (λ made. made ≡ bytes.now)) }
        ensures exact { IfOk result (λ tag. IsSome tag ↔ IsTag bytes.now) }
    {
        if !is_tag(bytes) {
            return Ok(None);
        }
        Ok(Some(Tag {
            bytes: Vec::from_slice(alloc, bytes)?,
        }))
    }

    /// The tag's bytes.
    pub fn as_bytes(&self) -> &[u8]
        ensures text { result.now ≡ self.now }
        ensures valid { IsTag self.now }
    {
        &self.bytes
    }
}
