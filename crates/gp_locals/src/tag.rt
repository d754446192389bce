//! The strings that are tags in a source text.

ghost use Rattle.std.specs.Prelude.{◌≡◌};
ghost use Rattle.gp_locals.specs.Tag as spec;

use gp_base::tag::TAG_LIMIT;

fn is_tag_character(byte: u8) -> bool
    ensures { result ≡ spec.is_tag_character byte }
{
    byte >= 32 && byte <= 126 && byte != 92
}

fn all_tag_characters(text: &[u8]) -> bool
    ensures { result ≡ spec.all_tag_characters text.now }
{
    for byte in text {
        if !is_tag_character(*byte) {
            return false;
        }
    }
    true
}

/// Whether the bytes between a string's quotes are a tag: 1 to 255 characters from the blank to `~`, none of them a
/// backslash. Takes no memory.
pub fn is_tag(text: &[u8]) -> bool
    ensures { result ≡ spec.is_tag text.now }
{
    !text.is_empty() && text.len() <= TAG_LIMIT && all_tag_characters(text)
}
