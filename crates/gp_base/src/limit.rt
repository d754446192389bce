//! The limit on source texts.

/// The most bytes that a source text has.
pub const SOURCE_LIMIT: usize = 131_072;
