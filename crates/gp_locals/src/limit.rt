//! The limit on the usable names of a function.

/// The largest total size that the types of the usable names may have at one place of a text.
pub const TOTAL_SIZE_LIMIT: u64 = 128;
