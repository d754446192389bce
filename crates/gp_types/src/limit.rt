//! The limit on types.

/// The largest size that a type may have.
pub const TYPE_SIZE_LIMIT: u64 = 64;
