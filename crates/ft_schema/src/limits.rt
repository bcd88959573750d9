//! What an index takes. A field past a limit is refused.

/// The most fields of an index.
pub const MAX_FIELDS: usize = 1_024;

/// The most TEXT fields of an index.
pub const MAX_TEXT_FIELDS: usize = 32;
