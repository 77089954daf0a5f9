//! How many links there are.

/// At most this many links are between 16 devices.
pub const MAX_LINKS: usize = 120;
