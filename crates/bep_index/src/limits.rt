//! Limits of this project's profile.

/// The greatest sequence number.
///
/// This project's profile.
pub const MAX_SEQUENCE: u64 = 9223372036854775807;

/// The most names in an index or a view.
///
/// This project's profile.
pub const MAX_NAMES: usize = 4096;

/// The most records in a batch.
///
/// This project's profile.
pub const MAX_RECORDS: usize = 1000;
