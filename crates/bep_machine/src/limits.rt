//! The limits of links and sessions.

/// The greatest epoch of a link.
///
/// This project's profile.
pub const MAX_EPOCH: u64 = 9223372036854775807;

/// The most requests of a session that weren't answered yet.
///
/// This project's profile.
pub const MAX_OUTSTANDING: usize = 64;

/// The greatest number of a request.
///
/// This project's profile.
pub const MAX_REQUEST_ID: u32 = 2147483647;
