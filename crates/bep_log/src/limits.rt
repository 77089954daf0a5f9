//! How much is in a log.

/// At most this many events are in a log, by this project's profile.
pub const MAX_EVENTS: usize = 65536;
