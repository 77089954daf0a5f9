//! How many logs there are.

/// At most this many objects have logs: 16 devices, and a link between each two of them.
pub const MAX_OBJECTS: usize = 136;
