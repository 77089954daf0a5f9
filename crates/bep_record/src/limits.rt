//! Limits of this project's profile, and constants of its definitions.

/// The most bytes that a file may have.
///
/// This project's profile.
pub const MAX_FILE_SIZE: u64 = 536870912;

/// The number of bytes in each block of a small file but the last: the least of the block sizes.
///
/// BEP v1, 'FileInfo', field 'block_size'.
pub const BASE_BLOCK_SIZE: u32 = 131072;

/// The sizes that the blocks of a file may have, rising: each is twice the one before it.
///
/// BEP v1, 'FileInfo', field 'block_size'.
pub const BLOCK_SIZES: [u32; 8] = [
    131072, 262144, 524288, 1048576, 2097152, 4194304, 8388608, 16777216,
];

/// The greatest of the block sizes.
///
/// BEP v1, 'FileInfo', field 'block_size'.
pub const MAX_BLOCK_SIZE: u32 = 16777216;

/// A file has fewer bytes than so many blocks of its size have, if there is such a size.
///
/// BEP v1, 'FileInfo', field 'block_size'.
pub const BLOCKS_AIMED_AT: u64 = 2000;

/// The most nanoseconds that a time may have beside its whole seconds.
pub const MAX_NANOSECONDS: u32 = 999999999;

/// The most bytes that the name of a file may have.
///
/// This project's profile.
pub const MAX_NAME_LEN: usize = 1024;

/// The most bytes that the target of a symlink may have.
///
/// This project's profile.
pub const MAX_TARGET_LEN: usize = 1024;

/// The most bytes that the name of a folder may have.
///
/// This project's profile.
pub const MAX_FOLDER_NAME_LEN: usize = 64;

/// The SHA-256 of no bytes (FIPS 180-4), which an empty file's one block has.
pub const HASH_OF_NOTHING: [u8; 32] = [
    0xe3, 0xb0, 0xc4, 0x42, 0x98, 0xfc, 0x1c, 0x14, 0x9a, 0xfb, 0xf4, 0xc8, 0x99, 0x6f, 0xb9, 0x24,
    0x27, 0xae, 0x41, 0xe4, 0x64, 0x9b, 0x93, 0x4c, 0xa4, 0x95, 0x99, 0x1b, 0x78, 0x52, 0xb8, 0x55,
];

/// The most folders of a cluster.
///
/// This project's profile.
pub const MAX_FOLDERS: usize = 16;

/// The most devices of a cluster.
///
/// This project's profile.
pub const MAX_DEVICES: usize = 16;

/// The most pulls of a device in a folder.
///
/// This project's profile.
pub const MAX_PULLS: usize = 64;

/// The most messages that are on their way to one end of a link.
///
/// This project's profile.
pub const MAX_MESSAGES: usize = 1024;
