//! The kinds of names.

/// What a name is in a folder.
///
/// BEP v1, 'FileInfo', field 'type'; the deprecated kinds of symlink are left out.
#[derive(Clone, Copy, Debug, PartialEq, Eq)]
pub enum Kind {
    /// A file, which has bytes.
    File = 0,
    /// A directory, which has neither bytes nor a target.
    Directory = 1,
    /// A symlink, which has a target.
    Symlink = 4,
}
