//! The kinds of folders.

/// What a device does with a folder: send and take changes, only send its own, or only take those of others.
///
/// Syncthing, 'Folder Types'.
#[derive(Clone, Copy, Debug, PartialEq, Eq)]
pub enum FolderKind {
    /// Changes go both ways.
    SendReceive,
    /// Changes of others aren't taken.
    SendOnly,
    /// Changes made here aren't sent.
    ReceiveOnly,
}
