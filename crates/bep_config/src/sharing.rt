//! What a device has of a folder that it shares, before anything was recorded or known.
use bep_index::IndexId;
use bep_record::FolderKind;

/// What a device does with a folder that it shares, and where it keeps the folder's files.
///
/// Syncthing, 'Folder Types'; BEP v1, 'Fields (ClusterConfig)', field 'index_id'.
#[derive(Drop)]
pub struct Sharing<S> {
    /// What the device does with the folder.
    pub kind: FolderKind,
    /// The id of the device's index for the folder.
    pub index_id: IndexId,
    /// Where the device keeps the folder's files.
    pub store: S,
}
