//! What a device has of a folder at the moment of a cut.
use bep_index::IndexId;
use bep_map::NameMap;
use bep_record::{DeviceId, FolderKind, FolderName, Items, Node, Record};

/// What a device has of a folder that it shares.
pub struct Share {
    /// The device.
    pub device: DeviceId,
    /// What it does with the folder.
    pub kind: FolderKind,
    /// The id of its index for the folder.
    pub index_id: IndexId,
    /// The greatest sequence number that this index gave, 0 where it gave none.
    pub max_sequence: u64,
    /// The records of this index, each under its name.
    pub own: NameMap<Record>,
    /// What its store holds, read out.
    pub store: NameMap<Node>,
    /// What it knows of other devices' indexes, by rising device.
    pub views: Items<PeerView>,
    /// The records that it pulls, each under its name.
    pub pulls: NameMap<Record>,
}

// By hand: a caller's proof then sees one call where it lets go of one, and not each field (docs/developing.md).
impl Drop for Share {
    fn drop(self) {
        let Share {
            device: _,
            kind: _,
            index_id: _,
            max_sequence: _,
            own: _,
            store: _,
            views: _,
            pulls: _,
        } = self;
    }
}

/// What a device knows of another device's index of a folder.
pub struct PeerView {
    /// The device whose index it is.
    pub of: DeviceId,
    /// The id of that index, 0 where none is known.
    pub index_id: u64,
    /// The greatest sequence number that is known of it.
    pub max_sequence: u64,
    /// The records that are known of it, each under its name.
    pub records: NameMap<Record>,
}

// By hand: a caller's proof then sees one call where it lets go of one, and not each field (docs/developing.md).
impl Drop for PeerView {
    fn drop(self) {
        let PeerView {
            of: _,
            index_id: _,
            max_sequence: _,
            records: _,
        } = self;
    }
}

/// A folder, and the devices that share it.
pub struct SharedFolder {
    /// The folder.
    pub folder: FolderName,
    /// What each device has of it, devices rising.
    pub shares: Items<Share>,
}

// By hand: a caller's proof then sees one call where it lets go of one, and not each field (docs/developing.md).
impl Drop for SharedFolder {
    fn drop(self) {
        let SharedFolder {
            folder: _,
            shares: _,
        } = self;
    }
}
