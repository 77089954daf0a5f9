//! What a document says, as plain lists.
use bep_index::IndexId;
use bep_json::{DocVersion, NamedParts};
use bep_record::{DeviceId, Entry, FolderKind, FolderName, Items};

/// What a document says of a device that shares a folder.
#[derive(Debug, Drop)]
pub struct ShareParts {
    /// The device.
    pub device: DeviceId,
    /// What it does with the folder.
    pub kind: FolderKind,
    /// The id of its index for the folder.
    pub index_id: IndexId,
    /// The greatest sequence of that index.
    pub max: u64,
    /// The records of that index.
    pub own: Items<Entry>,
    /// What its store holds.
    pub store: Items<NamedParts>,
    /// What it knows of other devices' indexes.
    pub views: Items<ViewParts>,
    /// The records that it pulls.
    pub pulls: Items<Entry>,
}

/// What a document says of a device's view of another device's index.
#[derive(Debug, Drop)]
pub struct ViewParts {
    /// The device whose index it is.
    pub of: DeviceId,
    /// The id of that index, 0 where none is known.
    pub index_id: u64,
    /// The greatest sequence that is known of it.
    pub max: u64,
    /// The records that are known of it.
    pub records: Items<Entry>,
}

/// What a document says of a folder.
#[derive(Debug, Drop)]
pub struct FolderParts {
    /// The folder.
    pub folder: FolderName,
    /// The devices that share it.
    pub devices: Items<ShareParts>,
}

/// What a document says of an Index or an Index Update that is on its way.
#[derive(Debug, Drop)]
pub struct FlightParts {
    /// The folder.
    pub folder: FolderName,
    /// Whether it is an Index, which replaces all that was known.
    pub full: bool,
    /// The records that it carries.
    pub records: Items<Entry>,
}

/// What a document says of the link between two devices.
#[derive(Debug, Drop)]
pub struct LinkParts {
    /// The smaller of the two devices.
    pub a: DeviceId,
    /// The greater one.
    pub b: DeviceId,
    /// Whether the link is up.
    pub up: bool,
    /// The number of its connection.
    pub epoch: u64,
    /// What is on its way to `a`, the first to arrive first.
    pub to_a: Items<FlightParts>,
    /// What is on its way to `b`, the first to arrive first.
    pub to_b: Items<FlightParts>,
}

/// A row of a certificate: the winner of a name.
#[derive(Debug, Drop)]
pub struct RowParts {
    /// The folder.
    pub folder: FolderName,
    /// The device whose record it is.
    pub device: DeviceId,
    /// The record; it says the name.
    pub entry: Entry,
}

/// What a check document says: a cut, and a certificate for it.
#[derive(Debug, Drop)]
pub struct CheckParts {
    /// The document's version.
    pub version: DocVersion,
    /// The folders of the cut.
    pub folders: Items<FolderParts>,
    /// The links between its devices.
    pub links: Items<LinkParts>,
    /// The rows of the certificate.
    pub certificate: Items<RowParts>,
}
