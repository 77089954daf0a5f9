//! What a row says.
use bep_record::{DeviceId, FolderName, Items, Name, Node, Record};

/// All that a cut says of one name in one folder.
pub struct NameRow {
    /// The folder.
    pub folder: FolderName,
    /// The name.
    pub name: Name,
    /// The records of the name, each once. They are spoken of by their places in this list, from 0.
    pub records: Items<Record>,
    /// What the devices have of the name. A device that isn't here has nothing of it.
    pub devices: Items<DeviceCell>,
}

// By hand: a caller's proof then sees one call where it lets go of one, and not each field (docs/developing.md).
impl Drop for NameRow {
    fn drop(self) {
        let NameRow {
            folder: _,
            name: _,
            records: _,
            devices: _,
        } = self;
    }
}

/// What a device has of the name.
pub struct DeviceCell {
    /// The device.
    pub device: DeviceId,
    /// Its own record.
    pub own: Option<usize>,
    /// What its store holds.
    pub node: Option<Node>,
    /// What it knows of other devices' records.
    pub views: Items<ViewCell>,
    /// The record that it pulls.
    pub pull: Option<usize>,
}

// By hand: a caller's proof then sees one call where it lets go of one, and not each field (docs/developing.md).
impl Drop for DeviceCell {
    fn drop(self) {
        let DeviceCell {
            device: _,
            own: _,
            node: _,
            views: _,
            pull: _,
        } = self;
    }
}

/// What a device knows of another device's record.
#[derive(Clone, Copy, Debug)]
pub struct ViewCell {
    /// The other device.
    pub of: DeviceId,
    /// Its record.
    pub record: usize,
}
