//! Messages on their way.
use bep_record::{FolderName, Items, Record};

/// An Index or an Index Update that is on its way from a device to another: records of one folder.
///
/// BEP v1, 'Index' and 'Index Update'.
#[derive(Debug, Drop)]
pub struct Flight {
    /// The folder.
    pub folder: FolderName,
    /// Whether it is an Index, which replaces all that was known; an Index Update adds to it.
    pub full: bool,
    /// The records that it carries, sequences rising.
    pub records: Items<Record>,
}
