//! The versions of documents.
ghost use Rattle.std.specs.Prelude.{◌≡◌, ◌≤◌};
ghost use Rattle.bep_json.specs.Version.{most_file_bytes, number_of, version_of};

use bep_record::MAX_FILE_SIZE;

/// The most bytes of a file in documents of version 1.
///
/// This project's profile.
pub const MAX_FILE_SIZE_ONE: u64 = 16777216;

/// Which version of documents a tree is of. What a record must say and how many bytes a file may have goes by it.
///
/// This project's profile.
#[derive(Clone, Copy, Debug, PartialEq, Eq)]
pub enum DocVersion {
    /// Files have up to 16777216 bytes, and a record needn't say its block size.
    One,
    /// Files have up to 536870912 bytes, and a record of a file that isn't deleted says its block size.
    Two,
}

impl DocVersion {
    /// The number that a document says.
    pub fn number(self) -> u64
        ensures { result ≡ number_of self }
    {
        match self {
            DocVersion::One => 1,
            DocVersion::Two => 2,
        }
    }

    /// The version with this number, if there is one.
    pub fn of_number(number: u64) -> Option<Self>
        ensures { result ≡ version_of number }
    {
        match number {
            1 => Some(DocVersion::One),
            2 => Some(DocVersion::Two),
            _ => None,
        }
    }

    /// The most bytes that a file has in a document of this version.
    pub fn most_file_bytes(self) -> u64
        ensures value { result ≡ most_file_bytes self }
        ensures most { result ≤ MAX_FILE_SIZE }
    {
        match self {
            DocVersion::One => MAX_FILE_SIZE_ONE,
            DocVersion::Two => MAX_FILE_SIZE,
        }
    }
}
