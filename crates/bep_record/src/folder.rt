//! The names of folders.
ghost use Rattle.std.specs.Prelude.{◌≡◌, ◌⊎◌, ◌≤◌, ◌↔◌, ℕ, List, All, IsTrue, IfOk, IfErr, IsErrOf, OnOk, Some, length};
ghost use Rattle.bep_record.specs.FolderName.{IsFolderByte, IsFolderName};

use crate::limits::MAX_FOLDER_NAME_LEN;
use crate::{Name, RecordError};
use std::alloc::{AllocError, Global};
use std::fmt;
use std::marker::Model;

/// The name by which devices speak of a folder: 1 to 64 ASCII letters, digits, `-` and `_`. Compared by bytes.
///
/// BEP v1, 'Folder', field 'id'; the limits are this project's profile.
#[derive(Debug, PartialEq, Eq, PartialOrd, Ord, Hash)]
pub struct FolderName {
    name: Name,
}

// By hand: a caller's proof then sees one call where it lets go of one, and not each field (docs/developing.md).
impl Drop for FolderName {
    fn drop(self) {
        let FolderName { name: _ } = self;
    }
}

impl Model for FolderName {
    ghost use Rattle.std.specs.Prelude.{ℕ, List};
    ghost use Rattle.bep_record.specs.FolderName.{IsFolderName};

    ghost Value = { List ℕ };

    ghost view = { λ folder. folder.name };

    ghost invariant = { λ folder. IsFolderName folder.name };

    ghost inverse = { λ bytes. record { name = bytes } };
}

impl FolderName {
    /// The folder name of these bytes. Refuses `NameBad` exactly where they are none; `Memory` may come in place of
    /// a folder name.
    pub fn read(alloc: Global, bytes: &[u8]) -> Result<Self, RecordError>
        ensures ok { IfOk result (λ folder. folder ≡ bytes.now) }
        ensures a_folder { OnOk result (IsFolderName bytes.now) }

        ensures bad { IsErrOf result RecordError.NameBad ↔ (¬ IsFolderName bytes.now) }
        ensures only { IfErr result (λ e. (e ≡ RecordError.NameBad) ⊎ (e ≡ RecordError.Memory)) }
    {
        if !is_folder_name(bytes) {
            return Err(RecordError::NameBad);
        }
        match Name::read(alloc, bytes) {
            Ok(name) => Ok(FolderName { name }),
            Err(error) => Err(error),
        }
    }

    /// The bytes of the name.
    pub fn as_bytes(&self) -> &[u8]
        ensures value { result.now ≡ self.now }
        ensures a_folder { IsFolderName self.now }
    {
        self.name.as_bytes()
    }

    /// The name as a text.
    pub fn as_str(&self) -> &str
        ensures value { result.now ≡ self.now }
        ensures a_folder { IsFolderName self.now }
    {
        self.name.as_str()
    }

    /// An equal name of its own, or want of memory.
    pub fn copy(&self, alloc: Global) -> Result<Self, AllocError>
        ensures { IfOk result (λ folder. folder ≡ self.now) }
    {
        Ok(FolderName {
            name: self.name.copy(alloc)?,
        })
    }
}

impl fmt::Display for FolderName {
    ghost output = { λ folder. Some folder };

    fn fmt<W: fmt::Write>(&self, f: &mut fmt::Formatter<W>) -> fmt::Result {
        f.write_str(self.as_str())
    }
}

// Whether a folder name may have this byte.
fn is_folder_byte(byte: u8) -> bool
    ensures { IsTrue result ↔ IsFolderByte byte }
{
    matches!(byte, b'0'..=b'9' | b'A'..=b'Z' | b'a'..=b'z' | b'-' | b'_')
}

// Whether the bytes are the name of a folder.
fn is_folder_name(bytes: &[u8]) -> bool
    ensures { IsTrue result ↔ IsFolderName bytes.now }
{
    !bytes.is_empty()
        && bytes.len() <= MAX_FOLDER_NAME_LEN
        && bytes.iter().all(|byte| is_folder_byte(*byte))
}
