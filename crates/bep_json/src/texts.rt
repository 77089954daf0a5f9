//! Names, targets, hashes, kinds of folders and bytes, written as texts.
ghost use Rattle.std.specs.Prelude.{◌≡◌, ℕ, List, refl};
ghost use Rattle.bep_tree.specs.View.{view};
ghost use Rattle.bep_json.specs.Reading.{Gives};
ghost use Rattle.bep_json.specs.Texts.{is_text, read_name, read_target, read_folder_name, read_folder_kind, read_hash, fits_file, read_text_bytes, read_hex_bytes};

use crate::digits::{bytes_of, hash_of};
use crate::{DocVersion, Leaf, ReadError, Readable, Shaped};
use bep_record::{FolderKind, FolderName, Items, Name, RecordError, Target};
use bep_tree::{Tree, as_str};
use std::alloc::Global;
use std::marker::Model;

impl Shaped for Name {
    ghost has_shape = { λ _. is_text };

    ghost reads = { λ _. read_name };
}

impl Readable for Name {
    fn has_shape(_version: DocVersion, value: &Tree<'_>) -> bool {
        as_str(value).is_some()
    }

    #[tactic(auto, unfolding(crate::specs::Texts::read_name), using(crate::proofs::TextFacts::name_decides))]
    fn read(alloc: Global, _version: DocVersion, value: &Tree<'_>) -> Result<Self, ReadError> {
        let Some(text) = as_str(value) else {
            return Err(ReadError::Range);
        };
        match Name::of_text(alloc, text) {
            Ok(name) => Ok(name),
            Err(RecordError::NameBad) => Err(ReadError::Range),
            Err(_) => Err(ReadError::Memory),
        }
    }
}

impl Leaf for Name {
    ghost not_list = { λ _ _. refl };

    ghost not_object = { λ _ _. refl };
}

impl Shaped for Target {
    ghost has_shape = { λ _. is_text };

    ghost reads = { λ _. read_target };
}

impl Readable for Target {
    fn has_shape(_version: DocVersion, value: &Tree<'_>) -> bool {
        as_str(value).is_some()
    }

    #[tactic(auto, unfolding(crate::specs::Texts::read_target), using(crate::proofs::TextFacts::target_decides))]
    fn read(alloc: Global, _version: DocVersion, value: &Tree<'_>) -> Result<Self, ReadError> {
        let Some(text) = as_str(value) else {
            return Err(ReadError::Range);
        };
        match Target::read(alloc, text.as_bytes()) {
            Ok(target) => Ok(target),
            Err(RecordError::NodeBad) => Err(ReadError::Range),
            Err(_) => Err(ReadError::Memory),
        }
    }
}

impl Leaf for Target {
    ghost not_list = { λ _ _. refl };

    ghost not_object = { λ _ _. refl };
}

impl Shaped for FolderName {
    ghost has_shape = { λ _. is_text };

    ghost reads = { λ _. read_folder_name };
}

impl Readable for FolderName {
    fn has_shape(_version: DocVersion, value: &Tree<'_>) -> bool {
        as_str(value).is_some()
    }

    #[tactic(auto, unfolding(crate::specs::Texts::read_folder_name), using(crate::proofs::TextFacts::folder_name_decides))]
    fn read(alloc: Global, _version: DocVersion, value: &Tree<'_>) -> Result<Self, ReadError> {
        let Some(text) = as_str(value) else {
            return Err(ReadError::Range);
        };
        match FolderName::read(alloc, text.as_bytes()) {
            Ok(name) => Ok(name),
            Err(RecordError::NameBad) => Err(ReadError::Range),
            Err(_) => Err(ReadError::Memory),
        }
    }
}

impl Leaf for FolderName {
    ghost not_list = { λ _ _. refl };

    ghost not_object = { λ _ _. refl };
}

// What a device does with a folder, by its name.
impl Shaped for FolderKind {
    ghost has_shape = { λ _. is_text };

    ghost reads = { λ _. read_folder_kind };
}

impl Readable for FolderKind {
    fn has_shape(_version: DocVersion, value: &Tree<'_>) -> bool {
        as_str(value).is_some()
    }

    fn read(_alloc: Global, _version: DocVersion, value: &Tree<'_>) -> Result<Self, ReadError> {
        match as_str(value) {
            Some("send-receive") => Ok(FolderKind::SendReceive),
            Some("send-only") => Ok(FolderKind::SendOnly),
            Some("receive-only") => Ok(FolderKind::ReceiveOnly),
            _ => Err(ReadError::Range),
        }
    }
}

impl Leaf for FolderKind {
    ghost not_list = { λ _ _. refl };

    ghost not_object = { λ _ _. refl };
}

// A SHA-256 (FIPS 180-4).
impl Shaped for [u8; 32] {
    ghost has_shape = { λ _. is_text };

    ghost reads = { λ _. read_hash };
}

impl Readable for [u8; 32] {
    fn has_shape(_version: DocVersion, value: &Tree<'_>) -> bool {
        as_str(value).is_some()
    }

    #[tactic(auto, unfolding(crate::specs::Texts::read_hash))]
    fn read(_alloc: Global, _version: DocVersion, value: &Tree<'_>) -> Result<Self, ReadError> {
        let Some(text) = as_str(value) else {
            return Err(ReadError::Range);
        };
        match hash_of(text.as_bytes()) {
            Some(hash) => Ok(hash),
            None => Err(ReadError::Range),
        }
    }
}

impl Leaf for [u8; 32] {
    ghost not_list = { λ _ _. refl };

    ghost not_object = { λ _ _. refl };
}

// Whether a file may have these bytes.
fn fits_file(version: DocVersion, bytes: &[u8]) -> bool
    ensures { result ≡ fits_file version bytes.now }
{
    bytes.len() as u64 <= version.most_file_bytes()
}

// A file's bytes, written as a text.
#[derive(Debug, Drop)]
pub(crate) struct TextBytes {
    bytes: Items<u8>,
}

impl Model for TextBytes {
    ghost Value = { List ℕ };

    ghost view = { λ text. text.bytes };
}

impl TextBytes {
    // The bytes.
    pub(crate) fn into_items(self) -> Items<u8>
        ensures { result ≡ self }
    {
        self.bytes
    }
}

impl Shaped for TextBytes {
    ghost has_shape = { λ _. is_text };

    ghost reads = { read_text_bytes };
}

impl Readable for TextBytes {
    fn has_shape(_version: DocVersion, value: &Tree<'_>) -> bool {
        as_str(value).is_some()
    }

    #[tactic(auto, unfolding(crate::specs::Texts::read_text_bytes))]
    fn read(alloc: Global, version: DocVersion, value: &Tree<'_>) -> Result<Self, ReadError> {
        let Some(text) = as_str(value) else {
            return Err(ReadError::Range);
        };
        let bytes = text.as_bytes();
        if !fits_file(version, bytes) {
            return Err(ReadError::Range);
        }
        let bytes = Vec::from_slice(alloc, bytes)?;
        Ok(TextBytes {
            bytes: Items::new(bytes),
        })
    }
}

impl Leaf for TextBytes {
    ghost not_list = { λ _ _. refl };

    ghost not_object = { λ _ _. refl };
}

// A file's bytes, written in hexadecimal digits.
#[derive(Debug, Drop)]
pub(crate) struct HexBytes {
    bytes: Items<u8>,
}

impl Model for HexBytes {
    ghost Value = { List ℕ };

    ghost view = { λ text. text.bytes };
}

impl HexBytes {
    // The bytes.
    pub(crate) fn into_items(self) -> Items<u8>
        ensures { result ≡ self }
    {
        self.bytes
    }
}

impl Shaped for HexBytes {
    ghost has_shape = { λ _. is_text };

    ghost reads = { read_hex_bytes };
}

impl Readable for HexBytes {
    fn has_shape(_version: DocVersion, value: &Tree<'_>) -> bool {
        as_str(value).is_some()
    }

    #[tactic(auto, unfolding(crate::specs::Texts::read_hex_bytes))]
    fn read(alloc: Global, version: DocVersion, value: &Tree<'_>) -> Result<Self, ReadError> {
        let Some(text) = as_str(value) else {
            return Err(ReadError::Range);
        };
        let Some(bytes) = bytes_of(alloc, text.as_bytes())? else {
            return Err(ReadError::Range);
        };
        if !fits_file(version, bytes.as_slice()) {
            return Err(ReadError::Range);
        }
        Ok(HexBytes {
            bytes: Items::new(bytes),
        })
    }
}

impl Leaf for HexBytes {
    ghost not_list = { λ _ _. refl };

    ghost not_object = { λ _ _. refl };
}
