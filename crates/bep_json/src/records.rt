//! Records, well formed or not.
ghost use Rattle.std.specs.Prelude.{◌≡◌, ◌≤◌, ◌+◌, ◌-◌, min, refl, IfOk};
ghost use Rattle.bep_record.specs.Block.{block_size_of};
ghost use Rattle.bep_json.specs.Numbers.{is_whole, read_number};
ghost use Rattle.bep_json.specs.Version.{most_file_bytes};
ghost use Rattle.bep_json.specs.Records.{is_record, read_record, blocks_from, default_block_size};

use crate::numbers::is_whole;
use crate::{DocVersion, Leaf, ReadError, Readable, Shaped, Whole};
use bep_record::{BASE_BLOCK_SIZE, Block, BlockSize, Entry, Items, Kind, MAX_FILE_SIZE};
use bep_tree::{Tree, as_u64};
use std::alloc::{AllocError, Global};
use std::marker::Model;

// How many bytes a file has.
#[derive(Clone, Copy, Debug)]
pub(crate) struct FileSize {
    bytes: u64,
}

impl Model for FileSize {
    ghost use Rattle.std.specs.Prelude.{◌≤◌, ℕ};
    ghost use Rattle.bep_record.specs.declared.limits.TheConstants.{MAX_FILE_SIZE};

    ghost Value = { ℕ };

    ghost view = { λ size. size.bytes };

    ghost invariant = { λ size. size.bytes ≤ MAX_FILE_SIZE };

    ghost inverse = { λ bytes. record { bytes = bytes } };
}

impl FileSize {
    // No bytes.
    pub(crate) fn zero() -> Self
        ensures { result ≡ 0 }
    {
        FileSize { bytes: 0 }
    }

    // How many they are.
    pub(crate) fn bytes(self) -> u64
        ensures value { result ≡ self }
        ensures most { self ≤ MAX_FILE_SIZE }
    {
        self.bytes
    }
}

impl Shaped for FileSize {
    ghost has_shape = { λ _. is_whole };

    ghost reads = { λ version. read_number 0 (most_file_bytes version) };
}

impl Readable for FileSize {
    fn has_shape(_version: DocVersion, value: &Tree<'_>) -> bool {
        is_whole(value)
    }

    fn read(_alloc: Global, version: DocVersion, value: &Tree<'_>) -> Result<Self, ReadError> {
        match as_u64(value) {
            Some(bytes) if bytes <= version.most_file_bytes() => Ok(FileSize { bytes }),
            _ => Err(ReadError::Range),
        }
    }
}

impl Leaf for FileSize {
    ghost not_list = { λ _ _. refl };

    ghost not_object = { λ _ _. refl };
}

// A block size, whether files have it or not.
pub(crate) type AnyBlockSize = Whole<0, 4294967295>;

// The hashes of blocks.
pub(crate) type Hashes = Items<[u8; 32]>;

// A record, well formed or not.
impl Shaped for Entry {
    ghost has_shape = { is_record };

    ghost reads = { read_record };
}

// The block size of a record that doesn't say one.
pub(crate) fn default_block_size(kind: Kind, deleted: bool) -> AnyBlockSize
    ensures { result ≡ default_block_size kind deleted }
{
    match (kind, deleted) {
        (Kind::File, false) => Whole::new(u64::from(BASE_BLOCK_SIZE)),
        (Kind::File, true) => Whole::new(0),
        (Kind::Directory, _) => Whole::new(0),
        (Kind::Symlink, _) => Whole::new(0),
    }
}

// The blocks of a file of this size that have these hashes, as far as the file goes; behind its end they are empty.
pub(crate) fn blocks_of(
    alloc: Global,
    size: u64,
    hashes: &[[u8; 32]],
) -> Result<Items<Block>, AllocError>
    requires { size ≤ MAX_FILE_SIZE }
    ensures { IfOk result (λ blocks. blocks ≡ blocks_from size 0 hashes.now) }
{
    let block_bytes = block_bytes_of(size);
    let mut blocks = Vec::with_capacity(alloc, hashes.len())?;
    let mut offset = 0;
    for hash in hashes {
        let block = block_at(offset, size, block_bytes, *hash);
        offset += u64::from(block.size);
        blocks.push(block)?;
    }
    Ok(Items::new(blocks))
}

// The block size of a file of this size.
fn block_bytes_of(size: u64) -> u32
    requires { size ≤ MAX_FILE_SIZE }
    ensures { result ≡ block_size_of size }
{
    match BlockSize::of_length(size) {
        Ok(blocks) => blocks.bytes(),
        Err(_) => unreachable!(),
    }
}

// The block that begins at this offset: a whole block, or as many bytes as the file has left.
fn block_at(offset: u64, size: u64, block_bytes: u32, hash: [u8; 32]) -> Block
    requires { offset ≤ size }
    ensures value { result ≡ record { offset = offset; size = min block_bytes (size - offset); hash = hash } }
    ensures within { result.offset + result.size ≤ size }
{
    let len = (size - offset).min(u64::from(block_bytes));
    Block {
        offset,
        size: len as u32,
        hash,
    }
}
