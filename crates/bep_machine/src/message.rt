//! What devices send each other over a link.
ghost use Rattle.std.specs.Prelude.{◌≡◌, IfOk};

use crate::Bytes;
use bep_index::Batch;
use bep_record::{Duplicate, FolderName, Items, Name};
use std::alloc::{AllocError, Global};

/// What a ClusterConfig says of a folder that both ends share.
///
/// BEP v1, 'Cluster Config' and 'Fields (ClusterConfig)'.
#[derive(Debug)]
pub struct Announced {
    /// The folder.
    pub folder: FolderName,
    /// The id of the sender's own index of the folder.
    pub index_id: u64,
    /// The greatest sequence of the sender's own index.
    pub sequence: u64,
    /// The id of the receiver's index, as the sender knows it; 0 before any was known.
    pub known_id: u64,
    /// The greatest sequence of the receiver's index that the sender has seen.
    pub known_sequence: u64,
}

// By hand: a caller's proof then sees one call where it lets go of one, and not each field (docs/developing.md).
impl Drop for Announced {
    fn drop(self) {
        let Announced {
            folder: _,
            index_id: _,
            sequence: _,
            known_id: _,
            known_sequence: _,
        } = self;
    }
}

impl Announced {
    /// An equal one of its own, or want of memory.
    pub fn copy(&self, alloc: Global) -> Result<Self, AllocError>
        ensures { IfOk result (λ made. made ≡ self.now) }
    {
        Ok(Announced {
            folder: self.folder.copy(alloc)?,
            index_id: self.index_id,
            sequence: self.sequence,
            known_id: self.known_id,
            known_sequence: self.known_sequence,
        })
    }
}

impl Duplicate for Announced {
    fn duplicate(&self, alloc: Global) -> Result<Self, AllocError> {
        self.copy(alloc)
    }
}

/// A request for one block of a file.
///
/// BEP v1, 'Request'.
#[derive(Debug)]
pub struct Request {
    /// The number of the request within its session, from 1.
    pub id: u32,
    /// The folder.
    pub folder: FolderName,
    /// The file's name.
    pub name: Name,
    /// Where the block begins in the file, in bytes.
    pub offset: u64,
    /// How many bytes the block has.
    pub size: u32,
    /// The SHA-256 of these bytes.
    pub hash: [u8; 32],
}

// By hand: a caller's proof then sees one call where it lets go of one, and not each field (docs/developing.md).
impl Drop for Request {
    fn drop(self) {
        let Request {
            id: _,
            folder: _,
            name: _,
            offset: _,
            size: _,
            hash: _,
        } = self;
    }
}

impl Request {
    /// An equal request of its own, or want of memory.
    pub fn copy(&self, alloc: Global) -> Result<Self, AllocError>
        ensures { IfOk result (λ made. made ≡ self.now) }
    {
        Ok(Request {
            id: self.id,
            folder: self.folder.copy(alloc)?,
            name: self.name.copy(alloc)?,
            offset: self.offset,
            size: self.size,
            hash: self.hash,
        })
    }
}

/// Whether a request was answered, or why it wasn't.
///
/// BEP v1, 'Response'.
#[derive(Clone, Copy, Debug, PartialEq, Eq)]
pub enum Code {
    /// The bytes are in the response.
    NoError,
    /// The store couldn't be read.
    Generic,
    /// There is no such file, or it ends before the range does.
    NoSuchFile,
    /// The file's bytes don't have the hash that was asked for (this project's profile).
    InvalidFile,
}

/// The answer to a request.
///
/// BEP v1, 'Response'.
#[derive(Debug)]
pub struct Response {
    /// The number of the request.
    pub id: u32,
    /// Whether it was answered.
    pub code: Code,
    /// The block's bytes; none unless the code is `NoError`.
    pub bytes: Bytes,
}

// By hand: a caller's proof then sees one call where it lets go of one, and not each field (docs/developing.md).
impl Drop for Response {
    fn drop(self) {
        let Response {
            id: _,
            code: _,
            bytes: _,
        } = self;
    }
}

impl Response {
    /// An equal response of its own, or want of memory.
    pub fn copy(&self, alloc: Global) -> Result<Self, AllocError>
        ensures { IfOk result (λ made. made ≡ self.now) }
    {
        Ok(Response {
            id: self.id,
            code: self.code,
            bytes: self.bytes.copy(alloc)?,
        })
    }
}

/// A message of the Block Exchange Protocol.
///
/// BEP v1, 'Cluster Config', 'Index', 'Index Update', 'Request', 'Response'.
#[derive(Debug, Drop)]
pub enum Message {
    /// The folders that both ends share, each with the points of the sender's and of the receiver's index.
    ClusterConfig(Items<Announced>),
    /// Records of a folder, in place of all that was known of the sender's.
    Index(FolderName, Batch),
    /// Records of a folder, which add to what was known.
    IndexUpdate(FolderName, Batch),
    /// A request for a block.
    Request(Request),
    /// The answer to a request.
    Response(Response),
}

impl Message {
    /// An equal message of its own, or want of memory.
    pub fn copy(&self, alloc: Global) -> Result<Self, AllocError>
        ensures { IfOk result (λ made. made ≡ self.now) }
    {
        match self {
            Message::ClusterConfig(named) => Ok(Message::ClusterConfig(named.duplicate(alloc)?)),
            Message::Index(folder, batch) => {
                let (folder, batch) = copy_records(alloc, folder, batch)?;
                Ok(Message::Index(folder, batch))
            }
            Message::IndexUpdate(folder, batch) => {
                let (folder, batch) = copy_records(alloc, folder, batch)?;
                Ok(Message::IndexUpdate(folder, batch))
            }
            Message::Request(request) => Ok(Message::Request(request.copy(alloc)?)),
            Message::Response(response) => Ok(Message::Response(response.copy(alloc)?)),
        }
    }
}

// Copies of a folder's name and of a batch of its records.
fn copy_records(
    alloc: Global,
    folder: &FolderName,
    batch: &Batch,
) -> Result<(FolderName, Batch), AllocError>
    ensures folder { IfOk result (λ made. made.0 ≡ folder.now) }
    ensures batch { IfOk result (λ made. made.1 ≡ batch.now) }
{
    let folder = folder.copy(alloc)?;
    let batch = batch.copy(alloc)?;
    Ok((folder, batch))
}
