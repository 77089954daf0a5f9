//! The steps of a cluster.
ghost use Rattle.std.specs.Prelude.{◌≡◌, IfOk};

use bep_index::IndexId;
use bep_record::{DeviceId, FolderName, Name, Node};
use std::alloc::{AllocError, Global};

/// A step of a cluster: one device acts, or a link comes up or goes down.
#[derive(Debug, Drop)]
pub enum Step {
    /// A user, or a program of theirs, puts the node at the name in the device's folder.
    Edit(DeviceId, FolderName, Name, Node),
    /// A user removes what stands at the name.
    Remove(DeviceId, FolderName, Name),
    /// The device compares the name with its own record.
    Scan(DeviceId, FolderName, Name),
    /// A user lets the device's own content win over what the others have (send only).
    Override(DeviceId, FolderName, Name),
    /// A user takes a local change back (receive only).
    Revert(DeviceId, FolderName, Name),
    /// The link between the two devices comes up.
    Connect(DeviceId, DeviceId),
    /// The link goes down, and what was on its way is lost.
    Lose(DeviceId, DeviceId),
    /// The first device begins a session with the second.
    Begin(DeviceId, DeviceId),
    /// The first message on its way to the first device, from the second, arrives.
    Deliver(DeviceId, DeviceId),
    /// The first device sends the second its next records of the folder.
    Announce(DeviceId, DeviceId, FolderName),
    /// The device begins to pull the record that it wants of the name.
    StartPull(DeviceId, FolderName, Name),
    /// The first device asks the second for the next block of the name's pull.
    Ask(DeviceId, DeviceId, FolderName, Name),
    /// The device ends the name's pull.
    Finish(DeviceId, FolderName, Name),
    /// The device starts anew: sessions, pulls and links are gone, and what is stored stays.
    Restart(DeviceId),
    /// The device has lost all its indexes, and begins each anew under this id: with no record, and knowing nothing of what
    /// others have. Sessions, pulls and links are gone, and what its stores hold stays.
    Reset(DeviceId, IndexId),
}

impl Step {
    /// An equal step of its own, or want of memory.
    pub fn copy(&self, alloc: Global) -> Result<Self, AllocError>
        ensures { IfOk result (λ made. made ≡ self.now) }
    {
        Ok(match self {
            Step::Edit(device, folder, name, node) => {
                let (folder, name, node) = copy_file(alloc, folder, name, node)?;
                Step::Edit(*device, folder, name, node)
            }
            Step::Remove(device, folder, name) => {
                let (folder, name) = copy_names(alloc, folder, name)?;
                Step::Remove(*device, folder, name)
            }
            Step::Scan(device, folder, name) => {
                let (folder, name) = copy_names(alloc, folder, name)?;
                Step::Scan(*device, folder, name)
            }
            Step::Override(device, folder, name) => {
                let (folder, name) = copy_names(alloc, folder, name)?;
                Step::Override(*device, folder, name)
            }
            Step::Revert(device, folder, name) => {
                let (folder, name) = copy_names(alloc, folder, name)?;
                Step::Revert(*device, folder, name)
            }
            Step::Connect(one, other) => Step::Connect(*one, *other),
            Step::Lose(one, other) => Step::Lose(*one, *other),
            Step::Begin(device, other) => Step::Begin(*device, *other),
            Step::Deliver(device, other) => Step::Deliver(*device, *other),
            Step::Announce(device, other, folder) => {
                Step::Announce(*device, *other, folder.copy(alloc)?)
            }
            Step::StartPull(device, folder, name) => {
                let (folder, name) = copy_names(alloc, folder, name)?;
                Step::StartPull(*device, folder, name)
            }
            Step::Ask(device, other, folder, name) => {
                let (folder, name) = copy_names(alloc, folder, name)?;
                Step::Ask(*device, *other, folder, name)
            }
            Step::Finish(device, folder, name) => {
                let (folder, name) = copy_names(alloc, folder, name)?;
                Step::Finish(*device, folder, name)
            }
            Step::Restart(device) => Step::Restart(*device),
            Step::Reset(device, id) => Step::Reset(*device, *id),
        })
    }
}

// Copies of the names of a folder and of a file in it.
fn copy_names(
    alloc: Global,
    folder: &FolderName,
    name: &Name,
) -> Result<(FolderName, Name), AllocError>
    ensures folder { IfOk result (λ made. made.0 ≡ folder.now) }
    ensures name { IfOk result (λ made. made.1 ≡ name.now) }
{
    let folder = folder.copy(alloc)?;
    let name = name.copy(alloc)?;
    Ok((folder, name))
}

// Copies of the names of a folder and of a file in it, and of the file's node.
fn copy_file(
    alloc: Global,
    folder: &FolderName,
    name: &Name,
    node: &Node,
) -> Result<(FolderName, Name, Node), AllocError>
    ensures folder { IfOk result (λ made. made.0 ≡ folder.now) }
    ensures name { IfOk result (λ made. made.1 ≡ name.now) }
    ensures node { IfOk result (λ made. made.2 ≡ node.now) }
{
    let (folder, name) = copy_names(alloc, folder, name)?;
    let node = node.copy(alloc)?;
    Ok((folder, name, node))
}
