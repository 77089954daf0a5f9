//! What a device does with one of its folders alone, as a step.
ghost use Rattle.std.specs.Prelude.{◌≡◌, IfOk};
ghost use Rattle.bep_log.specs.Acts.{MayGain};
ghost use Rattle.bep_log.specs.inner.Local.{KeepsUncopied, copies, does_of, step_of};
ghost use Rattle.bep_peer.specs.Member.{Remains};

use bep_folder::ScanResult;
use bep_machine::{Moved, Step};
use bep_peer::{Peer, PeerError};
use bep_record::{DeviceId, FolderName, Name, Node};
use bep_store::Store;
use std::alloc::{AllocError, Global};

// An action in a folder.
#[derive(Drop)]
pub(crate) enum Local<'a> {
    Edit(&'a Name, &'a Node),
    Remove(&'a Name),
    Scan(&'a Name),
    Commit(ScanResult),
    Pull(&'a Name),
    Finish(&'a Name),
    Override(&'a Name),
    Revert(&'a Name),
}

impl Local<'_> {
    // The step that it is, or want of memory.
    pub(crate) fn step(
        &self,
        alloc: Global,
        device: DeviceId,
        folder: &FolderName,
    ) -> Result<Step, AllocError>
        ensures { IfOk result (λ step. step ≡ step_of self.now device folder.now) }
    {
        let folder = folder.copy(alloc)?;
        Ok(match self {
            Local::Edit(name, node) => {
                let name = name.copy(alloc)?;
                Step::Edit(device, folder, name, node.copy(alloc)?)
            }
            Local::Remove(name) => Step::Remove(device, folder, name.copy(alloc)?),
            Local::Scan(name) => Step::Scan(device, folder, name.copy(alloc)?),
            Local::Commit(scan) => Step::Scan(device, folder, scan.name().copy(alloc)?),
            Local::Pull(name) => Step::StartPull(device, folder, name.copy(alloc)?),
            Local::Finish(name) => Step::Finish(device, folder, name.copy(alloc)?),
            Local::Override(name) => Step::Override(device, folder, name.copy(alloc)?),
            Local::Revert(name) => Step::Revert(device, folder, name.copy(alloc)?),
        })
    }

    // The device makes it.
    pub(crate) fn make<S: Store>(
        self,
        peer: &mut Peer<S>,
        folder: &FolderName,
    ) -> Result<Moved, PeerError>
        ensures does { does_of self.entry peer.old.number folder.now peer.old peer.new result }
        ensures rest { Remains peer.old peer.new }
        ensures copied { MayGain (copies self.entry) folder.now peer.old peer.new }
        ensures kept { KeepsUncopied self.entry peer.old peer.new result }
    {
        match self {
            Local::Edit(name, node) => peer.edit(folder, name, node),
            Local::Remove(name) => peer.remove(folder, name),
            Local::Scan(name) => peer.scan(folder, name),
            Local::Commit(scan) => peer.scan_commit(folder, scan),
            Local::Pull(name) => peer.pull(folder, name),
            Local::Finish(name) => peer.finish(folder, name),
            Local::Override(name) => peer.override_one(folder, name),
            Local::Revert(name) => peer.revert_one(folder, name),
        }
    }
}
