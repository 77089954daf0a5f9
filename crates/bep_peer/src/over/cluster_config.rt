//! What a ClusterConfig says, and what it asks of a device.
ghost use Rattle.std.specs.Prelude.{◌≡◌, ◌↔◌, ◌++◌, IsTrue, IfOk, OnOk};
ghost use Rattle.bep_machine.specs.Exchange.{NamesNot, NamesOnce, cursor_after};
ghost use Rattle.bep_machine.specs.Peer.{announced, is_shared_with};
ghost use Rattle.bep_machine.specs.Replica.{view_of};
ghost use Rattle.bep_peer.specs.inner.ClusterConfig.{config_of, said_of};

use bep_folder::Replica;
use bep_index::{Index, Plan, plan};
use bep_machine::Announced;
use bep_map::FolderMap;
use bep_record::{DeviceId, FolderName};
use bep_store::Store;
use std::alloc::{AllocError, Global};

/// Whether no folder is named twice.
pub fn names_once(named: &[Announced]) -> bool
    ensures { IsTrue result ↔ NamesOnce named.now }
{
    for (i, one) in named.iter().enumerate() {
        if !names_not(&one.folder, &named[i + 1..]) {
            return false;
        }
    }
    true
}

// Whether the folder isn't named.
fn names_not(folder: &FolderName, named: &[Announced]) -> bool
    ensures { IsTrue result ↔ NamesNot folder.now named.now }
{
    for one in named {
        if is_of(one, folder) {
            return false;
        }
    }
    true
}

fn is_of(announced: &Announced, folder: &FolderName) -> bool
    ensures { IsTrue result ↔ (announced.now.folder ≡ folder.now) }
{
    announced.folder == *folder
}

/// What is sent next of the index to a device that announces this point of it.
///
/// BEP v1, 'Fields (ClusterConfig)', fields 'index_id' and 'max_sequence'.
pub fn cursor_for(index: &Index, announced: &Announced) -> Plan
    ensures { result ≡ cursor_after index.now announced.now.known_id announced.now.known_sequence }
{
    plan(index, announced.known_id, announced.known_sequence)
}

/// What a ClusterConfig to the other device says: for each folder that both share, the points of the own index and of
/// the view of the other's. Or want of memory.
///
/// BEP v1, 'Fields (ClusterConfig)', fields 'index_id' and 'max_sequence'.
pub(crate) fn config_for<S: Store>(
    alloc: Global,
    folders: &FolderMap<Replica<S>>,
    other: DeviceId,
) -> Result<Vec<Announced>, AllocError>
    ensures { IfOk result (λ named. named.items ≡ config_of other folders.now) }
{
    let mut named = Vec::new(alloc);
    for (folder, replica) in folders.iter() {
        name_in(&mut named, alloc, folder, replica, other)?;
    }
    Ok(named)
}

// Adds what it says of the folder, if the other device shares it.
fn name_in<S: Store>(
    named: &mut Vec<Announced>,
    alloc: Global,
    folder: &FolderName,
    replica: &Replica<S>,
    other: DeviceId,
) -> Result<(), AllocError>
    ensures { OnOk result (named.new.items ≡ named.old.items ++ said_of other (folder.now, replica.now)) }
{
    if is_shared_with(replica, other) {
        named.push(announced(alloc, folder, replica, other)?)?;
    }
    Ok(())
}

/// Whether the other device shares the folder.
pub(crate) fn is_shared_with<S: Store>(replica: &Replica<S>, other: DeviceId) -> bool
    ensures { result ≡ is_shared_with other replica.now.tables }
{
    replica.others().iter().any(|device| *device == other)
}

// What it says of one folder.
fn announced<S: Store>(
    alloc: Global,
    folder: &FolderName,
    replica: &Replica<S>,
    other: DeviceId,
) -> Result<Announced, AllocError>
    ensures { IfOk result (λ one. one ≡ announced other folder.now replica.now.tables) }
{
    let index = replica.index();
    let (known_id, known_sequence) = known_point(replica, other);
    Ok(Announced {
        folder: folder.copy(alloc)?,
        index_id: index.id().number(),
        sequence: index.max_sequence(),
        known_id,
        known_sequence,
    })
}

// The point of the view of the other device's index, (0, 0) before anything was known of it.
fn known_point<S: Store>(replica: &Replica<S>, other: DeviceId) -> (u64, u64)
    ensures { result ≡ ((view_of replica.now.tables other).id, (view_of replica.now.tables other).sequence) }
{
    match replica.view(other) {
        Some(view) => view.point(),
        None => (0, 0),
    }
}
