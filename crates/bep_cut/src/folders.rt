//! The folders of a cluster, with what each device has of them.
ghost use Rattle.std.specs.Prelude.{◌≡◌, IfOk, OnOk, map};
ghost use Rattle.std.specs.List.{AllByRecursion};
ghost use Rattle.bep_cut.specs.Cut.{AreSoundIn, seen, folder_cut, folders_of};
ghost use Rattle.bep_cut.specs.Parts.{CountsAll, faults_of, links_of};

use crate::CutError;
use crate::folder::shares_at;
use crate::names::folder_names;
use bep_peer::Peer;
use bep_record::{FolderName, Items};
use bep_store::Store;
use bep_tables::SharedFolder;
use std::alloc::Global;

// The folders that some device shares, each with what the devices have of it that share it.
pub(crate) fn folders_cut<S: Store>(
    alloc: Global,
    peers: &mut [Peer<S>],
) -> Result<Vec<SharedFolder>, CutError>
    ensures folders { IfOk result (λ made. made.items ≡ map (folder_cut (map seen peers.old)) (folders_of (map seen peers.old))) }
    ensures sound { OnOk result (AllByRecursion (AreSoundIn (map seen peers.old)) (folders_of (map seen peers.old))) }
    ensures seen { map seen peers.new ≡ map seen peers.old }
    ensures linked { links_of peers.new ≡ links_of peers.old }
    ensures counts { CountsAll (map faults_of peers.old) (map faults_of peers.new) result }
{
    let names = folder_names(alloc, peers)?;
    let mut made = Vec::new(alloc);
    for (name, _there) in names.iter() {
        made.push(folder_cut(alloc, peers, name)?)?;
    }
    Ok(made)
}

// The folder, with what each device has of it that shares it.
fn folder_cut<S: Store>(
    alloc: Global,
    peers: &mut [Peer<S>],
    folder: &FolderName,
) -> Result<SharedFolder, CutError>
    ensures folder { IfOk result (λ made. made ≡ folder_cut (map seen peers.old) folder.now) }
    ensures sound { OnOk result (AreSoundIn (map seen peers.old) folder.now) }
    ensures seen { map seen peers.new ≡ map seen peers.old }
    ensures linked { links_of peers.new ≡ links_of peers.old }
    ensures counts { CountsAll (map faults_of peers.old) (map faults_of peers.new) result }
{
    let name = folder.copy(alloc)?;
    let shares = shares_at(alloc, peers, folder)?;
    Ok(SharedFolder {
        folder: name,
        shares: Items::new(shares),
    })
}
