//! The folders that some device shares.
ghost use Rattle.std.specs.Prelude.{◌≡◌, IfOk, OnOk, fold, map};
ghost use Rattle.std.specs.FinMap.{empty, keys};
ghost use Rattle.bep_tables.specs.Names.{with_names};
ghost use Rattle.bep_cut.specs.Cut.{seen, with_folders, folders_of};

use bep_map::FolderMap;
use bep_peer::{Peer, tables_are_found};
use bep_store::Store;
use std::alloc::{AllocError, Global};

/// The names of the folders that some device shares, or want of memory.
pub fn folder_names<S: Store>(alloc: Global, peers: &[Peer<S>]) -> Result<FolderMap<()>, AllocError>
    ensures { IfOk result (λ made. made ≡ fold with_folders empty (map seen peers.now)) }
{
    let mut names = FolderMap::new(alloc);
    for peer in peers {
        add_folders(&mut names, alloc, peer)?;
    }
    Ok(names)
}

fn add_folders<S: Store>(
    names: &mut FolderMap<()>,
    alloc: Global,
    peer: &Peer<S>,
) -> Result<(), AllocError>
    ensures { OnOk result (names.new ≡ with_folders names.old (seen peer.now)) }
{
    tables_are_found();
    add_names(names, alloc, peer.folders())
}

fn add_names<V>(
    names: &mut FolderMap<()>,
    alloc: Global,
    held: &FolderMap<V>,
) -> Result<(), AllocError>
    ensures { OnOk result (names.new ≡ with_names names.old (keys held.now)) }
{
    for (name, _value) in held.iter() {
        names.insert(name.copy(alloc)?, ())?;
    }
    Ok(())
}
