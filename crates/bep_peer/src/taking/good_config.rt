//! Whether a ClusterConfig can be taken, and what is sent then of each folder.
ghost use Rattle.std.specs.Prelude.{◌≡◌, ◌↔◌, Some, IsSome, IsTrue, IfOk, OnOk};
ghost use Rattle.std.specs.FinMap as map;
ghost use Rattle.bep_machine.specs.Exchange.{IsGoodConfig, NamesShared, cursors_for, with_cursor};
ghost use Rattle.bep_machine.specs.Peer.{Session as SessionOf};
ghost use Rattle.bep_peer.specs.Member.{tables_in, tables_of};

use crate::Peer;
use crate::over::{cursor_for, is_shared_with, names_once};
use bep_folder::Replica;
use bep_index::Plan;
use bep_machine::Announced;
use bep_map::FolderMap;
use bep_record::DeviceId;
use bep_store::Store;
use std::alloc::{AllocError, Global};

impl<S: Store> Peer<S> {
    // Whether the ClusterConfig can be taken: the first of the session, which names each folder once, and only such as both
    // devices share.
    pub(crate) fn can_take(&self, other: DeviceId, named: &[Announced]) -> bool
        ensures value { (session : SessionOf) → map.get self.now.sessions other ≡ Some session → (IsTrue result ↔ IsGoodConfig other session (tables_of self.now) named.now) }
        ensures there { IsTrue result → IsSome (map.get self.now.sessions other) }
    {
        match self.sessions.get(other) {
            Some(session) => {
                !session.is_configured() && names_once(named) && self.shares_all(other, named)
            }
            None => false,
        }
    }

    // Whether the device shares each of the folders with the other one.
    fn shares_all(&self, other: DeviceId, named: &[Announced]) -> bool
        ensures { IsTrue result ↔ NamesShared other (tables_of self.now) named.now }
    {
        for one in named {
            if !self.shares(&one.folder, other) {
                return false;
            }
        }
        true
    }
}

// The cursor of each folder that is named.
pub(crate) fn cursors_for<S: Store>(
    alloc: Global,
    folders: &FolderMap<Replica<S>>,
    named: &[Announced],
) -> Result<FolderMap<Plan>, AllocError>
    ensures { IfOk result (λ cursors. cursors ≡ cursors_for named.now (tables_in folders.now) map.empty) }
{
    let mut cursors = FolderMap::new(alloc);
    for one in named {
        add_cursor(alloc, &mut cursors, folders, one)?;
    }
    Ok(cursors)
}

// Adds the folder's cursor, if the device has the folder.
fn add_cursor<S: Store>(
    alloc: Global,
    cursors: &mut FolderMap<Plan>,
    folders: &FolderMap<Replica<S>>,
    one: &Announced,
) -> Result<(), AllocError>
    ensures { OnOk result (cursors.new ≡ with_cursor one.now (map.get (tables_in folders.now) one.now.folder) cursors.old) }
{
    if let Some(replica) = folders.get(&one.folder) {
        cursors.insert(one.folder.copy(alloc)?, cursor_for(replica.index(), one))?;
    }
    Ok(())
}
