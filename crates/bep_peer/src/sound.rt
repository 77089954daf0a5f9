//! That a device is sound by its type. The functions change nothing; their contracts are the facts.
ghost use Rattle.std.specs.List.{AllByRecursion};
ghost use Rattle.std.specs.FinMap as map;
ghost use Rattle.bep_peer.specs.Session.{IsSession};
ghost use Rattle.bep_peer.specs.Sound.{IsSoundHeld, IsSoundMember};

use crate::{Peer, Session};
use bep_folder::Replica;
use bep_map::{DeviceMap, FolderMap};
use bep_store::Store;

impl<S: Store> Peer<S> {
    /// The device is sound, whatever calls made it. So is what it has of each folder (`Replica::tables_are_sound`), and
    /// each session. A session names only folders that both devices share, and none before the ClusterConfig came, and
    /// at most 64 of its requests are outstanding. It changes nothing, and takes no memory.
    pub fn member_is_sound(&self)
        ensures { IsSoundMember self.now }
    {
        self.number.number();
        folders_are_sound(&self.folders);
        sessions_are_sound(&self.sessions);
    }
}

fn folders_are_sound<S: Store>(folders: &FolderMap<Replica<S>>)
    ensures { AllByRecursion IsSoundHeld (map.entries folders.now) }
{
    for shared in folders.iter() {
        shared.1.tables_are_sound();
    }
}

fn sessions_are_sound(sessions: &DeviceMap<Session>)
    ensures { AllByRecursion IsSession (map.values sessions.now) }
{
    for session in sessions.values() {
        session.epoch();
    }
}
