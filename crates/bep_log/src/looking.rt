//! What is read of a device's folders. It is no step: it takes no ticket, and logs nothing.
ghost use Rattle.std.specs.Prelude.{◌≡◌};
ghost use Rattle.bep_peer.specs.Contents.{NamesIn, ReadsOutIn};
ghost use Rattle.bep_peer.specs.Member.{Remains, tables_of};
ghost use Rattle.bep_peer.specs.Within.{FindsWithin};

use crate::LoggedPeer;
use bep_map::NameMap;
use bep_peer::PeerError;
use bep_record::{FolderName, Name, Node};
use bep_store::Store;

impl<S: Store> LoggedPeer<S> {
    /// The node that the folder's store has at the name now, as `Peer::look` answers it.
    pub fn look(&mut self, folder: &FolderName, name: &Name) -> Result<Option<Node>, PeerError>
        ensures found { FindsWithin folder.now name.now self.old.now self.new.now result }
        ensures same { tables_of self.new.now ≡ tables_of self.old.now }
        ensures rest { Remains self.old.now self.new.now }
        ensures log { self.new ≡ record self.old { now = self.new.now } }
    {
        self.peer.look(folder, name)
    }

    /// What the folder's store holds, as `Peer::contents` answers it.
    pub fn contents(&mut self, folder: &FolderName) -> Result<NameMap<Node>, PeerError>
        ensures read { ReadsOutIn folder.now self.old.now self.new.now result }
        ensures same { tables_of self.new.now ≡ tables_of self.old.now }
        ensures rest { Remains self.old.now self.new.now }
        ensures log { self.new ≡ record self.old { now = self.new.now } }
    {
        self.peer.contents(folder)
    }

    /// The names of which the folder's store has a node or the device a record, as `Peer::names` answers them.
    pub fn names(&mut self, folder: &FolderName) -> Result<NameMap<()>, PeerError>
        ensures read { NamesIn folder.now self.old.now self.new.now result }
        ensures same { tables_of self.new.now ≡ tables_of self.old.now }
        ensures rest { Remains self.old.now self.new.now }
        ensures log { self.new ≡ record self.old { now = self.new.now } }
    {
        self.peer.names(folder)
    }
}
