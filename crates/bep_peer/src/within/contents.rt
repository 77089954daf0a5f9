//! What is read of a device's folders: what their stores hold, and which names are there.
ghost use Rattle.std.specs.Prelude.{◌≡◌, false};
ghost use Rattle.bep_peer.specs.inner.Call.{IsListed, IsReadOut};
ghost use Rattle.bep_peer.specs.Contents.{NamesIn, ReadsOutIn};
ghost use Rattle.bep_peer.specs.Member.{Remains, tables_of};
ghost use Rattle.bep_peer.specs.Within.{TellsFault};

use crate::within::call::Call;
use crate::{Peer, PeerError};
use bep_folder::{FolderError, Replica};
use bep_map::NameMap;
use bep_record::{FolderName, Node};
use bep_store::Store;

impl<S: Store> Peer<S> {
    /// What the folder's store holds, copies of its own. Refuses `NotShared` where the device doesn't share the folder, and
    /// `StoreFault` where its store fails to list its names or to read one; else only for want of memory. It is no step.
    pub fn contents(&mut self, folder: &FolderName) -> Result<NameMap<Node>, PeerError>
        ensures read { ReadsOutIn folder.now self.old self.new result }
        ensures same { tables_of self.new ≡ tables_of self.old }
        ensures rest { Remains self.old self.new }
        ensures fault { TellsFault self.new result }
        ensures uncopied { self.new.trace.copied ≡ false }
    {
        self.call(folder, Contents)
    }

    /// The names of which the folder's store has a node or the device a record. Refuses `NotShared` where the device doesn't
    /// share the folder, and `StoreFault` where its store fails to list its names; else only for want of memory. It is no
    /// step.
    pub fn names(&mut self, folder: &FolderName) -> Result<NameMap<()>, PeerError>
        ensures read { NamesIn folder.now self.old self.new result }
        ensures same { tables_of self.new ≡ tables_of self.old }
        ensures rest { Remains self.old self.new }
        ensures fault { TellsFault self.new result }
        ensures uncopied { self.new.trace.copied ≡ false }
    {
        self.call(folder, Names)
    }
}

// All that the store holds.
#[derive(Drop)]
struct Contents;

impl<S: Store> Call<S, NameMap<Node>> for Contents {
    ghost does = { λ _. IsReadOut };

    fn make(self, replica: &mut Replica<S>) -> Result<NameMap<Node>, FolderError> {
        replica.contents()
    }
}

// The names that are there.
#[derive(Drop)]
struct Names;

impl<S: Store> Call<S, NameMap<()>> for Names {
    ghost does = { λ _. IsListed };

    fn make(self, replica: &mut Replica<S>) -> Result<NameMap<()>, FolderError> {
        replica.names()
    }
}
