//! What a device finds in the files of one of its folders, and records of them.
ghost use Rattle.std.specs.Prelude.{◌≡◌, false, OnOk};
ghost use Rattle.bep_peer.specs.inner.Call.{IsCommitted, IsLooked};
ghost use Rattle.bep_peer.specs.Faults.{HaveSameFaults};
ghost use Rattle.bep_peer.specs.Member.{Remains, tables_of};
ghost use Rattle.bep_peer.specs.Within.{CommitsWithin, FindsWithin, OnlyFolder, TellsFault};

use crate::within::call::Call;
use crate::{Peer, PeerError};
use bep_folder::{FolderError, Replica, ScanResult};
use bep_machine::Moved;
use bep_record::{FolderName, Name, Node};
use bep_store::Store;

impl<S: Store> Peer<S> {
    /// The node that the folder's store has at the name now, a copy of its own. Refuses `NotShared` where the device
    /// doesn't share the folder, and `StoreFault` where its store fails; else only for want of memory. It is no step.
    pub fn look(&mut self, folder: &FolderName, name: &Name) -> Result<Option<Node>, PeerError>
        ensures found { FindsWithin folder.now name.now self.old self.new result }
        ensures same { tables_of self.new ≡ tables_of self.old }
        ensures unfailed { OnOk result (HaveSameFaults self.old self.new) }
        ensures rest { Remains self.old self.new }
        ensures only { OnlyFolder folder.now self.old self.new }
        ensures fault { TellsFault self.new result }
        ensures uncopied { self.new.trace.copied ≡ false }
    {
        self.call(folder, Look { name })
    }

    /// Records what a scan found in the folder, as a scan of the name would now: Unchanged where the own record is clean
    /// against it. Refuses `NotShared` where the device doesn't share the folder, `StoreFault` where its store fails,
    /// `Stale` exactly where the store has another node by now than the one that was found, and then what a scan refuses,
    /// as the table of steps has it. Where it answers `Stale`, no step was made, and nothing changed.
    pub fn scan_commit(&mut self, folder: &FolderName, scan: ScanResult) -> Result<Moved, PeerError>
        ensures commits { CommitsWithin folder.now scan self.old self.new result }
        ensures rest { Remains self.old self.new }
        ensures only { OnlyFolder folder.now self.old self.new }
        ensures fault { TellsFault self.new result }
        ensures uncopied { self.new.trace.copied ≡ false }
    {
        self.call(folder, Commit { scan })
    }
}

// The node at the name.
#[derive(Drop)]
struct Look<'a> {
    name: &'a Name,
}

impl<S: Store> Call<S, Option<Node>> for Look<'_> {
    ghost does = { λ look. IsLooked look.name.now };

    fn make(self, replica: &mut Replica<S>) -> Result<Option<Node>, FolderError> {
        replica.look(self.name)
    }
}

// The record of what was found.
#[derive(Drop)]
struct Commit {
    scan: ScanResult,
}

impl<S: Store> Call<S, Moved> for Commit {
    ghost does = { λ commit. IsCommitted commit.scan };

    fn make(self, replica: &mut Replica<S>) -> Result<Moved, FolderError> {
        replica.commit(self.scan)
    }
}
