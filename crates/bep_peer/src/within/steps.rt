//! What a device does with one of its folders alone: a user's changes, scans, pulls, override and revert.
ghost use Rattle.std.specs.Prelude.{◌≡◌, ◌↔◌, true, false, IsErr, IsErrOf};
ghost use Rattle.bep_machine.specs.Local.{EditRow, OverrideRow, RemoveRow, RevertRow, ScanRow};
ghost use Rattle.bep_machine.specs.Pull.{FinishRow, StartPullRow};
ghost use Rattle.bep_peer.specs.inner.Call.{IsStepped};
ghost use Rattle.bep_peer.specs.Member.{Remains, tables_of};
ghost use Rattle.bep_peer.specs.PeerError.{Gives};
ghost use Rattle.bep_peer.specs.Unhidden.{IsUnrefusedWithin};
ghost use Rattle.bep_peer.specs.Within.{GainsCopyIn, OnlyFolder, StepWithin, TellsFault};

use crate::within::call::Call;
use crate::{Peer, PeerError};
use bep_folder::{FolderError, Replica};
use bep_machine::Moved;
use bep_record::{FolderName, Name, Node};
use bep_store::Store;

impl<S: Store> Peer<S> {
    /// Gives the name this node in the folder, as a user does; no record changes before a scan. Refuses `NotShared` where
    /// the device doesn't share the folder, and `StoreFault` where its store fails; else only for want of memory.
    pub fn edit(
        &mut self,
        folder: &FolderName,
        name: &Name,
        node: &Node,
    ) -> Result<Moved, PeerError>
        ensures step { Gives (StepWithin folder.now (EditRow name.now node.now self.new.trace.failed) self.old) self.new result }
        ensures rest { Remains self.old self.new }
        ensures only { OnlyFolder folder.now self.old self.new }
        ensures fault { TellsFault self.new result }
        ensures uncopied { self.new.trace.copied ≡ false }
    {
        self.call(folder, Step::Edit(name, node))
    }

    /// Takes the name's node away in the folder, as a user does; no record changes before a scan. Refuses `NotShared` where
    /// the device doesn't share the folder, `StoreFault` where its store fails, and `NothingToDo` where the name has no
    /// node; else only for want of memory.
    pub fn remove(&mut self, folder: &FolderName, name: &Name) -> Result<Moved, PeerError>
        ensures step { Gives (StepWithin folder.now (RemoveRow name.now self.new.trace.failed) self.old) self.new result }
        ensures rest { Remains self.old self.new }
        ensures only { OnlyFolder folder.now self.old self.new }
        ensures fault { TellsFault self.new result }
        ensures uncopied { self.new.trace.copied ≡ false }
    {
        self.call(folder, Step::Remove(name))
    }

    /// Looks at the name in the folder and records what it finds, as `look`, `ScanResult::plain` and `scan_commit` do one after
    /// another where nothing comes between. Refuses `NotShared` where the device doesn't share the folder, and then what a
    /// scan refuses, as the table of steps has it. What the store has at hand is hashed only once a record is put.
    pub fn scan(&mut self, folder: &FolderName, name: &Name) -> Result<Moved, PeerError>
        ensures step { Gives (StepWithin folder.now (ScanRow self.old.number name.now self.new.trace.failed) self.old) self.new result }
        ensures rest { Remains self.old self.new }
        ensures only { OnlyFolder folder.now self.old self.new }
        ensures fault { TellsFault self.new result }
        ensures uncopied { self.new.trace.copied ≡ false }
    {
        self.call(folder, Step::Scan(name))
    }

    /// Begins a pull of the record that the device wants of the name. Refuses `NotShared` where the device doesn't share the
    /// folder, and then `NotNeeded`, `KindForbids` and `PullsFull`, as the table of steps has them; else only for want of
    /// memory, which hides none of these.
    pub fn pull(&mut self, folder: &FolderName, name: &Name) -> Result<Moved, PeerError>
        ensures step { Gives (StepWithin folder.now (StartPullRow self.old.number name.now) self.old) self.new result }
        ensures unhidden { IsErrOf result PeerError.Memory → IsUnrefusedWithin folder.now (StartPullRow self.old.number name.now) self.old }
        ensures rest { Remains self.old self.new }
        ensures only { OnlyFolder folder.now self.old self.new }
        ensures fault { TellsFault self.new result }
        ensures uncopied { self.new.trace.copied ≡ false }
    {
        self.call(folder, Step::Pull(name))
    }

    /// Ends the name's pull, and gives the name its file; a file of the device's own that loses is first kept under its
    /// conflict name. A pull whose record isn't wanted any more goes: Dropped. Refuses `NotShared` where the device doesn't
    /// share the folder, and then what the folder refuses, as the table of steps has it. After an error all is as before,
    /// save a conflict copy, of which the trace tells.
    pub fn finish(&mut self, folder: &FolderName, name: &Name) -> Result<Moved, PeerError>
        ensures step { Gives (StepWithin folder.now (FinishRow self.old.number name.now self.new.trace.failed) self.old) self.new result }
        ensures rest { Remains self.old self.new }
        ensures only { OnlyFolder folder.now self.old self.new }
        ensures fault { TellsFault self.new result }
        ensures copied { (self.new.trace.copied ≡ true) ↔ GainsCopyIn folder.now name.now self.old self.new }
        ensures kept { IsErr result → self.new.trace.copied ≡ false → tables_of self.new ≡ tables_of self.old }
    {
        self.call(folder, Step::Finish(name))
    }

    /// Lets the own record win over the one that is chosen for the name, as a user of a send-only folder does. Refuses
    /// `NotShared` where the device doesn't share the folder, and then what the folder refuses, as the table of steps has it.
    ///
    /// Syncthing, 'Folder Types', in this project's profile.
    pub fn override_one(&mut self, folder: &FolderName, name: &Name) -> Result<Moved, PeerError>
        ensures step { Gives (StepWithin folder.now (OverrideRow self.old.number name.now) self.old) self.new result }
        ensures rest { Remains self.old self.new }
        ensures only { OnlyFolder folder.now self.old self.new }
        ensures fault { TellsFault self.new result }
        ensures uncopied { self.new.trace.copied ≡ false }
    {
        self.call(folder, Step::Override(name))
    }

    /// Gives up the device's own change of the name, as a user of a receive-only folder does. Refuses `NotShared` where the
    /// device doesn't share the folder, and then what the folder refuses, as the table of steps has it.
    ///
    /// Syncthing, 'Folder Types', in this project's profile.
    pub fn revert_one(&mut self, folder: &FolderName, name: &Name) -> Result<Moved, PeerError>
        ensures step { Gives (StepWithin folder.now (RevertRow self.old.number name.now self.new.trace.failed) self.old) self.new result }
        ensures rest { Remains self.old self.new }
        ensures only { OnlyFolder folder.now self.old self.new }
        ensures fault { TellsFault self.new result }
        ensures uncopied { self.new.trace.copied ≡ false }
    {
        self.call(folder, Step::Revert(name))
    }
}

// The calls of a folder that are steps.
#[derive(Drop)]
enum Step<'a> {
    Edit(&'a Name, &'a Node),
    Remove(&'a Name),
    Scan(&'a Name),
    Pull(&'a Name),
    Finish(&'a Name),
    Override(&'a Name),
    Revert(&'a Name),
}

impl<S: Store> Call<S, Moved> for Step<'_> {
    ghost does = { IsStepped };

    fn make(self, replica: &mut Replica<S>) -> Result<Moved, FolderError> {
        match self {
            Step::Edit(name, node) => replica.edit(name, node),
            Step::Remove(name) => replica.remove(name),
            Step::Scan(name) => replica.scan(name),
            Step::Pull(name) => replica.start_pull(name),
            Step::Finish(name) => replica.finish(name),
            Step::Override(name) => replica.override_one(name),
            Step::Revert(name) => replica.revert_one(name),
        }
    }
}
