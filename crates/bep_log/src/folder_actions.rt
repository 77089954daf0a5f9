//! What a device does with one of its folders alone, under a ticket: a user's changes, scans, pulls, override and revert.
//!
//! Each call refuses `TicketOld` where the ticket isn't above the last one, and then `LogFull` where the log has 65536
//! events; then it refuses what the device's call refuses. What is done, and a conflict copy that was kept before a failure,
//! adds one event to the log, the one that happened. Anything else adds none, and leaves the last ticket and all tables.
ghost use Rattle.std.specs.Prelude.{None, Some};
ghost use Rattle.bep_log.specs.Acts.{LogsIn, MakesIn};
ghost use Rattle.bep_machine.specs.declared.step.Step.TheVariants as Step;
ghost use Rattle.bep_machine.specs.Local.{EditRow, OverrideRow, RemoveRow, RevertRow, ScanRow};
ghost use Rattle.bep_machine.specs.Pull.{FinishRow, StartPullRow};
ghost use Rattle.bep_peer.specs.Within.{CommitsWithin};

use crate::local::Local;
use crate::{LogError, LoggedPeer};
use bep_folder::ScanResult;
use bep_machine::Moved;
use bep_record::{FolderName, Name, Node};
use bep_store::Store;

impl<S: Store> LoggedPeer<S> {
    /// Gives the name this node in the folder, as `Peer::edit` does.
    pub fn edit(
        &mut self,
        ticket: u64,
        folder: &FolderName,
        name: &Name,
        node: &Node,
    ) -> Result<Moved, LogError>
        ensures logs { LogsIn None folder.now (MakesIn folder.now (EditRow name.now node.now)) (Step.Edit self.old.now.number folder.now name.now node.now) ticket self.old self.new result }
    {
        self.act(ticket, folder, Local::Edit(name, node))
    }

    /// Takes the name's node away in the folder, as `Peer::remove` does.
    pub fn remove(
        &mut self,
        ticket: u64,
        folder: &FolderName,
        name: &Name,
    ) -> Result<Moved, LogError>
        ensures logs { LogsIn None folder.now (MakesIn folder.now (RemoveRow name.now)) (Step.Remove self.old.now.number folder.now name.now) ticket self.old self.new result }
    {
        self.act(ticket, folder, Local::Remove(name))
    }

    /// Looks at the name in the folder and records what it finds, as `Peer::scan` does. `Unchanged` is logged too.
    pub fn scan(&mut self, ticket: u64, folder: &FolderName, name: &Name) -> Result<Moved, LogError>
        ensures logs { LogsIn None folder.now (MakesIn folder.now (ScanRow self.old.now.number name.now)) (Step.Scan self.old.now.number folder.now name.now) ticket self.old self.new result }
    {
        self.act(ticket, folder, Local::Scan(name))
    }

    /// Records what a scan found in the folder, as `Peer::scan_commit` does. `Unchanged` is logged too. `Stale` is no step.
    pub fn scan_commit(
        &mut self,
        ticket: u64,
        folder: &FolderName,
        scan: ScanResult,
    ) -> Result<Moved, LogError>
        ensures logs { LogsIn None folder.now (CommitsWithin folder.now scan) (Step.Scan self.old.now.number folder.now scan.name) ticket self.old self.new result }
    {
        self.act(ticket, folder, Local::Commit(scan))
    }

    /// Begins a pull of the record that the device wants of the name, as `Peer::pull` does.
    pub fn pull(&mut self, ticket: u64, folder: &FolderName, name: &Name) -> Result<Moved, LogError>
        ensures logs { LogsIn None folder.now (MakesIn folder.now (λ _. StartPullRow self.old.now.number name.now)) (Step.StartPull self.old.now.number folder.now name.now) ticket self.old self.new result }
    {
        self.act(ticket, folder, Local::Pull(name))
    }

    /// Ends the name's pull, as `Peer::finish` does. Where it kept a copy under the conflict name and then failed, the event
    /// tells so.
    pub fn finish(
        &mut self,
        ticket: u64,
        folder: &FolderName,
        name: &Name,
    ) -> Result<Moved, LogError>
        ensures logs { LogsIn (Some name.now) folder.now (MakesIn folder.now (FinishRow self.old.now.number name.now)) (Step.Finish self.old.now.number folder.now name.now) ticket self.old self.new result }
    {
        self.act(ticket, folder, Local::Finish(name))
    }

    /// Lets the own record win over the one that is chosen for the name, as `Peer::override_one` does.
    pub fn override_one(
        &mut self,
        ticket: u64,
        folder: &FolderName,
        name: &Name,
    ) -> Result<Moved, LogError>
        ensures logs { LogsIn None folder.now (MakesIn folder.now (λ _. OverrideRow self.old.now.number name.now)) (Step.Override self.old.now.number folder.now name.now) ticket self.old self.new result }
    {
        self.act(ticket, folder, Local::Override(name))
    }

    /// Gives up the device's own change of the name, as `Peer::revert_one` does.
    pub fn revert_one(
        &mut self,
        ticket: u64,
        folder: &FolderName,
        name: &Name,
    ) -> Result<Moved, LogError>
        ensures logs { LogsIn None folder.now (MakesIn folder.now (RevertRow self.old.now.number name.now)) (Step.Revert self.old.now.number folder.now name.now) ticket self.old self.new result }
    {
        self.act(ticket, folder, Local::Revert(name))
    }
}
