//! What a device does under its guard: under a ticket that its seat draws, and then the seat tells the history of the event.
ghost use Rattle.std.specs.Prelude.{ℕ, IfErr, None, Some};
ghost use Rattle.bep_history.specs.Chair.{IsNamed};
ghost use Rattle.bep_log.specs.Acts.{LogsIn, MakesIn};
ghost use Rattle.bep_machine.specs.declared.step.Step.TheVariants as Step;
ghost use Rattle.bep_machine.specs.Local.{ScanRow};
ghost use Rattle.bep_machine.specs.Pull.{FinishRow, StartPullRow};
ghost use Rattle.bep_peer.specs.Within.{CommitsWithin};
ghost use Rattle.bep_run.specs.inner.Tickets.{IsNew, IsNotOld};

use crate::Origin;
use crate::kept_peer::KeptPeer;
use bep_folder::ScanResult;
use bep_history::History;
use bep_log::LogError;
use bep_machine::Moved;
use bep_record::{FolderName, Name};
use bep_store::Store;
use std::sync::Wait;

impl<S: Store, O: Origin> KeptPeer<S, O> {
    // Looks at the name and records what it finds, as `LoggedPeer::scan` does.
    pub(crate) fn scan<R: Wait>(
        &mut self,
        rt: &R,
        history: &History,
        folder: &FolderName,
        name: &Name,
    ) -> Result<Moved, LogError>
        requires { IsNamed O.table history.now.table.shared.table_id }
        ensures logs { (ticket : ℕ) × IsNew O.table self.old.last ticket × LogsIn None folder.now (MakesIn folder.now (ScanRow self.old.now.number name.now)) (Step.Scan self.old.now.number folder.now name.now) ticket self.old self.new result }
        ensures only { IfErr result (IsNotOld O.table) }
    {
        let ticket = self.seat.draw(rt, history);
        let before = self.logged.log().len();
        let answer = self.logged.scan(ticket, folder, name);
        self.seat.tell(history, self.logged.log().get(before));
        answer
    }

    // Records what a scan found, as `LoggedPeer::scan_commit` does.
    pub(crate) fn scan_commit<R: Wait>(
        &mut self,
        rt: &R,
        history: &History,
        folder: &FolderName,
        scan: ScanResult,
    ) -> Result<Moved, LogError>
        requires { IsNamed O.table history.now.table.shared.table_id }
        ensures logs { (ticket : ℕ) × IsNew O.table self.old.last ticket × LogsIn None folder.now (CommitsWithin folder.now scan) (Step.Scan self.old.now.number folder.now scan.name) ticket self.old self.new result }
        ensures only { IfErr result (IsNotOld O.table) }
    {
        let ticket = self.seat.draw(rt, history);
        let before = self.logged.log().len();
        let answer = self.logged.scan_commit(ticket, folder, scan);
        self.seat.tell(history, self.logged.log().get(before));
        answer
    }

    // Begins a pull of the name, as `LoggedPeer::pull` does.
    pub(crate) fn pull<R: Wait>(
        &mut self,
        rt: &R,
        history: &History,
        folder: &FolderName,
        name: &Name,
    ) -> Result<Moved, LogError>
        requires { IsNamed O.table history.now.table.shared.table_id }
        ensures logs { (ticket : ℕ) × IsNew O.table self.old.last ticket × LogsIn None folder.now (MakesIn folder.now (λ _. StartPullRow self.old.now.number name.now)) (Step.StartPull self.old.now.number folder.now name.now) ticket self.old self.new result }
        ensures only { IfErr result (IsNotOld O.table) }
    {
        let ticket = self.seat.draw(rt, history);
        let before = self.logged.log().len();
        let answer = self.logged.pull(ticket, folder, name);
        self.seat.tell(history, self.logged.log().get(before));
        answer
    }

    // Ends the name's pull, as `LoggedPeer::finish` does.
    pub(crate) fn finish<R: Wait>(
        &mut self,
        rt: &R,
        history: &History,
        folder: &FolderName,
        name: &Name,
    ) -> Result<Moved, LogError>
        requires { IsNamed O.table history.now.table.shared.table_id }
        ensures logs { (ticket : ℕ) × IsNew O.table self.old.last ticket × LogsIn (Some name.now) folder.now (MakesIn folder.now (FinishRow self.old.now.number name.now)) (Step.Finish self.old.now.number folder.now name.now) ticket self.old self.new result }
        ensures only { IfErr result (IsNotOld O.table) }
    {
        let ticket = self.seat.draw(rt, history);
        let before = self.logged.log().len();
        let answer = self.logged.finish(ticket, folder, name);
        self.seat.tell(history, self.logged.log().get(before));
        answer
    }
}
