//! What a device does over a link under the guards of both: under a ticket that both seats draw, and then both tell the history
//! of the event.
ghost use Rattle.std.specs.Prelude.{ℕ, IfErr};
ghost use Rattle.bep_history.specs.Chair.{IsNamed};
ghost use Rattle.bep_log.specs.ActsOver.{LogsOver};
ghost use Rattle.bep_log.specs.Over.{announces, asks, begins, delivers};
ghost use Rattle.bep_run.specs.inner.Tickets.{IsNew, IsNotOld};

use crate::Origin;
use crate::kept_link::KeptLink;
use crate::kept_peer::KeptPeer;
use bep_history::History;
use bep_log::LogError;
use bep_machine::Moved;
use bep_record::{FolderName, Name};
use bep_store::Store;
use std::sync::Wait;

impl<S: Store, O: Origin> KeptPeer<S, O> {
    // Begins a session over the link, as `LoggedPeer::begin` does.
    pub(crate) fn begin<R: Wait>(
        &mut self,
        rt: &R,
        history: &History,
        link: &mut KeptLink<O>,
    ) -> Result<Moved, LogError>
        requires { IsNamed O.table history.now.table.shared.table_id }
        ensures logs { (ticket : ℕ) × IsNew O.table self.old.last ticket × IsNew O.table link.old.last ticket × LogsOver begins ticket self.old self.new link.old link.new result }
        ensures only { IfErr result (IsNotOld O.table) }
    {
        // this is called, and twice again, for what it says: each event of a log touches its object
        link.logged.log_replays();
        let ticket = self.seat.draw_both(rt, history, &mut link.seat);
        let before = self.logged.log().len();
        let answer = self.logged.begin(ticket, &mut link.logged);
        self.logged.log_replays();
        link.logged.log_replays();
        self.seat
            .tell_both(history, &mut link.seat, self.logged.log().get(before));
        answer
    }

    // Takes the first message that came over the link, as `LoggedPeer::deliver` does.
    pub(crate) fn deliver<R: Wait>(
        &mut self,
        rt: &R,
        history: &History,
        link: &mut KeptLink<O>,
    ) -> Result<Moved, LogError>
        requires { IsNamed O.table history.now.table.shared.table_id }
        ensures logs { (ticket : ℕ) × IsNew O.table self.old.last ticket × IsNew O.table link.old.last ticket × LogsOver delivers ticket self.old self.new link.old link.new result }
        ensures only { IfErr result (IsNotOld O.table) }
    {
        // this is called, and twice again, for what it says: each event of a log touches its object
        link.logged.log_replays();
        let ticket = self.seat.draw_both(rt, history, &mut link.seat);
        let before = self.logged.log().len();
        let answer = self.logged.deliver(ticket, &mut link.logged);
        self.logged.log_replays();
        link.logged.log_replays();
        self.seat
            .tell_both(history, &mut link.seat, self.logged.log().get(before));
        answer
    }

    // Sends the next records of the folder over the link, as `LoggedPeer::announce` does.
    pub(crate) fn announce<R: Wait>(
        &mut self,
        rt: &R,
        history: &History,
        link: &mut KeptLink<O>,
        folder: &FolderName,
    ) -> Result<Moved, LogError>
        requires { IsNamed O.table history.now.table.shared.table_id }
        ensures logs { (ticket : ℕ) × IsNew O.table self.old.last ticket × IsNew O.table link.old.last ticket × LogsOver (announces folder.now) ticket self.old self.new link.old link.new result }
        ensures only { IfErr result (IsNotOld O.table) }
    {
        // this is called, and twice again, for what it says: each event of a log touches its object
        link.logged.log_replays();
        let ticket = self.seat.draw_both(rt, history, &mut link.seat);
        let before = self.logged.log().len();
        let answer = self.logged.announce(ticket, &mut link.logged, folder);
        self.logged.log_replays();
        link.logged.log_replays();
        self.seat
            .tell_both(history, &mut link.seat, self.logged.log().get(before));
        answer
    }

    // Asks over the link for the next block of the name's pull, as `LoggedPeer::ask` does.
    pub(crate) fn ask<R: Wait>(
        &mut self,
        rt: &R,
        history: &History,
        link: &mut KeptLink<O>,
        folder: &FolderName,
        name: &Name,
    ) -> Result<Moved, LogError>
        requires { IsNamed O.table history.now.table.shared.table_id }
        ensures logs { (ticket : ℕ) × IsNew O.table self.old.last ticket × IsNew O.table link.old.last ticket × LogsOver (asks folder.now name.now) ticket self.old self.new link.old link.new result }
        ensures only { IfErr result (IsNotOld O.table) }
    {
        // this is called, and twice again, for what it says: each event of a log touches its object
        link.logged.log_replays();
        let ticket = self.seat.draw_both(rt, history, &mut link.seat);
        let before = self.logged.log().len();
        let answer = self.logged.ask(ticket, &mut link.logged, folder, name);
        self.logged.log_replays();
        link.logged.log_replays();
        self.seat
            .tell_both(history, &mut link.seat, self.logged.log().get(before));
        answer
    }
}
