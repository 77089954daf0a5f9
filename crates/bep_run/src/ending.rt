//! The cut with which a running cluster ends. Where there is a history, the seats of all devices and links come together: so
//! they know one history, of which each log is its object's part.
ghost use Rattle.std.specs.Prelude.{◌≡◌, ◌+◌, Contains, IfErr, IfOk, OnOk, length, map, true};
ghost use Rattle.bep_history.specs.Chair.{IsNamed};
ghost use Rattle.bep_history.specs.declared.view.Row.{Row};
ghost use Rattle.bep_run.specs.inner.Ending.{KnowsDevices, KnowsLinks};
ghost use Rattle.bep_run.specs.inner.Kept.{DoFit};
ghost use Rattle.bep_run.specs.Origin.{AreFirst, BeginsAs, IsAll, count_of, devices_in, links_in};
ghost use Rattle.bep_run.specs.Based.{base_seen};
ghost use Rattle.bep_run.specs.Quiet.{AreStill, device_logs, link_logs, quiet_logs};
ghost use Rattle.bep_run.specs.Why.{IsOfCopies, IsOfPlaces};
ghost use Rattle.bep_run_cut.specs.RunCut.{links_base};

use crate::shared::{Held, Joint};
use crate::{Locked, Origin};
use bep_history::{History, Place, parts_fit};
use bep_log::{LinkCopy, LogError, PeerCopy};
use bep_machine::Refusal;
use bep_run_check::all_are_logged;
use bep_run_cut::RunCut;
use bep_store::Store;
use std::alloc::Global;

impl<S: Store, O: Origin> Locked<S, O> {
    /// Copies of all devices and links with their logs, as `take_cut` makes them of a cluster that is over: it is used up,
    /// after a refusal too. Refuses what `take_cut` refuses. Where it is known how all began, and there is a history, the logs
    /// fit.
    #[tactic(auto, using(crate::proofs::Begins::begins_so, crate::proofs::Begins::copies_are_all, crate::proofs::Still::still_so, crate::proofs::Endings::logs_fit, crate::proofs::Endings::knows_still))]
    pub(crate) fn into_cut(self) -> Result<RunCut, LogError>
        ensures begins { IfOk result (λ run. BeginsAs O.start run.bases) }
        ensures still { IfOk result (λ run. AreStill O.start run.logs) }
        ensures fit { IfOk result (λ run. DoFit O.start O.table run.logs) }
        ensures only { IfErr result (IsOfCopies S.faults) }
    {
        let alloc = self.alloc;
        let (devices, links, history) = self.into_parts();
        let mut whole = history.fresh();
        let peers = end_devices(alloc, &history, &mut whole, devices)?;
        let links = end_links(alloc, &history, &mut whole, links)?;
        history.learn(&mut whole);
        match RunCut::of(alloc, peers, links)? {
            Some(run) => {
                // these are called for what they say of the logs
                parts_fit();
                all_are_logged(run.logs());
                Ok(run)
            }
            None => Err(LogError::Refused(Refusal::NotShared)),
        }
    }
}

// Copies of the devices, each of which stands at its place, whose seats come together.
#[tactic(auto, using(crate::proofs::Places::none_first, crate::proofs::Endings::knows_none))]
fn end_devices<S: Store, O: Origin>(
    alloc: Global,
    history: &History,
    whole: &mut Place,
    devices: Vec<Held<S, O>>,
) -> Result<Vec<PeerCopy>, LogError>
    requires named { IsNamed O.table history.now.table.shared.table_id }
    requires own { whole.old.table_id ≡ history.now.table.shared.table_id }
    ensures own { whole.new.table_id ≡ whole.old.table_id }
    ensures first { IfOk result (λ copies. AreFirst (devices_in O.start) (map base_seen copies.items)) }
    ensures all { IfOk result (λ copies. length copies.items ≡ length devices.items) }
    ensures quiet { IfOk result (λ copies. quiet_logs O.start (device_logs copies.items) ≡ true) }
    ensures knows { IfOk result (λ copies. KnowsDevices O.table copies.items whole.new.me.0.rows) }
    ensures only { IfErr result (IsOfCopies S.faults) }
{
    let mut copies = Vec::with_capacity(alloc, devices.len())?;
    for held in devices {
        end_device(history, whole, &mut copies, held)?;
    }
    Ok(copies)
}

// Adds a copy of the device that stands behind those of which there are copies, and its seat comes to the others.
#[tactic(auto, using(crate::proofs::Begins::copied_with, crate::proofs::Still::quiet_with, crate::proofs::Endings::knows_with, crate::proofs::Endings::still_has))]
fn end_device<S: Store, O: Origin>(
    history: &History,
    whole: &mut Place,
    copies: &mut Vec<PeerCopy>,
    held: Held<S, O>,
) -> Result<(), LogError>
    requires named { IsNamed O.table history.now.table.shared.table_id }
    requires own { whole.old.table_id ≡ history.now.table.shared.table_id }
    requires first { AreFirst (devices_in O.start) (map base_seen copies.old.items) }
    requires quiet { quiet_logs O.start (device_logs copies.old.items) ≡ true }
    requires knows { KnowsDevices O.table copies.old.items whole.old.me.0.rows }
    ensures own { whole.new.table_id ≡ whole.old.table_id }
    ensures first { OnOk result (AreFirst (devices_in O.start) (map base_seen copies.new.items)) }
    ensures one_more { OnOk result (length copies.new.items ≡ length copies.old.items + 1) }
    ensures quiet { OnOk result (quiet_logs O.start (device_logs copies.new.items) ≡ true) }
    ensures knows { OnOk result (KnowsDevices O.table copies.new.items whole.new.me.0.rows) }
    ensures only { IfErr result (IsOfCopies S.faults) }
{
    let (copy, seat) = held.into_kept().into_copy(copies.len())?;
    seat.give(history, whole);
    copies.push(copy)?;
    Ok(())
}

// Copies of the links, each of which stands at its place, whose seats come together.
#[tactic(auto, using(crate::proofs::Places::none_first, crate::proofs::Endings::knows_none))]
fn end_links<O: Origin>(
    alloc: Global,
    history: &History,
    whole: &mut Place,
    links: Vec<Joint<O>>,
) -> Result<Vec<LinkCopy>, LogError>
    requires named { IsNamed O.table history.now.table.shared.table_id }
    requires own { whole.old.table_id ≡ history.now.table.shared.table_id }
    ensures own { whole.new.table_id ≡ whole.old.table_id }
    ensures first { IfOk result (λ copies. AreFirst (links_in O.start) (links_base copies.items)) }
    ensures all { IfOk result (λ copies. length copies.items ≡ length links.items) }
    ensures quiet { IfOk result (λ copies. quiet_logs O.start (link_logs copies.items) ≡ true) }
    ensures knows { IfOk result (λ copies. KnowsLinks O.table copies.items whole.new.me.0.rows) }
    ensures still { (one : Row) → Contains whole.old.me.0.rows one → Contains whole.new.me.0.rows one }
    ensures only { IfErr result IsOfPlaces }
{
    let mut copies = Vec::with_capacity(alloc, links.len())?;
    for joint in links {
        end_link(history, whole, &mut copies, joint)?;
    }
    Ok(copies)
}

// Adds a copy of the link that stands behind those of which there are copies, and its seat comes to the others.
#[tactic(auto, using(crate::proofs::Begins::copied_with, crate::proofs::Still::quiet_with, crate::proofs::Endings::knows_with, crate::proofs::Endings::still_has))]
fn end_link<O: Origin>(
    history: &History,
    whole: &mut Place,
    copies: &mut Vec<LinkCopy>,
    joint: Joint<O>,
) -> Result<(), LogError>
    requires named { IsNamed O.table history.now.table.shared.table_id }
    requires own { whole.old.table_id ≡ history.now.table.shared.table_id }
    requires first { AreFirst (links_in O.start) (links_base copies.old.items) }
    requires quiet { quiet_logs O.start (link_logs copies.old.items) ≡ true }
    requires knows { KnowsLinks O.table copies.old.items whole.old.me.0.rows }
    ensures own { whole.new.table_id ≡ whole.old.table_id }
    ensures first { OnOk result (AreFirst (links_in O.start) (links_base copies.new.items)) }
    ensures one_more { OnOk result (length copies.new.items ≡ length copies.old.items + 1) }
    ensures quiet { OnOk result (quiet_logs O.start (link_logs copies.new.items) ≡ true) }
    ensures knows { OnOk result (KnowsLinks O.table copies.new.items whole.new.me.0.rows) }
    ensures still { (one : Row) → Contains whole.old.me.0.rows one → Contains whole.new.me.0.rows one }
    ensures only { IfErr result IsOfPlaces }
{
    let (copy, seat) = joint.into_kept().into_copy(copies.len())?;
    seat.give(history, whole);
    copies.push(copy)?;
    Ok(())
}
