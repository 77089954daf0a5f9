//! A run cut.
ghost use Rattle.std.specs.Prelude.{◌≡◌, ◌↔◌, IsSome, IsTrue, IfOk, IfSome, map};
ghost use Rattle.bep_cut.specs.Cut.{seen};
ghost use Rattle.bep_cut.specs.Parts.{AreParts};
ghost use Rattle.bep_peer.specs.network.Agreed.{network_of};
ghost use Rattle.bep_run_cut.specs.RunCut.{AreTheSame, HoldsCopies, IsCutOf, IsRunCut, PartsLead, links_base, links_now, members_base, members_now};
ghost use Rattle.bep_run_cut.specs.Whole.{AreWhole};

use crate::apart::{Parts, parts_of};
use crate::whole::are_whole;
use bep_cut::{cut_of, parts_are_sound};
use bep_links::Link;
use bep_log::{LinkCopy, PeerCopy};
use bep_machine::replays_keep_folders;
use bep_peer::{Peer, tables_are_found};
use bep_run_check::{ObjectLog, all_are_logged};
use bep_store::MemStore;
use bep_tables::Cut;
use std::alloc::{AllocError, Global};
use std::marker::Model;

/// Copies of all devices and links of a running cluster, each with its log: what it was when the log began, and what it is.
///
/// The devices and links as they were are a sound cluster, and each is what its log makes of what it was. That the logs are
/// those of one run isn't said: `check_run` finds it out.
pub struct RunCut {
    base_peers: Vec<Peer<MemStore>>,
    base_links: Vec<Link>,
    base: Cut,
    logs: Vec<ObjectLog>,
    peers: Vec<Peer<MemStore>>,
    links: Vec<Link>,
    cut: Cut,
}

// By hand: a caller's proof then sees one call where it lets go of one, and not each field (docs/developing.md).
impl Drop for RunCut {
    fn drop(self) {
        let RunCut {
            base_peers: _,
            base_links: _,
            base: _,
            logs: _,
            peers: _,
            links: _,
            cut: _,
        } = self;
    }
}

impl Model for RunCut {
    ghost use Rattle.bep_record.specs.contracts.folder_kind.FolderKind as folder_kind;
    ghost use Rattle.bep_record.specs.contracts.entry.Entry as entry;
    ghost use Rattle.bep_record.specs.contracts.node.NodeParts as parts;
    ghost use Rattle.bep_index.specs.contracts.send.Plan as plan;
    ghost use Rattle.bep_machine.specs.contracts.message.Request as request;
    ghost use Rattle.bep_folder.specs.Held.{held_code};
    ghost use Rattle.bep_peer.specs.Session.{session_code};
    ghost use Rattle.bep_peer.specs.Member.{member_code};
    ghost use Rattle.bep_peer.specs.contracts.trace.Trace as trace;
    ghost use Rattle.bep_links.specs.contracts.link.Link as between;
    ghost use Rattle.bep_run_check.specs.contracts.log.ObjectLog as log;
    ghost use Rattle.bep_peer.specs.network.Agreed.{network_of};
    ghost use Rattle.bep_peer.specs.network.Network.{network_code};
    ghost use Rattle.bep_run_cut.specs.RunCut.{IsCutOf, IsRunCut, RunState, run_code};

    ghost Value = { RunState };

    ghost coded = { run_code (network_code (member_code (held_code folder_kind.the_row.coded entry.the_row.coded parts.the_row.coded) (session_code plan.the_row.coded request.the_row.coded) trace.the_row.coded) between.the_row.coded) log.the_row.coded };

    ghost view = { λ run. record { bases = network_of run.base_peers.items run.base_links.items; logs = run.logs.items; present = network_of run.peers.items run.links.items } };

    ghost invariant = { λ run.
        IsRunCut (record { bases = network_of run.base_peers.items run.base_links.items; logs = run.logs.items; present = network_of run.peers.items run.links.items }) ×
        IsCutOf (network_of run.base_peers.items run.base_links.items) run.base ×
        IsCutOf (network_of run.peers.items run.links.items) run.cut };
}

impl RunCut {
    /// The run cut of these copies, which it takes.
    ///
    /// It asks four things of the copies. They are one copy of each device and one of each link that the devices know, both
    /// rising. The devices agree on who shares a folder. Each device has a folder. There are at most 16 devices, 16 folders
    /// and 120 links (16 devices have no more). It answers None exactly if one of these fails. It fails only for want of
    /// memory.
    pub fn of(
        alloc: Global,
        peers: Vec<PeerCopy>,
        links: Vec<LinkCopy>,
    ) -> Result<Option<Self>, AllocError>
        ensures some { IfOk result (λ made. IsSome made ↔ AreWhole (members_now peers.items) (links_now links.items)) }
        ensures holds { IfOk result (λ made. IfSome made (HoldsCopies peers.items links.items)) }
    {
        // no event changes who shares a folder, so what holds of the devices as they are holds of them as they were
        replays_keep_folders();
        tables_are_found();
        let parts = parts_of(alloc, peers, links)?;
        run_if_whole(alloc, parts)
    }

    /// The cut of the devices and links as they are.
    pub fn cut(&self) -> &Cut
        ensures { IsCutOf self.now.present result.now }
    {
        &self.cut
    }

    /// The cut of the devices and links as they were when their logs began.
    pub fn base(&self) -> &Cut
        ensures { IsCutOf self.now.bases result.now }
    {
        &self.base
    }

    /// Each copy's object, the round of its log and the events: devices, then links, each rising.
    pub fn logs(&self) -> &[ObjectLog]
        ensures value { result.now ≡ self.now.logs }
        ensures a_run_cut { IsRunCut self.now }
    {
        self.logs.as_slice()
    }
}

// The run cut of these parts, if the devices and links are whole.
fn run_if_whole(alloc: Global, parts: Parts) -> Result<Option<RunCut>, AllocError>
    requires { PartsLead parts.peers.items parts.links.items parts.base_peers.items parts.base_links.items parts.logs.items }
    ensures some { IfOk result (λ made. IsSome made ↔ AreWhole parts.peers.items parts.links.items) }
    ensures bases { IfOk result (λ made. IfSome made (λ run. AreTheSame run.bases parts.base_peers.items parts.base_links.items)) }
    ensures logs { IfOk result (λ made. IfSome made (λ run. run.logs ≡ parts.logs.items)) }
    ensures present { IfOk result (λ made. IfSome made (λ run. AreTheSame run.present parts.peers.items parts.links.items)) }
{
    let whole = parts_are_whole(alloc, &parts)?;
    if whole {
        Ok(Some(run_of(alloc, parts)?))
    } else {
        Ok(None)
    }
}

fn parts_are_whole(alloc: Global, parts: &Parts) -> Result<bool, AllocError>
    ensures { IfOk result (λ whole. IsTrue whole ↔ AreWhole parts.now.peers.items parts.now.links.items) }
{
    are_whole(alloc, parts.peers.as_slice(), parts.links.as_slice())
}

// The run cut of these parts, and their cuts.
fn run_of(alloc: Global, parts: Parts) -> Result<RunCut, AllocError>
    requires whole { AreWhole parts.peers.items parts.links.items }
    requires lead { PartsLead parts.peers.items parts.links.items parts.base_peers.items parts.base_links.items parts.logs.items }
    ensures bases { IfOk result (λ made. AreTheSame made.bases parts.base_peers.items parts.base_links.items) }
    ensures logs { IfOk result (λ made. made.logs ≡ parts.logs.items) }
    ensures present { IfOk result (λ made. AreTheSame made.present parts.peers.items parts.links.items) }
{
    let Parts {
        peers,
        base_peers,
        links,
        base_links,
        logs,
    } = parts;
    parts_are_sound(base_peers.as_slice(), base_links.as_slice());
    all_are_logged(logs.as_slice());
    let (base_peers, base) = with_cut(alloc, base_peers, base_links.as_slice())?;
    let (peers, cut) = with_cut(alloc, peers, links.as_slice())?;
    Ok(RunCut {
        base_peers,
        base_links,
        base,
        logs,
        peers,
        links,
        cut,
    })
}

// The devices, as they are, and the cut of them and these links.
fn with_cut(
    alloc: Global,
    peers: Vec<Peer<MemStore>>,
    links: &[Link],
) -> Result<(Vec<Peer<MemStore>>, Cut), AllocError>
    requires { AreParts peers.items links.now }
    ensures cut { IfOk result (λ made. IsCutOf (network_of made.0.items links.now) made.1) }
    ensures same { IfOk result (λ made. map seen made.0.items ≡ map seen peers.items) }
{
    let mut peers = peers;
    let cut = cut_in_memory(alloc, peers.as_mut_slice(), links)?;
    Ok((peers, cut))
}

// The cut of these devices and links. Stores in memory never fail, so only memory can be wanting.
#[tactic(auto, using(crate::proofs::SameCluster::still_cut))]
fn cut_in_memory(
    alloc: Global,
    peers: &mut [Peer<MemStore>],
    links: &[Link],
) -> Result<Cut, AllocError>
    requires { AreParts peers.old links.now }
    ensures cut { IfOk result (IsCutOf (network_of peers.new links.now)) }
    ensures same { map seen peers.new ≡ map seen peers.old }
{
    match cut_of(alloc, peers, links) {
        Ok(cut) => Ok(cut),
        Err(_) => Err(AllocError),
    }
}
