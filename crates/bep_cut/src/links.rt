//! The links of a cluster, with what is on its way over them.
ghost use Rattle.std.specs.Prelude.{◌≡◌, ◌==◌, IfOk, OnOk, is_some, map};
ghost use Rattle.std.specs.Option.{option_copied};
ghost use Rattle.std.specs.List.{find, AllByRecursion};
ghost use Rattle.std.specs.FinMap as finite;
ghost use Rattle.bep_model.specs.Tables.{Folder};
ghost use Rattle.bep_cut.specs.Cut.{IsSoundLink, seen, replicas_at, link_at};

use crate::flights::link_cut;
use bep_folder::Replica;
use bep_links::Link;
use bep_map::FolderMap;
use bep_peer::{Peer, tables_are_found};
use bep_record::DeviceId;
use bep_store::Store;
use bep_tables::LinkState;
use std::alloc::{AllocError, Global};

// The links, with what they carry of folders that both their devices share.
pub(crate) fn links_cut<S: Store>(
    alloc: Global,
    peers: &[Peer<S>],
    links: &[Link],
) -> Result<Vec<LinkState>, AllocError>
    ensures links { IfOk result (λ made. made.items ≡ map (link_at (map seen peers.now)) links.now) }
    ensures sound { OnOk result (AllByRecursion (IsSoundLink (map seen peers.now)) links.now) }
{
    let mut made = Vec::new(alloc);
    for link in links {
        made.push(link_at(alloc, peers, link)?)?;
    }
    Ok(made)
}

fn link_at<S: Store>(alloc: Global, peers: &[Peer<S>], link: &Link) -> Result<LinkState, AllocError>
    ensures link { IfOk result (λ made. made ≡ link_at (map seen peers.now) link.now) }
    ensures sound { OnOk result (IsSoundLink (map seen peers.now) link.now) }
{
    let (lower, upper) = link.ends();
    let none = FolderMap::new(alloc);
    let from = folders_at(peers, lower, &none);
    let to = folders_at(peers, upper, &none);
    link_cut(alloc, from, to, link)
}

// The folders of the device; one that isn't there has none.
fn folders_at<'a, S: Store>(
    peers: &'a [Peer<S>],
    device: DeviceId,
    none: &'a FolderMap<Replica<S>>,
) -> &'a FolderMap<Replica<S>>
    requires { none.now ≡ finite.empty }
    ensures { (folder : Folder) → is_some (finite.get result.now folder) ≡ is_some (finite.get (replicas_at (map seen peers.now) device) folder) }
{
    tables_are_found();
    match peer_at(peers, device) {
        Some(peer) => peer.folders(),
        None => none,
    }
}

fn peer_at<S: Store>(peers: &[Peer<S>], device: DeviceId) -> Option<&Peer<S>>
    ensures { option_copied result ≡ find (λ member. member.number == device) peers.now }
{
    peers.iter().find(|peer| peer.number() == device)
}
