//! The cut of a cluster.
ghost use Rattle.std.specs.Prelude.{◌≡◌, IfOk, map};
ghost use Rattle.bep_machine.specs.Sound.{IsSound};
ghost use Rattle.bep_cut.specs.Cut.{cut_at, seen};
ghost use Rattle.bep_cut.specs.Parts.{AreParts, CountsAll, faults_of, links_of};
ghost use Rattle.bep_cut.specs.Says.{Says, cluster_at};

use crate::CutError;
use crate::folders::folders_cut;
use crate::links::links_cut;
use crate::sound::parts_are_sound;
use bep_links::Link;
use bep_peer::{Peer, tables_are_found};
use bep_record::Items;
use bep_store::Store;
use bep_tables::{Cut, CutParts};
use std::alloc::Global;

/// The cut of these devices and links: what each device recorded, holds, knows of the others and pulls at this moment, and
/// the records that are on their way over each link, of folders that both its devices share. Sessions, the received blocks
/// of pulls and all other messages aren't in it.
///
/// The caller hands over one peer of each device, and one link of each pair that they know of, both rising, of devices
/// that agree on who shares what, as a cluster's parts are. Refuses `StoreFault` exactly where the store of some folder
/// fails to list its names or to read one, and else only for want of memory. The cut says what these devices and links do:
/// they are a sound cluster, whose tables are the cut's. The devices' tables, and the devices with
/// which each has links, are as before, whatever is answered; so they are a cluster's parts still.
#[tactic(auto, using(crate::proofs::Again::parts_again))]
pub fn cut_of<S: Store>(
    alloc: Global,
    peers: &mut [Peer<S>],
    links: &[Link],
) -> Result<Cut, CutError>
    requires { AreParts peers.old links.now }
    ensures cut { IfOk result (λ cut. cut ≡ cut_at peers.old links.now) }
    ensures says { IfOk result (Says (cluster_at peers.old links.now)) }
    ensures sound { IsSound (cluster_at peers.old links.now) }
    ensures same { map seen peers.new ≡ map seen peers.old }
    ensures linked { links_of peers.new ≡ links_of peers.old }
    ensures again { AreParts peers.new links.now }
    ensures counts { CountsAll (map faults_of peers.old) (map faults_of peers.new) result }
{
    tables_are_found();
    parts_are_sound(peers, links);
    let folders = folders_cut(alloc, peers)?;
    let links = links_cut(alloc, peers, links)?;
    Ok(Cut::of(CutParts {
        folders: Items::new(folders),
        links: Items::new(links),
    }))
}
