//! Who is behind a record, if it is the top of its name.
ghost use Rattle.std.specs.Prelude.{◌≡◌, ◌↔◌, IsTrue, Some, None, IfSome, IfNone, Contains, length};
ghost use Rattle.std.specs.FinMap as map;
ghost use Rattle.std.specs.Option.{option_copied};
ghost use Rattle.bep_model.specs.Tables.{Device};
ghost use Rattle.bep_machine.specs.Replica.{own_at};
ghost use Rattle.bep_machine.specs.Said.{tables_of_cluster};
ghost use Rattle.bep_peer.specs.network.Network.{cluster_of};
ghost use Rattle.bep_converge.specs.Prevails.{IsAtTop};
ghost use Rattle.bep_rounds.specs.Finding.{IsBehindHere, IsUpTo, NoneIsBehind};

use crate::seeing::own_record;
use bep_core::Cluster;
use bep_folder::Replica;
use bep_record::{DeviceId, FolderName, Order, Record};
use bep_store::Store;

// A device that isn't at this record of the folder's, where the record is the top of its name. None where all are there, or where it
// isn't the top.
pub(crate) fn behind_of<S: Store>(
    cluster: &Cluster<S>,
    replica: &Replica<S>,
    top: &Record,
) -> Option<DeviceId>
    requires held { map.get ((cluster_of cluster.now).peer replica.now.device).replicas replica.now.folder ≡ Some replica.now.tables }
    requires own { own_at replica.now.tables top.now.name ≡ Some top.now }
    ensures some { IfSome result (λ device. IsBehindHere (cluster_of cluster.now) device replica.now.device replica.now.folder top.now) }
    ensures none { IfNone result (NoneIsBehind (cluster_of cluster.now) replica.now.device replica.now.folder top.now.name) }
{
    cluster.cluster_is_sound();
    let sharing = replica.others();
    let folder = replica.folder();
    let device = match one_below(cluster, sharing, folder, top) {
        None => return None,
        Some(device) => device,
    };
    if !are_up_to(cluster, sharing, folder, top) {
        return None;
    }
    Some(device)
}

// One of these devices that isn't at the record, if there is one.
fn one_below<S: Store>(
    cluster: &Cluster<S>,
    others: &[DeviceId],
    folder: &FolderName,
    top: &Record,
) -> Option<DeviceId>
    ensures listed { IfSome result (Contains others.now) }
    ensures below { IfSome result (λ device. ¬ IsAtTop ((tables_of_cluster (cluster_of cluster.now)).own device folder.now top.now.name) top.now) }
    ensures none { IfNone result ((device : Device) → Contains others.now device → IsAtTop ((tables_of_cluster (cluster_of cluster.now)).own device folder.now top.now.name) top.now) }
{
    for other in others {
        let own = own_record(cluster, *other, folder, &top.entry().name);
        if !is_at_top(own, top) {
            return Some(*other);
        }
    }
    None
}

// Whether none of these devices has a record beyond this one.
fn are_up_to<S: Store>(
    cluster: &Cluster<S>,
    others: &[DeviceId],
    folder: &FolderName,
    top: &Record,
) -> bool
    ensures { IsTrue result ↔ ((device : Device) → Contains others.now device → IsUpTo ((tables_of_cluster (cluster_of cluster.now)).own device folder.now top.now.name) top.now) }
{
    for other in others {
        let own = own_record(cluster, *other, folder, &top.entry().name);
        if !is_up_to(own, top) {
            return false;
        }
    }
    true
}

// Whether who has this own record, or none, is at the top.
fn is_at_top(own: Option<&Record>, top: &Record) -> bool
    ensures { IsTrue result ↔ IsAtTop (option_copied own.entry) top.now }
{
    match own {
        None => top.entry().deleted,
        Some(own) => own.entry().version.order(&top.entry().version) == Order::Equal,
    }
}

// Whether this own record, if there is one, isn't beyond the top.
fn is_up_to(own: Option<&Record>, top: &Record) -> bool
    ensures { IsTrue result ↔ IsUpTo (option_copied own.entry) top.now }
{
    match own {
        None => true,
        Some(own) => match own.entry().version.order(&top.entry().version) {
            Order::Equal | Order::Below => true,
            Order::Above | Order::Concurrent => false,
        },
    }
}
