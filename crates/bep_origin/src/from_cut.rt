//! That every cut is of a sound cluster.
ghost use Rattle.std.specs.List.{AllByRecursion};
ghost use Rattle.std.specs.FinMap as map;
ghost use Rattle.bep_record.specs.Node.{IsNode};
ghost use Rattle.bep_index.specs.Good.{IsGood};
ghost use Rattle.bep_tables.specs.Cut.{tables_of};
ghost use Rattle.bep_origin.specs.FromCut.{AreGoodRecords, HasCluster, IsGoodCut, IsGoodFlight, IsGoodFolder, IsGoodShare, IsGoodState, IsGoodView};

use crate::laws::cuts_have_clusters;
use bep_index::record_is_good;
use bep_map::NameMap;
use bep_model::Flight;
use bep_record::{Node, Record};
use bep_tables::{Cut, LinkState, PeerView, Share, SharedFolder};

/// There is a sound cluster with the cut's tables, whatever document the cut was read from. It changes nothing, and takes
/// no memory; its contract is the fact.
pub fn cut_has_cluster(cut: &Cut)
    ensures { HasCluster cut.now }
{
    cuts_have_clusters();
    cut_is_good(cut);
    cut.is_a_cut();
}

// What the types of the cut's parts keep.
fn cut_is_good(cut: &Cut)
    ensures { IsGoodCut cut.now }
{
    folders_are_good(cut.folders());
    links_are_good(cut.links());
}

fn folders_are_good(folders: &[SharedFolder])
    ensures { AllByRecursion IsGoodFolder folders.now }
{
    for shared in folders {
        shares_are_good(shared.shares.as_slice());
    }
}

fn shares_are_good(shares: &[Share])
    ensures { AllByRecursion IsGoodShare shares.now }
{
    for share in shares {
        share_is_good(share);
    }
}

fn share_is_good(share: &Share)
    ensures { IsGoodShare share.now }
{
    share.device.number();
    share.index_id.number();
    records_are_good(&share.own);
    nodes_are_good(&share.store);
    views_are_good(share.views.as_slice());
    records_are_good(&share.pulls);
}

fn views_are_good(views: &[PeerView])
    ensures { AllByRecursion IsGoodView views.now }
{
    for view in views {
        records_are_good(&view.records);
    }
}

fn records_are_good(records: &NameMap<Record>)
    ensures { AreGoodRecords records.now }
{
    for entry in records.values() {
        record_is_good(entry);
    }
}

fn nodes_are_good(nodes: &NameMap<Node>)
    ensures { AllByRecursion IsNode (map.values nodes.now) }
{
    for node in nodes.values() {
        node.parts();
    }
}

fn links_are_good(links: &[LinkState])
    ensures { AllByRecursion IsGoodState links.now }
{
    for link in links {
        flights_are_good(link.to_a.as_slice());
        flights_are_good(link.to_b.as_slice());
    }
}

fn flights_are_good(flights: &[Flight])
    ensures { AllByRecursion IsGoodFlight flights.now }
{
    for flight in flights {
        carried_are_good(flight.records.as_slice());
    }
}

fn carried_are_good(records: &[Record])
    ensures { AllByRecursion IsGood records.now }
{
    for entry in records {
        record_is_good(entry);
    }
}
