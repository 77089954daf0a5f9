//! What a device has of a folder.
ghost use Rattle.std.specs.Prelude.{◌≡◌, IfOk, OnOk};
ghost use Rattle.std.specs.FinMap as map;
ghost use Rattle.bep_folder.specs.Pull.{IsPull};
ghost use Rattle.bep_cut.specs.Share.{ArePullsEach, IsSoundAt, targets_cut, share_cut};

use crate::records::own_records;
use crate::views::add_views;
use bep_folder::{Pull, Replica};
use bep_map::NameMap;
use bep_record::{Items, Name, Node, Record};
use bep_store::Store;
use bep_tables::Share;
use std::alloc::{AllocError, Global};

// What the device has of the folder, whose store holds this.
pub(crate) fn share_cut<S: Store>(
    alloc: Global,
    replica: &Replica<S>,
    store: NameMap<Node>,
) -> Result<Share, AllocError>
    requires { store ≡ replica.now.tables.store }
    ensures share { IfOk result (λ made. made ≡ share_cut replica.now.device replica.now.tables) }
    ensures sound { OnOk result (IsSoundAt replica.now.device replica.now.tables) }
{
    let index = replica.index();
    let max_sequence = index.max_sequence();
    let own = own_records(alloc, index)?;
    let mut views = Vec::new(alloc);
    add_views(&mut views, alloc, replica, replica.others())?;
    let pulls = targets_cut(alloc, replica.pulls())?;
    Ok(Share {
        device: replica.device(),
        kind: replica.kind(),
        index_id: index.id(),
        max_sequence,
        own,
        store,
        views: Items::new(views),
        pulls,
    })
}

// The records that are pulled, each under its name.
fn targets_cut(alloc: Global, pulls: &NameMap<Pull>) -> Result<NameMap<Record>, AllocError>
    ensures value { IfOk result (λ made. made ≡ targets_cut pulls.now) }
    ensures each { OnOk result (ArePullsEach pulls.now) }
{
    let mut made = NameMap::new(alloc);
    let mut rest = pulls.iter();
    // From the last name to the first, as the definition makes the map of its entries.
    while let Some((name, pull)) = rest.next_back() {
        put_target(&mut made, alloc, name, pull)?;
    }
    Ok(made)
}

fn put_target(
    made: &mut NameMap<Record>,
    alloc: Global,
    name: &Name,
    pull: &Pull,
) -> Result<(), AllocError>
    ensures put { OnOk result (made.new ≡ map.insert made.old name.now pull.now.target) }
    ensures a_pull { IsPull pull.now }
{
    let target = pull.target().copy(alloc)?;
    made.insert(name.copy(alloc)?, target)?;
    Ok(())
}
