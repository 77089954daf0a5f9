//! What a device knows of the other devices' indexes.
ghost use Rattle.std.specs.Prelude.{◌≡◌, ◌++◌, OnOk};
ghost use Rattle.std.specs.List.{AllByRecursion};
ghost use Rattle.std.specs.FinMap as map;
ghost use Rattle.bep_index.specs.Index.{IsIndex};
ghost use Rattle.bep_cut.specs.Share.{IsIndexIn, view_cut, known_cut, views_cut};

use crate::records::known_records;
use bep_folder::Replica;
use bep_index::View;
use bep_record::DeviceId;
use bep_store::Store;
use bep_tables::PeerView;
use std::alloc::{AllocError, Global};

// Adds what is known of each other device's index.
pub(crate) fn add_views<S: Store>(
    views: &mut Vec<PeerView>,
    alloc: Global,
    replica: &Replica<S>,
    others: &[DeviceId],
) -> Result<(), AllocError>
    ensures views { OnOk result (views.new.items ≡ views.old.items ++ views_cut replica.now.tables.views others.now) }
    ensures indexes { OnOk result (AllByRecursion (IsIndexIn replica.now.tables.views) others.now) }
{
    for other in others {
        add_known(views, alloc, replica, *other)?;
    }
    Ok(())
}

fn add_known<S: Store>(
    views: &mut Vec<PeerView>,
    alloc: Global,
    replica: &Replica<S>,
    other: DeviceId,
) -> Result<(), AllocError>
    ensures views { OnOk result (views.new.items ≡ views.old.items ++ known_cut other (map.get replica.now.tables.views other)) }
    ensures index { OnOk result (IsIndexIn replica.now.tables.views other) }
{
    match replica.view(other) {
        Some(view) => add_view(views, alloc, other, view),
        None => Ok(()),
    }
}

fn add_view(
    views: &mut Vec<PeerView>,
    alloc: Global,
    other: DeviceId,
    view: &View,
) -> Result<(), AllocError>
    ensures views { OnOk result (views.new.items ≡ views.old.items ++ view_cut other view.now) }
    ensures index { OnOk result (IsIndex view.now) }
{
    let (index_id, max_sequence) = view.point();
    if index_id == 0 && max_sequence == 0 {
        return Ok(());
    }
    let records = known_records(alloc, view)?;
    views.push(PeerView {
        of: other,
        index_id,
        max_sequence,
        records,
    })?;
    Ok(())
}
