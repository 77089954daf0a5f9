//! Records of an index and of a view, each under its name.
ghost use Rattle.std.specs.Prelude.{◌≡◌, IfOk, OnOk};
ghost use Rattle.std.specs.FinMap.{empty, insert};
ghost use Rattle.bep_index.specs.Batch.{with_all};

use bep_index::{Index, View, batch_records_are_found};
use bep_map::NameMap;
use bep_record::{Name, Record};
use std::alloc::{AllocError, Global};

// The records of the index.
pub(crate) fn own_records(alloc: Global, index: &Index) -> Result<NameMap<Record>, AllocError>
    ensures { IfOk result (λ made. made ≡ index.now.records) }
{
    batch_records_are_found();
    index.max_sequence();
    let found = index.after(alloc, 0, usize::MAX)?;
    found.len();
    by_name(alloc, found)
}

// Each of the records under its name.
fn by_name(alloc: Global, records: Vec<Record>) -> Result<NameMap<Record>, AllocError>
    ensures { IfOk result (λ made. made ≡ with_all empty records.items) }
{
    let mut made = NameMap::new(alloc);
    for entry in records {
        put(&mut made, alloc, entry)?;
    }
    Ok(made)
}

// The records of the view.
pub(crate) fn known_records(alloc: Global, view: &View) -> Result<NameMap<Record>, AllocError>
    ensures { IfOk result (λ made. made ≡ view.now.records) }
{
    batch_records_are_found();
    view.point();
    let mut made = NameMap::new(alloc);
    for entry in view.records() {
        put(&mut made, alloc, entry.copy(alloc)?)?;
    }
    Ok(made)
}

fn put(made: &mut NameMap<Record>, alloc: Global, entry: Record) -> Result<(), AllocError>
    ensures { OnOk result (made.new ≡ insert made.old entry.name entry) }
{
    let name = entry.entry().name.copy(alloc)?;
    made.insert(name, entry)?;
    Ok(())
}
