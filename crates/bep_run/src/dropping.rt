//! Which pulls a puller ends beside those of the names that are wanted.
ghost use Rattle.std.specs.Prelude.{◌≡◌, ◌↔◌, IfOk, IsSome, OnOk};
ghost use Rattle.std.specs.FinMap as map;
ghost use Rattle.bep_model.specs.Tables.{FileName};
ghost use Rattle.bep_run.specs.inner.Dropping.{IsPulledInVain, with_unwanted};

use bep_folder::Replica;
use bep_map::NameMap;
use bep_record::Name;
use bep_store::Store;
use std::alloc::{AllocError, Global};

/// The names of which the device has a pull and wants no record any more, or want of memory. The end of such a pull drops it,
/// whatever the store does.
pub(crate) fn pulled_in_vain<S: Store>(
    alloc: Global,
    replica: &Replica<S>,
) -> Result<NameMap<()>, AllocError>
    ensures { IfOk result (λ names. (name : FileName) → IsSome (map.get names name) ↔ IsPulledInVain replica.now.device replica.now.tables name) }
{
    let wanted = replica.wanted_names()?;
    let mut names = NameMap::new(alloc);
    for (name, _pull) in replica.pulls().iter() {
        add_unwanted(&mut names, alloc, &wanted, name)?;
    }
    Ok(names)
}

// Adds the name, unless it is among those that are wanted.
fn add_unwanted(
    names: &mut NameMap<()>,
    alloc: Global,
    wanted: &NameMap<()>,
    name: &Name,
) -> Result<(), AllocError>
    ensures { OnOk result (names.new ≡ with_unwanted wanted.now names.old name.now) }
{
    if wanted.contains(name) {
        return Ok(());
    }
    names.insert(name.copy(alloc)?, ())?;
    Ok(())
}
