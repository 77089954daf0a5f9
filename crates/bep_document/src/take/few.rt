//! Short lists.
ghost use Rattle.std.specs.Prelude.{◌≡◌};
ghost use Rattle.bep_document.specs.inner.Few.{few_told};

use crate::Few;
use bep_json::{DocVersion, Misread, Taken, Told};
use bep_record::Items;
use bep_tree::{Reader, WalkError};
use std::alloc::Global;

impl<T: Taken, const MOST: usize> Taken for Few<T, MOST> {
    fn take(
        alloc: Global,
        version: DocVersion,
        reader: &mut Reader<'_>,
        depth: usize,
    ) -> Result<Told<Self>, WalkError> {
        let items = <Items<T>>::take(alloc, version, reader, depth)?;
        Ok(few_of(items))
    }
}

// The things, where they are at most so many.
fn few_of<T: Drop, const MOST: usize>(told: Told<Items<T>>) -> Told<Few<T, MOST>>
    ensures { result ≡ few_told MOST told }
{
    match told {
        Ok(items) => Few::of_items(items),
        Err(misread) => Err(misread),
    }
}
