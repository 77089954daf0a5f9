//! Short lists.
ghost use Rattle.std.specs.Prelude.{◌≡◌, List, [], Ok};
ghost use Rattle.bep_json.specs.Lists.{is_list};
ghost use Rattle.bep_document.specs.inner.Few.{few_told};
ghost use Rattle.bep_document.specs.read.Few.{read_few};

use bep_json::{Misread, Shaped, Told};
use bep_record::Items;
use std::alloc::Global;
use std::marker::Model;

/// A list of at most so many things, as it is read.
#[derive(Debug, Drop)]
pub struct Few<T, const MOST: usize> {
    items: Items<T>,
}

impl<T, const MOST: usize> Model for Few<T, MOST> {
    ghost use Rattle.std.specs.Prelude.{List};

    ghost Value = { List T };

    ghost view = { λ few. few.items };
}

impl<T, const MOST: usize> Few<T, MOST> {
    /// The list without things.
    pub fn none(alloc: Global) -> Self
        ensures { result ≡ [] }
    {
        Few {
            items: Items::new(Vec::new(alloc)),
        }
    }

    /// The things, in order.
    pub fn into_items(self) -> Items<T>
        ensures { result ≡ self }
    {
        self.items
    }
}

impl<T: Drop, const MOST: usize> Few<T, MOST> {
    // These things, where they are at most so many.
    pub(crate) fn of_items(items: Items<T>) -> Told<Self>
        ensures { result ≡ few_told MOST (Ok items) }
    {
        if items.as_slice().len() > MOST {
            Err(Misread::Range)
        } else {
            Ok(Few { items })
        }
    }
}

impl<T: Shaped, const MOST: usize> Shaped for Few<T, MOST> {
    ghost has_shape = { λ version. is_list (T.has_shape version) };

    ghost reads = { λ version. read_few MOST (T.reads version) };
}
