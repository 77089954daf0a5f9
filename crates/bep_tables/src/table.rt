//! A cut grouped by folder and name.
ghost use Rattle.std.specs.Prelude.{◌≡◌, IfOk};
ghost use Rattle.bep_tables.specs.Listed.{IsGrouped, cut_listed};

mod entry;
mod falling;
mod groups;
mod laws;
mod listing;

use crate::Cut;
pub use entry::{Held, Source, TableEntry};
use groups::Groups;
pub use laws::entries_are_held;
use std::alloc::{AllocError, Global};
use std::marker::Model;

/// A cut grouped by folder and name: all its entries, each lent from the cut, in the order of their folders and names.
/// What the cut has of a name stands together: the devices' own records, nodes, views and pulls by rising device, and
/// then what is on its way. Invalid records that a device has from elsewhere aren't there.
#[derive(Drop)]
pub struct Table<'a> {
    entries: Vec<TableEntry<'a>>,
}

impl<'a> Model for Table<'a> {
    ghost use Rattle.std.specs.Prelude.{List};
    ghost use Rattle.bep_tables.specs.declared.table.entry.TableEntry.{TableEntry};

    ghost Value = { List TableEntry };

    ghost view = { λ table. table.entries.items };
}

impl<'a> Table<'a> {
    /// The cut, grouped; or want of memory. Copies no record.
    pub fn of(alloc: Global, cut: &'a Cut) -> Result<Table<'a>, AllocError>
        ensures { IfOk result (IsGrouped (cut_listed cut.now)) }
    {
        let mut groups = Groups::new(alloc);
        listing::add_cut(&mut groups, cut)?;
        groups.make_room(alloc)?;
        listing::add_cut(&mut groups, cut)?;
        Ok(Table {
            entries: groups.entries(),
        })
    }

    /// The entries, by folder and then name.
    pub fn entries(&self) -> &[TableEntry<'a>]
        ensures { result.now ≡ self.now }
    {
        self.entries.as_slice()
    }
}
