//! Entries as keys of a map that has the last folder and name first.
ghost use Rattle.std.specs.Prelude.{◌≡◌, Some};
ghost use Rattle.std.specs.Ordering.{eq_by_cmp};
ghost use Rattle.std.specs.Cmp.{partial_equiv_from_equiv, eq_by_cmp_equiv, partial_order_from_total};
ghost use Rattle.std.specs.Cmp.Rules.{comparing};
ghost use Rattle.std.proofs.Common.{rules};
ghost use Rattle.bep_tables.specs.Listed.{listed};
ghost use Rattle.bep_tables.specs.inner.TableOrder.{falling_cmp, falling_total};

use super::TableEntry;
use std::cmp::Ordering;

// An entry as a key of a map that has the last folder and name first.
#[derive(Clone, Copy)]
pub(crate) struct Falling<'a> {
    pub(crate) entry: TableEntry<'a>,
}

impl<'a> Falling<'a> {
    // The key of this entry.
    pub(crate) fn of(entry: &TableEntry<'a>) -> Self
        ensures { listed result.entry ≡ listed entry.now }
    {
        Falling {
            entry: entry.again(),
        }
    }
}

impl<'a> PartialEq for Falling<'a> {
    ghost eq = { eq_by_cmp falling_cmp };

    ghost laws = { partial_equiv_from_equiv (eq_by_cmp_equiv falling_total) };

    fn eq(&self, other: &Falling<'a>) -> bool {
        other.entry.cmp(&self.entry).is_eq()
    }
}

impl<'a> Eq for Falling<'a> {
    ghost laws = { eq_by_cmp_equiv falling_total };
}

impl<'a> PartialOrd for Falling<'a> {
    ghost partial_cmp = { λ x y. Some (falling_cmp x y) };

    ghost laws = { partial_order_from_total falling_total };

    fn partial_cmp(&self, other: &Falling<'a>) -> Option<Ordering> {
        Some(other.entry.cmp(&self.entry))
    }
}

impl<'a> Ord for Falling<'a> {
    ghost cmp = { falling_cmp };

    ghost total = { falling_total };

    ghost matches_partial_cmp = { Prim.search (comparing, rules) };

    ghost matches_eq = { Prim.search (comparing, rules) };

    fn cmp(&self, other: &Falling<'a>) -> Ordering {
        other.entry.cmp(&self.entry)
    }
}
