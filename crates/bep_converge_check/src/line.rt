//! Whether records that are sorted by weight are in line, and whether those of one version have one content.
ghost use Rattle.std.specs.Prelude.{◌↔◌, IsTrue, Contains, map};
ghost use Rattle.std.specs.List.Sorted.{IsSorted};
ghost use Rattle.bep_converge_check.specs.inner.Line.{AreInLine, Agree};
ghost use Rattle.bep_converge_check.specs.inner.Weight.{weighed_cmp, record_of};

use crate::weight::Weighed;

/// Whether of each two of the records one version is at most the other.
pub(crate) fn are_in_line(sorted: &[Weighed<'_>]) -> bool
    requires { IsSorted weighed_cmp sorted.now }
    ensures { IsTrue result ↔ AreInLine (Contains (map record_of sorted.now)) }
{
    for place in 1..sorted.len() {
        let (one, next) = (sorted[place - 1].version(), sorted[place].version());
        if !one.is_at_most(next) {
            return false;
        }
    }
    true
}

/// Whether records of equal versions have equal contents.
pub(crate) fn agree(sorted: &[Weighed<'_>]) -> bool
    requires { IsSorted weighed_cmp sorted.now }
    ensures { IsTrue result ↔ Agree (Contains (map record_of sorted.now)) }
{
    for place in 1..sorted.len() {
        if !sorted[place - 1].is_like(&sorted[place]) {
            return false;
        }
    }
    true
}
