//! Records by the weight of their versions, the sum of the counters, and then by the counters: where two versions are in line,
//! the one above is heavier, and equal ones stand side by side.
ghost use Rattle.std.specs.Prelude.{◌≡◌, ◌↔◌, IsTrue, Some};
ghost use Rattle.std.specs.Ordering.{eq_by_cmp, is_eq};
ghost use Rattle.std.specs.Cmp.{partial_equiv_from_equiv, eq_by_cmp_equiv, partial_order_from_total};
ghost use Rattle.std.specs.Cmp.Rules.{comparing};
ghost use Rattle.std.proofs.Common.{rules};
ghost use Rattle.bep_record.specs.Content.{content_of};
ghost use Rattle.bep_record.specs.Vector.{IsVersion, IsAtMost};
ghost use Rattle.bep_converge_check.specs.inner.Weight.{weight, record_of, weighed_cmp, weighed_total};

use bep_record::{Record, Version};
use std::cmp::Ordering;

/// A record. Two of them are compared by their versions alone: by weight, then counter by counter.
#[derive(Clone, Copy)]
pub(crate) struct Weighed<'a> {
    pub(crate) found: &'a Record,
}

impl<'a> Weighed<'a> {
    /// The record's version.
    pub(crate) fn version(&self) -> &'a Version
        ensures value { result.now ≡ self.now.found.now.version }
        ensures well_formed { IsVersion self.now.found.now.version }
    {
        let version = &self.found.entry().version;
        let _ = version.counters();
        version
    }

    /// Whether it has the content of another record behind it, unless the other's version is above its version.
    pub(crate) fn is_like(&self, next: &Weighed<'_>) -> bool
        ensures well_formed { IsVersion (record_of self.now).version }
        ensures next_well_formed { IsVersion (record_of next.now).version }
        ensures like { IsTrue result ↔ (IsAtMost (record_of next.now).version (record_of self.now).version → content_of (record_of self.now) ≡ content_of (record_of next.now)) }
    {
        let (version, following) = (self.version(), next.version());
        !following.is_at_most(version) || self.found.same_content(next.found)
    }

    // How two of them compare: by weight, then by the counters.
    fn compare(&self, other: &Weighed<'_>) -> Ordering
        ensures { result ≡ weighed_cmp self.now other.now }
    {
        let (version, against) = (self.version(), other.version());
        let weights = weight_of(version).cmp(&weight_of(against));
        weights.then(version.counters().cmp(against.counters()))
    }
}

impl<'a> PartialEq for Weighed<'a> {
    ghost eq = { eq_by_cmp weighed_cmp };

    ghost laws = { partial_equiv_from_equiv (eq_by_cmp_equiv weighed_total) };

    fn eq(&self, other: &Weighed<'a>) -> bool {
        self.compare(other).is_eq()
    }
}

impl<'a> Eq for Weighed<'a> {
    ghost laws = { eq_by_cmp_equiv weighed_total };
}

impl<'a> PartialOrd for Weighed<'a> {
    ghost partial_cmp = { λ x y. Some (weighed_cmp x y) };

    ghost laws = { partial_order_from_total weighed_total };

    fn partial_cmp(&self, other: &Weighed<'a>) -> Option<Ordering> {
        Some(self.compare(other))
    }
}

impl<'a> Ord for Weighed<'a> {
    ghost cmp = { weighed_cmp };

    ghost total = { weighed_total };

    ghost matches_partial_cmp = { Prim.search (comparing, rules) };

    ghost matches_eq = { Prim.search (comparing, rules) };

    fn cmp(&self, other: &Weighed<'a>) -> Ordering {
        self.compare(other)
    }
}

// The sum of the version's counters.
fn weight_of(version: &Version) -> u128
    ensures { result ≡ weight version.now }
{
    let mut sum = 0;
    for counter in version.counters() {
        sum += u128::from(counter.1);
    }
    sum
}
