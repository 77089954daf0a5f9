//! A reason that fails, with its place.
ghost use Rattle.std.specs.Prelude.{◌≡◌, Some, option_map};
ghost use Rattle.std.specs.Ordering.{eq_by_cmp, is_eq};
ghost use Rattle.std.specs.Cmp.{partial_equiv_from_equiv, eq_by_cmp_equiv, partial_order_from_total};
ghost use Rattle.std.specs.Cmp.Rules.{comparing};
ghost use Rattle.std.proofs.Common.{rules};
ghost use Rattle.bep_model.specs.Verdict.{number_of};
ghost use Rattle.bep_audit.specs.Walk.{failure_cmp, failure_shown};
ghost use Rattle.bep_audit.specs.inner.Walk.{replaces};
ghost use Rattle.bep_audit.specs.FailureOrder.{lent_cmp, lent_total};

use crate::spot::Spot;
use bep_model::Reason;
use std::cmp::Ordering;

/// A reason that fails, and where.
///
/// Failures are compared by their reasons, in the order in which reasons are told, and then by their places.
#[derive(Clone, Copy, Debug)]
pub struct Failure<'a> {
    /// The reason.
    pub reason: Reason,
    /// Where it fails.
    pub spot: Spot<'a>,
}

impl<'a> Failure<'a> {
    /// How two failures compare: by reason, then by folder, name and device.
    pub fn compare(&self, other: &Failure<'_>) -> Ordering
        ensures { result ≡ failure_cmp (failure_shown self.now) (failure_shown other.now) }
    {
        let reasons = number_of(self.reason).cmp(&number_of(other.reason));
        reasons.then(self.spot.compare(&other.spot))
    }
}

impl<'a> PartialEq for Failure<'a> {
    ghost eq = { eq_by_cmp lent_cmp };

    ghost laws = { partial_equiv_from_equiv (eq_by_cmp_equiv lent_total) };

    fn eq(&self, other: &Failure<'a>) -> bool {
        self.compare(other).is_eq()
    }
}

impl<'a> Eq for Failure<'a> {
    ghost laws = { eq_by_cmp_equiv lent_total };
}

impl<'a> PartialOrd for Failure<'a> {
    ghost partial_cmp = { λ x y. Some (lent_cmp x y) };

    ghost laws = { partial_order_from_total lent_total };

    fn partial_cmp(&self, other: &Failure<'a>) -> Option<Ordering> {
        Some(self.compare(other))
    }
}

impl<'a> Ord for Failure<'a> {
    ghost cmp = { lent_cmp };

    ghost total = { lent_total };

    ghost matches_partial_cmp = { Prim.search (comparing, rules) };

    ghost matches_eq = { Prim.search (comparing, rules) };

    fn cmp(&self, other: &Failure<'a>) -> Ordering {
        self.compare(other)
    }
}

/// Whether a failure is of a lesser reason than the least so far; each may be missing.
pub(crate) fn replaces(here: &Option<Failure<'_>>, least: &Option<Failure<'_>>) -> bool
    ensures { result ≡ replaces (option_map failure_shown here.now) (option_map failure_shown least.now) }
{
    match (here, least) {
        (None, _) => false,
        (Some(_), None) => true,
        (Some(here), Some(least)) => number_of(here.reason) < number_of(least.reason),
    }
}

// The place of the reason in the order in which reasons are told, from 1.
fn number_of(reason: Reason) -> u32
    ensures { result ≡ number_of reason }
{
    match reason {
        Reason::CertificateOrder => 1,
        Reason::NameMissing => 2,
        Reason::NameUnknown => 3,
        Reason::NotWinner => 4,
        Reason::RecordMissing => 5,
        Reason::RecordDiffers => 6,
        Reason::LocalOnly => 7,
        Reason::StoreDiffers => 8,
        Reason::StoreUnclean => 9,
        Reason::ViewAhead => 10,
        Reason::FlightAhead => 11,
        Reason::PullAhead => 12,
    }
}
