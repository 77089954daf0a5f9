//! What keeps a cut from converging, with its place.
ghost use Rattle.std.specs.Prelude.{◌≡◌, Some, option_map};
ghost use Rattle.std.specs.Ordering.{eq_by_cmp, is_eq};
ghost use Rattle.std.specs.Cmp.{partial_equiv_from_equiv, eq_by_cmp_equiv, partial_order_from_total};
ghost use Rattle.std.specs.Cmp.Rules.{comparing};
ghost use Rattle.std.proofs.Common.{rules};
ghost use Rattle.bep_converge.specs.ConvergeReasons.{converge_number_of};
ghost use Rattle.bep_converge_check.specs.Hindrance.{hinder_cmp, hinder_shown, precedes};
ghost use Rattle.bep_converge_check.specs.inner.HindranceOrder.{hinder_lent_cmp, hinder_lent_total};

use bep_audit::Spot;
use bep_converge::ConvergeReason;
use std::cmp::Ordering;

/// A reason for which a cut doesn't converge, and where.
///
/// They are compared by their reasons, in the order in which reasons are told, and then by their places.
#[derive(Clone, Copy, Debug)]
pub struct Hindrance<'a> {
    /// The reason.
    pub reason: ConvergeReason,
    /// Where it fails.
    pub spot: Spot<'a>,
}

impl<'a> Hindrance<'a> {
    /// How two of them compare: by reason, in the order in which reasons are told, then by folder, name and device.
    pub fn compare(&self, other: &Hindrance<'_>) -> Ordering
        ensures { result ≡ hinder_cmp (hinder_shown self.now) (hinder_shown other.now) }
    {
        let reasons = number_of(self.reason).cmp(&number_of(other.reason));
        reasons.then(self.spot.compare(&other.spot))
    }
}

impl<'a> PartialEq for Hindrance<'a> {
    ghost eq = { eq_by_cmp hinder_lent_cmp };

    ghost laws = { partial_equiv_from_equiv (eq_by_cmp_equiv hinder_lent_total) };

    fn eq(&self, other: &Hindrance<'a>) -> bool {
        self.compare(other).is_eq()
    }
}

impl<'a> Eq for Hindrance<'a> {
    ghost laws = { eq_by_cmp_equiv hinder_lent_total };
}

impl<'a> PartialOrd for Hindrance<'a> {
    ghost partial_cmp = { λ x y. Some (hinder_lent_cmp x y) };

    ghost laws = { partial_order_from_total hinder_lent_total };

    fn partial_cmp(&self, other: &Hindrance<'a>) -> Option<Ordering> {
        Some(self.compare(other))
    }
}

impl<'a> Ord for Hindrance<'a> {
    ghost cmp = { hinder_lent_cmp };

    ghost total = { hinder_lent_total };

    ghost matches_partial_cmp = { Prim.search (comparing, rules) };

    ghost matches_eq = { Prim.search (comparing, rules) };

    fn cmp(&self, other: &Hindrance<'a>) -> Ordering {
        self.compare(other)
    }
}

/// Whether one comes before the least so far; each may be missing.
pub(crate) fn precedes(here: &Option<Hindrance<'_>>, least: &Option<Hindrance<'_>>) -> bool
    ensures { result ≡ precedes (option_map hinder_shown here.now) (option_map hinder_shown least.now) }
{
    match (here, least) {
        (None, _) => false,
        (Some(_), None) => true,
        (Some(here), Some(least)) => here.compare(least).is_lt(),
    }
}

// The place of the reason in the order in which reasons are told, from 1.
fn number_of(reason: ConvergeReason) -> u32
    ensures { result ≡ converge_number_of reason }
{
    match reason {
        ConvergeReason::NothingPrevails => 1,
        ConvergeReason::Concurrent => 2,
        ConvergeReason::ContentDiffers => 3,
        ConvergeReason::LocalOnly => 4,
        ConvergeReason::StoreUnclean => 5,
        ConvergeReason::StoreDiffers => 6,
        ConvergeReason::SendOnly => 7,
        ConvergeReason::WouldCopy => 8,
    }
}
