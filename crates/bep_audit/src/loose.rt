//! What keeps a settled cut from being firm, with its place.
ghost use Rattle.std.specs.Prelude.{◌≡◌, Some, option_map};
ghost use Rattle.std.specs.Ordering.{eq_by_cmp, is_eq};
ghost use Rattle.std.specs.Cmp.{partial_equiv_from_equiv, eq_by_cmp_equiv, partial_order_from_total};
ghost use Rattle.std.specs.Cmp.Rules.{comparing};
ghost use Rattle.std.proofs.Common.{rules};
ghost use Rattle.bep_model.specs.FirmVerdict.{firm_number_of};
ghost use Rattle.bep_audit.specs.Loose.{loose_cmp, loose_shown, precedes};
ghost use Rattle.bep_audit.specs.LooseOrder.{loose_lent_cmp, loose_lent_total};
ghost use Rattle.bep_audit.specs.Shown.{place_shown};

use crate::spot::Spot;
use bep_model::FirmReason;
use bep_record::{DeviceId, FolderName, Name};
use std::cmp::Ordering;

/// A reason for which a settled cut isn't firm, and where, lent.
///
/// They are compared by their reasons, in the order in which reasons are told, and then by their places.
#[derive(Clone, Copy, Debug)]
pub struct Looseness<'a> {
    /// The reason.
    pub reason: FirmReason,
    /// The folder.
    pub folder: &'a FolderName,
    /// The name.
    pub name: &'a Name,
    /// The device.
    pub device: DeviceId,
}

impl<'a> Looseness<'a> {
    /// How two of them compare: by reason, then by folder, name and device.
    pub fn compare(&self, other: &Looseness<'_>) -> Ordering
        ensures { result ≡ loose_cmp (loose_shown self.now) (loose_shown other.now) }
    {
        let reasons = number_of(self.reason).cmp(&number_of(other.reason));
        reasons.then(self.spot().compare(&other.spot()))
    }

    /// Its place.
    pub fn spot(&self) -> Spot<'a>
        ensures { place_shown result ≡ (loose_shown self.now).place }
    {
        Spot {
            folder: self.folder,
            name: self.name,
            device: Some(self.device),
        }
    }
}

impl<'a> PartialEq for Looseness<'a> {
    ghost eq = { eq_by_cmp loose_lent_cmp };

    ghost laws = { partial_equiv_from_equiv (eq_by_cmp_equiv loose_lent_total) };

    fn eq(&self, other: &Looseness<'a>) -> bool {
        self.compare(other).is_eq()
    }
}

impl<'a> Eq for Looseness<'a> {
    ghost laws = { eq_by_cmp_equiv loose_lent_total };
}

impl<'a> PartialOrd for Looseness<'a> {
    ghost partial_cmp = { λ x y. Some (loose_lent_cmp x y) };

    ghost laws = { partial_order_from_total loose_lent_total };

    fn partial_cmp(&self, other: &Looseness<'a>) -> Option<Ordering> {
        Some(self.compare(other))
    }
}

impl<'a> Ord for Looseness<'a> {
    ghost cmp = { loose_lent_cmp };

    ghost total = { loose_lent_total };

    ghost matches_partial_cmp = { Prim.search (comparing, rules) };

    ghost matches_eq = { Prim.search (comparing, rules) };

    fn cmp(&self, other: &Looseness<'a>) -> Ordering {
        self.compare(other)
    }
}

/// Whether this one comes before the least so far; each may be missing.
pub(crate) fn precedes(here: &Option<Looseness<'_>>, least: &Option<Looseness<'_>>) -> bool
    ensures { result ≡ precedes (option_map loose_shown here.now) (option_map loose_shown least.now) }
{
    match (here, least) {
        (None, _) => false,
        (Some(_), None) => true,
        (Some(here), Some(least)) => here.compare(least).is_lt(),
    }
}

// The place of the reason in the order in which reasons are told, from 1.
fn number_of(reason: FirmReason) -> u32
    ensures { result ≡ firm_number_of reason }
{
    match reason {
        FirmReason::VersionDiffers => 1,
        FirmReason::ViewNotBelow => 2,
        FirmReason::FlightNotBelow => 3,
        FirmReason::PullNotBelow => 4,
    }
}
