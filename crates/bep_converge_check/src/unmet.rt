//! The first device of a folder that doesn't meet what is asked of it beside the top of a name.
ghost use Rattle.std.specs.Prelude.{◌≡◌, Contains};
ghost use Rattle.std.specs.Ordering.{nat_cmp};
ghost use Rattle.std.specs.List.Sorted.{IsStrictlyIncreasing};
ghost use Rattle.bep_tables.specs.Cut.{devices_of};
ghost use Rattle.bep_audit.specs.inner.Search.{FindsFirst};
ghost use Rattle.bep_converge_check.specs.inner.Unmet.{FindsUnmet, IsMetBy};

use crate::meets::meets;
use crate::met::are_met;
use bep_converge::ConvergeReason;
use bep_record::{DeviceId, Name, Record};
use bep_tables::Share;

// The reasons that ask something of devices, in the order in which they are told.
pub(crate) const OF_DEVICES: [ConvergeReason; 5] = [
    ConvergeReason::LocalOnly,
    ConvergeReason::StoreUnclean,
    ConvergeReason::StoreDiffers,
    ConvergeReason::SendOnly,
    ConvergeReason::WouldCopy,
];

/// The least reason that fails at one of these devices, which rise, beside the top of the name, at the first of them.
pub(crate) fn first_unmet(
    shares: &[Share],
    top: &Record,
    name: &Name,
) -> Option<(ConvergeReason, DeviceId)>
    requires { IsStrictlyIncreasing (devices_of shares.now) }
    ensures { FindsUnmet top.now name.now shares.now result }
{
    if are_met(shares, top, name) {
        return None;
    }
    for reason in OF_DEVICES {
        if let Some(device) = first_failing(reason, shares, top, name) {
            return Some((reason, device));
        }
    }
    None
}

// The first of the devices at which the reason fails.
fn first_failing(
    reason: ConvergeReason,
    shares: &[Share],
    top: &Record,
    name: &Name,
) -> Option<DeviceId>
    requires { IsStrictlyIncreasing (devices_of shares.now) }
    ensures { FindsFirst nat_cmp (IsMetBy top.now name.now shares.now reason) result }
{
    for share in shares {
        if !meets(reason, top, name, share) {
            return Some(share.device);
        }
    }
    None
}
