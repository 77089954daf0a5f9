//! What the parts of one history are together, and what a receipt claims. Each function does nothing; its contract is the law.
ghost use Rattle.bep_history.specs.Laws.{AddedIsClaimed, ClaimedStands, PartsFit};

use bep_fit::{faultless_logs_agree, faultless_logs_merge};

/// Logs of one round, in each of which the tickets rise, fit if each has what touches its object in one history, and
/// each object has a log.
pub fn parts_fit()
    ensures { PartsFit }
{
    faultless_logs_agree();
    faultless_logs_merge();
}

/// An event that a seat has added stands among the claims of a receipt that it then gives.
pub fn added_is_claimed()
    ensures { AddedIsClaimed }
{}

/// An event that a seat claims stands in each row of the seat that it touches.
pub fn claimed_stands()
    ensures { ClaimedStands }
{}
