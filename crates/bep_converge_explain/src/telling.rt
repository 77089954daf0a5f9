//! What a person asks next of what keeps a cut from converging, and whether anything does.
ghost use Rattle.std.specs.Prelude.{◌≡◌, map};
ghost use Rattle.bep_converge_check.specs.Hindrance.{hinder_shown};
ghost use Rattle.bep_converge_explain.specs.inner.Added.{no_hinder};

use bep_converge_check::{ConvergeReason, Hindrance};
use bep_explain::Telling;

/// What is told below the reason's line. No contract speaks of it.
pub(crate) fn telling_of(reason: ConvergeReason) -> Telling {
    match reason {
        ConvergeReason::NothingPrevails => Telling::Known,
        ConvergeReason::Concurrent => Telling::Known,
        ConvergeReason::ContentDiffers => Telling::Known,
        ConvergeReason::LocalOnly => Telling::Held,
        ConvergeReason::StoreUnclean => Telling::Held,
        ConvergeReason::StoreDiffers => Telling::Held,
        ConvergeReason::SendOnly => Telling::HeldBesideWinner,
        ConvergeReason::WouldCopy => Telling::CountsMore,
    }
}

/// Whether nothing was found.
pub(crate) fn is_clear(found: &[Hindrance<'_>]) -> bool
    ensures { result ≡ no_hinder (map hinder_shown found.now) }
{
    match found {
        [] => true,
        _ => false,
    }
}
