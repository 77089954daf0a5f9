//! Whether nothing was found.
ghost use Rattle.std.specs.Prelude.{◌≡◌, ◌&&◌, map};
ghost use Rattle.bep_audit.specs.Loose.{loose_shown};
ghost use Rattle.bep_audit.specs.Walk.{failure_shown};
ghost use Rattle.bep_explain.specs.inner.Added.{no_failure, no_loose};

use bep_audit::{Failure, Looseness};

/// Whether nothing fails.
pub(crate) fn is_none(found: &[Failure<'_>]) -> bool
    ensures { result ≡ no_failure (map failure_shown found.now) }
{
    match found {
        [] => true,
        _ => false,
    }
}

/// Whether there is none of either.
pub(crate) fn is_firm(found: &[Failure<'_>], loose: &[Looseness<'_>]) -> bool
    ensures { result ≡ (no_failure (map failure_shown found.now) && no_loose (map loose_shown loose.now)) }
{
    is_none(found) && is_tight(loose)
}

// Whether nothing keeps a settled cut from being firm.
fn is_tight(loose: &[Looseness<'_>]) -> bool
    ensures { result ≡ no_loose (map loose_shown loose.now) }
{
    match loose {
        [] => true,
        _ => false,
    }
}
