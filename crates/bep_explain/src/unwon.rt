//! All failures under the winners of a cut's names, of which some may have none.
ghost use Rattle.std.specs.Prelude.{◌≡◌, ◌↔◌, [], map, IfOk};
ghost use Rattle.bep_model.specs.Settled.{IsSettled};
ghost use Rattle.bep_tables.specs.Cut.{tables_of};
ghost use Rattle.bep_audit.specs.Walk.{failure_shown};
ghost use Rattle.bep_explain.specs.Unwon as spec;
ghost use Rattle.bep_explain.specs.Unwon.{AreFailuresUnwon};

use crate::collect::copy_of;
use crate::failures;
use bep_audit::{Certificate, Failure};
use bep_model::Reason;
use bep_tables::Cut;
use std::alloc::{AllocError, Global};

/// All failures under the winners of the cut's names, which the certificate has, as `failures` has them; or want of memory.
/// A name without a winner, for which no row can stand, is told as that.
pub(crate) fn failures_unwon<'a>(
    alloc: Global,
    cut: &'a Cut,
    certificate: &'a Certificate,
) -> Result<Vec<Failure<'a>>, AllocError>
    ensures all { IfOk result (λ told. AreFailuresUnwon (tables_of cut.now) certificate.now (map failure_shown told.items)) }
    ensures settled { IfOk result (λ told. (told.items ≡ []) ↔ IsSettled (tables_of cut.now) certificate.now) }
{
    let found = failures(alloc, cut, certificate)?;
    all_unwon(alloc, found.as_slice())
}

// Each of these, as it is told.
fn all_unwon<'a>(alloc: Global, found: &[Failure<'a>]) -> Result<Vec<Failure<'a>>, AllocError>
    ensures { IfOk result (λ told. map failure_shown told.items ≡ map spec.as_unwon (map failure_shown found.now)) }
{
    let mut told = Vec::new(alloc);
    for one in found {
        told.reserve(1)?;
        told.push_reserved(as_unwon(one));
    }
    Ok(told)
}

fn as_unwon<'a>(one: &Failure<'a>) -> Failure<'a>
    ensures { failure_shown result ≡ spec.as_unwon (failure_shown one.now) }
{
    let Failure { reason, spot } = copy_of(one);
    Failure {
        reason: reason_unwon(reason),
        spot,
    }
}

fn reason_unwon(reason: Reason) -> Reason
    ensures { result ≡ spec.reason_unwon reason }
{
    match reason {
        Reason::NameMissing => Reason::NotWinner,
        _ => reason,
    }
}
