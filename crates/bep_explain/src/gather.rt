//! All failures, each once, in their order.
ghost use Rattle.std.specs.Prelude.{◌≡◌, ◌↔◌, [], map, IfOk, OnOk};
ghost use Rattle.bep_model.specs.Settled.{IsSettled};
ghost use Rattle.bep_model.specs.Verdict.{IsVerdict};
ghost use Rattle.bep_tables.specs.Cut.{tables_of};
ghost use Rattle.bep_audit.specs.FailureOrder.{lent_cmp};
ghost use Rattle.bep_audit.specs.Walk.{failure_shown};
ghost use Rattle.bep_gather.specs.Adding.{AddsFailing};
ghost use Rattle.bep_gather.specs.Distinct.{is_below_next, distinct};
ghost use Rattle.bep_explain.specs.Found.{AreFailures, IsMet, verdict_of};

use crate::collect::{add_out_of_order, add_rows, copy_of};
use crate::missing::add_missing;
use crate::rows::sorted_by_name;
use bep_audit::{Certificate, Failure, group_says};
use bep_model::{Row, reasons_are_numbered, settled_is_faultless};
use bep_tables::{Cut, Table, cut_says, entries_are_held};
use std::alloc::{AllocError, Global};

/// All reasons that fail, each at every place at which it fails, or want of memory: by reason, then folder, name and
/// device, each once. The list is empty exactly where the cut is settled under the certificate, and its first is what
/// the verdict tells.
///
/// Of rows that don't rise only the first out of order fails for that; each row is judged all the same.
///
/// Groups the cut by folder and name, and sorts the rows so. Then it looks at each name once: it asks each reason of each
/// device beside two of the name's rows at most, and so hashes each file twice at most.
pub fn failures<'a>(
    alloc: Global,
    cut: &'a Cut,
    certificate: &'a Certificate,
) -> Result<Vec<Failure<'a>>, AllocError>
    ensures all { IfOk result (λ found. AreFailures (tables_of cut.now) certificate.now (map failure_shown found.items)) }
    ensures settled { IfOk result (λ found. (found.items ≡ []) ↔ IsSettled (tables_of cut.now) certificate.now) }
    ensures verdict { IfOk result (λ found. IsVerdict (tables_of cut.now) certificate.now (verdict_of (map failure_shown found.items))) }
{
    reasons_are_numbered();
    settled_is_faultless();
    let mut found = gathered(alloc, cut, certificate.rows())?;
    found.sort()?;
    let kept = distinct(alloc, found.as_slice())?;
    Ok(kept)
}

// All failures, as they are met.
fn gathered<'a>(
    alloc: Global,
    cut: &'a Cut,
    rows: &'a [Row],
) -> Result<Vec<Failure<'a>>, AllocError>
    ensures { IfOk result (λ found. AddsFailing (IsMet (tables_of cut.now) rows.now) [] (map failure_shown found.items)) }
{
    cut_says();
    entries_are_held();
    group_says();
    cut.is_a_cut();
    let mut found = Vec::new(alloc);
    let table = Table::of(alloc, cut)?;
    let entries = table.entries();
    let by_name = sorted_by_name(alloc, rows)?;
    let sorted = by_name.as_slice();
    add_out_of_order(&mut found, rows)?;
    add_missing(&mut found, entries, sorted)?;
    add_rows(&mut found, cut, entries, sorted)?;
    Ok(found)
}

// Those failures, in order, that are below the next.
fn distinct<'a>(alloc: Global, sorted: &[Failure<'a>]) -> Result<Vec<Failure<'a>>, AllocError>
    ensures { IfOk result (λ kept. kept.items ≡ distinct lent_cmp sorted.now) }
{
    let mut kept = Vec::new(alloc);
    for place in 0..sorted.len() {
        let one = &sorted[place];
        if is_below_next(one, &sorted[place + 1..]) {
            kept.reserve(1)?;
            kept.push_reserved(copy_of(one));
        }
    }
    Ok(kept)
}

// Whether the failure is below the first of these, if there is one.
fn is_below_next(one: &Failure<'_>, more: &[Failure<'_>]) -> bool
    ensures { result ≡ is_below_next lent_cmp one.now more.now }
{
    match more {
        [] => true,
        [next, ..] => one.compare(next).is_lt(),
    }
}
