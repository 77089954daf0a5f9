//! All that keeps a cut from converging, each once, in order.
ghost use Rattle.std.specs.Prelude.{◌≡◌, ◌↔◌, [], IfOk, map};
ghost use Rattle.bep_tables.specs.Cut.{tables_of};
ghost use Rattle.bep_tables.specs.Listed.{IsGrouped, cut_listed};
ghost use Rattle.bep_converge.specs.Prevails.{AllPrevail};
ghost use Rattle.bep_converge.specs.ConvergeVerdict.{IsConvergeVerdict};
ghost use Rattle.bep_gather.specs.Adding.{AddsFailing};
ghost use Rattle.bep_gather.specs.Distinct.{distinct, is_below_next};
ghost use Rattle.bep_converge_check.specs.Hindrance.{hinder_shown};
ghost use Rattle.bep_converge_check.specs.inner.HindranceOrder.{hinder_lent_cmp};
ghost use Rattle.bep_converge_check.specs.Hindrances.{AreHindrances, IsMetThere, converge_verdict_of};

use crate::all_at::{add_all_at, copy_of};
use crate::hindrance::Hindrance;
use crate::walk::{entries_at, next_key};
use bep_converge::converging_is_faultless;
use bep_tables::{Cut, Table, TableEntry, entries_are_held};
use std::alloc::{AllocError, Global};

/// All of the eight reasons that fail, each at every place at which it fails, or want of memory: by reason, then folder, name
/// and device, each once. The list is empty exactly where the cut converges, and its first is what `converge_verdict` tells.
///
/// Groups the cut by folder and name, and looks at each name once.
pub fn hindrances<'a>(alloc: Global, cut: &'a Cut) -> Result<Vec<Hindrance<'a>>, AllocError>
    ensures all { IfOk result (λ found. AreHindrances (tables_of cut.now) (map hinder_shown found.items)) }
    ensures converging { IfOk result (λ found. (found.items ≡ []) ↔ AllPrevail (tables_of cut.now)) }
    ensures verdict { IfOk result (λ found. IsConvergeVerdict (tables_of cut.now) (converge_verdict_of (map hinder_shown found.items))) }
{
    converging_is_faultless();
    let table = Table::of(alloc, cut)?;
    let mut found = gathered(alloc, cut, table.entries())?;
    found.sort()?;
    let kept = distinct(alloc, found.as_slice())?;
    Ok(kept)
}

// All of them, as they are met.
fn gathered<'a>(
    alloc: Global,
    cut: &Cut,
    table: &[TableEntry<'a>],
) -> Result<Vec<Hindrance<'a>>, AllocError>
    requires { IsGrouped (cut_listed cut.now) table.now }
    ensures { IfOk result (λ found. AddsFailing (IsMetThere (tables_of cut.now)) [] (map hinder_shown found.items)) }
{
    entries_are_held();
    cut.is_a_cut();
    let mut found = Vec::new(alloc);
    let mut at = 0;
    while let Some((folder, name)) = next_key(&table[at..]) {
        let group = entries_at(&table[at..], folder, name);
        add_all_at(alloc, &mut found, cut, group, folder, name)?;
        at += group.len();
    }
    Ok(found)
}

// Those of them, in order, that are below the next.
fn distinct<'a>(alloc: Global, sorted: &[Hindrance<'a>]) -> Result<Vec<Hindrance<'a>>, AllocError>
    ensures { IfOk result (λ kept. kept.items ≡ distinct hinder_lent_cmp sorted.now) }
{
    let mut kept = Vec::new(alloc);
    for place in 0..sorted.len() {
        let one = &sorted[place];
        if is_below_next(one, &sorted[place + 1..]) {
            kept.reserve(1)?;
            kept.push_reserved(copy_of(one));
        }
    }
    Ok(kept)
}

// Whether this one is below the first of those, if there is one.
fn is_below_next(one: &Hindrance<'_>, more: &[Hindrance<'_>]) -> bool
    ensures { result ≡ is_below_next hinder_lent_cmp one.now more.now }
{
    match more {
        [] => true,
        [next, ..] => one.compare(next).is_lt(),
    }
}
