//! The winners of a cut's names, and its certificate where each known name has one.
ghost use Rattle.std.specs.Prelude.{◌≡◌, ◌++◌, ◌∷◌, [], IfOk, IfErr, OnOk, map};
ghost use Rattle.bep_tables.specs.Cut.{tables_of};
ghost use Rattle.bep_tables.specs.Listed.{IsGrouped, cut_listed, listed};
ghost use Rattle.bep_model.specs.Settled.{IsListOfWinners};
ghost use Rattle.bep_audit.specs.Certifier.{TellsOf, TellsOfFirst, IsSettledIfAny, IsNeverSettled, AddsName, AreWinners, place_of};
ghost use Rattle.bep_audit.specs.Group.{IsGroupOf};
ghost use Rattle.bep_audit.specs.Shown.{place_shown};

use crate::group::has_known;
use crate::spot::Spot;
use crate::walk::{entries_at, next_key};
use crate::winner::winner_in;
use crate::{Certificate, CertifyError};
use bep_model::{Row, certificate_is_unique, winners_or_first_without};
use bep_record::{FolderName, Name};
use bep_tables::{Cut, Table, TableEntry, entries_are_held};
use std::alloc::{AllocError, Global};

/// The certificate of the cut: the winner of each known name, names rising. If a known name has no winner there is no
/// certificate, and the error tells the first such name. Or want of memory.
///
/// Where the cut is settled for any list of rows, it is settled for this certificate, which is that list.
pub fn certify(alloc: Global, cut: &Cut) -> Result<Certificate, CertifyError>
    ensures winners { IfOk result (IsListOfWinners (tables_of cut.now)) }
    ensures settled_if_any { IfOk result (IsSettledIfAny (tables_of cut.now)) }

    ensures no_winner { IfErr result (TellsOfFirst (tables_of cut.now)) }
    ensures never_settled { IfErr result (TellsOf (λ _. IsNeverSettled (tables_of cut.now))) }
{
    let table = Table::of(alloc, cut)?;
    certify_grouped(alloc, cut, &table)
}

/// The same by the cut's table.
pub fn certify_grouped(
    alloc: Global,
    cut: &Cut,
    table: &Table<'_>,
) -> Result<Certificate, CertifyError>
    requires { IsGrouped (cut_listed cut.now) table.now }
    ensures winners { IfOk result (IsListOfWinners (tables_of cut.now)) }
    ensures settled_if_any { IfOk result (IsSettledIfAny (tables_of cut.now)) }

    ensures no_winner { IfErr result (TellsOfFirst (tables_of cut.now)) }
    ensures never_settled { IfErr result (TellsOf (λ _. IsNeverSettled (tables_of cut.now))) }
{
    certificate_is_unique();
    winners_or_first_without();
    let (certificate, without) = winners_grouped(alloc, cut, table)?;
    match without.as_slice() {
        [] => Ok(certificate),
        [first, ..] => {
            let (folder, name) = (first.folder.copy(alloc)?, first.name.copy(alloc)?);
            Err(CertifyError::NoWinner(folder, name))
        }
    }
}

/// The winners of the cut as far as there are any: the row of each known name that has one, names rising, and the places of
/// the known names that have none, rising too; or want of memory.
///
/// Groups the cut by folder and name, and walks once over the groups.
pub fn winners<'a>(alloc: Global, cut: &'a Cut) -> Result<(Certificate, Vec<Spot<'a>>), AllocError>
    ensures { IfOk result (λ found. AreWinners (tables_of cut.now) found.0 (map place_shown found.1.items)) }
{
    let table = Table::of(alloc, cut)?;
    winners_grouped(alloc, cut, &table)
}

// The same by the cut's table.
fn winners_grouped<'a>(
    alloc: Global,
    cut: &Cut,
    table: &Table<'a>,
) -> Result<(Certificate, Vec<Spot<'a>>), AllocError>
    requires { IsGrouped (cut_listed cut.now) table.now }
    ensures { IfOk result (λ found. AreWinners (tables_of cut.now) found.0 (map place_shown found.1.items)) }
{
    let (rows, without) = winners_among(alloc, cut, table.entries())?;
    Ok((Certificate::of(rows), without))
}

// The rows and the places of all known names of the table.
fn winners_among<'a>(
    alloc: Global,
    cut: &Cut,
    table: &[TableEntry<'a>],
) -> Result<(Vec<Row>, Vec<Spot<'a>>), AllocError>
    requires { IsGrouped (cut_listed cut.now) table.now }
    ensures { IfOk result (λ found. AreWinners (tables_of cut.now) found.0.items (map place_shown found.1.items)) }
{
    entries_are_held();
    cut.is_a_cut();
    let mut rows = Vec::new(alloc);
    let mut without = Vec::new(alloc);
    let mut at = 0;
    while let Some((folder, name)) = next_key(&table[at..], &[]) {
        let group = entries_at(&table[at..], folder, name);
        add_name(alloc, cut, group, folder, name, &mut rows, &mut without)?;
        at += group.len();
    }
    Ok((rows, without))
}

// Adds the row of the name, whose entries these are, if it is known, or its place where it has no winner.
fn add_name<'a>(
    alloc: Global,
    cut: &Cut,
    group: &[TableEntry<'a>],
    folder: &'a FolderName,
    name: &'a Name,
    rows: &mut Vec<Row>,
    without: &mut Vec<Spot<'a>>,
) -> Result<(), AllocError>
    requires { IsGroupOf cut.now (folder.now, name.now) (map listed group.now) }
    ensures { OnOk result (AddsName (tables_of cut.now) (folder.now, name.now) rows.old.items rows.new.items (map place_shown without.old.items) (map place_shown without.new.items)) }
{
    entries_are_held();
    cut.is_a_cut();
    if !has_known(group) {
        return Ok(());
    }
    match winner_in(cut, group, folder) {
        Some(one) => {
            rows.push(Row::of(alloc, folder, one.0, one.1)?)?;
            Ok(())
        }
        None => {
            add_place(without, folder, name)?;
            Ok(())
        }
    }
}

// Adds the place of the name as a whole.
fn add_place<'a>(
    places: &mut Vec<Spot<'a>>,
    folder: &'a FolderName,
    name: &'a Name,
) -> Result<(), AllocError>
    ensures { OnOk result (map place_shown places.new.items ≡ map place_shown places.old.items ++ place_of (folder.now, name.now) ∷ []) }
{
    places.reserve(1)?;
    places.push_reserved(Spot::of_name(folder, name));
    Ok(())
}
