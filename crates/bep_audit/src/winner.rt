//! The winner of a name in a cut, and whether a row holds it.
ghost use Rattle.std.specs.Prelude.{◌≡◌, ◌↔◌, IsTrue, IfSome, IfNone, map, option_map};
ghost use Rattle.bep_choice.specs.Choice.{Candidate, candidate_of};
ghost use Rattle.bep_tables.specs.Cut.{tables_of};
ghost use Rattle.bep_tables.specs.Listed.{listed};
ghost use Rattle.bep_model.specs.Settled.{key_of};
ghost use Rattle.bep_model.specs.Tables.{Tables, FileName};
ghost use Rattle.bep_model.specs.Winner.{IsWinner};
ghost use Rattle.bep_audit.specs.Candidates.{FindsWinner};
ghost use Rattle.bep_audit.specs.Group.{IsGroupOf};

use crate::candidates::winner_among;
use crate::owns::Owns;
use bep_model::{Row, winner_is_unique};
use bep_record::{DeviceId, FolderName, Name, Record, Same};
use bep_tables::{Cut, TableEntry, cut_says, entries_are_held};

/// The device and the record that win the name in the folder; `None` exactly where the name has no winner. The record
/// has this name. Takes no memory.
pub fn winner_of<'a>(
    cut: &'a Cut,
    folder: &FolderName,
    name: &Name,
) -> Option<(DeviceId, &'a Record)>
    ensures wins { IfSome result (λ one. IsWinner (tables_of cut.now) folder.now name.now (candidate_of one)) }
    ensures named { IfSome result (λ one. one.1.now.name ≡ name.now) }
    ensures none { IfNone result ((one : Candidate) → ¬ IsWinner (tables_of cut.now) folder.now name.now one) }
{
    cut_says();
    winner_among(cut.shares(folder), Owns::Named(name))
}

/// What `winner_of` finds of a name of the folder, found among the name's entries.
pub fn winner_in<'a>(
    cut: &'a Cut,
    group: &[TableEntry<'a>],
    folder: &FolderName,
) -> Option<(DeviceId, &'a Record)>
    ensures { (name : FileName) →
        IsGroupOf cut.now (folder.now, name) (map listed group.now) →
        FindsWinner (tables_of cut.now) folder.now name (option_map candidate_of result) }
{
    cut_says();
    entries_are_held();
    winner_among(cut.shares(folder), Owns::Grouped(group))
}

/// Whether the row holds the winner of its name: the device and the record in all fields. Takes no memory.
pub fn is_winner(cut: &Cut, row: &Row) -> bool
    ensures { IsTrue result ↔ IsWinner (tables_of cut.now) row.now.folder row.now.entry.name (row.now.device, row.now.entry) }
{
    winner_is_unique();
    match winner_of(cut, &row.folder, &row.entry.entry().name) {
        None => false,
        Some(one) => is_of_row(&one, row),
    }
}

/// What `is_winner` answers, found among the entries of the row's name.
pub(crate) fn is_winner_in<'a>(cut: &'a Cut, group: &[TableEntry<'a>], row: &Row) -> bool
    requires { IsGroupOf cut.now (key_of row.now) (map listed group.now) }
    ensures { IsTrue result ↔ IsWinner (tables_of cut.now) row.now.folder row.now.entry.name (row.now.device, row.now.entry) }
{
    holds_winner(&winner_in(cut, group, &row.folder), row)
}

/// Whether the row holds what was found of its name's winner.
pub fn holds_winner(found: &Option<(DeviceId, &Record)>, row: &Row) -> bool
    ensures { (t : Tables) →
        FindsWinner t row.now.folder row.now.entry.name (option_map candidate_of found.now) →
        IsTrue result ↔ IsWinner t row.now.folder row.now.entry.name (row.now.device, row.now.entry) }
{
    winner_is_unique();
    match found {
        None => false,
        Some(one) => is_of_row(one, row),
    }
}

// Whether this is the row's device with the row's record.
fn is_of_row(one: &(DeviceId, &Record), row: &Row) -> bool
    ensures { IsTrue result ↔ (candidate_of one.now ≡ (row.now.device, row.now.entry)) }
{
    one.0 == row.device && one.1.same(&row.entry)
}
