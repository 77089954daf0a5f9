//! The cut for which rows stand, and what is known of plain rows, as laws.
ghost use Rattle.bep_rows.specs.AllRows.{NamesAreOfRows, NoOtherNames, RowsAreOfTheirCut};
ghost use Rattle.bep_rows.specs.Plain.{PlainRowsAreFirm};

use bep_choice::laws::choice_exists;
use bep_parts::documents_say_only;
use bep_row::rows_make_cuts;
use bep_tables::{cut_says, names_are_known};

/// A header without messages and rows of different names stand for a cut: each row is one of it, and it has no other names.
pub fn rows_make_a_cut()
    ensures rows { RowsAreOfTheirCut }
    ensures others { NoOtherNames }
    ensures names { NamesAreOfRows }
{
    documents_say_only();
}

/// The cut that has the name of a plain row alone is firm, and so it is settled, where the row fits its header.
pub fn plain_rows_are_firm()
    ensures { PlainRowsAreFirm }
{
    choice_exists();
    cut_says();
    names_are_known();
    rows_make_cuts();
}
