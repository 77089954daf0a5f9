//! What is answered of a row beside its header.
ghost use Rattle.std.specs.Prelude.{◌≡◌, ◌⊎◌, Err, IfErr, IfOk, OnOk};
ghost use Rattle.bep_parts.specs.Parts.{only};
ghost use Rattle.bep_row.specs.Fits.{Fits};
ghost use Rattle.bep_row.specs.Row.{cut_with};
ghost use Rattle.bep_rows.specs.Names.{is_name};
ghost use Rattle.bep_rows.specs.Row.{IsRowOf};
ghost use Rattle.bep_rows.specs.Standing.{IsStanding};
ghost use Rattle.bep_rows.specs.declared.row.RowError.TheVariants.{Memory, OutOfOrder, Unfit};
ghost use Rattle.bep_tables.specs.Cut.{tables_of};
ghost use Rattle.bep_tables.specs.declared.cut.CutParts.{CutParts};

use crate::{Aim, NotAbove, Standing, plain_rows_are_firm, standing_of};
use bep_parts::documents_say_only;
use bep_row::{NameRow, cut_of, is_plain, row_fits};
use bep_tables::Cut;
use std::alloc::{AllocError, Global};

/// Why a row isn't answered.
#[derive(Clone, Copy, Debug, PartialEq, Eq)]
pub enum RowError {
    /// It doesn't fit its header.
    Unfit,
    /// Its name isn't above the one before it.
    OutOfOrder,
    /// Memory ran out.
    Memory,
}

impl From<AllocError> for RowError {
    ghost from_gives = { λ _ e. e ≡ Memory };

    fn from(_error: AllocError) -> RowError {
        RowError::Memory
    }
}

impl From<NotAbove> for RowError {
    ghost from_gives = { λ _ e. e ≡ OutOfOrder };

    fn from(_error: NotAbove) -> RowError {
        RowError::OutOfOrder
    }
}

/// What is answered of the row beside its header: what is to be said of the row's name in each cut that has the header's
/// folders and links, and the row's records and nodes of this name.
pub fn standing_of_row(
    alloc: Global,
    aim: Aim,
    header: &Cut,
    row: &NameRow,
) -> Result<Standing, RowError>
    ensures stands { IfOk result (λ standing. (whole : CutParts) → IsRowOf whole header.now row.now →
        IsStanding aim (only (is_name (row.now.folder, row.now.name)) (tables_of whole)) standing) }
    ensures fits { OnOk result (Fits header.now row.now) }
    ensures unfit { result ≡ Err Unfit → ¬ Fits header.now row.now }
    ensures only { IfErr result (λ e. (e ≡ Unfit) ⊎ (e ≡ Memory)) }
{
    documents_say_only();
    if !row_fits(header, row) {
        return Err(RowError::Unfit);
    }
    let standing = standing_beside(alloc, aim, header, row)?;
    Ok(standing)
}

/// What is answered of the cut that has the name of the row alone, which fits the header; or want of memory. Of a plain row
/// that is known without the cut.
pub fn standing_beside(
    alloc: Global,
    aim: Aim,
    header: &Cut,
    row: &NameRow,
) -> Result<Standing, AllocError>
    requires { Fits header.now row.now }
    ensures { IfOk result (IsStanding aim (tables_of (cut_with header.now row.now))) }
{
    plain_rows_are_firm();
    header.is_a_cut();
    if is_plain(header, row) {
        return Ok(Standing::Met);
    }
    let cut = cut_of(alloc, header, row)?;
    let standing = standing_of(alloc, aim, &cut)?;
    Ok(standing)
}
