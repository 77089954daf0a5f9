//! What is answered of a list of rows.
ghost use Rattle.std.specs.Prelude.{IfOk};
ghost use Rattle.bep_rows.specs.AllRows.{cut_by};
ghost use Rattle.bep_rows.specs.Standing.{IsStanding};
ghost use Rattle.bep_tables.specs.Cut.{tables_of};

use crate::{Aim, RowError, Standing, Stream, rows_make_a_cut, standing_of_row};
use bep_parts::verdict_by_parts;
use bep_row::{NameRow, header_fits};
use bep_tables::Cut;
use std::alloc::Global;

/// What is answered of the cut for which the rows stand beside the header. They must fit it, and their names must rise.
///
/// A caller that has the rows one by one does the same with a `Stream`, and needs the memory of one row.
pub fn standing_of_rows(
    alloc: Global,
    aim: Aim,
    header: &Cut,
    rows: &[NameRow],
) -> Result<Standing, RowError>
    ensures { IfOk result (IsStanding aim (tables_of (cut_by header.now rows.now))) }
{
    rows_make_a_cut();
    verdict_by_parts();
    if !header_fits(header) {
        return Err(RowError::Unfit);
    }
    let mut stream = Stream::new();
    for row in rows {
        let here = standing_of_row(alloc, aim, header, row)?;
        let (folder, name) = (row.folder.copy(alloc)?, row.name.copy(alloc)?);
        stream.take(folder, name, here)?;
    }
    Ok(stream.into_standing())
}
