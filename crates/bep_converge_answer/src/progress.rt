//! How far the names of each folder of a cut have come.
ghost use Rattle.std.specs.Prelude.{IfOk, map};
ghost use Rattle.bep_tables.specs.Listed.{IsGrouped, cut_listed};
ghost use Rattle.bep_converge_check.specs.Progress.{progress_shown};
ghost use Rattle.bep_converge_answer.specs.Convergence.{TellsProgress};

use bep_converge_check::{FolderProgress, progress_of};
use bep_tables::{Cut, Table};
use std::alloc::{AllocError, Global};

/// How far the names of each folder of the cut have come, by the cut's table; or want of memory.
pub(crate) fn progress_of_all<'a>(
    alloc: Global,
    cut: &'a Cut,
    table: &Table<'_>,
) -> Result<Vec<FolderProgress<'a>>, AllocError>
    requires { IsGrouped (cut_listed cut.now) table.now }
    ensures { IfOk result (λ told. TellsProgress cut.now (map progress_shown told.items)) }
{
    let mut told = Vec::new(alloc);
    let folders = cut.folders();
    for shared in folders {
        told.push(progress_of(cut, table, &shared.folder))?;
    }
    Ok(told)
}
