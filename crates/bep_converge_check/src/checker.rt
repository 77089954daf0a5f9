//! Whether a cut converges: whether of each of its names one record prevails, and comes to all.
ghost use Rattle.std.specs.Prelude.{◌≡◌, ◌↔◌, IfOk};
ghost use Rattle.bep_tables.specs.Cut.{tables_of};
ghost use Rattle.bep_tables.specs.Listed.{IsGrouped, cut_listed};
ghost use Rattle.bep_converge.specs.Prevails.{AllPrevail};
ghost use Rattle.bep_converge.specs.ConvergeVerdict.{IsConvergeVerdict};
ghost use Rattle.bep_converge.specs.Laws.{GoesOnInRuns};
ghost use Rattle.bep_converge_check.specs.Hindrance.{converge_shown};
ghost use Rattle.bep_converge_check.specs.declared.checker.ConvergeVerdict.TheVariants.{Converging};

use crate::walk::least_hindrance;
use bep_converge::{ConvergeReason, converging_is_faultless, prevailing_goes_on};
use bep_record::{DeviceId, FolderName, Name};
use bep_tables::{Cut, Table};
use std::alloc::{AllocError, Global};

/// What the checker finds where it is asked whether a cut converges, lent from the cut.
#[derive(Clone, Copy, Debug, PartialEq, Eq)]
pub enum ConvergeVerdict<'a> {
    /// Of each known name one record prevails.
    Converging,
    /// The first of the eight reasons that fails, and where: a folder, a name, and the device where it fails at one.
    NotConverging(ConvergeReason, &'a FolderName, &'a Name, Option<DeviceId>),
}

/// Whether the cut converges; if not, the first of the eight reasons that fails, at its first place. Want of memory is the only
/// error.
///
/// Where it answers `Converging`, nothing is lost and no conflict copy is made on the way, whatever this project's peers do,
/// without local edits and index resets: each device has of each name the very record and file that it had, or those of a
/// record that was known and is above its own one; no name has come; and what prevailed prevails still.
pub fn converge_verdict<'a>(alloc: Global, cut: &'a Cut) -> Result<ConvergeVerdict<'a>, AllocError>
    ensures verdict { IfOk result (λ verdict. IsConvergeVerdict (tables_of cut.now) (converge_shown verdict)) }
    ensures converging { IfOk result (λ verdict. (verdict ≡ Converging) ↔ AllPrevail (tables_of cut.now)) }
    ensures goes_on { IfOk result (λ verdict. verdict ≡ Converging → GoesOnInRuns (tables_of cut.now)) }
{
    let table = Table::of(alloc, cut)?;
    converge_verdict_grouped(alloc, cut, &table)
}

/// The same by the cut's table.
pub fn converge_verdict_grouped<'a>(
    alloc: Global,
    cut: &'a Cut,
    table: &Table<'a>,
) -> Result<ConvergeVerdict<'a>, AllocError>
    requires { IsGrouped (cut_listed cut.now) table.now }
    ensures verdict { IfOk result (λ verdict. IsConvergeVerdict (tables_of cut.now) (converge_shown verdict)) }
    ensures converging { IfOk result (λ verdict. (verdict ≡ Converging) ↔ AllPrevail (tables_of cut.now)) }
    ensures goes_on { IfOk result (λ verdict. verdict ≡ Converging → GoesOnInRuns (tables_of cut.now)) }
{
    converging_is_faultless();
    prevailing_goes_on();
    match least_hindrance(alloc, cut, table.entries()) {
        Ok(None) => Ok(ConvergeVerdict::Converging),
        Ok(Some(one)) => Ok(ConvergeVerdict::NotConverging(
            one.reason,
            one.spot.folder,
            one.spot.name,
            one.spot.device,
        )),
        Err(error) => Err(error),
    }
}
