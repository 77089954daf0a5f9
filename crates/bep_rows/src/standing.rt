//! What is answered of a cut under the list of its names' winners.
ghost use Rattle.std.specs.Prelude.{◌≡◌, IfOk};
ghost use Rattle.bep_tables.specs.Cut.{tables_of};
ghost use Rattle.bep_tables.specs.Listed.{IsGrouped, cut_listed};
ghost use Rattle.bep_rows.specs.Standing.{IsJudged, IsStanding, joined, precedes};
ghost use Rattle.bep_rows.specs.declared.aim.Aim.TheVariants as aims;

use crate::Aim;
use bep_audit::{
    Certificate, CertifyError, Failure, FirmReason, FirmVerdict, Looseness, Reason, Spot, Verdict,
    certify_grouped, check_grouped, firm_verdict_grouped,
};
use bep_record::{DeviceId, FolderName, Name};
use bep_tables::{Cut, Table};
use std::alloc::{AllocError, Global};

/// What is answered of a cut under the list of its names' winners.
#[derive(Debug, Drop)]
pub enum Standing {
    /// It is what is asked of it.
    Met,
    /// It isn't settled: the first reason that fails, and where.
    Not(Reason, FolderName, Name, Option<DeviceId>),
    /// It is settled, and isn't firm, which is asked of it: the first of the four further reasons that fails, and where.
    Loose(FirmReason, FolderName, Name, DeviceId),
    /// There is no such list: the first known name without a winner.
    Unwon(FolderName, Name),
}

impl Standing {
    /// What is answered of two parts of a cut together: this part's names come before all of the other's. It takes no memory.
    pub fn joined(self, later: Standing) -> Self
        ensures { result ≡ joined self later }
    {
        if later.precedes(&self) { later } else { self }
    }

    // Whether this comes before what is answered of names that come before. A name without a winner comes first, then what isn't
    // settled, then what isn't firm; of reasons that fail, the first by number, then by place.
    fn precedes(&self, earlier: &Standing) -> bool
        ensures { result ≡ precedes self.now earlier.now }
    {
        match (self, earlier) {
            (_, Standing::Unwon(_, _)) => false,
            (Standing::Unwon(_, _), _) => true,
            (Standing::Met, _) => false,
            (Standing::Not(_, _, _, _), Standing::Met) => true,
            (Standing::Loose(_, _, _, _), Standing::Met) => true,
            (Standing::Not(_, _, _, _), Standing::Loose(_, _, _, _)) => true,
            (Standing::Loose(_, _, _, _), Standing::Not(_, _, _, _)) => false,
            (
                Standing::Not(reason, folder, name, device),
                Standing::Not(other, in_folder, at_name, of),
            ) => {
                let here = Failure {
                    reason: *reason,
                    spot: Spot {
                        folder,
                        name,
                        device: *device,
                    },
                };
                let there = Failure {
                    reason: *other,
                    spot: Spot {
                        folder: in_folder,
                        name: at_name,
                        device: *of,
                    },
                };
                here.compare(&there).is_lt()
            }
            (
                Standing::Loose(reason, folder, name, device),
                Standing::Loose(other, in_folder, at_name, of),
            ) => {
                let later = Looseness {
                    reason: *reason,
                    folder,
                    name,
                    device: *device,
                };
                let before = Looseness {
                    reason: *other,
                    folder: in_folder,
                    name: at_name,
                    device: *of,
                };
                later.compare(&before).is_lt()
            }
        }
    }
}

/// What is answered of the cut: the verdict under the list of its names' winners, or the first known name that has none. Or
/// want of memory.
pub fn standing_of(alloc: Global, aim: Aim, cut: &Cut) -> Result<Standing, AllocError>
    ensures { IfOk result (IsStanding aim (tables_of cut.now)) }
{
    let table = Table::of(alloc, cut)?;
    match certify_grouped(alloc, cut, &table) {
        Ok(certificate) => judged(alloc, aim, cut, &table, &certificate),
        Err(CertifyError::NoWinner(folder, name)) => Ok(Standing::Unwon(folder, name)),
        Err(CertifyError::Memory) => Err(AllocError),
    }
}

// The verdict on the cut and the rows, with names of its own.
fn judged(
    alloc: Global,
    aim: Aim,
    cut: &Cut,
    table: &Table<'_>,
    certificate: &Certificate,
) -> Result<Standing, AllocError>
    requires { IsGrouped (cut_listed cut.now) table.now }
    ensures { IfOk result (IsJudged aim (tables_of cut.now) certificate.now) }
{
    match aim {
        Aim::Settled => judged_settled(alloc, cut, table, certificate),
        Aim::Firm => judged_firm(alloc, cut, table, certificate),
    }
}

fn judged_settled(
    alloc: Global,
    cut: &Cut,
    table: &Table<'_>,
    certificate: &Certificate,
) -> Result<Standing, AllocError>
    requires { IsGrouped (cut_listed cut.now) table.now }
    ensures { IfOk result (IsJudged aims.Settled (tables_of cut.now) certificate.now) }
{
    match check_grouped(cut, table, certificate) {
        Verdict::Settled => Ok(Standing::Met),
        Verdict::Not(reason, folder, name, device) => Ok(Standing::Not(
            reason,
            folder.copy(alloc)?,
            name.copy(alloc)?,
            device,
        )),
    }
}

fn judged_firm(
    alloc: Global,
    cut: &Cut,
    table: &Table<'_>,
    certificate: &Certificate,
) -> Result<Standing, AllocError>
    requires { IsGrouped (cut_listed cut.now) table.now }
    ensures { IfOk result (IsJudged aims.Firm (tables_of cut.now) certificate.now) }
{
    match firm_verdict_grouped(cut, table, certificate) {
        FirmVerdict::Firm => Ok(Standing::Met),
        FirmVerdict::Unsettled(reason, folder, name, device) => Ok(Standing::Not(
            reason,
            folder.copy(alloc)?,
            name.copy(alloc)?,
            device,
        )),
        FirmVerdict::Loose(reason, folder, name, device) => Ok(Standing::Loose(
            reason,
            folder.copy(alloc)?,
            name.copy(alloc)?,
            device,
        )),
    }
}
