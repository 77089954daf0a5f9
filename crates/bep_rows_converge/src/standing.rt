//! What is answered of names of which it is asked whether they converge.
ghost use Rattle.std.specs.Prelude.{◌≡◌, IfOk};
ghost use Rattle.bep_converge.specs.ConvergeVerdict.{IsConvergeVerdict};
ghost use Rattle.bep_converge_check.specs.Hindrance.{converge_shown};
ghost use Rattle.bep_lines.specs.Text.{AppendsWhole};
ghost use Rattle.bep_tables.specs.Cut.{tables_of};
ghost use Rattle.bep_tables.specs.Listed.{IsGrouped, cut_listed};
ghost use Rattle.bep_rows_converge.specs.Standing.{hindrance_line, joined, precedes, verdict_of};

use bep_audit::Spot;
use bep_converge_answer::converge_word_of;
use bep_converge_check::{ConvergeReason, ConvergeVerdict, Hindrance, converge_verdict_grouped};
use bep_lines::push_reason;
use bep_record::{DeviceId, FolderName, Name};
use bep_tables::{Cut, Table};
use std::alloc::{AllocError, Global};

/// What is answered of names of which it is asked whether they converge.
#[derive(Debug, Drop)]
pub enum ConvergeStanding {
    /// They do.
    Converging,
    /// They don't: the first of the eight reasons that fails, and where.
    Not(ConvergeReason, FolderName, Name, Option<DeviceId>),
}

impl ConvergeStanding {
    // The verdict, with names of its own.
    pub(crate) fn of(alloc: Global, verdict: &ConvergeVerdict<'_>) -> Result<Self, AllocError>
        ensures { IfOk result (λ made. verdict_of made ≡ converge_shown verdict.now) }
    {
        match *verdict {
            ConvergeVerdict::Converging => Ok(ConvergeStanding::Converging),
            ConvergeVerdict::NotConverging(reason, folder, name, device) => Ok(
                ConvergeStanding::Not(reason, folder.copy(alloc)?, name.copy(alloc)?, device),
            ),
        }
    }

    // The verdict, with lent names.
    pub(crate) fn verdict(&self) -> ConvergeVerdict<'_>
        ensures { converge_shown result ≡ verdict_of self.now }
    {
        match self {
            ConvergeStanding::Converging => ConvergeVerdict::Converging,
            ConvergeStanding::Not(reason, folder, name, device) => {
                ConvergeVerdict::NotConverging(*reason, folder, name, *device)
            }
        }
    }

    /// What is answered of these names and of later ones. It takes no memory.
    pub fn joined(self, later: ConvergeStanding) -> Self
        ensures { result ≡ joined self later }
    {
        if later.precedes(&self) { later } else { self }
    }

    // Whether this comes before what is answered of names that come before: by reason, then by place.
    fn precedes(&self, earlier: &ConvergeStanding) -> bool
        ensures { result ≡ precedes self.now earlier.now }
    {
        match (self, earlier) {
            (ConvergeStanding::Converging, _) => false,
            (ConvergeStanding::Not(_, _, _, _), ConvergeStanding::Converging) => true,
            (
                ConvergeStanding::Not(reason, folder, name, device),
                ConvergeStanding::Not(other, in_folder, at_name, of),
            ) => {
                let here = Hindrance {
                    reason: *reason,
                    spot: Spot {
                        folder,
                        name,
                        device: *device,
                    },
                };
                let there = Hindrance {
                    reason: *other,
                    spot: Spot {
                        folder: in_folder,
                        name: at_name,
                        device: *of,
                    },
                };
                here.compare(&there).is_lt()
            }
        }
    }
}

// What is answered of the cut, by its table; or want of memory.
pub(crate) fn standing_of(
    alloc: Global,
    cut: &Cut,
    table: &Table<'_>,
) -> Result<ConvergeStanding, AllocError>
    requires { IsGrouped (cut_listed cut.now) table.now }
    ensures { IfOk result (λ standing. IsConvergeVerdict (tables_of cut.now) (verdict_of standing)) }
{
    match converge_verdict_grouped(alloc, cut, table) {
        Ok(verdict) => ConvergeStanding::of(alloc, &verdict),
        Err(error) => Err(error),
    }
}

// Appends the line of a name that doesn't converge, and nothing for another. Fails for memory alone, and then the text is as before.
pub(crate) fn push_hindrance(
    text: &mut Vec<u8>,
    standing: &ConvergeStanding,
) -> Result<(), AllocError>
    ensures { AppendsWhole result text.old.items text.new.items (hindrance_line (verdict_of standing.now)) }
{
    match standing {
        ConvergeStanding::Converging => Ok(()),
        ConvergeStanding::Not(reason, folder, name, device) => {
            push_reason(text, converge_word_of(*reason), folder, name, *device)
        }
    }
}
