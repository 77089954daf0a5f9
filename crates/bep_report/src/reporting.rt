//! The report on a cut.
ghost use Rattle.bep_audit.specs.Loose.{firm_shown};
ghost use Rattle.bep_audit.specs.Shown.{verdict_shown};
ghost use Rattle.bep_lines.specs.Lines.{firm_verdict_line, verdict_line};
ghost use Rattle.bep_report.specs.Report.{firm_report_text, folder_text, folders_text, report_text};
ghost use Rattle.bep_lines.specs.Text.{AppendsWhole};
ghost use Rattle.bep_tables.specs.Listed.{IsGrouped, cut_listed};

use crate::deleted::count_deleted;
use crate::known::known_in;
use bep_audit::{FirmVerdict, Verdict};
use bep_lines::{
    firm_word_of, or_as_before, push_firm, push_folder, push_not_firm, push_not_settled,
    push_settled, word_of,
};
use bep_tables::{Cut, SharedFolder, Table};
use std::alloc::{AllocError, Global};

/// Appends the report on the cut: the line of the verdict, then a line for each folder, names rising. Fails for memory
/// alone, and then the text is as before.
pub fn push_report(
    alloc: Global,
    text: &mut Vec<u8>,
    cut: &Cut,
    verdict: &Verdict<'_>,
) -> Result<(), AllocError>
    ensures { AppendsWhole result text.old.items text.new.items (report_text cut.now (verdict_shown verdict.now)) }
{
    let table = Table::of(alloc, cut)?;
    push_report_by(alloc, text, cut, &table, verdict)
}

/// The same by the cut's table.
pub fn push_report_by(
    alloc: Global,
    text: &mut Vec<u8>,
    cut: &Cut,
    table: &Table<'_>,
    verdict: &Verdict<'_>,
) -> Result<(), AllocError>
    requires { IsGrouped (cut_listed cut.now) table.now }
    ensures { AppendsWhole result text.old.items text.new.items (report_text cut.now (verdict_shown verdict.now)) }
{
    let len = text.len();
    push_verdict(text, verdict)?;
    let pushed = push_folders(alloc, text, cut, table, cut.folders());
    or_as_before(text, len, pushed)
}

/// Appends the report on the cut where firm is asked for: the line of that verdict, then the same lines for the folders.
/// Fails for memory alone, and then the text is as before.
pub fn push_firm_report(
    alloc: Global,
    text: &mut Vec<u8>,
    cut: &Cut,
    verdict: &FirmVerdict<'_>,
) -> Result<(), AllocError>
    ensures { AppendsWhole result text.old.items text.new.items (firm_report_text cut.now (firm_shown verdict.now)) }
{
    let table = Table::of(alloc, cut)?;
    push_firm_report_by(alloc, text, cut, &table, verdict)
}

/// The same by the cut's table.
pub fn push_firm_report_by(
    alloc: Global,
    text: &mut Vec<u8>,
    cut: &Cut,
    table: &Table<'_>,
    verdict: &FirmVerdict<'_>,
) -> Result<(), AllocError>
    requires { IsGrouped (cut_listed cut.now) table.now }
    ensures { AppendsWhole result text.old.items text.new.items (firm_report_text cut.now (firm_shown verdict.now)) }
{
    let len = text.len();
    push_firm_verdict(text, verdict)?;
    let pushed = push_folders(alloc, text, cut, table, cut.folders());
    or_as_before(text, len, pushed)
}

fn push_firm_verdict(text: &mut Vec<u8>, verdict: &FirmVerdict<'_>) -> Result<(), AllocError>
    ensures { AppendsWhole result text.old.items text.new.items (firm_verdict_line (firm_shown verdict.now)) }
{
    match *verdict {
        FirmVerdict::Firm => push_firm(text),
        FirmVerdict::Unsettled(reason, folder, name, device) => {
            push_not_firm(text, word_of(reason), folder, name, device)
        }
        FirmVerdict::Loose(reason, folder, name, device) => {
            push_not_firm(text, firm_word_of(reason), folder, name, Some(device))
        }
    }
}

fn push_verdict(text: &mut Vec<u8>, verdict: &Verdict<'_>) -> Result<(), AllocError>
    ensures { AppendsWhole result text.old.items text.new.items (verdict_line (verdict_shown verdict.now)) }
{
    match *verdict {
        Verdict::Settled => push_settled(text),
        Verdict::Not(reason, folder, name, device) => {
            push_not_settled(text, reason, folder, name, device)
        }
    }
}

/// Appends a line for each folder of the cut, names rising, as each report ends. Fails for memory alone, and then the text is as
/// before.
pub fn push_folders_by(
    alloc: Global,
    text: &mut Vec<u8>,
    cut: &Cut,
    table: &Table<'_>,
) -> Result<(), AllocError>
    requires { IsGrouped (cut_listed cut.now) table.now }
    ensures { AppendsWhole result text.old.items text.new.items (folders_text cut.now cut.now.folders) }
{
    push_folders(alloc, text, cut, table, cut.folders())
}

fn push_folders(
    alloc: Global,
    text: &mut Vec<u8>,
    cut: &Cut,
    table: &Table<'_>,
    folders: &[SharedFolder],
) -> Result<(), AllocError>
    requires { IsGrouped (cut_listed cut.now) table.now }
    ensures { AppendsWhole result text.old.items text.new.items (folders_text cut.now folders.now) }
{
    let len = text.len();
    for held in folders {
        let pushed = push_held(alloc, text, cut, table, held);
        or_as_before(text, len, pushed)?;
    }
    Ok(())
}

#[tactic(auto, unfolding(crate::specs::Report::folder_text))]
fn push_held(
    alloc: Global,
    text: &mut Vec<u8>,
    cut: &Cut,
    table: &Table<'_>,
    held: &SharedFolder,
) -> Result<(), AllocError>
    requires { IsGrouped (cut_listed cut.now) table.now }
    ensures { AppendsWhole result text.old.items text.new.items (folder_text cut.now held.now) }
{
    let names = known_in(alloc, cut, table.entries(), &held.folder)?;
    let shares = held.shares.as_slice();
    let deleted = count_deleted(shares, names.as_slice());
    push_folder(text, &held.folder, names.len(), deleted, shares.len())
}
