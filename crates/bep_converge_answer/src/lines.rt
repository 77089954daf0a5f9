//! The lines of the report on whether a cut converges. A function that appends some fails for memory alone, and then the text is
//! as before.
ghost use Rattle.std.specs.Prelude.{◌≡◌, map};
ghost use Rattle.std.specs.List.{flat_map};
ghost use Rattle.bep_lines.specs.Text.{AppendsWhole};
ghost use Rattle.bep_converge.specs.ConvergeVerdict.{Converging, NotConverging};
ghost use Rattle.bep_converge_check.specs.Hindrance.{converge_shown};
ghost use Rattle.bep_converge_check.specs.Progress.{progress_shown};
ghost use Rattle.bep_converge_answer.specs.Lines.{converge_line, progress_line};
ghost use Rattle.bep_converge_answer.specs.inner.Told.{lent_line};
ghost use Rattle.bep_converge_answer.specs.Lines as spec;

use bep_converge::ConvergeReason;
use bep_converge_check::{ConvergeVerdict, FolderProgress};
use bep_lines::{Piece, or_as_before, push_pieces, push_reason};
use bep_record::{DeviceId, FolderName, Name};
use std::alloc::AllocError;

/// Appends the line of the verdict.
pub fn push_convergence(text: &mut Vec<u8>, verdict: &ConvergeVerdict<'_>) -> Result<(), AllocError>
    ensures { AppendsWhole result text.old.items text.new.items (converge_line (converge_shown verdict.now)) }
{
    match *verdict {
        ConvergeVerdict::Converging => push_converging(text),
        ConvergeVerdict::NotConverging(reason, folder, name, device) => {
            push_not_converging(text, reason, folder, name, device)
        }
    }
}

/// Appends the line of a cut that converges.
pub fn push_converging(text: &mut Vec<u8>) -> Result<(), AllocError>
    ensures { AppendsWhole result text.old.items text.new.items (converge_line Converging) }
{
    push_pieces(text, &[Piece::Text("converging\n")])
}

// Appends the line of a cut that doesn't: the reason, and where it fails.
fn push_not_converging<'a>(
    text: &mut Vec<u8>,
    reason: ConvergeReason,
    folder: &'a FolderName,
    name: &'a Name,
    device: Option<DeviceId>,
) -> Result<(), AllocError>
    ensures { AppendsWhole result text.old.items text.new.items (converge_line (NotConverging reason folder.now name.now device)) }
{
    let len = text.len();
    text.extend_from_slice("not converging: ".as_bytes())?;
    let pushed = push_reason(text, converge_word_of(reason), folder, name, device);
    or_as_before(text, len, pushed)
}

/// The word by which the report names a reason.
pub fn converge_word_of(reason: ConvergeReason) -> &'static str
    ensures { result.now ≡ spec.converge_word_of reason }
{
    match reason {
        ConvergeReason::NothingPrevails => "NothingPrevails",
        ConvergeReason::Concurrent => "Concurrent",
        ConvergeReason::ContentDiffers => "ContentDiffers",
        ConvergeReason::LocalOnly => "LocalOnly",
        ConvergeReason::StoreUnclean => "StoreUnclean",
        ConvergeReason::StoreDiffers => "StoreDiffers",
        ConvergeReason::SendOnly => "SendOnly",
        ConvergeReason::WouldCopy => "WouldCopy",
    }
}

/// Appends the lines of the folders, whose names have come so far.
pub fn push_progress(text: &mut Vec<u8>, folders: &[FolderProgress<'_>]) -> Result<(), AllocError>
    ensures { AppendsWhole result text.old.items text.new.items (flat_map progress_line (map progress_shown folders.now)) }
{
    push_each(text, folders)
}

// The same, told by what is lent.
fn push_each(text: &mut Vec<u8>, folders: &[FolderProgress<'_>]) -> Result<(), AllocError>
    ensures { AppendsWhole result text.old.items text.new.items (flat_map lent_line folders.now) }
{
    let len = text.len();
    for one in folders {
        let pushed = push_folder(text, one);
        or_as_before(text, len, pushed)?;
    }
    Ok(())
}

// Appends the line of a folder.
#[tactic(auto, unfolding(crate::specs::inner::Told::lent_line))]
fn push_folder(text: &mut Vec<u8>, one: &FolderProgress<'_>) -> Result<(), AllocError>
    ensures { AppendsWhole result text.old.items text.new.items (lent_line one.now) }
{
    let pieces = [
        Piece::Text("folder "),
        Piece::Text(one.folder.as_str()),
        Piece::Text(": "),
        Piece::Number(one.names),
        Piece::Text(" names, "),
        Piece::Number(one.deleted),
        Piece::Text(" deleted, "),
        Piece::Number(one.devices),
        Piece::Text(" devices, "),
        Piece::Number(one.to_come),
        Piece::Text(" pairs not yet at the winner\n"),
    ];
    push_pieces(text, &pieces)
}
