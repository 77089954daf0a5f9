//! The lines that are written to a stream of rows.
ghost use Rattle.std.specs.Prelude.{◌≡◌};
ghost use Rattle.bep_lines.specs.Text.{AppendsWhole};
ghost use Rattle.bep_rows_answer.specs.Lines.{met_line, not_met_line, refusal_line, standing_line, verdict_line_of};

use bep_document::DocFault;
use bep_lines::{
    Piece, firm_word_of, or_as_before, push_failure, push_firm, push_not_firm, push_not_settled,
    push_pieces, push_reason, push_refused, push_settled, word_of,
};
use bep_model::Reason;
use bep_record::{DeviceId, FolderName, Name};
use bep_rows::{Aim, Standing};
use std::alloc::AllocError;

// Appends the line of a name that isn't what is asked, and nothing for another. Fails for memory alone, and then the text is as
// before.
pub(crate) fn push_standing(text: &mut Vec<u8>, standing: &Standing) -> Result<(), AllocError>
    ensures { AppendsWhole result text.old.items text.new.items (standing_line standing.now) }
{
    match standing {
        Standing::Met => Ok(()),
        Standing::Not(reason, folder, name, device) => {
            push_failure(text, *reason, folder, name, *device)
        }
        Standing::Loose(reason, folder, name, device) => {
            push_reason(text, firm_word_of(*reason), folder, name, Some(*device))
        }
        Standing::Unwon(folder, name) => push_failure(text, Reason::NotWinner, folder, name, None),
    }
}

// Appends the line of the verdict on all names. Fails for memory alone, and then the text is as before.
pub(crate) fn push_verdict(
    text: &mut Vec<u8>,
    aim: Aim,
    standing: &Standing,
) -> Result<(), AllocError>
    ensures { AppendsWhole result text.old.items text.new.items (verdict_line_of aim standing.now) }
{
    match standing {
        Standing::Met => push_met(text, aim),
        Standing::Not(reason, folder, name, device) => {
            push_not_met(text, aim, *reason, folder, name, *device)
        }
        Standing::Loose(reason, folder, name, device) => {
            push_not_firm(text, firm_word_of(*reason), folder, name, Some(*device))
        }
        Standing::Unwon(folder, name) => {
            push_not_met(text, aim, Reason::NotWinner, folder, name, None)
        }
    }
}

fn push_met(text: &mut Vec<u8>, aim: Aim) -> Result<(), AllocError>
    ensures { AppendsWhole result text.old.items text.new.items (met_line aim) }
{
    match aim {
        Aim::Settled => push_settled(text),
        Aim::Firm => push_firm(text),
    }
}

fn push_not_met<'a>(
    text: &mut Vec<u8>,
    aim: Aim,
    reason: Reason,
    folder: &'a FolderName,
    name: &'a Name,
    device: Option<DeviceId>,
) -> Result<(), AllocError>
    ensures { AppendsWhole result text.old.items text.new.items (not_met_line aim reason folder.now name.now device) }
{
    match aim {
        Aim::Settled => push_not_settled(text, reason, folder, name, device),
        Aim::Firm => push_not_firm(text, word_of(reason), folder, name, device),
    }
}

// Appends the line of a line of the stream that is refused, counted from 1. Fails for memory alone, and then the text is as before.
pub(crate) fn push_refusal(
    text: &mut Vec<u8>,
    line: u64,
    fault: &DocFault,
) -> Result<(), AllocError>
    ensures { AppendsWhole result text.old.items text.new.items (refusal_line line fault.now) }
{
    let len = text.len();
    push_pieces(
        text,
        &[Piece::Text("line "), Piece::Number(line), Piece::Text(": ")],
    )?;
    let pushed = push_refused(
        text,
        fault.fault.number(),
        fault.fault.name(),
        fault.folder.as_ref(),
        fault.device,
        fault.name.as_ref(),
    );
    or_as_before(text, len, pushed)
}
