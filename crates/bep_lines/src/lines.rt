//! The lines of the report. Each function appends a line to a text; it fails for memory alone, and then the text is as
//! before.
ghost use Rattle.std.specs.Prelude.{◌≡◌, option_map};
ghost use Rattle.std.specs.Fmt.{decimal};
ghost use Rattle.std.specs.Option.{option_copied};
ghost use Rattle.bep_model.specs.FirmVerdict.{Firm};
ghost use Rattle.bep_model.specs.Verdict.{Settled, Not};
ghost use Rattle.bep_lines.specs.Lines.{step_line};
ghost use Rattle.bep_lines.specs.Lines as spec;
ghost use Rattle.bep_lines.specs.Text.{AppendsWhole, piece_text, printed};

use crate::text::{Piece, or_as_before, push_pieces};
use crate::words::word_of;
use bep_model::Reason;
use bep_record::{DeviceId, FolderName, Name};
use std::alloc::AllocError;

/// Appends the line of a cut that is settled.
pub fn push_settled(text: &mut Vec<u8>) -> Result<(), AllocError>
    ensures { AppendsWhole result text.old.items text.new.items (spec.verdict_line Settled) }
{
    push_pieces(text, &[Piece::Text("settled\n")])
}

/// Appends the line of a cut that isn't settled: the reason, and where it fails.
pub fn push_not_settled<'a>(
    text: &mut Vec<u8>,
    reason: Reason,
    folder: &'a FolderName,
    name: &'a Name,
    device: Option<DeviceId>,
) -> Result<(), AllocError>
    ensures { AppendsWhole result text.old.items text.new.items
        (spec.verdict_line (Not reason folder.now name.now device)) }
{
    let len = text.len();
    text.extend_from_slice("not settled: ".as_bytes())?;
    let pushed = push_failure(text, reason, folder, name, device);
    or_as_before(text, len, pushed)
}

/// Appends the line of a cut that is firm.
pub fn push_firm(text: &mut Vec<u8>) -> Result<(), AllocError>
    ensures { AppendsWhole result text.old.items text.new.items (spec.firm_verdict_line Firm) }
{
    push_pieces(text, &[Piece::Text("firm\n")])
}

/// Appends the line of a cut that isn't firm: the word of the reason, and where it fails.
pub fn push_not_firm<'a>(
    text: &mut Vec<u8>,
    word: &'a str,
    folder: &'a FolderName,
    name: &'a Name,
    device: Option<DeviceId>,
) -> Result<(), AllocError>
    ensures { AppendsWhole result text.old.items text.new.items
        (spec.not_firm_line word.now folder.now name.now device) }
{
    let len = text.len();
    text.extend_from_slice("not firm: ".as_bytes())?;
    let pushed = push_reason(text, word, folder, name, device);
    or_as_before(text, len, pushed)
}

/// Appends the line of a reason that fails, and where.
pub fn push_failure<'a>(
    text: &mut Vec<u8>,
    reason: Reason,
    folder: &'a FolderName,
    name: &'a Name,
    device: Option<DeviceId>,
) -> Result<(), AllocError>
    ensures { AppendsWhole result text.old.items text.new.items
        (spec.failure_line reason folder.now name.now device) }
{
    push_reason(text, word_of(reason), folder, name, device)
}

/// Appends the line of a reason that fails, by its word, and where.
pub fn push_reason<'a>(
    text: &mut Vec<u8>,
    word: &'a str,
    folder: &'a FolderName,
    name: &'a Name,
    device: Option<DeviceId>,
) -> Result<(), AllocError>
    ensures { AppendsWhole result text.old.items text.new.items
        (spec.reason_line word.now folder.now name.now device) }
{
    let reason = Piece::Text(word);
    let (folder, name) = (Piece::Text(folder.as_str()), Piece::Name(name.as_bytes()));
    let (space, end) = (Piece::Text(" "), Piece::Text("\n"));
    match device {
        None => push_pieces(text, &[reason, space, folder, space, name, end]),
        Some(device) => {
            let (on, device) = (Piece::Text(" on "), Piece::Number(device.number()));
            push_pieces(text, &[reason, space, folder, space, name, on, device, end])
        }
    }
}

/// Appends the line of a folder: how many names are known in it, how many of these no store holds, and how many devices
/// share it.
pub fn push_folder(
    text: &mut Vec<u8>,
    folder: &FolderName,
    names: usize,
    deleted: usize,
    devices: usize,
) -> Result<(), AllocError>
    ensures { AppendsWhole result text.old.items text.new.items
        (spec.folder_line folder.now names deleted devices) }
{
    let pieces = [
        Piece::Text("folder "),
        Piece::Text(folder.as_str()),
        Piece::Text(": "),
        Piece::Number(names as u64),
        Piece::Text(" names, "),
        Piece::Number(deleted as u64),
        Piece::Text(" deleted, "),
        Piece::Number(devices as u64),
        Piece::Text(" devices\n"),
    ];
    push_pieces(text, &pieces)
}

// The folder, `-` where there is none.
fn folder_or_dash<'a>(folder: Option<&'a FolderName>) -> Piece<'a>
    ensures { piece_text result ≡ spec.part_text (option_copied folder.entry) }
{
    match folder {
        None => Piece::Text("-"),
        Some(folder) => Piece::Text(folder.as_str()),
    }
}

// The device, `-` where there is none.
fn device_or_dash(device: Option<DeviceId>) -> Piece<'static>
    ensures { piece_text result ≡ spec.part_text (option_map decimal device) }
{
    match device {
        None => Piece::Text("-"),
        Some(device) => Piece::Number(device.number()),
    }
}

// The name as it is printed, `-` where there is none.
fn name_or_dash<'a>(name: Option<&'a Name>) -> Piece<'a>
    ensures { piece_text result ≡ spec.part_text (option_map printed (option_copied name.entry)) }
{
    match name {
        None => Piece::Text("-"),
        Some(name) => Piece::Name(name.as_bytes()),
    }
}

/// Appends the line of a document that is refused: the number and the word of the fault, and, for the numbers that have
/// one, its place.
pub fn push_refused<'a>(
    text: &mut Vec<u8>,
    number: u32,
    word: &'a str,
    folder: Option<&'a FolderName>,
    device: Option<DeviceId>,
    name: Option<&'a Name>,
) -> Result<(), AllocError>
    ensures { AppendsWhole result text.old.items text.new.items
        (spec.refused_line number word.now (option_copied folder.entry) device (option_copied name.entry)) }
{
    let (said, word) = (Piece::Text("refused: "), Piece::Text(word));
    let fault = Piece::Number(u64::from(number));
    let (space, end) = (Piece::Text(" "), Piece::Text("\n"));
    if matches!(number, 185..=189) {
        let (folder, device) = (folder_or_dash(folder), device_or_dash(device));
        let name = name_or_dash(name);
        let pieces = [
            said, fault, space, word, space, folder, space, device, space, name, end,
        ];
        push_pieces(text, &pieces)
    } else {
        push_pieces(text, &[said, fault, space, word, end])
    }
}

/// Appends the line of a scenario's step that is refused: which one, counted from 1, and why.
pub fn push_step(text: &mut Vec<u8>, place: u64, number: u32, word: &str) -> Result<(), AllocError>
    ensures { AppendsWhole result text.old.items text.new.items (step_line place number word.now) }
{
    let pieces = [
        Piece::Text("step "),
        Piece::Number(place),
        Piece::Text(": "),
        Piece::Number(u64::from(number)),
        Piece::Text(" "),
        Piece::Text(word),
        Piece::Text("\n"),
    ];
    push_pieces(text, &pieces)
}
