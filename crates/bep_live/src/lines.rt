//! The line of the verdict on a run.
ghost use Rattle.std.specs.Prelude.{IsUtf8, OnOk};
ghost use Rattle.bep_lines.specs.Text.{AppendsWhole};
ghost use Rattle.bep_live.specs.Lines.{run_line, told_line};

use bep_fit::RunVerdict;
use bep_lines::{Piece, push_pieces};
use std::alloc::AllocError;

/// Appends the line of the verdict: how many events the run has, or the least ticket at fault. It fails for memory alone, and
/// then the bytes are as before. A text stays one.
pub fn push_run(text: &mut Vec<u8>, verdict: RunVerdict) -> Result<(), AllocError>
    ensures line { AppendsWhole result text.old.items text.new.items (run_line verdict) }
    ensures text { OnOk result (IsUtf8 text.old.items → IsUtf8 text.new.items) }
{
    match verdict {
        RunVerdict::Fits(count) => push_text(text, "run fits: ", count),
        RunVerdict::Misfit(_, ticket) => push_text(text, "run misfit: ", ticket),
    }
}

// Appends the line of the words and the number. A text stays one.
fn push_text(text: &mut Vec<u8>, words: &str, number: u64) -> Result<(), AllocError>
    ensures line { AppendsWhole result text.old.items text.new.items (told_line words.now number) }
    ensures text { OnOk result (IsUtf8 text.old.items → IsUtf8 text.new.items) }
{
    push_line(text, words, number)
}

fn push_line(text: &mut Vec<u8>, words: &str, number: u64) -> Result<(), AllocError>
    ensures { AppendsWhole result text.old.items text.new.items (told_line words.now number) }
{
    let pieces = [Piece::Text(words), Piece::Number(number), Piece::Text("\n")];
    push_pieces(text, &pieces)
}
