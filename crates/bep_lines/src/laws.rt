//! What follows from the definitions alone. The function does nothing; its contract is the law.
ghost use Rattle.bep_lines.specs.Legible.{LinesTellFirmVerdicts, LinesTellVerdicts, RefusalsAreNoVerdicts};

/// A verdict's line tells the verdict, whatever bytes its file name has, and whatever follows the line. No refusal's line can
/// be taken for one.
pub fn lines_tell_verdicts()
    ensures settled { LinesTellVerdicts }
    ensures firm { LinesTellFirmVerdicts }
    ensures refused { RefusalsAreNoVerdicts }
{}
