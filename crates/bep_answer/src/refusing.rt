//! What is answered to a document that is refused.
ghost use Rattle.std.specs.Prelude.{◌≡◌, IfOk};
ghost use Rattle.bep_answer.specs.Answer.{fault_text};
ghost use Rattle.bep_answer.specs.Beside.{IsHintOn};
ghost use Rattle.bep_answer.specs.declared.outcome.Outcome.TheVariants as outcomes;

use crate::exchanging::Beside;
use crate::outcome::Outcome;
use bep_document::DocFault;
use bep_hints::{Expected, hint_at};
use bep_lines::push_refused;
use std::alloc::{AllocError, Global};

/// That the document is refused, and the fault's line.
pub fn refusal(alloc: Global, fault: &DocFault) -> Result<(Outcome, Vec<u8>), AllocError>
    ensures { IfOk result (λ answer. (answer.0 ≡ outcomes.Refused) × (answer.1.items ≡ fault_text fault.now)) }
{
    let text = fault_line(alloc, fault)?;
    Ok((Outcome::Refused, text))
}

/// The line of a fault.
pub fn fault_line(alloc: Global, fault: &DocFault) -> Result<Vec<u8>, AllocError>
    ensures { IfOk result (λ text. text.items ≡ fault_text fault.now) }
{
    let mut text = Vec::new(alloc);
    push_refused(
        &mut text,
        fault.fault.number(),
        fault.fault.name(),
        fault.folder.as_ref(),
        fault.device,
        fault.name.as_ref(),
    )?;
    Ok(text)
}

/// What is told beside the refusal: where these bytes are at fault as the document that was expected, or that this wasn't found.
/// Nothing is looked for where the fault has a place, since its line tells that.
pub fn hint_for(alloc: Global, bytes: &[u8], fault: &DocFault, expected: Expected) -> Option<Beside>
    ensures { IsHintOn expected fault.now result }
{
    if fault.has_place() {
        return None;
    }
    match hint_at(alloc, bytes, expected) {
        Ok(hint) => Some(Beside::Hint(hint)),
        Err(missed) => Some(Beside::NotFound(missed)),
    }
}
