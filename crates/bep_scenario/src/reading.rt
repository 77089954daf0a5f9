//! The reading of a scenario document: from its bytes to what it says, or to its fault.
ghost use Rattle.std.specs.Prelude.{◌≡◌, Some};
ghost use Rattle.serde_json.specs.Data.{Data};
ghost use Rattle.bep_tree.specs.Read.{tree_of};
ghost use Rattle.bep_tree.specs.Walk.{Reaches};
ghost use Rattle.bep_json.specs.Taking.{judged};
ghost use Rattle.bep_document.specs.Reading.{Answers, unless};
ghost use Rattle.bep_scenario.specs.Faults.{first_fault};
ghost use Rattle.bep_scenario.specs.Reading.{is_scenario, read_scenario, reading_of};
ghost use Rattle.bep_scenario.specs.inner.Members.{parts_read};

use crate::ScenarioParts;
use crate::faults::fault_of;
use crate::members::{ScenarioSlots, scenario_told};
use bep_document::{DocError, thing_told, unless_found, versioned_text};
use bep_json::{DocVersion, Told, take_object};
use bep_tree::{MAX_DEPTH, Reader, Scratch, WalkError};
use std::alloc::Global;

/// What the bytes of a scenario document say, or the fault for which it is refused: the one with the smallest number that
/// applies, at its first place. `Memory` may come in place of any answer.
///
/// This project's profile.
pub fn read_scenario_parts(alloc: Global, bytes: &[u8]) -> Result<ScenarioParts, DocError>
    ensures { Answers result (reading_of bytes.now) }
{
    let mut scratch = Scratch::new(alloc);
    let (version, text) = versioned_text(bytes, &mut scratch)?;
    let told = scenario_in(alloc, version, text, &mut scratch)?;
    parts_read(alloc, told)
}

// What is told of the scenario, of this version, in a text.
fn scenario_in(
    alloc: Global,
    version: DocVersion,
    text: &str,
    scratch: &mut Scratch,
) -> Result<Told<ScenarioParts>, WalkError>
    ensures { (d : Data) → tree_of text.now ≡ Some d → Reaches result (λ told. told ≡ judged (is_scenario version d) (read_scenario version d)) }
{
    let mut reader = Reader::new(text, scratch)?;
    let slots = take_object::<ScenarioSlots>(alloc, version, &mut reader, MAX_DEPTH)?;
    let told = scenario_told(alloc, version, slots)?;
    Ok(told)
}

// What is read of parts that were told: the parts, if they have no fault.
fn parts_read(alloc: Global, told: Told<ScenarioParts>) -> Result<ScenarioParts, DocError>
    ensures { Answers result (parts_read told) }
{
    judged(alloc, thing_told(told)?)
}

// The parts, if they have no fault.
fn judged(alloc: Global, parts: ScenarioParts) -> Result<ScenarioParts, DocError>
    ensures { Answers result (unless (first_fault parts) parts) }
{
    let found = fault_of(alloc, &parts)?;
    Ok(unless_found(found, parts)?)
}
