//! The faults of a scenario that have a place.
ghost use Rattle.std.specs.Prelude.{◌≡◌, IfOk};
ghost use Rattle.bep_scenario.specs.Faults.{bad_step, first_fault};

use crate::{ScenarioParts, StepParts};
use bep_document::{
    DocFault, Fault, Found, Judge, first_bad_link, first_fault, first_of, first_twice, is_node,
};
use std::alloc::Global;

// Steps whose nodes don't fit their kinds.
#[derive(Clone, Copy)]
struct BadSteps;

impl Judge<StepParts> for BadSteps {
    ghost fault_at = { λ _. bad_step };

    fn fault_at(&self, alloc: Global, _earlier: &[StepParts], item: &StepParts) -> Found {
        let StepParts::Edit(device, folder, node) = item else {
            return Ok(None);
        };
        if is_node(&node.parts) {
            return Ok(None);
        }
        let fault = DocFault::at_name(alloc, Fault::RecordBad, folder, *device, &node.name)?;
        Ok(Some(fault))
    }
}

// The first fault that has a place, or want of memory.
#[tactic(auto, unfolding(crate::specs::Faults::first_fault))]
pub(crate) fn fault_of(alloc: Global, parts: &ScenarioParts) -> Found
    ensures { IfOk result (λ found. found ≡ first_fault parts.now) }
{
    first_of!(
        first_twice(alloc, &parts.cluster),
        first_fault(alloc, &BadSteps, parts.steps.as_slice()),
        first_bad_link(alloc, &parts.cluster)
    )
}
