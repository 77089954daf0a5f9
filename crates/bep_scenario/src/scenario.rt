//! A scenario: a cluster before its first step, and its steps, from the bytes of a document in one call.
ghost use Rattle.bep_document.specs.Reading.{AnswersBy};
ghost use Rattle.bep_scenario.specs.Scenario.{said, scenario_of};

use crate::{LazyScenario, read_lazy_scenario};
use bep_config::Config;
use bep_document::DocError;
use bep_json::DocVersion;
use bep_machine::Step;
use bep_store::MemStore;
use std::alloc::Global;

/// A cluster before its first step, and the steps that it is to take.
#[derive(Drop)]
pub struct Scenario {
    /// The document's version.
    pub version: DocVersion,
    /// Folders, the devices that share them, each with an empty store, and links.
    pub config: Config<MemStore>,
    /// The steps, the first one first.
    pub steps: Vec<Step>,
}

/// The scenario that the bytes of a document say, or the fault for which it is refused: the one with the smallest number
/// that applies, at its first place. `Memory` may come in place of any answer.
///
/// This project's profile.
pub fn read_scenario(alloc: Global, bytes: &[u8]) -> Result<Scenario, DocError>
    ensures { AnswersBy said result (scenario_of bytes.now) }
{
    let LazyScenario {
        version,
        config,
        steps,
    } = read_lazy_scenario(alloc, bytes)?;
    let steps = steps.collect(alloc)?;
    Ok(Scenario {
        version,
        config,
        steps,
    })
}
