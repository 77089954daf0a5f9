//! A scenario whose steps are made one at a time, from the bytes of a document in one call.
ghost use Rattle.bep_document.specs.Reading.{AnswersBy};
ghost use Rattle.bep_scenario.specs.Scenario.{said_lazily, scenario_of};

use crate::{Steps, config_of, read_scenario_parts, steps_of};
use bep_config::{Config, ConfigError};
use bep_document::DocError;
use bep_json::DocVersion;
use bep_store::MemStore;
use std::alloc::Global;

/// A cluster before its first step, and the steps that it is to take, which are made one at a time.
#[derive(Drop)]
pub struct LazyScenario {
    /// The document's version.
    pub version: DocVersion,
    /// Folders, the devices that share them, each with an empty store, and links.
    pub config: Config<MemStore>,
    /// The steps, the first one first.
    pub steps: Steps,
}

/// The scenario that the bytes of a document say, or the fault for which it is refused, as `read_scenario` answers them. A
/// fault of any step is found before the first one is made. `Memory` may come in place of any answer.
///
/// This project's profile.
pub fn read_lazy_scenario(alloc: Global, bytes: &[u8]) -> Result<LazyScenario, DocError>
    ensures { AnswersBy said_lazily result (scenario_of bytes.now) }
{
    let parts = read_scenario_parts(alloc, bytes)?;
    let version = parts.cluster.version;
    let config = match config_of(alloc, &parts.cluster) {
        Ok(config) => config,
        Err(ConfigError::Memory) => return Err(DocError::Memory),
        Err(ConfigError::ConfigBad) => unreachable!(),
    };
    Ok(LazyScenario {
        version,
        config,
        steps: steps_of(parts.steps),
    })
}
