//! A scenario's run.
ghost use Rattle.std.specs.Prelude.{IfOk};
ghost use Rattle.bep_scenario.specs.Scenario.{said_lazily};
ghost use Rattle.bep_play.specs.Beside.{TellsOfRun};
ghost use Rattle.bep_play.specs.Played.{IsPlayed, IsRunOfBytes};

use crate::ending::report_on_end;
use crate::play::played;
use bep_answer::{Answer, Outcome, Question, hint_for, refusal};
use bep_document::DocError;
use bep_hints::Expected;
use bep_scenario::{LazyScenario, read_lazy_scenario};
use std::alloc::{AllocError, Global};

/// The report on where the scenario leads, and where the scenario is refused, a hint on where it is at fault.
#[derive(Drop)]
pub struct ReportOnEnd;

impl Question<Outcome> for ReportOnEnd {
    ghost says = { λ _. IsRunOfBytes };

    ghost tells = { λ _. TellsOfRun };

    fn answer(self, alloc: Global, bytes: Vec<u8>) -> Result<Answer<Outcome>, AllocError> {
        match read_lazy_scenario(alloc, bytes.as_slice()) {
            Ok(scenario) => {
                drop(bytes);
                Ok((run(alloc, scenario)?, None))
            }
            Err(DocError::Refused(fault)) => {
                let refused = refusal(alloc, &fault)?;
                Ok((
                    refused,
                    hint_for(alloc, bytes.as_slice(), &fault, Expected::Scenario),
                ))
            }
            Err(DocError::Memory) => Err(AllocError),
        }
    }
}

// The outcome of the scenario's run, and the text.
fn run(alloc: Global, scenario: LazyScenario) -> Result<(Outcome, Vec<u8>), AllocError>
    ensures { IfOk result (λ answer. IsPlayed (said_lazily scenario) answer.0 answer.1.items) }
{
    let version = scenario.version;
    let (cluster, told) = played(alloc, scenario)?;
    report_on_end(alloc, version, cluster, told)
}
