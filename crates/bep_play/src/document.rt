//! The check document of a scenario's end.
ghost use Rattle.std.specs.Prelude.{IfOk, IsUtf8};
ghost use Rattle.bep_answer.specs.Beside.{AreLines};
ghost use Rattle.bep_scenario.specs.Scenario.{said_lazily};
ghost use Rattle.bep_play.specs.Beside.{TellsOfEnd, TellsSteps};
ghost use Rattle.bep_play.specs.Played.{IsEndOfBytes, IsPlayedTo};

use crate::ending::document_of_end;
use crate::play::played;
use bep_answer::{Answer, Beside, Certified, Question, fault_line, hint_for};
use bep_document::DocError;
use bep_hints::Expected;
use bep_scenario::{LazyScenario, read_lazy_scenario};
use std::alloc::{AllocError, Global};

/// The check document of where the scenario leads, with the lines of refused steps beside it, and where the scenario is
/// refused, a hint on where it is at fault.
#[derive(Drop)]
pub struct DocumentOfEnd;

impl Question<Certified> for DocumentOfEnd {
    ghost says = { λ _. IsEndOfBytes };

    ghost tells = { λ _. TellsOfEnd };

    fn answer(self, alloc: Global, bytes: Vec<u8>) -> Result<Answer<Certified>, AllocError> {
        match read_lazy_scenario(alloc, bytes.as_slice()) {
            Ok(scenario) => {
                drop(bytes);
                run(alloc, scenario)
            }
            Err(DocError::Refused(fault)) => {
                let refused = (Certified::Refused, fault_line(alloc, &fault)?);
                Ok((
                    refused,
                    hint_for(alloc, bytes.as_slice(), &fault, Expected::Scenario),
                ))
            }
            Err(DocError::Memory) => Err(AllocError),
        }
    }
}

// The document of where the scenario's run leads, and the lines of refused steps.
fn run(alloc: Global, scenario: LazyScenario) -> Result<Answer<Certified>, AllocError>
    ensures played { IfOk result (λ told. IsPlayedTo (said_lazily scenario) told.0.0 told.0.1.items) }
    ensures tells { IfOk result (λ told. TellsSteps (said_lazily scenario) told.1) }
{
    let version = scenario.version;
    let (cluster, told) = played(alloc, scenario)?;
    let document = document_of_end(alloc, version, cluster)?;
    Ok((document, lines_of(told)))
}

/// The lines, if there are any, to be told beside an answer.
pub fn lines_of(told: Vec<u8>) -> Option<Beside>
    requires { IsUtf8 told.items }
    ensures { AreLines told.items result }
{
    if told.is_empty() {
        return None;
    }
    match String::from_utf8(told) {
        Ok(lines) => Some(Beside::Lines(lines)),
        Err(_) => unreachable!(),
    }
}
