//! The steps of a cluster, made of what a scenario says of them.
ghost use Rattle.std.specs.Prelude.{◌≡◌, map};
ghost use Rattle.std.specs.Iterator.{YieldsFirst, item_count};
ghost use Rattle.std.specs.List.{AllByRecursion};
ghost use Rattle.bep_scenario.specs.Faultless.{HasNode, step_of};

use crate::StepParts;
use bep_machine::Step;
use bep_record::{Items, Node};
use std::marker::Model;
use std::vec::IntoIter;

/// The steps that are left of a scenario, the first one first. Each is made when it is asked for, of what the scenario says
/// of it, so no list of steps stands in memory beside the list of what is said.
#[derive(Drop)]
pub struct Steps {
    parts: IntoIter<StepParts>,
}

impl Model for Steps {
    ghost use Rattle.std.specs.Prelude.{List, map};
    ghost use Rattle.std.specs.List.{AllByRecursion};
    ghost use Rattle.bep_machine.specs.declared.step.Step.{Step};
    ghost use Rattle.bep_scenario.specs.Faultless.{HasNode, step_of};

    ghost Value = { List Step };

    ghost view = { λ steps. map step_of steps.parts.rest.items };

    ghost invariant = { λ steps. AllByRecursion HasNode steps.parts.rest.items };
}

impl Iterator for Steps {
    type Item = Step;

    ghost next_gives = { YieldsFirst (λ steps. steps) };

    ghost remaining = { item_count (λ steps. steps) };

    fn next(&mut self) -> Option<Step> {
        let part = self.parts.next()?;
        Some(step_of(part))
    }

    fn size_hint(&self) -> (usize, Option<usize>) {
        let left = self.len();
        (left, Some(left))
    }
}

impl ExactSizeIterator for Steps {
    fn len(&self) -> usize {
        self.parts.len()
    }
}

/// The steps that a scenario without fault says.
pub fn steps_of(parts: Items<StepParts>) -> Steps
    requires { AllByRecursion HasNode parts }
    ensures { result ≡ map step_of parts }
{
    Steps {
        parts: parts.into_vec().into_iter(),
    }
}

fn step_of(part: StepParts) -> Step
    requires { HasNode part }
    ensures { result ≡ step_of part }
{
    match part {
        StepParts::Edit(device, folder, node) => {
            Step::Edit(device, folder, node.name, Node::read(node.parts).unwrap())
        }
        StepParts::Other(step) => step,
    }
}
