//! The steps of a scenario, each made once more where memory was wanting for it.
use crate::telling::Told;
use crate::twice;
use bep_core::{Cluster, Why};
use bep_lines::push_step;
use bep_machine::{Moved, Step};
use bep_scenario::Scenario;
use bep_store::MemStore;
use std::alloc::{AllocError, Global};

/// The cluster to which the steps lead. The lines of those that are refused are told.
pub(crate) fn play(
    alloc: Global,
    scenario: Scenario,
    told: &mut Told,
) -> Result<Cluster<MemStore>, AllocError> {
    let mut cluster = Cluster::new(alloc, scenario.config)?;
    let mut place: u64 = 0;
    for step in scenario.steps {
        place = place.saturating_add(1);
        let moved = make(alloc, &mut cluster, step, told)?;
        tell(told, place, moved)?;
    }
    Ok(cluster)
}

// Makes the step.
fn make(
    alloc: Global,
    cluster: &mut Cluster<MemStore>,
    step: Step,
    told: &mut Told,
) -> Result<Result<Moved, Why>, AllocError> {
    let copy = twice!(told; step.copy(alloc))?;
    match cluster.apply(copy) {
        Err(Why::Memory) => {
            told.is_twice = true;
            Ok(cluster.apply(step))
        }
        moved => Ok(moved),
    }
}

// Tells of a step that was refused.
fn tell(told: &mut Told, place: u64, moved: Result<Moved, Why>) -> Result<(), AllocError> {
    match moved {
        Ok(_) => Ok(()),
        Err(why) => match (why.number(), why.name()) {
            (Some(number), Some(name)) => {
                twice!(told; push_step(&mut told.text, place, number, name))
            }
            _ => Err(AllocError),
        },
    }
}
