//! The steps of a scenario, made one after another.
ghost use Rattle.std.specs.Prelude.{◌≡◌, ◌++◌, IfOk, IsUtf8, OnOk};
ghost use Rattle.bep_core.specs.Reached.{IsReached};
ghost use Rattle.bep_lines.specs.Lines.{step_line};
ghost use Rattle.bep_peer.specs.network.Network.{cluster_of};
ghost use Rattle.bep_scenario.specs.Scenario.{said_lazily};
ghost use Rattle.bep_play.specs.Played.{EndsAt, IsTold, Leads};

use bep_core::{Cluster, Why, reached_is_gapless};
use bep_cut::cut_says_cluster;
use bep_lines::push_step;
use bep_machine::Moved;
use bep_scenario::{LazyScenario, Steps};
use bep_store::MemStore;
use std::alloc::{AllocError, Global};

/// Makes the scenario's steps from where it begins, and answers the cluster to which they lead, whose cut says what it does,
/// and the lines of those that are refused. What its devices know of each other has no gap.
pub fn played(
    alloc: Global,
    scenario: LazyScenario,
) -> Result<(Cluster<MemStore>, Vec<u8>), AllocError>
    ensures ends { IfOk result (λ end. EndsAt (said_lazily scenario) end.0 end.1.items) }
    ensures text { IfOk result (λ end. IsUtf8 end.1.items) }
    ensures reached { IfOk result (λ end. IsReached (cluster_of end.0)) }
{
    let mut cluster = Cluster::new(alloc, scenario.config)?;
    cluster.cluster_is_sound();
    let told = play(alloc, &mut cluster, scenario.steps)?;
    cluster.cluster_is_sound();
    cut_says_cluster();
    reached_is_gapless();
    // `peers` is called for its clause `a_network`
    let _devices = cluster.peers();
    Ok((cluster, told))
}

// Makes the steps, and answers the lines of those that are refused. Where memory is wanting the cluster is left
// somewhere among them.
fn play(alloc: Global, cluster: &mut Cluster<MemStore>, steps: Steps) -> Result<Vec<u8>, AllocError>
    ensures leads { IfOk result (λ told. Leads (cluster_of cluster.old) steps (cluster_of cluster.new) told.items) }
    ensures text { IfOk result (λ told. IsUtf8 told.items) }
{
    let mut told = Vec::new(alloc);
    let mut place: u64 = 0;
    // `len` is called for its clause: there are no more steps than it can count, so each place is a number
    let _count = steps.len();
    for step in steps {
        place += 1;
        let answer = cluster.apply(step);
        tell(&mut told, place, answer)?;
    }
    Ok(told)
}

// Appends the line of a step that was refused, if it was; want of memory ends the run.
fn tell(told: &mut Vec<u8>, place: u64, answer: Result<Moved, Why>) -> Result<(), AllocError>
    ensures tells { OnOk result (IsTold place answer told.old.items told.new.items) }
    ensures text { OnOk result (IsUtf8 told.old.items → IsUtf8 told.new.items) }
{
    match answer {
        Ok(_moved) => Ok(()),
        Err(why) => match (why.number(), why.name()) {
            (Some(number), Some(name)) => push_line(told, place, number, name),
            _ => Err(AllocError),
        },
    }
}

// Appends the line of a step that was refused. A text stays one.
fn push_line(told: &mut Vec<u8>, place: u64, number: u32, word: &str) -> Result<(), AllocError>
    ensures line { OnOk result (told.new.items ≡ told.old.items ++ step_line place number word.now) }
    ensures text { OnOk result (IsUtf8 told.old.items → IsUtf8 told.new.items) }
{
    push_step(told, place, number, word)
}
